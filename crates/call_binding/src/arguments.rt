// The arguments of a call, by kind and number.
ghost use Rattle.std.specs.Prelude.{◌≡◌, ◌<◌, ◌≤◌, All, Some, length, map, slice_get};
ghost use Rattle.std.specs.List.{position_from};
ghost use Rattle.tree_nodes.specs.Trees.{count_of, kids_at};
ghost use Rattle.tree_nodes.specs.Kept.{number_of};
ghost use Rattle.scope_rules.specs.Nodes.{kind_of, is_number};
ghost use Rattle.call_binding.specs.Reading.{plain_among, written, keywords_among, names_among, has_star, has_private};
ghost use Rattle.call_binding.specs.Rule.{target};
ghost use Rattle.call_binding.specs.Counting.{found};

use crate::Signature;
use crate::kinds::{is_keyword, is_plain, is_star};
use crate::names::{is_private, written};
use lint_values::NodeId;
use tree_nodes::Tree;

/// How many of some arguments are plain.
pub(crate) fn plain_count(tree: &Tree, args: &[NodeId]) -> usize
    requires { All (λ k. k.0 < count_of tree.now) args.now }
    ensures { result ≡ length (plain_among tree.now (map number_of args.now)) }
{
    let mut rest = args;
    let mut found = 0;
    while let [arg, tail @ ..] = rest {
        if is_plain(tree.kind(*arg)) {
            found += 1;
        }
        rest = tail;
    }
    found
}

/// How many of some arguments have a keyword.
pub(crate) fn keyword_count(tree: &Tree, args: &[NodeId]) -> usize
    requires { All (λ k. k.0 < count_of tree.now) args.now }
    ensures { result ≡ length (keywords_among tree.now (map number_of args.now)) }
{
    let mut rest = args;
    let mut found = 0;
    while let [arg, tail @ ..] = rest {
        if is_keyword(tree.kind(*arg)) {
            found += 1;
        }
        rest = tail;
    }
    found
}

/// Whether one of some arguments has `*` or `**`.
pub(crate) fn has_star(tree: &Tree, args: &[NodeId]) -> bool
    requires { All (λ k. k.0 < count_of tree.now) args.now }
    ensures { result ≡ has_star tree.now (map number_of args.now) }
{
    let mut rest = args;
    while let [arg, tail @ ..] = rest {
        if is_star(tree.kind(*arg)) {
            return true;
        }
        rest = tail;
    }
    false
}

/// Whether one of some arguments has a private name as its keyword.
pub(crate) fn has_private(tree: &Tree, args: &[NodeId]) -> bool
    requires { All (λ k. k.0 < count_of tree.now) args.now }
    ensures { result ≡ has_private (names_among tree.now (map number_of args.now)) }
{
    let mut rest = args;
    while let [arg, tail @ ..] = rest {
        if is_keyword(tree.kind(*arg)) && is_private(written(tree, *arg)) {
            return true;
        }
        rest = tail;
    }
    false
}

/// The plain argument of a number among some arguments.
pub(crate) fn plain_node(tree: &Tree, args: &[NodeId], n: usize) -> NodeId
    requires made { All (λ k. k.0 < count_of tree.now) args.now }
    requires counted { n < length (plain_among tree.now (map number_of args.now)) }
    ensures value { slice_get (plain_among tree.now (map number_of args.now)) n ≡ Some result.0 }
    ensures made { result.0 < count_of tree.now }
{
    let mut rest = args;
    let mut before = n;
    while let [arg, tail @ ..] = rest {
        if is_plain(tree.kind(*arg)) {
            if before == 0 {
                return *arg;
            }
            before -= 1;
        }
        rest = tail;
    }
    unreachable!()
}

/// The keyword of a number among some arguments.
pub(crate) fn keyword_node(tree: &Tree, args: &[NodeId], j: usize) -> NodeId
    requires made { All (λ k. k.0 < count_of tree.now) args.now }
    requires counted { j < length (keywords_among tree.now (map number_of args.now)) }
    ensures value { slice_get (keywords_among tree.now (map number_of args.now)) j ≡ Some result.0 }
    ensures made { result.0 < count_of tree.now }
{
    let mut rest = args;
    let mut before = j;
    while let [arg, tail @ ..] = rest {
        if is_keyword(tree.kind(*arg)) {
            if before == 0 {
                return *arg;
            }
            before -= 1;
        }
        rest = tail;
    }
    unreachable!()
}

/// Whether one of the first keywords among some arguments is this.
pub(crate) fn has_keyword(tree: &Tree, args: &[NodeId], first: usize, keyword: &str) -> bool
    requires { All (λ k. k.0 < count_of tree.now) args.now }
    ensures { result ≡ found first keyword.now (names_among tree.now (map number_of args.now)) }
{
    let mut rest = args;
    let mut left = first;
    while let [arg, tail @ ..] = rest {
        if is_keyword(tree.kind(*arg)) {
            if left == 0 {
                return false;
            }
            if keyword == written(tree, *arg) {
                return true;
            }
            left -= 1;
        }
        rest = tail;
    }
    false
}

/// Whether the keyword of an argument goes to a parameter.
fn goes_to(signature: &Signature, tree: &Tree, arg: NodeId, i: usize) -> bool
    requires { arg.0 < count_of tree.now }
    ensures { result ≡ is_number (target signature.now.params (written tree.now arg.0)) i }
{
    match signature.target(written(tree, arg)) {
        Some(param) => param == i,
        None => false,
    }
}

/// The first keyword among some arguments that goes to a parameter.
pub(crate) fn keyword_for(
    signature: &Signature,
    tree: &Tree,
    args: &[NodeId],
    i: usize,
) -> Option<usize>
    requires { All (λ k. k.0 < count_of tree.now) args.now }
    ensures { result ≡ position_from (λ x. is_number (target signature.now.params x) i) 0 (names_among tree.now (map number_of args.now)) }
{
    let mut rest = args;
    let mut before = 0;
    while let [arg, tail @ ..] = rest {
        if is_keyword(tree.kind(*arg)) {
            if goes_to(signature, tree, *arg, i) {
                return Some(before);
            }
            before += 1;
        }
        rest = tail;
    }
    None
}
