// Which nodes stand in the body of a `try` that looks after names that are not found.
ghost use Rattle.std.specs.Prelude.{◌≡◌, ◌<◌, All, map, codes, Some, IfOk};
ghost use Rattle.std.specs.List.{list_any};
ghost use Rattle.std.specs.Str.{bytes_eq};
ghost use Rattle.tree_nodes.specs.Trees.{count_of, kids_at, parent_at};
ghost use Rattle.tree_nodes.specs.Kept.{number_of};
ghost use Rattle.scope_bind.specs.Lists.{IsListOf, IsListUpTo};
ghost use Rattle.rule_nodes.specs.Nodes.{written};
ghost use Rattle.check_names.specs.Guards.{is_name_error, holds_name_error, catches_by, catches, is_guard, is_guarded};

use crate::kinds::{is_clause, is_try, is_tuple};
use crate::truth::{both, either};
use lint_values::{Memory, NodeId};
use rule_nodes::{is_handler, is_in_body, is_read_name, written};
use std::alloc::Global;
use tree_nodes::Tree;

fn is_named_name_error(tree: &Tree, n: NodeId) -> bool
    requires { n.0 < count_of tree.now }
    ensures { result ≡ bytes_eq (written tree.now n.0) (codes "NameError") }
{
    written(tree, n) == "NameError"
}

/// Whether a node is `NameError`.
fn is_name_error(tree: &Tree, n: NodeId) -> bool
    requires { n.0 < count_of tree.now }
    ensures { result ≡ is_name_error tree.now n.0 }
{
    is_read_name(tree.kind(n)) && is_named_name_error(tree, n)
}

/// Whether some of these nodes is `NameError`.
fn any_name_error(tree: &Tree, kids: &[NodeId]) -> bool
    requires { All (λ k. k.0 < count_of tree.now) kids.now }
    ensures { result ≡ list_any (is_name_error tree.now) (map number_of kids.now) }
{
    let mut rest = kids;
    while let [kid, tail @ ..] = rest {
        if is_name_error(tree, *kid) {
            return true;
        }
        rest = tail;
    }
    false
}

/// Whether a node's kids hold `NameError`.
fn holds_among(tree: &Tree, n: NodeId) -> bool
    requires { n.0 < count_of tree.now }
    ensures { result ≡ list_any (is_name_error tree.now) (kids_at tree.now n.0) }
{
    any_name_error(tree, tree.kids(n))
}

/// Whether a node is `NameError`, or a tuple that holds it.
fn holds_name_error(tree: &Tree, n: NodeId) -> bool
    requires { n.0 < count_of tree.now }
    ensures { result ≡ holds_name_error tree.now n.0 }
{
    is_name_error(tree, n) || (is_tuple(tree.kind(n)) && holds_among(tree, n))
}

/// Whether a clause of these parts catches `NameError` or has no type.
fn catches_by(tree: &Tree, kids: &[NodeId]) -> bool
    requires { All (λ k. k.0 < count_of tree.now) kids.now }
    ensures { result ≡ catches_by tree.now (map number_of kids.now) }
{
    match kids {
        [first, ..] => is_in_body(tree.kind(*first)) || holds_name_error(tree, *first),
        [] => true,
    }
}

/// Whether a node's parts are those of such a clause.
fn catches_below(tree: &Tree, n: NodeId) -> bool
    requires { n.0 < count_of tree.now }
    ensures { result ≡ catches_by tree.now (kids_at tree.now n.0) }
{
    catches_by(tree, tree.kids(n))
}

/// Whether a node is such a clause.
fn catches(tree: &Tree, n: NodeId) -> bool
    requires { n.0 < count_of tree.now }
    ensures { result ≡ catches tree.now n.0 }
{
    is_handler(tree.kind(n)) && catches_below(tree, n)
}

/// Whether some of these nodes is such a clause.
fn any_catches(tree: &Tree, kids: &[NodeId]) -> bool
    requires { All (λ k. k.0 < count_of tree.now) kids.now }
    ensures { result ≡ list_any (catches tree.now) (map number_of kids.now) }
{
    let mut rest = kids;
    while let [kid, tail @ ..] = rest {
        if catches(tree, *kid) {
            return true;
        }
        rest = tail;
    }
    false
}

/// Whether a node has such a clause.
fn has_catch(tree: &Tree, n: NodeId) -> bool
    requires { n.0 < count_of tree.now }
    ensures { result ≡ list_any (catches tree.now) (kids_at tree.now n.0) }
{
    any_catches(tree, tree.kids(n))
}

/// Whether a node is a `try` with such a clause.
#[tactic(auto, unfolding(crate::specs::Guards::is_guard))]
fn is_guard(tree: &Tree, n: NodeId) -> bool
    requires { n.0 < count_of tree.now }
    ensures { result ≡ is_guard tree.now n.0 }
{
    is_try(tree.kind(n)) && has_catch(tree, n)
}

/// Whether each node is a `try` with such a clause.
#[tactic(auto, using(scope_bind::proofs::ListLaws::list_none, scope_bind::proofs::ListLaws::list_more))]
fn guards_of(alloc: Global, tree: &Tree) -> Result<Vec<bool>, Memory>
    ensures { IfOk result (λ guards. IsListOf (is_guard tree.now) tree.now guards.items) }
{
    let mut guards = Vec::new(alloc);
    for n in 0..tree.count() {
        let guard = is_guard(tree, NodeId(n));
        guards.push(guard)?;
    }
    Ok(guards)
}

/// Whether a node stands in a guarded body, where `q` is above it.
fn is_guarded_below(tree: &Tree, guards: &[bool], guarded: &[bool], n: NodeId, q: NodeId) -> bool
    requires made { n.0 < count_of tree.now }
    requires above { parent_at tree.now n.0 ≡ Some q.0 }
    requires guards { IsListOf (is_guard tree.now) tree.now guards.now }
    requires before { IsListUpTo (is_guarded tree.now) n.0 guarded.now }
    ensures { result ≡ is_guarded tree.now n.0 }
{
    let is_part = !is_clause(tree.kind(n));
    let is_body = both(guards[q.0 as usize], is_part);
    either(is_body, guarded[q.0 as usize])
}

/// Whether a node stands in a guarded body, by the nodes before it.
fn is_guarded_at(tree: &Tree, guards: &[bool], guarded: &[bool], n: NodeId) -> bool
    requires made { n.0 < count_of tree.now }
    requires guards { IsListOf (is_guard tree.now) tree.now guards.now }
    requires before { IsListUpTo (is_guarded tree.now) n.0 guarded.now }
    ensures { result ≡ is_guarded tree.now n.0 }
{
    match tree.parent(n) {
        Some(q) => is_guarded_below(tree, guards, guarded, n, q),
        None => false,
    }
}

/// Whether each node stands in a guarded body.
#[tactic(auto, using(scope_bind::proofs::ListLaws::list_none, scope_bind::proofs::ListLaws::list_more))]
pub(crate) fn guarded_of(alloc: Global, tree: &Tree) -> Result<Vec<bool>, Memory>
    ensures { IfOk result (λ guarded. IsListOf (is_guarded tree.now) tree.now guarded.items) }
{
    let guards = guards_of(alloc, tree)?;
    let mut guarded = Vec::new(alloc);
    for n in 0..tree.count() {
        let is_guarded = is_guarded_at(tree, guards.as_slice(), &guarded, NodeId(n));
        guarded.push(is_guarded)?;
    }
    Ok(guarded)
}

/// Whether a node stands in a guarded body, from the list.
pub(crate) fn is_guarded(tree: &Tree, guarded: &[bool], n: NodeId) -> bool
    requires made { n.0 < count_of tree.now }
    requires guarded { IsListOf (is_guarded tree.now) tree.now guarded.now }
    ensures { result ≡ is_guarded tree.now n.0 }
{
    let _tree = tree;
    guarded[n.0 as usize]
}
