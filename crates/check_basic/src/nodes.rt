// What the rules ask of the nodes of a tree.
ghost use Rattle.std.specs.Prelude.{◌≡◌, ◌<◌, ◌≤◌, All, IfSome, map, option_map, if◌then◌else◌};
ghost use Rattle.tree_nodes.specs.Trees.{count_of, kids_at};
ghost use Rattle.tree_nodes.specs.Kept.{number_of};
ghost use Rattle.scope_rules.specs.Kinds.{is_in_body};
ghost use Rattle.scope_rules.specs.Nodes.{kind_of};
ghost use Rattle.rule_nodes.specs.Outwards.{owner_of};
ghost use Rattle.check_basic.specs.Nodes.{has_docstring, has_statement, block_len, is_plain_class, is_open_to};

use lint_values::NodeId;
use rule_nodes::{has_base, is_class, is_docstring, is_in_body, is_owner, is_statement};
use tree_nodes::Tree;

fn any_docstring(tree: &Tree, kids: &[NodeId]) -> bool
    requires { All (λ k. k.0 < count_of tree.now) kids.now }
    ensures { result ≡ has_docstring tree.now (map number_of kids.now) }
{
    let mut rest = kids;
    while let [kid, tail @ ..] = rest {
        if is_docstring(tree.kind(*kid)) {
            return true;
        }
        rest = tail;
    }
    false
}

/// Whether some kid is a docstring.
pub(crate) fn has_docstring(tree: &Tree, n: NodeId) -> bool
    requires { n.0 < count_of tree.now }
    ensures { result ≡ has_docstring tree.now (kids_at tree.now n.0) }
{
    any_docstring(tree, tree.kids(n))
}

fn any_statement(tree: &Tree, kids: &[NodeId]) -> bool
    requires { All (λ k. k.0 < count_of tree.now) kids.now }
    ensures { result ≡ has_statement tree.now (map number_of kids.now) }
{
    let mut rest = kids;
    while let [kid, tail @ ..] = rest {
        if is_statement(tree.kind(*kid)) {
            return true;
        }
        rest = tail;
    }
    false
}

/// Whether some kid is a statement.
pub(crate) fn has_statement(tree: &Tree, n: NodeId) -> bool
    requires { n.0 < count_of tree.now }
    ensures { result ≡ has_statement tree.now (kids_at tree.now n.0) }
{
    any_statement(tree, tree.kids(n))
}

// 1 where the node stands in a block.
fn block_part(tree: &Tree, n: NodeId) -> usize
    requires { n.0 < count_of tree.now }
    ensures part { result ≡ (if is_in_body (kind_of tree.now n.0) then 1 else 0) }
    ensures few { result ≤ 1 }
{
    if is_in_body(tree.kind(n)) { 1 } else { 0 }
}

/// How many of these nodes stand in a block: statements, and a docstring.
pub(crate) fn block_len(tree: &Tree, kids: &[NodeId]) -> usize
    requires { All (λ k. k.0 < count_of tree.now) kids.now }
    ensures { result ≡ block_len tree.now (map number_of kids.now) }
{
    let mut len = 0;
    let mut rest = kids;
    while let Some((kid, tail)) = rest.split_first() {
        len += block_part(tree, *kid);
        rest = tail;
    }
    len
}

fn is_plain_class(tree: &Tree, n: NodeId) -> bool
    requires { n.0 < count_of tree.now }
    ensures { result ≡ is_plain_class tree.now n.0 }
{
    is_class(tree.kind(n)) && !has_base(tree, n)
}

// The nearest function or class above.
#[tactic(auto, using(rule_nodes::proofs::Above::owner_root, rule_nodes::proofs::Above::owner_here, rule_nodes::proofs::Above::owner_on))]
fn owner_of(tree: &Tree, n: NodeId) -> Option<NodeId>
    requires { n.0 < count_of tree.now }
    ensures owner { option_map number_of result ≡ owner_of tree.now n.0 }
    ensures made { IfSome result (λ p. p.0 < count_of tree.now) }
{
    let mut node = n;
    while let Some(parent) = tree.parent(node) {
        if is_owner(tree.kind(parent)) {
            return Some(parent);
        }
        node = parent;
    }
    None
}

/// Whether the node stands in no function or class, or in a class without bases.
pub(crate) fn is_open(tree: &Tree, n: NodeId) -> bool
    requires { n.0 < count_of tree.now }
    ensures { result ≡ is_open_to tree.now (owner_of tree.now n.0) }
{
    match owner_of(tree, n) {
        None => true,
        Some(owner) => is_plain_class(tree, owner),
    }
}
