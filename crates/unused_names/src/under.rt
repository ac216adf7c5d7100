// Nodes that stand under others.
ghost use Rattle.std.specs.Prelude.{◌≡◌, ℕ, ◌<◌, Bool, IfOk, length};
ghost use Rattle.tree_nodes.specs.Trees.{count_of, parent_at};
ghost use Rattle.scope_bind.specs.Lists.{IsListOf, IsListUpTo};
ghost use Rattle.unused_names.specs.Nodes.{is_under, asked_above};

use lint_values::{Memory, NodeId};
use std::alloc::Global;
use tree_nodes::Tree;

/// Whether the node above is known to stand under one that passes.
fn is_under_above(tree: &Tree, under: &[bool], n: NodeId) -> bool
    requires made { n.0 < count_of tree.now }
    requires known { length under.now ≡ n.0 }
    ensures { (f : ℕ → Bool) → IsListUpTo f n.0 under.now → result ≡ asked_above f (parent_at tree.now n.0) }
{
    match tree.parent(n) {
        Some(q) => under[q.0 as usize],
        None => false,
    }
}

/// Whether a node passes a test, or one above it, by the nodes before it.
fn is_under_at(tree: &Tree, passing: &[bool], under: &[bool], n: NodeId) -> bool
    requires made { n.0 < count_of tree.now }
    requires passing { length passing.now ≡ count_of tree.now }
    requires known { length under.now ≡ n.0 }
    ensures { (test : ℕ → Bool) → IsListOf test tree.now passing.now → IsListUpTo (is_under test tree.now) n.0 under.now → result ≡ is_under test tree.now n.0 }
{
    let is_above = is_under_above(tree, under, n);
    passing[n.0 as usize] || is_above
}

/// Whether each node passes a test, or one above it, where it is known which nodes pass.
pub(crate) fn under_of(alloc: Global, tree: &Tree, passing: &[bool]) -> Result<Vec<bool>, Memory>
    requires { length passing.now ≡ count_of tree.now }
    ensures { (test : ℕ → Bool) → IsListOf test tree.now passing.now → IfOk result (λ under. IsListOf (is_under test tree.now) tree.now under.items) }
{
    let mut under = Vec::new(alloc);
    for n in 0..tree.count() {
        let is_under = is_under_at(tree, passing, &under, NodeId(n));
        under.push(is_under)?;
    }
    Ok(under)
}
