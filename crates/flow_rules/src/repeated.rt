// Which nodes stand in a loop.
ghost use Rattle.std.specs.Prelude.{◌≡◌, ◌<◌, IfOk};
ghost use Rattle.tree_nodes.specs.Trees.{count_of};
ghost use Rattle.flow_rules.specs.Outwards.{is_repeated, in_loop};
ghost use Rattle.flow_rules.specs.Tables.{IsListOf, IsListUpTo};

use crate::kinds::{is_else, is_loop};
use lint_values::{Memory, NodeId};
use rule_nodes::is_owner;
use std::alloc::Global;
use tree_nodes::Tree;

// Whether a node is a loop that repeats its part.
fn is_repeated(tree: &Tree, p: NodeId, n: NodeId) -> bool
    requires whole { p.0 < count_of tree.now }
    requires part { n.0 < count_of tree.now }
    ensures { result ≡ is_repeated tree.now p.0 n.0 }
{
    is_loop(tree.kind(p)) && !is_else(tree.kind(n))
}

// Whether a node stands in a loop, by what is known of the nodes before it.
fn in_loop_by(tree: &Tree, loops: &[bool], n: NodeId) -> bool
    requires made { n.0 < count_of tree.now }
    requires before { IsListUpTo (in_loop tree.now) n.0 loops.now }
    ensures { result ≡ in_loop tree.now n.0 }
{
    match tree.parent(n) {
        None => false,
        Some(p) if is_repeated(tree, p, n) => true,
        Some(p) if is_owner(tree.kind(p)) => false,
        Some(p) => loops[p.0 as usize],
    }
}

/// Of each node whether it stands in a loop.
#[tactic(auto, using(crate::proofs::ListLaws::list_none, crate::proofs::ListLaws::list_more))]
pub(crate) fn loops_of(alloc: Global, tree: &Tree) -> Result<Vec<bool>, Memory>
    ensures { IfOk result (λ loops. IsListOf (in_loop tree.now) tree.now loops.items) }
{
    let mut loops = Vec::new(alloc);
    for n in 0..tree.count() {
        let is_in_loop = in_loop_by(tree, &loops, NodeId(n));
        loops.push(is_in_loop)?;
    }
    Ok(loops)
}

/// Whether a node stands in a loop, as the table has it.
pub(crate) fn in_loop_in(tree: &Tree, loops: &[bool], n: NodeId) -> bool
    requires made { n.0 < count_of tree.now }
    requires loops { IsListOf (in_loop tree.now) tree.now loops.now }
    ensures { result ≡ in_loop tree.now n.0 }
{
    let _tree = tree;
    loops[n.0 as usize]
}
