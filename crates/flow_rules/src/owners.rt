// The function or class that each node belongs to.
ghost use Rattle.std.specs.Prelude.{◌≡◌, ◌<◌, IfOk};
ghost use Rattle.tree_nodes.specs.Trees.{count_of};
ghost use Rattle.rule_nodes.specs.Outwards.{owner_of};
ghost use Rattle.flow_rules.specs.Tables.{IsListOf, IsListUpTo};

use lint_values::{Memory, NodeId};
use rule_nodes::is_owner;
use std::alloc::Global;
use tree_nodes::Tree;

// The nearest function or class above a node, by those of the nodes before it.
fn owner_by(tree: &Tree, owners: &[Option<u32>], n: NodeId) -> Option<u32>
    requires made { n.0 < count_of tree.now }
    requires before { IsListUpTo (owner_of tree.now) n.0 owners.now }
    ensures { result ≡ owner_of tree.now n.0 }
{
    match tree.parent(n) {
        None => None,
        Some(p) if is_owner(tree.kind(p)) => Some(p.0),
        Some(p) => owners[p.0 as usize],
    }
}

/// The nearest function or class above each node.
#[tactic(auto, using(crate::proofs::ListLaws::list_none, crate::proofs::ListLaws::list_more))]
pub(crate) fn owners_of(alloc: Global, tree: &Tree) -> Result<Vec<Option<u32>>, Memory>
    ensures { IfOk result (λ owners. IsListOf (owner_of tree.now) tree.now owners.items) }
{
    let mut owners = Vec::new(alloc);
    for n in 0..tree.count() {
        let owner = owner_by(tree, &owners, NodeId(n));
        owners.push(owner)?;
    }
    Ok(owners)
}

/// The nearest function or class above a node, as the table has it.
pub(crate) fn owner_in(tree: &Tree, owners: &[Option<u32>], n: NodeId) -> Option<u32>
    requires made { n.0 < count_of tree.now }
    requires owners { IsListOf (owner_of tree.now) tree.now owners.now }
    ensures { result ≡ owner_of tree.now n.0 }
{
    let _tree = tree;
    owners[n.0 as usize]
}
