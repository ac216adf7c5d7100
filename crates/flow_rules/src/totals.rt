// The sizes of each function.
ghost use Rattle.std.specs.Prelude.{◌≡◌, ℕ, ◌<◌, ◌+◌, ◌^◌, length, slice_index_or, Some, IfOk};
ghost use Rattle.tree_nodes.specs.Trees.{count_of};
ghost use Rattle.rule_nodes.specs.Outwards.{owner_of};
ghost use Rattle.flow_rules.specs.Tables.{AreTotalled, AreTotals, IsListOf, with_part};

use crate::counts::part_of;
use crate::owners::owner_in;
use crate::size::Size;
use lint_values::{Memory, NodeId};
use std::alloc::Global;
use tree_nodes::Tree;

// Adds a part to the size of a function.
fn add_part(totals: &mut [u64], owner: Option<u32>, part: u64)
    requires within { (d : ℕ) → owner ≡ Some d → d < length totals.old }
    requires few { (d : ℕ) → owner ≡ Some d → slice_index_or totals.old d 0 + part < 2 ^ 64 }
    ensures { totals.new ≡ with_part totals.old owner part }
{
    if let Some(d) = owner {
        totals[d as usize] += part;
    }
}

// Adds what a node counts to the size of the function that it belongs to.
fn add_node(tree: &Tree, owners: &[Option<u32>], size: Size, n: NodeId, totals: &mut [u64])
    requires made { n.0 < count_of tree.now }
    requires few { n.0 < 2 ^ 32 }
    requires owners { IsListOf (owner_of tree.now) tree.now owners.now }
    requires so_far { AreTotalled size tree.now n.0 totals.old }
    ensures { AreTotalled size tree.now (n.0 + 1) totals.new }
{
    let owner = owner_in(tree, owners, n);
    let part = part_of(size, tree.kind(n));
    add_part(totals, owner, part);
}

/// A size of each function, by its number.
pub(crate) fn totals_of(
    alloc: Global,
    tree: &Tree,
    owners: &[Option<u32>],
    size: Size,
) -> Result<Vec<u64>, Memory>
    requires { IsListOf (owner_of tree.now) tree.now owners.now }
    ensures { IfOk result (λ totals. AreTotals size tree.now totals.items) }
{
    let count = tree.count();
    let mut totals = vec![in alloc; 0; count as usize]?;
    for n in 0..count {
        add_node(tree, owners, size, NodeId(n), &mut totals);
    }
    Ok(totals)
}
