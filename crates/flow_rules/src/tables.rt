// What is known of each node before the rules are asked.
ghost use Rattle.std.specs.Prelude.{◌≡◌, ◌<◌, IfOk};
ghost use Rattle.tree_nodes.specs.Trees.{count_of};
ghost use Rattle.rule_nodes.specs.Outwards.{owner_of};
ghost use Rattle.flow_rules.specs.Outwards.{in_loop, is_function_there, is_class_there};
ghost use Rattle.flow_rules.specs.Sizes.{total};
ghost use Rattle.flow_rules.specs.Tables.{AreTablesOf, AreTotals};

use crate::owners::{owner_in, owners_of};
use crate::repeated::{in_loop_in, loops_of};
use crate::size::Size;
use crate::totals::totals_of;
use lint_values::{Memory, NodeId};
use rule_nodes::{is_class, is_def};
use std::alloc::Global;
use tree_nodes::Tree;

/// Of each node the function or class that it belongs to, whether it stands in a loop, and the sizes of the function that
/// it is.
#[derive(Debug, Drop)]
pub(crate) struct Tables {
    pub owners: Vec<Option<u32>>,
    pub loops: Vec<bool>,
    pub returns: Vec<u64>,
    pub branches: Vec<u64>,
    pub statements: Vec<u64>,
}

/// The tables of a tree.
pub(crate) fn tables_of(alloc: Global, tree: &Tree) -> Result<Tables, Memory>
    ensures { IfOk result (λ tables. AreTablesOf tree.now tables) }
{
    let owners = owners_of(alloc, tree)?;
    let loops = loops_of(alloc, tree)?;
    let returns = totals_of(alloc, tree, &owners, Size::Returns)?;
    let branches = totals_of(alloc, tree, &owners, Size::Branches)?;
    let statements = totals_of(alloc, tree, &owners, Size::Statements)?;
    Ok(Tables {
        owners,
        loops,
        returns,
        branches,
        statements,
    })
}

// The function or class that a node belongs to.
fn owner_at(tree: &Tree, tables: &Tables, n: NodeId) -> Option<u32>
    requires made { n.0 < count_of tree.now }
    requires tables { AreTablesOf tree.now tables.now }
    ensures { result ≡ owner_of tree.now n.0 }
{
    owner_in(tree, &tables.owners, n)
}

/// Whether a node belongs to a function.
#[tactic(auto, using(rule_nodes::proofs::Above::owner_made))]
pub(crate) fn is_in_function(tree: &Tree, tables: &Tables, n: NodeId) -> bool
    requires made { n.0 < count_of tree.now }
    requires tables { AreTablesOf tree.now tables.now }
    ensures { result ≡ is_function_there tree.now (owner_of tree.now n.0) }
{
    match owner_at(tree, tables, n) {
        Some(owner) => is_def(tree.kind(NodeId(owner))),
        None => false,
    }
}

/// Whether a node belongs to a class.
#[tactic(auto, using(rule_nodes::proofs::Above::owner_made))]
pub(crate) fn is_in_class(tree: &Tree, tables: &Tables, n: NodeId) -> bool
    requires made { n.0 < count_of tree.now }
    requires tables { AreTablesOf tree.now tables.now }
    ensures { result ≡ is_class_there tree.now (owner_of tree.now n.0) }
{
    match owner_at(tree, tables, n) {
        Some(owner) => is_class(tree.kind(NodeId(owner))),
        None => false,
    }
}

/// Whether a node stands in a loop.
pub(crate) fn in_loop(tree: &Tree, tables: &Tables, n: NodeId) -> bool
    requires made { n.0 < count_of tree.now }
    requires tables { AreTablesOf tree.now tables.now }
    ensures { result ≡ in_loop tree.now n.0 }
{
    in_loop_in(tree, &tables.loops, n)
}

// The size of a node.
fn total_in(tree: &Tree, totals: &[u64], size: Size, n: NodeId) -> u64
    requires made { n.0 < count_of tree.now }
    requires totals { AreTotals size tree.now totals.now }
    ensures { result ≡ total size tree.now n.0 }
{
    let _tree = tree;
    let _size = size;
    totals[n.0 as usize]
}

/// A size of a function.
pub(crate) fn total(tree: &Tree, tables: &Tables, size: Size, n: NodeId) -> u64
    requires made { n.0 < count_of tree.now }
    requires tables { AreTablesOf tree.now tables.now }
    ensures { result ≡ total size tree.now n.0 }
{
    match size {
        Size::Returns => total_in(tree, &tables.returns, size, n),
        Size::Branches => total_in(tree, &tables.branches, size, n),
        Size::Statements => total_in(tree, &tables.statements, size, n),
    }
}
