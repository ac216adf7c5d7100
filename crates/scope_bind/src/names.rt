// The names that are local to each scope.
ghost use Rattle.std.specs.Prelude.{◌≡◌, ◌<◌, IfOk};
ghost use Rattle.tree_nodes.specs.Trees.{count_of};
ghost use Rattle.scope_rules.specs.Places.{around};
ghost use Rattle.scope_rules.specs.Binding.{makes_local};
ghost use Rattle.scope_bind.specs.Lists.{IsListOf};
ghost use Rattle.scope_bind.specs.Rows.{row_at, AreRowsUpTo};
ghost use Rattle.scope_bind.specs.Claims.{AreDeclared};
ghost use Rattle.scope_bind.specs.Owned.{owned_row, owned_mark, module_row, module_mark, AreNameRows};

use crate::declared::Declared;
use crate::homes::{binder_row, has};
use crate::marks::local_row;
use crate::name_table::NameTable;
use crate::row::Row;
use crate::table::add_row;
use lint_values::{Memory, NodeId, Text};
use std::alloc::Global;
use tree_nodes::Tree;

/// A row, if its scope has its name.
fn if_owned(tree: &Tree, declared: &Declared, row: Option<Row>) -> Option<Row>
    requires { AreDeclared tree.now declared.now }
    ensures { result ≡ owned_row tree.now row }
{
    let _tree = tree;
    match row {
        Some(row) => {
            if has(declared, row.scope, row.name.as_str()) {
                Some(row)
            } else {
                None
            }
        }
        None => None,
    }
}

/// A row, if its scope is the module.
fn if_in_module(row: Option<Row>) -> Option<Row>
    ensures { result ≡ module_row row }
{
    match row {
        Some(row) => { if row.scope == 0 { Some(row) } else { None } }
        None => None,
    }
}

/// What a node makes local to a scope that has the name.
#[tactic(auto, using(crate::proofs::NameLaws::owned_at), unfolding(crate::specs::Owned::owned_mark))]
fn owned_at(
    alloc: Global,
    tree: &Tree,
    places: &[u32],
    bound: &[Option<Text>],
    declared: &Declared,
    n: NodeId,
) -> Result<Option<Row>, Memory>
    requires made { n.0 < count_of tree.now }
    requires places { IsListOf (around tree.now) tree.now places.now }
    requires bound { IsListOf (makes_local tree.now) tree.now bound.now }
    requires declared { AreDeclared tree.now declared.now }
    ensures { IfOk result (λ row. row ≡ row_at n.0 (owned_mark tree.now n.0)) }
{
    let row = local_row(alloc, tree, places, bound, n)?;
    Ok(if_owned(tree, declared, row))
}

/// What each node makes local to a scope that has the name.
#[tactic(auto, using(crate::proofs::TableLaws::rows_none, crate::proofs::TableLaws::rows_more))]
fn owned_rows(
    alloc: Global,
    tree: &Tree,
    places: &[u32],
    bound: &[Option<Text>],
    declared: &Declared,
) -> Result<Vec<Row>, Memory>
    requires places { IsListOf (around tree.now) tree.now places.now }
    requires bound { IsListOf (makes_local tree.now) tree.now bound.now }
    requires declared { AreDeclared tree.now declared.now }
    ensures { IfOk result (λ rows. AreRowsUpTo (owned_mark tree.now) (count_of tree.now) rows.items) }
{
    let mut rows = Vec::new(alloc);
    for n in 0..tree.count() {
        let row = owned_at(alloc, tree, places, bound, declared, NodeId(n))?;
        add_row(&mut rows, row)?;
    }
    Ok(rows)
}

/// What a node binds in the module.
#[tactic(auto, using(crate::proofs::NameLaws::module_at), unfolding(crate::specs::Owned::module_mark))]
fn module_at(
    alloc: Global,
    tree: &Tree,
    places: &[u32],
    bound: &[Option<Text>],
    declared: &Declared,
    n: NodeId,
) -> Result<Option<Row>, Memory>
    requires made { n.0 < count_of tree.now }
    requires places { IsListOf (around tree.now) tree.now places.now }
    requires bound { IsListOf (makes_local tree.now) tree.now bound.now }
    requires declared { AreDeclared tree.now declared.now }
    ensures { IfOk result (λ row. row ≡ row_at n.0 (module_mark tree.now n.0)) }
{
    let row = binder_row(alloc, tree, places, bound, declared, n)?;
    Ok(if_in_module(row))
}

/// What each node binds in the module.
#[tactic(auto, using(crate::proofs::TableLaws::rows_none, crate::proofs::TableLaws::rows_more))]
fn module_rows(
    alloc: Global,
    tree: &Tree,
    places: &[u32],
    bound: &[Option<Text>],
    declared: &Declared,
) -> Result<Vec<Row>, Memory>
    requires places { IsListOf (around tree.now) tree.now places.now }
    requires bound { IsListOf (makes_local tree.now) tree.now bound.now }
    requires declared { AreDeclared tree.now declared.now }
    ensures { IfOk result (λ rows. AreRowsUpTo (module_mark tree.now) (count_of tree.now) rows.items) }
{
    let mut rows = Vec::new(alloc);
    for n in 0..tree.count() {
        let row = module_at(alloc, tree, places, bound, declared, NodeId(n))?;
        add_row(&mut rows, row)?;
    }
    Ok(rows)
}

/// The table of the names that are local to each scope.
pub(crate) fn names_of(
    alloc: Global,
    tree: &Tree,
    places: &[u32],
    bound: &[Option<Text>],
    declared: &Declared,
) -> Result<NameTable, Memory>
    requires places { IsListOf (around tree.now) tree.now places.now }
    requires bound { IsListOf (makes_local tree.now) tree.now bound.now }
    requires declared { AreDeclared tree.now declared.now }
    ensures { IfOk result (AreNameRows tree.now) }
{
    let mut rows = owned_rows(alloc, tree, places, bound, declared)?;
    let mut others = module_rows(alloc, tree, places, bound, declared)?;
    rows.append(&mut others)?;
    NameTable::of(alloc, rows)
}
