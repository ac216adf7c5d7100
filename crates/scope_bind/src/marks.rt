// Rows of the marks of nodes.
ghost use Rattle.std.specs.Prelude.{◌≡◌, ◌<◌, IfOk};
ghost use Rattle.tree_nodes.specs.Trees.{count_of, parent_at};
ghost use Rattle.scope_rules.specs.Places.{around};
ghost use Rattle.scope_rules.specs.Mangling.{spelled};
ghost use Rattle.scope_rules.specs.Binding.{is_below, makes_local, beyond_comprehensions, own_scope};
ghost use Rattle.scope_rules.specs.Marks.{mark_in};
ghost use Rattle.scope_rules.specs.Declaring.{is_global, is_nonlocal, local_mark, global_mark, nonlocal_mark};
ghost use Rattle.scope_bind.specs.Lists.{IsListOf};
ghost use Rattle.scope_bind.specs.Rows.{row_at, AreRowsUpTo};

use crate::kinds::{is_comprehension, is_global, is_nonlocal, is_walrus};
use crate::known::{bound_at, name_at, place_at};
use crate::row::Row;
use crate::table::add_row;
use lint_values::{Memory, NodeId, Text};
use std::alloc::Global;
use tree_nodes::Tree;

/// The first scope from this one outwards that is no comprehension.
fn beyond_comprehensions(tree: &Tree, places: &[u32], scope: u32) -> u32
    requires made { scope < count_of tree.now }
    requires places { IsListOf (around tree.now) tree.now places.now }
    ensures value { result ≡ beyond_comprehensions tree.now scope }
    ensures within { result < count_of tree.now }
{
    let mut s = scope;
    'outwards: while s != 0 && is_comprehension(tree.kind(NodeId(s))) {
        s = place_at(tree, places, NodeId(s));
    }
    s
}

/// The scope in which a node makes its name local.
#[tactic(auto, unfolding(scope_rules::specs::Binding::own_scope))]
pub(crate) fn own_scope(tree: &Tree, places: &[u32], n: NodeId) -> u32
    requires made { n.0 < count_of tree.now }
    requires places { IsListOf (around tree.now) tree.now places.now }
    ensures value { result ≡ own_scope tree.now n.0 }
    ensures within { result < count_of tree.now }
{
    let place = place_at(tree, places, n);
    if is_walrus(tree.kind(n)) {
        beyond_comprehensions(tree, places, place)
    } else {
        place
    }
}

/// A row of a name in a scope.
pub(crate) fn row_of(alloc: Global, scope: u32, name: &str, node: NodeId) -> Result<Row, Memory>
    ensures { IfOk result (λ row. row ≡ record { scope = scope; name = name.now; node = node }) }
{
    let name = Text::from_str(alloc, name)?;
    Ok(Row { scope, name, node })
}

/// The row of a name in a scope, if there is a name.
pub(crate) fn row_in(
    alloc: Global,
    scope: u32,
    name: &Option<Text>,
    n: NodeId,
) -> Result<Option<Row>, Memory>
    ensures { IfOk result (λ row. row ≡ row_at n.0 (mark_in scope name.now)) }
{
    match name {
        Some(name) => Ok(Some(row_of(alloc, scope, name.as_str(), n)?)),
        None => Ok(None),
    }
}

/// What a node makes local.
#[tactic(auto, unfolding(scope_rules::specs::Declaring::local_mark))]
pub(crate) fn local_row(
    alloc: Global,
    tree: &Tree,
    places: &[u32],
    bound: &[Option<Text>],
    n: NodeId,
) -> Result<Option<Row>, Memory>
    requires made { n.0 < count_of tree.now }
    requires places { IsListOf (around tree.now) tree.now places.now }
    requires bound { IsListOf (makes_local tree.now) tree.now bound.now }
    ensures { IfOk result (λ row. row ≡ row_at n.0 (local_mark tree.now n.0)) }
{
    row_in(
        alloc,
        own_scope(tree, places, n),
        bound_at(tree, bound, n),
        n,
    )
}

/// What each node makes local.
#[tactic(auto, using(crate::proofs::TableLaws::rows_none, crate::proofs::TableLaws::rows_more))]
pub(crate) fn local_rows(
    alloc: Global,
    tree: &Tree,
    places: &[u32],
    bound: &[Option<Text>],
) -> Result<Vec<Row>, Memory>
    requires places { IsListOf (around tree.now) tree.now places.now }
    requires bound { IsListOf (makes_local tree.now) tree.now bound.now }
    ensures { IfOk result (λ rows. AreRowsUpTo (local_mark tree.now) (count_of tree.now) rows.items) }
{
    let mut rows = Vec::new(alloc);
    for n in 0..tree.count() {
        let row = local_row(alloc, tree, places, bound, NodeId(n))?;
        add_row(&mut rows, row)?;
    }
    Ok(rows)
}

/// Whether a node stands below a `global` statement.
fn is_below_global(tree: &Tree, n: NodeId) -> bool
    requires { n.0 < count_of tree.now }
    ensures { result ≡ is_below is_global tree.now (parent_at tree.now n.0) }
{
    match tree.parent(n) {
        Some(q) => is_global(tree.kind(q)),
        None => false,
    }
}

/// What a node declares `global`.
#[tactic(auto, unfolding(scope_rules::specs::Declaring::global_mark))]
fn global_row(
    alloc: Global,
    tree: &Tree,
    places: &[u32],
    names: &[Option<Text>],
    n: NodeId,
) -> Result<Option<Row>, Memory>
    requires made { n.0 < count_of tree.now }
    requires places { IsListOf (around tree.now) tree.now places.now }
    requires names { IsListOf (spelled tree.now) tree.now names.now }
    ensures { IfOk result (λ row. row ≡ row_at n.0 (global_mark tree.now n.0)) }
{
    if is_below_global(tree, n) {
        row_in(alloc, place_at(tree, places, n), name_at(tree, names, n), n)
    } else {
        Ok(None)
    }
}

/// What each node declares `global`.
#[tactic(auto, using(crate::proofs::TableLaws::rows_none, crate::proofs::TableLaws::rows_more))]
pub(crate) fn global_rows(
    alloc: Global,
    tree: &Tree,
    places: &[u32],
    names: &[Option<Text>],
) -> Result<Vec<Row>, Memory>
    requires places { IsListOf (around tree.now) tree.now places.now }
    requires names { IsListOf (spelled tree.now) tree.now names.now }
    ensures { IfOk result (λ rows. AreRowsUpTo (global_mark tree.now) (count_of tree.now) rows.items) }
{
    let mut rows = Vec::new(alloc);
    for n in 0..tree.count() {
        let row = global_row(alloc, tree, places, names, NodeId(n))?;
        add_row(&mut rows, row)?;
    }
    Ok(rows)
}

/// Whether a node stands below a `nonlocal` statement.
fn is_below_nonlocal(tree: &Tree, n: NodeId) -> bool
    requires { n.0 < count_of tree.now }
    ensures { result ≡ is_below is_nonlocal tree.now (parent_at tree.now n.0) }
{
    match tree.parent(n) {
        Some(q) => is_nonlocal(tree.kind(q)),
        None => false,
    }
}

/// What a node declares `nonlocal`.
#[tactic(auto, unfolding(scope_rules::specs::Declaring::nonlocal_mark))]
fn nonlocal_row(
    alloc: Global,
    tree: &Tree,
    places: &[u32],
    names: &[Option<Text>],
    n: NodeId,
) -> Result<Option<Row>, Memory>
    requires made { n.0 < count_of tree.now }
    requires places { IsListOf (around tree.now) tree.now places.now }
    requires names { IsListOf (spelled tree.now) tree.now names.now }
    ensures { IfOk result (λ row. row ≡ row_at n.0 (nonlocal_mark tree.now n.0)) }
{
    if is_below_nonlocal(tree, n) {
        row_in(alloc, place_at(tree, places, n), name_at(tree, names, n), n)
    } else {
        Ok(None)
    }
}

/// What each node declares `nonlocal`.
#[tactic(auto, using(crate::proofs::TableLaws::rows_none, crate::proofs::TableLaws::rows_more))]
pub(crate) fn nonlocal_rows(
    alloc: Global,
    tree: &Tree,
    places: &[u32],
    names: &[Option<Text>],
) -> Result<Vec<Row>, Memory>
    requires places { IsListOf (around tree.now) tree.now places.now }
    requires names { IsListOf (spelled tree.now) tree.now names.now }
    ensures { IfOk result (λ rows. AreRowsUpTo (nonlocal_mark tree.now) (count_of tree.now) rows.items) }
{
    let mut rows = Vec::new(alloc);
    for n in 0..tree.count() {
        let row = nonlocal_row(alloc, tree, places, names, NodeId(n))?;
        add_row(&mut rows, row)?;
    }
    Ok(rows)
}
