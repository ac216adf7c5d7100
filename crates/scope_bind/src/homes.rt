// Which scopes have a name, and where binders bind.
ghost use Rattle.std.specs.Prelude.{◌≡◌, ◌<◌, IfOk};
ghost use Rattle.tree_nodes.specs.Trees.{Tree as Syntax, count_of};
ghost use Rattle.scope_rules.specs.Nodes.{kind_of};
ghost use Rattle.scope_rules.specs.Places.{around};
ghost use Rattle.scope_rules.specs.Mangling.{spelled};
ghost use Rattle.scope_rules.specs.Binding.{makes_local, is_bare_below, is_bare, own_scope};
ghost use Rattle.scope_rules.specs.Declaring.{declares_global, declares_nonlocal, has, is_owner, owner_outside, home, binder_mark_of, binder_mark};
ghost use Rattle.scope_bind.specs.Lists.{IsListOf};
ghost use Rattle.scope_bind.specs.Rows.{row_at, AreRowsUpTo};
ghost use Rattle.scope_bind.specs.Claims.{AreDeclared};
ghost use Rattle.scope_rules.specs.Marks.{mark_at};
ghost use Rattle.tree_nodes.specs.Trees.{parent_at};

use crate::declared::Declared;
use crate::kinds::{is_annotated, is_def};
use crate::known::{bound_at, place_at};
use crate::marks::{global_rows, local_rows, nonlocal_rows, own_scope, row_of};
use crate::row::Row;
use crate::table::{Table, add_row};
use crate::truth::{both, neither};
use lint_values::{Memory, NodeId, Text};
use std::alloc::Global;
use tree_nodes::Tree;

/// The tables of what is local and declared.
pub(crate) fn declared_of(
    alloc: Global,
    tree: &Tree,
    places: &[u32],
    names: &[Option<Text>],
    bound: &[Option<Text>],
) -> Result<Declared, Memory>
    requires places { IsListOf (around tree.now) tree.now places.now }
    requires names { IsListOf (spelled tree.now) tree.now names.now }
    requires bound { IsListOf (makes_local tree.now) tree.now bound.now }
    ensures { IfOk result (AreDeclared tree.now) }
{
    let local = local_rows(alloc, tree, places, bound)?;
    let locals = Table::of(alloc, local)?;
    let global = global_rows(alloc, tree, places, names)?;
    let globals = Table::of(alloc, global)?;
    let nonlocal = nonlocal_rows(alloc, tree, places, names)?;
    let nonlocals = Table::of(alloc, nonlocal)?;
    Ok(Declared {
        locals,
        globals,
        nonlocals,
    })
}

/// Whether a scope declares a name `global`.
pub(crate) fn declares_global(declared: &Declared, scope: u32, name: &str) -> bool
    ensures { (t : Syntax) → AreDeclared t declared.now → result ≡ declares_global t scope name.now }
{
    declared.globals.has(scope, name)
}

/// Whether a scope declares a name `nonlocal`.
fn declares_nonlocal(declared: &Declared, scope: u32, name: &str) -> bool
    ensures { (t : Syntax) → AreDeclared t declared.now → result ≡ declares_nonlocal t scope name.now }
{
    declared.nonlocals.has(scope, name)
}

/// Whether a scope has a name.
pub(crate) fn has(declared: &Declared, scope: u32, name: &str) -> bool
    ensures { (t : Syntax) → AreDeclared t declared.now → result ≡ has t scope name.now }
{
    let is_local = declared.locals.has(scope, name);
    let is_global = declares_global(declared, scope, name);
    let is_nonlocal = declares_nonlocal(declared, scope, name);
    both(is_local, neither(is_global, is_nonlocal))
}

/// Whether this is a function that has a name.
#[tactic(auto, unfolding(scope_rules::specs::Declaring::is_owner))]
fn is_owner(tree: &Tree, declared: &Declared, scope: u32, name: &str) -> bool
    requires made { scope < count_of tree.now }
    requires declared { AreDeclared tree.now declared.now }
    ensures { result ≡ is_owner tree.now name.now scope }
{
    is_def(tree.kind(NodeId(scope))) && has(declared, scope, name)
}

/// The nearest function outside a scope that has a name.
fn owner_outside(
    tree: &Tree,
    places: &[u32],
    declared: &Declared,
    scope: u32,
    name: &str,
) -> Option<u32>
    requires made { scope < count_of tree.now }
    requires places { IsListOf (around tree.now) tree.now places.now }
    requires declared { AreDeclared tree.now declared.now }
    ensures { result ≡ owner_outside tree.now scope name.now }
{
    let mut s = scope;
    'outwards: while s != 0 {
        s = place_at(tree, places, NodeId(s));
        if is_owner(tree, declared, s, name) {
            return Some(s);
        }
    }
    None
}

/// Where the binders of a name that stand in a scope bind it.
fn home(tree: &Tree, places: &[u32], declared: &Declared, scope: u32, name: &str) -> Option<u32>
    requires made { scope < count_of tree.now }
    requires places { IsListOf (around tree.now) tree.now places.now }
    requires declared { AreDeclared tree.now declared.now }
    ensures { result ≡ home tree.now scope name.now }
{
    if declares_global(declared, scope, name) {
        Some(0)
    } else if declares_nonlocal(declared, scope, name) {
        owner_outside(tree, places, declared, scope, name)
    } else {
        Some(scope)
    }
}

/// Whether a statement is an annotation without a value.
#[tactic(auto, unfolding(scope_rules::specs::Binding::is_bare_below))]
fn is_bare_statement(tree: &Tree, q: NodeId) -> bool
    requires { q.0 < count_of tree.now }
    ensures { result ≡ is_bare_below tree.now (Some q.0) }
{
    is_annotated(tree.kind(q)) && tree.kids(q).len() == 2
}

/// Whether a node stands below an annotation without a value.
#[tactic(auto, unfolding(scope_rules::specs::Binding::is_bare))]
pub(crate) fn is_bare(tree: &Tree, n: NodeId) -> bool
    requires { n.0 < count_of tree.now }
    ensures { result ≡ is_bare tree.now n.0 }
{
    match tree.parent(n) {
        Some(q) => is_bare_statement(tree, q),
        None => false,
    }
}

/// The row of a binder that stands in a scope.
fn row_at_home(
    alloc: Global,
    home: Option<u32>,
    name: &str,
    n: NodeId,
) -> Result<Option<Row>, Memory>
    ensures { IfOk result (λ row. row ≡ row_at n.0 (mark_at home name.now)) }
{
    match home {
        Some(scope) => Ok(Some(row_of(alloc, scope, name, n)?)),
        None => Ok(None),
    }
}

/// What a node binds, and where, if it makes that name local.
fn row_of_binder(
    alloc: Global,
    tree: &Tree,
    places: &[u32],
    bound: &Option<Text>,
    declared: &Declared,
    n: NodeId,
) -> Result<Option<Row>, Memory>
    requires made { n.0 < count_of tree.now }
    requires places { IsListOf (around tree.now) tree.now places.now }
    requires declared { AreDeclared tree.now declared.now }
    ensures { IfOk result (λ row. row ≡ row_at n.0 (binder_mark_of tree.now (own_scope tree.now n.0) bound.now)) }
{
    match bound {
        Some(name) => {
            let scope = own_scope(tree, places, n);
            let home = home(tree, places, declared, scope, name.as_str());
            row_at_home(alloc, home, name.as_str(), n)
        }
        None => Ok(None),
    }
}

/// What a node binds, and where.
#[tactic(auto, unfolding(scope_rules::specs::Declaring::binder_mark, scope_rules::specs::Binding::binds))]
pub(crate) fn binder_row(
    alloc: Global,
    tree: &Tree,
    places: &[u32],
    bound: &[Option<Text>],
    declared: &Declared,
    n: NodeId,
) -> Result<Option<Row>, Memory>
    requires made { n.0 < count_of tree.now }
    requires places { IsListOf (around tree.now) tree.now places.now }
    requires bound { IsListOf (makes_local tree.now) tree.now bound.now }
    requires declared { AreDeclared tree.now declared.now }
    ensures { IfOk result (λ row. row ≡ row_at n.0 (binder_mark tree.now n.0)) }
{
    if is_bare(tree, n) {
        Ok(None)
    } else {
        row_of_binder(alloc, tree, places, bound_at(tree, bound, n), declared, n)
    }
}

/// What each node binds, and where.
#[tactic(auto, using(crate::proofs::TableLaws::rows_none, crate::proofs::TableLaws::rows_more))]
pub(crate) fn binder_rows(
    alloc: Global,
    tree: &Tree,
    places: &[u32],
    bound: &[Option<Text>],
    declared: &Declared,
) -> Result<Vec<Row>, Memory>
    requires places { IsListOf (around tree.now) tree.now places.now }
    requires bound { IsListOf (makes_local tree.now) tree.now bound.now }
    requires declared { AreDeclared tree.now declared.now }
    ensures { IfOk result (λ rows. AreRowsUpTo (binder_mark tree.now) (count_of tree.now) rows.items) }
{
    let mut rows = Vec::new(alloc);
    for n in 0..tree.count() {
        let row = binder_row(alloc, tree, places, bound, declared, NodeId(n))?;
        add_row(&mut rows, row)?;
    }
    Ok(rows)
}
