// Reads by where they lead, and attributes that are stored or deleted.
ghost use Rattle.std.specs.Prelude.{◌≡◌, ◌<◌, IfOk};
ghost use Rattle.tree_nodes.specs.Trees.{count_of, parent_at};
ghost use Rattle.scope_rules.specs.Mangling.{spelled};
ghost use Rattle.scope_rules.specs.Reading.{scope_of, answer_of};
ghost use Rattle.scope_rules.specs.Answers.{load_mark_of, load_mark, is_deleted, store_mark, delete_mark};
ghost use Rattle.scope_bind.specs.Lists.{IsListOf, IsListUpTo};
ghost use Rattle.scope_bind.specs.Rows.{row_at, AreRowsUpTo};

use crate::homes::is_bare;
use crate::kinds::{is_attribute_target, is_delete, is_group};
use crate::known::{answer_at, deleted_at, name_at};
use crate::marks::row_in;
use crate::row::Row;
use crate::table::add_row;
use crate::truth::{both, either};
use lint_values::{Memory, NodeId, Text};
use scope_rules::Where;
use std::alloc::Global;
use tree_nodes::Tree;

/// The scope that an answer names.
fn scope_of(answer: Where) -> Option<u32>
    ensures { result ≡ scope_of answer }
{
    match answer {
        Where::Local(scope) => Some(scope.0),
        Where::Free(scope) => Some(scope.0),
        Where::Global => Some(0),
        Where::Builtin => None,
        Where::Nowhere => None,
    }
}

/// The row of a read that leads to a scope, if it leads to one.
fn row_of_load(
    alloc: Global,
    scope: Option<u32>,
    name: &Option<Text>,
    n: NodeId,
) -> Result<Option<Row>, Memory>
    ensures { IfOk result (λ row. row ≡ row_at n.0 (load_mark_of scope name.now)) }
{
    match scope {
        Some(scope) => row_in(alloc, scope, name, n),
        None => Ok(None),
    }
}

/// The row of a read.
#[tactic(auto, unfolding(scope_rules::specs::Answers::load_mark))]
fn load_row(
    alloc: Global,
    tree: &Tree,
    names: &[Option<Text>],
    answers: &[Where],
    n: NodeId,
) -> Result<Option<Row>, Memory>
    requires made { n.0 < count_of tree.now }
    requires names { IsListOf (spelled tree.now) tree.now names.now }
    requires answers { IsListOf (answer_of tree.now) tree.now answers.now }
    ensures { IfOk result (λ row. row ≡ row_at n.0 (load_mark tree.now n.0)) }
{
    let scope = scope_of(answer_at(tree, answers, n));
    row_of_load(alloc, scope, name_at(tree, names, n), n)
}

/// The rows of all reads.
#[tactic(auto, using(crate::proofs::TableLaws::rows_none, crate::proofs::TableLaws::rows_more))]
pub(crate) fn load_rows(
    alloc: Global,
    tree: &Tree,
    names: &[Option<Text>],
    answers: &[Where],
) -> Result<Vec<Row>, Memory>
    requires names { IsListOf (spelled tree.now) tree.now names.now }
    requires answers { IsListOf (answer_of tree.now) tree.now answers.now }
    ensures { IfOk result (λ rows. AreRowsUpTo (load_mark tree.now) (count_of tree.now) rows.items) }
{
    let mut rows = Vec::new(alloc);
    for n in 0..tree.count() {
        let row = load_row(alloc, tree, names, answers, NodeId(n))?;
        add_row(&mut rows, row)?;
    }
    Ok(rows)
}

/// Whether what stands below a node is deleted.
fn is_deleted_below(tree: &Tree, deleted: &[bool], n: NodeId, q: NodeId) -> bool
    requires made { n.0 < count_of tree.now }
    requires above { parent_at tree.now n.0 ≡ Some q.0 }
    requires before { IsListUpTo (is_deleted tree.now) n.0 deleted.now }
    ensures { result ≡ is_deleted tree.now n.0 }
{
    let kind = tree.kind(q);
    let is_group_deleted = both(is_group(kind), deleted[q.0 as usize]);
    either(is_delete(kind), is_group_deleted)
}

/// Whether a node is deleted, by the nodes before it.
fn is_deleted_at(tree: &Tree, deleted: &[bool], n: NodeId) -> bool
    requires made { n.0 < count_of tree.now }
    requires before { IsListUpTo (is_deleted tree.now) n.0 deleted.now }
    ensures { result ≡ is_deleted tree.now n.0 }
{
    match tree.parent(n) {
        Some(q) => is_deleted_below(tree, deleted, n, q),
        None => false,
    }
}

/// Whether each node is deleted.
#[tactic(auto, using(crate::proofs::ListLaws::list_none, crate::proofs::ListLaws::list_more))]
pub(crate) fn deleted_of(alloc: Global, tree: &Tree) -> Result<Vec<bool>, Memory>
    ensures { IfOk result (λ deleted. IsListOf (is_deleted tree.now) tree.now deleted.items) }
{
    let mut deleted = Vec::new(alloc);
    for n in 0..tree.count() {
        let is_deleted = is_deleted_at(tree, &deleted, NodeId(n));
        deleted.push(is_deleted)?;
    }
    Ok(deleted)
}

/// The row of an attribute that is stored.
#[tactic(auto, unfolding(scope_rules::specs::Answers::store_mark))]
fn store_row(
    alloc: Global,
    tree: &Tree,
    names: &[Option<Text>],
    deleted: &[bool],
    n: NodeId,
) -> Result<Option<Row>, Memory>
    requires made { n.0 < count_of tree.now }
    requires names { IsListOf (spelled tree.now) tree.now names.now }
    requires deleted { IsListOf (is_deleted tree.now) tree.now deleted.now }
    ensures { IfOk result (λ row. row ≡ row_at n.0 (store_mark tree.now n.0)) }
{
    if is_attribute_target(tree.kind(n)) && (!deleted_at(tree, deleted, n) && !is_bare(tree, n)) {
        row_in(alloc, 0, name_at(tree, names, n), n)
    } else {
        Ok(None)
    }
}

/// The rows of all attributes that are stored.
#[tactic(auto, using(crate::proofs::TableLaws::rows_none, crate::proofs::TableLaws::rows_more))]
pub(crate) fn store_rows(
    alloc: Global,
    tree: &Tree,
    names: &[Option<Text>],
    deleted: &[bool],
) -> Result<Vec<Row>, Memory>
    requires names { IsListOf (spelled tree.now) tree.now names.now }
    requires deleted { IsListOf (is_deleted tree.now) tree.now deleted.now }
    ensures { IfOk result (λ rows. AreRowsUpTo (store_mark tree.now) (count_of tree.now) rows.items) }
{
    let mut rows = Vec::new(alloc);
    for n in 0..tree.count() {
        let row = store_row(alloc, tree, names, deleted, NodeId(n))?;
        add_row(&mut rows, row)?;
    }
    Ok(rows)
}

/// The row of an attribute that is deleted.
#[tactic(auto, unfolding(scope_rules::specs::Answers::delete_mark))]
fn delete_row(
    alloc: Global,
    tree: &Tree,
    names: &[Option<Text>],
    deleted: &[bool],
    n: NodeId,
) -> Result<Option<Row>, Memory>
    requires made { n.0 < count_of tree.now }
    requires names { IsListOf (spelled tree.now) tree.now names.now }
    requires deleted { IsListOf (is_deleted tree.now) tree.now deleted.now }
    ensures { IfOk result (λ row. row ≡ row_at n.0 (delete_mark tree.now n.0)) }
{
    if is_attribute_target(tree.kind(n)) && deleted_at(tree, deleted, n) {
        row_in(alloc, 0, name_at(tree, names, n), n)
    } else {
        Ok(None)
    }
}

/// The rows of all attributes that are deleted.
#[tactic(auto, using(crate::proofs::TableLaws::rows_none, crate::proofs::TableLaws::rows_more))]
pub(crate) fn delete_rows(
    alloc: Global,
    tree: &Tree,
    names: &[Option<Text>],
    deleted: &[bool],
) -> Result<Vec<Row>, Memory>
    requires names { IsListOf (spelled tree.now) tree.now names.now }
    requires deleted { IsListOf (is_deleted tree.now) tree.now deleted.now }
    ensures { IfOk result (λ rows. AreRowsUpTo (delete_mark tree.now) (count_of tree.now) rows.items) }
{
    let mut rows = Vec::new(alloc);
    for n in 0..tree.count() {
        let row = delete_row(alloc, tree, names, deleted, NodeId(n))?;
        add_row(&mut rows, row)?;
    }
    Ok(rows)
}
