// Tables: the nodes of each name in each scope.
ghost use Rattle.std.specs.Prelude.{◌≡◌, ◌==◌, ◌≤◌, not, map, length, slice_range, option_to_list, IfOk, OnOk, ◌++◌};
ghost use Rattle.std.specs.List.Sorted.{IsStable, IsSorted};
ghost use Rattle.scope_bind.specs.Rows.{row_cmp, key, rank, nodes_in};
ghost use Rattle.scope_bind.specs.Search.{IsEdge};

use crate::row::Row;
use lint_values::{Memory, NodeId};
use std::alloc::Global;
use std::cmp::Ordering;
use std::marker::Model;

/// Rows in the order of their scopes and names; those of one name in one scope are in source order. Contracts see them
/// as a list.
#[derive(Debug, Drop)]
pub(crate) struct Table {
    rows: Vec<Row>,
    nodes: Vec<NodeId>,
}

impl Model for Table {
    ghost use Rattle.std.specs.Prelude.{List};
    ghost use Rattle.scope_bind.specs.declared.row.Row.{Row};

    ghost Value = { List Row };

    ghost use Rattle.scope_bind.specs.Search.{IsKept};

    ghost view = { λ t. t.rows.items };

    ghost invariant = { λ t. IsKept t.rows.items t.nodes.items };
}

/// How a row compares to a name in a scope.
fn compare(row: &Row, scope: u32, name: &str) -> Ordering
    ensures { result ≡ row_cmp row.now (key scope name.now) }
{
    row.scope.cmp(&scope).then(row.name.as_str().cmp(name))
}

/// Where a row stands to a name in a scope: 0 before it, 1 at it, 2 behind it.
fn rank(row: &Row, scope: u32, name: &str) -> usize
    ensures { result ≡ rank scope name.now row.now }
{
    match compare(row, scope, name) {
        Ordering::Less => 0,
        Ordering::Equal => 1,
        Ordering::Greater => 2,
    }
}

/// How many rows are below a rank.
fn first_at(rows: &[Row], scope: u32, name: &str, least: usize) -> usize
    requires { IsSorted row_cmp rows.now }
    ensures { IsEdge (rank scope name.now) least rows.now result }
{
    rows.partition_point(|row| rank(row, scope, name) < least)
}

/// The nodes from a place up to another.
fn nodes_between(nodes: &[NodeId], start: usize, end: usize) -> &[NodeId]
    requires ordered { start ≤ end }
    requires fits { end ≤ length nodes.now }
    ensures { result.now ≡ slice_range nodes.now start end }
{
    &nodes[start..end]
}

/// The nodes of rows, in their order.
fn nodes_of(alloc: Global, rows: &[Row]) -> Result<Vec<NodeId>, Memory>
    ensures { IfOk result (λ nodes. nodes.items ≡ map (λ r. r.node) rows.now) }
{
    let mut nodes = Vec::with_capacity(alloc, rows.len())?;
    for row in rows {
        nodes.push(row.node)?;
    }
    Ok(nodes)
}

/// Adds a row, if there is one.
pub(crate) fn add_row(rows: &mut Vec<Row>, row: Option<Row>) -> Result<(), Memory>
    ensures { OnOk result (rows.new.items ≡ rows.old.items ++ option_to_list row) }
{
    if let Some(row) = row {
        rows.push(row)?;
    }
    Ok(())
}

impl Table {
    /// A table of rows that come in source order.
    pub fn of(alloc: Global, rows: Vec<Row>) -> Result<Table, Memory>
        ensures { IfOk result (IsStable row_cmp rows.items) }
    {
        let mut rows = rows;
        rows.sort()?;
        let nodes = nodes_of(alloc, &rows)?;
        Ok(Table { rows, nodes })
    }

    /// The nodes of a name in a scope, in source order.
    pub fn find(&self, scope: u32, name: &str) -> &[NodeId]
        ensures { result.now ≡ nodes_in self.now scope name.now }
    {
        let start = first_at(self.rows.as_slice(), scope, name, 1);
        let end = first_at(self.rows.as_slice(), scope, name, 2);
        nodes_between(self.nodes.as_slice(), start, end)
    }

    /// Whether the name has a node in the scope.
    pub fn has(&self, scope: u32, name: &str) -> bool
        ensures { result ≡ not (length (nodes_in self.now scope name.now) == 0) }
    {
        !self.find(scope, name).is_empty()
    }
}
