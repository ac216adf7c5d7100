// Tables of names: those of each scope, each once.
ghost use Rattle.std.specs.Prelude.{◌≡◌, ◌≤◌, length, map, slice_range, IfOk};
ghost use Rattle.std.specs.List.Sorted.{IsStrictlySortedBy};
ghost use Rattle.scope_bind.specs.Rows.{row_cmp};
ghost use Rattle.scope_bind.specs.Search.{IsEdge};
ghost use Rattle.scope_bind.specs.Owned.{scope_rank, names_in, AreEachOnce};

use crate::row::Row;
use lint_values::{Memory, Text};
use std::alloc::Global;
use std::cmp::Ordering;
use std::marker::Model;

/// Rows in the order of their scopes and names, each of another name or scope, and their names. Contracts see them as
/// the list of rows.
#[derive(Debug, Drop)]
pub(crate) struct NameTable {
    rows: Vec<Row>,
    texts: Vec<Text>,
}

impl Model for NameTable {
    ghost use Rattle.std.specs.Prelude.{List};
    ghost use Rattle.scope_bind.specs.declared.row.Row.{Row};

    ghost Value = { List Row };

    ghost use Rattle.scope_bind.specs.Owned.{AreNamed};

    ghost view = { λ t. t.rows.items };

    ghost invariant = { λ t. AreNamed t.rows.items t.texts.items };
}

/// The names of rows, in their order.
fn texts_of(alloc: Global, rows: &[Row]) -> Result<Vec<Text>, Memory>
    ensures { IfOk result (λ texts. texts.items ≡ map (λ r. r.name) rows.now) }
{
    let mut texts = Vec::with_capacity(alloc, rows.len())?;
    for row in rows {
        let text = Text::from_str(alloc, row.name.as_str())?;
        texts.push(text)?;
    }
    Ok(texts)
}

/// Where a row stands to a scope: 0 before it, 1 in it, 2 behind it.
fn scope_rank(row: &Row, scope: u32) -> usize
    ensures { result ≡ scope_rank scope row.now }
{
    match row.scope.cmp(&scope) {
        Ordering::Less => 0,
        Ordering::Equal => 1,
        Ordering::Greater => 2,
    }
}

/// How many rows are below a rank.
fn first_in(rows: &[Row], scope: u32, least: usize) -> usize
    requires { IsStrictlySortedBy row_cmp rows.now }
    ensures { IsEdge (scope_rank scope) least rows.now result }
{
    rows.partition_point(|row| scope_rank(row, scope) < least)
}

/// The texts from a place up to another.
fn texts_between(texts: &[Text], start: usize, end: usize) -> &[Text]
    requires ordered { start ≤ end }
    requires fits { end ≤ length texts.now }
    ensures { result.now ≡ slice_range texts.now start end }
{
    &texts[start..end]
}

/// The names and scopes of rows, each once, in order.
fn each_once(rows: Vec<Row>) -> Result<Vec<Row>, Memory>
    ensures { IfOk result (λ once. AreEachOnce rows.items once.items) }
{
    let mut rows = rows;
    rows.sort()?;
    rows.dedup();
    Ok(rows)
}

impl NameTable {
    /// A table of the names of rows.
    pub fn of(alloc: Global, rows: Vec<Row>) -> Result<NameTable, Memory>
        ensures { IfOk result (AreEachOnce rows.items) }
    {
        let rows = each_once(rows)?;
        let texts = texts_of(alloc, &rows)?;
        Ok(NameTable { rows, texts })
    }

    /// The names of a scope, ascending.
    pub fn names(&self, scope: u32) -> &[Text]
        ensures { result.now ≡ names_in self.now scope }
    {
        let start = first_in(self.rows.as_slice(), scope, 1);
        let end = first_in(self.rows.as_slice(), scope, 2);
        texts_between(self.texts.as_slice(), start, end)
    }
}
