// The builder: rows as they are taken.
ghost use Rattle.std.specs.Prelude.{◌≡◌, ℕ, map, ◌<◌, ◌+◌, ◌++◌, ◌∷◌, [], length, option_copied, unwrap_or, string_bytes, All, IfOk, OnOk, OnErr};
ghost use Rattle.std.specs.Str.{IsUtf8};
ghost use Rattle.tree_nodes.specs.Trees.{pack};
ghost use Rattle.tree_nodes.specs.Rows.{row_with, tree_of, with_kind};
ghost use Rattle.tree_nodes.specs.Kept.{within, FitsIn};
ghost use Rattle.tree_nodes.specs.Built.{rows_in, sizes_in, total, IsBuilt};

use crate::Kind;
use crate::finish::{Open, give_out};
use crate::label::{Label, Span, text_within};
use crate::tree::Tree;
use lint_values::{Memory, Pos};
use std::alloc::Global;
use std::marker::Model;

/// A row: its label, the span of its kids, and how many nodes its tree has.
#[derive(Clone, Copy, Debug)]
pub struct BuiltRow {
    pub label: Label,
    pub kids: Span,
    pub size: u32,
}

/// Takes nodes, kids before their parents. Contracts see it as the list of its rows.
#[derive(Debug, Drop)]
pub struct TreeBuilder {
    alloc: Global,
    rows: Vec<BuiltRow>,
    kids: Vec<u32>,
    names: String,
}

impl Model for TreeBuilder {
    ghost use Rattle.std.specs.Prelude.{List, string_bytes};
    ghost use Rattle.std.specs.Str.{IsUtf8};
    ghost use Rattle.tree_nodes.specs.Rows.{Row};

    ghost Value = { List Row };

    ghost use Rattle.tree_nodes.specs.Built.{rows_in, IsBuilt};

    ghost view = { λ b. rows_in (string_bytes b.names) b.kids.items b.rows.items };

    ghost invariant = { λ b. IsBuilt (string_bytes b.names) b.kids.items b.rows.items };
}

impl TreeBuilder {
    /// No rows yet.
    pub fn new(alloc: Global) -> TreeBuilder
        ensures { result ≡ [] }
    {
        TreeBuilder {
            alloc,
            rows: Vec::new(alloc),
            kids: Vec::new(alloc),
            names: String::new(alloc),
        }
    }

    /// How many rows were made.
    pub fn rows(&self) -> usize
        ensures { result ≡ length self.now }
    {
        self.rows.len()
    }

    /// Adds a row and gives its number. Its kids are numbers of earlier rows, in the order in which they stand. Earlier
    /// rows stay, so that rows which turn out to be of no use can be left behind.
    pub fn push(
        &mut self,
        kind: Kind,
        pos: Pos,
        end_line: u32,
        name: Option<&str>,
        kids: &[u32],
    ) -> Result<u32, Memory>
        requires { All (λ k. k < length self.old) kids.now }
        ensures number { IfOk result (λ n. n ≡ length self.old) }
        ensures ok { OnOk result (self.new ≡ self.old ++ row_with kind pos end_line (option_copied name.entry) kids.now ∷ []) }
        ensures err { OnErr result (self.new ≡ self.old) }
        ensures earlier { (n : ℕ) → n < length self.old → tree_of self.new n ≡ tree_of self.old n }
        ensures tree { IfOk result (λ n. tree_of self.new n ≡ record { node = record { kind = kind; pos = pos; end_line = end_line; name = option_copied name.entry }; kids = pack (map (tree_of self.old) kids.now) }) }
    {
        let size = size_over(self.rows.as_slice(), kids)?;
        let number = row_number(self.rows.len())?;
        let is_named = name.is_some();
        let name = add_name(&mut self.names, name)?;
        let kids = add_kids(&mut self.kids, kids)?;
        let label = Label {
            kind,
            is_named,
            pos,
            end_line,
            name,
        };
        self.rows.push(BuiltRow { label, kids, size })?;
        Ok(number)
    }

    /// The kind of a row.
    pub fn kind(&self, row: u32) -> Kind
        requires { row < length self.now }
        ensures { result ≡ (tree_of self.now row).node.kind }
    {
        self.rows[row as usize].label.kind
    }

    /// The place of a row.
    pub fn pos(&self, row: u32) -> Pos
        requires { row < length self.now }
        ensures { result ≡ (tree_of self.now row).node.pos }
    {
        self.rows[row as usize].label.pos
    }

    /// The last line of a row.
    pub fn end_line(&self, row: u32) -> u32
        requires { row < length self.now }
        ensures { result ≡ (tree_of self.now row).node.end_line }
    {
        self.rows[row as usize].label.end_line
    }

    /// The name of a row.
    pub fn name(&self, row: u32) -> Option<&str>
        requires { row < length self.now }
        ensures { option_copied result ≡ (tree_of self.now row).node.name }
    {
        let label = self.rows[row as usize].label;
        let text = text_within(self.names.as_str(), label.name);
        if label.is_named { Some(text) } else { None }
    }

    /// The rows of a row's kids, in the order in which they stand.
    pub fn kids(&self, row: u32) -> &[u32]
        requires { row < length self.now }
        ensures trees { (tree_of self.now row).kids ≡ pack (map (tree_of self.now) result.now) }
        ensures earlier { All (λ k. k < row) result.now }
    {
        let span = self.rows[row as usize].kids;
        rows_within(self.kids.as_slice(), span)
    }

    /// Adds a row that says what another says, but is of another kind.
    pub fn retag(&mut self, row: u32, kind: Kind) -> Result<u32, Memory>
        requires { row < length self.old }
        ensures number { IfOk result (λ n. n ≡ length self.old) }
        ensures ok { OnOk result (length self.new ≡ length self.old + 1) }
        ensures err { OnErr result (self.new ≡ self.old) }
        ensures earlier { (n : ℕ) → n < length self.old → tree_of self.new n ≡ tree_of self.old n }
        ensures tree { IfOk result (λ n. tree_of self.new n ≡ with_kind kind (tree_of self.old row).kids (tree_of self.old row)) }
    {
        let number = row_number(self.rows.len())?;
        let mut new = self.rows[row as usize];
        new.label.kind = kind;
        self.rows.push(new)?;
        Ok(number)
    }

    /// The same over other kids.
    pub fn rebuild(&mut self, row: u32, kind: Kind, kids: &[u32]) -> Result<u32, Memory>
        requires row { row < length self.old }
        requires kids { All (λ k. k < length self.old) kids.now }
        ensures number { IfOk result (λ n. n ≡ length self.old) }
        ensures ok { OnOk result (length self.new ≡ length self.old + 1) }
        ensures err { OnErr result (self.new ≡ self.old) }
        ensures earlier { (n : ℕ) → n < length self.old → tree_of self.new n ≡ tree_of self.old n }
        ensures tree { IfOk result (λ n. tree_of self.new n ≡ with_kind kind (pack (map (tree_of self.old) kids.now)) (tree_of self.old row)) }
    {
        let size = size_over(self.rows.as_slice(), kids)?;
        let number = row_number(self.rows.len())?;
        let mut label = self.rows[row as usize].label;
        label.kind = kind;
        let kids = add_kids(&mut self.kids, kids)?;
        self.rows.push(BuiltRow { label, kids, size })?;
        Ok(number)
    }

    /// The tree of a row: the row and those below it. Other rows are left out.
    pub fn finish(self, root: u32) -> Result<Tree, Memory>
        requires { root < length self }
        ensures { IfOk result (λ tree. tree ≡ tree_of self root) }
    {
        let TreeBuilder {
            alloc,
            rows,
            kids,
            names,
        } = self;
        let mut out = Vec::new(alloc);
        let mut numbered = Vec::new(alloc);
        let mut stack = Vec::new(alloc);
        stack.push(Open {
            row: root,
            above: 0,
        })?;
        'rows: while let Some(next) = stack.pop() {
            give_out(&mut out, &mut numbered, &mut stack, &rows, &kids, next)?;
        }
        Ok(Tree {
            rows: out,
            kids: numbered,
            names,
        })
    }
}

/// The rows within a span.
fn rows_within(rows: &[u32], span: Span) -> &[u32]
    requires { FitsIn (length rows.now) span }
    ensures { result.now ≡ within rows.now span }
{
    &rows[span.start as usize..span.end as usize]
}

/// The number behind so many rows: all numbers are below `u32::MAX`.
pub fn row_number(rows: usize) -> Result<u32, Memory>
    ensures { IfOk result (λ n. (n ≡ rows) × (n < 4294967295)) }
{
    if rows < u32::MAX as usize {
        Ok(rows as u32)
    } else {
        Err(Memory)
    }
}

/// The span of so many items behind others.
fn span_behind(items: usize, more: usize) -> Result<Span, Memory>
    ensures { IfOk result (λ span. (span.start ≡ items) × (span.end ≡ items + more)) }
{
    let start = u32::try_from(items).map_err(|_| Memory)?;
    let more = u32::try_from(more).map_err(|_| Memory)?;
    let end = start.checked_add(more).ok_or(Memory)?;
    Ok(Span { start, end })
}

/// A name behind the others.
fn add_name(names: &mut String, name: Option<&str>) -> Result<Span, Memory>
    ensures span { IfOk result (λ span. (span.start ≡ length (string_bytes names.old)) × (span.end ≡ length (string_bytes names.old) + length (unwrap_or (option_copied name.entry) []))) }
    ensures utf8 { OnOk result (IsUtf8 (unwrap_or (option_copied name.entry) [])) }
    ensures ok { OnOk result (string_bytes names.new ≡ string_bytes names.old ++ unwrap_or (option_copied name.entry) []) }
    ensures err { OnErr result (string_bytes names.new ≡ string_bytes names.old) }
{
    let text = name.unwrap_or("");
    let span = span_behind(names.len(), text.len())?;
    names.push_str(text)?;
    Ok(span)
}

/// Kids behind the others.
fn add_kids(all: &mut Vec<u32>, kids: &[u32]) -> Result<Span, Memory>
    ensures span { IfOk result (λ span. (span.start ≡ length all.old.items) × (span.end ≡ length all.old.items + length kids.now)) }
    ensures ok { OnOk result (all.new.items ≡ all.old.items ++ kids.now) }
    ensures err { OnErr result (all.new.items ≡ all.old.items) }
{
    let span = span_behind(all.len(), kids.len())?;
    all.extend_from_slice(kids)?;
    Ok(span)
}

/// How many nodes a tree over these kids has.
fn size_over(rows: &[BuiltRow], kids: &[u32]) -> Result<u32, Memory>
    requires { All (λ k. k < length rows.now) kids.now }
    ensures { IfOk result (λ size. size ≡ 1 + total (sizes_in rows.now) kids.now) }
{
    let mut size = 1u32;
    for kid in kids {
        size = size.checked_add(rows[*kid as usize].size).ok_or(Memory)?;
    }
    Ok(size)
}
