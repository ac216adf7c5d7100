// From a builder's rows to a finished tree.
ghost use Rattle.std.specs.Prelude.{◌≡◌, ◌<◌, ◌+◌, ◌++◌, ◌∷◌, [], length, map, reverse, vec_len, All, IfOk, OnOk};
ghost use Rattle.tree_nodes.specs.Kept.{number_of, FitsIn, within};
ghost use Rattle.tree_nodes.specs.Built.{sizes_in};
ghost use Rattle.tree_nodes.specs.Finishing.{numbers_by, opened, AddsNumbers, AreLinked, GivesOut};

use crate::builder::{BuiltRow, row_number};
use crate::label::Span;
use crate::tree::TreeRow;
use lint_values::{Memory, NodeId};

/// A row that waits for its number, and one more than its parent's number, or 0.
#[derive(Clone, Copy, Debug)]
pub struct Open {
    pub row: u32,
    pub above: u32,
}

/// The numbers of kids behind the others, where the first one's is `first`.
pub fn number_kids(
    all: &mut Vec<NodeId>,
    rows: &[BuiltRow],
    kids: &[u32],
    first: u32,
) -> Result<(), Memory>
    requires { All (λ k. k < length rows.now) kids.now }
    ensures { OnOk result (AddsNumbers all.old.items all.new.items (numbers_by (sizes_in rows.now) first kids.now)) }
{
    let mut next = first;
    for kid in kids {
        all.push(NodeId(next))?;
        next = next.checked_add(rows[*kid as usize].size).ok_or(Memory)?;
    }
    Ok(())
}

/// Kids on the stack, the first one on top.
pub fn open_kids(stack: &mut Vec<Open>, kids: &[u32], above: u32) -> Result<(), Memory>
    ensures { OnOk result (reverse stack.new.items ≡ opened above kids.now ++ reverse stack.old.items) }
{
    let mut left = kids.len();
    while left > 0 {
        left -= 1;
        stack.push(Open {
            row: kids[left],
            above,
        })?;
    }
    Ok(())
}

/// Gives the next number to a row, and opens its kids.
pub fn give_out(
    out: &mut Vec<TreeRow>,
    numbered: &mut Vec<NodeId>,
    stack: &mut Vec<Open>,
    rows: &[BuiltRow],
    kids: &[u32],
    next: Open,
) -> Result<(), Memory>
    requires linked { AreLinked kids.now rows.now }
    requires made { next.row < length rows.now }
    ensures { OnOk result (GivesOut rows.now kids.now next out.old.items out.new.items numbered.old.items numbered.new.items stack.old.items stack.new.items) }
{
    let row = rows[next.row as usize];
    let below = &kids[row.kids.start as usize..row.kids.end as usize];
    let above = row_number(out.len())? + 1;
    let start = u32::try_from(numbered.len()).map_err(|_| Memory)?;
    number_kids(numbered, rows, below, above)?;
    let end = u32::try_from(numbered.len()).map_err(|_| Memory)?;
    let kids = Span { start, end };
    out.push(TreeRow {
        label: row.label,
        kids,
        above: next.above,
    })?;
    open_kids(stack, below, above)?;
    Ok(())
}
