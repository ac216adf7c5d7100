// The kids of a header's node.
ghost use Rattle.std.specs.Prelude.{◌≡◌, ◌++◌, map, reverse, drop, length, ◌≤◌, flat_map, IfOk, OnOk};
ghost use Rattle.py_blocks.specs.Rows.{row_of};
ghost use Rattle.py_blocks.specs.Statements.{decorated, gathered, documented, either, parts, all_of};
ghost use Rattle.py_blocks.specs.Building.{level_of};

use crate::BlockRow;
use crate::heads::{is_decorator, is_definition};
use crate::waiting::{Waiting, push_reversed};
use lint_values::Memory;
use std::alloc::Global;

/// The parts of a header with its decorators, and the statements behind it, where `before` are all rows before its own.
pub fn parts_of(
    alloc: Global,
    before: &[BlockRow],
    row: &BlockRow,
    block: &Waiting,
) -> Result<Vec<u32>, Memory>
    ensures { IfOk result (λ kids. kids.items ≡ parts (decorated (gathered (map row_of (reverse before.now))) (row_of row.now)) (level_of block.now)) }
{
    let mut kids = Vec::new(alloc);
    if is_definition(row.head) {
        push_decorators(&mut kids, before)?;
        kids.extend_from_slice(row.nodes)?;
        push_documented(alloc, &mut kids, row, block)?;
    } else {
        kids.extend_from_slice(row.nodes)?;
        push_statements(&mut kids, row, block)?;
    }
    Ok(kids)
}

/// Adds the statements of a header.
fn push_statements(kids: &mut Vec<u32>, row: &BlockRow, block: &Waiting) -> Result<(), Memory>
    ensures { OnOk result (kids.new.items ≡ kids.old.items ++ ((row_of row.now).body ++ all_of (level_of block.now))) }
{
    kids.extend_from_slice(row.body)?;
    push_reversed(kids, block.clauses.as_slice())?;
    push_reversed(kids, block.statements.as_slice())?;
    Ok(())
}

/// Adds the statements of a header, the first as a docstring where it can be one.
fn push_documented(
    alloc: Global,
    kids: &mut Vec<u32>,
    row: &BlockRow,
    block: &Waiting,
) -> Result<(), Memory>
    ensures { OnOk result (kids.new.items ≡ kids.old.items ++ documented (either (row_of row.now).docstring (level_of block.now).docstring) ((row_of row.now).body ++ all_of (level_of block.now))) }
{
    let mut statements = Vec::new(alloc);
    push_statements(&mut statements, row, block)?;
    let docstring = first_of(row.docstring, block.docstring);
    push_behind(kids, docstring, statements.as_slice())?;
    Ok(())
}

fn first_of(one: Option<u32>, other: Option<u32>) -> Option<u32>
    ensures { result ≡ either one other }
{
    match one {
        Some(number) => Some(number),
        None => other,
    }
}

/// Adds statements, the first in the form of the docstring, where there is one.
pub fn push_behind(
    kids: &mut Vec<u32>,
    docstring: Option<u32>,
    statements: &[u32],
) -> Result<(), Memory>
    ensures { OnOk result (kids.new.items ≡ kids.old.items ++ documented docstring statements.now) }
{
    match docstring {
        None => {
            kids.extend_from_slice(statements)?;
            Ok(())
        }
        Some(docstring) => {
            kids.push(docstring)?;
            if let [_first, behind @ ..] = statements {
                kids.extend_from_slice(behind)?;
            }
            Ok(())
        }
    }
}

/// Adds what the decorators right before a row make.
fn push_decorators(kids: &mut Vec<u32>, before: &[BlockRow]) -> Result<(), Memory>
    ensures { OnOk result (kids.new.items ≡ kids.old.items ++ gathered (map row_of (reverse before.now))) }
{
    let start = first_decorator(before);
    let decorators = before.split_at(start).1;
    for row in decorators {
        kids.extend_from_slice(row.nodes)?;
    }
    Ok(())
}

/// Where the decorators at the end begin.
fn first_decorator(before: &[BlockRow]) -> usize
    ensures within { result ≤ length before.now }
    ensures gathered { flat_map (λ row. (row_of row).nodes) (drop result before.now) ≡ gathered (map row_of (reverse before.now)) }
{
    let mut start = before.len();
    while start > 0 {
        if !is_decorator(before[start - 1].head) {
            break;
        }
        start -= 1;
    }
    start
}
