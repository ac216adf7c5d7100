// The nodes that rows make.
ghost use Rattle.std.specs.Prelude.{◌≡◌, ◌++◌, ◌<◌, true, false, length, map, reverse, IfOk, OnOk, All};
ghost use Rattle.tree_nodes.specs.Rows.{tree_of};
ghost use Rattle.py_blocks.specs.Heads as heads;
ghost use Rattle.py_blocks.specs.Rows.{row_of};
ghost use Rattle.py_blocks.specs.Statements.{decorated, gathered, with_simple};
ghost use Rattle.py_blocks.specs.Building.{level_of, levels_of, IsMade, IsHeld, IsNode, Makes, MakesClause, MakesStatement, Takes};

use crate::BlockRow;
use crate::heads::{is_clause, is_header, kind_of};
use crate::parts::parts_of;
use crate::waiting::{Waiting, deepen, push_reversed, take_level};
use lint_values::Memory;
use std::alloc::Global;
use std::cmp::max;
use tree_nodes::TreeBuilder;

/// Takes a row behind which all rows were taken, where `before` are all rows before it.
pub fn take_row(
    alloc: Global,
    builder: &mut TreeBuilder,
    levels: &mut Vec<Waiting>,
    before: &[BlockRow],
    row: &BlockRow,
) -> Result<(), Memory>
    requires made { IsMade (length builder.old) (decorated (gathered (map row_of (reverse before.now))) (row_of row.now)) }
    requires held { All (IsHeld (length builder.old)) (levels_of levels.old.items) }
    ensures { OnOk result (Takes builder.old builder.new (decorated (gathered (map row_of (reverse before.now))) (row_of row.now)) (levels_of levels.old.items) (levels_of levels.new.items)) }
{
    deepen(alloc, levels, row.level as usize + 2)?;
    let block = take_level(alloc, levels);
    let behind = take_level(alloc, levels);
    let made = make(alloc, builder, before, row, &block, behind)?;
    levels.push(made)?;
    Ok(())
}

/// What a row makes with its block and what is behind.
fn make(
    alloc: Global,
    builder: &mut TreeBuilder,
    before: &[BlockRow],
    row: &BlockRow,
    block: &Waiting,
    behind: Waiting,
) -> Result<Waiting, Memory>
    requires made { IsMade (length builder.old) (decorated (gathered (map row_of (reverse before.now))) (row_of row.now)) }
    requires block { IsHeld (length builder.old) (level_of block.now) }
    requires behind { IsHeld (length builder.old) (level_of behind) }
    ensures { IfOk result (λ made. Makes builder.old builder.new (decorated (gathered (map row_of (reverse before.now))) (row_of row.now)) (level_of block.now) (level_of behind) (level_of made)) }
{
    if is_header(row.head) {
        let kids = parts_of(alloc, before, row, block)?;
        if is_clause(row.head) {
            let made = add_clause(builder, row, kids.as_slice(), block, behind)?;
            Ok(made)
        } else {
            let made = add_statement(builder, row, kids, block, behind)?;
            Ok(made)
        }
    } else {
        let made = add_simple(row, block, behind)?;
        Ok(made)
    }
}

/// Puts simple statements before the others.
fn add_simple(row: &BlockRow, block: &Waiting, behind: Waiting) -> Result<Waiting, Memory>
    ensures { IfOk result (λ made. level_of made ≡ with_simple (row_of row.now) (level_of block.now) (level_of behind)) }
{
    let Waiting {
        docstring: _docstring,
        clauses,
        reach,
        mut statements,
        last,
    } = behind;
    push_reversed(&mut statements, row.body)?;
    Ok(Waiting {
        docstring: row.docstring,
        clauses,
        reach,
        statements,
        last: max(max(row.end_line, block.last), last),
    })
}

/// Puts a clause before the others.
fn add_clause(
    builder: &mut TreeBuilder,
    row: &BlockRow,
    kids: &[u32],
    block: &Waiting,
    behind: Waiting,
) -> Result<Waiting, Memory>
    requires { All (λ n. n < length builder.old) kids.now }
    ensures { IfOk result (λ made. MakesClause builder.old builder.new (row_of row.now) kids.now (level_of block.now) (level_of behind) (level_of made)) }
{
    let Waiting {
        docstring: _docstring,
        mut clauses,
        reach,
        statements,
        last,
    } = behind;
    let end_line = max(row.end_line, block.last);
    let node = push_node(builder, row, end_line, kids)?;
    clauses.push(node)?;
    Ok(Waiting {
        docstring: None,
        clauses,
        reach: max(end_line, reach),
        statements,
        last: max(end_line, last),
    })
}

/// Puts a statement with the clauses behind it before the others.
fn add_statement(
    builder: &mut TreeBuilder,
    row: &BlockRow,
    kids: Vec<u32>,
    block: &Waiting,
    behind: Waiting,
) -> Result<Waiting, Memory>
    requires parts { All (λ n. n < length builder.old) kids.items }
    requires clauses { All (λ n. n < length builder.old) (level_of behind).clauses }
    ensures { IfOk result (λ made. MakesStatement builder.old builder.new (row_of row.now) kids.items (level_of block.now) (level_of behind) (level_of made)) }
{
    let Waiting {
        docstring: _docstring,
        mut clauses,
        reach,
        mut statements,
        last,
    } = behind;
    let end_line = max(row.end_line, block.last);
    let mut all = kids;
    push_reversed(&mut all, clauses.as_slice())?;
    let node = push_node(builder, row, max(end_line, reach), all.as_slice())?;
    statements.push(node)?;
    clauses.clear();
    Ok(Waiting {
        docstring: None,
        clauses,
        reach: 0,
        statements,
        last: max(end_line, last),
    })
}

/// A header's node.
fn push_node(
    builder: &mut TreeBuilder,
    row: &BlockRow,
    end_line: u32,
    kids: &[u32],
) -> Result<u32, Memory>
    requires { All (λ n. n < length builder.old) kids.now }
    ensures { IfOk result (λ node. IsNode builder.old builder.new (row_of row.now) end_line kids.now node) }
{
    let node = builder.push(kind_of(row.head), row.pos, end_line, row.name, kids)?;
    Ok(node)
}
