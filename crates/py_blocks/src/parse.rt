// The one tree of a file's rows, or the first fault.
ghost use Rattle.std.specs.Prelude.{◌≡◌, ℕ, ◌<◌, length, map, All, IfOk, IfErr};
ghost use Rattle.tree_nodes.specs.Trees.{Tree};
ghost use Rattle.py_blocks.specs.declared.fault.BlockCause.{BlockCause};
ghost use Rattle.py_blocks.specs.Rows.{row_of, line_of};
ghost use Rattle.py_blocks.specs.Spelling.{Spells, IsFirstAt, OnFault, GivesOnly, FaultsOnly, line_at};
ghost use Rattle.py_blocks.specs.Building.{IsMade};
ghost use Rattle.py_blocks.specs.Taking.{grown, IsRead, IsFoundAt};

use crate::heads::is_header;
use crate::rules::first_fault;
use crate::taking::build;
use crate::{BlockError, BlockRow, Line};
use lint_values::Memory;
use std::alloc::Global;
use tree_nodes::{Tree, TreeBuilder};

/// The one tree that the rows of a file spell, or the line of the first row that stands against a rule of blocks. The trees
/// of the rows' parts are rows of the builder; nodes that no row names are left out.
pub fn parse_rows(
    alloc: Global,
    builder: TreeBuilder,
    rows: &[BlockRow],
) -> Result<Tree, BlockError>
    requires { All (IsMade (length builder)) (map row_of rows.now) }
    // What is given is what the rows spell.
    ensures tree { IfOk result (Spells (grown builder (map row_of rows.now))) }
    // Whatever they spell is given, unless memory runs out.
    ensures every { (tree : Tree) → Spells (grown builder (map row_of rows.now)) tree → GivesOnly result tree }
    // A fault stands first where it is said.
    ensures fault { IfErr result (OnFault (IsFirstAt (grown builder (map row_of rows.now)))) }
    // And where one stands first it is answered.
    ensures every_fault { (line : ℕ) (cause : BlockCause) → IsFirstAt (grown builder (map row_of rows.now)) line cause → FaultsOnly result line cause }
{
    read_rows(alloc, builder, rows)
}

fn read_rows(alloc: Global, builder: TreeBuilder, rows: &[BlockRow]) -> Result<Tree, BlockError>
    requires { All (IsMade (length builder)) (map row_of rows.now) }
    ensures tree { IfOk result (IsRead (grown builder (map row_of rows.now))) }
    ensures fault { IfErr result (OnFault (IsFoundAt (grown builder (map row_of rows.now)))) }
{
    let lines = lines_of(alloc, rows)?;
    if let Some(fault) = first_fault(alloc, lines.as_slice(), true)? {
        return Err(BlockError::At {
            line: rows[fault.place].pos.line,
            cause: fault.cause,
        });
    }
    let tree = build(alloc, builder, rows)?;
    Ok(tree)
}

/// What the rules of blocks see of the rows.
fn lines_of(alloc: Global, rows: &[BlockRow]) -> Result<Vec<Line>, Memory>
    ensures { IfOk result (λ lines. lines.items ≡ map (λ row. line_of (row_of row)) rows.now) }
{
    let lines = rows.iter().map(|row| line_of(row)).collect(alloc)?;
    Ok(lines)
}

/// What the rules of blocks see of a row.
pub fn line_of(row: &BlockRow) -> Line
    ensures { result ≡ line_of (row_of row.now) }
{
    Line {
        head: row.head,
        level: row.level,
        is_open: opens_block(row),
    }
}

fn opens_block(row: &BlockRow) -> bool
    ensures { result ≡ (line_of (row_of row.now)).is_open }
{
    is_header(row.head) && row.body.is_empty()
}
