// The one tree of a source, or its first line at fault.
ghost use Rattle.std.specs.Prelude.{◌≡◌, ℕ, ◌<◌, length, map, All, IfOk, IfErr, IfSome, MatchOption, true, false};
ghost use Rattle.tree_nodes.specs.Shaped.{IsShaped};
ghost use Rattle.tree_nodes.specs.Trees.{Tree};
ghost use Rattle.py_blocks.specs.Building.{IsMade};
ghost use Rattle.py_blocks.specs.Rows.{row_of, line_of as seen};
ghost use Rattle.py_blocks.specs.Rules.{AreRight, IsFirstFault};
ghost use Rattle.py_blocks.specs.Spelling as blocks;
ghost use Rattle.py_blocks.specs.Taking.{grown};
ghost use Rattle.parse_stmt.specs.declared.fault.SyntaxCause.{SyntaxCause};
ghost use Rattle.parse_stmt.specs.Answers.{OnFault, GivesOnly, FaultsOnly};
ghost use Rattle.parse_stmt.specs.Reading.{IsRowFault, IsStopFault};
ghost use Rattle.parse_stmt.specs.Spelling as spec;

use crate::place::pos_of;
use crate::read::read_all;
use crate::row::rows_of;
use crate::{LineCause, SyntaxCause, SyntaxFault};
use lint_values::Memory;
use py_blocks::{
    BlockCause, BlockError, BlockFault, BlockRow, Line, first_fault, line_of, parse_rows,
};
use py_token::Tokens;
use std::alloc::Global;
use tree_nodes::{Tree, TreeBuilder};

/// The one tree that the tokens of a source spell, or the first line that has no form or stands against a rule of blocks.
pub fn parse(alloc: Global, tokens: &Tokens) -> Result<Tree, SyntaxFault>
    // What is given is what the tokens spell.
    ensures tree { IfOk result (spec.Spells tokens.now) }
    // It is in shape.
    ensures shaped { IfOk result IsShaped }
    // Whatever they spell is given, unless memory runs out.
    ensures every { (tree : Tree) → spec.Spells tokens.now tree → GivesOnly result tree }
    // A fault stands first where it is said.
    ensures fault { IfErr result (OnFault (spec.IsFault tokens.now)) }
    // And where one stands first it is answered, unless memory runs out.
    ensures every_fault { (line : ℕ) (cause : SyntaxCause) → spec.IsFault tokens.now line cause → FaultsOnly result line cause }
{
    parse_lines(alloc, tokens)
}

fn parse_lines(alloc: Global, tokens: &Tokens) -> Result<Tree, SyntaxFault>
    ensures tree { IfOk result (spec.Spells tokens.now) }
    ensures fault { IfErr result (OnFault (spec.IsFault tokens.now)) }
{
    let mut builder = TreeBuilder::new(alloc);
    let read = read_all(alloc, tokens, &mut builder)?;
    let rows = rows_of(alloc, tokens, read.lines.as_slice())?;
    match read.stop {
        None => whole(alloc, builder, rows.as_slice()),
        Some(cause) => Err(stopped(alloc, tokens, rows.as_slice(), cause)),
    }
}

/// What the rows of all lines come to.
fn whole(alloc: Global, builder: TreeBuilder, rows: &[BlockRow]) -> Result<Tree, SyntaxFault>
    requires { All (IsMade (length builder)) (map row_of rows.now) }
    ensures tree { IfOk result (blocks.Spells (grown builder (map row_of rows.now))) }
    ensures fault { IfErr result (OnFault (IsRowFault true (grown builder (map row_of rows.now)))) }
{
    match parse_rows(alloc, builder, rows) {
        Ok(tree) => Ok(tree),
        Err(BlockError::At { line, cause }) => Err(SyntaxFault::At {
            line,
            cause: cause_of(cause),
        }),
        Err(BlockError::Memory) => Err(SyntaxFault::Memory),
    }
}

/// The first line at fault, where the line behind these rows has no form for this cause.
fn stopped(alloc: Global, tokens: &Tokens, rows: &[BlockRow], cause: LineCause) -> SyntaxFault
    requires { length rows.now < length tokens.now.lines }
    ensures { OnFault (IsStopFault tokens.now (map row_of rows.now) cause) result }
{
    match row_fault(alloc, rows) {
        Ok(Some(fault)) => SyntaxFault::At {
            line: rows[fault.place].pos.line,
            cause: cause_of(fault.cause),
        },
        Ok(None) => SyntaxFault::At {
            line: pos_of(tokens, tokens.lines()[rows.len()].first).line,
            cause: SyntaxCause::Line(cause),
        },
        Err(_) => SyntaxFault::Memory,
    }
}

/// The first of some rows that stands against a rule of blocks, where more text comes behind them.
fn row_fault(alloc: Global, rows: &[BlockRow]) -> Result<Option<BlockFault>, Memory>
    ensures first { IfOk result (λ fault. MatchOption fault (AreRight false (map (λ row. seen (row_of row)) rows.now)) (IsFirstFault false (map (λ row. seen (row_of row)) rows.now))) }
    ensures place { IfOk result (λ fault. IfSome fault (λ fault. fault.place < length rows.now)) }
{
    let lines = lines_of(alloc, rows)?;
    first_fault(alloc, lines.as_slice(), false)
}

/// What the rules of blocks see of rows.
fn lines_of(alloc: Global, rows: &[BlockRow]) -> Result<Vec<Line>, Memory>
    ensures { IfOk result (λ lines. lines.items ≡ map (λ row. seen (row_of row)) rows.now) }
{
    let lines = rows.iter().map(|row| line_of(row)).collect(alloc)?;
    Ok(lines)
}

fn cause_of(cause: BlockCause) -> SyntaxCause
    ensures { result ≡ spec.cause_of cause }
{
    match cause {
        BlockCause::Unexpected => SyntaxCause::Unexpected,
        BlockCause::NeedsBlock => SyntaxCause::NeedsBlock,
        BlockCause::Follows => SyntaxCause::Follows,
    }
}
