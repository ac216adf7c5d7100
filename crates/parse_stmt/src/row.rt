// The rows of lines that were read.
ghost use Rattle.std.specs.Prelude.{◌≡◌, ◌<◌, ◌≤◌, length, map, IfOk};
ghost use Rattle.py_blocks.specs.Rows.{row_of};
ghost use Rattle.parse_stmt.specs.Reading.{row_at, rows_from};

use crate::kept::KeptLine;
use crate::place::{end_of, name_behind, pos_of};
use lint_values::Memory;
use py_blocks::BlockRow;
use py_token::Tokens;
use std::alloc::Global;

/// The rows of the first lines of a source.
pub(crate) fn rows_of<'a>(
    alloc: Global,
    tokens: &'a Tokens,
    lines: &'a [KeptLine],
) -> Result<Vec<BlockRow<'a>>, Memory>
    requires { length lines.now ≤ length tokens.now.lines }
    ensures { IfOk result (λ rows. map row_of rows.items ≡ rows_from tokens.now 0 lines.now) }
{
    let mut rows = Vec::new(alloc);
    for n in 0..lines.len() {
        rows.push(row_at(tokens, n, &lines[n]))?;
    }
    Ok(rows)
}

/// The row of a line.
fn row_at<'a>(tokens: &'a Tokens, n: usize, line: &'a KeptLine) -> BlockRow<'a>
    requires { n < length tokens.now.lines }
    ensures { row_of result ≡ row_at tokens.now n line.now }
{
    let logical = tokens.lines()[n];
    BlockRow {
        head: line.head,
        level: logical.level,
        pos: pos_of(tokens, logical.first),
        end_line: end_of(tokens, logical.end.saturating_sub(1)),
        name: name_behind(tokens, logical.first, line.head),
        nodes: line.nodes.as_slice(),
        body: line.body.as_slice(),
        docstring: line.docstring,
    }
}
