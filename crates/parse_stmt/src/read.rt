// The lines of a source, each read by itself.
ghost use Rattle.std.specs.Prelude.{◌≡◌, ◌<◌, [], length, All, IfOk};
ghost use Rattle.py_blocks.specs.Building.{Keeps};
ghost use Rattle.read_lines.specs.Spelling as lines;
ghost use Rattle.parse_stmt.specs.Reading.{IsKept, IsFound, AreReadAll, IsDocstringMade};

use crate::LineCause;
use crate::docstring::push_docstring;
use crate::kept::{Found, KeptLine, ReadLines};
use lint_values::Memory;
use py_token::Tokens;
use read_lines::{LineFault, LineForm, read_line};
use std::alloc::Global;
use tree_nodes::TreeBuilder;

/// Reads the lines from the first on, up to the end or to one that has no form.
pub(crate) fn read_all(
    alloc: Global,
    tokens: &Tokens,
    builder: &mut TreeBuilder,
) -> Result<ReadLines, Memory>
    requires { builder.old ≡ [] }
    ensures { IfOk result (λ read. AreReadAll tokens.now builder.new read.lines.items read.stop) }
{
    let mut lines = Vec::new(alloc);
    for n in 0..tokens.lines().len() {
        match read_one(alloc, tokens, n, builder)? {
            Found::Line(line) => lines.push(line)?,
            Found::Stop(cause) => {
                return Ok(ReadLines {
                    lines,
                    stop: Some(cause),
                });
            }
        }
    }
    Ok(ReadLines { lines, stop: None })
}

/// Reads a line.
fn read_one(
    alloc: Global,
    tokens: &Tokens,
    n: usize,
    builder: &mut TreeBuilder,
) -> Result<Found, Memory>
    requires { n < length tokens.now.lines }
    ensures found { IfOk result (IsFound tokens.now n builder.new) }
    ensures keeps { IfOk result (λ found. Keeps builder.old builder.new) }
{
    match read_line(alloc, tokens, n, builder) {
        Ok(form) => keep(alloc, tokens, n, builder, form),
        Err(LineFault::NoForm) => Ok(Found::Stop(LineCause::NoForm)),
        Err(LineFault::Field(fault)) => Ok(Found::Stop(LineCause::Field(fault))),
        Err(LineFault::Memory) => Err(Memory),
    }
}

/// A line that was read, with its docstring.
fn keep(
    alloc: Global,
    tokens: &Tokens,
    n: usize,
    builder: &mut TreeBuilder,
    form: LineForm,
) -> Result<Found, Memory>
    requires form { lines.Spells tokens.now n (lines.form_over builder.old form) }
    requires nodes { All (λ k. k < length builder.old) form.nodes.items }
    requires body { All (λ k. k < length builder.old) form.body.items }
    ensures found { IfOk result (IsFound tokens.now n builder.new) }
    ensures keeps { IfOk result (λ found. Keeps builder.old builder.new) }
{
    let _tokens = tokens.count();
    let _n = n;
    let docstring = push_docstring(alloc, builder, form.body.as_slice())?;
    let LineForm { head, nodes, body } = form;
    Ok(Found::Line(KeptLine {
        head,
        nodes,
        body,
        docstring,
    }))
}
