// Docstrings: a first statement that is a plain string alone.
ghost use Rattle.std.specs.Prelude.{◌≡◌, ◌<◌, ◌∷◌, [], length, option_copied, option_map, string_bytes, All, IfOk};
ghost use Rattle.tree_nodes.specs.Rows.{tree_of};
ghost use Rattle.py_blocks.specs.Docstrings.{plain_text, statement_text, text_alone};
ghost use Rattle.parse_stmt.specs.Reading.{IsDocstringMade};

use lint_values::Memory;
use std::alloc::Global;
use tree_nodes::{Kind, TreeBuilder};

/// Adds the docstring that the first of some statements makes, where it can be one.
pub(crate) fn push_docstring(
    alloc: Global,
    builder: &mut TreeBuilder,
    body: &[u32],
) -> Result<Option<u32>, Memory>
    requires { All (λ n. n < length builder.old) body.now }
    ensures { IfOk result (IsDocstringMade builder.old builder.new body.now) }
{
    match body {
        [] => Ok(None),
        [first, ..] => push_first(alloc, builder, *first),
    }
}

/// The same of the first.
fn push_first(alloc: Global, builder: &mut TreeBuilder, row: u32) -> Result<Option<u32>, Memory>
    requires { row < length builder.old }
    ensures { IfOk result (IsDocstringMade builder.old builder.new (row ∷ [])) }
{
    match statement_text(alloc, builder, row)? {
        None => Ok(None),
        Some(text) => {
            let pos = builder.pos(row);
            let end_line = builder.end_line(row);
            let made = builder.push(Kind::Docstring, pos, end_line, Some(text.as_str()), &[])?;
            Ok(Some(made))
        }
    }
}

/// The text of a statement that is a plain string.
fn statement_text(alloc: Global, builder: &TreeBuilder, row: u32) -> Result<Option<String>, Memory>
    requires { row < length builder.now }
    ensures { IfOk result (λ text. option_map string_bytes text ≡ statement_text (tree_of builder.now row).node.kind (tree_of builder.now row).kids) }
{
    match builder.kind(row) {
        Kind::ExpressionStatement => text_alone(alloc, builder, row),
        _ => Ok(None),
    }
}

/// The text of the kid of a row that is a plain string alone.
fn text_alone(alloc: Global, builder: &TreeBuilder, row: u32) -> Result<Option<String>, Memory>
    requires { row < length builder.now }
    ensures { IfOk result (λ text. option_map string_bytes text ≡ text_alone (tree_of builder.now row).kids) }
{
    match builder.kids(row) {
        [kid] => plain_text(alloc, builder, *kid),
        _ => Ok(None),
    }
}

/// The text of a row that is a plain string.
fn plain_text(alloc: Global, builder: &TreeBuilder, row: u32) -> Result<Option<String>, Memory>
    requires { row < length builder.now }
    ensures { IfOk result (λ text. option_map string_bytes text ≡ plain_text (tree_of builder.now row).node.kind (tree_of builder.now row).node.name) }
{
    match builder.kind(row) {
        Kind::StringLiteral => copied(alloc, builder.name(row)),
        _ => Ok(None),
    }
}

fn copied(alloc: Global, name: Option<&str>) -> Result<Option<String>, Memory>
    ensures { IfOk result (λ text. option_map string_bytes text ≡ option_copied name.entry) }
{
    match name {
        None => Ok(None),
        Some(name) => {
            let text = String::from_str(alloc, name)?;
            Ok(Some(text))
        }
    }
}
