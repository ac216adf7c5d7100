// Where a logical line stands, and the name that it says.
ghost use Rattle.std.specs.Prelude.{◌≡◌, slice_get, option_copied};
ghost use Rattle.parse_stmt.specs.Places as spec;

use lint_values::Pos;
use py_grammar::Head;
use py_terminals::end_line_of;
use py_token::{TokenKind, Tokens};

/// Where a token begins.
pub(crate) fn pos_of(tokens: &Tokens, i: usize) -> Pos
    ensures { result ≡ spec.pos_of (slice_get tokens.now.tokens i) }
{
    if i < tokens.count() {
        tokens.token(i).pos
    } else {
        Pos { line: 0, col: 0 }
    }
}

/// The physical line where a token ends.
pub(crate) fn end_of(tokens: &Tokens, i: usize) -> u32
    ensures { result ≡ spec.end_of tokens.now.text (slice_get tokens.now.tokens i) }
{
    if i < tokens.count() {
        let pos = tokens.token(i).pos;
        end_line_of(pos, tokens.text(i))
    } else {
        0
    }
}

/// The text of a token: a name's normal form, and else what is written.
fn said<'a>(tokens: &'a Tokens, i: usize) -> &'a str
    ensures { result.now ≡ spec.said tokens.now.text (slice_get tokens.now.tokens i) }
{
    if i < tokens.count() {
        match tokens.token(i).kind {
            TokenKind::Name => tokens.name(i),
            _ => tokens.text(i),
        }
    } else {
        ""
    }
}

/// The text of a token so many behind another.
fn said_behind<'a>(tokens: &'a Tokens, first: usize, more: usize) -> &'a str
    ensures { result.now ≡ spec.word tokens.now first more }
{
    let count = tokens.count();
    if first < count && more < count - first {
        said(tokens, first + more)
    } else {
        ""
    }
}

/// The name behind `def` or `class` in a line that begins with this token.
pub(crate) fn name_behind<'a>(tokens: &'a Tokens, first: usize, head: Head) -> Option<&'a str>
    ensures { option_copied result ≡ spec.name_behind tokens.now first head }
{
    match head {
        Head::FunctionDef | Head::ClassDef => Some(said_behind(tokens, first, 1)),
        Head::AsyncFunctionDef => Some(said_behind(tokens, first, 2)),
        _ => None,
    }
}
