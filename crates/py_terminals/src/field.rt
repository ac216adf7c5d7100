// The marks around the fields of a string, and their places.
ghost use Rattle.std.specs.Prelude.{◌≡◌, ◌≤◌, ◌<◌, ◌+◌, ◌-◌, ◌^◌, ◌++◌, ◌∷◌, [], length, OnOk};
ghost use Rattle.fstr_parse.specs.Pieces.{IsPieceOf};
ghost use Rattle.py_terminals.specs.Cursors.{StandsAt};
ghost use Rattle.py_terminals.specs.Fields as spec;
ghost use Rattle.py_source.specs.Spans.{bytes_of};
ghost use Rattle.py_terminals.specs.Strings.{inside_start};
ghost use Rattle.py_terminals.specs.Tokens.{terminal_of};
ghost use Rattle.py_token.specs.declared.token.TokenKind.TheVariants.{FStr};

use crate::place::{Cursor, end_line_of, moved};
use crate::string::inside_start;
use fstr_parse::Piece;
use lint_values::{Memory, Pos};
use py_grammar::Symbol;
use py_line::Line;
use py_source::{Span, slice};

/// The places of a field: its brace, its expression, and the end of that.
#[derive(Clone, Copy, Debug)]
pub(crate) struct Places {
    pub(crate) brace: Pos,
    pub(crate) start: Pos,
    pub(crate) end: Pos,
}

/// Adds a mark, which has no text.
pub(crate) fn push_mark(line: &mut Line, symbol: Symbol, pos: Pos) -> Result<(), Memory>
    ensures { OnOk result (line.new ≡ line.old ++ spec.mark symbol pos ∷ []) }
{
    line.push(symbol, pos, pos.line, "")
}

/// Adds the end of the field that is open, if there is one.
pub(crate) fn push_end(line: &mut Line, outer: Option<Pos>) -> Result<(), Memory>
    ensures { OnOk result (line.new ≡ line.old ++ spec.end_of outer) }
{
    match outer {
        None => Ok(()),
        Some(pos) => push_mark(line, Symbol::FieldClose, pos),
    }
}

/// Adds what stands before a field's expression.
pub(crate) fn push_opening(
    line: &mut Line,
    in_format: bool,
    outer: Option<Pos>,
    places: Places,
) -> Result<(), Memory>
    ensures { OnOk result (line.new ≡ line.old ++ spec.opening in_format outer places) }
{
    if in_format {
        return push_mark(line, Symbol::FieldOpen, places.brace);
    }
    push_end(line, outer)?;
    push_mark(line, Symbol::FieldOpen, places.brace)
}

/// Adds what stands behind a field's expression.
pub(crate) fn push_closing(line: &mut Line, in_format: bool, places: Places) -> Result<(), Memory>
    ensures { OnOk result (line.new ≡ line.old ++ spec.closing in_format places) }
{
    if in_format {
        push_mark(line, Symbol::FieldClose, places.end)
    } else {
        Ok(())
    }
}

/// Whether a field stands in a format.
pub(crate) fn is_in_format(piece: Piece) -> bool
    ensures { result ≡ spec.is_in_format piece }
{
    0 < piece.depth
}

/// Where the expression ends of the field outside formats that is open behind a field.
pub(crate) fn outer_behind(in_format: bool, outer: Option<Pos>, places: Places) -> Option<Pos>
    ensures { result ≡ spec.outer_behind in_format outer places }
{
    if in_format { outer } else { Some(places.end) }
}

/// Adds the terminal of an f-string itself.
pub(crate) fn push_start(line: &mut Line, text: &str, pos: Pos) -> Result<(), Memory>
    requires lines { pos.line + length text.now ≤ 2 ^ 32 }
    requires columns { pos.col + length text.now ≤ 2 ^ 32 }
    ensures { OnOk result (line.new ≡ line.old ++ terminal_of FStr text.now pos ∷ []) }
{
    line.push(Symbol::FStr, pos, end_line_of(pos, text), text)
}

/// Adds the end of the field that is open, if there is one, and of the string.
pub(crate) fn push_string_end(
    line: &mut Line,
    text: &str,
    pos: Pos,
    outer: Option<Pos>,
) -> Result<(), Memory>
    requires lines { pos.line + length text.now ≤ 2 ^ 32 }
    requires columns { pos.col + length text.now ≤ 2 ^ 32 }
    ensures { OnOk result (line.new ≡ line.old ++ (spec.end_of outer ++ spec.string_end (record { text = text.now; pos = pos }) ∷ [])) }
{
    push_end(line, outer)?;
    line.push(Symbol::FStrEnd, pos, end_line_of(pos, text), "")
}

/// The expression of a field.
#[tactic(auto, using(crate::proofs::FieldLaws::is_part))]
pub(crate) fn expression(inside: &str, piece: Piece) -> &str
    requires { IsPieceOf inside.now piece }
    ensures { result.now ≡ bytes_of inside.now (record { start = piece.start; end = piece.end }) }
{
    let span = Span {
        start: piece.start,
        end: piece.end,
    };
    slice(inside, span)
}

/// The places of a field, and a cursor at its brace.
pub(crate) fn places_of(text: &[u8], pos: Pos, cursor: Cursor, piece: Piece) -> (Places, Cursor)
    requires stands { StandsAt text.now pos cursor }
    requires lines { pos.line + length text.now ≤ 2 ^ 32 }
    requires columns { pos.col + length text.now ≤ 2 ^ 32 }
    requires within { inside_start text.now + piece.end < length text.now }
    requires some { piece.start < piece.end }
    ensures places { result.0 ≡ spec.places_of (record { text = text.now; pos = pos }) piece }
    ensures stands { StandsAt text.now pos result.1 }
{
    let inside = inside_start(text);
    let before = (piece.start as usize).saturating_sub(1);
    let brace = moved(text, pos, cursor, inside + before);
    let start = moved(text, pos, brace, inside + piece.start as usize);
    let end = moved(text, pos, start, inside + piece.end as usize);
    let places = Places {
        brace: brace.at,
        start: start.at,
        end: end.at,
    };
    (places, brace)
}
