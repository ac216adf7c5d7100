// The parts of an f-string.
ghost use Rattle.std.specs.Prelude.{◌≡◌, ◌<◌, ◌+◌, ◌^◌, ◌++◌, List, ℕ, OnOk, OnErr, MatchResult, MatchOption};
ghost use Rattle.fstr_parse.specs.Parts as spec;
ghost use Rattle.fstr_parse.specs.Parts.{IsPart, IsOver, IsFaultAt};
ghost use Rattle.fstr_parse.specs.Scan.{HoldsExpression};
ghost use Rattle.fstr_parse.specs.Pieces.{piece_of};

use crate::field::{Field, field_at};
use crate::literal::literal_len;
use crate::{FieldFault, Piece, Pieces};
use lint_values::Memory;

/// What stands at one place of an f-string.
#[derive(Clone, Copy, Debug)]
pub enum Part {
    /// Text outside fields, so many bytes.
    Literal(usize),
    /// A field, as far as its `}` or the `:` of its format.
    Head(Field),
    /// The `}` that ends a format, and its field.
    FormatEnd,
}

/// How many bytes a part has.
pub fn part_len(part: Part) -> usize
    requires { spec.part_len part < 2 ^ 64 }
    ensures { result ≡ spec.part_len part }
{
    match part {
        Part::Literal(len) => len,
        Part::Head(field) => 1 + field.len,
        Part::FormatEnd => 1,
    }
}

/// How many formats are open behind a part.
pub fn depth_behind(depth: u8, part: Part) -> u8
    requires { depth < 3 }
    ensures { result ≡ spec.depth_behind depth part }
{
    match part {
        Part::Literal(_) => depth,
        Part::Head(field) => { if field.formatted { depth + 1 } else { depth } }
        Part::FormatEnd => depth.saturating_sub(1),
    }
}

/// The part at the front, or none at the end of the f-string.
pub fn part_at(raw: bool, depth: u8, text: &[u8]) -> Result<Option<Part>, FieldFault>
    ensures { MatchResult result
        (λ part. MatchOption part (IsOver depth text.now) (IsPart raw depth text.now))
        (λ fault. (stop : List ℕ) × IsFaultAt depth text.now stop fault) }
{
    let len = literal_len(raw, depth, text);
    if len > 0 {
        Ok(Some(Part::Literal(len)))
    } else if text.is_empty() {
        if depth == 0 {
            Ok(None)
        } else {
            Err(FieldFault::Unclosed)
        }
    } else if text[0] == b'}' {
        if depth == 0 {
            Err(FieldFault::LoneBrace)
        } else {
            Ok(Some(Part::FormatEnd))
        }
    } else if depth >= 2 {
        Err(FieldFault::TooNested)
    } else {
        let field = field_at(text.split_at(1).1)?;
        Ok(Some(Part::Head(field)))
    }
}

/// Adds the piece of a part that begins at this place of the whole text.
pub fn push_piece(pieces: &mut Pieces, part: Part, place: usize, depth: u8) -> Result<(), Memory>
    requires place { place + spec.part_len part < 2 ^ 32 }
    requires within { HoldsExpression part }
    ensures ok { OnOk result (pieces.new ≡ pieces.old ++ piece_of place depth part) }
    ensures err { OnErr result (pieces.new ≡ pieces.old) }
{
    match part {
        Part::Literal(len) => pieces.push(Piece {
            field: false,
            start: place as u32,
            end: (place + len) as u32,
            depth,
            convert: 0,
        }),
        Part::Head(field) => pieces.push(Piece {
            field: true,
            start: (place + 1) as u32,
            end: (place + 1 + field.expression) as u32,
            depth,
            convert: field.convert,
        }),
        Part::FormatEnd => Ok(()),
    }
}
