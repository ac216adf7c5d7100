// What tokens come to, those of the fields of their strings included.
ghost use Rattle.std.specs.Prelude.{◌≡◌, ◌≢◌, ◌≤◌, ◌<◌, ◌+◌, ◌-◌, ◌^◌, ℕ, All, filter, length, None, Some, slice_get, IfOk, IfErr};
ghost use Rattle.fstr_parse.specs.Pieces.{IsCut, IsFirstFault, IsPieceOf};
ghost use Rattle.fstr_parse.specs.declared.fault.FieldFault as field;
ghost use Rattle.py_terminals.specs.Answers.{Adds, OnField};
ghost use Rattle.py_terminals.specs.Fields as spec;
ghost use Rattle.py_terminals.specs.Lines.{AreRead, IsTokenRead, comes_within, tokens_between};
ghost use Rattle.py_terminals.specs.Strings.{has_letter, inside_of};
ghost use Rattle.py_terminals.specs.Tokens.{written};

use crate::LineFault;
use crate::field::{
    Places, expression, is_in_format, outer_behind, places_of, push_closing, push_mark,
    push_opening, push_start, push_string_end,
};
use crate::place::Cursor;
use crate::string::{has_letter, inside_of};
use crate::token::push_token;
use fstr_parse::{FieldFault, Piece, Pieces, pieces};
use lint_values::Pos;
use py_grammar::Symbol;
use py_line::Line;
use py_token::{Token, TokenFault, TokenKind, Tokens, tokenize_field};
use std::alloc::Global;

/// The fault of a string as one of its line.
fn fault_of(fault: FieldFault) -> LineFault
    ensures { OnField (λ found. (found ≡ fault) × (fault ≢ field.FieldFault.Memory)) result }
{
    match fault {
        FieldFault::Memory => LineFault::Memory,
        other => LineFault::Field(other),
    }
}

/// The pieces of a string, or why it has none.
fn cut(alloc: Global, text: &str) -> Result<Pieces, LineFault>
    requires { length text.now ≤ 2 ^ 32 }
    ensures cut { IfOk result (IsCut (has_letter 114 text.now) (inside_of text.now)) }
    ensures in_order { IfOk result (All (IsPieceOf (inside_of text.now))) }
    ensures fault { IfErr result (OnField (λ fault. (place : ℕ) × IsFirstFault (has_letter 114 text.now) (inside_of text.now) place fault)) }
{
    match pieces(alloc, inside_of(text), has_letter(b'r', text.as_bytes())) {
        Ok(pieces) => Ok(pieces),
        Err(fault) => Err(fault_of(fault)),
    }
}

/// Adds what the tokens from one number on up to another come to. `left` is how deep strings may stand in strings.
#[cycle(fields)]
pub(crate) fn push_tokens(
    alloc: Global,
    tokens: &Tokens,
    first: usize,
    end: usize,
    left: usize,
    line: &mut Line,
) -> Result<(), LineFault>
    requires { length tokens.now.text ≤ left }
    ensures { Adds (AreRead (comes_within left) tokens.now.text (tokens_between tokens.now first end)) line.old line.new result }
{
    let mut i = first;
    while i < end && i < tokens.count() {
        push_any(alloc, tokens, i, tokens.token(i), left, line)?;
        i += 1;
    }
    Ok(())
}

/// Adds what one token comes to.
#[cycle(fields)]
fn push_any(
    alloc: Global,
    tokens: &Tokens,
    i: usize,
    token: Token,
    left: usize,
    line: &mut Line,
) -> Result<(), LineFault>
    requires small { length tokens.now.text ≤ left }
    requires within { i < length tokens.now.tokens }
    requires here { slice_get tokens.now.tokens i ≡ Some token }
    requires lines { token.pos.line + (token.end - token.start) ≤ 2 ^ 32 }
    requires columns { token.pos.col + (token.end - token.start) ≤ 2 ^ 32 }
    ensures { Adds (IsTokenRead (comes_within left) token.kind (written tokens.now.text token) token.pos) line.old line.new result }
{
    match token.kind {
        TokenKind::FStr => push_string(alloc, tokens.text(i), token.pos, left, line),
        _ => {
            push_token(tokens, i, token, line)?;
            Ok(())
        }
    }
}

/// Adds what an f-string comes to that is written so and begins here.
#[cycle(fields)]
fn push_string(
    alloc: Global,
    text: &str,
    pos: Pos,
    left: usize,
    line: &mut Line,
) -> Result<(), LineFault>
    requires small { length text.now ≤ left }
    requires lines { pos.line + length text.now ≤ 2 ^ 32 }
    requires columns { pos.col + length text.now ≤ 2 ^ 32 }
    ensures { Adds (spec.IsStringRead (comes_within left) (record { text = text.now; pos = pos })) line.old line.new result }
{
    let pieces = cut(alloc, text)?;
    push_start(line, text, pos)?;
    push_fields(alloc, text, pos, pieces.as_slice(), left, line)
}

/// Adds what the fields among a string's pieces come to, and the string's end.
#[cycle(fields)]
fn push_fields(
    alloc: Global,
    text: &str,
    pos: Pos,
    pieces: &[Piece],
    left: usize,
    line: &mut Line,
) -> Result<(), LineFault>
    requires small { length text.now ≤ left }
    requires lines { pos.line + length text.now ≤ 2 ^ 32 }
    requires columns { pos.col + length text.now ≤ 2 ^ 32 }
    requires are { All (IsPieceOf (inside_of text.now)) pieces.now }
    ensures { Adds (spec.AreFields (comes_within left) (record { text = text.now; pos = pos }) None (filter spec.is_field pieces.now)) line.old line.new result }
{
    let inside = inside_of(text);
    let mut cursor = Cursor { place: 0, at: pos };
    let mut outer = None;
    for piece in pieces {
        if !piece.field {
            continue;
        }
        let (places, brace) = places_of(text.as_bytes(), pos, cursor, *piece);
        let in_format = is_in_format(*piece);
        let inner = expression(inside, *piece);
        push_field(alloc, inner, places, in_format, outer, left, line)?;
        outer = outer_behind(in_format, outer, places);
        cursor = brace;
    }
    push_string_end(line, text, pos, outer)?;
    Ok(())
}

/// Adds what a field comes to.
#[cycle(fields)]
fn push_field(
    alloc: Global,
    text: &str,
    places: Places,
    in_format: bool,
    outer: Option<Pos>,
    left: usize,
    line: &mut Line,
) -> Result<(), LineFault>
    requires small { length text.now < left }
    requires lines { places.start.line + length text.now < 2 ^ 32 }
    requires columns { places.start.col + length text.now < 2 ^ 32 }
    ensures { Adds (spec.IsFieldRead (comes_within left) text.now places in_format outer) line.old line.new result }
{
    push_opening(line, in_format, outer, places)?;
    push_expression(alloc, text, places.start, left, line)?;
    push_closing(line, in_format, places)?;
    Ok(())
}

/// Adds what an expression comes to that begins here.
#[cycle(fields)]
fn push_expression(
    alloc: Global,
    text: &str,
    at: Pos,
    left: usize,
    line: &mut Line,
) -> Result<(), LineFault>
    requires small { length text.now < left }
    requires lines { at.line + length text.now < 2 ^ 32 }
    requires columns { at.col + length text.now < 2 ^ 32 }
    ensures { Adds (spec.IsExpressionRead (comes_within left) text.now at) line.old line.new result }
{
    match tokenize_field(alloc, text, at) {
        Ok(tokens) => push_tokens(alloc, &tokens, 0, tokens.count(), left - 1, line),
        Err(TokenFault::At(_, _)) => {
            push_mark(line, Symbol::BadField, at)?;
            Ok(())
        }
        Err(TokenFault::Memory) => Err(LineFault::Memory),
    }
}
