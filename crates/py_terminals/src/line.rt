// The terminals of a logical line.
ghost use Rattle.std.specs.Prelude.{◌≡◌, ◌≤◌, ◌<◌, ◌+◌, ◌^◌, List, length, slice_index_or, IfOk, IfErr, Ok, Err};
ghost use Rattle.fstr_parse.specs.declared.fault.FieldFault.{FieldFault};
ghost use Rattle.py_grammar.specs.Terminals.{Terminal, code, no_terminal};
ghost use Rattle.py_grammar.specs.Words.{closes, opens};
ghost use Rattle.py_language.specs.Brackets as brackets;
ghost use Rattle.py_terminals.specs.Answers.{FaultsOnly, GivesOnly, OnField};
ghost use Rattle.py_terminals.specs.Lines.{IsLine};

use crate::LineFault;
use crate::reading::push_tokens;
use py_grammar::Symbol;
use py_line::Line;
use py_token::Tokens;
use std::alloc::Global;

/// What a line comes to.
fn line_terminals(alloc: Global, tokens: &Tokens, line: usize) -> Result<Line, LineFault>
    requires { line < length tokens.now.lines }
    ensures value { IfOk result (λ given. IsLine tokens.now line (Ok given)) }
    ensures fault { IfErr result (OnField (λ fault. IsLine tokens.now line (Err fault))) }
{
    let stretch = tokens.lines()[line];
    let depth = tokens.source().len();
    let mut given = Line::new(alloc);
    push_tokens(alloc, tokens, stretch.first, stretch.end, depth, &mut given)?;
    Ok(given)
}

/// The terminals of the logical line with this number, from 0, those of the fields of its f-strings included.
pub fn terminals(alloc: Global, tokens: &Tokens, line: usize) -> Result<Line, LineFault>
    requires { line < length tokens.now.lines }
    // What is given are the terminals of the line.
    ensures value { IfOk result (λ given. IsLine tokens.now line (Ok given)) }
    // Where it has terminals, they are given, unless memory runs out.
    ensures every { (all : List Terminal) → IsLine tokens.now line (Ok all) → GivesOnly result all }
    // A fault is that of the first string whose pieces are refused.
    ensures fault { IfErr result (OnField (λ fault. IsLine tokens.now line (Err fault))) }
    // And where the pieces of a string are refused, the first such fault is answered, unless memory runs out.
    ensures every_fault { (fault : FieldFault) → IsLine tokens.now line (Err fault) → FaultsOnly result fault }
{
    line_terminals(alloc, tokens, line)
}

/// What opens a nesting of brackets, the fields of strings included.
const OPENS: [Symbol; 4] = [
    Symbol::LeftParen,
    Symbol::LeftBracket,
    Symbol::LeftBrace,
    Symbol::FieldOpen,
];

/// What closes one.
const CLOSES: [Symbol; 4] = [
    Symbol::RightParen,
    Symbol::RightBracket,
    Symbol::RightBrace,
    Symbol::FieldClose,
];

/// How many brackets are open behind the symbol at a place, where so many are open before it.
fn level_behind(line: &Line, place: usize, level: usize) -> usize
    requires within { place < length line.now }
    requires room { level + 1 < 2 ^ 64 }
    ensures value { result ≡ brackets.turned opens closes (code (slice_index_or line.now place no_terminal)) level }
    ensures bound { result ≤ level + 1 }
{
    if line.at(place, OPENS.as_slice()) {
        level + 1
    } else if line.at(place, CLOSES.as_slice()) {
        level.saturating_sub(1)
    } else {
        level
    }
}

/// How many brackets are open in a line at any place, at most; the fields of strings count as brackets.
pub fn depth(line: &Line) -> usize
    ensures { result ≡ brackets.peak code opens closes 0 line.now }
{
    let mut level: usize = 0;
    let mut most = 0;
    for place in 0..line.len() {
        level = level_behind(line, place, level);
        most = level.max(most);
    }
    most
}
