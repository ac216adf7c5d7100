// The expressions of fields.
ghost use Rattle.std.specs.Prelude.{◌≡◌, ◌+◌, ◌≤◌, ◌<◌, ◌^◌, length, slice_index, IsTrue, MatchResult, drop, List, ℕ};
ghost use Rattle.fstr_parse.specs.Bytes.{is_quote};
ghost use Rattle.fstr_parse.specs.Expressions as spec;
ghost use Rattle.fstr_parse.specs.Scan as scan;
ghost use Rattle.fstr_parse.specs.Expressions.{IsExpression};
ghost use Rattle.fstr_parse.specs.Fields.{IsBadField};
ghost use Rattle.fstr_parse.specs.Heads.{halt_fault};

use crate::FieldFault;
use crate::bytes::{blank_len, byte_at, is_closing, is_opening, is_quote};

/// The length of an `=` at the front, with the blanks and line ends behind it.
#[tactic(auto, unfolding(crate::specs::Expressions::equals_len))]
pub fn equals_len(text: &[u8]) -> usize
    ensures value { result ≡ spec.equals_len text.now }
    ensures within { result ≤ length text.now }
{
    if text.is_empty() || text[0] != b'=' {
        return 0;
    }
    1 + blank_len(text.split_at(1).1)
}

#[tactic(auto, unfolding(crate::specs::Expressions::is_mark))]
fn is_mark(text: &[u8]) -> bool
    ensures { result ≡ spec.is_mark text.now }
{
    match byte_at(text, 0) {
        b'}' | b':' => true,
        b'!' => byte_at(text, 1) != b'=',
        _ => false,
    }
}

#[tactic(auto, unfolding(crate::specs::Expressions::is_end))]
fn is_end(text: &[u8]) -> bool
    ensures { result ≡ spec.is_end text.now }
{
    is_mark(text.split_at(equals_len(text)).1)
}

#[tactic(auto, unfolding(crate::specs::Expressions::quotes_len))]
fn quotes_len(text: &[u8]) -> usize
    requires { IsTrue (is_quote (slice_index text.now 0)) }
    ensures value { result ≡ spec.quotes_len text.now }
    ensures within { result ≤ length text.now }
{
    let quote = byte_at(text, 0);
    if byte_at(text, 1) == quote && byte_at(text, 2) == quote {
        3
    } else {
        1
    }
}

#[tactic(auto, unfolding(crate::specs::Expressions::are_quotes))]
fn are_quotes(quote: u8, count: usize, text: &[u8]) -> bool
    ensures { result ≡ spec.are_quotes quote count text.now }
{
    byte_at(text, 0) == quote
        && (count == 1 || byte_at(text, 1) == quote && byte_at(text, 2) == quote)
}

/// How many bytes stand before closing quotes, a backslash or the end.
fn body_len(quote: u8, count: usize, text: &[u8]) -> usize
    ensures value { result ≡ scan.body_len quote count text.now }
    ensures within { result ≤ length text.now }
{
    let mut rest = text;
    while let [first, after @ ..] = rest {
        if are_quotes(quote, count, rest) || *first == b'\\' {
            break;
        }
        rest = after;
    }
    text.len() - rest.len()
}

/// How far a string at the front goes before its closing quotes, a backslash or the end.
#[tactic(auto, unfolding(crate::specs::Scan::opened_len))]
fn opened_len(text: &[u8]) -> usize
    ensures value { result ≡ scan.opened_len text.now }
    ensures within { result ≤ length text.now }
{
    let quote = byte_at(text, 0);
    if !is_quote(quote) {
        return 0;
    }
    let count = quotes_len(text);
    count + body_len(quote, count, text.split_at(count).1)
}

#[tactic(auto, unfolding(crate::specs::Scan::string_len))]
fn string_len(text: &[u8]) -> usize
    requires { IsTrue (is_quote (slice_index text.now 0)) }
    ensures value { result ≡ scan.string_len text.now }
    ensures within { result ≤ length text.now }
{
    let count = quotes_len(text);
    let opened = opened_len(text);
    if are_quotes(byte_at(text, 0), count, text.split_at(opened).1) {
        opened + count
    } else {
        0
    }
}

fn ends_at(brackets: usize, text: &[u8]) -> bool
    ensures { result ≡ spec.ends_at brackets text.now }
{
    brackets == 0 && is_end(text)
}

/// The length of the step of an expression at the front, in which so many brackets are open.
#[tactic(auto, unfolding(crate::specs::Scan::step_len))]
fn step_len(brackets: usize, text: &[u8]) -> usize
    ensures value { result ≡ scan.step_len brackets text.now }
    ensures within { result ≤ length text.now }
{
    if ends_at(brackets, text) || text.is_empty() {
        return 0;
    }
    match text[0] {
        b'\\' | b'#' => 0,
        b'\'' | b'"' => string_len(text),
        _ => 1,
    }
}

#[tactic(auto, unfolding(crate::specs::Expressions::brackets_behind))]
fn brackets_behind(brackets: usize, text: &[u8]) -> usize
    requires { brackets + length text.now < 2 ^ 64 }
    ensures { result ≡ spec.brackets_behind brackets text.now }
{
    let first = byte_at(text, 0);
    if is_opening(first) {
        brackets + 1
    } else if is_closing(first) {
        brackets.saturating_sub(1)
    } else {
        brackets
    }
}

/// Why an expression can't go on here.
fn fault_at(text: &[u8]) -> FieldFault
    ensures { result ≡ halt_fault (drop (scan.opened_len text.now) text.now) }
{
    let stop = text.split_at(opened_len(text)).1;
    match byte_at(stop, 0) {
        b'\\' => FieldFault::Backslash,
        b'#' => FieldFault::Comment,
        _ => FieldFault::Unclosed,
    }
}

/// The length of the expression at the front.
pub fn expression_len(text: &[u8]) -> Result<usize, FieldFault>
    ensures { MatchResult result (IsExpression text.now) (λ fault. (stop : List ℕ) × IsBadField text.now stop fault) }
{
    let mut rest = text;
    let mut brackets = 0;
    loop {
        let len = step_len(brackets, rest);
        if len == 0 {
            break;
        }
        brackets = brackets_behind(brackets, rest);
        rest = rest.split_at(len).1;
    }
    if ends_at(brackets, rest) {
        Ok(text.len() - rest.len())
    } else {
        Err(fault_at(rest))
    }
}
