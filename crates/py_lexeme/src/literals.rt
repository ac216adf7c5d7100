// String and byte literals.
ghost use Rattle.std.specs.Prelude.{◌≡◌, ◌+◌, ◌<◌, ◌≤◌, length, false};
ghost use Rattle.py_lexeme.specs.Strings.{is_prefix, quote_at, begins_string, has_in_prefix, has_wide_byte};
ghost use Rattle.py_lexeme.specs.Pieces.{is_open};
ghost use Rattle.py_lexeme.specs.Scan as spec;

use crate::characters::{
    Class, all_in, begins_with, behind, char_at, front, further, is_either, is_in, is_quote, run,
};

/// Whether the text is a string's prefix, which may be empty.
pub fn is_prefix(text: &[char]) -> bool
    ensures { result ≡ is_prefix text.now }
{
    match text {
        [] => true,
        [c] => is_either('r', *c) || is_either('u', *c) || is_either('b', *c) || is_either('f', *c),
        [c, d] => {
            let raw_first = is_either('r', *c) && (is_either('b', *d) || is_either('f', *d));
            let raw_last = (is_either('b', *c) || is_either('f', *c)) && is_either('r', *d);
            raw_first || raw_last
        }
        _ => false,
    }
}

/// Whether a string begins here, be it closed or not.
pub fn begins_string(cs: &[char]) -> bool
    ensures { result ≡ begins_string cs.now }
{
    let prefix = run(Class::Letter, cs);
    is_prefix(front(cs, prefix)) && is_quote(char_at(cs, prefix))
}

/// The quote at the front: three where three of one kind stand there.
fn quote_at(cs: &[char]) -> &'static [u8]
    ensures { result.now ≡ quote_at cs.now }
{
    match cs {
        ['"', '"', '"', ..] => b"\"\"\"",
        ['"', ..] => b"\"",
        ['\'', '\'', '\'', ..] => b"'''",
        ['\'', ..] => b"'",
        _ => b"",
    }
}

/// The place behind the closing quote, or 0.
#[tactic(auto, using(crate::proofs::Lengths::begins_with_length))]
fn close(quote: &[u8], cs: &[char]) -> usize
    requires { 0 < length quote.now }
    ensures { result ≡ spec.close quote.now false cs.now }
{
    let mut len = 0;
    let mut kept = false;
    let mut rest = cs;
    while let [c, tail @ ..] = rest {
        if kept {
            kept = *c == '\r' && char_at(tail, 0) == '\n';
        } else {
            if begins_with(rest, quote) {
                return len + quote.len();
            }
            if quote.len() != 3 && !is_in(Class::OnLine, *c) {
                return 0;
            }
            kept = *c == '\\';
        }
        len += 1;
        rest = tail;
    }
    0
}

/// The length of the string behind its prefix, of an empty one where triple quotes stay open, or 0.
#[tactic(auto, using(crate::proofs::Lengths::close_within))]
fn quoted(cs: &[char]) -> usize
    ensures value { result ≡ spec.quoted cs.now }
    ensures within { result ≤ length cs.now }
{
    let quote = quote_at(cs);
    if quote.is_empty() {
        return 0;
    }
    let end = close(quote, cs.split_at(quote.len()).1);
    if end != 0 {
        quote.len() + end
    } else if quote.len() == 3 {
        2
    } else {
        0
    }
}

/// The length of the string at the front with its prefix, or 0.
pub fn string(cs: &[char]) -> usize
    ensures value { result ≡ spec.string cs.now }
    ensures within { result ≤ length cs.now }
{
    let prefix = run(Class::Letter, cs);
    further(prefix, quoted(cs.split_at(prefix).1))
}

/// Whether the string's prefix holds the letter, given by its small form.
pub fn has_in_prefix(small: char, text: &[char]) -> bool
    requires { small < 128 }
    ensures { result ≡ has_in_prefix small text.now }
{
    front(text, run(Class::Letter, text))
        .iter()
        .any(|c| is_either(small, *c))
}

pub fn has_wide_byte(text: &[char]) -> bool
    ensures { result ≡ has_wide_byte text.now }
{
    has_in_prefix('b', text) && !all_in(Class::Ascii, text)
}

/// Whether the text is an empty string, and its quote stands once more behind it.
pub fn is_open(text: &[char], rest: &[char]) -> bool
    ensures { result ≡ is_open text.now rest.now }
{
    let prefix = run(Class::Letter, text);
    text.len() == prefix + 2 && char_at(rest, 0) == char_at(text, prefix)
}
