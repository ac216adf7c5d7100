// Literal parts.
ghost use Rattle.std.specs.Prelude.{◌≡◌, ◌<◌, ◌≤◌, length};
ghost use Rattle.std.specs.List.{prefix_len};
ghost use Rattle.fstr_parse.specs.Scan as spec;
ghost use Rattle.fstr_parse.specs.Literals.{IsLiteral, is_in_name, names_character};

use crate::bytes::{byte_at, is_brace};

/// How many bytes stand before the first `}`.
fn name_len(text: &[u8]) -> usize
    ensures value { result ≡ prefix_len is_in_name text.now }
    ensures within { result ≤ length text.now }
{
    let mut end = 0;
    while end < text.len() && text[end] != b'}' {
        end += 1;
    }
    end
}

fn names_character(raw: bool, text: &[u8]) -> bool
    ensures { result ≡ names_character raw text.now }
{
    !raw && byte_at(text, 1) == b'N' && byte_at(text, 2) == b'{'
}

#[tactic(auto, unfolding(crate::specs::Scan::escape_len))]
fn escape_len(raw: bool, text: &[u8]) -> usize
    requires { 0 < length text.now }
    ensures value { result ≡ spec.escape_len raw text.now }
    ensures within { result ≤ length text.now }
{
    if names_character(raw, text) {
        let name = name_len(text.split_at(3).1);
        text.len().min(4 + name)
    } else if text.len() == 1 || is_brace(byte_at(text, 1)) {
        1
    } else {
        2
    }
}

/// The length of the unit of a literal part at the front.
#[tactic(auto, unfolding(crate::specs::Scan::unit_len))]
fn unit_len(raw: bool, depth: u8, text: &[u8]) -> usize
    ensures value { result ≡ spec.unit_len raw depth text.now }
    ensures within { result ≤ length text.now }
{
    if text.is_empty() {
        return 0;
    }
    let first = text[0];
    if is_brace(first) {
        if depth == 0 && byte_at(text, 1) == first {
            2
        } else {
            0
        }
    } else if first == b'\\' {
        escape_len(raw, text)
    } else {
        1
    }
}

/// The length of the literal part at the front, and 0 where none stands there.
pub fn literal_len(raw: bool, depth: u8, text: &[u8]) -> usize
    ensures { IsLiteral raw depth text.now result }
{
    let mut rest = text;
    loop {
        let len = unit_len(raw, depth, rest);
        if len == 0 {
            return text.len() - rest.len();
        }
        rest = rest.split_at(len).1;
    }
}
