// Lines and columns.
ghost use Rattle.std.specs.Prelude.{◌≡◌, ◌<◌, ◌≤◌, ◌^◌, ◌+◌, length, take, encode_utf8_all, slice_index};
ghost use Rattle.py_source.specs.Places.{pos_of, pos_from, next_pos, ends_line};

use lint_values::Pos;

fn ends_line(b: u8, rest: &[u8]) -> bool
    ensures { result ≡ ends_line b rest.now }
{
    let next = if rest.is_empty() { 0 } else { rest[0] };
    b == b'\n' || (b == b'\r' && !(next == b'\n'))
}

fn next_pos(at: Pos, ends: bool, width: u32) -> Pos
    requires line { at.line + width < 2 ^ 32 }
    requires col { at.col + width < 2 ^ 32 }
    requires wide { 0 < width }
    ensures value { result ≡ next_pos at ends width }
    ensures line { result.line ≤ at.line + width }
    ensures col { result.col ≤ at.col + width }
{
    if ends {
        Pos {
            line: at.line + 1,
            col: 0,
        }
    } else {
        Pos {
            line: at.line,
            col: at.col + width,
        }
    }
}

/// The place of a byte of a text.
pub fn pos_at(text: &[u8], place: usize) -> Pos
    requires within { place ≤ length text.now }
    requires short { place + 1 < 2 ^ 32 }
    ensures { result ≡ pos_of text.now place }
{
    let mut at = Pos { line: 1, col: 0 };
    let mut rest = text;
    let mut left = place;
    while left > 0 {
        let tail = rest.split_at(1).1;
        at = next_pos(at, ends_line(rest[0], tail), 1);
        rest = tail;
        left -= 1;
    }
    at
}

fn char_ends_line(c: char, rest: &[char]) -> bool
    ensures { result ≡ ends_line c rest.now }
{
    let next = if rest.is_empty() { '\0' } else { rest[0] };
    c == '\n' || (c == '\r' && !(next == '\n'))
}

/// The place so many characters further: a step takes the time of one character, however long the text is.
pub fn advance(from: Pos, characters: &[char], count: usize) -> Pos
    requires within { count ≤ length characters.now }
    requires line { from.line + length (encode_utf8_all (take count characters.now)) < 2 ^ 32 }
    requires col { from.col + length (encode_utf8_all (take count characters.now)) < 2 ^ 32 }
    ensures { result ≡ pos_from from (length (encode_utf8_all (take count characters.now))) (encode_utf8_all characters.now) }
{
    let mut at = from;
    let mut rest = characters;
    let mut left = count;
    while left > 0 {
        let c = rest[0];
        let tail = rest.split_at(1).1;
        at = next_pos(at, char_ends_line(c, tail), c.len_utf8() as u32);
        rest = tail;
        left -= 1;
    }
    at
}
