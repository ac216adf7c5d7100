// Places in a text that begins somewhere in a source.
ghost use Rattle.std.specs.Prelude.{◌≡◌, ◌<◌, ◌≤◌, ◌^◌, ◌+◌, length};
ghost use Rattle.py_source.specs.Places as spec;
ghost use Rattle.py_terminals.specs.Cursors.{StandsAt};
ghost use Rattle.py_terminals.specs.Tokens.{end_line_of};

use lint_values::Pos;

fn ends_line(b: u8, rest: &[u8]) -> bool
    ensures { result ≡ spec.ends_line b rest.now }
{
    let next = if rest.is_empty() { 0 } else { rest[0] };
    b == b'\n' || (b == b'\r' && !(next == b'\n'))
}

/// The place one byte further, or the start of the next line.
fn next_pos(at: Pos, ends: bool) -> Pos
    requires line { at.line + 1 < 2 ^ 32 }
    requires col { at.col + 1 < 2 ^ 32 }
    ensures value { result ≡ spec.next_pos at ends 1 }
    ensures line { result.line ≤ at.line + 1 }
    ensures col { result.col ≤ at.col + 1 }
{
    if ends {
        Pos {
            line: at.line + 1,
            col: 0,
        }
    } else {
        Pos {
            line: at.line,
            col: at.col + 1,
        }
    }
}

/// The place so many bytes further.
pub(crate) fn pos_behind(from: Pos, text: &[u8], count: usize) -> Pos
    requires within { count ≤ length text.now }
    requires line { from.line + count < 2 ^ 32 }
    requires col { from.col + count < 2 ^ 32 }
    ensures { result ≡ spec.pos_from from count text.now }
{
    let mut at = from;
    let mut rest = text;
    let mut left = count;
    while left > 0 {
        let tail = rest.split_at(1).1;
        at = next_pos(at, ends_line(rest[0], tail));
        rest = tail;
        left -= 1;
    }
    at
}

/// A byte of a text and its place in the source.
#[derive(Clone, Copy, Debug)]
pub(crate) struct Cursor {
    pub(crate) place: usize,
    pub(crate) at: Pos,
}

/// The place of another byte of the text: from the cursor on, or where that is further from the start.
#[tactic(auto, using(crate::proofs::PlaceLaws::moves, crate::proofs::PlaceLaws::bounds))]
pub(crate) fn moved(text: &[u8], pos: Pos, cursor: Cursor, place: usize) -> Cursor
    requires stands { StandsAt text.now pos cursor }
    requires within { place < length text.now }
    requires lines { pos.line + length text.now ≤ 2 ^ 32 }
    requires columns { pos.col + length text.now ≤ 2 ^ 32 }
    ensures stands { StandsAt text.now pos result }
    ensures place { result.place ≡ place }
{
    if place < cursor.place {
        let at = pos_behind(pos, text, place);
        return Cursor { place, at };
    }
    let rest = text.split_at(cursor.place).1;
    let at = pos_behind(cursor.at, rest, place - cursor.place);
    Cursor { place, at }
}

/// The line on which the last byte of a text stands that begins here.
pub fn end_line_of(pos: Pos, text: &str) -> u32
    requires lines { pos.line + length text.now ≤ 2 ^ 32 }
    requires columns { pos.col + length text.now ≤ 2 ^ 32 }
    ensures { result ≡ end_line_of pos text.now }
{
    pos_behind(pos, text.as_bytes(), text.len().saturating_sub(1)).line
}
