// A place in the text, so that what stands before the next comment is counted from there on.
ghost use Rattle.std.specs.Prelude.{◌≡◌, ◌≤◌};
ghost use Rattle.std.specs.List.{prefix_len};
ghost use Rattle.pragma_scope.specs.Cursors.{IsAt, IsWithin};
ghost use Rattle.pragma_scope.specs.LogicalLines.{begins_before, begun};
ghost use Rattle.pragma_scope.specs.Regions.{passed};

use crate::logical::token_at;
use py_token::{Logical, Tokens};

/// A place in the text, and how many logical lines begin before it and how many tokens do not begin behind it.
#[derive(Clone, Copy)]
pub(crate) struct Cursor {
    pub(crate) place: u32,
    pub(crate) lines: usize,
    pub(crate) tokens: usize,
}

fn begins_before(tokens: &Tokens, place: u32, line: Logical) -> bool
    ensures { result ≡ begins_before tokens.now place line }
{
    match token_at(tokens, line.first) {
        None => 0 < place,
        Some(token) => token.start < place,
    }
}

// How many of these logical lines begin before a place, up to the first that does not.
fn first_lines_before(tokens: &Tokens, place: u32, lines: &[Logical]) -> usize
    ensures { result ≡ prefix_len (begins_before tokens.now place) lines.now }
{
    lines
        .iter()
        .take_while(|line| begins_before(tokens, place, **line))
        .count()
}

// How many logical lines begin before a place, where so many do.
#[tactic(auto, using(crate::proofs::CursorLaws::prefix_within, crate::proofs::CursorLaws::prefix_from))]
fn lines_before(tokens: &Tokens, place: u32, from: usize) -> usize
    requires { from ≤ begun tokens.now place }
    ensures { result ≡ begun tokens.now place }
{
    let rest = tokens.lines().split_at(from).1;
    from + first_lines_before(tokens, place, rest)
}

// How many tokens do not begin behind a place, where so many do not.
fn tokens_before(tokens: &Tokens, place: u32, from: usize) -> usize
    requires { from ≤ passed tokens.now place }
    ensures { result ≡ passed tokens.now place }
{
    let count = tokens.count();
    for i in from..count {
        let token = tokens.token(i);
        if place < token.start {
            return i;
        }
    }
    count
}

impl Cursor {
    /// Before all tokens.
    pub(crate) fn new() -> Cursor
        ensures lines { result.lines ≡ 0 }
        ensures tokens { result.tokens ≡ 0 }
    {
        Cursor {
            place: 0,
            lines: 0,
            tokens: 0,
        }
    }

    fn advanced(self, tokens: &Tokens, place: u32) -> Cursor
        requires lines { self.lines ≤ begun tokens.now place }
        requires tokens { self.tokens ≤ passed tokens.now place }
        ensures { IsAt tokens.now place result }
    {
        Cursor {
            place,
            lines: lines_before(tokens, place, self.lines),
            tokens: tokens_before(tokens, place, self.tokens),
        }
    }

    /// The cursor at a place: the way from the start is gone again only where the place stands before this one.
    #[tactic(auto, using(crate::proofs::CursorLaws::begun_more, crate::proofs::CursorLaws::passed_more))]
    pub(crate) fn moved(self, tokens: &Tokens, place: u32) -> Cursor
        requires { IsWithin tokens.now self }
        ensures { IsAt tokens.now place result }
    {
        if self.place <= place {
            self.advanced(tokens, place)
        } else {
            Cursor::new().advanced(tokens, place)
        }
    }
}
