// The lines on which a comment behind code acts.
ghost use Rattle.std.specs.Prelude.{◌≡◌, ◌≤◌, ◌<◌, ◌+◌, ◌^◌, length, nat_lt, slice_get};
ghost use Rattle.std.specs.List.{prefix_len};
ghost use Rattle.pragma_scope.specs.LogicalLines.{begins_before, begun, deeper, end_line, first_line, last_line, line_region, place_of, region_from};

use crate::region::Region;
use py_source::pos_at;
use py_token::{Comment, Logical, Token, Tokens};

pub(crate) fn token_at(tokens: &Tokens, i: usize) -> Option<Token>
    ensures { result ≡ slice_get tokens.now.tokens i }
{
    if i < tokens.count() {
        Some(tokens.token(i))
    } else {
        None
    }
}

// The line where a text ends that begins on this line.
#[tactic(auto, using(crate::proofs::LineLaws::line_within))]
fn end_line(line: u32, text: &str) -> u32
    requires short { length text.now < 2 ^ 32 }
    requires lines { line + length text.now ≤ 2 ^ 32 }
    ensures { result ≡ end_line line text.now }
{
    let at = pos_at(text.as_bytes(), text.len().saturating_sub(1));
    line + at.line.saturating_sub(1)
}

fn first_line(tokens: &Tokens, line: Logical) -> u32
    ensures { result ≡ first_line tokens.now line }
{
    match token_at(tokens, line.first) {
        None => 0,
        Some(token) => token.pos.line,
    }
}

fn last_line(tokens: &Tokens, line: Logical) -> u32
    ensures { result ≡ last_line tokens.now line }
{
    let i = line.end.saturating_sub(1);
    if i < tokens.count() {
        end_line(tokens.token(i).pos.line, tokens.text(i))
    } else {
        0
    }
}

// How many logical lines are indented deeper, up to the first that is not.
fn deeper_len(level: u32, lines: &[Logical]) -> usize
    ensures { result ≡ prefix_len (λ line. nat_lt level line.level) lines.now }
{
    lines.iter().take_while(|line| level < line.level).count()
}

/// The lines of a logical line with what is indented deeper behind it.
#[tactic(auto, using(crate::proofs::LineLaws::prefix_within))]
fn region_from(tokens: &Tokens, line: Logical, lines: &[Logical]) -> Region
    ensures { result ≡ region_from tokens.now line lines.now }
{
    let deeper = lines.split_at(deeper_len(line.level, lines)).0;
    let last = match deeper.last() {
        Some(last) => last_line(tokens, *last),
        None => last_line(tokens, line),
    };
    Region {
        first: first_line(tokens, line),
        last,
    }
}

/// The lines on which a comment behind code acts, before which so many logical lines begin.
#[tactic(auto, using(crate::proofs::LineLaws::prefix_within))]
pub(crate) fn line_region(tokens: &Tokens, comment: Comment, lines: usize) -> Region
    requires { lines ≡ begun tokens.now comment.start }
    ensures { result ≡ line_region tokens.now comment }
{
    let (before, behind) = tokens.lines().split_at(lines);
    match before.last() {
        Some(line) => region_from(tokens, *line, behind),
        None => Region {
            first: comment.pos.line,
            last: comment.pos.line,
        },
    }
}
