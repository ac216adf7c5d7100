// The lines on which an action acts.
ghost use Rattle.std.specs.Prelude.{◌≡◌, if◌then◌else◌, Some};
ghost use Rattle.pragma_scope.specs.Cursors.{IsAt};
ghost use Rattle.pragma_scope.specs.Regions.{begins_by, block_region, comment_region, holds, is_before, is_on_top, next_line, region_in, region_of, token_behind};

use crate::action::Verb;
use crate::block::Block;
use crate::cursor::Cursor;
use crate::logical::{line_region, token_at};
use crate::nesting::Nesting;
use lint_values::Pos;
use py_token::{Comment, Token, Tokens};

/// Lines from the first to the last.
#[derive(Clone, Copy)]
pub(crate) struct Region {
    pub(crate) first: u32,
    pub(crate) last: u32,
}

pub(crate) fn is_before(a: Pos, b: Pos) -> bool
    ensures { result ≡ is_before a b }
{
    a.line < b.line || (a.line == b.line && a.col < b.col)
}

pub(crate) fn begins_by(token: Option<Token>, block: Block) -> bool
    ensures { result ≡ begins_by token block }
{
    match token {
        None => true,
        Some(token) => !is_before(token.pos, block.start),
    }
}

// Whether a block holds a comment, behind which this token is the first.
fn holds(token: Option<Token>, comment: Comment, block: Block) -> bool
    ensures { result ≡ holds token comment block }
{
    begins_by(token, block) && comment.pos.line <= block.last
}

pub(crate) fn innermost_behind(
    found: Option<Block>,
    token: Option<Token>,
    comment: Comment,
    block: Block,
) -> Option<Block>
    ensures { result ≡ (if holds token comment block then Some block else found) }
{
    if holds(token, comment, block) {
        Some(block)
    } else {
        found
    }
}

fn is_on_top(comment: Comment, begin: Option<Pos>) -> bool
    ensures { result ≡ is_on_top comment begin }
{
    match begin {
        None => true,
        Some(begin) => is_before(comment.pos, begin),
    }
}

fn region_in(comment: Comment, block: Option<Block>) -> Region
    ensures { result ≡ region_in comment block }
{
    match block {
        None => Region {
            first: comment.pos.line,
            last: u32::MAX,
        },
        Some(block) if is_on_top(comment, block.statements) => Region {
            first: block.header,
            last: block.last,
        },
        Some(block) => Region {
            first: comment.pos.line,
            last: block.last,
        },
    }
}

fn block_region(tokens: &Tokens, blocks: &Nesting, comment: Comment, cursor: Cursor) -> Region
    requires { IsAt tokens.now comment.start cursor }
    ensures { result ≡ block_region tokens.now blocks.now comment }
{
    let token = token_at(tokens, cursor.tokens);
    region_in(comment, blocks.innermost(token, comment))
}

fn next_line(comment: Comment) -> Region
    ensures { result ≡ next_line comment }
{
    let line = comment.pos.line.saturating_add(1);
    Region {
        first: line,
        last: line,
    }
}

fn comment_region(tokens: &Tokens, blocks: &Nesting, comment: Comment, cursor: Cursor) -> Region
    requires { IsAt tokens.now comment.start cursor }
    ensures { result ≡ comment_region tokens.now blocks.now comment }
{
    if comment.alone {
        block_region(tokens, blocks, comment, cursor)
    } else {
        line_region(tokens, comment, cursor.lines)
    }
}

/// The lines on which an action of a comment acts, by the cursor at the comment.
pub(crate) fn region_of(
    tokens: &Tokens,
    blocks: &Nesting,
    comment: Comment,
    verb: Verb,
    cursor: Cursor,
) -> Region
    requires { IsAt tokens.now comment.start cursor }
    ensures { result ≡ region_of tokens.now blocks.now comment verb }
{
    match verb {
        Verb::Disable | Verb::Enable => comment_region(tokens, blocks, comment, cursor),
        Verb::DisableNext => next_line(comment),
    }
}
