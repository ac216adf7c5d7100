// The text of a comment, and the action of what stands behind a `#` in it.
ghost use Rattle.std.specs.Prelude.{◌≡◌, codes, option_copied, length};
ghost use Rattle.std.specs.List.{before_first, prefix_len};
ghost use Rattle.pragma_scope.specs.Actions.{action_in, action_text, behind, comment_text, is_blank, is_boundary, is_continuation, is_part, is_semicolon, without_blanks};

use py_source::{Span, slice};
use py_token::Comment;

fn is_continuation(b: u8) -> bool
    ensures { result ≡ is_continuation b }
{
    128 <= b && b <= 191
}

fn is_boundary(text: &[u8], i: usize) -> bool
    ensures { result ≡ is_boundary text.now i }
{
    i == text.len() || (i < text.len() && !is_continuation(text[i]))
}

fn is_part(text: &[u8], span: Span) -> bool
    ensures { result ≡ is_part text.now span }
{
    span.start <= span.end
        && is_boundary(text, span.start as usize)
        && is_boundary(text, span.end as usize)
}

/// What stands between a comment's places.
#[tactic(auto, using(crate::proofs::CommentLaws::is_part_of))]
pub(crate) fn comment_text(text: &str, comment: Comment) -> &str
    ensures { result.now ≡ comment_text text.now comment }
{
    let span = Span {
        start: comment.start,
        end: comment.end,
    };
    if is_part(text.as_bytes(), span) {
        slice(text, span)
    } else {
        ""
    }
}

pub(crate) fn is_blank(c: u8) -> bool
    ensures { result ≡ is_blank c }
{
    c == b' ' || c == b'\t'
}

fn first_blanks(text: &[u8]) -> usize
    ensures { result ≡ prefix_len is_blank text.now }
{
    text.iter().take_while(|c| is_blank(**c)).count()
}

fn without_blanks(text: &str) -> &str
    ensures { result.now ≡ without_blanks text.now }
{
    &text[first_blanks(text.as_bytes())..]
}

/// What stands behind a front, where the text begins with it.
#[tactic(auto, unfolding(crate::specs::Actions::behind), using(crate::proofs::CommentLaws::stripped))]
pub(crate) fn behind<'t>(text: &'t str, front: &str) -> Option<&'t str>
    ensures { option_copied result ≡ behind front.now text.now }
{
    text.strip_prefix(front)
}

fn before_semicolon(text: &str) -> &str
    ensures { result.now ≡ before_first is_semicolon text.now }
{
    match text.split_once(';') {
        Some((front, _)) => front,
        None => text,
    }
}

/// The action of what stands behind a `#`, where that is a pragma.
pub(crate) fn action_in(part: &str) -> Option<&str>
    ensures { option_copied result ≡ action_in part.now }
{
    match behind(without_blanks(part), "pylint:") {
        Some(rest) => Some(before_semicolon(without_blanks(rest))),
        None => None,
    }
}
