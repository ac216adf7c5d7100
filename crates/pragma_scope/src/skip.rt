// The action `skip-file`.
ghost use Rattle.std.specs.Prelude.{◌≡◌, codes};
ghost use Rattle.std.specs.List.{list_all, list_any};
ghost use Rattle.pragma_scope.specs.Actions.{action_in, behind, is_blank, is_end, is_skip, parts_at_hashes, skips_by, skips_in};
ghost use Rattle.pragma_scope.specs.Pragmas.{skips_file};

use crate::comment::{action_in, behind, comment_text, is_blank};
use py_token::{Comment, Tokens};

fn are_blanks(text: &[u8]) -> bool
    ensures { result ≡ list_all is_blank text.now }
{
    text.iter().all(|c| is_blank(*c))
}

fn is_skip(action: &str) -> bool
    ensures { result ≡ is_end (behind (codes "skip-file") action.now) }
{
    match behind(action, "skip-file") {
        Some(rest) => are_blanks(rest.as_bytes()),
        None => false,
    }
}

fn skips_in(part: &str) -> bool
    ensures { result ≡ skips_in part.now }
{
    match action_in(part) {
        Some(action) => is_skip(action),
        None => false,
    }
}

fn any_skips(text: &str) -> bool
    ensures { result ≡ list_any skips_in (parts_at_hashes text.now) }
{
    text.split('#').any(|part| skips_in(part))
}

fn skips_by(text: &str, comment: Comment) -> bool
    ensures { result ≡ skips_by text.now comment }
{
    any_skips(comment_text(text, comment))
}

/// Whether a comment holds the action `skip-file`.
pub fn skip_file(tokens: &Tokens) -> bool
    ensures { result ≡ skips_file tokens.now }
{
    let text = tokens.source();
    tokens
        .comments()
        .iter()
        .any(|comment| skips_by(text, *comment))
}
