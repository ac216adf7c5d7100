// What may be wrong with a source.
ghost use Rattle.std.specs.Prelude.{◌≡◌};
ghost use Rattle.py_token.specs.FirstFault.{lexical_cause, line_cause, source_cause, text_cause};

use lint_values::Pos;
use py_layout::{IndentationCause, ItemCause, LayoutCause};
use py_lexeme::{Cause, Stop};
use py_source::SourceCause;

#[derive(Clone, Copy, Debug, PartialEq, Eq)]
pub enum TokenCause {
    NotUtf8,
    NulByte,
    Coding,
    BadChar,
    OpenString,
    OpenBracket,
    CloseBracket,
    Dedent,
    TabMix,
    TooDeep,
    BadNumber,
    Continuation,
}

/// The first fault of a source, with its place behind the byte order mark.
#[derive(Debug, Drop)]
pub enum TokenFault {
    At(Pos, TokenCause),
    Memory,
}

pub(crate) fn source_cause(cause: SourceCause) -> TokenCause
    ensures { result ≡ source_cause cause }
{
    match cause {
        SourceCause::NotUtf8 => TokenCause::NotUtf8,
        SourceCause::NulByte => TokenCause::NulByte,
        SourceCause::Coding => TokenCause::Coding,
    }
}

fn lexical_cause(cause: Cause) -> TokenCause
    ensures { result ≡ lexical_cause cause }
{
    match cause {
        Cause::BadChar => TokenCause::BadChar,
        Cause::OpenString => TokenCause::OpenString,
        Cause::BadNumber => TokenCause::BadNumber,
        Cause::Continuation => TokenCause::Continuation,
    }
}

fn line_cause(cause: IndentationCause) -> TokenCause
    ensures { result ≡ line_cause cause }
{
    match cause {
        IndentationCause::Dedent => TokenCause::Dedent,
        IndentationCause::TabMix => TokenCause::TabMix,
        IndentationCause::TooDeep => TokenCause::TooDeep,
    }
}

/// The cause of a fault of the layout, where a stop is that of the cut.
pub(crate) fn text_cause(stop: Option<Stop>, cause: LayoutCause) -> TokenCause
    ensures { result ≡ text_cause stop cause }
{
    match cause {
        LayoutCause::AtLine(cause) => line_cause(cause),
        LayoutCause::AtItem(ItemCause::CloseBracket) => TokenCause::CloseBracket,
        LayoutCause::AtItem(ItemCause::TooDeep) => TokenCause::TooDeep,
        LayoutCause::AtItem(ItemCause::Stopped) => match stop {
            None => TokenCause::BadChar,
            Some(stop) => lexical_cause(stop.cause),
        },
        LayoutCause::OpenBracket => TokenCause::OpenBracket,
    }
}
