// What is told of a source that can't be read.
ghost use Rattle.std.specs.Prelude.{◌≡◌, IfOk};
ghost use Rattle.std.specs.Fmt.{decimal};
ghost use Rattle.lint_engine.specs.Shown.{reason_of, syntax_reason, syntax_error};

use crate::messages::{message_at, one_text};
use lint_base::{Code, FileId, Memory, Message, Pos, Text};
use parse_stmt::{LineCause, SyntaxCause};
use py_token::TokenCause;
use std::alloc::Global;

// Why a source can't be read as tokens.
pub(crate) fn reason_of(cause: TokenCause) -> &'static str
    ensures { result.now ≡ reason_of cause }
{
    match cause {
        TokenCause::NotUtf8 => "source is not UTF-8",
        TokenCause::NulByte => "source has a NUL byte",
        TokenCause::Coding => "another encoding is named",
        TokenCause::BadChar => "invalid character",
        TokenCause::OpenString => "string is not closed",
        TokenCause::OpenBracket => "bracket is not closed",
        TokenCause::CloseBracket => "unmatched closing bracket",
        TokenCause::Dedent => "indentation matches no outer level",
        TokenCause::TabMix => "inconsistent tabs and spaces",
        TokenCause::TooDeep => "too many levels",
        TokenCause::BadNumber => "invalid number",
        TokenCause::Continuation => "nothing may follow a backslash",
    }
}

// Why the tokens of a source spell no tree.
pub(crate) fn syntax_reason(cause: SyntaxCause) -> &'static str
    ensures { result.now ≡ syntax_reason cause }
{
    match cause {
        SyntaxCause::Line(LineCause::NoForm) => "invalid syntax",
        SyntaxCause::Line(LineCause::Field(_)) => "invalid f-string field",
        SyntaxCause::Follows => "clause without its opener",
        SyntaxCause::NeedsBlock => "expected an indented block",
        SyntaxCause::Unexpected => "unexpected indentation",
    }
}

fn number_text(alloc: Global, n: u32) -> Result<Text, Memory>
    ensures { IfOk result (λ text. text ≡ decimal n) }
{
    Ok(Text::from_string(format!(in alloc; "{n}")?))
}

// The message on a fault of a source, at its place.
pub(crate) fn syntax_error(
    alloc: Global,
    file: FileId,
    pos: Pos,
    reason: &str,
) -> Result<Message, Memory>
    ensures { IfOk result (λ m. m ≡ syntax_error file pos reason.now) }
{
    let mut args = one_text(alloc, reason)?;
    args.push(number_text(alloc, pos.line)?)?;
    Ok(message_at(file, pos, Code::SyntaxError, args))
}
