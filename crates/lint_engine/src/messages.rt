// One message, and its parts.
ghost use Rattle.std.specs.Prelude.{◌≡◌, [], ◌∷◌, IfOk};
ghost use Rattle.check_basic.specs.LineRules.{message};
ghost use Rattle.lint_engine.specs.Shown.{alone, nothing};

use lint_base::{Code, FileId, Memory, Message, Messages, Pos, Text, Texts};
use lint_report::Findings;
use std::alloc::Global;

// A message at a place, with its arguments.
pub(crate) fn message_at(file: FileId, pos: Pos, code: Code, args: Texts) -> Message
    ensures { result ≡ message file pos.line pos.col code args }
{
    Message {
        file,
        node: None,
        pos,
        code,
        args,
    }
}

pub(crate) fn one_text(alloc: Global, text: &str) -> Result<Texts, Memory>
    ensures { IfOk result (λ texts. texts ≡ text.now ∷ []) }
{
    let mut texts = Texts::new(alloc);
    texts.push(Text::from_str(alloc, text)?)?;
    Ok(texts)
}

pub(crate) fn one_message(alloc: Global, message: Message) -> Result<Messages, Memory>
    ensures { IfOk result (λ messages. messages ≡ message ∷ []) }
{
    let mut messages = Messages::new(alloc);
    messages.push(message)?;
    Ok(messages)
}

// No message and no statements.
pub(crate) fn nothing(alloc: Global) -> Findings
    ensures { result ≡ nothing }
{
    Findings {
        messages: Messages::new(alloc),
        statements: 0,
    }
}

// One message alone, and no statements.
pub(crate) fn alone(alloc: Global, message: Message) -> Result<Findings, Memory>
    ensures { IfOk result (λ found. found ≡ alone message) }
{
    Ok(Findings {
        messages: one_message(alloc, message)?,
        statements: 0,
    })
}
