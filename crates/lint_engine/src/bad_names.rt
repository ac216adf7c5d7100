// The messages on names in pragmas that no message can have.
ghost use Rattle.std.specs.Prelude.{◌≡◌, IfOk};
ghost use Rattle.lint_engine.specs.Shown.{bad_name_message, bad_name_messages};

use crate::messages::{message_at, one_text};
use lint_base::{Code, FileId, Memory, Message, Messages, Pos, Text};
use pragma_scope::BadName;
use std::alloc::Global;

// The message on one such name, at the head of its line.
fn bad_name_message(alloc: Global, file: FileId, bad: &BadName) -> Result<Message, Memory>
    ensures { IfOk result (λ m. m ≡ bad_name_message file bad.now) }
{
    let mut args = one_text(alloc, bad.action.as_str())?;
    args.push(Text::from_str(alloc, bad.word.as_str())?)?;
    let head = Pos {
        line: bad.line,
        col: 0,
    };
    Ok(message_at(file, head, Code::UnknownOptionValue, args))
}

// The messages on these names, in their order.
pub(crate) fn bad_name_messages(
    alloc: Global,
    file: FileId,
    names: &[BadName],
) -> Result<Messages, Memory>
    ensures { IfOk result (λ messages. messages ≡ bad_name_messages file names.now) }
{
    let mut messages = Messages::new(alloc);
    for bad in names {
        messages.push(bad_name_message(alloc, file, bad)?)?;
    }
    Ok(messages)
}
