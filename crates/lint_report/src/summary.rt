// The line of a made text.
ghost use Rattle.std.specs.Prelude.{◌≡◌, IfOk};
ghost use Rattle.lint_report.specs.Summary.{summary};

use crate::Findings;
use lint_values::{Memory, Text};
use std::alloc::Global;

/// The one line that counts what is shown of a made text, with its newline.
pub fn summary_text(alloc: Global, found: &Findings, status: u8) -> Result<Text, Memory>
    ensures { IfOk result (λ text. text ≡ summary found.now status) }
{
    let statements = found.statements;
    let messages = found.messages.as_slice().len();
    Ok(Text::from_string(format!(in alloc;
        "files 1, statements {statements}, messages {messages}, status {status}\n"
    )?))
}
