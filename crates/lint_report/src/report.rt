// The lines of the messages.
ghost use Rattle.std.specs.Prelude.{◌≡◌, ◌++◌, IfOk, OnOk, slice_get};
ghost use Rattle.std.specs.Option.{option_copied};
ghost use Rattle.lint_report.specs.Report.{module_line, message_line, heading, line_of_message, report};

use file_list::Listed;
use lint_messages::{Message, message_text};
use lint_values::{FileId, Memory, Text, Texts};
use std::alloc::Global;

/// The lines of a report, with their newlines.
pub type ReportLines = Texts;

fn module_line(alloc: Global, name: &str) -> Result<Text, Memory>
    ensures { IfOk result (λ line. line ≡ module_line name.now) }
{
    Ok(Text::from_string(format!(in alloc; "************* Module {name}\n")?))
}

fn message_line(alloc: Global, path: &str, m: &Message) -> Result<Text, Memory>
    ensures { IfOk result (λ line. line ≡ message_line path.now m.now) }
{
    let text = message_text(alloc, m)?;
    let (text, line, col) = (text.as_str(), m.pos.line, m.pos.col);
    let (letters, symbol) = (m.code.letters(), m.code.symbol());
    Ok(Text::from_string(format!(in alloc; "{path}:{line}:{col}: {letters}: {text} ({symbol})\n")?))
}

// Adds the module line, where the file is another than the last.
fn push_heading(
    alloc: Global,
    last: Option<u32>,
    file: u32,
    listed: Option<&Listed>,
    lines: &mut Texts,
) -> Result<(), Memory>
    ensures { OnOk result (lines.new ≡ lines.old ++ heading last file (option_copied listed.entry)) }
{
    match listed {
        None => Ok(()),
        Some(listed) => {
            if last == Some(file) {
                return Ok(());
            }
            lines.push(module_line(alloc, listed.module_name.as_str())?)
        }
    }
}

// Adds the line of a message.
fn push_message(
    alloc: Global,
    listed: Option<&Listed>,
    m: &Message,
    lines: &mut Texts,
) -> Result<(), Memory>
    ensures { OnOk result (lines.new ≡ lines.old ++ line_of_message (option_copied listed.entry) m.now) }
{
    match listed {
        None => Ok(()),
        Some(listed) => lines.push(message_line(alloc, listed.path.as_str(), m)?),
    }
}

fn listed_at(reading: &[Listed], file: FileId) -> Option<&Listed>
    ensures { option_copied result ≡ slice_get reading.now file.0 }
{
    reading.get(file.0 as usize)
}

// The lines of these messages. A message of a file that the reading lacks has none.
pub(crate) fn report_lines(
    alloc: Global,
    reading: &[Listed],
    messages: &[Message],
) -> Result<ReportLines, Memory>
    ensures { IfOk result (λ lines. lines ≡ report reading.now messages.now) }
{
    let mut lines = Texts::new(alloc);
    let mut last = None;
    for m in messages {
        let listed = listed_at(reading, m.file);
        push_heading(alloc, last, m.file.0, listed, &mut lines)?;
        push_message(alloc, listed, m, &mut lines)?;
        last = Some(m.file.0);
    }
    Ok(lines)
}
