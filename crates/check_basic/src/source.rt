// The checks of all lines of a source.
ghost use Rattle.std.specs.Prelude.{◌≡◌, ◌<◌, ◌≤◌, ◌^◌, ◌++◌, length, IfOk, OnOk};
ghost use Rattle.check_basic.specs.Lines.{lines_of};
ghost use Rattle.check_basic.specs.LineRules.{numbered_messages, too_many_lines, missing_final_newline, source_messages};

use crate::lines::{ends_line, source_of, split_line};
use crate::rules::{check_count, check_line, plain_message};
use lint_messages::{Code, Messages};
use lint_values::{FileId, Memory};
use options::Options;
use std::alloc::Global;

// Adds the messages of each line, and gives the number of the last.
fn check_each(
    alloc: Global,
    most: u32,
    file: FileId,
    text: &[u8],
    found: &mut Messages,
) -> Result<u32, Memory>
    requires { length text.now < 2 ^ 32 }
    ensures found { OnOk result (found.new ≡ found.old ++ numbered_messages most file 1 (lines_of text.now)) }
    ensures last { IfOk result (λ last. last ≡ length (lines_of text.now)) }
{
    let mut number = 0u32;
    let mut rest = text;
    while !rest.is_empty() {
        let (line, after) = split_line(rest);
        number += 1;
        check_line(alloc, most, file, number, line, found)?;
        rest = after;
    }
    Ok(number)
}

// Adds the message that the last line has no end.
fn check_final_newline(
    alloc: Global,
    file: FileId,
    text: &[u8],
    last: u32,
    found: &mut Messages,
) -> Result<(), Memory>
    requires { last ≡ length (lines_of text.now) }
    ensures { OnOk result (found.new ≡ found.old ++ missing_final_newline file text.now) }
{
    if text.is_empty() || ends_line(text) {
        return Ok(());
    }
    found.push(plain_message(alloc, file, last, 0, Code::MissingFinalNewline))
}

/// The messages of a source's lines, in their order. A byte order mark at the start counts in no column.
pub fn check_lines(
    alloc: Global,
    file: FileId,
    source: &[u8],
    options: &Options,
) -> Result<Messages, Memory>
    requires { length source.now < 2 ^ 32 }
    ensures { IfOk result (λ messages. messages ≡ source_messages options.now file source.now) }
{
    let text = source_of(source);
    let mut found = Messages::new(alloc);
    let last = check_each(alloc, options.max_line_length, file, text, &mut found)?;
    check_count(alloc, options.max_module_lines, file, last, &mut found)?;
    check_final_newline(alloc, file, text, last, &mut found)?;
    Ok(found.into_order(alloc)?)
}
