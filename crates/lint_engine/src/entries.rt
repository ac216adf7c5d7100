// What is shown of an entry.
ghost use Rattle.std.specs.Prelude.{◌≡◌, ◌<◌, ◌^◌, IfOk};
ghost use Rattle.lint_engine.specs.Shown.{shown_of, unread, IsEntryShown};
ghost use Rattle.file_list.specs.Entries.{HasShortSource};

use crate::messages::{alone, message_at, one_text};
use crate::shown::shown_of;
use crate::source::show_source;
use file_list::{Entry, Listed, Reading};
use lint_base::{Code, FileId, Memory, Pos};
use lint_report::Findings;
use options::Options;
use std::alloc::Global;

// What is shown of the one message of an entry that was not read, at the head of its file.
fn unread(
    alloc: Global,
    file: FileId,
    code: Code,
    arg: &str,
    options: &Options,
) -> Result<Findings, Memory>
    ensures shown { IfOk result (λ shown. shown ≡ shown_of options.now (unread file code arg.now)) }
    ensures few { IfOk result (λ shown. shown.statements < 2 ^ 32) }
{
    let args = one_text(alloc, arg)?;
    let head = Pos { line: 1, col: 0 };
    let found = alone(alloc, message_at(file, head, code, args))?;
    Ok(shown_of(options, found))
}

// What is shown of an entry.
pub(crate) fn show_entry(
    alloc: Global,
    file: FileId,
    reading: &Reading,
    listed: &Listed,
    options: &Options,
) -> Result<Findings, Memory>
    requires { HasShortSource listed.now.entry }
    ensures shown { IfOk result (λ shown. IsEntryShown options.now reading.now file listed.now.path listed.now.entry shown) }
    ensures few { IfOk result (λ shown. shown.statements < 2 ^ 32) }
{
    match &listed.entry {
        Entry::Source(bytes) => Ok(show_source(alloc, file, reading, bytes.as_slice(), options)?),
        Entry::Missing | Entry::NoPackage => {
            let path = listed.path.as_str();
            Ok(unread(alloc, file, Code::Fatal, path, options)?)
        }
        Entry::Failed => Ok(unread(alloc, file, Code::ParseError, "read failed", options)?),
        Entry::TooLarge => Ok(unread(alloc, file, Code::ParseError, "file too large", options)?),
        Entry::TooMany => Ok(unread(alloc, file, Code::ParseError, "too many files", options)?),
        Entry::TooDeep => Ok(unread(alloc, file, Code::ParseError, "folders too deep", options)?),
        Entry::TooMuch => Ok(unread(alloc, file, Code::ParseError, "sources too large", options)?),
    }
}
