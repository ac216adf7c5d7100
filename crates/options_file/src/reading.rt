// Reading the options file.
ghost use Rattle.std.specs.Prelude.{◌≡◌, ◌≤◌, IfOk};
ghost use Rattle.std.specs.Option.{ForSome};
ghost use Rattle.std.specs.FinMap as map;
ghost use Rattle.lint_outside.specs.Causes.{RoseBy};
ghost use Rattle.lint_outside.specs.Held.{kind_of};
ghost use Rattle.options_file.specs.Reading.{IsOptionsReadOf, count_failed, options_path};

use file_list::MAX_FILE_BYTES;
use lint_outside::{Content, Files, FilesFault, Kind};
use lint_report::OptionsRead;
use lint_values::{Memory, Text};
use options::Line;
use std::alloc::Global;

// The path of the options file: the one that is named, else `pyproject.toml`.
pub(crate) fn options_path(alloc: Global, line: &Line) -> Result<Text, Memory>
    ensures { IfOk result (λ path. path ≡ options_path line.now.rcfile) }
{
    match &line.rcfile {
        Some(path) => Text::from_str(alloc, path.as_str()),
        None => Text::from_str(alloc, "pyproject.toml"),
    }
}

// Reads the file at a path.
fn read_file<F: Files>(alloc: Global, files: &mut F, path: &Text) -> Result<OptionsRead, Memory>
    requires { ForSome (F.held files.old) (λ tree. kind_of (map.get tree path.now) ≡ Kind.File) }
    ensures read { ForSome (F.held files.old) (λ tree. IfOk result (IsOptionsReadOf tree (F.failed files.old) (F.failed files.new) (F.faults files.old) (F.faults files.new) path.now)) }
    ensures failed { IfOk result (λ read. RoseBy (count_failed read) (F.faults files.old) (F.faults files.new)) }
    ensures looked { IfOk result (λ read. read ≡ OptionsRead.NotLooked → ⊥) }
    ensures held { F.held files.new ≡ F.held files.old }
    ensures later { F.faults files.old ≤ F.faults files.new }
{
    match files.read(alloc, path, MAX_FILE_BYTES) {
        Ok(Content::Whole(bytes)) => Ok(OptionsRead::Source(bytes)),
        Ok(Content::TooLarge) => Ok(OptionsRead::TooLarge),
        Err(FilesFault::Failed) => Ok(OptionsRead::Failed),
        Err(FilesFault::Memory) => Err(Memory),
    }
}

// Looks at a path, and reads the file if there is one.
fn read_path<F: Files>(alloc: Global, files: &mut F, path: &Text) -> Result<OptionsRead, Memory>
    ensures read { ForSome (F.held files.old) (λ tree. IfOk result (IsOptionsReadOf tree (F.failed files.old) (F.failed files.new) (F.faults files.old) (F.faults files.new) path.now)) }
    ensures failed { IfOk result (λ read. RoseBy (count_failed read) (F.faults files.old) (F.faults files.new)) }
    ensures looked { IfOk result (λ read. read ≡ OptionsRead.NotLooked → ⊥) }
    ensures held { F.held files.new ≡ F.held files.old }
    ensures later { F.faults files.old ≤ F.faults files.new }
{
    match files.look(path) {
        Ok(Kind::Missing) => Ok(OptionsRead::Absent),
        Ok(Kind::Folder) => Ok(OptionsRead::Absent),
        Ok(Kind::File) => Ok(read_file(alloc, files, path)?),
        Err(FilesFault::Failed) => Ok(OptionsRead::Failed),
        Err(FilesFault::Memory) => Err(Memory),
    }
}

/// Reads the options file of a line: the one that it names, else `pyproject.toml`. It has no fault of its own: what
/// can't be looked at or read is told.
pub fn read_options<F: Files>(
    alloc: Global,
    files: &mut F,
    line: &Line,
) -> Result<OptionsRead, Memory>
    // What is read is what the files hold, but for the questions that failed meanwhile.
    ensures read { ForSome (F.held files.old) (λ tree. IfOk result (IsOptionsReadOf tree (F.failed files.old) (F.failed files.new) (F.faults files.old) (F.faults files.new) (options_path line.now.rcfile))) }
    ensures failed { IfOk result (λ read. RoseBy (count_failed read) (F.faults files.old) (F.faults files.new)) }
    ensures looked { IfOk result (λ read. read ≡ OptionsRead.NotLooked → ⊥) }
    ensures held { F.held files.new ≡ F.held files.old }
    ensures later { F.faults files.old ≤ F.faults files.new }
{
    let path = options_path(alloc, line)?;
    Ok(read_path(alloc, files, &path)?)
}
