// Reading the files that were found.
ghost use Rattle.std.specs.Prelude.{◌≡◌, ◌≤◌, IfOk, IfSome, None, ◌<◌, ◌-◌, ◌^◌, ◌+◌, ◌++◌, length, true};
ghost use Rattle.std.specs.Option.{ForSome};
ghost use Rattle.std.specs.List.{IsDistinct, AllByRecursion};
ghost use Rattle.std.specs.FinMap as map;
ghost use Rattle.std.specs.Str.{bytes_eq};
ghost use Rattle.lint_outside.specs.Causes.{Rose};
ghost use Rattle.lint_outside.specs.Held.{kind_of, HasAtMostBytes};
ghost use Rattle.file_list.specs.Answers.{most_entries};
ghost use Rattle.file_list.specs.Contents.{HasAnswered, ReadsNext, Reads, IsReadOf, IsFileAt, is_file_finding, paths_of};
ghost use Rattle.file_list.specs.Entries.{HasShortSource, most_bytes};
ghost use Rattle.file_list.specs.Gathered.{file_entry, settled, source_length, most_bytes_in_all};

use crate::{Entry, Finding, Found, Reading};
use lint_outside::{Content, Files, FilesFault, Kind};
use lint_values::{Memory, Text};
use std::alloc::Global;

/// The most bytes that are read of a file.
pub const MAX_FILE_BYTES: u32 = 4_194_304;

/// The most bytes of all sources together.
pub const MAX_BYTES_IN_ALL: usize = 67_108_864;

// What a read of a file answers: none where it fails.
fn ask_read<F: Files>(alloc: Global, files: &mut F, path: &Text) -> Result<Option<Content>, Memory>
    requires { ForSome (F.held files.old) (λ tree. kind_of (map.get tree path.now) ≡ Kind.File) }
    ensures read { ForSome (F.held files.old) (λ tree. IfOk result (IsReadOf tree (F.failed files.old) (F.failed files.new) path.now)) }
    ensures cause { IfOk result (λ answer. answer ≡ None → Rose (F.faults files.old) (F.faults files.new)) }
    ensures most { IfOk result (λ answer. IfSome answer (HasAtMostBytes most_bytes)) }
    ensures held { F.held files.new ≡ F.held files.old }
    ensures later { F.faults files.old ≤ F.faults files.new }
{
    match files.read(alloc, path, MAX_FILE_BYTES) {
        Ok(content) => Ok(Some(content)),
        Err(FilesFault::Failed) => Ok(None),
        Err(FilesFault::Memory) => Err(Memory),
    }
}

// What a read answers where a file was found, and none where nothing is read.
fn answer_of<F: Files>(
    alloc: Global,
    files: &mut F,
    found: &Found,
) -> Result<Option<Content>, Memory>
    requires { ForSome (F.held files.old) (λ tree. IsFileAt tree found.now) }
    ensures answered { IfOk result (HasAnswered (F.held files.old) (F.faults files.old) (F.faults files.new) (F.failed files.old) (F.failed files.new) found.now) }
    ensures held { F.held files.new ≡ F.held files.old }
    ensures later { F.faults files.old ≤ F.faults files.new }
{
    if is_file(found.finding) {
        return Ok(ask_read(alloc, files, &found.path)?);
    }
    Ok(None)
}

fn is_file(finding: Finding) -> bool
    ensures { result ≡ is_file_finding finding }
{
    match finding {
        Finding::File => true,
        Finding::Missing => false,
        Finding::NoPackage => false,
        Finding::Failed => false,
        Finding::TooMany => false,
        Finding::TooDeep => false,
    }
}

// What a file turns out to be, by the bytes so far and what its read answers.
fn file_entry(so_far: usize, answer: Option<Content>) -> Entry
    requires { so_far ≤ most_bytes_in_all }
    ensures { result ≡ file_entry so_far answer }
{
    match answer {
        None => Entry::Failed,
        Some(Content::TooLarge) => Entry::TooLarge,
        Some(Content::Whole(bytes)) => {
            if bytes.as_slice().len() <= MAX_BYTES_IN_ALL - so_far {
                return Entry::Source(bytes);
            }
            Entry::TooMuch
        }
    }
}

// The entry of a finding, where a file's is this one.
fn settled(read: Entry, finding: Finding) -> Entry
    ensures { result ≡ settled read finding }
{
    match finding {
        Finding::File => read,
        Finding::Missing => Entry::Missing,
        Finding::NoPackage => Entry::NoPackage,
        Finding::Failed => Entry::Failed,
        Finding::TooMany => Entry::TooMany,
        Finding::TooDeep => Entry::TooDeep,
    }
}

fn source_length(entry: &Entry) -> usize
    ensures { result ≡ source_length entry.now }
{
    match entry {
        Entry::Source(bytes) => bytes.as_slice().len(),
        Entry::Missing => 0,
        Entry::NoPackage => 0,
        Entry::Failed => 0,
        Entry::TooLarge => 0,
        Entry::TooMany => 0,
        Entry::TooDeep => 0,
        Entry::TooMuch => 0,
    }
}

// Adds the entry of a finding, and gives the bytes of all sources with it.
fn read_next<F: Files>(
    reading: &mut Reading,
    alloc: Global,
    files: &mut F,
    so_far: usize,
    found: &Found,
) -> Result<usize, Memory>
    requires file { ForSome (F.held files.old) (λ tree. IsFileAt tree found.now) }
    requires within { so_far ≤ most_bytes_in_all }
    requires room { length reading.old < 2 ^ 32 - 1 }
    ensures reads { IfOk result (ReadsNext (F.held files.old) (F.faults files.old) (F.faults files.new) (F.failed files.old) (F.failed files.new) so_far reading.old reading.new found.now) }
    ensures held { F.held files.new ≡ F.held files.old }
    ensures later { F.faults files.old ≤ F.faults files.new }
{
    let answer = answer_of(alloc, files, found)?;
    let entry = settled(file_entry(so_far, answer), found.finding);
    let sum = so_far + source_length(&entry);
    let path = Text::from_str(alloc, found.path.as_str())?;
    let module_name = Text::from_str(alloc, found.module_name.as_str())?;
    reading.add(path, module_name, found.is_package, entry)?;
    Ok(sum)
}

/// Reads the files that were found, in their order.
pub(crate) fn read_all<F: Files>(
    alloc: Global,
    files: &mut F,
    found: &[Found],
) -> Result<Reading, Memory>
    requires distinct { IsDistinct bytes_eq (paths_of found.now) }
    requires few { length found.now ≤ most_entries + 1 }
    requires files { ForSome (F.held files.old) (λ tree. AllByRecursion (IsFileAt tree) found.now) }
    ensures reads { IfOk result (Reads (F.held files.old) (F.faults files.old) (F.faults files.new) (F.failed files.old) (F.failed files.new) found.now) }
    ensures held { F.held files.new ≡ F.held files.old }
    ensures later { F.faults files.old ≤ F.faults files.new }
{
    let mut reading = Reading::new(alloc);
    let mut so_far = 0;
    for f in found {
        so_far = read_next(&mut reading, alloc, files, so_far, f)?;
    }
    Ok(reading)
}
