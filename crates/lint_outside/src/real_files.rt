// The files of the system.
ghost use Rattle.std.specs.Prelude.{◌≡◌, None, Ok, [], IfOk};
ghost use Rattle.std.specs.Option.{ForSome};
ghost use Rattle.std.specs.FinMap as map;
ghost use Rattle.lint_outside.specs.Causes.{HasCause, failed_after};
ghost use Rattle.lint_outside.specs.FileTree.{FileTree};
ghost use Rattle.lint_outside.specs.Counts.{count_after};
ghost use Rattle.lint_outside.specs.Held.{kind_of, content_of, listing_of, HasAtMostBytes, HasAtMostNames};
ghost use Rattle.lint_outside.specs.declared.outside.Question.TheVariants as question;

use crate::{Content, Files, FilesFault, Kind, Listing};
use lint_values::{Bytes, Text, Texts};
use std::alloc::Global;
use std::io::{ErrorKind, Read};
use std::{fs, io, rt};

/// The files of the system. They count their faults, and tell nothing of what they hold.
///
/// A path is missing where nothing stands at it, also where a part before its last one is a file.
#[derive(Drop)]
pub struct RealFiles<'r, R> {
    rt: &'r R,
    faults: u64,
}

impl<'r, R: rt::Files + AllocGlobal> RealFiles<'r, R> {
    ghost use Rattle.lint_outside.specs.RealFiles.{real_faults};

    /// The files that a runtime reaches, with no fault counted.
    pub fn new(rt: &'r R) -> RealFiles<'r, R>
        ensures { real_faults result ≡ 0 }
    {
        RealFiles { rt, faults: 0 }
    }

    // Hands an answer on, and counts an error. Want of memory is none of the device's faults.
    fn counted<T>(&mut self, answer: io::Result<T>) -> Result<T, FilesFault>
        ensures value { IfOk result (λ value. answer ≡ Ok value) }
        ensures cause { HasCause (real_faults self.old) (real_faults self.new) result }
        ensures exact { real_faults self.new ≡ count_after (real_faults self.old) result }
    {
        match answer {
            Ok(value) => Ok(value),
            Err(error) if error.kind() == ErrorKind::OutOfMemory => Err(FilesFault::Memory),
            Err(_) => {
                self.faults = self.faults.saturating_add(1);
                Err(FilesFault::Failed)
            }
        }
    }
}

fn kind_at<R: rt::Files>(rt: &R, path: &str) -> io::Result<Kind> {
    match fs::metadata(rt, path) {
        Ok(found) if found.is_dir() => Ok(Kind::Folder),
        Ok(found) if found.is_file() => Ok(Kind::File),
        Ok(_) => Ok(Kind::Missing),
        Err(error) => match error.kind() {
            ErrorKind::NotFound | ErrorKind::NotADirectory => Ok(Kind::Missing),
            _ => Err(error),
        },
    }
}

// The names in a folder. One that is not UTF-8 is an error.
fn names_in<R: rt::Files + AllocGlobal>(
    rt: &R,
    alloc: Global,
    path: &str,
    most: u32,
) -> io::Result<Listing>
    ensures { IfOk result (HasAtMostNames most) }
{
    let mut names = Vec::new(alloc);
    for entry in fs::read_dir(&rt, path)? {
        let entry = entry?;
        if names.len() >= most as usize {
            return Ok(Listing::TooMany);
        }
        names.push(Text::from_string(String::from_str(alloc, entry.file_name())?))?;
    }
    Ok(Listing::Names(Texts::from_vec(names)))
}

// A file's bytes, of which it reads one more than `most` at most. Reads that a signal interrupts are tried again.
fn content_at<R: rt::Files>(rt: &R, alloc: Global, path: &str, most: u32) -> io::Result<Content>
    ensures { IfOk result (HasAtMostBytes most) }
{
    let mut bytes = Vec::new(alloc);
    fs::open(rt, path)?
        .take(u64::from(most) + 1)
        .read_to_end(&mut bytes)?;
    if bytes.len() > most as usize {
        return Ok(Content::TooLarge);
    }
    Ok(Content::Whole(Bytes::from_vec(bytes)))
}

impl<'r, R: rt::Files + AllocGlobal> Files for RealFiles<'r, R> {
    ghost use Rattle.lint_outside.specs.RealFiles.{real_faults};

    ghost held = { λ _. None };

    ghost faults = { λ files. real_faults files };

    ghost failed = { λ _. [] };

    // The count rises by one at a fault, and at nothing else; so in the three calls.
    fn look(&mut self, path: &Text) -> Result<Kind, FilesFault>
        ensures cause { HasCause (real_faults self.old) (real_faults self.new) result }
        ensures exact { real_faults self.new ≡ count_after (real_faults self.old) result }
        ensures answer { ForSome None (λ (tree : FileTree). IfOk result (λ kind. kind ≡ kind_of (map.get tree path.now))) }
        ensures failed { ForSome None (λ (tree : FileTree). [] ≡ failed_after [] (question.Look path.now) result) }
    {
        let kind = kind_at(self.rt, path.as_str());
        self.counted(kind)
    }

    fn names(&mut self, alloc: Global, path: &Text, most: u32) -> Result<Listing, FilesFault>
        ensures cause { HasCause (real_faults self.old) (real_faults self.new) result }
        ensures exact { real_faults self.new ≡ count_after (real_faults self.old) result }
        ensures answer { ForSome None (λ (tree : FileTree). IfOk result (λ listing. listing ≡ listing_of most (map.get tree path.now))) }
        ensures failed { ForSome None (λ (tree : FileTree). [] ≡ failed_after [] (question.Names path.now) result) }
        ensures most { IfOk result (HasAtMostNames most) }
    {
        let listing = names_in(self.rt, alloc, path.as_str(), most);
        self.counted(listing)
    }

    fn read(&mut self, alloc: Global, path: &Text, most: u32) -> Result<Content, FilesFault>
        ensures cause { HasCause (real_faults self.old) (real_faults self.new) result }
        ensures exact { real_faults self.new ≡ count_after (real_faults self.old) result }
        ensures answer { ForSome None (λ (tree : FileTree). IfOk result (λ content. content ≡ content_of most (map.get tree path.now))) }
        ensures failed { ForSome None (λ (tree : FileTree). [] ≡ failed_after [] (question.Read path.now) result) }
        ensures most { IfOk result (HasAtMostBytes most) }
    {
        let content = content_at(self.rt, alloc, path.as_str(), most);
        self.counted(content)
    }
}
