// What is known of the answers of a device of files. Each question is asked once, and its answer kept.
ghost use Rattle.std.specs.Prelude.{◌≡◌, ◌≤◌, ◌++◌, ℕ, List, [], Some, None, IfOk, OnOk};
ghost use Rattle.std.specs.Option.{ForSome};
ghost use Rattle.std.specs.FinMap as map;
ghost use Rattle.lint_outside.specs.Held.{kind_of};
ghost use Rattle.file_list.specs.Asked.{kept_look, kept_names, failed_paths, IsReply, Asks, KeepsLook, KeepsNames};

use lint_outside::{Files, FilesFault, Kind, Listing};
use lint_values::{Memory, Text, Texts};
use std::alloc::Global;
use std::collections::BTreeMap;

/// The most names that are listed of a folder.
pub const MAX_NAMES: u32 = 20_000;

/// What is known of the answers of a device of files: none of a question that failed.
#[derive(Debug, Drop)]
pub(crate) struct Known {
    looks: BTreeMap<Text, Option<Kind>>,
    listings: BTreeMap<Text, Option<Listing>>,
    failed: Vec<Text>,
}

// What is kept of an answer. Want of memory is none.
fn reply<T>(answer: Result<T, FilesFault>) -> Result<Option<T>, Memory>
    ensures { IfOk result (IsReply answer) }
{
    match answer {
        Ok(value) => Ok(Some(value)),
        Err(FilesFault::Failed) => Ok(None),
        Err(FilesFault::Memory) => Err(Memory),
    }
}

impl Known {
    /// Nothing is known.
    pub(crate) fn new(alloc: Global) -> Known
        ensures looks { (path : List ℕ) → kept_look result path ≡ None }
        ensures names { (path : List ℕ) → kept_names result path ≡ None }
        ensures failed { failed_paths result ≡ [] }
    {
        Known {
            looks: BTreeMap::new(alloc),
            listings: BTreeMap::new(alloc),
            failed: Vec::new(alloc),
        }
    }

    fn keep_look(&mut self, alloc: Global, path: &Text, found: Option<Kind>) -> Result<(), Memory>
        ensures { OnOk result (KeepsLook self.old self.new path.now found) }
    {
        if found.is_none() {
            self.failed.push(Text::from_str(alloc, path.as_str())?)?;
            self.looks
                .insert(Text::from_str(alloc, path.as_str())?, None)?;
            return Ok(());
        }
        self.looks
            .insert(Text::from_str(alloc, path.as_str())?, found)?;
        Ok(())
    }

    fn keep_names(
        &mut self,
        alloc: Global,
        path: &Text,
        found: Option<Listing>,
    ) -> Result<(), Memory>
        ensures { OnOk result (KeepsNames self.old self.new path.now found) }
    {
        if found.is_none() {
            self.failed.push(Text::from_str(alloc, path.as_str())?)?;
            self.listings
                .insert(Text::from_str(alloc, path.as_str())?, None)?;
            return Ok(());
        }
        self.listings
            .insert(Text::from_str(alloc, path.as_str())?, found)?;
        Ok(())
    }
}

// Looks at a path that was not looked at.
fn ask_look<F: Files>(
    known: &mut Known,
    alloc: Global,
    files: &mut F,
    path: &Text,
) -> Result<Option<Kind>, Memory>
    requires { kept_look known.old path.now ≡ None }
    ensures asks { IfOk result (Asks (F.held files.old) (F.faults files.old) (F.faults files.new) (F.failed files.old) (F.failed files.new) known.old known.new (λ answers. answers.look path.now)) }
    ensures held { F.held files.new ≡ F.held files.old }
    ensures later { F.faults files.old ≤ F.faults files.new }
{
    let answer = files.look(path);
    let found = reply(answer)?;
    known.keep_look(alloc, path, found)?;
    Ok(found)
}

/// What a look at a path answers.
pub(crate) fn look<F: Files>(
    known: &mut Known,
    alloc: Global,
    files: &mut F,
    path: &Text,
) -> Result<Option<Kind>, Memory>
    ensures asks { IfOk result (Asks (F.held files.old) (F.faults files.old) (F.faults files.new) (F.failed files.old) (F.failed files.new) known.old known.new (λ answers. answers.look path.now)) }
    ensures held { F.held files.new ≡ F.held files.old }
    ensures later { F.faults files.old ≤ F.faults files.new }
{
    if let Some(kept) = known.looks.get(path) {
        return Ok(*kept);
    }
    Ok(ask_look(known, alloc, files, path)?)
}

fn copied_texts(alloc: Global, texts: &[Text]) -> Result<Texts, Memory>
    ensures { IfOk result (λ copies. copies ≡ texts.now) }
{
    let mut copies = Vec::new(alloc);
    for text in texts {
        copies.push(Text::from_str(alloc, text.as_str())?)?;
    }
    Ok(Texts::from_vec(copies))
}

fn copied(alloc: Global, kept: &Option<Listing>) -> Result<Option<Listing>, Memory>
    ensures { IfOk result (λ copy. copy ≡ kept.now) }
{
    match kept {
        None => Ok(None),
        Some(Listing::TooMany) => Ok(Some(Listing::TooMany)),
        Some(Listing::Names(names)) => Ok(Some(Listing::Names(copied_texts(
            alloc,
            names.as_slice(),
        )?))),
    }
}

// Lists a folder that was not listed.
fn ask_names<F: Files>(
    known: &mut Known,
    alloc: Global,
    files: &mut F,
    folder: &Text,
) -> Result<Option<Listing>, Memory>
    requires absent { kept_names known.old folder.now ≡ None }
    requires folder { ForSome (F.held files.old) (λ tree. kind_of (map.get tree folder.now) ≡ Kind.Folder) }
    ensures asks { IfOk result (Asks (F.held files.old) (F.faults files.old) (F.faults files.new) (F.failed files.old) (F.failed files.new) known.old known.new (λ answers. answers.names folder.now)) }
    ensures held { F.held files.new ≡ F.held files.old }
    ensures later { F.faults files.old ≤ F.faults files.new }
{
    let answer = files.names(alloc, folder, MAX_NAMES);
    let found = reply(answer)?;
    let copy = copied(alloc, &found)?;
    known.keep_names(alloc, folder, found)?;
    Ok(copy)
}

/// What a listing of a folder answers.
pub(crate) fn names<F: Files>(
    known: &mut Known,
    alloc: Global,
    files: &mut F,
    folder: &Text,
) -> Result<Option<Listing>, Memory>
    requires { ForSome (F.held files.old) (λ tree. kind_of (map.get tree folder.now) ≡ Kind.Folder) }
    ensures asks { IfOk result (Asks (F.held files.old) (F.faults files.old) (F.faults files.new) (F.failed files.old) (F.failed files.new) known.old known.new (λ answers. answers.names folder.now)) }
    ensures held { F.held files.new ≡ F.held files.old }
    ensures later { F.faults files.old ≤ F.faults files.new }
{
    if let Some(kept) = known.listings.get(folder) {
        return Ok(copied(alloc, kept)?);
    }
    Ok(ask_names(known, alloc, files, folder)?)
}
