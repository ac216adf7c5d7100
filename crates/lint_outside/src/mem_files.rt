// Files in memory.
ghost use Rattle.std.specs.Prelude.{◌≡◌, [], OnOk, OnErr, IfOk, IsOk, Some};
ghost use Rattle.std.specs.Option.{option_copied};
ghost use Rattle.std.specs.Ordering.{nat_cmp};
ghost use Rattle.std.specs.Cmp.Lexicographic.{slice_cmp};
ghost use Rattle.std.specs.BTreeMap as tree;
ghost use Rattle.std.specs.FinMap as map;
ghost use Rattle.lint_outside.specs.Held.{HasAtMostBytes, HasAtMostNames};
ghost use Rattle.lint_outside.specs.MemFiles.{name_in, names_in, placed_kind, placed_content, placed_names};
ghost use Rattle.lint_outside.specs.declared.mem_files.Placed.TheVariants as placed;

use crate::{Content, Files, FilesFault, Kind, Listing};
use lint_values::{Bytes, Memory, Text, Texts};
use std::alloc::Global;
use std::collections::BTreeMap;
use std::marker::Model;

/// What was put at a path.
#[derive(Debug, Drop)]
pub enum Placed {
    File(Bytes),
    Folder,
}

/// Files in memory. Contracts see them as the finite map from each path to what was put there last.
///
/// A path is held only where it was put itself: to put a file below a folder puts no folder.
#[derive(Debug, Drop)]
pub struct MemFiles {
    placed: BTreeMap<Text, Placed>,
}

impl Model for MemFiles {
    ghost use Rattle.std.specs.Coded.{coded_list, coded_ℕ};
    ghost use Rattle.std.specs.FinMap as map;
    ghost use Rattle.lint_outside.specs.MemFiles.{PlacedMap};
    ghost use Rattle.lint_outside.specs.Placed.{placed_code};

    ghost Value = { PlacedMap };

    ghost coded = { map.code (coded_list coded_ℕ) placed_code };

    ghost view = { λ files. map.from_entries files.placed.entries };
}

impl MemFiles {
    /// Files that hold nothing.
    pub fn new(alloc: Global) -> MemFiles
        ensures { result ≡ map.empty }
    {
        MemFiles {
            placed: BTreeMap::new(alloc),
        }
    }

    /// Puts a file at a path, in place of what was there.
    pub fn put_file(&mut self, alloc: Global, path: &Text, bytes: &[u8]) -> Result<(), Memory>
        ensures ok { OnOk result (self.new ≡ map.insert self.old path.now (placed.File bytes.now)) }
        ensures err { OnErr result (self.new ≡ self.old) }
    {
        let path = Text::from_str(alloc, path.as_str())?;
        let bytes = Bytes::from_slice(alloc, bytes)?;
        self.put(path, Placed::File(bytes))
    }

    /// Puts a folder at a path, in place of what was there. Its names are the last parts of the held paths directly
    /// below it, whether they were put earlier or later.
    pub fn put_folder(&mut self, alloc: Global, path: &Text) -> Result<(), Memory>
        ensures ok { OnOk result (self.new ≡ map.insert self.old path.now placed.Folder) }
        ensures err { OnErr result (self.new ≡ self.old) }
    {
        let path = Text::from_str(alloc, path.as_str())?;
        self.put(path, Placed::Folder)
    }

    fn put(&mut self, path: Text, placed: Placed) -> Result<(), Memory>
        ensures ok { OnOk result (self.new ≡ map.insert self.old path placed) }
        ensures err { OnErr result (self.new ≡ self.old) }
    {
        self.placed.insert(path, placed)?;
        Ok(())
    }
}

fn kind_of(placed: Option<&Placed>) -> Kind
    ensures { result ≡ placed_kind (option_copied placed.entry) }
{
    match placed {
        Some(Placed::File(_)) => Kind::File,
        Some(Placed::Folder) => Kind::Folder,
        None => Kind::Missing,
    }
}

fn content_of(alloc: Global, placed: Option<&Placed>, most: u32) -> Result<Content, Memory>
    ensures content { IfOk result (λ content. content ≡ placed_content most (option_copied placed.entry)) }
    ensures most { IfOk result (HasAtMostBytes most) }
{
    match placed {
        Some(Placed::File(bytes)) => {
            let bytes = bytes.as_slice();
            if bytes.len() <= most as usize {
                Ok(Content::Whole(Bytes::from_slice(alloc, bytes)?))
            } else {
                Ok(Content::TooLarge)
            }
        }
        _ => Ok(Content::Whole(Bytes::new(alloc))),
    }
}

// The last part of a path that is directly below a folder.
fn name_in<'a>(folder: &str, path: &'a str) -> Option<&'a str>
    ensures { option_copied result ≡ name_in folder.now path.now }
{
    let Some(rest) = path.strip_prefix(folder) else {
        return None;
    };
    let Some(name) = rest.strip_prefix('/') else {
        return None;
    };
    if name.as_bytes().contains(&b'/') {
        None
    } else {
        Some(name)
    }
}

fn names_in(
    alloc: Global,
    held: &BTreeMap<Text, Placed>,
    folder: &str,
    most: u32,
) -> Result<Listing, Memory>
    ensures listing { IfOk result (λ listing. listing ≡ placed_names most (names_in folder.now (tree.keys held.now))) }
    ensures most { IfOk result (HasAtMostNames most) }
    ensures ordered { tree.IsOrdered (slice_cmp nat_cmp) held.now }
{
    let mut names = Vec::new(alloc);
    for path in held.keys() {
        if let Some(name) = name_in(folder, path.as_str()) {
            if names.len() >= most as usize {
                return Ok(Listing::TooMany);
            }
            names.push(Text::from_str(alloc, name)?)?;
        }
    }
    Ok(Listing::Names(Texts::from_vec(names)))
}

impl Files for MemFiles {
    ghost use Rattle.std.specs.Option.{ForSome};
    ghost use Rattle.lint_outside.specs.Causes.{HasCause, failed_after};
    ghost use Rattle.lint_outside.specs.Held.{kind_of};
    ghost use Rattle.lint_outside.specs.MemFiles.{tree_of};
    ghost use Rattle.lint_outside.specs.declared.outside.Question.TheVariants as question;

    ghost held = { λ files. Some (tree_of files) };

    ghost faults = { λ _. 0 };

    ghost failed = { λ _. [] };

    fn look(&mut self, path: &Text) -> Result<Kind, FilesFault>
        ensures held { Some (tree_of self.new) ≡ Some (tree_of self.old) }
        ensures cause { HasCause 0 0 result }
        ensures answer { ForSome (Some (tree_of self.old)) (λ tree. IfOk result (λ kind. kind ≡ kind_of (map.get tree path.now))) }
        ensures failed { ForSome (Some (tree_of self.old)) (λ tree. [] ≡ failed_after [] (question.Look path.now) result) }

        // It takes no memory.
        ensures always { IsOk result }
    {
        Ok(kind_of(self.placed.get(path)))
    }

    fn names(&mut self, alloc: Global, path: &Text, most: u32) -> Result<Listing, FilesFault> {
        let listing = names_in(alloc, &self.placed, path.as_str(), most)?;
        Ok(listing)
    }

    fn read(&mut self, alloc: Global, path: &Text, most: u32) -> Result<Content, FilesFault> {
        let content = content_of(alloc, self.placed.get(path), most)?;
        Ok(content)
    }
}
