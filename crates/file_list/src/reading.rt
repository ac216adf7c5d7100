// What was read, one entry after another.
ghost use Rattle.std.specs.Prelude.{◌≡◌, ◌<◌, ◌^◌, ◌++◌, [], ◌∷◌, length, OnOk, OnErr, ◌-◌, IfSome, slice_get, None, Some, if◌then◌else◌};
ghost use Rattle.std.specs.BTreeMap as tree;
ghost use Rattle.std.specs.Option.{is_some};
ghost use Rattle.std.specs.List.{AllByRecursion};
ghost use Rattle.file_list.specs.Entries.{HasShortSource};
ghost use Rattle.file_list.specs.Modules.{file_at, file_of_module};

use crate::{Entry, Listed};
use lint_values::{FileId, Memory, Text};
use std::alloc::Global;
use std::collections::BTreeMap;
use std::marker::Model;

/// What was read, seen as the list of its entries. A file's number is its place in the list, from 0.
#[derive(Debug, Drop)]
pub struct Reading {
    entries: Vec<Listed>,
    // For each module name its one file, and none where more than one bears it.
    modules: BTreeMap<String, Option<FileId>>,
}

impl Model for Reading {
    ghost use Rattle.std.specs.Prelude.{List, length, ◌<◌, ◌^◌};
    ghost use Rattle.std.specs.List.{AllByRecursion};
    ghost use Rattle.file_list.specs.declared.entry.Listed.{Listed};
    ghost use Rattle.std.specs.BTreeMap as tree;
    ghost use Rattle.file_list.specs.Entries.{HasShortSource};
    ghost use Rattle.file_list.specs.Modules.{HasIndex};

    ghost Value = { List Listed };

    ghost view = { λ r. r.entries.items };

    ghost invariant = { λ r. (length r.entries.items < 2 ^ 32) × AllByRecursion (λ listed. HasShortSource listed.entry) r.entries.items × HasIndex (tree.get_by_text r.modules) r.entries.items };
}

impl Reading {
    pub fn new(alloc: Global) -> Reading
        ensures { result ≡ [] }
    {
        Reading {
            entries: Vec::new(alloc),
            modules: BTreeMap::new(alloc),
        }
    }

    /// Adds one entry behind the others.
    pub fn add(
        &mut self,
        path: Text,
        module_name: Text,
        is_package: bool,
        entry: Entry,
    ) -> Result<(), Memory>
        requires room { length self.old < 2 ^ 32 - 1 }
        requires short { HasShortSource entry }
        ensures ok { OnOk result (self.new ≡ self.old ++ record { path = path; module_name = module_name; is_package = is_package; entry = entry } ∷ []) }
        ensures err { OnErr result (self.new ≡ self.old) }
    {
        let name = module_name.into_string();
        let key = name.clone()?;
        let file = next_file(&self.modules, key.as_str(), self.entries.len());
        self.entries.push(Listed {
            path,
            module_name: Text::from_string(name),
            is_package,
            entry,
        })?;
        match self.modules.insert(key, file) {
            Ok(_) => return Ok(()),
            Err(_) => {
                self.entries.pop();
                return Err(Memory);
            }
        }
    }

    /// How many entries there are.
    pub fn count(&self) -> u32
        ensures { result ≡ length self.now }
    {
        self.entries.len() as u32
    }

    /// The entries, in order.
    pub fn entries(&self) -> &[Listed]
        ensures entries { result.now ≡ self.now }
        ensures few { length self.now < 2 ^ 32 }
        ensures short { AllByRecursion (λ listed. HasShortSource listed.entry) self.now }
    {
        self.entries.as_slice()
    }

    /// The path as it is reported.
    pub fn path(&self, f: FileId) -> &Text
        requires { f.0 < length self.now }
        ensures { IfSome (slice_get self.now f.0) (λ listed. result.now ≡ listed.path) }
    {
        &self.entries[f.0 as usize].path
    }

    pub fn entry(&self, f: FileId) -> &Entry
        requires { f.0 < length self.now }
        ensures { IfSome (slice_get self.now f.0) (λ listed. result.now ≡ listed.entry) }
    {
        &self.entries[f.0 as usize].entry
    }

    /// The dotted module name, or the path where no file was found.
    pub fn module_(&self, f: FileId) -> &Text
        requires { f.0 < length self.now }
        ensures { IfSome (slice_get self.now f.0) (λ listed. result.now ≡ listed.module_name) }
    {
        &self.entries[f.0 as usize].module_name
    }

    /// Whether the file is a package's `__init__.py`.
    pub fn package_(&self, f: FileId) -> bool
        requires { f.0 < length self.now }
        ensures { IfSome (slice_get self.now f.0) (λ listed. result ≡ listed.is_package) }
    {
        self.entries[f.0 as usize].is_package
    }

    /// The one file with this module name, and none where no file or more than one bears it.
    pub fn find(&self, dotted: &str) -> Option<FileId>
        ensures { result ≡ file_of_module dotted.now self.now }
    {
        match self.modules.get(dotted) {
            Some(file) => *file,
            None => None,
        }
    }
}

// What the table gets for a name, where an entry at this place bears it too.
fn next_file(modules: &BTreeMap<String, Option<FileId>>, name: &str, place: usize) -> Option<FileId>
    requires { place < 2 ^ 32 }
    ensures { result ≡ if is_some (tree.get_by_text modules.now name.now) then None else Some (file_at place) }
{
    match modules.get(name) {
        Some(_) => None,
        None => Some(FileId(place as u32)),
    }
}
