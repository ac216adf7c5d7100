// What was found so far.
ghost use Rattle.std.specs.Prelude.{◌≡◌, ◌||◌, [], OnOk};
ghost use Rattle.file_list.specs.Walked.{is_closed, is_too_many, next_finding, with_found, with_unread};

use crate::{Finding, Found};
use lint_values::{Memory, Text};
use std::alloc::Global;
use std::collections::BTreeSet;
use std::marker::Model;

/// The most entries of a reading before gathering ends with one more.
pub const MAX_ENTRIES: usize = 20_000;

/// What was found so far, seen as the list. Each path is taken once, and nothing behind the end.
#[derive(Debug, Drop)]
pub(crate) struct Findings {
    found: Vec<Found>,
    taken: BTreeSet<Text>,
    ended: bool,
}

impl Model for Findings {
    ghost use Rattle.std.specs.Prelude.{List};
    ghost use Rattle.file_list.specs.declared.found.Found.{Found};
    ghost use Rattle.file_list.specs.Findings.{IsKept};

    ghost Value = { List Found };

    ghost view = { λ f. f.found.items };

    ghost invariant = { IsKept };
}

fn is_too_many(finding: Finding) -> bool
    ensures { result ≡ is_too_many finding }
{
    match finding {
        Finding::TooMany => true,
        Finding::File => false,
        Finding::Missing => false,
        Finding::NoPackage => false,
        Finding::Failed => false,
        Finding::TooDeep => false,
    }
}

fn next_finding(count: usize, finding: Finding) -> Finding
    ensures { result ≡ next_finding count finding }
{
    if count < MAX_ENTRIES {
        finding
    } else {
        Finding::TooMany
    }
}

fn either(a: bool, b: bool) -> bool
    ensures { result ≡ (a || b) }
{
    a || b
}

impl Findings {
    pub(crate) fn new(alloc: Global) -> Findings
        ensures { result ≡ [] }
    {
        Findings {
            found: Vec::new(alloc),
            taken: BTreeSet::new(alloc),
            ended: false,
        }
    }

    /// Whether nothing more is taken at a path: it was taken before, or gathering has ended.
    pub(crate) fn is_closed(&self, path: &Text) -> bool
        ensures { result ≡ is_closed self.now path.now }
    {
        let taken = self.taken.contains(path);
        either(self.ended, taken)
    }

    /// Adds an entry, or TooMany in its place where there are 20,000.
    pub(crate) fn add(
        &mut self,
        alloc: Global,
        path: &Text,
        module_name: Text,
        is_package: bool,
        finding: Finding,
    ) -> Result<(), Memory>
        ensures { OnOk result (self.new ≡ with_found self.old path.now module_name is_package finding) }
    {
        let finding = next_finding(self.found.len(), finding);
        let ended = either(self.ended, is_too_many(finding));
        let taken = Text::from_str(alloc, path.as_str())?;
        let path = Text::from_str(alloc, path.as_str())?;
        self.found.push(Found {
            path,
            module_name,
            is_package,
            finding,
        })?;
        match self.taken.insert(taken) {
            Ok(_) => {
                self.ended = ended;
                Ok(())
            }
            Err(_) => {
                self.found.pop();
                Err(Memory)
            }
        }
    }

    /// Adds an entry where no file was found: its module name is its path.
    pub(crate) fn add_unread(
        &mut self,
        alloc: Global,
        path: &Text,
        finding: Finding,
    ) -> Result<(), Memory>
        ensures { OnOk result (self.new ≡ with_unread self.old path.now finding) }
    {
        let module_name = Text::from_str(alloc, path.as_str())?;
        self.add(alloc, path, module_name, false, finding)?;
        Ok(())
    }

    /// What was found, in order.
    pub(crate) fn into_vec(self) -> Vec<Found>
        ensures { result.items ≡ self }
    {
        let Findings { found, .. } = self;
        found
    }
}
