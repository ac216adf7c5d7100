// Numbers of sets by variable.
ghost use Rattle.std.specs.Prelude.{◌≡◌, IfOk, OnOk, OnErr};
ghost use Rattle.std.specs.FinMap as map;

use infer_sets::SetId;
use lint_values::Memory;
use std::alloc::Global;
use std::collections::BTreeMap;
use std::marker::Model;

/// Numbers of sets by variable. Contracts see the finite map from variables to numbers.
#[derive(Debug, Drop)]
pub struct Ids {
    entries: BTreeMap<u64, SetId>,
}

impl Model for Ids {
    ghost use Rattle.std.specs.FinMap as map;
    ghost use Rattle.infer_equations.specs.Valued.{Ids, ids_code};

    ghost Value = { Ids };

    ghost coded = { ids_code };

    ghost view = { λ t. map.from_entries t.entries.entries };
}

impl Ids {
    /// No number.
    pub fn new(alloc: Global) -> Ids
        ensures { result ≡ map.empty }
    {
        Ids {
            entries: BTreeMap::new(alloc),
        }
    }

    /// The number that the variable has, if it has one.
    pub fn find(&self, var: u64) -> Option<SetId>
        ensures { result ≡ map.get self.now var }
    {
        self.entries.get(&var).copied()
    }

    /// Gives a number to a variable, in place of the one that it had.
    pub fn put(&mut self, var: u64, id: SetId) -> Result<(), Memory>
        ensures ok { OnOk result (self.new ≡ map.insert self.old var id) }
        ensures err { OnErr result (self.new ≡ self.old) }
    {
        self.entries.insert(var, id)?;
        Ok(())
    }

    /// How many variables have a number.
    pub fn count(&self) -> u64
        ensures { result ≡ map.len self.now }
    {
        self.entries.len() as u64
    }

    /// The variables that have a number, in ascending order.
    pub fn variables(&self, alloc: Global) -> Result<Vec<u64>, Memory>
        ensures { IfOk result (λ v. v.items ≡ map.keys self.now) }
    {
        Ok(self.entries.keys().copied().collect(alloc)?)
    }

    /// Takes the variable's number out, if it has one.
    pub fn take(&mut self, var: u64) -> Option<SetId>
        ensures value { result ≡ map.get self.old var }
        ensures rest { self.new ≡ map.remove self.old var }
    {
        self.entries.remove(&var)
    }
}
