// A table of sets by variable.
ghost use Rattle.std.specs.Prelude.{◌≡◌, ℕ, IfOk, OnOk, OnErr, None, IsSome, option_copied};
ghost use Rattle.std.specs.FinMap as map;
ghost use Rattle.std.specs.List.{Contains};
ghost use Rattle.infer_equations.specs.Assignment.{overlaid};

use crate::copies::copy_all;
use crate::ids::Ids;
use crate::keep::keep_all;
use infer_sets::{AbsSet, SetLayer, SetTable};
use lint_values::Memory;
use std::alloc::Global;
use std::marker::Model;

/// Sets by variable, where equal sets are kept once. Contracts see the finite map from variables to sets.
#[derive(Debug, Drop)]
pub struct Table {
    pub(crate) ids: Ids,
    pub(crate) sets: SetTable,
}

impl Model for Table {
    ghost use Rattle.infer_equations.specs.Assignment.{Map};
    ghost use Rattle.infer_equations.specs.Valued.{map_code, valued, AreGiven};

    ghost Value = { Map };

    ghost coded = { map_code };

    ghost view = { λ t. valued t.sets t.ids };

    ghost invariant = { λ t. AreGiven t.sets t.ids };
}

impl Table {
    /// The table with no entry.
    pub fn new(alloc: Global) -> Table
        ensures { result ≡ map.empty }
    {
        Table {
            ids: Ids::new(alloc),
            sets: SetTable::new(alloc),
        }
    }

    /// The variable's set, if the table has one.
    pub fn find(&self, var: u64) -> Option<&AbsSet>
        ensures { option_copied result ≡ map.get self.now var }
    {
        match self.ids.find(var) {
            Some(id) => Some(self.sets.get(id)),
            None => None,
        }
    }

    /// How many variables the table has.
    pub fn count(&self) -> u64
        ensures { result ≡ map.len self.now }
    {
        self.ids.count()
    }

    /// The variables of the table, in ascending order.
    pub fn variables(&self, alloc: Global) -> Result<Vec<u64>, Memory>
        ensures { IfOk result (λ v. v.items ≡ map.keys self.now) }
    {
        self.ids.variables(alloc)
    }

    /// Takes over the sets that another table has for the listed variables, which are those that this one lacks. Their
    /// sets are numbered anew here. A refusal changes nothing.
    pub fn take_over(&mut self, alloc: Global, other: &Table, run: &[u64]) -> Result<(), Memory>
        requires apart { (v : ℕ) → Contains run.now v → map.get self.old v ≡ None }
        requires stored { (v : ℕ) → IsSome (map.get other.now v) → map.get self.old v ≡ None → Contains run.now v }
        ensures ok { OnOk result (self.new ≡ overlaid self.old other.now) }
        ensures err { OnErr result (self.new ≡ self.old) }
    {
        let from = SetLayer::over(alloc, &other.sets);
        let mut ids = Ids::new(alloc);
        copy_all(alloc, &from, &other.ids, run, &mut self.sets, &mut ids)?;
        keep_all(&mut self.ids, &mut ids, run)
    }
}
