// Solved sets that several solvers share.
ghost use Rattle.std.specs.Prelude.{◌≡◌, ℕ, not, length, IfOk, OnOk, OnErr, option_copied};
ghost use Rattle.std.specs.List.{filter};
ghost use Rattle.std.specs.FinMap as map;
ghost use Rattle.infer_sets.specs.Sets.{Set};
ghost use Rattle.infer_core.specs.Right.{IsRight};
ghost use Rattle.infer_core.specs.Merge.{merged};

use crate::overlay::Overlay;
use infer_equations::Table;
use infer_sets::AbsSet;
use lint_values::Memory;
use std::alloc::Global;
use std::marker::Model;

/// A table of solved sets, on which solvers stand, and which grows by `merge` alone. Equal sets are kept once. Contracts see the finite map from
/// variables to sets, and how many variables were solved again. It is right for equations where each of its sets is that
/// of their least solution.
#[derive(Debug, Drop)]
pub struct Frozen {
    alloc: Global,
    table: Table,
    again: u64,
}

impl Model for Frozen {
    ghost use Rattle.infer_core.specs.Right.{FrozenTable, frozen_code};

    ghost Value = { FrozenTable };

    ghost coded = { frozen_code };

    ghost view = { λ f. record { sets = f.table; again = f.again } };
}

impl Frozen {
    /// The table with no variable: it is right for all equations.
    pub fn empty(alloc: Global) -> Frozen
        ensures none { result ≡ record { sets = map.empty; again = 0 } }
        ensures right { (count limit : ℕ) (right : ℕ → (ℕ → Set) → Set) → IsRight count limit right result.sets }
    {
        Frozen {
            alloc,
            table: Table::new(alloc),
            again: 0,
        }
    }

    /// Takes over what a solver solved, and numbers its sets anew. Where both have a variable, the old set stays, and it
    /// counts as solved again.
    /// Where memory runs out the table is as before, and the overlay is given up.
    pub fn merge(&mut self, overlay: Overlay) -> Result<(), Memory>
        ensures ok { OnOk result (self.new ≡ merged self.old overlay) }
        ensures err { OnErr result (self.new ≡ self.old) }
        ensures right { (count limit : ℕ) (right : ℕ → (ℕ → Set) → Set) → IsRight count limit right self.old.sets → IsRight count limit right overlay → IsRight count limit right self.new.sets }
    {
        let solved = overlay.table();
        let variables = solved.variables(self.alloc)?;
        let missing = missing_of(self.alloc, &self.table, &variables)?;
        let shared = (variables.len() - missing.len()) as u64;
        self.table.take_over(self.alloc, solved, &missing)?;
        self.again = self.again.saturating_add(shared);
        Ok(())
    }

    /// The variable's set, if the table has it.
    pub fn get(&self, var: u64) -> Option<&AbsSet>
        ensures { option_copied result ≡ map.get self.now.sets var }
    {
        self.table.find(var)
    }

    /// How many variables the table has.
    pub fn count(&self) -> u64
        ensures { result ≡ map.len self.now.sets }
    {
        self.table.count()
    }

    /// How many variables were solved again: each merge adds the number of those that the table had already, until the
    /// count stands still at 2^64 - 1.
    pub fn again(&self) -> u64
        ensures { result ≡ self.now.again }
    {
        self.again
    }

    pub(crate) fn table(&self) -> &Table
        ensures { result.now ≡ self.now.sets }
    {
        &self.table
    }
}

// Those of the variables that the table lacks.
fn missing_of(alloc: Global, table: &Table, variables: &[u64]) -> Result<Vec<u64>, Memory>
    ensures { IfOk result (λ v. v.items ≡ filter (λ q. not (map.contains_key table.now q)) variables.now) }
{
    Ok(
        variables
            .iter()
            .copied()
            .filter(|var| table.find(*var).is_none())
            .collect(alloc)?,
    )
}
