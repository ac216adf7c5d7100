// What one solver solved.
ghost use Rattle.std.specs.Prelude.{◌≡◌};

use infer_equations::Table;
use std::marker::Model;

/// The sets that a solver solved, by variable, which a frozen table takes over by `Frozen::merge`. Equal sets are kept once,
/// in a table of the overlay's own, so it borrows nothing. Contracts see the finite map from variables to sets. It is made
/// by `Solver::finish` alone.
#[derive(Debug, Drop)]
pub struct Overlay {
    table: Table,
}

impl Model for Overlay {
    ghost use Rattle.infer_equations.specs.Assignment.{Map};
    ghost use Rattle.infer_equations.specs.Valued.{map_code};

    ghost Value = { Map };

    ghost coded = { map_code };

    ghost view = { λ o. o.table };
}

impl Overlay {
    pub(crate) fn new(table: Table) -> Overlay
        ensures { result ≡ table }
    {
        Overlay { table }
    }

    pub(crate) fn table(&self) -> &Table
        ensures { result.now ≡ self.now }
    {
        &self.table
    }
}
