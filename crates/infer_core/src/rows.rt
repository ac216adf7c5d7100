// Demands in a row.
ghost use Rattle.std.specs.Prelude.{◌≡◌, ◌<◌, OnOk, length};
ghost use Rattle.std.specs.List.{All};
ghost use Rattle.infer_equations.specs.Least.{least};
ghost use Rattle.infer_core.specs.Demand.{IsDemanded};
ghost use Rattle.infer_core.specs.Row.{AreDemanded, AreSolved};

use crate::solver::Solver;
use infer_equations::{Equations, Steps};
use lint_values::Memory;
use std::sync::ledger::Ledger;

/// Demands one variable after another, as one row: nothing is added but what they reach, and the steps are those of what
/// was added. Afterwards each of them has its set.
pub fn demand_all<E: Equations, L: Ledger>(
    solver: &mut Solver<E>,
    vars: &[u64],
    steps: &mut Steps<L>,
) -> Result<(), Memory>
    requires { All (λ v. v < E.count_of solver.old.equations) vars.now }
    ensures row { AreDemanded (E.limit_of solver.old.equations) (least (E.count_of solver.old.equations) (E.limit_of solver.old.equations) (E.right solver.old.equations)) (E.reads solver.old.equations) vars.now solver.old solver.new steps.old steps.new result }
    ensures solved { OnOk result (AreSolved vars.now solver.new) }
{
    for var in vars {
        match demand_one(solver, *var, steps) {
            Ok(()) => {}
            Err(memory) => return Err(memory),
        }
    }
    Ok(())
}

fn demand_one<E: Equations, L: Ledger>(
    solver: &mut Solver<E>,
    var: u64,
    steps: &mut Steps<L>,
) -> Result<(), Memory>
    requires { var < E.count_of solver.old.equations }
    ensures { IsDemanded (E.limit_of solver.old.equations) (least (E.count_of solver.old.equations) (E.limit_of solver.old.equations) (E.right solver.old.equations)) (E.reads solver.old.equations) solver.old solver.new var steps.old steps.new result }
{
    match solver.demand(var, steps) {
        Ok(_) => Ok(()),
        Err(memory) => Err(memory),
    }
}
