// One evaluation.
ghost use Rattle.std.specs.Prelude.{◌≡◌, ℕ, ◌+◌, ◌<◌, IfOk, length};
ghost use Rattle.infer_sets.specs.Numbers.{set_at};
ghost use Rattle.infer_equations.specs.Seen.{Stays};
ghost use Rattle.infer_reached.specs.Tables.{tables};
ghost use Rattle.infer_reached.specs.Extension.{WasRead};

use infer_equations::{Equations, Steps, View};
use infer_sets::SetId;
use lint_values::Memory;
use std::alloc::Global;
use std::sync::ledger::Ledger;

/// The number of a right side's set, and the variables that were read for it, in order.
#[derive(Drop)]
pub struct Visit {
    pub set: SetId,
    pub noted: Vec<u64>,
}

/// Evaluates the right side of a variable under the view's sets.
pub fn evaluate<E: Equations, L: Ledger>(
    alloc: Global,
    eqs: &E,
    view: &mut View,
    var: u64,
    steps: &mut Steps<L>,
) -> Result<Visit, Memory>
    requires { var < E.count_of eqs.now }
    ensures step { steps.new ≡ steps.old + 1 }
    ensures stays { Stays view.old view.new }
    ensures given { IfOk result (λ r. r.set < length view.new.numbers) }
    ensures read { IfOk result (λ r. WasRead (E.right eqs.now var) (E.reads eqs.now var) (tables view.old) r.noted.items (set_at view.new.numbers r.set)) }
{
    let _ = view.take_noted();
    let set = eqs.eval(alloc, var, view, steps)?;
    Ok(Visit {
        set,
        noted: view.take_noted(),
    })
}
