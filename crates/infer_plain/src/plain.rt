// The least solution by rounds over the variables that were reached.
ghost use Rattle.std.specs.Prelude.{◌≡◌, ℕ, ◌+◌, ◌<◌, IfOk, OnOk, Some, None, IsSome, nat_lt, ◌||◌, length};
ghost use Rattle.std.specs.FinMap as map;
ghost use Rattle.std.specs.List.{Contains};
ghost use Rattle.infer_equations.specs.Least.{least};
ghost use Rattle.infer_equations.specs.Seen.{Keeps, solved};
ghost use Rattle.infer_reached.specs.Tables.{found, tables};
ghost use Rattle.infer_reached.specs.InProgress.{InProgress, HasSet};
ghost use Rattle.infer_reached.specs.Extension.{AllLeast};
ghost use Rattle.infer_plain.specs.Sweep.{Looked, Swept};

use infer_equations::{Equations, Steps, Table, View};
use infer_reached::{add_all, add_one, evaluate, raise};
use infer_sets::AbsSet;
use lint_values::Memory;
use std::alloc::Global;
use std::sync::ledger::Ledger;

/// The plain solver. It keeps nothing from one call to the next.
pub struct Plain;

impl Plain {
    /// The set of a variable in the least solution. It takes rounds over all variables reached so far, until none changes.
    pub fn solve<E: Equations, L: Ledger>(
        alloc: Global,
        eqs: &E,
        var: u64,
        steps: &mut Steps<L>,
    ) -> Result<AbsSet, Memory>
        requires { var < E.count_of eqs.now }
        ensures { IfOk result (λ s. s ≡ least (E.count_of eqs.now) (E.limit_of eqs.now) (E.right eqs.now) var) }
    {
        let none = Table::new(alloc);
        let mut view = View::over(alloc, &none);
        let mut run = Vec::new(alloc);
        add_one(&mut view, &mut run, var)?;
        settle(alloc, eqs, &mut view, &mut run, var, steps)?;
        copy_of(alloc, &view, var)
    }
}

fn any_change(up: bool, known: usize, reached: usize) -> bool
    ensures { result ≡ (up || nat_lt known reached) }
{
    up || known < reached
}

// One look at a variable: whether anything changed.
fn look<E: Equations, L: Ledger>(
    alloc: Global,
    eqs: &E,
    view: &mut View,
    run: &mut Vec<u64>,
    var: u64,
    steps: &mut Steps<L>,
) -> Result<bool, Memory>
    requires progress { InProgress (E.count_of eqs.now) (E.limit_of eqs.now) (E.right eqs.now) (tables view.old) run.old.items }
    requires known { Contains run.old.items var }
    ensures keeps { Keeps view.old view.new }
    ensures looked { IfOk result (λ changed. Looked (E.count_of eqs.now) (E.limit_of eqs.now) (E.right eqs.now) (solved view.old) (view.old.work, run.old.items) var (view.new.work, run.new.items) changed) }
{
    let known = run.len();
    let visit = evaluate(alloc, eqs, view, var, steps)?;
    add_all(view, run, &visit.noted)?;
    let up = raise(view, var, visit.set)?;
    Ok(any_change(up, known, run.len()))
}

fn either_rose(rose: bool, changed: bool) -> bool
    ensures { result ≡ (rose || changed) }
{
    rose || changed
}

// One look at each variable that was reached: whether anything changed.
fn sweep<E: Equations, L: Ledger>(
    alloc: Global,
    eqs: &E,
    view: &mut View,
    run: &mut Vec<u64>,
    steps: &mut Steps<L>,
) -> Result<bool, Memory>
    requires { InProgress (E.count_of eqs.now) (E.limit_of eqs.now) (E.right eqs.now) (tables view.old) run.old.items }
    ensures keeps { Keeps view.old view.new }
    ensures swept { IfOk result (λ changed. Swept (E.count_of eqs.now) (E.limit_of eqs.now) (E.right eqs.now) (solved view.old) (view.old.work, run.old.items) (length run.old.items) (view.new.work, run.new.items) changed) }
{
    let mut changed = false;
    for i in 0..run.len() {
        let var = run[i];
        let rose = look(alloc, eqs, view, run, var, steps)?;
        changed = either_rose(rose, changed);
    }
    Ok(changed)
}

// Sweeps until nothing changes.
fn settle<E: Equations, L: Ledger>(
    alloc: Global,
    eqs: &E,
    view: &mut View,
    run: &mut Vec<u64>,
    var: u64,
    steps: &mut Steps<L>,
) -> Result<(), Memory>
    requires progress { InProgress (E.count_of eqs.now) (E.limit_of eqs.now) (E.right eqs.now) (tables view.old) run.old.items }
    requires known { HasSet (tables view.old) var }
    ensures keeps { Keeps view.old view.new }
    ensures least { OnOk result (AllLeast (E.count_of eqs.now) (E.limit_of eqs.now) (E.right eqs.now) (tables view.new)) }
    ensures known { OnOk result (HasSet (tables view.new) var) }
{
    while sweep(alloc, eqs, view, run, steps)? {}
    Ok(())
}

// The variable's set, once more.
fn copy_of(alloc: Global, view: &View, var: u64) -> Result<AbsSet, Memory>
    requires none { map.get (solved view.now) var ≡ None }
    requires known { HasSet (tables view.now) var }
    ensures { IfOk result (λ s. found (tables view.now) var ≡ Some s) }
{
    match view.in_progress(var) {
        Some(id) => view.set(id).copy(alloc),
        None => unreachable!(),
    }
}
