// The least solution on demand, by a worklist over the variables that were reached.
ghost use Rattle.std.specs.Prelude.{◌≡◌, ℕ, ◌+◌, ◌*◌, ◌<◌, ◌≤◌, ◌==◌, ◌&&◌, ◌++◌, [], ◌∷◌, List, IfOk, OnOk, OnErr, Some, None, IsSome, is_some, nat_lt, if◌then◌else◌, length, drop, false, true, ◌⊎◌, not};
ghost use Rattle.std.specs.FinMap as map;
ghost use Rattle.std.specs.List.{Contains, list_any};
ghost use Rattle.infer_sets.specs.Sets.{none, is_below, Below};
ghost use Rattle.infer_sets.specs.Numbers.{set_at};
ghost use Rattle.infer_equations.specs.Assignment.{or_none};
ghost use Rattle.infer_equations.specs.Least.{least};
ghost use Rattle.infer_equations.specs.Seen.{Keeps, solved};
ghost use Rattle.infer_reached.specs.Tables.{found, assigned, tables};
ghost use Rattle.infer_reached.specs.InProgress.{InProgress, HasSet, weight};
ghost use Rattle.infer_reached.specs.Extension.{extended, added_by, WasRead, AllLeast};
ghost use Rattle.infer_lazy.specs.Reach.{IsCheap, Lacking, IsListed, AreSupported};
ghost use Rattle.infer_lazy.specs.Pairs.{readers};
ghost use Rattle.infer_lazy.specs.Waiting.{with_places};
ghost use Rattle.infer_lazy.specs.Worklist.{with_pair, paired, Lazy, credit};

use crate::pairs::Pairs;
use crate::waiting::Waiting;
use infer_equations::{Equations, Steps, View};
use infer_reached::{add_all, add_one, evaluate, raise};
use infer_sets::SetId;
use lint_values::Memory;
use std::alloc::Global;
use std::sync::ledger::Ledger;

fn pair_one(view: &View, reader: usize, read: u64, pairs: &mut Pairs) -> Result<(), Memory>
    ensures { OnOk result (pairs.new ≡ with_pair (map.get view.now.work read) reader read pairs.old) }
{
    match view.in_progress(read) {
        Some(_) => pairs.add(read, reader),
        None => Ok(()),
    }
}

// Pairs the reader with each variable in progress that it read.
fn pair_all(view: &View, reader: usize, noted: &[u64], pairs: &mut Pairs) -> Result<(), Memory>
    ensures { OnOk result (pairs.new ≡ paired view.now.work reader noted.now pairs.old) }
{
    for var in noted {
        pair_one(view, reader, *var, pairs)?;
    }
    Ok(())
}

// Gives a set to a variable where it does not lie within the present one, and then who read it waits.
fn raise_and_wake(
    view: &mut View,
    var: u64,
    set: SetId,
    pairs: &Pairs,
    waiting: &mut Waiting,
) -> Result<(), Memory>
    requires known { IsSome (map.get view.old.work var) }
    requires given { set < length view.old.numbers }
    ensures keeps { Keeps view.old view.new }
    ensures table { OnOk result (view.new.work ≡ (if is_below (set_at view.old.numbers set) (or_none (map.get view.old.work var)) then view.old.work else map.insert view.old.work var (set_at view.old.numbers set))) }
    ensures waits { OnOk result (waiting.new ≡ (if is_below (set_at view.old.numbers set) (or_none (map.get view.old.work var)) then waiting.old else with_places waiting.old (readers var pairs.now))) }
{
    let up = raise(view, var, set)?;
    if up {
        pairs.wake(var, waiting)?;
    }
    Ok(())
}

// One step: the variable at a place that waited is evaluated. What it read and had no set waits from then on, and who
// read it where its set rose.
fn step_one<E: Equations, L: Ledger>(
    alloc: Global,
    eqs: &E,
    view: &mut View,
    run: &mut Vec<u64>,
    waiting: &mut Waiting,
    pairs: &mut Pairs,
    start: u64,
    place: usize,
    steps: &mut Steps<L>,
) -> Result<(), Memory>
    requires { Lazy (E.count_of eqs.now) (E.limit_of eqs.now) (E.right eqs.now) (E.reads eqs.now) (solved view.old) view.old.work (start ∷ []) run.old.items (waiting.old ++ place ∷ []) pairs.old }
    ensures kept { Keeps view.old view.new }
    ensures step { steps.new ≡ steps.old + 1 }
    ensures lazy { OnOk result (Lazy (E.count_of eqs.now) (E.limit_of eqs.now) (E.right eqs.now) (E.reads eqs.now) (solved view.old) view.new.work (start ∷ []) run.new.items waiting.new pairs.new) }
    ensures cost { OnOk result (length waiting.new + credit (E.limit_of eqs.now) (tables view.old) run.old.items pairs.old ≤ length waiting.old + credit (E.limit_of eqs.now) (solved view.old, view.new.work) run.new.items pairs.new) }
    ensures keeps { OnOk result ((w : ℕ) → HasSet (tables view.old) w → HasSet (solved view.old, view.new.work) w) }
{
    let var = run[place];
    let known = run.len();
    let visit = evaluate(alloc, eqs, view, var, steps)?;
    add_all(view, run, &visit.noted)?;
    waiting.add_from(known, run.len())?;
    pair_all(view, place, &visit.noted, pairs)?;
    raise_and_wake(view, var, visit.set, pairs, waiting)?;
    Ok(())
}

/// Every step from one variable that has no set. The answer lists the variables that were in progress: at Ok the set in
/// progress of each is that of the least solution.
pub fn work_through<E: Equations, L: Ledger>(
    alloc: Global,
    eqs: &E,
    view: &mut View,
    start: u64,
    steps: &mut Steps<L>,
) -> Result<Vec<u64>, Memory>
    requires start_in { start < E.count_of eqs.now }
    requires empty { view.old.work ≡ map.empty }
    requires right { AllLeast (E.count_of eqs.now) (E.limit_of eqs.now) (E.right eqs.now) (tables view.old) }
    requires missing { found (tables view.old) start ≡ None }
    ensures kept { Keeps view.old view.new }
    ensures least { OnOk result (AllLeast (E.count_of eqs.now) (E.limit_of eqs.now) (E.right eqs.now) (solved view.old, view.new.work)) }
    ensures has { OnOk result (HasSet (solved view.old, view.new.work) start) }
    ensures listed { IfOk result (λ run. IsListed (least (E.count_of eqs.now) (E.limit_of eqs.now) (E.right eqs.now)) (E.reads eqs.now) (solved view.old) view.new.work (start ∷ []) run.items) }
    ensures supported { OnOk result (AreSupported (least (E.count_of eqs.now) (E.limit_of eqs.now) (E.right eqs.now)) (E.right eqs.now) (solved view.old) view.new.work) }
    ensures cost { OnOk result (IsCheap (E.limit_of eqs.now) (least (E.count_of eqs.now) (E.limit_of eqs.now) (E.right eqs.now)) (E.reads eqs.now) (λ v. IsSome (map.get view.new.work v)) steps.old steps.new) }
    ensures cost_err { OnErr result (IsCheap (E.limit_of eqs.now) (least (E.count_of eqs.now) (E.limit_of eqs.now) (E.right eqs.now)) (E.reads eqs.now) (Lacking (least (E.count_of eqs.now) (E.limit_of eqs.now) (E.right eqs.now)) (E.reads eqs.now) (solved view.old) (start ∷ [])) steps.old steps.new) }
{
    let mut run = Vec::new(alloc);
    let mut waiting = Waiting::new(alloc);
    let mut pairs = Pairs::new(alloc);
    add_one(view, &mut run, start)?;
    waiting.add(0)?;
    while let Some(place) = waiting.take() {
        step_one(
            alloc,
            eqs,
            view,
            &mut run,
            &mut waiting,
            &mut pairs,
            start,
            place,
            steps,
        )?;
    }
    Ok(run)
}
