// The variables that were reached, and their sets.
ghost use Rattle.std.specs.Prelude.{◌≡◌, ℕ, ◌<◌, IfOk, OnOk, IsSome, is_some, if◌then◌else◌, not, length};
ghost use Rattle.std.specs.FinMap as map;
ghost use Rattle.infer_sets.specs.Sets.{is_below};
ghost use Rattle.infer_sets.specs.Numbers.{set_at};
ghost use Rattle.infer_equations.specs.Assignment.{or_none};
ghost use Rattle.infer_equations.specs.Seen.{Keeps, solved};
ghost use Rattle.infer_reached.specs.Tables.{found, tables};
ghost use Rattle.infer_reached.specs.Extension.{extended, added_by};

use infer_equations::View;
use infer_sets::SetId;
use lint_values::Memory;

/// Adds a variable with the empty set where it has none.
pub fn add_one(view: &mut View, run: &mut Vec<u64>, var: u64) -> Result<(), Memory>
    ensures keeps { Keeps view.old view.new }
    ensures added { OnOk result ((view.new.work, run.new.items) ≡ added_by (found (tables view.old) var) view.old.work run.old.items var) }
{
    if has(view, var) {
        return Ok(());
    }
    run.push(var)?;
    view.put_empty(var)
}

fn has(view: &View, var: u64) -> bool
    ensures { result ≡ is_some (found (tables view.now) var) }
{
    view.has(var)
}

/// Adds each variable with the empty set where it has none.
pub fn add_all(view: &mut View, run: &mut Vec<u64>, noted: &[u64]) -> Result<(), Memory>
    ensures keeps { Keeps view.old view.new }
    ensures added { OnOk result ((view.new.work, run.new.items) ≡ extended (solved view.old) (view.old.work, run.old.items) noted.now) }
{
    for var in noted {
        add_one(view, run, *var)?;
    }
    Ok(())
}

fn stays(view: &View, var: u64, id: SetId) -> bool
    requires known { IsSome (map.get view.now.work var) }
    requires given { id < length view.now.numbers }
    ensures { result ≡ is_below (set_at view.now.numbers id) (or_none (map.get view.now.work var)) }
{
    match view.in_progress(var) {
        Some(present) => lies_within(view, id, present),
        None => unreachable!(),
    }
}

// Whether one set lies within another, by their numbers. Equal numbers are of one set.
fn lies_within(view: &View, id: SetId, other: SetId) -> bool
    requires first { id < length view.now.numbers }
    requires second { other < length view.now.numbers }
    ensures { result ≡ is_below (set_at view.now.numbers id) (set_at view.now.numbers other) }
{
    if id == other {
        return true;
    }
    view.set(id).is_within(view.set(other))
}

/// Gives a set to a variable where it does not lie within the present one, and says whether it did.
pub fn raise(view: &mut View, var: u64, id: SetId) -> Result<bool, Memory>
    requires known { IsSome (map.get view.old.work var) }
    requires given { id < length view.old.numbers }
    ensures keeps { Keeps view.old view.new }
    ensures up { IfOk result (λ up. up ≡ not (is_below (set_at view.old.numbers id) (or_none (map.get view.old.work var)))) }
    ensures table { IfOk result (λ up. view.new.work ≡ (if up then map.insert view.old.work var (set_at view.old.numbers id) else view.old.work)) }
{
    if stays(view, var, id) {
        return Ok(false);
    }
    view.put(var, id)?;
    Ok(true)
}
