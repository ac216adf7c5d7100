// Sets that are copied from one place where they are kept once to another.
ghost use Rattle.std.specs.Prelude.{◌≡◌, ℕ, IfOk, OnOk, OnErr, ◌<◌, length, Some, None};
ghost use Rattle.std.specs.FinMap as map;
ghost use Rattle.infer_sets.specs.Numbers.{set_at, IsNumber, Grew};
ghost use Rattle.infer_equations.specs.Valued.{AreCopied, AreGiven, valued};
ghost use Rattle.infer_equations.specs.Kept.{kept_by, taken_over};

use crate::ids::Ids;
use infer_sets::{SetId, SetLayer, SetTable};
use lint_values::Memory;
use std::alloc::Global;

// Numbers the sets of the listed variables anew, each set once, and gives the new numbers to the variables.
pub(crate) fn copy_all(
    alloc: Global,
    from: &SetLayer,
    old: &Ids,
    run: &[u64],
    to: &mut SetTable,
    ids: &mut Ids,
) -> Result<(), Memory>
    requires old { AreGiven from.now.sets old.now }
    requires new { AreGiven to.old ids.old }
    ensures grew { Grew to.old to.new }
    ensures given { AreGiven to.new ids.new }
    ensures ok { OnOk result (valued to.new ids.new ≡ taken_over (valued from.now.sets old.now) run.now (valued to.old ids.old)) }
{
    let mut copied = Ids::new(alloc);
    for var in run {
        copy_one(alloc, from, old, *var, &mut copied, to, ids)?;
    }
    Ok(())
}

// One variable's set.
fn copy_one(
    alloc: Global,
    from: &SetLayer,
    old: &Ids,
    var: u64,
    copied: &mut Ids,
    to: &mut SetTable,
    ids: &mut Ids,
) -> Result<(), Memory>
    requires old { AreGiven from.now.sets old.now }
    requires new { AreGiven to.old ids.old }
    requires copied { AreCopied from.now.sets copied.old to.old }
    ensures grew { Grew to.old to.new }
    ensures given { AreGiven to.new ids.new }
    ensures copied { AreCopied from.now.sets copied.new to.new }
    ensures ok { OnOk result (valued to.new ids.new ≡ kept_by (map.get (valued from.now.sets old.now) var) var (valued to.old ids.old)) }
{
    match old.find(var) {
        None => Ok(()),
        Some(id) => {
            let number = copy_set(alloc, from, id, copied, to)?;
            ids.put(var, number)
        }
    }
}

// The number of a copy of one set, which is made unless it was.
fn copy_set(
    alloc: Global,
    from: &SetLayer,
    id: SetId,
    copied: &mut Ids,
    to: &mut SetTable,
) -> Result<SetId, Memory>
    requires given { id < length from.now.sets }
    requires copied { AreCopied from.now.sets copied.old to.old }
    ensures grew { Grew to.old to.new }
    ensures copied { AreCopied from.now.sets copied.new to.new }
    ensures ok { IfOk result (λ n. IsNumber to.new n (set_at from.now.sets id)) }
{
    match copied.find(id as u64) {
        Some(number) => Ok(number),
        None => {
            let number = to.number_copy(alloc, from.get(id))?;
            copied.put(id as u64, number)?;
            Ok(number)
        }
    }
}
