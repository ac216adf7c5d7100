// Numbers are taken over, all of them or none.
ghost use Rattle.std.specs.Prelude.{◌≡◌, ℕ, OnOk, OnErr, None, IsSome, cond};
ghost use Rattle.std.specs.FinMap as map;
ghost use Rattle.std.specs.List.{Contains, list_any};
ghost use Rattle.std.specs.Prelude.{nat_eq};
ghost use Rattle.infer_equations.specs.Assignment.{overlaid};
ghost use Rattle.infer_equations.specs.Kept.{kept_by};

use crate::ids::Ids;
use lint_values::Memory;

// Moves the numbers of the listed variables, which are those that `own` lacks, from `work` into `own`. Where memory runs
// out `own` stays as it was.
pub(crate) fn keep_all(own: &mut Ids, work: &mut Ids, run: &[u64]) -> Result<(), Memory>
    requires apart { (v : ℕ) → Contains run.now v → map.get own.old v ≡ None }
    requires stored { (v : ℕ) → IsSome (map.get work.old v) → map.get own.old v ≡ None → Contains run.now v }
    ensures ok { OnOk result (own.new ≡ overlaid own.old work.old) }
    ensures err { OnErr result (own.new ≡ own.old) }
{
    for var in run {
        if keep_one(own, work, *var).is_err() {
            give_up(own, run);
            return Err(Memory);
        }
    }
    Ok(())
}

// Moves one number, if there is one.
fn keep_one(own: &mut Ids, work: &mut Ids, var: u64) -> Result<(), Memory>
    ensures kept { OnOk result (own.new ≡ kept_by (map.get work.old var) var own.old) }
    ensures rest { work.new ≡ map.remove work.old var }
    ensures err { OnErr result (own.new ≡ own.old) }
{
    if let Some(id) = work.take(var) {
        own.put(var, id)?;
    }
    Ok(())
}

// Takes the listed variables out.
fn give_up(own: &mut Ids, run: &[u64])
    ensures { (v : ℕ) → map.get own.new v ≡ cond (list_any (nat_eq v) run.now) None (map.get own.old v) }
{
    for var in run {
        let _ = own.take(*var);
    }
}
