// Where a view looks for a variable's set.
ghost use Rattle.std.specs.Prelude.{◌≡◌, ℕ, ◌<◌, length, IfOk, OnErr, IfSome};
ghost use Rattle.std.specs.FinMap as map;
ghost use Rattle.infer_sets.specs.Numbers.{set_at, IsNumber, Grew};
ghost use Rattle.infer_equations.specs.Assignment.{either, or_none, overlaid};
ghost use Rattle.std.specs.Prelude.{option_map};

use crate::ids::Ids;
use infer_sets::{AbsSet, SetId, SetLayer};
use lint_values::Memory;
use std::alloc::Global;

// The number of a variable: the base's, else that of what was solved, else that of what is in progress.
pub(crate) fn find_first(base: &Ids, own: &Ids, work: &Ids, var: u64) -> Option<SetId>
    ensures { result ≡ map.get (overlaid (overlaid base.now own.now) work.now) var }
{
    match find_solved(base, own, var) {
        Some(id) => Some(id),
        None => work.find(var),
    }
}

pub(crate) fn find_solved(base: &Ids, own: &Ids, var: u64) -> Option<SetId>
    ensures { result ≡ map.get (overlaid base.now own.now) var }
{
    match base.find(var) {
        Some(id) => Some(id),
        None => own.find(var),
    }
}

// The number, and that of the empty set where there is none.
pub(crate) fn number_of(
    alloc: Global,
    found: Option<SetId>,
    layer: &mut SetLayer,
) -> Result<SetId, Memory>
    requires { IfSome found (λ id. id < length layer.old.sets) }
    ensures grew { Grew layer.old.sets layer.new.sets }
    ensures ok { IfOk result (λ id. IsNumber layer.new.sets id (or_none (option_map (set_at layer.old.sets) found))) }
{
    match found {
        Some(id) => Ok(id),
        None => layer.number(AbsSet::empty(alloc)),
    }
}
