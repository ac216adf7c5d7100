// What rows say of a code on a line, in steps, so that it is found in time logarithmic in their number.
ghost use Rattle.std.specs.Prelude.{◌≡◌, All, IfOk};
ghost use Rattle.pragma_scope.specs.Pragmas.{selects};
ghost use Rattle.pragma_scope.specs.Timelines.{IsTimeline, concerns, steps_of_row};

use crate::row::Row;
use crate::step::{Step, merged};
use lint_messages::{ALL_CODES, Code, Selection};
use lint_values::Memory;
use std::alloc::Global;

/// The state of a code by line.
#[derive(Drop)]
pub(crate) struct Timeline {
    pub(crate) code: Code,
    pub(crate) steps: Vec<Step>,
}

/// Whether a name is the code's, its category's or `all`.
pub(crate) fn selects(selection: Selection, code: Code) -> bool
    ensures { result ≡ selects selection code }
{
    match selection {
        Selection::One(named) => named.letters() == code.letters(),
        Selection::Category(letter) => letter == code.category(),
        Selection::All => true,
        Selection::Unknown | Selection::BadName => false,
    }
}

fn concerns(code: Code, row: Row) -> bool
    ensures { result ≡ concerns code row }
{
    selects(row.selection, code) && row.region.first <= row.region.last
}

// The steps of one row.
fn steps_of_row(alloc: Global, code: Code, row: Row) -> Result<Vec<Step>, Memory>
    ensures { IfOk result (λ steps. steps.items ≡ steps_of_row code row) }
{
    let mut steps = Vec::new(alloc);
    if !concerns(code, row) {
        return Ok(steps);
    }
    steps.push(Step {
        line: u64::from(row.region.first),
        state: Some(row.is_on),
    })?;
    steps.push(Step {
        line: u64::from(row.region.last) + 1,
        state: None,
    })?;
    Ok(steps)
}

// The steps that say what rows say of a code: those of the second half over those of the first.
#[tactic(auto, using(crate::proofs::MergeLaws::timeline_none))]
fn steps_of(alloc: Global, code: Code, rows: &[Row]) -> Result<Vec<Step>, Memory>
    ensures { IfOk result (λ steps. IsTimeline rows.now code steps.items) }
{
    match rows {
        [] => Ok(Vec::new(alloc)),
        [row] => {
            let steps = steps_of_row(alloc, code, *row)?;
            Ok(steps)
        }
        _ => {
            let (first, second) = rows.split_at(rows.len() / 2);
            let earlier = steps_of(alloc, code, first)?;
            let later = steps_of(alloc, code, second)?;
            let steps = merged(alloc, earlier.as_slice(), later.as_slice())?;
            Ok(steps)
        }
    }
}

/// A timeline for each code.
pub(crate) fn timelines_of(alloc: Global, rows: &[Row]) -> Result<Vec<Timeline>, Memory>
    ensures { IfOk result (λ all. All (λ t. IsTimeline rows.now t.code t.steps.items) all.items) }
{
    let mut all = Vec::new(alloc);
    for code in ALL_CODES {
        let steps = steps_of(alloc, code, rows)?;
        all.push(Timeline { code, steps })?;
    }
    Ok(all)
}
