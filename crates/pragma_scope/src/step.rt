// The state of a code by line, in steps, so that it is found by halves.
ghost use Rattle.std.specs.Prelude.{◌≡◌, ◌<◌, IfOk, IfSome};
ghost use Rattle.pragma_scope.specs.Timelines.{AscendFrom, merged, merged_pair, over, state_at, steps_from, steps_left, step_over, step_under};

use lint_values::Memory;
use std::alloc::Global;

/// From this line on a code is on, off or neither.
#[derive(Clone, Copy, Debug)]
pub(crate) struct Step {
    pub(crate) line: u64,
    pub(crate) state: Option<bool>,
}

/// Earlier steps and later ones that are not merged yet, with the states that stand before them.
#[derive(Clone, Copy)]
struct Pair<'s> {
    state: Option<bool>,
    earlier: &'s [Step],
    later_state: Option<bool>,
    later: &'s [Step],
}

/// The next of two lists of steps by line, and what is left behind it.
#[derive(Clone, Copy)]
struct Next<'s> {
    step: Step,
    left: Pair<'s>,
}

fn over(earlier: Option<bool>, later: Option<bool>) -> Option<bool>
    ensures { result ≡ over earlier later }
{
    match later {
        None => earlier,
        Some(is_on) => Some(is_on),
    }
}

// The first of the earlier steps is the next.
fn take_earlier<'s>(pair: Pair<'s>, step: Step, rest: &'s [Step]) -> Next<'s>
    ensures step { result.step ≡ step_under step pair.entry.later_state }
    ensures state { result.left.state ≡ step.state }
    ensures earlier { result.left.earlier.now ≡ rest.now }
    ensures later_state { result.left.later_state ≡ pair.entry.later_state }
    ensures later { result.left.later.now ≡ pair.entry.later.now }
{
    Next {
        step: Step {
            line: step.line,
            state: over(step.state, pair.later_state),
        },
        left: Pair {
            state: step.state,
            earlier: rest,
            later_state: pair.later_state,
            later: pair.later,
        },
    }
}

// The first of the later steps is the next.
fn take_later<'s>(pair: Pair<'s>, step: Step, rest: &'s [Step]) -> Next<'s>
    ensures step { result.step ≡ step_over pair.entry.state step }
    ensures state { result.left.state ≡ pair.entry.state }
    ensures earlier { result.left.earlier.now ≡ pair.entry.earlier.now }
    ensures later_state { result.left.later_state ≡ step.state }
    ensures later { result.left.later.now ≡ rest.now }
{
    Next {
        step: Step {
            line: step.line,
            state: over(pair.state, step.state),
        },
        left: Pair {
            state: pair.state,
            earlier: pair.earlier,
            later_state: step.state,
            later: rest,
        },
    }
}

fn next_step<'s>(pair: Pair<'s>) -> Option<Next<'s>>
    ensures value { steps_from result ≡ merged_pair pair.entry }
    ensures shorter { IfSome result (λ next. steps_left next.left < steps_left pair.entry) }
{
    match pair.earlier {
        [] => match pair.later {
            [] => None,
            [step, rest @ ..] => Some(take_later(pair, *step, rest)),
        },
        [step, rest @ ..] => match pair.later {
            [next, others @ ..] if next.line < step.line => Some(take_later(pair, *next, others)),
            _ => Some(take_earlier(pair, *step, rest)),
        },
    }
}

/// Earlier steps and later ones by line: where both say something the later ones count.
pub(crate) fn merged(alloc: Global, earlier: &[Step], later: &[Step]) -> Result<Vec<Step>, Memory>
    ensures { IfOk result (λ steps. steps.items ≡ merged None earlier.now None later.now) }
{
    let mut steps = Vec::new(alloc);
    let mut left = Pair {
        state: None,
        earlier,
        later_state: None,
        later,
    };
    while let Some(next) = next_step(left) {
        steps.push(next.step)?;
        left = next.left;
    }
    Ok(steps)
}

/// The state at a line, in time logarithmic in the number of steps.
pub(crate) fn state_at(steps: &[Step], line: u64) -> Option<bool>
    requires { AscendFrom 0 steps.now }
    ensures { result ≡ state_at steps.now line }
{
    let reached = steps.partition_point(|step| step.line <= line);
    if reached == 0 {
        None
    } else {
        steps[reached - 1].state
    }
}
