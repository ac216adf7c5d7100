// The stack of indentation.
ghost use Rattle.std.specs.Prelude.{◌≡◌, ◌<◌, ◌≤◌, length, reverse, take, vec_len, MatchResult, OnOk, Ok, Err};
ghost use Rattle.py_layout.specs.Indentation.{enter, leave};
ghost use Rattle.py_layout.specs.Answers.{Enters};

use crate::fault::IndentationCause;
use crate::item::Widths;

#[derive(Debug, Drop)]
pub(crate) enum EnterFault {
    Cause(IndentationCause),
    Memory,
}

/// How many entries are left of the stack where it goes back to the line's first width.
fn leave(stack: &[Widths], line: Widths) -> Result<usize, IndentationCause>
    ensures { MatchResult result
        (λ n. (0 < n) × (n ≤ length stack.now) × (leave (reverse stack.now) line ≡ Ok (reverse (take n stack.now))))
        (λ cause. leave (reverse stack.now) line ≡ Err cause) }
{
    let mut rest = stack;
    while let [front @ .., top] = rest {
        if line.wide == top.wide {
            return if line.narrow == top.narrow {
                Ok(rest.len())
            } else {
                Err(IndentationCause::TabMix)
            };
        }
        if top.wide < line.wide {
            return Err(IndentationCause::Dedent);
        }
        rest = front;
    }
    Err(IndentationCause::Dedent)
}

/// Takes the stack, whose innermost entry is the last, behind the next line's indentation.
pub(crate) fn enter(stack: &mut Vec<Widths>, line: Widths) -> Result<(), EnterFault>
    requires { vec_len stack.old ≤ 100 }
    ensures answer { Enters result (enter (reverse stack.old.items) line) (reverse stack.new.items) }
    ensures some { OnOk result (0 < vec_len stack.new) }
    ensures few { OnOk result (vec_len stack.new ≤ 100) }
{
    match stack.as_slice().last() {
        Some(top) if top.wide < line.wide => {
            if line.narrow <= top.narrow {
                return Err(EnterFault::Cause(IndentationCause::TabMix));
            }
            if stack.len() == 100 {
                return Err(EnterFault::Cause(IndentationCause::TooDeep));
            }
            if stack.push(line).is_err() {
                return Err(EnterFault::Memory);
            }
            Ok(())
        }
        _ => match leave(stack.as_slice(), line) {
            Ok(n) => {
                stack.truncate(n);
                Ok(())
            }
            Err(cause) => Err(EnterFault::Cause(cause)),
        },
    }
}
