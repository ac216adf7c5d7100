// The classes that a class reaches by its bases.
ghost use Rattle.std.specs.Prelude.{◌≡◌, ◌+◌, ◌<◌, ℕ, All, IfOk, false, length, replicate};
ghost use Rattle.mro_c3.specs.Order.{BasesAreBelow};
ghost use Rattle.mro_c3.specs.Table.{Marks, MarksReached};

use crate::row::Row;
use lint_values::Memory;
use std::alloc::Global;

/// Which of the classes up to a class are reached from it: itself and its ancestors.
pub(crate) fn reached_from(alloc: Global, rows: &[Row], k: usize) -> Result<Vec<bool>, Memory>
    requires below { BasesAreBelow rows.now }
    requires known { k < length rows.now }
    ensures { IfOk result (λ marks. MarksReached rows.now k marks.items) }
{
    let mut marks = vec![in alloc; false; k + 1]?;
    mark_reached(&mut marks, rows, k);
    Ok(marks)
}

/// Marks the class and its ancestors. As bases have smaller numbers, one pass downwards finds them all.
fn mark_reached(marks: &mut [bool], rows: &[Row], k: usize)
    requires below { BasesAreBelow rows.now }
    requires known { k < length rows.now }
    requires unmarked { marks.old ≡ replicate (k + 1) false }
    ensures { MarksReached rows.now k marks.new }
{
    marks[k] = true;
    for class in (0..k + 1).rev() {
        if marks[class] {
            mark(marks, rows[class].as_slice());
        }
    }
}

fn mark(marks: &mut [bool], classes: &[usize])
    requires { All (λ n. n < length marks.old) classes.now }
    ensures { Marks classes.now marks.old marks.new }
{
    for class in classes {
        marks[*class] = true;
    }
}
