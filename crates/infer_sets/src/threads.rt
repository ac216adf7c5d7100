// What crosses threads.
ghost use Rattle.std.specs.Thread.{IsSend, IsSync};
ghost use Rattle.infer_sets.specs.contracts.abs_val.AbsVal as val;
ghost use Rattle.infer_sets.specs.contracts.abs_set.AbsSet as one;
ghost use Rattle.infer_sets.specs.contracts.set_table.SetTable as many;

use crate::abs_set::AbsSet;
use crate::abs_val::AbsVal;
use crate::set_table::SetTable;

// What may be handed to a thread, and lent to several at once.
fn crosses<T: Send + Sync>(_value: &T)
    ensures { IsSend T.row × IsSync T.row }
{}

/// A value, a set and a table of sets may be handed to a thread, and lent to several at once.
pub fn sets_cross_threads(value: &AbsVal, set: &AbsSet, table: &SetTable)
    ensures value { IsSend val.the_row × IsSync val.the_row }
    ensures set { IsSend one.the_row × IsSync one.the_row }
    ensures table { IsSend many.the_row × IsSync many.the_row }
{
    crosses(value);
    crosses(set);
    crosses(table);
}
