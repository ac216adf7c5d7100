// What crosses threads.
ghost use Rattle.std.specs.Thread.{IsSend, IsSync};
ghost use Rattle.infer_core.specs.contracts.frozen.Frozen as frozen;
ghost use Rattle.infer_core.specs.contracts.overlay.Overlay as overlay;

use crate::frozen::Frozen;
use crate::overlay::Overlay;

// What may be handed to a thread, and lent to several at once.
fn crosses<T: Send + Sync>(_value: &T)
    ensures { IsSend T.row × IsSync T.row }
{}

/// A frozen table and an overlay may be handed to a thread, and lent to several at once.
pub fn tables_cross_threads(base: &Frozen, solved: &Overlay)
    ensures base { IsSend frozen.the_row × IsSync frozen.the_row }
    ensures solved { IsSend overlay.the_row × IsSync overlay.the_row }
{
    crosses(base);
    crosses(solved);
}
