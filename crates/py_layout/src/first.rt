// The layout, or its first fault.
ghost use Rattle.std.specs.Prelude.{◌≡◌, ◌<◌, ℕ, List, length, IfOk, IfErr, Ok, Err};
ghost use Rattle.py_layout.specs.FirstFault.{FaultsOnly, GivesOnly, IsFirstFault, IsLaidOut, OnFault};
ghost use Rattle.py_layout.specs.Indentation.{ground, levelled};
ghost use Rattle.py_layout.specs.LogicalLines.{lines_of};
ghost use Rattle.py_layout.specs.Answers.{earlier, item_fault};
ghost use Rattle.py_layout.specs.declared.logical.Logical.{Logical};
ghost use Rattle.py_layout.specs.declared.fault.LayoutCause.{LayoutCause};

use crate::bracket::{BracketFault, left_open};
use crate::fault::{IndentationCause, LayoutCause, LayoutFault};
use crate::item::Item;
use crate::logical::{LineFault, Logical, lines_of};
use std::alloc::Global;

fn item_fault(fault: BracketFault) -> LayoutFault
    ensures { result ≡ item_fault fault }
{
    match fault {
        BracketFault::At(n, cause) => LayoutFault::At(n, LayoutCause::AtItem(cause)),
        BracketFault::Memory => LayoutFault::Memory,
    }
}

fn earlier(place: usize, cause: IndentationCause, other: LayoutFault) -> LayoutFault
    ensures { result ≡ earlier place cause other }
{
    match other {
        LayoutFault::At(n, found) if n < place => LayoutFault::At(n, found),
        LayoutFault::At(_, _) => LayoutFault::At(place, LayoutCause::AtLine(cause)),
        LayoutFault::Memory => LayoutFault::Memory,
    }
}

/// The first fault where each line has a level: that of an item, or an open bracket; or none.
#[tactic(auto, using(crate::proofs::FirstLaws::item_first, crate::proofs::FirstLaws::item_fault_within))]
fn close(alloc: Global, items: &[Item], lines: Vec<Logical>) -> Result<Vec<Logical>, LayoutFault>
    requires { levelled ground (lines_of items.now) ≡ Ok lines.items }
    ensures lines { IfOk result (λ found. IsLaidOut items.now found.items) }
    ensures fault { IfErr result (OnFault (IsFirstFault items.now)) }
    ensures within { IfErr result (OnFault (λ n _. n < length items.now)) }
{
    match left_open(alloc, items) {
        Ok(opened) => match opened.as_slice() {
            [] => Ok(lines),
            [outermost, ..] => Err(LayoutFault::At(outermost.place, LayoutCause::OpenBracket)),
        },
        Err(fault) => Err(item_fault(fault)),
    }
}

/// The first fault where a line has no level.
#[tactic(auto, using(crate::proofs::FirstLaws::line_first, crate::proofs::FirstLaws::earlier_first, crate::proofs::FirstLaws::earlier_within))]
fn line_fault(alloc: Global, items: &[Item], place: usize, cause: IndentationCause) -> LayoutFault
    requires fault { levelled ground (lines_of items.now) ≡ Err (place, cause) }
    requires within { place < length items.now }
    ensures first { OnFault (IsFirstFault items.now) result }
    ensures within { OnFault (λ n _. n < length items.now) result }
{
    match left_open(alloc, items) {
        Ok(_) => return LayoutFault::At(place, LayoutCause::AtLine(cause)),
        Err(fault) => return earlier(place, cause, item_fault(fault)),
    }
}

fn laid_out(alloc: Global, items: &[Item]) -> Result<Vec<Logical>, LayoutFault>
    ensures lines { IfOk result (λ lines. IsLaidOut items.now lines.items) }
    ensures fault { IfErr result (OnFault (IsFirstFault items.now)) }
    ensures within { IfErr result (OnFault (λ n _. n < length items.now)) }
{
    match lines_of(alloc, items) {
        Ok(lines) => close(alloc, items, lines),
        Err(LineFault::At(place, cause)) => Err(line_fault(alloc, items, place, cause)),
        Err(LineFault::Memory) => Err(LayoutFault::Memory),
    }
}

/// The logical lines of the items with their levels, or the first fault, by the number of the item where it stands. The
/// items are those of a whole text, or those up to the place where no piece could be read, with a stop there.
pub fn layout(alloc: Global, items: &[Item]) -> Result<Vec<Logical>, LayoutFault>
    // What is given is the layout.
    ensures lines { IfOk result (λ lines. IsLaidOut items.now lines.items) }
    // Where there is one it is given, unless memory runs out.
    ensures every { (lines : List Logical) → IsLaidOut items.now lines → GivesOnly result lines }
    // A fault stands first where it is said.
    ensures fault { IfErr result (OnFault (IsFirstFault items.now)) }
    ensures within { IfErr result (OnFault (λ n _. n < length items.now)) }
    // And where one does it is answered.
    ensures every_fault { (n : ℕ) (cause : LayoutCause) → IsFirstFault items.now n cause → FaultsOnly result n cause }
{
    laid_out(alloc, items)
}
