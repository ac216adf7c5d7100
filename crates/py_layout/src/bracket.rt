// Which brackets stand open.
ghost use Rattle.std.specs.Prelude.{◌≡◌, length};
ghost use Rattle.py_layout.specs.Brackets.{left_open};
ghost use Rattle.py_layout.specs.Answers.{AreWithin, LeavesOpen};

use crate::fault::ItemCause;
use crate::item::{Bracket, Item};
use std::alloc::Global;

/// An open bracket, with the number of its item.
#[derive(Clone, Copy, Debug)]
pub(crate) struct Opened {
    pub(crate) bracket: Bracket,
    pub(crate) place: usize,
}

#[derive(Debug, Drop)]
pub(crate) enum BracketFault {
    At(usize, ItemCause),
    Memory,
}

/// The brackets that the items leave open, the outermost first.
pub(crate) fn left_open(alloc: Global, items: &[Item]) -> Result<Vec<Opened>, BracketFault>
    ensures value { LeavesOpen result (left_open items.now) }
    ensures within { AreWithin result (length items.now) }
{
    let mut opened: Vec<Opened> = Vec::new(alloc);
    for (place, item) in items.iter().enumerate() {
        match *item {
            Item::Open(bracket) => {
                if opened.len() == 200 {
                    return Err(BracketFault::At(place, ItemCause::TooDeep));
                }
                if opened.push(Opened { bracket, place }).is_err() {
                    return Err(BracketFault::Memory);
                }
            }
            Item::Close(bracket) => match opened.pop() {
                Some(innermost) if innermost.bracket == bracket => {}
                _ => return Err(BracketFault::At(place, ItemCause::CloseBracket)),
            },
            Item::Stop => return Err(BracketFault::At(place, ItemCause::Stopped)),
            _ => {}
        }
    }
    Ok(opened)
}
