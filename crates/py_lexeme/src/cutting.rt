// A whole text, cut.
ghost use Rattle.std.specs.Prelude.{◌≡◌, ◌<◌, ◌^◌, List, Option, IfOk, length};
ghost use Rattle.py_lexeme.specs.Faults.{IsCut};
ghost use Rattle.py_lexeme.specs.Answers.{Holds};
ghost use Rattle.py_lexeme.specs.declared.piece.Piece.{Piece};
ghost use Rattle.py_lexeme.specs.declared.piece.Stop.{Stop};

use crate::piece::{Cut, Stop};
use crate::scan::piece_of;
use lint_values::Memory;
use std::alloc::Global;

fn cut_up(alloc: Global, cs: &[char]) -> Result<Cut, Memory>
    requires { length cs.now < 2 ^ 32 }
    ensures { IfOk result (λ cut. IsCut cs.now cut.pieces.items cut.stop) }
{
    let mut pieces = Vec::new(alloc);
    let mut rest = cs;
    while !rest.is_empty() {
        let piece = match piece_of(rest) {
            Ok(piece) => piece,
            Err(fault) => {
                let place = (cs.len() - rest.len()) as u32 + fault.place;
                let stop = Some(Stop {
                    cause: fault.cause,
                    place,
                });
                return Ok(Cut { pieces, stop });
            }
        };
        pieces.push(piece)?;
        rest = rest.split_at(piece.len as usize).1;
    }
    Ok(Cut { pieces, stop: None })
}

/// Cuts the characters of a source, of which there are fewer than 2^32. Each answer but want of memory is the one cut of the text.
pub fn cut(alloc: Global, cs: &[char]) -> Result<Cut, Memory>
    requires { length cs.now < 2 ^ 32 }
    // What is given is the text, cut up to its first fault.
    ensures is_cut { IfOk result (λ cut. IsCut cs.now cut.pieces.items cut.stop) }
    // And whatever is the text so cut is given.
    ensures every { (pieces : List Piece) (stop : Option Stop) → IsCut cs.now pieces stop → IfOk result (λ cut. Holds cut pieces stop) }
{
    cut_up(alloc, cs)
}
