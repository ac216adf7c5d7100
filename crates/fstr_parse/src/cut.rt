// A whole f-string, cut.
ghost use Rattle.std.specs.Prelude.{◌≢◌, ◌<◌, ◌^◌, length, List, ℕ, IfOk, IfErr};
ghost use Rattle.fstr_parse.specs.Pieces.{IsCut, IsFirstFault, IsInOrder};
ghost use Rattle.fstr_parse.specs.Answers.{GivesOnly, FaultsOnly};
ghost use Rattle.fstr_parse.specs.declared.piece.Piece.{Piece};
ghost use Rattle.fstr_parse.specs.declared.fault.FieldFault.{FieldFault};

use crate::part::{depth_behind, part_at, part_len, push_piece};
use crate::{FieldFault, Pieces};
use std::alloc::Global;

/// The pieces of an f-string whose quotes hold this text, or its first fault. `raw` says that its prefix has an `r`,
/// so that `\N{` does not begin the name of a character.
pub fn pieces(alloc: Global, literal: &str, raw: bool) -> Result<Pieces, FieldFault>
    requires { length literal.now < 2 ^ 32 }
    // What is given are the pieces of the text.
    ensures sound { IfOk result (λ given. IsCut raw literal.now given) }
    // Where it has pieces, those are given, unless memory runs out.
    ensures complete { (all : List Piece) → IsCut raw literal.now all → GivesOnly result all }
    // A fault is the first that stands in the text.
    ensures fault { IfErr result
        (λ fault. fault ≢ FieldFault.Memory → (place : ℕ) × IsFirstFault raw literal.now place fault) }
    // And where one stands first it is answered, unless memory runs out.
    ensures every_fault { (place : ℕ) (fault : FieldFault) →
        IsFirstFault raw literal.now place fault → FaultsOnly result fault }
    // Pieces can be sliced out, one behind the other, and fields stand in one format at most.
    ensures in_order { IfOk result (λ given. IsInOrder literal.now given) }
{
    let text = literal.as_bytes();
    let mut pieces = Pieces::new(alloc);
    let mut rest = text;
    let mut depth = 0;
    while let Some(part) = part_at(raw, depth, rest)? {
        push_piece(&mut pieces, part, text.len() - rest.len(), depth)?;
        depth = depth_behind(depth, part);
        rest = rest.split_at(part_len(part)).1;
    }
    Ok(pieces)
}
