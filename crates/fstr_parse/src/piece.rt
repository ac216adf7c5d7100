// The pieces of an f-string.
ghost use Rattle.std.specs.Prelude.{◌≡◌, ◌++◌, [], ◌∷◌, OnOk, OnErr};

use lint_values::Memory;
use std::alloc::Global;
use std::marker::Model;

/// A literal part or a field of an f-string.
#[derive(Clone, Copy, Debug, PartialEq, Eq)]
pub struct Piece {
    /// Whether it is a field.
    pub field: bool,
    /// Where the literal part's text, or the field's expression, begins: a byte place.
    pub start: u32,
    /// Where it ends: the byte place behind it.
    pub end: u32,
    /// How many formats stand around it.
    pub depth: u8,
    /// The letter of the field's conversion, and 0 where there is none.
    pub convert: u8,
}

/// The pieces of an f-string, in the order in which they begin. Contracts see them as a list.
#[derive(Debug, Drop)]
pub struct Pieces {
    pieces: Vec<Piece>,
}

impl Model for Pieces {
    ghost use Rattle.std.specs.Prelude.{List};
    ghost use Rattle.fstr_parse.specs.declared.piece.Piece.{Piece};

    ghost Value = { List Piece };

    ghost view = { λ p. p.pieces.items };
}

impl Pieces {
    pub fn new(alloc: Global) -> Pieces
        ensures { result ≡ [] }
    {
        Pieces {
            pieces: Vec::new(alloc),
        }
    }

    /// Takes pieces over, with their memory.
    pub fn from_vec(pieces: Vec<Piece>) -> Pieces
        ensures { result ≡ pieces.items }
    {
        Pieces { pieces }
    }

    /// The pieces themselves, with their memory.
    pub fn into_vec(self) -> Vec<Piece>
        ensures { result.items ≡ self }
    {
        let Pieces { pieces } = self;
        pieces
    }

    /// Adds a piece behind the others.
    pub fn push(&mut self, piece: Piece) -> Result<(), Memory>
        ensures ok { OnOk result (self.new ≡ self.old ++ piece ∷ []) }
        ensures err { OnErr result (self.new ≡ self.old) }
    {
        self.pieces.push(piece)?;
        Ok(())
    }

    pub fn as_slice(&self) -> &[Piece]
        ensures { result.now ≡ self.now }
    {
        self.pieces.as_slice()
    }
}
