//! The lexemes of Python 3.11: a text is cut into names, keywords, numbers, strings, operators and what stands between
//! them, up to the first lexical fault.
#![tactic(auto)]

mod characters;
mod cutting;
mod identifiers;
mod literals;
mod numbers;
mod operators;
mod piece;
mod scan;
mod tables;

pub use cutting::cut;
pub use piece::{Cause, Cut, Kind, Piece, Stop};
