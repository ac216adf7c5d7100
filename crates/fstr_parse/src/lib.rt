//! The inside of an f-string of Python 3.11, cut into its literal parts and its fields.
#![tactic(auto)]

mod bytes;
mod cut;
mod expression;
mod fault;
mod field;
mod literal;
mod part;
mod piece;

pub use cut::pieces;
pub use fault::FieldFault;
pub use piece::{Piece, Pieces};
