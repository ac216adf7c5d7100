//! Class orders: the C3 linearization of classes that are given by the numbers of their bases.
#![tactic(auto)]

mod counts;
mod linearization;
mod merge;
mod reached;
mod remaining;
mod row;

pub use linearization::linearize;
pub use row::{Order, Row, bases_are_below};
