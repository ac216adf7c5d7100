//! The steps of the parser: what stands at a place of a line, a token that is passed, and a token that becomes a leaf.
#![tactic(auto)]

mod leaves;
pub mod marks;
mod steps;

pub use leaves::{show_atom, show_named, show_operator, show_plain};
pub use steps::{behind, skip};
