//! A logical line as the grammar reads it: its terminal symbols, each with its place and its text.
#![tactic(auto)]

mod line;

pub use line::{Line, Stretch};
