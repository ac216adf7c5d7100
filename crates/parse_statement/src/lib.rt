//! Simple statements, read from a line: one function for each form of the grammar.
#![tactic(auto)]

mod declarations;
mod expressions;
mod keywords;
mod listed;
mod names;
mod part;
mod raises;
mod round;
mod targets;
mod texts;
mod values;
mod words;

pub use listed::statements;
pub use names::{as_name, maybe_as_name};
pub use values::annotation;
