//! Patterns, read from a line: one function for each form of the grammar.
#![tactic(auto)]

mod classes;
mod item;
mod lists;
mod literals;
mod mappings;
mod names;
mod opens;
mod order;
mod orders;
mod patterns;
mod sequences;

pub use opens::open_patterns;
pub use patterns::pattern;
