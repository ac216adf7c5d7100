//! Expressions, read from a line: one function for each form of the grammar.
#![tactic(auto)]

mod comparisons;
mod conditionals;
mod lambdas;
mod level;
mod operators;
mod powers;
mod primaries;
mod rows;
mod signs;

pub use conditionals::test;
pub use operators::{bit_or, not, or};
pub use signs::factor;

#[cfg(test)]
mod tests;
