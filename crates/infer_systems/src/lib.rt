//! Small systems of equations, one rule a variable, on which the solvers are tried.
#![tactic(auto)]

mod counted;
mod rule;
mod system;

pub use counted::Counted;
pub use rule::Rule;
pub use system::System;

#[cfg(test)]
mod tests;
