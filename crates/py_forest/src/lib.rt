//! Trees in the making: what a parser has read so far, as a list of trees whose rows a builder keeps.
#![tactic(auto)]

mod brackets;
mod changes;
mod fault;
mod forest;
mod kinds;
mod parameters;
mod targets;
mod texts;
mod top;

pub use fault::Fault;
pub use forest::Forest;
pub use top::Top;
