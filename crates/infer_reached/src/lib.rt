//! The variables that a solver reaches: evaluated under two tables, added once they are read, and given sets that rise.
#![tactic(auto)]

mod reached;
mod visit;

pub use reached::{add_all, add_one, raise};
pub use visit::{Visit, evaluate};
