//! Solvers of equations over sets of abstract values, and tables of solved sets.
#![tactic(auto)]

mod frozen;
mod laws;
mod overlay;
mod rows;
mod solver;
mod threads;

pub use frozen::Frozen;
pub use infer_equations::{Equations, Steps, View, least_solves};
pub use infer_plain::Plain;
pub use laws::{costs_add_up, merges_count_few, reach_goes_on, rows_compose};
pub use overlay::Overlay;
pub use rows::demand_all;
pub use solver::Solver;
pub use threads::tables_cross_threads;
