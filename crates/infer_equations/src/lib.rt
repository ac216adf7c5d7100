//! Equations over sets of abstract values, what one evaluation of a right side sees, and tables of sets kept once.
#![tactic(auto)]

mod copies;
mod equations;
mod ids;
mod keep;
mod laws;
mod look;
mod steps;
mod table;
mod view;

pub use equations::Equations;
pub use laws::least_solves;
pub use steps::Steps;
pub use table::Table;
pub use view::View;
