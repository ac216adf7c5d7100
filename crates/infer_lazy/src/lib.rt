//! The lazy solver: a worklist over the variables that a demand reaches.
#![tactic(auto)]

mod pairs;
mod waiting;
mod worklist;

pub use worklist::work_through;
