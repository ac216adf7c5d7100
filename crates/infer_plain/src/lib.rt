//! The plain solver: the least solution by rounds over the variables that are reached.
#![tactic(auto)]

mod plain;

pub use plain::Plain;
