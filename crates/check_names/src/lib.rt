//! The messages on names.
#![tactic(auto)]

mod asked;
mod file;
mod globals;
mod guards;
mod kinds;
mod locals;
mod nodes;
mod public;
mod redefined;
mod rules;
mod truth;
mod undefined;
mod wildcards;

pub use file::check;
