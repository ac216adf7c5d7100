//! The messages on unused names: imports, local variables and parameters that are never read.
#![tactic(auto)]

mod answers;
mod arguments;
mod bodies;
mod classes;
mod exempt;
mod exports;
mod firsts;
mod imports;
mod kinds;
mod known;
mod literals;
mod locals;
mod name_set;
mod quoted;
mod reads;
mod under;
mod unused;
mod variables;

pub use unused::check_unused;
