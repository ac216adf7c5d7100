//! The messages on the flow of statements, and on the size of functions.
#![tactic(auto)]

mod check;
mod codes;
mod counts;
mod definition;
mod handlers;
mod jumps;
mod kinds;
mod nodes;
mod owners;
mod redefined;
mod repeated;
mod returns;
mod rule;
mod size;
mod sizes;
mod tables;
mod totals;
mod unreachable;

pub use check::check_flow;

#[cfg(test)]
mod tests;
