//! Whole lines: the knot of phrases within phrases, and what a line is.
#![tactic(auto)]

mod forms;
mod found;
mod header;
mod headers;
mod knot;
mod lines;
mod nesting;

pub use found::Found;
pub use knot::phrase;
pub use lines::read;
