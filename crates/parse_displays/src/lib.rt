//! What brackets hold, read from a line: displays with their clauses, arguments and slices.
#![tactic(auto)]

mod calls;
mod comprehensions;
mod displays;
mod subscripts;

pub use calls::{arguments, call_arguments};
pub use comprehensions::{clauses, targets};
pub use displays::{brace_display, list_display, parenthesized};
pub use subscripts::slices;
