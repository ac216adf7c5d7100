//! The terminal symbols of a logical line of Python 3.11, from its tokens, those of the fields of its f-strings included.
#![tactic(auto)]

mod fault;
mod field;
mod line;
mod place;
mod reading;
mod spelling;
mod string;
mod token;

pub use fault::LineFault;
pub use line::{depth, terminals};
pub use place::end_line_of;
