//! Whole sources of Python 3.11: from their tokens to the one syntax tree, or the first line that is at fault.
#![tactic(auto)]

mod docstring;
mod fault;
mod kept;
mod laws;
mod place;
mod read;
mod row;
mod source;

pub use fault::{LineCause, SyntaxCause, SyntaxFault};
pub use laws::{one_fault, one_tree, tree_or_fault};
pub use source::parse;
