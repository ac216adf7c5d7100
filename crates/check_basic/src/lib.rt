//! The checks of a source's lines, and of its tree.
#![tactic(auto)]

mod docstrings;
mod imports;
mod kinds;
mod lines;
mod logical;
mod nodes;
mod passes;
mod rules;
mod setters;
mod source;
mod tree;

pub use source::check_lines;
pub use tree::{check_tree, statements};
