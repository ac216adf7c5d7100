//! Blocks: from the logical lines of a file to its one syntax tree, or the first line that stands against a rule.
#![tactic(auto)]

mod building;
mod fault;
mod heads;
mod laws;
mod line;
mod parse;
mod parts;
mod row;
mod rules;
mod standing;
mod taking;
mod waiting;

pub use fault::{BlockCause, BlockError, BlockFault};
pub use laws::{one_tree, some_tree, trees_are_in_shape};
pub use line::Line;
pub use parse::{line_of, parse_rows};
pub use row::BlockRow;
pub use rules::first_fault;
