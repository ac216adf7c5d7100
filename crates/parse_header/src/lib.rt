//! Headers of compound statements, read from a line: one function for each form of the grammar.
#![tactic(auto)]

mod annotations;
mod cases;
mod definitions;
mod headers;
mod parameters;
mod part;
mod withs;

pub use cases::{case_header, match_header};
pub use definitions::{class_header, function_header};
pub use headers::{decorator_line, except_header, except_star_header, for_header};
pub use withs::{parenthesized_with, plain_with};
