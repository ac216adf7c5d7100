//! Strings, read from a line: byte strings, and strings with the fields of f-strings.
#![tactic(auto)]

mod inner;
mod parts;

pub use parts::strings;
