//! The words of the command line, and the options that they give.
#![tactic(auto)]

mod edits;
mod file;
mod form;
mod generate;
mod line;
mod settings;
mod switches;
mod usage;
mod words;

pub use edits::{Edit, Edits};
pub use file::read_toml;
pub use line::Line;
pub use settings::Options;
pub use usage::UsageFault;
pub use words::read_words;
