//! Lints a list of files and reports: the one public call of the program.
#![tactic(auto)]

mod bad_names;
mod command;
mod entries;
mod faults;
mod list;
mod made;
mod messages;
mod shown;
mod source;
mod writing;

pub use check_basic;
pub use command::lint_command;
pub use lint_report;
pub use lint_report::{Answer, OptionsRead, Outcome, Whole};
pub use list::lint_list;
pub use options_file;

#[cfg(test)]
mod tests;
