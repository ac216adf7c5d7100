//! The report of what was found, the score, the exit status, and how a command ends.
#![tactic(auto)]

mod findings;
mod outcome;
mod rating;
mod report;
mod scores;
mod statuses;
mod summary;
mod usage;

pub use findings::Findings;
pub use outcome::{Answer, OptionsRead, Outcome, Whole};
pub use rating::text;
pub use report::ReportLines;
pub use scores::{Quotient, exact_score, score};
pub use statuses::status;
pub use summary::summary_text;
pub use usage::usage_text;
