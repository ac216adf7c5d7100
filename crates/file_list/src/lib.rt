//! Files and folders: which are read, and what was found.
#![tactic(auto)]

mod contents;
mod entry;
mod findings;
mod found;
mod gathering;
mod known;
mod packages;
mod paths;
mod reading;
mod walking;

pub use contents::MAX_FILE_BYTES;
pub use entry::{Entry, Listed};
pub(crate) use found::{Finding, Found};
pub use gathering::gather;
pub use reading::Reading;
