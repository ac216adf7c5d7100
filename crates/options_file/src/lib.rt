//! The options file: which is read, and the options that it and the words give.
#![tactic(auto)]

mod reading;
mod settings;

pub use reading::read_options;
pub use settings::read_settings;
