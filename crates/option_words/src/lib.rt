//! The table of the options: their long names, and what the value of each may be.
#![tactic(auto)]

mod lists;
mod option_name;
mod value;

pub use lists::{are_message_names, fits, parts};
pub use option_name::{ALL_OPTIONS, Kind, OptionName};
pub use value::{hundredths, is_no, is_up_to_ten, is_within, is_yes, number};
