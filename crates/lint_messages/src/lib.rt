//! The messages of the linter: their codes, texts and places, and the order in which they are reported.
#![tactic(auto)]

mod code;
mod message;
mod messages;
mod order;
mod selection;
mod template;

pub use code::{ALL_CODES, Code};
pub use message::Message;
pub use messages::Messages;
pub use selection::Selection;
pub use template::message_text;
