//! The made text: a module of as many small classes as `--generate=N` asks for.
#![tactic(auto)]

mod reading;
mod text;

pub use reading::made_reading;
pub use text::made_text;
