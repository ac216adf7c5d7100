//! The layout layer: brackets, logical lines, indentation levels, and the first fault among them.
#![tactic(auto)]

mod blank;
mod bracket;
mod comment;
mod fault;
mod first;
mod indentation;
mod item;
mod logical;

pub use blank::widths_of;
pub use comment::is_head_behind;
pub use fault::{IndentationCause, ItemCause, LayoutCause, LayoutFault};
pub use first::layout;
pub use item::{Bracket, Item, Widths};
pub use logical::Logical;
