//! The tokens of Python 3.11: a source is read as tokens, logical lines, comments and physical lines, or its first fault.
#![tactic(auto)]

mod fault;
mod forms;
mod item;
mod scan;
mod setting;
mod token;
mod tokens;
mod whole;

pub use fault::{TokenCause, TokenFault};
pub use py_layout::Logical;
pub use py_source::Span;
pub use token::{Comment, Token, TokenKind};
pub use tokens::Tokens;
pub use whole::{tokenize, tokenize_field};
