//! Pragmas: comments that switch messages on and off on some lines, or have a file skipped.
#![tactic(auto)]

mod action;
mod block;
mod comment;
mod cursor;
mod kind;
mod logical;
mod nesting;
mod pragmas;
mod region;
mod row;
mod skip;
mod state;
mod step;
mod timeline;

pub use pragmas::Pragmas;
pub use row::BadName;
pub use skip::skip_file;
