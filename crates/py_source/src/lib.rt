//! The source layer: from a file's bytes to its text, its physical lines, and places in it.
#![tactic(auto)]

mod bytes;
mod coding;
mod decoding;
mod lines;
mod place;
mod span;
mod text;

pub use decoding::{SourceCause, SourceFault, decode, without_mark};
pub use lines::physical;
pub use place::{advance, pos_at};
pub use span::{Span, slice};
pub use text::{byte_len, characters};

#[cfg(test)]
mod tests;
