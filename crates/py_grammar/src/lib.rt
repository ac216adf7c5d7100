//! The grammar of a logical line of Python 3.11: which tokens spell which syntax trees, as a definition with its laws.
#![tactic(auto)]

mod entry;
mod head;
mod laws;
mod stage;
mod symbol;

pub use entry::Entry;
pub use head::Head;
pub use laws::{lines_are_in_shape, lines_are_read, lines_are_unique};
pub use stage::Stage;
pub use symbol::Symbol;
