//! Parts of expressions, read from a line: what stands between commas, and what stands again and again.
#![tactic(auto)]

mod arguments;
mod elements;
mod entries;
mod lists;
mod nested;
mod parameters;
mod parts;
mod rounds;
mod slices;

pub use arguments::{plain_argument, starred_argument};
pub use elements::{element, marked, maybe_test, named, pair, star, target_item};
pub use entries::{item_or_named, unpacked};
pub use lists::{comma_rest, list, maybe_comma_rest, maybe_sx, sx, tupled, yield_};
pub use nested::descend;
pub use parts::Part;
pub use rounds::{Round, again};
