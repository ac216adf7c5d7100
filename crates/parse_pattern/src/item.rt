// What stands between the commas of a pattern.
ghost use Rattle.std.specs.Prelude.{◌≡◌};
ghost use Rattle.py_grammar.specs.Symbols.{set_of};
ghost use Rattle.parse_pattern.specs.Items.{item_first};

use parse_steps::marks::{MAPPING_FIRST, PATTERN_FIRST, SEQUENCE_FIRST};
use py_grammar::Symbol;

/// An item of a list within a pattern.
#[derive(Clone, Copy, Debug, PartialEq, Eq)]
pub enum Item {
    /// An argument of a class pattern.
    ClassArgument,
    /// An element of a sequence pattern.
    OfSequence,
    /// An item of a mapping pattern.
    OfMapping,
}

/// With what an item begins.
pub fn first(item: Item) -> &'static [Symbol]
    ensures { set_of result.now ≡ item_first item }
{
    match item {
        Item::ClassArgument => PATTERN_FIRST,
        Item::OfSequence => SEQUENCE_FIRST,
        Item::OfMapping => MAPPING_FIRST,
    }
}
