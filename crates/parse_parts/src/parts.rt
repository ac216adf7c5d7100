// What stands between commas.
ghost use Rattle.std.specs.Prelude.{◌≡◌};
ghost use Rattle.py_grammar.specs.Symbols.{set_of};
ghost use Rattle.parse_parts.specs.Parts.{part_first};

use parse_steps::marks::{
    ARGUMENT_FIRST, BRACE_FIRST, ELEMENT_FIRST, PARAMETER_FIRST, SLICES_FIRST, TARGET_FIRST,
};
use py_grammar::Symbol;

/// A kind of part that commas divide.
#[derive(Clone, Copy, Debug, PartialEq, Eq)]
pub enum Part {
    /// Of a display.
    Element,
    /// Of a bare tuple.
    SxItem,
    /// Of a dictionary or of a set.
    BraceEntry,
    /// Of a call.
    Argument,
    /// Of a subscription.
    SlicesItem,
    /// Of what is bound.
    TargetItem,
    /// Of a lambda.
    LambdaParameter,
}

/// With what a part begins.
pub fn first(part: Part) -> &'static [Symbol]
    ensures { set_of result.now ≡ part_first part }
{
    match part {
        Part::Element | Part::SxItem => ELEMENT_FIRST,
        Part::BraceEntry => BRACE_FIRST,
        Part::Argument => ARGUMENT_FIRST,
        Part::SlicesItem => SLICES_FIRST,
        Part::TargetItem => TARGET_FIRST,
        Part::LambdaParameter => PARAMETER_FIRST,
    }
}
