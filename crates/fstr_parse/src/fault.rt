// Why an f-string has no pieces.
ghost use Rattle.std.specs.Prelude.{◌≡◌};

use lint_values::Memory;

/// Why an f-string has no pieces.
#[derive(Clone, Copy, Debug, PartialEq, Eq)]
pub enum FieldFault {
    /// A backslash in an expression, also within its strings.
    Backslash,
    /// A `#` in an expression, outside its strings.
    Comment,
    /// The text ends within a field.
    Unclosed,
    /// An expression of nothing but blanks and line ends.
    EmptyField,
    /// A conversion other than `!r`, `!s` and `!a`.
    BadConversion,
    /// A single `}` outside fields.
    LoneBrace,
    /// A field in a format in a format.
    TooNested,
    /// Memory ran out.
    Memory,
}

impl From<Memory> for FieldFault {
    ghost use Rattle.fstr_parse.specs.declared.fault.FieldFault.TheVariants as variant;

    ghost from_gives = { λ _ fault. fault ≡ variant.Memory };

    fn from(_: Memory) -> Self {
        FieldFault::Memory
    }
}
