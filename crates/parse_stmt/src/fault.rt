// Why tokens spell no tree.
ghost use Rattle.std.specs.Prelude.{◌≡◌};

use fstr_parse::FieldFault;
use lint_values::Memory;

/// Why a logical line has no form.
#[derive(Clone, Copy, Debug, PartialEq, Eq)]
pub enum LineCause {
    /// No form fits its tokens.
    NoForm,
    /// The pieces of one of its f-strings are refused.
    Field(FieldFault),
}

/// Why a logical line is at fault. At one line `Line` counts before `Unexpected`, that before `NeedsBlock`, and that before
/// `Follows`.
#[derive(Clone, Copy, Debug, PartialEq, Eq)]
pub enum SyntaxCause {
    /// A line without a form.
    Line(LineCause),
    /// A clause without its opener, or what must be followed by something else: a lone `try`, a decorator.
    Follows,
    /// A header without its block, or a line in the block of a `match` that is no `case`.
    NeedsBlock,
    /// A line that is deeper than the line before, where no block was opened.
    Unexpected,
}

/// Why tokens spell no tree.
#[derive(Clone, Copy, Debug, PartialEq, Eq)]
pub enum SyntaxFault {
    /// The first physical line of the first logical line at fault, and its first cause.
    At { line: u32, cause: SyntaxCause },
    /// Memory ran out.
    Memory,
}

impl From<Memory> for SyntaxFault {
    ghost use Rattle.parse_stmt.specs.declared.fault.SyntaxFault.TheVariants as variant;

    ghost from_gives = { λ _ fault. fault ≡ variant.Memory };

    fn from(_: Memory) -> Self {
        SyntaxFault::Memory
    }
}
