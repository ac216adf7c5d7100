// Why a line has no terminals.
ghost use Rattle.std.specs.Prelude.{◌≡◌, ◌≢◌};
ghost use Rattle.py_terminals.specs.Answers.{OnField};
ghost use Rattle.fstr_parse.specs.declared.fault.FieldFault as field;

use fstr_parse::FieldFault;
use lint_values::Memory;

/// Why a line has no terminals.
#[derive(Clone, Copy, Debug, PartialEq, Eq)]
pub enum LineFault {
    /// The pieces of one of its f-strings are refused, for another cause than memory.
    Field(FieldFault),
    /// Memory ran out.
    Memory,
}

impl From<Memory> for LineFault {
    ghost use Rattle.py_terminals.specs.declared.fault.LineFault.TheVariants as variant;

    ghost from_gives = { λ _ fault. fault ≡ variant.Memory };

    fn from(_: Memory) -> Self {
        LineFault::Memory
    }
}
