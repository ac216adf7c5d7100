// Why a line was not read.
use fstr_parse::FieldFault;

/// Why a line was not read.
#[derive(Clone, Copy, Debug, PartialEq, Eq)]
pub enum LineFault {
    /// The line has terminals, and no form fits them.
    NoForm,
    /// The pieces of one of its f-strings are refused, for another cause than memory.
    Field(FieldFault),
    /// Memory ran out.
    Memory,
}
