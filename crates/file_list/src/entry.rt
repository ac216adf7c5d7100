// What a path turned out to be.
use lint_values::{Bytes, Text};

/// What a path turned out to be.
#[derive(Debug, Drop)]
pub enum Entry {
    /// A file's bytes.
    Source(Bytes),
    Missing,
    /// A folder that is not walked.
    NoPackage,
    /// A look, a read or a listing failed.
    Failed,
    /// A file with more than 4,194,304 bytes.
    TooLarge,
    /// More than 20,000 entries, or a folder with more names.
    TooMany,
    /// A folder more than 32 below its argument.
    TooDeep,
    /// A file past 67,108,864 bytes in all.
    TooMuch,
}

/// One entry of a reading: its path as it is reported, its dotted module name, whether it is a package's
/// `__init__.py`, and what it turned out to be.
#[derive(Debug, Drop)]
pub struct Listed {
    pub path: Text,
    pub module_name: Text,
    pub is_package: bool,
    pub entry: Entry,
}
