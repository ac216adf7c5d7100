// What was found at a path, before files are read.
use lint_values::Text;

/// What a path turned out to be, by looks and listings alone.
#[derive(Clone, Copy, Debug)]
pub enum Finding {
    /// A file that is still to be read.
    File,
    Missing,
    NoPackage,
    /// A look or a listing failed.
    Failed,
    TooMany,
    TooDeep,
}

/// An entry of a reading before its file is read.
#[derive(Debug, Drop)]
pub struct Found {
    pub path: Text,
    pub module_name: Text,
    pub is_package: bool,
    pub finding: Finding,
}
