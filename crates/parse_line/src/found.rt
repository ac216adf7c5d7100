// What a line is.
use py_grammar::Head;

/// What a line was found to be: its kind, and how many of its trees are parts of its header. The others are its simple
/// statements.
#[derive(Clone, Copy, Debug, PartialEq, Eq)]
pub struct Found {
    pub head: Head,
    pub nodes: usize,
}
