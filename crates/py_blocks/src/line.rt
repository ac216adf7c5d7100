// What the rules of blocks see of a logical line.
use py_grammar::Head;

/// A logical line to the rules of blocks: its kind, its level from 0, and whether it opens a block, as a header without
/// statements behind its `:` does.
#[derive(Clone, Copy, Debug)]
pub struct Line {
    pub head: Head,
    pub level: u32,
    pub is_open: bool,
}
