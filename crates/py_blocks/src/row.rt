// The rows of a file's logical lines.
use lint_values::Pos;
use py_grammar::Head;

/// A logical line that was read. Trees are numbers of a builder's rows.
#[derive(Clone, Copy, Debug)]
pub struct BlockRow<'a> {
    pub head: Head,
    /// From 0; a line that is deeper than the one before is one level deeper.
    pub level: u32,
    /// The place of its first token.
    pub pos: Pos,
    /// The line where its last token ends.
    pub end_line: u32,
    /// The name behind `def` or `class`.
    pub name: Option<&'a str>,
    /// The parts of a header, or the decorator.
    pub nodes: &'a [u32],
    /// The simple statements.
    pub body: &'a [u32],
    /// The first of these as a docstring, where it can be one.
    pub docstring: Option<u32>,
}
