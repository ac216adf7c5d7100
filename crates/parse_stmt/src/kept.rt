// Lines that were read.
use crate::LineCause;
use py_grammar::Head;

/// A line that was read, with the rows of a builder for its trees: the parts of its header or decorator, its simple
/// statements, and the docstring that the first of these makes.
#[derive(Debug, Drop)]
pub struct KeptLine {
    pub head: Head,
    pub nodes: Vec<u32>,
    pub body: Vec<u32>,
    pub docstring: Option<u32>,
}

/// What was found at a line.
#[derive(Debug, Drop)]
pub enum Found {
    Line(KeptLine),
    Stop(LineCause),
}

/// Lines from the first on, and why the line behind them has no form, where there is one.
#[derive(Debug, Drop)]
pub struct ReadLines {
    pub lines: Vec<KeptLine>,
    pub stop: Option<LineCause>,
}
