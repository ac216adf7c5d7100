// What a line was read as.
use py_grammar::Head;

/// What a line spells: its kind, the rows of the parts of its header or decorator, and the rows of its simple statements.
#[derive(Debug, Drop)]
pub struct LineForm {
    pub head: Head,
    pub nodes: Vec<u32>,
    pub body: Vec<u32>,
}
