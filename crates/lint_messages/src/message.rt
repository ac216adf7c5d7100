// A message and its place.
use crate::Code;
use lint_values::{FileId, NodeId, Pos, Texts};

/// A message. Its arguments are the variable parts of its text, in their order.
#[derive(Debug, Drop)]
pub struct Message {
    pub file: FileId,
    pub node: Option<NodeId>,
    pub pos: Pos,
    pub code: Code,
    pub args: Texts,
}
