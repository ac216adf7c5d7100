// What is kept of a node apart from its kids.
ghost use Rattle.std.specs.Prelude.{◌≡◌, length};
ghost use Rattle.tree_nodes.specs.Kept.{within, FitsIn, IsTextIn};

use crate::Kind;
use lint_values::{NodeId, Pos};

/// A part of a list that many nodes share, from `start` up to `end`.
#[derive(Clone, Copy, Debug)]
pub struct Span {
    pub start: u32,
    pub end: u32,
}

/// A node apart from its kids. Its name, where it has one, is a part of the text of all names.
#[derive(Clone, Copy, Debug)]
pub struct Label {
    pub kind: Kind,
    pub is_named: bool,
    pub pos: Pos,
    pub end_line: u32,
    pub name: Span,
}

/// The kids within a span.
pub fn kids_within(kids: &[NodeId], span: Span) -> &[NodeId]
    requires { FitsIn (length kids.now) span }
    ensures { result.now ≡ within kids.now span }
{
    &kids[span.start as usize..span.end as usize]
}

/// The text within a span.
pub fn text_within(text: &str, span: Span) -> &str
    requires { IsTextIn text.now span }
    ensures { result.now ≡ within text.now span }
{
    &text[span.start as usize..span.end as usize]
}
