// What a node is, by its kind.
ghost use Rattle.std.specs.Prelude.{◌≡◌};
ghost use Rattle.pragma_scope.specs.Kinds.{is_case, is_of_block, is_in_block};

use rule_nodes::{is_docstring, is_statement};
use tree_nodes::Kind;

#[tactic(auto, unfolding(crate::specs::Kinds::is_case))]
fn is_case(kind: Kind) -> bool
    ensures { result ≡ is_case kind }
{
    matches!(kind, Kind::Case)
}

/// Whether a node counts as a statement of its block.
pub(crate) fn is_of_block(kind: Kind) -> bool
    ensures { result ≡ is_of_block kind }
{
    is_statement(kind) || is_case(kind)
}

/// Whether a node stands in a block: a statement, or a docstring.
pub(crate) fn is_in_block(kind: Kind) -> bool
    ensures { result ≡ is_in_block kind }
{
    is_of_block(kind) || is_docstring(kind)
}
