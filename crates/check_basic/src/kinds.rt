// What a node is, by its kind.
ghost use Rattle.std.specs.Prelude.{◌≡◌};
ghost use Rattle.check_basic.specs.Kinds.{is_compound, is_other_clause, has_header, is_import, is_pass, is_attribute};

use rule_nodes::is_counted_clause;
use tree_nodes::Kind;

// A statement with a block.
#[tactic(auto, unfolding(crate::specs::Kinds::is_compound))]
pub(crate) fn is_compound(kind: Kind) -> bool
    ensures { result ≡ is_compound kind }
{
    matches!(
        kind,
        Kind::If
            | Kind::While
            | Kind::For
            | Kind::AsyncFor
            | Kind::Try
            | Kind::With
            | Kind::AsyncWith
            | Kind::FunctionDef
            | Kind::AsyncFunctionDef
            | Kind::ClassDef
            | Kind::Match
    )
}

// A clause that counts as none: `else`, `finally` and `case`.
#[tactic(auto, unfolding(crate::specs::Kinds::is_other_clause))]
pub(crate) fn is_other_clause(kind: Kind) -> bool
    ensures { result ≡ is_other_clause kind }
{
    matches!(kind, Kind::Else | Kind::Finally | Kind::Case)
}

// What begins with a header: a statement with a block, or a clause.
pub(crate) fn has_header(kind: Kind) -> bool
    ensures { result ≡ has_header kind }
{
    is_compound(kind) || (is_counted_clause(kind) || is_other_clause(kind))
}

#[tactic(auto, unfolding(crate::specs::Kinds::is_import))]
pub(crate) fn is_import(kind: Kind) -> bool
    ensures { result ≡ is_import kind }
{
    matches!(kind, Kind::Import)
}

#[tactic(auto, unfolding(crate::specs::Kinds::is_pass))]
pub(crate) fn is_pass(kind: Kind) -> bool
    ensures { result ≡ is_pass kind }
{
    matches!(kind, Kind::Pass)
}

#[tactic(auto, unfolding(crate::specs::Kinds::is_attribute))]
pub(crate) fn is_attribute(kind: Kind) -> bool
    ensures { result ≡ is_attribute kind }
{
    matches!(kind, Kind::Attribute)
}
