// What a node is, by its kind.
ghost use Rattle.std.specs.Prelude.{◌≡◌};
ghost use Rattle.scope_rules.specs.Declaring.{is_global};
ghost use Rattle.check_names.specs.Kinds.{is_wildcard, is_try, is_clause, is_tuple, is_module_or_def};

use rule_nodes::{is_def, is_module};
use tree_nodes::Kind;

#[tactic(auto, unfolding(crate::specs::Kinds::is_wildcard))]
pub(crate) fn is_wildcard(kind: Kind) -> bool
    ensures { result ≡ is_wildcard kind }
{
    matches!(kind, Kind::ImportWildcard)
}

#[tactic(auto, unfolding(crate::specs::Kinds::is_try))]
pub(crate) fn is_try(kind: Kind) -> bool
    ensures { result ≡ is_try kind }
{
    matches!(kind, Kind::Try)
}

/// Whether the kind is a part of a `try` behind its body.
#[tactic(auto, unfolding(crate::specs::Kinds::is_clause))]
pub(crate) fn is_clause(kind: Kind) -> bool
    ensures { result ≡ is_clause kind }
{
    matches!(
        kind,
        Kind::ExceptHandler | Kind::ExceptStarHandler | Kind::Else | Kind::Finally
    )
}

#[tactic(auto, unfolding(crate::specs::Kinds::is_tuple))]
pub(crate) fn is_tuple(kind: Kind) -> bool
    ensures { result ≡ is_tuple kind }
{
    matches!(kind, Kind::Tuple)
}

/// Whether the kind is the module or a function that has a name.
pub(crate) fn is_module_or_def(kind: Kind) -> bool
    ensures { result ≡ is_module_or_def kind }
{
    is_module(kind) || is_def(kind)
}

#[tactic(auto, unfolding(scope_rules::specs::Declaring::is_global))]
pub(crate) fn is_global(kind: Kind) -> bool
    ensures { result ≡ is_global kind }
{
    matches!(kind, Kind::Global)
}
