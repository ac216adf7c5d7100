// Kinds of nodes, as the rules on unused names ask for them.
ghost use Rattle.std.specs.Prelude.{◌≡◌};
ghost use Rattle.scope_rules.specs.Kinds.{is_parameter};
ghost use Rattle.scope_rules.specs.Binding.{is_annotated};
ghost use Rattle.unused_names.specs.Kinds.{is_augmented_assignment, is_assignment, is_name_target, is_annotation, is_string, is_display, is_call, is_empty_statement};

use tree_nodes::Kind;

#[tactic(auto, unfolding(scope_rules::specs::Kinds::is_parameter))]
pub(crate) fn is_parameter(kind: Kind) -> bool
    ensures { result ≡ is_parameter kind }
{
    matches!(
        kind,
        Kind::Parameter
            | Kind::StarParameter
            | Kind::KeywordOnlyParameter
            | Kind::DoubleStarParameter
    )
}

#[tactic(auto, unfolding(scope_rules::specs::Binding::is_annotated))]
pub(crate) fn is_annotated(kind: Kind) -> bool
    ensures { result ≡ is_annotated kind }
{
    matches!(kind, Kind::AnnAssign)
}

#[tactic(auto, unfolding(crate::specs::Kinds::is_augmented_assignment))]
pub(crate) fn is_augmented_assignment(kind: Kind) -> bool
    ensures { result ≡ is_augmented_assignment kind }
{
    matches!(kind, Kind::AugAssign)
}

#[tactic(auto, unfolding(crate::specs::Kinds::is_assignment))]
pub(crate) fn is_assignment(kind: Kind) -> bool
    ensures { result ≡ is_assignment kind }
{
    matches!(kind, Kind::Assign | Kind::AugAssign | Kind::AnnAssign)
}

#[tactic(auto, unfolding(crate::specs::Kinds::is_name_target))]
pub(crate) fn is_name_target(kind: Kind) -> bool
    ensures { result ≡ is_name_target kind }
{
    matches!(kind, Kind::NameTarget)
}

#[tactic(auto, unfolding(crate::specs::Kinds::is_annotation))]
pub(crate) fn is_annotation(kind: Kind) -> bool
    ensures { result ≡ is_annotation kind }
{
    matches!(kind, Kind::Annotation | Kind::StarAnnotation)
}

#[tactic(auto, unfolding(crate::specs::Kinds::is_string))]
pub(crate) fn is_string(kind: Kind) -> bool
    ensures { result ≡ is_string kind }
{
    matches!(kind, Kind::StringLiteral)
}

#[tactic(auto, unfolding(crate::specs::Kinds::is_display))]
pub(crate) fn is_display(kind: Kind) -> bool
    ensures { result ≡ is_display kind }
{
    matches!(kind, Kind::List | Kind::Tuple | Kind::Set)
}

#[tactic(auto, unfolding(crate::specs::Kinds::is_call))]
pub(crate) fn is_call(kind: Kind) -> bool
    ensures { result ≡ is_call kind }
{
    matches!(kind, Kind::Call)
}

#[tactic(auto, unfolding(crate::specs::Kinds::is_empty_statement))]
pub(crate) fn is_empty_statement(kind: Kind) -> bool
    ensures { result ≡ is_empty_statement kind }
{
    matches!(kind, Kind::Docstring | Kind::Pass | Kind::Raise)
}
