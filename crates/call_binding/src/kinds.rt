// Kinds of nodes, as parameters, arguments and the scopes around them ask for them.
ghost use Rattle.std.specs.Prelude.{◌≡◌};
ghost use Rattle.scope_rules.specs.Kinds.{is_class, is_def, is_comprehension, opens, is_parameter, is_around_def, is_in_body, holds};
ghost use Rattle.call_binding.specs.Reading.{is_slash, is_annotation, is_keyword, is_star, is_plain};

use tree_nodes::Kind;

#[tactic(auto, unfolding(scope_rules::specs::Kinds::is_class))]
pub(crate) fn is_class(kind: Kind) -> bool
    ensures { result ≡ is_class kind }
{
    matches!(kind, Kind::ClassDef)
}

#[tactic(auto, unfolding(scope_rules::specs::Kinds::is_def))]
pub(crate) fn is_def(kind: Kind) -> bool
    ensures { result ≡ is_def kind }
{
    matches!(kind, Kind::FunctionDef | Kind::AsyncFunctionDef)
}

#[tactic(auto, unfolding(scope_rules::specs::Kinds::is_comprehension))]
pub(crate) fn is_comprehension(kind: Kind) -> bool
    ensures { result ≡ is_comprehension kind }
{
    matches!(
        kind,
        Kind::ListComprehension
            | Kind::SetComprehension
            | Kind::DictComprehension
            | Kind::GeneratorExpression
    )
}

#[tactic(auto, unfolding(scope_rules::specs::Kinds::opens))]
pub(crate) fn opens(kind: Kind) -> bool
    ensures { result ≡ opens kind }
{
    matches!(
        kind,
        Kind::Module
            | Kind::FunctionDef
            | Kind::AsyncFunctionDef
            | Kind::Lambda
            | Kind::ClassDef
            | Kind::ListComprehension
            | Kind::SetComprehension
            | Kind::DictComprehension
            | Kind::GeneratorExpression
    )
}

#[tactic(auto, unfolding(scope_rules::specs::Kinds::is_parameter))]
pub(crate) fn is_parameter(kind: Kind) -> bool
    ensures { result ≡ is_parameter kind }
{
    matches!(
        kind,
        Kind::Parameter
            | Kind::StarParameter
            | Kind::KeywordOnlyParameter
            | Kind::DoubleStarParameter
    )
}

#[tactic(auto, unfolding(scope_rules::specs::Kinds::is_around_def))]
fn is_around_def(kind: Kind) -> bool
    ensures { result ≡ is_around_def kind }
{
    matches!(kind, Kind::Decorator | Kind::Annotation)
}

#[tactic(auto, unfolding(scope_rules::specs::Kinds::is_in_body))]
fn is_in_body(kind: Kind) -> bool
    ensures { result ≡ is_in_body kind }
{
    matches!(
        kind,
        Kind::Docstring
            | Kind::ExpressionStatement
            | Kind::Assign
            | Kind::AugAssign
            | Kind::AnnAssign
            | Kind::Pass
            | Kind::Break
            | Kind::Continue
            | Kind::Return
            | Kind::Raise
            | Kind::Global
            | Kind::Nonlocal
            | Kind::Delete
            | Kind::Assert
            | Kind::Import
            | Kind::ImportFrom
            | Kind::If
            | Kind::While
            | Kind::For
            | Kind::AsyncFor
            | Kind::Try
            | Kind::With
            | Kind::AsyncWith
            | Kind::FunctionDef
            | Kind::AsyncFunctionDef
            | Kind::ClassDef
            | Kind::Match
    )
}

/// Whether a part of the second kind stands in the scope of a node of the first kind.
#[tactic(auto, unfolding(scope_rules::specs::Kinds::holds))]
pub(crate) fn holds(whole: Kind, part: Kind) -> bool
    ensures { result ≡ holds whole part }
{
    if is_def(whole) {
        !is_around_def(part)
    } else if is_class(whole) {
        is_in_body(part)
    } else {
        opens(whole)
    }
}

#[tactic(auto, unfolding(crate::specs::Reading::is_slash))]
pub(crate) fn is_slash(kind: Kind) -> bool
    ensures { result ≡ is_slash kind }
{
    matches!(kind, Kind::PositionalOnlyMark)
}

#[tactic(auto, unfolding(crate::specs::Reading::is_annotation))]
pub(crate) fn is_annotation(kind: Kind) -> bool
    ensures { result ≡ is_annotation kind }
{
    matches!(kind, Kind::Annotation | Kind::StarAnnotation)
}

#[tactic(auto, unfolding(crate::specs::Reading::is_keyword))]
pub(crate) fn is_keyword(kind: Kind) -> bool
    ensures { result ≡ is_keyword kind }
{
    matches!(kind, Kind::KeywordArgument)
}

#[tactic(auto, unfolding(crate::specs::Reading::is_star))]
pub(crate) fn is_star(kind: Kind) -> bool
    ensures { result ≡ is_star kind }
{
    matches!(kind, Kind::StarArgument | Kind::DoubleStarArgument)
}

/// Whether an argument has neither a keyword nor a star.
#[tactic(auto, unfolding(crate::specs::Reading::is_plain))]
pub(crate) fn is_plain(kind: Kind) -> bool
    ensures { result ≡ is_plain kind }
{
    !is_keyword(kind) && !is_star(kind)
}
