// Kinds of nodes, as scopes ask for them.
ghost use Rattle.std.specs.Prelude.{◌≡◌};
ghost use Rattle.scope_rules.specs.Kinds.{is_class, is_def, is_comprehension, opens, is_parameter, is_around_def, is_in_body, holds};
ghost use Rattle.scope_rules.specs.Mangling.{is_read};
ghost use Rattle.scope_rules.specs.Binding.{is_binder, is_handler, is_annotated, is_as_name, is_alias, is_walrus};
ghost use Rattle.scope_rules.specs.Declaring.{is_global, is_nonlocal};
ghost use Rattle.scope_rules.specs.Reading.{is_read_name};
ghost use Rattle.scope_rules.specs.Answers.{is_group, is_delete, is_attribute_target};

use tree_nodes::Kind;

#[tactic(auto, unfolding(scope_rules::specs::Kinds::is_class))]
pub(crate) fn is_class(kind: Kind) -> bool
    ensures { result ≡ is_class kind }
{
    matches!(kind, Kind::ClassDef)
}

#[tactic(auto, unfolding(scope_rules::specs::Kinds::is_def))]
pub(crate) fn is_def(kind: Kind) -> bool
    ensures { result ≡ is_def kind }
{
    matches!(kind, Kind::FunctionDef | Kind::AsyncFunctionDef)
}

#[tactic(auto, unfolding(scope_rules::specs::Kinds::is_comprehension))]
pub(crate) fn is_comprehension(kind: Kind) -> bool
    ensures { result ≡ is_comprehension kind }
{
    matches!(
        kind,
        Kind::ListComprehension
            | Kind::SetComprehension
            | Kind::DictComprehension
            | Kind::GeneratorExpression
    )
}

#[tactic(auto, unfolding(scope_rules::specs::Kinds::opens))]
pub(crate) fn opens(kind: Kind) -> bool
    ensures { result ≡ opens kind }
{
    matches!(
        kind,
        Kind::Module
            | Kind::FunctionDef
            | Kind::AsyncFunctionDef
            | Kind::Lambda
            | Kind::ClassDef
            | Kind::ListComprehension
            | Kind::SetComprehension
            | Kind::DictComprehension
            | Kind::GeneratorExpression
    )
}

#[tactic(auto, unfolding(scope_rules::specs::Kinds::is_parameter))]
pub(crate) fn is_parameter(kind: Kind) -> bool
    ensures { result ≡ is_parameter kind }
{
    matches!(
        kind,
        Kind::Parameter
            | Kind::StarParameter
            | Kind::KeywordOnlyParameter
            | Kind::DoubleStarParameter
    )
}

#[tactic(auto, unfolding(scope_rules::specs::Kinds::is_around_def))]
fn is_around_def(kind: Kind) -> bool
    ensures { result ≡ is_around_def kind }
{
    matches!(kind, Kind::Decorator | Kind::Annotation)
}

#[tactic(auto, unfolding(scope_rules::specs::Kinds::is_in_body))]
fn is_in_body(kind: Kind) -> bool
    ensures { result ≡ is_in_body kind }
{
    matches!(
        kind,
        Kind::Docstring
            | Kind::ExpressionStatement
            | Kind::Assign
            | Kind::AugAssign
            | Kind::AnnAssign
            | Kind::Pass
            | Kind::Break
            | Kind::Continue
            | Kind::Return
            | Kind::Raise
            | Kind::Global
            | Kind::Nonlocal
            | Kind::Delete
            | Kind::Assert
            | Kind::Import
            | Kind::ImportFrom
            | Kind::If
            | Kind::While
            | Kind::For
            | Kind::AsyncFor
            | Kind::Try
            | Kind::With
            | Kind::AsyncWith
            | Kind::FunctionDef
            | Kind::AsyncFunctionDef
            | Kind::ClassDef
            | Kind::Match
    )
}

/// Whether a part of the second kind stands in the scope of a node of the first kind.
#[tactic(auto, unfolding(scope_rules::specs::Kinds::holds))]
pub(crate) fn holds(whole: Kind, part: Kind) -> bool
    ensures { result ≡ holds whole part }
{
    if is_def(whole) {
        !is_around_def(part)
    } else if is_class(whole) {
        is_in_body(part)
    } else {
        opens(whole)
    }
}

/// Whether the kind's name is a name or an attribute.
#[tactic(auto, unfolding(scope_rules::specs::Mangling::is_read))]
pub(crate) fn is_read(kind: Kind) -> bool
    ensures { result ≡ is_read kind }
{
    matches!(
        kind,
        Kind::FunctionDef
            | Kind::AsyncFunctionDef
            | Kind::ClassDef
            | Kind::AsName
            | Kind::DeclaredName
            | Kind::Parameter
            | Kind::StarParameter
            | Kind::KeywordOnlyParameter
            | Kind::DoubleStarParameter
            | Kind::NameTarget
            | Kind::AttributeTarget
            | Kind::NamedExpression
            | Kind::Attribute
            | Kind::Name
            | Kind::MatchAs
            | Kind::MatchCapture
            | Kind::MatchStar
            | Kind::MatchRest
    )
}

#[tactic(auto, unfolding(scope_rules::specs::Reading::is_read_name))]
pub(crate) fn is_read_name(kind: Kind) -> bool
    ensures { result ≡ is_read_name kind }
{
    matches!(kind, Kind::Name)
}

pub(crate) fn is_group(kind: Kind) -> bool
    ensures { result ≡ is_group kind }
{
    matches!(
        kind,
        Kind::TupleTarget | Kind::ListTarget | Kind::StarredTarget
    )
}

pub(crate) fn is_delete(kind: Kind) -> bool
    ensures { result ≡ is_delete kind }
{
    matches!(kind, Kind::Delete)
}

#[tactic(auto, unfolding(scope_rules::specs::Answers::is_attribute_target))]
pub(crate) fn is_attribute_target(kind: Kind) -> bool
    ensures { result ≡ is_attribute_target kind }
{
    matches!(kind, Kind::AttributeTarget)
}

/// Whether the kind binds its own name.
#[tactic(auto, unfolding(scope_rules::specs::Binding::is_binder))]
pub(crate) fn is_binder(kind: Kind) -> bool
    ensures { result ≡ is_binder kind }
{
    matches!(
        kind,
        Kind::NameTarget
            | Kind::NamedExpression
            | Kind::FunctionDef
            | Kind::AsyncFunctionDef
            | Kind::ClassDef
            | Kind::Parameter
            | Kind::StarParameter
            | Kind::KeywordOnlyParameter
            | Kind::DoubleStarParameter
            | Kind::MatchAs
            | Kind::MatchCapture
            | Kind::MatchStar
            | Kind::MatchRest
    )
}

#[tactic(auto, unfolding(scope_rules::specs::Binding::is_handler))]
pub(crate) fn is_handler(kind: Kind) -> bool
    ensures { result ≡ is_handler kind }
{
    matches!(kind, Kind::ExceptHandler | Kind::ExceptStarHandler)
}

#[tactic(auto, unfolding(scope_rules::specs::Binding::is_annotated))]
pub(crate) fn is_annotated(kind: Kind) -> bool
    ensures { result ≡ is_annotated kind }
{
    matches!(kind, Kind::AnnAssign)
}

#[tactic(auto, unfolding(scope_rules::specs::Binding::is_as_name))]
pub(crate) fn is_as_name(kind: Kind) -> bool
    ensures { result ≡ is_as_name kind }
{
    matches!(kind, Kind::AsName)
}

#[tactic(auto, unfolding(scope_rules::specs::Binding::is_alias))]
pub(crate) fn is_alias(kind: Kind) -> bool
    ensures { result ≡ is_alias kind }
{
    matches!(kind, Kind::Alias)
}

#[tactic(auto, unfolding(scope_rules::specs::Binding::is_walrus))]
pub(crate) fn is_walrus(kind: Kind) -> bool
    ensures { result ≡ is_walrus kind }
{
    matches!(kind, Kind::NamedExpression)
}

#[tactic(auto, unfolding(scope_rules::specs::Declaring::is_global))]
pub(crate) fn is_global(kind: Kind) -> bool
    ensures { result ≡ is_global kind }
{
    matches!(kind, Kind::Global)
}

#[tactic(auto, unfolding(scope_rules::specs::Declaring::is_nonlocal))]
pub(crate) fn is_nonlocal(kind: Kind) -> bool
    ensures { result ≡ is_nonlocal kind }
{
    matches!(kind, Kind::Nonlocal)
}
