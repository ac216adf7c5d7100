// What a node is, by its kind.
ghost use Rattle.std.specs.Prelude.{◌≡◌, true};
ghost use Rattle.tree_nodes.specs.declared.kind.Kind.TheVariants as kinds;
ghost use Rattle.scope_rules.specs.Kinds.{is_class, is_def, is_comprehension, is_in_body};
ghost use Rattle.scope_rules.specs.Binding.{is_binder, is_handler, is_as_name, is_alias, is_walrus};
ghost use Rattle.scope_rules.specs.Reading.{is_read_name};
ghost use Rattle.rule_nodes.specs.Kinds.{is_docstring, is_statement, is_counted_clause, is_counted, is_owner, is_decorator, is_no_base, is_base, is_expression_statement, is_ellipsis, is_import_from, is_module};

use tree_nodes::Kind;

/// A class.
#[tactic(auto, unfolding(scope_rules::specs::Kinds::is_class))]
pub fn is_class(kind: Kind) -> bool
    ensures { result ≡ is_class kind }
{
    matches!(kind, Kind::ClassDef)
}

/// A function that has a name, with `async` before it or not.
#[tactic(auto, unfolding(scope_rules::specs::Kinds::is_def))]
pub fn is_def(kind: Kind) -> bool
    ensures { result ≡ is_def kind }
{
    matches!(kind, Kind::FunctionDef | Kind::AsyncFunctionDef)
}

/// A comprehension or generator expression.
#[tactic(auto, unfolding(scope_rules::specs::Kinds::is_comprehension))]
pub fn is_comprehension(kind: Kind) -> bool
    ensures { result ≡ is_comprehension kind }
{
    matches!(
        kind,
        Kind::ListComprehension
            | Kind::SetComprehension
            | Kind::DictComprehension
            | Kind::GeneratorExpression
    )
}

/// What stands in a block: statements, and a docstring.
#[tactic(auto, unfolding(scope_rules::specs::Kinds::is_in_body))]
pub fn is_in_body(kind: Kind) -> bool
    ensures { result ≡ is_in_body kind }
{
    matches!(
        kind,
        Kind::Docstring
            | Kind::ExpressionStatement
            | Kind::Assign
            | Kind::AugAssign
            | Kind::AnnAssign
            | Kind::Pass
            | Kind::Break
            | Kind::Continue
            | Kind::Return
            | Kind::Raise
            | Kind::Global
            | Kind::Nonlocal
            | Kind::Delete
            | Kind::Assert
            | Kind::Import
            | Kind::ImportFrom
            | Kind::If
            | Kind::While
            | Kind::For
            | Kind::AsyncFor
            | Kind::Try
            | Kind::With
            | Kind::AsyncWith
            | Kind::FunctionDef
            | Kind::AsyncFunctionDef
            | Kind::ClassDef
            | Kind::Match
    )
}

/// A node that binds its own name.
#[tactic(auto, unfolding(scope_rules::specs::Binding::is_binder))]
pub fn is_binder(kind: Kind) -> bool
    ensures { result ≡ is_binder kind }
{
    matches!(
        kind,
        Kind::NameTarget
            | Kind::NamedExpression
            | Kind::FunctionDef
            | Kind::AsyncFunctionDef
            | Kind::ClassDef
            | Kind::Parameter
            | Kind::StarParameter
            | Kind::KeywordOnlyParameter
            | Kind::DoubleStarParameter
            | Kind::MatchAs
            | Kind::MatchCapture
            | Kind::MatchStar
            | Kind::MatchRest
    )
}

/// An `except` clause, with `*` or not.
#[tactic(auto, unfolding(scope_rules::specs::Binding::is_handler))]
pub fn is_handler(kind: Kind) -> bool
    ensures { result ≡ is_handler kind }
{
    matches!(kind, Kind::ExceptHandler | Kind::ExceptStarHandler)
}

/// The name behind `as` of an import.
#[tactic(auto, unfolding(scope_rules::specs::Binding::is_as_name))]
pub fn is_as_name(kind: Kind) -> bool
    ensures { result ≡ is_as_name kind }
{
    matches!(kind, Kind::AsName)
}

/// What an import names.
#[tactic(auto, unfolding(scope_rules::specs::Binding::is_alias))]
pub fn is_alias(kind: Kind) -> bool
    ensures { result ≡ is_alias kind }
{
    matches!(kind, Kind::Alias)
}

/// `x := ..`
#[tactic(auto, unfolding(scope_rules::specs::Binding::is_walrus))]
pub fn is_walrus(kind: Kind) -> bool
    ensures { result ≡ is_walrus kind }
{
    matches!(kind, Kind::NamedExpression)
}

/// A name that is read.
#[tactic(auto, unfolding(scope_rules::specs::Reading::is_read_name))]
pub fn is_read_name(kind: Kind) -> bool
    ensures value { result ≡ is_read_name kind }
    ensures name { result ≡ true → kind ≡ kinds.Name }
{
    matches!(kind, Kind::Name)
}

/// A string that says what a module, class or function does.
#[tactic(auto, unfolding(crate::specs::Kinds::is_docstring))]
pub fn is_docstring(kind: Kind) -> bool
    ensures { result ≡ is_docstring kind }
{
    matches!(kind, Kind::Docstring)
}

/// A statement, simple or compound.
#[tactic(auto, unfolding(crate::specs::Kinds::is_statement))]
pub fn is_statement(kind: Kind) -> bool
    ensures { result ≡ is_statement kind }
{
    is_in_body(kind) && !is_docstring(kind)
}

/// A clause that counts as a statement: `elif` and `except`.
#[tactic(auto, unfolding(crate::specs::Kinds::is_counted_clause))]
pub fn is_counted_clause(kind: Kind) -> bool
    ensures { result ≡ is_counted_clause kind }
{
    matches!(
        kind,
        Kind::Elif | Kind::ExceptHandler | Kind::ExceptStarHandler
    )
}

/// What the number of statements counts.
pub fn is_counted(kind: Kind) -> bool
    ensures { result ≡ is_counted kind }
{
    is_statement(kind) || is_counted_clause(kind)
}

/// A function or class.
pub fn is_owner(kind: Kind) -> bool
    ensures { result ≡ is_owner kind }
{
    is_def(kind) || is_class(kind)
}

/// A decorator.
#[tactic(auto, unfolding(crate::specs::Kinds::is_decorator))]
pub fn is_decorator(kind: Kind) -> bool
    ensures { result ≡ is_decorator kind }
{
    matches!(kind, Kind::Decorator)
}

/// What stands before a class, or between its brackets with a keyword.
#[tactic(auto, unfolding(crate::specs::Kinds::is_no_base))]
pub fn is_no_base(kind: Kind) -> bool
    ensures { result ≡ is_no_base kind }
{
    matches!(
        kind,
        Kind::Decorator | Kind::KeywordArgument | Kind::DoubleStarArgument
    )
}

/// What a class stands over: a plain or starred argument.
pub fn is_base(kind: Kind) -> bool
    ensures { result ≡ is_base kind }
{
    !(is_no_base(kind) || is_in_body(kind))
}

/// An expression alone on its line.
#[tactic(auto, unfolding(crate::specs::Kinds::is_expression_statement))]
pub fn is_expression_statement(kind: Kind) -> bool
    ensures { result ≡ is_expression_statement kind }
{
    matches!(kind, Kind::ExpressionStatement)
}

/// `...`
#[tactic(auto, unfolding(crate::specs::Kinds::is_ellipsis))]
pub fn is_ellipsis(kind: Kind) -> bool
    ensures { result ≡ is_ellipsis kind }
{
    matches!(kind, Kind::EllipsisLiteral)
}

/// `from .. import ..`
#[tactic(auto, unfolding(crate::specs::Kinds::is_import_from))]
pub fn is_import_from(kind: Kind) -> bool
    ensures { result ≡ is_import_from kind }
{
    matches!(kind, Kind::ImportFrom)
}

/// The root of a file's tree.
#[tactic(auto, unfolding(crate::specs::Kinds::is_module))]
pub fn is_module(kind: Kind) -> bool
    ensures { result ≡ is_module kind }
{
    matches!(kind, Kind::Module)
}
