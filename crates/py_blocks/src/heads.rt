// Kinds of lines: which open a block, which are clauses, and what a clause may go on.
ghost use Rattle.std.specs.Prelude.{◌≡◌, ◌||◌};
ghost use Rattle.py_grammar.specs.declared.head.Head.TheVariants as heads;
ghost use Rattle.py_blocks.specs.Heads as spec;

use py_grammar::Head;
use tree_nodes::Kind;

pub fn is_header(head: Head) -> bool
    ensures { result ≡ spec.is_header head }
{
    !matches!(head, Head::Simple | Head::Decorator)
}

pub fn is_decorator(head: Head) -> bool
    ensures { result ≡ spec.is_decorator head }
{
    matches!(head, Head::Decorator)
}

pub fn is_decorated(head: Head) -> bool
    ensures { result ≡ spec.is_decorated head }
{
    matches!(
        head,
        Head::Decorator | Head::FunctionDef | Head::AsyncFunctionDef | Head::ClassDef
    )
}

pub fn is_try(head: Head) -> bool
    ensures { result ≡ spec.is_try head }
{
    matches!(head, Head::Try)
}

pub fn is_case(head: Head) -> bool
    ensures { result ≡ spec.is_case head }
{
    matches!(head, Head::Case)
}

pub fn is_handling(head: Head) -> bool
    ensures { result ≡ spec.is_handling head }
{
    matches!(head, Head::Except | Head::ExceptStar | Head::Finally)
}

pub fn is_match(head: Option<Head>) -> bool
    ensures { result ≡ spec.is_match head }
{
    matches!(head, Some(Head::Match))
}

pub fn is_conditional(head: Option<Head>) -> bool
    ensures { result ≡ spec.is_conditional head }
{
    matches!(head, Some(Head::If | Head::Elif))
}

pub fn is_loop(head: Option<Head>) -> bool
    ensures { result ≡ spec.is_loop head }
{
    matches!(head, Some(Head::While | Head::For | Head::AsyncFor))
}

pub fn is_opened_try(head: Option<Head>) -> bool
    ensures { result ≡ spec.is_opened_try head }
{
    matches!(head, Some(Head::Try))
}

pub fn is_except(head: Option<Head>) -> bool
    ensures { result ≡ spec.is_except head }
{
    matches!(head, Some(Head::Except))
}

pub fn is_except_star(head: Option<Head>) -> bool
    ensures { result ≡ spec.is_except_star head }
{
    matches!(head, Some(Head::ExceptStar))
}

pub fn is_else(head: Option<Head>) -> bool
    ensures { result ≡ spec.is_else head }
{
    matches!(head, Some(Head::Else))
}

fn is_any_except(head: Option<Head>) -> bool
    ensures { result ≡ (spec.is_except head || spec.is_except_star head) }
{
    is_except(head) || is_except_star(head)
}

/// Whether a line may stand behind its elder, the line before it at its level, and the elder's own.
pub fn has_opener(head: Head, elder: Option<Head>, behind: Option<Head>) -> bool
    ensures { result ≡ spec.has_opener head elder behind }
{
    match head {
        Head::Elif => is_conditional(elder),
        Head::Else => is_conditional(elder) || is_loop(elder) || is_any_except(elder),
        Head::Except => is_opened_try(elder) || is_except(elder),
        Head::ExceptStar => is_opened_try(elder) || is_except_star(elder),
        Head::Finally => ends_try(elder, behind),
        _ => true,
    }
}

fn ends_try(elder: Option<Head>, behind: Option<Head>) -> bool
    ensures { result ≡ spec.has_opener heads.Finally elder behind }
{
    is_opened_try(elder) || is_any_except(elder) || (is_else(elder) && is_any_except(behind))
}

pub fn is_clause(head: Head) -> bool
    ensures { result ≡ spec.is_clause head }
{
    matches!(
        head,
        Head::Elif | Head::Else | Head::Except | Head::ExceptStar | Head::Finally | Head::Case
    )
}

pub fn is_definition(head: Head) -> bool
    ensures { result ≡ spec.is_definition head }
{
    matches!(
        head,
        Head::FunctionDef | Head::AsyncFunctionDef | Head::ClassDef
    )
}

/// The kind of node that a header makes.
pub fn kind_of(head: Head) -> Kind
    ensures { result ≡ spec.kind_of head }
{
    match head {
        Head::If => Kind::If,
        Head::Elif => Kind::Elif,
        Head::Else => Kind::Else,
        Head::While => Kind::While,
        Head::For => Kind::For,
        Head::AsyncFor => Kind::AsyncFor,
        Head::Try => Kind::Try,
        Head::Except => Kind::ExceptHandler,
        Head::ExceptStar => Kind::ExceptStarHandler,
        Head::Finally => Kind::Finally,
        Head::With => Kind::With,
        Head::AsyncWith => Kind::AsyncWith,
        Head::FunctionDef => Kind::FunctionDef,
        Head::AsyncFunctionDef => Kind::AsyncFunctionDef,
        Head::ClassDef => Kind::ClassDef,
        Head::Match => Kind::Match,
        Head::Case => Kind::Case,
        Head::Decorator => Kind::Decorator,
        Head::Simple => Kind::Pass,
    }
}
