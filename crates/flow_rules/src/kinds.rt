// What a node is, by its kind.
ghost use Rattle.std.specs.Prelude.{◌≡◌};
ghost use Rattle.flow_rules.specs.Kinds.{is_jump, is_return, is_raise, is_break, is_continue, is_yield, is_handler, is_loop, is_else, is_single_parameter, is_branch, is_finally};

use tree_nodes::Kind;

// A statement that control never goes on behind.
#[tactic(auto, unfolding(crate::specs::Kinds::is_jump))]
pub(crate) fn is_jump(kind: Kind) -> bool
    ensures { result ≡ is_jump kind }
{
    matches!(
        kind,
        Kind::Return | Kind::Raise | Kind::Break | Kind::Continue
    )
}

#[tactic(auto, unfolding(crate::specs::Kinds::is_return))]
pub(crate) fn is_return(kind: Kind) -> bool
    ensures { result ≡ is_return kind }
{
    matches!(kind, Kind::Return)
}

#[tactic(auto, unfolding(crate::specs::Kinds::is_raise))]
pub(crate) fn is_raise(kind: Kind) -> bool
    ensures { result ≡ is_raise kind }
{
    matches!(kind, Kind::Raise)
}

#[tactic(auto, unfolding(crate::specs::Kinds::is_break))]
pub(crate) fn is_break(kind: Kind) -> bool
    ensures { result ≡ is_break kind }
{
    matches!(kind, Kind::Break)
}

#[tactic(auto, unfolding(crate::specs::Kinds::is_continue))]
pub(crate) fn is_continue(kind: Kind) -> bool
    ensures { result ≡ is_continue kind }
{
    matches!(kind, Kind::Continue)
}

// `yield` and `yield from`.
#[tactic(auto, unfolding(crate::specs::Kinds::is_yield))]
pub(crate) fn is_yield(kind: Kind) -> bool
    ensures { result ≡ is_yield kind }
{
    matches!(kind, Kind::Yield | Kind::YieldFrom)
}

// An `except` clause.
#[tactic(auto, unfolding(crate::specs::Kinds::is_handler))]
pub(crate) fn is_handler(kind: Kind) -> bool
    ensures { result ≡ is_handler kind }
{
    matches!(kind, Kind::ExceptHandler)
}

// `for`, with `async` before it or not, and `while`.
#[tactic(auto, unfolding(crate::specs::Kinds::is_loop))]
pub(crate) fn is_loop(kind: Kind) -> bool
    ensures { result ≡ is_loop kind }
{
    matches!(kind, Kind::For | Kind::AsyncFor | Kind::While)
}

#[tactic(auto, unfolding(crate::specs::Kinds::is_else))]
pub(crate) fn is_else(kind: Kind) -> bool
    ensures { result ≡ is_else kind }
{
    matches!(kind, Kind::Else)
}

// A parameter that takes one argument: neither `*args` nor `**options`.
#[tactic(auto, unfolding(crate::specs::Kinds::is_single_parameter))]
pub(crate) fn is_single_parameter(kind: Kind) -> bool
    ensures { result ≡ is_single_parameter kind }
{
    matches!(kind, Kind::Parameter | Kind::KeywordOnlyParameter)
}

// What begins a branch: `if`, `elif`, `for`, `while`, `else` of any statement, `except` and `case`.
#[tactic(auto, unfolding(crate::specs::Kinds::is_branch))]
pub(crate) fn is_branch(kind: Kind) -> bool
    ensures { result ≡ is_branch kind }
{
    matches!(
        kind,
        Kind::If
            | Kind::Elif
            | Kind::Else
            | Kind::For
            | Kind::AsyncFor
            | Kind::While
            | Kind::ExceptHandler
            | Kind::ExceptStarHandler
            | Kind::Case
    )
}

#[tactic(auto, unfolding(crate::specs::Kinds::is_finally))]
pub(crate) fn is_finally(kind: Kind) -> bool
    ensures { result ≡ is_finally kind }
{
    matches!(kind, Kind::Finally)
}
