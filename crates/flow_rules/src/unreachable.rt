// The rule on statements behind `return`, `raise`, `break` and `continue`.
ghost use Rattle.std.specs.Prelude.{◌≡◌, ◌<◌, ◌++◌, All, OnOk, map};
ghost use Rattle.tree_nodes.specs.Trees.{count_of, kids_at};
ghost use Rattle.tree_nodes.specs.Kept.{number_of};
ghost use Rattle.flow_rules.specs.Unreachable.{is_sole_yield, is_yield_statement, is_empty_generator, is_cut_off, unreachable_at, unreachable_behind, unreachable_among, unreachable};

use crate::kinds::{is_jump, is_return, is_yield};
use crate::nodes::{block, message_of};
use crate::rule::Rule;
use lint_messages::Messages;
use lint_values::{FileId, Memory, NodeId};
use rule_nodes::is_expression_statement;
use std::alloc::Global;
use tree_nodes::Tree;

// Whether there is one node, and it is `yield`.
fn is_sole_yield(tree: &Tree, kids: &[NodeId]) -> bool
    requires { All (λ k. k.0 < count_of tree.now) kids.now }
    ensures { result ≡ is_sole_yield tree.now (map number_of kids.now) }
{
    match kids {
        [kid] => is_yield(tree.kind(*kid)),
        _ => false,
    }
}

fn holds_sole_yield(tree: &Tree, n: NodeId) -> bool
    requires { n.0 < count_of tree.now }
    ensures { result ≡ is_sole_yield tree.now (kids_at tree.now n.0) }
{
    is_sole_yield(tree, tree.kids(n))
}

fn is_yield_statement(tree: &Tree, n: NodeId) -> bool
    requires { n.0 < count_of tree.now }
    ensures { result ≡ is_yield_statement tree.now n.0 }
{
    is_expression_statement(tree.kind(n)) && holds_sole_yield(tree, n)
}

// Whether it is `yield` behind `return`.
fn is_empty_generator(tree: &Tree, jump: NodeId, n: NodeId) -> bool
    requires jump { jump.0 < count_of tree.now }
    requires made { n.0 < count_of tree.now }
    ensures { result ≡ is_empty_generator tree.now jump.0 n.0 }
{
    is_return(tree.kind(jump)) && is_yield_statement(tree, n)
}

fn is_cut_off(tree: &Tree, jump: NodeId, n: NodeId) -> bool
    requires jump { jump.0 < count_of tree.now }
    requires made { n.0 < count_of tree.now }
    ensures { result ≡ is_cut_off tree.now jump.0 n.0 }
{
    is_jump(tree.kind(jump)) && !is_empty_generator(tree, jump, n)
}

// Adds the message of a statement directly behind another.
fn check_behind(
    alloc: Global,
    file: FileId,
    tree: &Tree,
    jump: NodeId,
    n: NodeId,
    found: &mut Messages,
) -> Result<(), Memory>
    requires jump { jump.0 < count_of tree.now }
    requires made { n.0 < count_of tree.now }
    ensures { OnOk result (found.new ≡ found.old ++ unreachable_at file tree.now jump.0 n.0) }
{
    if is_cut_off(tree, jump, n) {
        found.push(message_of(alloc, file, tree, n, Rule::Unreachable))?;
    }
    Ok(())
}

// Adds the messages of statements behind a first one.
fn check_each(
    alloc: Global,
    file: FileId,
    tree: &Tree,
    first: NodeId,
    behind: &[NodeId],
    found: &mut Messages,
) -> Result<(), Memory>
    requires first { first.0 < count_of tree.now }
    requires made { All (λ k. k.0 < count_of tree.now) behind.now }
    ensures { OnOk result (found.new ≡ found.old ++ unreachable_behind file tree.now first.0 (map number_of behind.now)) }
{
    let mut before = first;
    let mut rest = behind;
    while let Some((n, tail)) = rest.split_first() {
        check_behind(alloc, file, tree, before, *n, found)?;
        before = *n;
        rest = tail;
    }
    Ok(())
}

// Adds the messages of the statements of a block.
fn check_among(
    alloc: Global,
    file: FileId,
    tree: &Tree,
    statements: &[NodeId],
    found: &mut Messages,
) -> Result<(), Memory>
    requires { All (λ k. k.0 < count_of tree.now) statements.now }
    ensures { OnOk result (found.new ≡ found.old ++ unreachable_among file tree.now (map number_of statements.now)) }
{
    match statements {
        [] => Ok(()),
        [first, behind @ ..] => {
            check_each(alloc, file, tree, *first, behind, found)?;
            Ok(())
        }
    }
}

/// Adds the messages of the statements of a node's block that are not reached.
pub(crate) fn check_unreachable(
    alloc: Global,
    file: FileId,
    tree: &Tree,
    n: NodeId,
    found: &mut Messages,
) -> Result<(), Memory>
    requires { n.0 < count_of tree.now }
    ensures { OnOk result (found.new ≡ found.old ++ unreachable file tree.now n.0) }
{
    let statements = block(alloc, tree, n)?;
    check_among(alloc, file, tree, statements.as_slice(), found)?;
    Ok(())
}
