// The rule on handlers without a type.
ghost use Rattle.std.specs.Prelude.{◌≡◌, ◌<◌, ◌++◌, All, OnOk, map};
ghost use Rattle.tree_nodes.specs.Trees.{count_of, kids_at};
ghost use Rattle.tree_nodes.specs.Kept.{number_of};
ghost use Rattle.flow_rules.specs.BareExcept.{are_statements, has_raise, swallows_all, bare_except};

use crate::kinds::{is_handler, is_raise};
use crate::nodes::message_of;
use crate::rule::Rule;
use lint_messages::Messages;
use lint_values::{FileId, Memory, NodeId};
use rule_nodes::is_statement;
use std::alloc::Global;
use tree_nodes::Tree;

// Whether these nodes are statements alone.
fn are_statements(tree: &Tree, kids: &[NodeId]) -> bool
    requires { All (λ k. k.0 < count_of tree.now) kids.now }
    ensures { result ≡ are_statements tree.now (map number_of kids.now) }
{
    let mut rest = kids;
    while let [kid, tail @ ..] = rest {
        if !is_statement(tree.kind(*kid)) {
            return false;
        }
        rest = tail;
    }
    true
}

// Whether some of these nodes is `raise`.
fn has_raise(tree: &Tree, kids: &[NodeId]) -> bool
    requires { All (λ k. k.0 < count_of tree.now) kids.now }
    ensures { result ≡ has_raise tree.now (map number_of kids.now) }
{
    let mut rest = kids;
    while let [kid, tail @ ..] = rest {
        if is_raise(tree.kind(*kid)) {
            return true;
        }
        rest = tail;
    }
    false
}

// Whether a handler over these nodes takes every exception, and hands none on.
fn swallows_all_over(tree: &Tree, kids: &[NodeId]) -> bool
    requires { All (λ k. k.0 < count_of tree.now) kids.now }
    ensures { result ≡ swallows_all tree.now (map number_of kids.now) }
{
    are_statements(tree, kids) && !has_raise(tree, kids)
}

fn swallows_all(tree: &Tree, n: NodeId) -> bool
    requires { n.0 < count_of tree.now }
    ensures { result ≡ swallows_all tree.now (kids_at tree.now n.0) }
{
    swallows_all_over(tree, tree.kids(n))
}

/// Adds the message of a handler without a type that does not raise at its top.
pub(crate) fn check_handler(
    alloc: Global,
    file: FileId,
    tree: &Tree,
    n: NodeId,
    found: &mut Messages,
) -> Result<(), Memory>
    requires { n.0 < count_of tree.now }
    ensures { OnOk result (found.new ≡ found.old ++ bare_except file tree.now n.0) }
{
    if is_handler(tree.kind(n)) && swallows_all(tree, n) {
        found.push(message_of(alloc, file, tree, n, Rule::BareExcept))?;
    }
    Ok(())
}
