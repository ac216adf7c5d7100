// The rule on `pass` beside other statements.
ghost use Rattle.std.specs.Prelude.{◌≡◌, ◌<◌, ◌++◌, All, OnOk, map};
ghost use Rattle.tree_nodes.specs.Trees.{count_of, kids_at};
ghost use Rattle.tree_nodes.specs.Kept.{number_of};
ghost use Rattle.check_basic.specs.TreeRules.{pass_message, passes, unnecessary_passes};

use crate::kinds::is_pass;
use crate::nodes::block_len;
use lint_messages::{Code, Messages};
use lint_values::{FileId, Memory, NodeId};
use rule_nodes::message_at;
use std::alloc::Global;
use tree_nodes::Tree;

// Adds the message of a node, where it is `pass`.
fn check_pass(
    alloc: Global,
    file: FileId,
    tree: &Tree,
    n: NodeId,
    found: &mut Messages,
) -> Result<(), Memory>
    requires { n.0 < count_of tree.now }
    ensures { OnOk result (found.new ≡ found.old ++ pass_message file tree.now n.0) }
{
    if is_pass(tree.kind(n)) {
        found.push(message_at(alloc, file, tree, n, Code::UnnecessaryPass))?;
    }
    Ok(())
}

// Adds the message of each `pass` among these nodes.
fn check_each_pass(
    alloc: Global,
    file: FileId,
    tree: &Tree,
    kids: &[NodeId],
    found: &mut Messages,
) -> Result<(), Memory>
    requires { All (λ k. k.0 < count_of tree.now) kids.now }
    ensures { OnOk result (found.new ≡ found.old ++ passes file tree.now (map number_of kids.now)) }
{
    let mut rest = kids;
    while let Some((kid, tail)) = rest.split_first() {
        check_pass(alloc, file, tree, *kid, found)?;
        rest = tail;
    }
    Ok(())
}

// Adds the messages of these nodes, where more than one of them stands in a block.
fn check_passes_among(
    alloc: Global,
    file: FileId,
    tree: &Tree,
    kids: &[NodeId],
    found: &mut Messages,
) -> Result<(), Memory>
    requires { All (λ k. k.0 < count_of tree.now) kids.now }
    ensures { OnOk result (found.new ≡ found.old ++ unnecessary_passes file tree.now (map number_of kids.now)) }
{
    if block_len(tree, kids) > 1 {
        check_each_pass(alloc, file, tree, kids, found)?;
    }
    Ok(())
}

/// Adds the messages of each `pass` below a node that has another statement or a docstring beside it.
pub(crate) fn check_passes(
    alloc: Global,
    file: FileId,
    tree: &Tree,
    n: NodeId,
    found: &mut Messages,
) -> Result<(), Memory>
    requires { n.0 < count_of tree.now }
    ensures { OnOk result (found.new ≡ found.old ++ unnecessary_passes file tree.now (kids_at tree.now n.0)) }
{
    check_passes_among(alloc, file, tree, tree.kids(n), found)
}
