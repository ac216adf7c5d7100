// The checks of a tree, and its number of statements.
ghost use Rattle.std.specs.Prelude.{◌≡◌, ◌<◌, ◌^◌, ◌≤◌, ◌++◌, if◌then◌else◌, IfOk, OnOk};
ghost use Rattle.tree_nodes.specs.Trees.{count_of};
ghost use Rattle.scope_rules.specs.Nodes.{kind_of, nodes_of};
ghost use Rattle.rule_nodes.specs.Kinds.{is_counted};
ghost use Rattle.check_basic.specs.TreeRules.{node_messages, nodes_messages, tree_messages, statement_count};

use crate::docstrings::{check_class, check_function, check_module};
use crate::imports::check_import;
use crate::logical::{check_multiple_statements, check_semicolons};
use crate::passes::check_passes;
use flow_rules::check_flow;
use lint_messages::Messages;
use lint_values::{FileId, Memory, NodeId};
use options::Options;
use py_token::Tokens;
use rule_nodes::is_counted;
use std::alloc::Global;
use tree_nodes::Tree;

// Adds the messages of a node.
fn check_node(
    alloc: Global,
    file: FileId,
    tree: &Tree,
    n: NodeId,
    found: &mut Messages,
) -> Result<(), Memory>
    requires { n.0 < count_of tree.now }
    ensures { OnOk result (found.new ≡ found.old ++ node_messages file tree.now n.0) }
{
    check_module(alloc, file, tree, n, found)?;
    check_class(alloc, file, tree, n, found)?;
    check_function(alloc, file, tree, n, found)?;
    check_import(alloc, file, tree, n, found)?;
    check_passes(alloc, file, tree, n, found)?;
    Ok(())
}

// Adds the messages of all nodes.
fn check_nodes(alloc: Global, file: FileId, tree: &Tree, found: &mut Messages) -> Result<(), Memory>
    ensures { OnOk result (found.new ≡ found.old ++ nodes_messages file tree.now (nodes_of tree.now)) }
{
    for n in 0..tree.count() {
        check_node(alloc, file, tree, NodeId(n), found)?;
    }
    Ok(())
}

/// The messages of a file's tree and tokens, in their order. Columns count UTF-8 bytes.
pub fn check_tree(
    alloc: Global,
    file: FileId,
    tokens: &Tokens,
    tree: &Tree,
    options: &Options,
) -> Result<Messages, Memory>
    ensures { IfOk result (λ messages. messages ≡ tree_messages options.now file tokens.now tree.now) }
{
    let mut found = Messages::new(alloc);
    check_nodes(alloc, file, tree, &mut found)?;
    check_multiple_statements(alloc, file, tokens, tree, &mut found)?;
    check_semicolons(alloc, file, tokens, &mut found)?;
    found.append(check_flow(alloc, file, tree, options)?)?;
    Ok(found.into_order(alloc)?)
}

// 1 where the node counts as a statement.
fn counted(tree: &Tree, n: NodeId) -> u64
    requires { n.0 < count_of tree.now }
    ensures part { result ≡ (if is_counted (kind_of tree.now n.0) then 1 else 0) }
    ensures few { result ≤ 1 }
{
    if is_counted(tree.kind(n)) { 1 } else { 0 }
}

/// How many statements a tree has: simple and compound ones, and each `except` clause; an `elif` counts as an `if`.
pub fn statements(tree: &Tree) -> u64
    ensures count { result ≡ statement_count tree.now }
    ensures few { result < 2 ^ 32 }
{
    let mut count = 0;
    for n in 0..tree.count() {
        count += counted(tree, NodeId(n));
    }
    count
}
