// Messages of rules, and the statements of a block.
ghost use Rattle.std.specs.Prelude.{◌≡◌, ◌<◌, [], ◌∷◌, ◌++◌, All, IfOk, OnOk, map};
ghost use Rattle.tree_nodes.specs.Trees.{count_of};
ghost use Rattle.tree_nodes.specs.Kept.{number_of};
ghost use Rattle.flow_rules.specs.Nodes.{message_of, statements_in, block};

use crate::codes::code_of;
use crate::rule::Rule;
use lint_messages::Message;
use lint_values::{FileId, Memory, NodeId, Texts};
use rule_nodes::is_statement;
use std::alloc::Global;
use tree_nodes::Tree;

/// A rule's message of a node.
pub(crate) fn message_with(file: FileId, tree: &Tree, n: NodeId, rule: Rule, args: Texts) -> Message
    requires { n.0 < count_of tree.now }
    ensures { result ≡ message_of file tree.now n.0 rule args }
{
    rule_nodes::message_with(file, tree, n, code_of(rule), args)
}

/// A rule's message of a node, with no argument.
pub(crate) fn message_of(alloc: Global, file: FileId, tree: &Tree, n: NodeId, rule: Rule) -> Message
    requires { n.0 < count_of tree.now }
    ensures { result ≡ message_of file tree.now n.0 rule [] }
{
    rule_nodes::message_at(alloc, file, tree, n, code_of(rule))
}

// Adds a node, where it is a statement.
fn add_statement(tree: &Tree, n: NodeId, statements: &mut Vec<NodeId>) -> Result<(), Memory>
    requires made { n.0 < count_of tree.now }
    requires before { All (λ k. k.0 < count_of tree.now) statements.old.items }
    ensures numbers { OnOk result (map number_of statements.new.items ≡ map number_of statements.old.items ++ statements_in tree.now (n.0 ∷ [])) }
    ensures made { OnOk result (All (λ k. k.0 < count_of tree.now) statements.new.items) }
{
    if is_statement(tree.kind(n)) {
        statements.push(n)?;
    }
    Ok(())
}

// The statements among these nodes.
fn statements_in(alloc: Global, tree: &Tree, kids: &[NodeId]) -> Result<Vec<NodeId>, Memory>
    requires { All (λ k. k.0 < count_of tree.now) kids.now }
    ensures numbers { IfOk result (λ statements. map number_of statements.items ≡ statements_in tree.now (map number_of kids.now)) }
    ensures made { IfOk result (λ statements. All (λ k. k.0 < count_of tree.now) statements.items) }
{
    let mut statements = Vec::new(alloc);
    let mut rest = kids;
    while let Some((kid, tail)) = rest.split_first() {
        add_statement(tree, *kid, &mut statements)?;
        rest = tail;
    }
    Ok(statements)
}

/// The statements of a node's own block.
pub(crate) fn block(alloc: Global, tree: &Tree, n: NodeId) -> Result<Vec<NodeId>, Memory>
    requires { n.0 < count_of tree.now }
    ensures numbers { IfOk result (λ statements. map number_of statements.items ≡ block tree.now n.0) }
    ensures made { IfOk result (λ statements. All (λ k. k.0 < count_of tree.now) statements.items) }
{
    statements_in(alloc, tree, tree.kids(n))
}
