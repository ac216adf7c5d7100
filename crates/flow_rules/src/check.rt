// The messages of all rules on a tree.
ghost use Rattle.std.specs.Prelude.{◌≡◌, ◌<◌, ◌++◌, IfOk, OnOk};
ghost use Rattle.tree_nodes.specs.Trees.{count_of};
ghost use Rattle.flow_rules.specs.FlowRules.{said_of, said_by, said_by_all, flow_messages};
ghost use Rattle.flow_rules.specs.Tables.{AreTablesOf};

use crate::handlers::check_handler;
use crate::jumps::check_jump;
use crate::redefined::check_redefined;
use crate::returns::check_return;
use crate::rule::{ALL_RULES, Rule};
use crate::sizes::{check_arguments, check_branches, check_returns, check_statements};
use crate::tables::{Tables, tables_of};
use crate::unreachable::check_unreachable;
use lint_messages::Messages;
use lint_values::{FileId, Memory, NodeId};
use options::Options;
use std::alloc::Global;
use tree_nodes::Tree;

// Adds what a rule says of a node.
#[tactic(auto, unfolding(crate::specs::FlowRules::said_of))]
fn check_node(
    alloc: Global,
    options: &Options,
    file: FileId,
    tree: &Tree,
    tables: &Tables,
    rule: Rule,
    n: NodeId,
    found: &mut Messages,
) -> Result<(), Memory>
    requires made { n.0 < count_of tree.now }
    requires tables { AreTablesOf tree.now tables.now }
    ensures { OnOk result (found.new ≡ found.old ++ said_of options.now file tree.now rule n.0) }
{
    match rule {
        Rule::Unreachable => check_unreachable(alloc, file, tree, n, found),
        Rule::BareExcept => check_handler(alloc, file, tree, n, found),
        Rule::FunctionRedefined => check_redefined(alloc, file, tree, tables, n, found),
        Rule::NotInLoop => check_jump(alloc, file, tree, tables, n, found),
        Rule::ReturnOutsideFunction => check_return(alloc, file, tree, tables, n, found),
        Rule::TooManyReturnStatements => {
            check_returns(alloc, options, file, tree, tables, n, found)
        }
        Rule::TooManyBranches => check_branches(alloc, options, file, tree, tables, n, found),
        Rule::TooManyArguments => check_arguments(alloc, options, file, tree, n, found),
        Rule::TooManyStatements => check_statements(alloc, options, file, tree, tables, n, found),
    }
}

// Adds what a rule says of all nodes.
fn check_rule(
    alloc: Global,
    options: &Options,
    file: FileId,
    tree: &Tree,
    tables: &Tables,
    rule: Rule,
    found: &mut Messages,
) -> Result<(), Memory>
    requires { AreTablesOf tree.now tables.now }
    ensures { OnOk result (found.new ≡ found.old ++ said_by options.now file tree.now rule) }
{
    for n in 0..tree.count() {
        check_node(alloc, options, file, tree, tables, rule, NodeId(n), found)?;
    }
    Ok(())
}

// Adds what some rules say, one after another.
fn check_rules(
    alloc: Global,
    options: &Options,
    file: FileId,
    tree: &Tree,
    tables: &Tables,
    rules: &[Rule],
    found: &mut Messages,
) -> Result<(), Memory>
    requires { AreTablesOf tree.now tables.now }
    ensures { OnOk result (found.new ≡ found.old ++ said_by_all options.now file tree.now rules.now) }
{
    let mut rest = rules;
    while let Some((rule, tail)) = rest.split_first() {
        check_rule(alloc, options, file, tree, tables, *rule, found)?;
        rest = tail;
    }
    Ok(())
}

/// The messages on flow and on size of a file's tree, rule after rule, each in source order. Columns count UTF-8 bytes.
pub fn check_flow(
    alloc: Global,
    file: FileId,
    tree: &Tree,
    options: &Options,
) -> Result<Messages, Memory>
    ensures { IfOk result (λ messages. messages ≡ flow_messages options.now file tree.now) }
{
    let tables = tables_of(alloc, tree)?;
    let mut found = Messages::new(alloc);
    check_rules(alloc, options, file, tree, &tables, &ALL_RULES, &mut found)?;
    Ok(found)
}
