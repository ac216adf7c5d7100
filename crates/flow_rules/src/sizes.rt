// The rules on the sizes of functions.
ghost use Rattle.std.specs.Prelude.{◌≡◌, ◌<◌, ◌≤◌, ◌++◌, ◌∷◌, [], All, IfOk, OnOk, map, if◌then◌else◌};
ghost use Rattle.std.specs.Fmt.{decimal};
ghost use Rattle.tree_nodes.specs.Trees.{count_of};
ghost use Rattle.tree_nodes.specs.Kept.{number_of};
ghost use Rattle.flow_rules.specs.Nodes.{message_of};
ghost use Rattle.flow_rules.specs.Sizes.{is_counted_parameter, parameters_among, parameter_count, too_many, too_many_returns, too_many_branches, too_many_arguments, too_many_statements};
ghost use Rattle.flow_rules.specs.Tables.{AreTablesOf};

use crate::kinds::is_single_parameter;
use crate::nodes::message_with;
use crate::rule::Rule;
use crate::size::Size;
use crate::tables::{Tables, total};
use lint_messages::{Message, Messages};
use lint_values::{FileId, Memory, NodeId, Texts};
use options::Options;
use rule_nodes::{is_def, is_public, number_text, written};
use std::alloc::Global;
use tree_nodes::Tree;

fn is_counted_parameter(tree: &Tree, k: NodeId) -> bool
    requires { k.0 < count_of tree.now }
    ensures { result ≡ is_counted_parameter tree.now k.0 }
{
    is_single_parameter(tree.kind(k)) && is_public(written(tree, k))
}

// 1 where the node is a parameter that counts.
fn parameter_part(tree: &Tree, k: NodeId) -> usize
    requires { k.0 < count_of tree.now }
    ensures part { result ≡ (if is_counted_parameter tree.now k.0 then 1 else 0) }
    ensures few { result ≤ 1 }
{
    if is_counted_parameter(tree, k) { 1 } else { 0 }
}

// How many of these nodes are parameters that count.
fn parameters_among(tree: &Tree, kids: &[NodeId]) -> usize
    requires { All (λ k. k.0 < count_of tree.now) kids.now }
    ensures { result ≡ parameters_among tree.now (map number_of kids.now) }
{
    let mut len = 0;
    let mut rest = kids;
    while let Some((kid, tail)) = rest.split_first() {
        len += parameter_part(tree, *kid);
        rest = tail;
    }
    len
}

// How many parameters of a function count.
fn parameter_count(tree: &Tree, n: NodeId) -> u64
    requires { n.0 < count_of tree.now }
    ensures { result ≡ parameter_count tree.now n.0 }
{
    parameters_among(tree, tree.kids(n)) as u64
}

// The message of a function, with how much it has and how much is allowed.
fn size_message(
    alloc: Global,
    file: FileId,
    tree: &Tree,
    rule: Rule,
    count: u64,
    most: u32,
    n: NodeId,
) -> Result<Message, Memory>
    requires { n.0 < count_of tree.now }
    ensures { IfOk result (λ message. message ≡ message_of file tree.now n.0 rule (decimal count ∷ decimal most ∷ [])) }
{
    let mut args = Texts::new(alloc);
    args.push(number_text(alloc, count)?)?;
    args.push(number_text(alloc, u64::from(most))?)?;
    Ok(message_with(file, tree, n, rule, args))
}

// Adds the message of a function that has more than is allowed.
fn check_size(
    alloc: Global,
    file: FileId,
    tree: &Tree,
    rule: Rule,
    count: u64,
    most: u32,
    n: NodeId,
    found: &mut Messages,
) -> Result<(), Memory>
    requires { n.0 < count_of tree.now }
    ensures { OnOk result (found.new ≡ found.old ++ too_many file tree.now rule count most n.0) }
{
    if is_def(tree.kind(n)) && u64::from(most) < count {
        found.push(size_message(alloc, file, tree, rule, count, most, n)?)?;
    }
    Ok(())
}

/// Adds the message of a function with more `return` than are allowed.
pub(crate) fn check_returns(
    alloc: Global,
    options: &Options,
    file: FileId,
    tree: &Tree,
    tables: &Tables,
    n: NodeId,
    found: &mut Messages,
) -> Result<(), Memory>
    requires made { n.0 < count_of tree.now }
    requires tables { AreTablesOf tree.now tables.now }
    ensures { OnOk result (found.new ≡ found.old ++ too_many_returns options.now file tree.now n.0) }
{
    let count = total(tree, tables, Size::Returns, n);
    let most = options.max_returns;
    check_size(
        alloc,
        file,
        tree,
        Rule::TooManyReturnStatements,
        count,
        most,
        n,
        found,
    )
}

/// Adds the message of a function with more branches than are allowed.
pub(crate) fn check_branches(
    alloc: Global,
    options: &Options,
    file: FileId,
    tree: &Tree,
    tables: &Tables,
    n: NodeId,
    found: &mut Messages,
) -> Result<(), Memory>
    requires made { n.0 < count_of tree.now }
    requires tables { AreTablesOf tree.now tables.now }
    ensures { OnOk result (found.new ≡ found.old ++ too_many_branches options.now file tree.now n.0) }
{
    let count = total(tree, tables, Size::Branches, n);
    let most = options.max_branches;
    check_size(
        alloc,
        file,
        tree,
        Rule::TooManyBranches,
        count,
        most,
        n,
        found,
    )
}

/// Adds the message of a function with more parameters than are allowed.
pub(crate) fn check_arguments(
    alloc: Global,
    options: &Options,
    file: FileId,
    tree: &Tree,
    n: NodeId,
    found: &mut Messages,
) -> Result<(), Memory>
    requires { n.0 < count_of tree.now }
    ensures { OnOk result (found.new ≡ found.old ++ too_many_arguments options.now file tree.now n.0) }
{
    let count = parameter_count(tree, n);
    let most = options.max_args;
    check_size(
        alloc,
        file,
        tree,
        Rule::TooManyArguments,
        count,
        most,
        n,
        found,
    )
}

/// Adds the message of a function with more statements than are allowed.
pub(crate) fn check_statements(
    alloc: Global,
    options: &Options,
    file: FileId,
    tree: &Tree,
    tables: &Tables,
    n: NodeId,
    found: &mut Messages,
) -> Result<(), Memory>
    requires made { n.0 < count_of tree.now }
    requires tables { AreTablesOf tree.now tables.now }
    ensures { OnOk result (found.new ≡ found.old ++ too_many_statements options.now file tree.now n.0) }
{
    let count = total(tree, tables, Size::Statements, n);
    let most = options.max_statements;
    check_size(
        alloc,
        file,
        tree,
        Rule::TooManyStatements,
        count,
        most,
        n,
        found,
    )
}
