// The rule on names that are read and lead nowhere.
ghost use Rattle.std.specs.Prelude.{◌≡◌, ◌<◌, ◌++◌, OnOk};
ghost use Rattle.tree_nodes.specs.Trees.{count_of};
ghost use Rattle.scope_bind.specs.Lists.{IsListOf};
ghost use Rattle.scope_bind.specs.Scoped.{AreScopesOf};
ghost use Rattle.rule_nodes.specs.Nodes.{written, of_nodes};
ghost use Rattle.check_names.specs.Nodes.{is_among};
ghost use Rattle.check_names.specs.Guards.{is_guarded};
ghost use Rattle.check_names.specs.Undefined.{is_nowhere, leads_nowhere, is_undefined, undefined_variable, has_wildcard, undefined_variables};

use crate::asked::resolved;
use crate::guards::{guarded_of, is_guarded};
use crate::kinds::is_wildcard;
use crate::nodes::is_among;
use crate::truth::either;
use lint_messages::{Code, Messages};
use lint_values::{FileId, Memory, NodeId, Text};
use rule_nodes::{is_read_name, message_on, written};
use scope_bind::{Scopes, Where};
use std::alloc::Global;
use tree_nodes::Tree;

fn is_nowhere(answer: Where) -> bool
    ensures { result ≡ is_nowhere answer }
{
    match answer {
        Where::Nowhere => true,
        Where::Local(_) | Where::Free(_) | Where::Global | Where::Builtin => false,
    }
}

/// Whether a node is a name that is read and leads nowhere.
fn leads_nowhere(tree: &Tree, scopes: &Scopes, n: NodeId) -> bool
    requires scopes { AreScopesOf tree.now scopes.now }
    requires made { n.0 < count_of tree.now }
    ensures { result ≡ leads_nowhere tree.now n.0 }
{
    if is_read_name(tree.kind(n)) {
        is_nowhere(resolved(tree, scopes, n))
    } else {
        false
    }
}

/// Whether a node's name is one of these.
fn is_written_among(tree: &Tree, names: &[Text], n: NodeId) -> bool
    requires { n.0 < count_of tree.now }
    ensures { result ≡ is_among names.now (written tree.now n.0) }
{
    is_among(names, written(tree, n))
}

fn is_undefined(
    tree: &Tree,
    scopes: &Scopes,
    additional: &[Text],
    guarded: &[bool],
    n: NodeId,
) -> bool
    requires scopes { AreScopesOf tree.now scopes.now }
    requires made { n.0 < count_of tree.now }
    requires guarded { IsListOf (is_guarded tree.now) tree.now guarded.now }
    ensures { result ≡ is_undefined additional.now tree.now n.0 }
{
    leads_nowhere(tree, scopes, n)
        && (!is_written_among(tree, additional, n) && !is_guarded(tree, guarded, n))
}

/// Adds the message of a node.
fn check_read(
    alloc: Global,
    file: FileId,
    tree: &Tree,
    scopes: &Scopes,
    additional: &[Text],
    guarded: &[bool],
    n: NodeId,
    found: &mut Messages,
) -> Result<(), Memory>
    requires scopes { AreScopesOf tree.now scopes.now }
    requires made { n.0 < count_of tree.now }
    requires guarded { IsListOf (is_guarded tree.now) tree.now guarded.now }
    ensures { OnOk result (found.new ≡ found.old ++ undefined_variable file additional.now tree.now n.0) }
{
    if is_undefined(tree, scopes, additional, guarded, n) {
        let name = written(tree, n);
        let text = Text::from_str(alloc, name)?;
        found.push(message_on(alloc, file, tree, n, Code::UndefinedVariable, text)?)?;
    }
    Ok(())
}

/// Adds the messages of all nodes.
fn check_reads(
    alloc: Global,
    file: FileId,
    tree: &Tree,
    scopes: &Scopes,
    additional: &[Text],
    guarded: &[bool],
    found: &mut Messages,
) -> Result<(), Memory>
    requires scopes { AreScopesOf tree.now scopes.now }
    requires guarded { IsListOf (is_guarded tree.now) tree.now guarded.now }
    ensures { OnOk result (found.new ≡ found.old ++ of_nodes (undefined_variable file additional.now tree.now) tree.now) }
{
    for n in 0..tree.count() {
        check_read(
            alloc,
            file,
            tree,
            scopes,
            additional,
            guarded,
            NodeId(n),
            found,
        )?;
    }
    Ok(())
}

/// Whether the file imports all names of a module.
fn has_wildcard(tree: &Tree) -> bool
    ensures { result ≡ has_wildcard tree.now }
{
    let mut found = false;
    for n in 0..tree.count() {
        found = either(found, is_wildcard(tree.kind(NodeId(n))));
    }
    found
}

/// Adds the messages on names that are read and lead nowhere.
pub(crate) fn check_undefined(
    alloc: Global,
    file: FileId,
    tree: &Tree,
    scopes: &Scopes,
    additional: &[Text],
    found: &mut Messages,
) -> Result<(), Memory>
    requires { AreScopesOf tree.now scopes.now }
    ensures { OnOk result (found.new ≡ found.old ++ undefined_variables file additional.now tree.now) }
{
    if !has_wildcard(tree) {
        let guarded = guarded_of(alloc, tree)?;
        check_reads(
            alloc,
            file,
            tree,
            scopes,
            additional,
            guarded.as_slice(),
            found,
        )?;
    }
    Ok(())
}
