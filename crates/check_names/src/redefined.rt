// The rule on builtin names that are bound.
ghost use Rattle.std.specs.Prelude.{◌≡◌, ◌<◌, ◌++◌, ◌&&◌, OnOk, Some, map, option_copied};
ghost use Rattle.std.specs.List.{list_any};
ghost use Rattle.std.specs.Str.{bytes_eq};
ghost use Rattle.tree_nodes.specs.Trees.{count_of};
ghost use Rattle.tree_nodes.specs.Kept.{number_of};
ghost use Rattle.scope_rules.specs.Nodes.{first, is_number};
ghost use Rattle.scope_rules.specs.Answers.{binders_of};
ghost use Rattle.scope_bind.specs.Scoped.{AreScopesOf};
ghost use Rattle.check_names.specs.Redefined.{is_builtin_name, is_first_binder, is_first_around, redefined_by, redefined_builtin, redefined_builtins};

use crate::asked::{around, binders};
use crate::kinds::is_module_or_def;
use crate::public::public_name;
use lint_messages::{Code, Messages};
use lint_values::{FileId, Memory, NodeId, Text};
use rule_nodes::message_on;
use scope_bind::Scopes;
use scope_rules::BUILTIN_NAMES;
use std::alloc::Global;
use tree_nodes::Tree;

/// Whether a name is one of these.
fn is_one_of(names: &[&str], name: &str) -> bool
    ensures { result ≡ list_any (λ other. bytes_eq name.now other.now) names.now }
{
    names.iter().any(|other| name == *other)
}

/// Whether a name is in the table of builtin names.
fn is_builtin_name(name: &str) -> bool
    ensures { result ≡ is_builtin_name name.now }
{
    is_one_of(&BUILTIN_NAMES, name)
}

/// Whether a node is the first of some.
fn is_first(nodes: &[NodeId], n: NodeId) -> bool
    ensures { result ≡ is_number (first (map number_of nodes.now)) n.0 }
{
    match nodes {
        [node, ..] => node.0 == n.0,
        [] => false,
    }
}

/// Whether a node is the first to bind a name in a scope.
fn is_first_in(tree: &Tree, scopes: &Scopes, n: NodeId, name: &str, scope: NodeId) -> bool
    requires { AreScopesOf tree.now scopes.now }
    ensures { result ≡ is_number (first (binders_of tree.now scope.0 name.now)) n.0 }
{
    is_first(binders(tree, scopes, scope, name), n)
}

/// Whether a scope is the module or a function, where a node is the first to bind a name.
fn is_first_binder(tree: &Tree, scopes: &Scopes, n: NodeId, name: &str, scope: NodeId) -> bool
    requires scopes { AreScopesOf tree.now scopes.now }
    requires made { scope.0 < count_of tree.now }
    ensures { result ≡ is_first_binder tree.now n.0 name.now scope.0 }
{
    is_module_or_def(tree.kind(scope)) && is_first_in(tree, scopes, n, name, scope)
}

/// Whether a node is the first to bind a name in some scope around it.
fn is_first_around(tree: &Tree, scopes: &Scopes, n: NodeId, name: &str) -> bool
    requires scopes { AreScopesOf tree.now scopes.now }
    requires made { n.0 < count_of tree.now }
    ensures { result ≡ is_first_around tree.now n.0 name.now }
{
    let mut s = around(tree, scopes, n);
    'outwards: while s.0 != 0 {
        if is_first_binder(tree, scopes, n, name, s) {
            return true;
        }
        s = around(tree, scopes, s);
    }
    is_first_binder(tree, scopes, n, name, s)
}

fn is_redefined(tree: &Tree, scopes: &Scopes, n: NodeId, name: &str) -> bool
    requires scopes { AreScopesOf tree.now scopes.now }
    requires made { n.0 < count_of tree.now }
    ensures { result ≡ (is_builtin_name name.now && is_first_around tree.now n.0 name.now) }
{
    is_builtin_name(name) && is_first_around(tree, scopes, n, name)
}

/// Adds the message of a node that makes this name local.
fn check_bound(
    alloc: Global,
    file: FileId,
    tree: &Tree,
    scopes: &Scopes,
    n: NodeId,
    name: &str,
    found: &mut Messages,
) -> Result<(), Memory>
    requires scopes { AreScopesOf tree.now scopes.now }
    requires made { n.0 < count_of tree.now }
    ensures { OnOk result (found.new ≡ found.old ++ redefined_by file tree.now n.0 (Some name.now)) }
{
    if is_redefined(tree, scopes, n, name) {
        let text = Text::from_str(alloc, name)?;
        found.push(message_on(alloc, file, tree, n, Code::RedefinedBuiltin, text)?)?;
    }
    Ok(())
}

/// Adds the message of a node that makes a name local, if there is one.
fn check_name(
    alloc: Global,
    file: FileId,
    tree: &Tree,
    scopes: &Scopes,
    n: NodeId,
    name: Option<&str>,
    found: &mut Messages,
) -> Result<(), Memory>
    requires scopes { AreScopesOf tree.now scopes.now }
    requires made { n.0 < count_of tree.now }
    ensures { OnOk result (found.new ≡ found.old ++ redefined_by file tree.now n.0 (option_copied name.entry)) }
{
    match name {
        Some(name) => {
            check_bound(alloc, file, tree, scopes, n, name, found)?;
            Ok(())
        }
        None => Ok(()),
    }
}

/// Adds the message of a node.
fn check_binder(
    alloc: Global,
    file: FileId,
    tree: &Tree,
    scopes: &Scopes,
    n: NodeId,
    found: &mut Messages,
) -> Result<(), Memory>
    requires scopes { AreScopesOf tree.now scopes.now }
    requires made { n.0 < count_of tree.now }
    ensures { OnOk result (found.new ≡ found.old ++ redefined_builtin file tree.now n.0) }
{
    let name = public_name(tree, scopes, n);
    check_name(alloc, file, tree, scopes, n, name, found)?;
    Ok(())
}

/// Adds the messages on builtin names that are bound.
pub(crate) fn check_redefined(
    alloc: Global,
    file: FileId,
    tree: &Tree,
    scopes: &Scopes,
    found: &mut Messages,
) -> Result<(), Memory>
    requires { AreScopesOf tree.now scopes.now }
    ensures { OnOk result (found.new ≡ found.old ++ redefined_builtins file tree.now) }
{
    for n in 0..tree.count() {
        check_binder(alloc, file, tree, scopes, NodeId(n), found)?;
    }
    Ok(())
}
