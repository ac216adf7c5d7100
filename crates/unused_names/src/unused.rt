// The checks of unused names.
ghost use Rattle.std.specs.Prelude.{◌≡◌, ◌<◌, ◌++◌, Some, IfOk, OnOk};
ghost use Rattle.tree_nodes.specs.Trees.{count_of};
ghost use Rattle.scope_rules.specs.Binding.{binds};
ghost use Rattle.scope_bind.specs.Scoped.{AreScopesOf};
ghost use Rattle.unused_names.specs.Reads.{plain_name, unless_read};
ghost use Rattle.unused_names.specs.Knowledge.{IsKnown};
ghost use Rattle.unused_names.specs.UnusedRules.{name_messages, node_messages, unused_messages};

use crate::arguments::check_arguments;
use crate::firsts::{first_home, plain_name};
use crate::imports::check_imports;
use crate::known::{Known, known_of};
use crate::reads::is_read;
use crate::variables::check_variable;
use lint_messages::Messages;
use lint_values::{FileId, Memory, NodeId};
use scope_bind::Scopes;
use std::alloc::Global;
use tree_nodes::Tree;

/// Adds the messages of a name that is never read.
fn check_unread(
    alloc: Global,
    file: FileId,
    is_package: bool,
    tree: &Tree,
    scopes: &Scopes,
    known: &Known,
    n: NodeId,
    scope: u32,
    name: &str,
    found: &mut Messages,
) -> Result<(), Memory>
    requires node { n.0 < count_of tree.now }
    requires made { scope < count_of tree.now }
    requires scopes { AreScopesOf tree.now scopes.now }
    requires known { IsKnown tree.now known.now }
    ensures { OnOk result (found.new ≡ found.old ++ name_messages file is_package tree.now n.0 (Some (record { scope = scope; name = name.now }))) }
{
    check_imports(
        alloc, file, is_package, tree, scopes, known, scope, name, found,
    )?;
    check_variable(alloc, file, tree, scopes, known, n, scope, name, found)?;
    check_arguments(alloc, file, tree, scopes, known, scope, name, found)?;
    Ok(())
}

/// Adds the messages of a name of a scope.
fn check_name(
    alloc: Global,
    file: FileId,
    is_package: bool,
    tree: &Tree,
    scopes: &Scopes,
    known: &Known,
    n: NodeId,
    scope: u32,
    name: &str,
    found: &mut Messages,
) -> Result<(), Memory>
    requires node { n.0 < count_of tree.now }
    requires made { scope < count_of tree.now }
    requires scopes { AreScopesOf tree.now scopes.now }
    requires known { IsKnown tree.now known.now }
    ensures { OnOk result (found.new ≡ found.old ++ name_messages file is_package tree.now n.0 (unless_read tree.now (Some (record { scope = scope; name = name.now })))) }
{
    if is_read(tree, scopes, known, scope, name) {
        Ok(())
    } else {
        check_unread(
            alloc, file, is_package, tree, scopes, known, n, scope, name, found,
        )
    }
}

/// Adds the messages of the name that a node binds, where it is its first binder.
fn check_bound(
    alloc: Global,
    file: FileId,
    is_package: bool,
    tree: &Tree,
    scopes: &Scopes,
    known: &Known,
    n: NodeId,
    name: &str,
    found: &mut Messages,
) -> Result<(), Memory>
    requires node { n.0 < count_of tree.now }
    requires scopes { AreScopesOf tree.now scopes.now }
    requires known { IsKnown tree.now known.now }
    requires bound { plain_name (binds tree.now n.0) ≡ Some name.now }
    ensures { OnOk result (found.new ≡ found.old ++ node_messages file is_package tree.now n.0) }
{
    match first_home(tree, scopes, n, name) {
        Some(scope) => check_name(
            alloc, file, is_package, tree, scopes, known, n, scope, name, found,
        ),
        None => Ok(()),
    }
}

/// Adds the messages of the name that a node is the first to bind.
fn check_node(
    alloc: Global,
    file: FileId,
    is_package: bool,
    tree: &Tree,
    scopes: &Scopes,
    known: &Known,
    n: NodeId,
    found: &mut Messages,
) -> Result<(), Memory>
    requires node { n.0 < count_of tree.now }
    requires scopes { AreScopesOf tree.now scopes.now }
    requires known { IsKnown tree.now known.now }
    ensures { OnOk result (found.new ≡ found.old ++ node_messages file is_package tree.now n.0) }
{
    match plain_name(tree, scopes, n) {
        Some(name) => check_bound(alloc, file, is_package, tree, scopes, known, n, name, found),
        None => Ok(()),
    }
}

/// The messages on unused names of a file: imports, local variables of functions and parameters that are never read.
/// `is_package` says that the file is an `__init__.py`.
pub fn check_unused(
    alloc: Global,
    file: FileId,
    is_package: bool,
    tree: &Tree,
    scopes: &Scopes,
) -> Result<Messages, Memory>
    requires { AreScopesOf tree.now scopes.now }
    ensures { IfOk result (λ messages. messages ≡ unused_messages file is_package tree.now) }
{
    let known = known_of(alloc, tree, scopes)?;
    let mut found = Messages::new(alloc);
    for n in 0..tree.count() {
        check_node(
            alloc,
            file,
            is_package,
            tree,
            scopes,
            &known,
            NodeId(n),
            &mut found,
        )?;
    }
    Ok(found)
}
