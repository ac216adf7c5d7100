// The rule on `global` statements.
ghost use Rattle.std.specs.Prelude.{◌≡◌, ◌<◌, ◌++◌, ◌==◌, All, OnOk, map};
ghost use Rattle.std.specs.List.{list_any};
ghost use Rattle.tree_nodes.specs.Trees.{count_of, kids_at};
ghost use Rattle.tree_nodes.specs.Kept.{number_of};
ghost use Rattle.scope_rules.specs.Mangling.{spelled};
ghost use Rattle.scope_rules.specs.Binding.{own_scope};
ghost use Rattle.scope_rules.specs.Answers.{binders_of};
ghost use Rattle.scope_bind.specs.Scoped.{AreScopesOf};
ghost use Rattle.check_names.specs.Globals.{binds_global, binds_one, is_used_global, global_statement, global_statements};

use crate::asked::{around, binders, own_scope, spelled};
use crate::kinds::is_global;
use lint_messages::{Code, Messages};
use lint_values::{FileId, Memory, NodeId};
use rule_nodes::{is_def, message_at};
use scope_bind::Scopes;
use std::alloc::Global;
use tree_nodes::Tree;

/// Whether a node makes its name local to a scope.
fn is_of_scope(tree: &Tree, scopes: &Scopes, scope: NodeId, n: NodeId) -> bool
    requires scopes { AreScopesOf tree.now scopes.now }
    requires made { n.0 < count_of tree.now }
    ensures { result ≡ (own_scope tree.now n.0 == scope.0) }
{
    own_scope(tree, scopes, n).0 == scope.0
}

/// Whether some of these nodes makes its name local to a scope.
fn any_of_scope(tree: &Tree, scopes: &Scopes, scope: NodeId, nodes: &[NodeId]) -> bool
    requires scopes { AreScopesOf tree.now scopes.now }
    requires made { All (λ b. b.0 < count_of tree.now) nodes.now }
    ensures { result ≡ list_any (λ b. own_scope tree.now b == scope.0) (map number_of nodes.now) }
{
    let mut rest = nodes;
    while let [node, tail @ ..] = rest {
        if is_of_scope(tree, scopes, scope, *node) {
            return true;
        }
        rest = tail;
    }
    false
}

/// Whether a scope binds a name of the module.
fn binds_name(tree: &Tree, scopes: &Scopes, scope: NodeId, name: &str) -> bool
    requires { AreScopesOf tree.now scopes.now }
    ensures { result ≡ list_any (λ b. own_scope tree.now b == scope.0) (binders_of tree.now 0 name.now) }
{
    any_of_scope(tree, scopes, scope, binders(tree, scopes, NodeId(0), name))
}

/// Whether a scope binds the module's name that a node has.
fn binds_global(tree: &Tree, scopes: &Scopes, scope: NodeId, n: NodeId) -> bool
    requires scopes { AreScopesOf tree.now scopes.now }
    requires made { n.0 < count_of tree.now }
    ensures { result ≡ binds_global tree.now scope.0 (spelled tree.now n.0) }
{
    match spelled(tree, scopes, n) {
        Some(name) => binds_name(tree, scopes, scope, name),
        None => false,
    }
}

/// Whether a scope binds one of the names that these nodes declare.
fn binds_one(tree: &Tree, scopes: &Scopes, scope: NodeId, names: &[NodeId]) -> bool
    requires scopes { AreScopesOf tree.now scopes.now }
    requires made { All (λ k. k.0 < count_of tree.now) names.now }
    ensures { result ≡ binds_one tree.now scope.0 (map number_of names.now) }
{
    let mut rest = names;
    while let [name, tail @ ..] = rest {
        if binds_global(tree, scopes, scope, *name) {
            return true;
        }
        rest = tail;
    }
    false
}

/// Whether a scope binds one of the names that a statement declares.
fn binds_declared(tree: &Tree, scopes: &Scopes, scope: NodeId, n: NodeId) -> bool
    requires scopes { AreScopesOf tree.now scopes.now }
    requires made { n.0 < count_of tree.now }
    ensures { result ≡ binds_one tree.now scope.0 (kids_at tree.now n.0) }
{
    binds_one(tree, scopes, scope, tree.kids(n))
}

fn is_used_global(tree: &Tree, scopes: &Scopes, n: NodeId) -> bool
    requires scopes { AreScopesOf tree.now scopes.now }
    requires made { n.0 < count_of tree.now }
    ensures { result ≡ is_used_global tree.now n.0 }
{
    let scope = around(tree, scopes, n);
    is_global(tree.kind(n)) && (is_def(tree.kind(scope)) && binds_declared(tree, scopes, scope, n))
}

/// Adds the message of a node.
fn check_global(
    alloc: Global,
    file: FileId,
    tree: &Tree,
    scopes: &Scopes,
    n: NodeId,
    found: &mut Messages,
) -> Result<(), Memory>
    requires scopes { AreScopesOf tree.now scopes.now }
    requires made { n.0 < count_of tree.now }
    ensures { OnOk result (found.new ≡ found.old ++ global_statement file tree.now n.0) }
{
    if is_used_global(tree, scopes, n) {
        found.push(message_at(alloc, file, tree, n, Code::GlobalStatement))?;
    }
    Ok(())
}

/// Adds the messages on `global` statements.
pub(crate) fn check_globals(
    alloc: Global,
    file: FileId,
    tree: &Tree,
    scopes: &Scopes,
    found: &mut Messages,
) -> Result<(), Memory>
    requires { AreScopesOf tree.now scopes.now }
    ensures { OnOk result (found.new ≡ found.old ++ global_statements file tree.now) }
{
    for n in 0..tree.count() {
        check_global(alloc, file, tree, scopes, NodeId(n), found)?;
    }
    Ok(())
}
