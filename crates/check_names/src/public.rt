// The public names that nodes make local. Private names, which a class changes, are not public.
ghost use Rattle.std.specs.Prelude.{◌≡◌, ◌<◌, option_copied};
ghost use Rattle.tree_nodes.specs.Trees.{count_of, kids_at, parent_at};
ghost use Rattle.scope_rules.specs.Nodes.{first};
ghost use Rattle.scope_rules.specs.Mangling.{spelled};
ghost use Rattle.scope_rules.specs.Binding.{before_dot, imported, is_below, is_handler, handled, makes_local_else};
ghost use Rattle.scope_bind.specs.Scoped.{AreScopesOf};
ghost use Rattle.rule_nodes.specs.Nodes.{is_public};
ghost use Rattle.check_names.specs.Nodes.{public_of, public_name};

use crate::asked::spelled;
use lint_values::NodeId;
use rule_nodes::{is_alias, is_as_name, is_binder, is_handler, is_public};
use scope_bind::Scopes;
use tree_nodes::Tree;

/// The name, where there is one that is public.
fn public_of<'n>(name: Option<&'n str>) -> Option<&'n str>
    ensures { option_copied result ≡ public_of (option_copied name.entry) }
{
    match name {
        Some(name) => { if is_public(name) { Some(name) } else { None } }
        None => None,
    }
}

/// A node's name as it is read, if it is public.
fn public_spelled<'n>(tree: &Tree, scopes: &'n Scopes, n: NodeId) -> Option<&'n str>
    requires scopes { AreScopesOf tree.now scopes.now }
    requires made { n.0 < count_of tree.now }
    ensures { option_copied result ≡ public_of (spelled tree.now n.0) }
{
    public_of(spelled(tree, scopes, n))
}

/// The part of a dotted name before its first dot.
fn before_dot(name: &str) -> &str
    ensures { result.now ≡ before_dot name.now }
{
    match name.split_once('.') {
        Some((front, _)) => front,
        None => name,
    }
}

/// The public name that an import without `as` binds.
fn first_part(tree: &Tree, n: NodeId) -> Option<&str>
    requires { n.0 < count_of tree.now }
    ensures { option_copied result ≡ public_of (imported tree.now n.0 None) }
{
    match tree.name(n) {
        Some(name) => public_of(Some(before_dot(name))),
        None => None,
    }
}

/// The public name that an import binds.
fn imported<'n>(tree: &'n Tree, scopes: &'n Scopes, n: NodeId) -> Option<&'n str>
    requires scopes { AreScopesOf tree.now scopes.now }
    requires made { n.0 < count_of tree.now }
    ensures { option_copied result ≡ public_of (imported tree.now n.0 (first (kids_at tree.now n.0))) }
{
    match tree.kids(n) {
        [k, ..] => public_spelled(tree, scopes, *k),
        [] => first_part(tree, n),
    }
}

/// Whether a node stands below a handler of exceptions.
fn is_handled(tree: &Tree, n: NodeId) -> bool
    requires { n.0 < count_of tree.now }
    ensures { result ≡ is_below is_handler tree.now (parent_at tree.now n.0) }
{
    match tree.parent(n) {
        Some(q) => is_handler(tree.kind(q)),
        None => false,
    }
}

/// The public name behind the `as` of a handler.
#[tactic(auto, unfolding(scope_rules::specs::Binding::handled))]
fn handled<'n>(tree: &Tree, scopes: &'n Scopes, n: NodeId) -> Option<&'n str>
    requires scopes { AreScopesOf tree.now scopes.now }
    requires made { n.0 < count_of tree.now }
    ensures { option_copied result ≡ public_of (handled tree.now n.0) }
{
    if is_handled(tree, n) {
        public_spelled(tree, scopes, n)
    } else {
        None
    }
}

/// The public name that a handler or an import binds.
#[tactic(auto, unfolding(scope_rules::specs::Binding::makes_local_else))]
fn public_else<'n>(tree: &'n Tree, scopes: &'n Scopes, n: NodeId) -> Option<&'n str>
    requires scopes { AreScopesOf tree.now scopes.now }
    requires made { n.0 < count_of tree.now }
    ensures { option_copied result ≡ public_of (makes_local_else tree.now n.0) }
{
    if is_as_name(tree.kind(n)) {
        handled(tree, scopes, n)
    } else if is_alias(tree.kind(n)) {
        imported(tree, scopes, n)
    } else {
        None
    }
}

/// The public name that a node makes local.
#[tactic(auto, unfolding(scope_rules::specs::Binding::makes_local))]
pub(crate) fn public_name<'n>(tree: &'n Tree, scopes: &'n Scopes, n: NodeId) -> Option<&'n str>
    requires scopes { AreScopesOf tree.now scopes.now }
    requires made { n.0 < count_of tree.now }
    ensures { option_copied result ≡ public_name tree.now n.0 }
{
    if is_binder(tree.kind(n)) {
        public_spelled(tree, scopes, n)
    } else {
        public_else(tree, scopes, n)
    }
}
