// Names of scopes, by their first binders.
ghost use Rattle.std.specs.Prelude.{◌≡◌, ◌<◌, ◌==◌, Some, None, IfSome, map, length, option_copied};
ghost use Rattle.tree_nodes.specs.Trees.{count_of, kids_at, parent_at};
ghost use Rattle.tree_nodes.specs.Kept.{number_of};
ghost use Rattle.scope_rules.specs.Nodes.{first, is_number};
ghost use Rattle.scope_rules.specs.Mangling.{spelled};
ghost use Rattle.scope_rules.specs.Binding.{before_dot, is_below, is_handler, is_bare, is_bare_below, imported, handled, makes_local_else, makes_local, binds, own_scope};
ghost use Rattle.scope_rules.specs.Marks.{mark_at};
ghost use Rattle.scope_rules.specs.Declaring.{home};
ghost use Rattle.scope_rules.specs.Answers.{binders_of};
ghost use Rattle.scope_bind.specs.Scoped.{AreScopesOf};
ghost use Rattle.unused_names.specs.Reads.{plain_name, by_first_binder};

use crate::answers::{around, binders, spelled};
use crate::exempt::is_exempt;
use crate::kinds::is_annotated;
use crate::locals::beyond_comprehensions;
use lint_values::NodeId;
use rule_nodes::{is_alias, is_as_name, is_binder, is_handler, is_walrus};
use scope_bind::Scopes;
use tree_nodes::Tree;

/// A name, unless it is exempt.
fn unless_exempt(name: Option<&str>) -> Option<&str>
    ensures { option_copied result ≡ plain_name (option_copied name.entry) }
{
    match name {
        Some(name) => { if is_exempt(name) { None } else { Some(name) } }
        None => None,
    }
}

/// A node's name as it is read, unless it is exempt.
fn plain_spelled<'s>(tree: &Tree, scopes: &'s Scopes, n: NodeId) -> Option<&'s str>
    requires made { n.0 < count_of tree.now }
    requires scopes { AreScopesOf tree.now scopes.now }
    ensures { option_copied result ≡ plain_name (spelled tree.now n.0) }
{
    unless_exempt(spelled(tree, scopes, n))
}

/// The part of a dotted name before its first dot.
fn before_dot(name: &str) -> &str
    ensures { result.now ≡ before_dot name.now }
{
    match name.split_once('.') {
        Some((front, _)) => front,
        None => name,
    }
}

/// The name that an import without `as` binds, unless it is exempt.
fn plain_first_part<'t>(tree: &'t Tree, n: NodeId) -> Option<&'t str>
    requires { n.0 < count_of tree.now }
    ensures { option_copied result ≡ plain_name (imported tree.now n.0 None) }
{
    match tree.name(n) {
        Some(name) => unless_exempt(Some(before_dot(name))),
        None => None,
    }
}

/// The name that an import binds, unless it is exempt.
fn plain_imported<'t>(tree: &'t Tree, scopes: &'t Scopes, n: NodeId) -> Option<&'t str>
    requires made { n.0 < count_of tree.now }
    requires scopes { AreScopesOf tree.now scopes.now }
    ensures { option_copied result ≡ plain_name (imported tree.now n.0 (first (kids_at tree.now n.0))) }
{
    match tree.kids(n) {
        [k, ..] => plain_spelled(tree, scopes, *k),
        [] => plain_first_part(tree, n),
    }
}

fn is_handled(tree: &Tree, n: NodeId) -> bool
    requires { n.0 < count_of tree.now }
    ensures { result ≡ is_below is_handler tree.now (parent_at tree.now n.0) }
{
    match tree.parent(n) {
        Some(q) => is_handler(tree.kind(q)),
        None => false,
    }
}

/// The name behind the `as` of a handler, unless it is exempt.
#[tactic(auto, unfolding(scope_rules::specs::Binding::handled))]
fn plain_handled<'s>(tree: &Tree, scopes: &'s Scopes, n: NodeId) -> Option<&'s str>
    requires made { n.0 < count_of tree.now }
    requires scopes { AreScopesOf tree.now scopes.now }
    ensures { option_copied result ≡ plain_name (handled tree.now n.0) }
{
    if is_handled(tree, n) {
        plain_spelled(tree, scopes, n)
    } else {
        None
    }
}

#[tactic(auto, unfolding(scope_rules::specs::Binding::makes_local_else))]
fn plain_else<'t>(tree: &'t Tree, scopes: &'t Scopes, n: NodeId) -> Option<&'t str>
    requires made { n.0 < count_of tree.now }
    requires scopes { AreScopesOf tree.now scopes.now }
    ensures { option_copied result ≡ plain_name (makes_local_else tree.now n.0) }
{
    if is_as_name(tree.kind(n)) {
        plain_handled(tree, scopes, n)
    } else if is_alias(tree.kind(n)) {
        plain_imported(tree, scopes, n)
    } else {
        None
    }
}

#[tactic(auto, unfolding(scope_rules::specs::Binding::makes_local))]
fn plain_local<'t>(tree: &'t Tree, scopes: &'t Scopes, n: NodeId) -> Option<&'t str>
    requires made { n.0 < count_of tree.now }
    requires scopes { AreScopesOf tree.now scopes.now }
    ensures { option_copied result ≡ plain_name (makes_local tree.now n.0) }
{
    if is_binder(tree.kind(n)) {
        plain_spelled(tree, scopes, n)
    } else {
        plain_else(tree, scopes, n)
    }
}

fn has_two_kids(tree: &Tree, q: NodeId) -> bool
    requires { q.0 < count_of tree.now }
    ensures { result ≡ (length (kids_at tree.now q.0) == 2) }
{
    tree.kids(q).len() == 2
}

/// Whether a statement annotates its target and gives it no value.
#[tactic(auto, unfolding(scope_rules::specs::Binding::is_bare_below))]
fn is_bare_statement(tree: &Tree, q: NodeId) -> bool
    requires { q.0 < count_of tree.now }
    ensures { result ≡ is_bare_below tree.now (Some q.0) }
{
    is_annotated(tree.kind(q)) && has_two_kids(tree, q)
}

/// Whether a node is the target of an annotation without a value.
#[tactic(auto, unfolding(scope_rules::specs::Binding::is_bare))]
fn is_bare(tree: &Tree, n: NodeId) -> bool
    requires { n.0 < count_of tree.now }
    ensures { result ≡ is_bare tree.now n.0 }
{
    match tree.parent(n) {
        Some(q) => is_bare_statement(tree, q),
        None => false,
    }
}

/// The name that a node binds, unless it is exempt.
#[tactic(auto, unfolding(scope_rules::specs::Binding::binds))]
pub(crate) fn plain_name<'t>(tree: &'t Tree, scopes: &'t Scopes, n: NodeId) -> Option<&'t str>
    requires made { n.0 < count_of tree.now }
    requires scopes { AreScopesOf tree.now scopes.now }
    ensures { option_copied result ≡ plain_name (binds tree.now n.0) }
{
    if is_bare(tree, n) {
        None
    } else {
        plain_local(tree, scopes, n)
    }
}

/// The scope in which a node makes its name local.
#[tactic(auto, unfolding(scope_rules::specs::Binding::own_scope))]
fn own_scope(tree: &Tree, scopes: &Scopes, n: NodeId) -> u32
    requires made { n.0 < count_of tree.now }
    requires scopes { AreScopesOf tree.now scopes.now }
    ensures value { result ≡ own_scope tree.now n.0 }
    ensures within { result < count_of tree.now }
{
    let place = around(tree, scopes, n).0;
    if is_walrus(tree.kind(n)) {
        beyond_comprehensions(tree, scopes, place)
    } else {
        place
    }
}

fn begins_with(nodes: &[NodeId], n: NodeId) -> bool
    ensures { result ≡ is_number (first (map number_of nodes.now)) n.0 }
{
    match nodes {
        [node, ..] => node.0 == n.0,
        [] => false,
    }
}

/// Whether a node is the first binder of a name in a scope.
fn is_first_in(tree: &Tree, scopes: &Scopes, scope: u32, name: &str, n: NodeId) -> bool
    requires { AreScopesOf tree.now scopes.now }
    ensures { result ≡ is_number (first (binders_of tree.now scope name.now)) n.0 }
{
    begins_with(binders(tree, scopes, scope, name), n)
}

/// The scope in which a node is the first binder of its name, if it is one.
pub(crate) fn first_home(tree: &Tree, scopes: &Scopes, n: NodeId, name: &str) -> Option<u32>
    requires made { n.0 < count_of tree.now }
    requires scopes { AreScopesOf tree.now scopes.now }
    requires bound { binds tree.now n.0 ≡ Some name.now }
    ensures value { mark_at result name.now ≡ by_first_binder tree.now n.0 (mark_at (home tree.now (own_scope tree.now n.0) name.now) name.now) }
    ensures within { IfSome result (λ s. s < count_of tree.now) }
{
    let mut s = own_scope(tree, scopes, n);
    'outwards: loop {
        if is_first_in(tree, scopes, s, name, n) {
            return Some(s);
        }
        if s == 0 {
            return None;
        }
        s = around(tree, scopes, NodeId(s)).0;
    }
}
