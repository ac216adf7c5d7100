// Each node's name as it is read, and the name that it makes local.
ghost use Rattle.std.specs.Prelude.{◌≡◌, ◌<◌, if◌then◌else◌, map, option_copied, IfOk, IfSome};
ghost use Rattle.tree_nodes.specs.Trees.{count_of, kids_at, parent_at};
ghost use Rattle.scope_rules.specs.Nodes.{kind_of, name_of, first};
ghost use Rattle.scope_rules.specs.Places.{around};
ghost use Rattle.scope_rules.specs.Mangling.{is_read, class_from, name_at as class_name_at, read_at, spelled};
ghost use Rattle.scope_rules.specs.Binding.{before_dot, imported, is_below, is_handler, handled, makes_local_else, makes_local};
ghost use Rattle.scope_bind.specs.Lists.{IsListOf, IsListUpTo};

use crate::kinds::{is_alias, is_as_name, is_binder, is_handler, is_read};
use crate::known::{class_at, name_at, place_at};
use crate::mangling::mangled;
use lint_values::{Memory, NodeId, Text};
use std::alloc::Global;
use tree_nodes::Tree;

/// The name of a class, if there is one.
fn class_name(tree: &Tree, class: Option<u32>) -> Option<&str>
    requires { IfSome class (λ c. c < count_of tree.now) }
    ensures { option_copied result ≡ class_name_at tree.now class }
{
    match class {
        Some(class) => tree.name(NodeId(class)),
        None => None,
    }
}

/// A name as it is read where a node stands.
#[tactic(auto, unfolding(scope_rules::specs::Mangling::read_at))]
fn read_at(
    alloc: Global,
    tree: &Tree,
    places: &[u32],
    classes: &[Option<u32>],
    n: NodeId,
    name: &str,
) -> Result<Text, Memory>
    requires made { n.0 < count_of tree.now }
    requires places { IsListOf (around tree.now) tree.now places.now }
    requires classes { IsListOf (class_from tree.now) tree.now classes.now }
    ensures { IfOk result (λ text. text ≡ read_at tree.now n.0 name.now) }
{
    let place = place_at(tree, places, n);
    let class = class_at(tree, classes, NodeId(place));
    mangled(alloc, class_name(tree, class), name)
}

/// A node's name as it is read, where that is `name`.
fn read_name(
    alloc: Global,
    tree: &Tree,
    places: &[u32],
    classes: &[Option<u32>],
    n: NodeId,
    name: &str,
) -> Result<Text, Memory>
    requires made { n.0 < count_of tree.now }
    requires places { IsListOf (around tree.now) tree.now places.now }
    requires classes { IsListOf (class_from tree.now) tree.now classes.now }
    ensures { IfOk result (λ text. text ≡ (if is_read (kind_of tree.now n.0) then read_at tree.now n.0 name.now else name.now)) }
{
    if is_read(tree.kind(n)) {
        read_at(alloc, tree, places, classes, n, name)
    } else {
        Text::from_str(alloc, name)
    }
}

/// A node's name as it is read.
fn spelled_at(
    alloc: Global,
    tree: &Tree,
    places: &[u32],
    classes: &[Option<u32>],
    n: NodeId,
) -> Result<Option<Text>, Memory>
    requires made { n.0 < count_of tree.now }
    requires places { IsListOf (around tree.now) tree.now places.now }
    requires classes { IsListOf (class_from tree.now) tree.now classes.now }
    ensures { IfOk result (λ name. name ≡ spelled tree.now n.0) }
{
    match tree.name(n) {
        Some(name) => Ok(Some(read_name(alloc, tree, places, classes, n, name)?)),
        None => Ok(None),
    }
}

/// Each node's name as it is read.
#[tactic(auto, using(crate::proofs::ListLaws::list_none, crate::proofs::ListLaws::list_more))]
pub(crate) fn spelled_of(
    alloc: Global,
    tree: &Tree,
    places: &[u32],
    classes: &[Option<u32>],
) -> Result<Vec<Option<Text>>, Memory>
    requires places { IsListOf (around tree.now) tree.now places.now }
    requires classes { IsListOf (class_from tree.now) tree.now classes.now }
    ensures { IfOk result (λ names. IsListOf (spelled tree.now) tree.now names.items) }
{
    let mut names = Vec::new(alloc);
    for n in 0..tree.count() {
        let name = spelled_at(alloc, tree, places, classes, NodeId(n))?;
        names.push(name)?;
    }
    Ok(names)
}

/// A name, if there is one.
fn copied(alloc: Global, name: &Option<Text>) -> Result<Option<Text>, Memory>
    ensures { IfOk result (λ copy. copy ≡ name.now) }
{
    match name {
        Some(name) => Ok(Some(Text::from_str(alloc, name.as_str())?)),
        None => Ok(None),
    }
}

/// The part of a dotted name before its first dot.
fn before_dot(name: &str) -> &str
    ensures { result.now ≡ before_dot name.now }
{
    match name.split_once('.') {
        Some((front, _)) => front,
        None => name,
    }
}

/// The name that an import without `as` binds.
fn first_part(
    alloc: Global,
    tree: &Tree,
    places: &[u32],
    classes: &[Option<u32>],
    n: NodeId,
) -> Result<Option<Text>, Memory>
    requires made { n.0 < count_of tree.now }
    requires places { IsListOf (around tree.now) tree.now places.now }
    requires classes { IsListOf (class_from tree.now) tree.now classes.now }
    ensures { IfOk result (λ name. name ≡ imported tree.now n.0 None) }
{
    match tree.name(n) {
        Some(name) => Ok(Some(read_at(alloc, tree, places, classes, n, before_dot(name))?)),
        None => Ok(None),
    }
}

/// The name that an import binds.
fn imported(
    alloc: Global,
    tree: &Tree,
    places: &[u32],
    classes: &[Option<u32>],
    names: &[Option<Text>],
    n: NodeId,
) -> Result<Option<Text>, Memory>
    requires made { n.0 < count_of tree.now }
    requires places { IsListOf (around tree.now) tree.now places.now }
    requires classes { IsListOf (class_from tree.now) tree.now classes.now }
    requires names { IsListOf (spelled tree.now) tree.now names.now }
    ensures { IfOk result (λ name. name ≡ imported tree.now n.0 (first (kids_at tree.now n.0))) }
{
    match tree.kids(n) {
        [k, ..] => copied(alloc, name_at(tree, names, *k)),
        [] => first_part(alloc, tree, places, classes, n),
    }
}

/// Whether a node stands below a handler of exceptions.
fn is_handled(tree: &Tree, n: NodeId) -> bool
    requires { n.0 < count_of tree.now }
    ensures { result ≡ is_below is_handler tree.now (parent_at tree.now n.0) }
{
    match tree.parent(n) {
        Some(q) => is_handler(tree.kind(q)),
        None => false,
    }
}

/// The name behind the `as` of a handler.
#[tactic(auto, unfolding(scope_rules::specs::Binding::handled))]
fn handled(
    alloc: Global,
    tree: &Tree,
    names: &[Option<Text>],
    n: NodeId,
) -> Result<Option<Text>, Memory>
    requires made { n.0 < count_of tree.now }
    requires names { IsListOf (spelled tree.now) tree.now names.now }
    ensures { IfOk result (λ name. name ≡ handled tree.now n.0) }
{
    if is_handled(tree, n) {
        copied(alloc, name_at(tree, names, n))
    } else {
        Ok(None)
    }
}

/// The name that a handler or an import binds.
#[tactic(auto, unfolding(scope_rules::specs::Binding::makes_local_else))]
fn bound_else(
    alloc: Global,
    tree: &Tree,
    places: &[u32],
    classes: &[Option<u32>],
    names: &[Option<Text>],
    n: NodeId,
) -> Result<Option<Text>, Memory>
    requires made { n.0 < count_of tree.now }
    requires places { IsListOf (around tree.now) tree.now places.now }
    requires classes { IsListOf (class_from tree.now) tree.now classes.now }
    requires names { IsListOf (spelled tree.now) tree.now names.now }
    ensures { IfOk result (λ name. name ≡ makes_local_else tree.now n.0) }
{
    if is_as_name(tree.kind(n)) {
        handled(alloc, tree, names, n)
    } else if is_alias(tree.kind(n)) {
        imported(alloc, tree, places, classes, names, n)
    } else {
        Ok(None)
    }
}

/// The name that a node makes local.
#[tactic(auto, unfolding(scope_rules::specs::Binding::makes_local))]
fn bound_by(
    alloc: Global,
    tree: &Tree,
    places: &[u32],
    classes: &[Option<u32>],
    names: &[Option<Text>],
    n: NodeId,
) -> Result<Option<Text>, Memory>
    requires made { n.0 < count_of tree.now }
    requires places { IsListOf (around tree.now) tree.now places.now }
    requires classes { IsListOf (class_from tree.now) tree.now classes.now }
    requires names { IsListOf (spelled tree.now) tree.now names.now }
    ensures { IfOk result (λ name. name ≡ makes_local tree.now n.0) }
{
    if is_binder(tree.kind(n)) {
        copied(alloc, name_at(tree, names, n))
    } else {
        bound_else(alloc, tree, places, classes, names, n)
    }
}

/// The name that each node makes local.
#[tactic(auto, using(crate::proofs::ListLaws::list_none, crate::proofs::ListLaws::list_more))]
pub(crate) fn bound_of(
    alloc: Global,
    tree: &Tree,
    places: &[u32],
    classes: &[Option<u32>],
    names: &[Option<Text>],
) -> Result<Vec<Option<Text>>, Memory>
    requires places { IsListOf (around tree.now) tree.now places.now }
    requires classes { IsListOf (class_from tree.now) tree.now classes.now }
    requires names { IsListOf (spelled tree.now) tree.now names.now }
    ensures { IfOk result (λ bound. IsListOf (makes_local tree.now) tree.now bound.items) }
{
    let mut bound = Vec::new(alloc);
    for n in 0..tree.count() {
        let name = bound_by(alloc, tree, places, classes, names, NodeId(n))?;
        bound.push(name)?;
    }
    Ok(bound)
}
