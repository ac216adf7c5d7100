// What a module exports.
ghost use Rattle.std.specs.Prelude.{◌≡◌, ◌<◌, ◌==◌, ◌++◌, List, All, IfOk, OnOk, map, codes};
ghost use Rattle.std.specs.Str.{bytes_eq};
ghost use Rattle.tree_nodes.specs.Trees.{count_of, kids_at, parent_at};
ghost use Rattle.tree_nodes.specs.Kept.{number_of};
ghost use Rattle.scope_rules.specs.Nodes.{Name};
ghost use Rattle.scope_rules.specs.Places.{around};
ghost use Rattle.scope_bind.specs.Lists.{IsListOf};
ghost use Rattle.scope_bind.specs.Scoped.{AreScopesOf};
ghost use Rattle.rule_nodes.specs.Nodes.{written};
ghost use Rattle.unused_names.specs.Nodes.{asked_above, is_under};
ghost use Rattle.unused_names.specs.Exports.{is_all_target, has_all_target, is_last, is_all_assignment, is_assigned_by, is_all_value, is_export_list, is_export, exported_by, exported};
ghost use Rattle.unused_names.specs.Sets.{HasNames};

use crate::answers::around;
use crate::kinds::{is_annotation, is_assignment, is_display, is_name_target, is_string};
use crate::literals::text_of;
use crate::name_set::{NameSet, add_name, no_names};
use crate::under::under_of;
use lint_values::{Memory, NodeId};
use rule_nodes::written;
use scope_bind::Scopes;
use std::alloc::Global;
use tree_nodes::Tree;

fn is_named_all(tree: &Tree, k: NodeId) -> bool
    requires { k.0 < count_of tree.now }
    ensures { result ≡ bytes_eq (written tree.now k.0) (codes "__all__") }
{
    written(tree, k) == "__all__"
}

/// The target `__all__`.
#[tactic(auto, unfolding(crate::specs::Exports::is_all_target))]
fn is_all_target(tree: &Tree, k: NodeId) -> bool
    requires { k.0 < count_of tree.now }
    ensures { result ≡ is_all_target tree.now k.0 }
{
    is_name_target(tree.kind(k)) && is_named_all(tree, k)
}

fn any_all_target(tree: &Tree, kids: &[NodeId]) -> bool
    requires { All (λ k. k.0 < count_of tree.now) kids.now }
    ensures { result ≡ has_all_target tree.now (map number_of kids.now) }
{
    let mut rest = kids;
    while let [kid, tail @ ..] = rest {
        if is_all_target(tree, *kid) {
            return true;
        }
        rest = tail;
    }
    false
}

fn has_all_target(tree: &Tree, q: NodeId) -> bool
    requires { q.0 < count_of tree.now }
    ensures { result ≡ has_all_target tree.now (kids_at tree.now q.0) }
{
    any_all_target(tree, tree.kids(q))
}

fn is_at_module_level(tree: &Tree, scopes: &Scopes, q: NodeId) -> bool
    requires made { q.0 < count_of tree.now }
    requires scopes { AreScopesOf tree.now scopes.now }
    ensures { result ≡ (around tree.now q.0 == 0) }
{
    around(tree, scopes, q).0 == 0
}

/// A statement at module level that assigns to `__all__`.
#[tactic(auto, unfolding(crate::specs::Exports::is_all_assignment))]
fn is_all_assignment(tree: &Tree, scopes: &Scopes, q: NodeId) -> bool
    requires made { q.0 < count_of tree.now }
    requires scopes { AreScopesOf tree.now scopes.now }
    ensures { result ≡ is_all_assignment tree.now q.0 }
{
    is_assignment(tree.kind(q)) && is_at_module_level(tree, scopes, q) && has_all_target(tree, q)
}

fn is_last_of(kids: &[NodeId], n: NodeId) -> bool
    ensures { result ≡ is_last (map number_of kids.now) n.0 }
{
    match kids {
        [.., last] => last.0 == n.0,
        [] => false,
    }
}

fn is_last(tree: &Tree, q: NodeId, n: NodeId) -> bool
    requires { q.0 < count_of tree.now }
    ensures { result ≡ is_last (kids_at tree.now q.0) n.0 }
{
    is_last_of(tree.kids(q), n)
}

/// Whether a node is the last part of a statement that assigns to `__all__`.
#[tactic(auto, unfolding(crate::specs::Exports::is_assigned_by))]
fn is_assigned_by(tree: &Tree, scopes: &Scopes, n: NodeId, q: NodeId) -> bool
    requires made { q.0 < count_of tree.now }
    requires scopes { AreScopesOf tree.now scopes.now }
    ensures { result ≡ is_assigned_by tree.now n.0 q.0 }
{
    is_last(tree, q, n) && is_all_assignment(tree, scopes, q)
}

fn is_assigned(tree: &Tree, scopes: &Scopes, n: NodeId) -> bool
    requires made { n.0 < count_of tree.now }
    requires scopes { AreScopesOf tree.now scopes.now }
    ensures { result ≡ asked_above (is_assigned_by tree.now n.0) (parent_at tree.now n.0) }
{
    match tree.parent(n) {
        Some(q) => is_assigned_by(tree, scopes, n, q),
        None => false,
    }
}

/// Whether a node is the value that is assigned to `__all__`.
#[tactic(auto, unfolding(crate::specs::Exports::is_all_value))]
fn is_all_value(tree: &Tree, scopes: &Scopes, n: NodeId) -> bool
    requires made { n.0 < count_of tree.now }
    requires scopes { AreScopesOf tree.now scopes.now }
    ensures { result ≡ is_all_value tree.now n.0 }
{
    !is_annotation(tree.kind(n)) && is_assigned(tree, scopes, n)
}

/// Whether each node is such a value.
#[tactic(auto, using(scope_bind::proofs::ListLaws::list_none, scope_bind::proofs::ListLaws::list_more))]
fn all_values(alloc: Global, tree: &Tree, scopes: &Scopes) -> Result<Vec<bool>, Memory>
    requires { AreScopesOf tree.now scopes.now }
    ensures { IfOk result (λ values. IsListOf (is_all_value tree.now) tree.now values.items) }
{
    let mut values = Vec::new(alloc);
    for n in 0..tree.count() {
        let is_value = is_all_value(tree, scopes, NodeId(n));
        values.push(is_value)?;
    }
    Ok(values)
}

/// Whether each node is such a value, or stands in one.
fn under_values(alloc: Global, tree: &Tree, scopes: &Scopes) -> Result<Vec<bool>, Memory>
    requires { AreScopesOf tree.now scopes.now }
    ensures { IfOk result (λ under. IsListOf (is_under (is_all_value tree.now) tree.now) tree.now under.items) }
{
    let values = all_values(alloc, tree, scopes)?;
    under_of(alloc, tree, values.as_slice())
}

fn is_under_value(tree: &Tree, under: &[bool], n: NodeId) -> bool
    requires made { n.0 < count_of tree.now }
    requires under { IsListOf (is_under (is_all_value tree.now) tree.now) tree.now under.now }
    ensures { result ≡ is_under (is_all_value tree.now) tree.now n.0 }
{
    let _tree = tree;
    under[n.0 as usize]
}

/// A display anywhere in such a value.
#[tactic(auto, unfolding(crate::specs::Exports::is_export_list))]
fn is_export_list(tree: &Tree, under: &[bool], n: NodeId) -> bool
    requires made { n.0 < count_of tree.now }
    requires under { IsListOf (is_under (is_all_value tree.now) tree.now) tree.now under.now }
    ensures { result ≡ is_export_list tree.now n.0 }
{
    is_display(tree.kind(n)) && is_under_value(tree, under, n)
}

fn is_listed(tree: &Tree, under: &[bool], n: NodeId) -> bool
    requires made { n.0 < count_of tree.now }
    requires under { IsListOf (is_under (is_all_value tree.now) tree.now) tree.now under.now }
    ensures { result ≡ asked_above (is_export_list tree.now) (parent_at tree.now n.0) }
{
    match tree.parent(n) {
        Some(q) => is_export_list(tree, under, q),
        None => false,
    }
}

/// A string directly in one.
#[tactic(auto, unfolding(crate::specs::Exports::is_export))]
fn is_export(tree: &Tree, under: &[bool], n: NodeId) -> bool
    requires made { n.0 < count_of tree.now }
    requires under { IsListOf (is_under (is_all_value tree.now) tree.now) tree.now under.now }
    ensures { result ≡ is_export tree.now n.0 }
{
    is_string(tree.kind(n)) && is_listed(tree, under, n)
}

/// Adds the name that a node exports.
#[tactic(auto, unfolding(crate::specs::Exports::exported_by))]
fn add_export(
    alloc: Global,
    tree: &Tree,
    under: &[bool],
    n: NodeId,
    names: &mut NameSet,
) -> Result<(), Memory>
    requires made { n.0 < count_of tree.now }
    requires under { IsListOf (is_under (is_all_value tree.now) tree.now) tree.now under.now }
    ensures { (ns : List Name) → HasNames names.old ns → OnOk result (HasNames names.new (ns ++ exported_by tree.now n.0)) }
{
    if is_export(tree, under, n) {
        add_name(alloc, names, text_of(written(tree, n).as_bytes()))
    } else {
        Ok(())
    }
}

fn exports_under(alloc: Global, tree: &Tree, under: &[bool]) -> Result<NameSet, Memory>
    requires { IsListOf (is_under (is_all_value tree.now) tree.now) tree.now under.now }
    ensures { IfOk result (λ names. HasNames names (exported tree.now)) }
{
    let mut names = no_names(alloc);
    for n in 0..tree.count() {
        add_export(alloc, tree, under, NodeId(n), &mut names)?;
    }
    Ok(names)
}

/// The names that a module exports.
pub(crate) fn exported(alloc: Global, tree: &Tree, scopes: &Scopes) -> Result<NameSet, Memory>
    requires { AreScopesOf tree.now scopes.now }
    ensures { IfOk result (λ names. HasNames names (exported tree.now)) }
{
    let under = under_values(alloc, tree, scopes)?;
    exports_under(alloc, tree, under.as_slice())
}
