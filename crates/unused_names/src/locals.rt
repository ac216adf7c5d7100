// Where `locals` is called.
ghost use Rattle.std.specs.Prelude.{◌≡◌, ℕ, ◌<◌, ◌==◌, ◌++◌, ◌∷◌, [], List, All, IfOk, OnOk, map, codes};
ghost use Rattle.std.specs.List.{list_any};
ghost use Rattle.tree_nodes.specs.Trees.{count_of, kids_at};
ghost use Rattle.tree_nodes.specs.Kept.{number_of};
ghost use Rattle.scope_rules.specs.Nodes.{name_of, first, nodes_of};
ghost use Rattle.scope_rules.specs.Binding.{beyond_comprehensions};
ghost use Rattle.scope_bind.specs.Scoped.{AreScopesOf};
ghost use Rattle.unused_names.specs.Nodes.{is_name, asked_above};
ghost use Rattle.unused_names.specs.Variables.{is_locals, calls_locals, locals_of, locals_among, is_listed};
ghost use Rattle.unused_names.specs.Sets.{HasNumbers};

use crate::answers::around;
use crate::kinds::is_call;
use lint_values::{Memory, NodeId};
use rule_nodes::{is_comprehension, is_read_name};
use scope_bind::Scopes;
use std::alloc::Global;
use std::collections::BTreeSet;
use tree_nodes::Tree;

/// The first scope from this one outwards that is no comprehension.
pub(crate) fn beyond_comprehensions(tree: &Tree, scopes: &Scopes, scope: u32) -> u32
    requires made { scope < count_of tree.now }
    requires scopes { AreScopesOf tree.now scopes.now }
    ensures value { result ≡ beyond_comprehensions tree.now scope }
    ensures within { result < count_of tree.now }
{
    let mut s = scope;
    'outwards: while s != 0 && is_comprehension(tree.kind(NodeId(s))) {
        s = around(tree, scopes, NodeId(s)).0;
    }
    s
}

fn is_named_locals(tree: &Tree, k: NodeId) -> bool
    requires { k.0 < count_of tree.now }
    ensures { result ≡ is_name (name_of tree.now k.0) (codes "locals") }
{
    match tree.name(k) {
        Some(name) => name == "locals",
        None => false,
    }
}

/// The name `locals` that is read.
#[tactic(auto, unfolding(crate::specs::Variables::is_locals))]
fn is_locals(tree: &Tree, k: NodeId) -> bool
    requires { k.0 < count_of tree.now }
    ensures { result ≡ is_locals tree.now k.0 }
{
    is_read_name(tree.kind(k)) && is_named_locals(tree, k)
}

fn is_first_locals(tree: &Tree, kids: &[NodeId]) -> bool
    requires { All (λ k. k.0 < count_of tree.now) kids.now }
    ensures { result ≡ asked_above (is_locals tree.now) (first (map number_of kids.now)) }
{
    match kids {
        [kid, ..] => is_locals(tree, *kid),
        [] => false,
    }
}

fn has_locals(tree: &Tree, n: NodeId) -> bool
    requires { n.0 < count_of tree.now }
    ensures { result ≡ asked_above (is_locals tree.now) (first (kids_at tree.now n.0)) }
{
    is_first_locals(tree, tree.kids(n))
}

/// A call of `locals`.
#[tactic(auto, unfolding(crate::specs::Variables::calls_locals))]
fn calls_locals(tree: &Tree, n: NodeId) -> bool
    requires { n.0 < count_of tree.now }
    ensures { result ≡ calls_locals tree.now n.0 }
{
    is_call(tree.kind(n)) && has_locals(tree, n)
}

/// Adds a number.
fn add_number(numbers: &mut BTreeSet<u32>, n: u32) -> Result<(), Memory>
    ensures { (ns : List ℕ) → HasNumbers numbers.old ns → OnOk result (HasNumbers numbers.new (ns ++ n ∷ [])) }
{
    numbers.insert(n)?;
    Ok(())
}

/// Whether a number is among these.
fn has_number(numbers: &BTreeSet<u32>, n: u32) -> bool
    ensures { (ns : List ℕ) → HasNumbers numbers.now ns → result ≡ list_any (λ m. m == n) ns }
{
    numbers.contains(&n)
}

/// Adds the scope in which a node calls `locals`.
#[tactic(auto, unfolding(crate::specs::Variables::locals_of))]
fn add_locals(
    tree: &Tree,
    scopes: &Scopes,
    n: NodeId,
    numbers: &mut BTreeSet<u32>,
) -> Result<(), Memory>
    requires made { n.0 < count_of tree.now }
    requires scopes { AreScopesOf tree.now scopes.now }
    ensures { (ns : List ℕ) → HasNumbers numbers.old ns → OnOk result (HasNumbers numbers.new (ns ++ locals_of tree.now n.0)) }
{
    if calls_locals(tree, n) {
        let place = around(tree, scopes, n).0;
        add_number(numbers, beyond_comprehensions(tree, scopes, place))
    } else {
        Ok(())
    }
}

/// The scopes in which `locals` is called.
pub(crate) fn locals_scopes(
    alloc: Global,
    tree: &Tree,
    scopes: &Scopes,
) -> Result<BTreeSet<u32>, Memory>
    requires { AreScopesOf tree.now scopes.now }
    ensures { IfOk result (λ numbers. HasNumbers numbers (locals_among tree.now (nodes_of tree.now))) }
{
    let mut numbers = BTreeSet::new(alloc);
    for n in 0..tree.count() {
        add_locals(tree, scopes, NodeId(n), &mut numbers)?;
    }
    Ok(numbers)
}

/// Whether `locals` is called in a scope.
pub(crate) fn is_listed(tree: &Tree, numbers: &BTreeSet<u32>, scope: u32) -> bool
    requires { HasNumbers numbers.now (locals_among tree.now (nodes_of tree.now)) }
    ensures { result ≡ is_listed tree.now scope }
{
    let _tree = tree;
    has_number(numbers, scope)
}
