// In which scope each node stands.
ghost use Rattle.std.specs.Prelude.{◌≡◌, ◌<◌, map, option_map, IfOk};
ghost use Rattle.tree_nodes.specs.Trees.{count_of, kids_at, parent_at};
ghost use Rattle.tree_nodes.specs.Kept.{number_of};
ghost use Rattle.scope_rules.specs.Nodes.{below, second, is_number};
ghost use Rattle.scope_rules.specs.Places.{plain_step, is_first_iterable, step_below, step, around};
ghost use Rattle.scope_bind.specs.Lists.{IsListOf, IsListUpTo};

use crate::kinds::{holds, is_comprehension, is_parameter};
use lint_values::{Memory, NodeId};
use scope_rules::Step;
use std::alloc::Global;
use tree_nodes::Tree;

/// Whether the second of some nodes is this.
fn is_second(nodes: &[NodeId], n: NodeId) -> bool
    ensures { result ≡ is_number (second (map number_of nodes.now)) n.0 }
{
    match nodes {
        [_, node, ..] => node.0 == n.0,
        _ => false,
    }
}

#[tactic(auto, unfolding(scope_rules::specs::Places::is_first_iterable))]
fn is_first_iterable(tree: &Tree, n: NodeId, q: NodeId, d: NodeId) -> bool
    requires clause { q.0 < count_of tree.now }
    requires whole { d.0 < count_of tree.now }
    ensures { result ≡ is_first_iterable tree.now n.0 q.0 d.0 }
{
    is_comprehension(tree.kind(d)) && is_second(tree.kids(d), q) && is_second(tree.kids(q), n)
}

#[tactic(auto, unfolding(scope_rules::specs::Places::plain_step))]
fn plain_step(tree: &Tree, n: NodeId, q: NodeId) -> Step
    requires part { n.0 < count_of tree.now }
    requires whole { q.0 < count_of tree.now }
    ensures { result ≡ plain_step tree.now n.0 q.0 }
{
    if holds(tree.kind(q), tree.kind(n)) {
        Step::Within(q.0)
    } else {
        Step::Beside(q.0)
    }
}

#[tactic(auto, unfolding(scope_rules::specs::Places::step_below))]
fn step_beyond(tree: &Tree, n: NodeId, q: NodeId, d: NodeId) -> Step
    requires part { n.0 < count_of tree.now }
    requires clause { q.0 < count_of tree.now }
    requires whole { d.0 < count_of tree.now }
    ensures { result ≡ step_below tree.now n.0 q.0 (Some d.0) }
{
    if is_parameter(tree.kind(q)) || is_first_iterable(tree, n, q, d) {
        Step::Beside(d.0)
    } else {
        plain_step(tree, n, q)
    }
}

#[tactic(auto, unfolding(scope_rules::specs::Places::step_below))]
fn step_below(tree: &Tree, n: NodeId, q: NodeId) -> Step
    requires part { n.0 < count_of tree.now }
    requires whole { q.0 < count_of tree.now }
    ensures { result ≡ step_below tree.now n.0 q.0 (parent_at tree.now q.0) }
{
    match tree.parent(q) {
        None => plain_step(tree, n, q),
        Some(d) => step_beyond(tree, n, q, d),
    }
}

#[tactic(auto, unfolding(scope_rules::specs::Places::step, scope_rules::specs::Places::step_from))]
fn step(tree: &Tree, n: NodeId) -> Step
    requires { n.0 < count_of tree.now }
    ensures { result ≡ step tree.now n.0 }
{
    match tree.parent(n) {
        None => Step::Within(0),
        Some(q) => step_below(tree, n, q),
    }
}

/// The scope in which a node stands, by those of the nodes before it.
fn place_of(tree: &Tree, places: &[u32], n: NodeId) -> u32
    requires made { n.0 < count_of tree.now }
    requires before { IsListUpTo (around tree.now) n.0 places.now }
    ensures { result ≡ around tree.now n.0 }
{
    match step(tree, n) {
        Step::Within(s) => s,
        Step::Beside(m) => places[m as usize],
    }
}

/// The scope in which each node stands.
#[tactic(auto, using(crate::proofs::ListLaws::list_none, crate::proofs::ListLaws::list_more))]
pub(crate) fn places_of(alloc: Global, tree: &Tree) -> Result<Vec<u32>, Memory>
    ensures { IfOk result (λ places. IsListOf (around tree.now) tree.now places.items) }
{
    let mut places = Vec::new(alloc);
    for n in 0..tree.count() {
        let place = place_of(tree, &places, NodeId(n));
        places.push(place)?;
    }
    Ok(places)
}
