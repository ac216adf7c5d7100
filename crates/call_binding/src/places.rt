// The class around a node, whose private names are read otherwise than as written.
ghost use Rattle.std.specs.Prelude.{◌≡◌, ◌<◌, map, Some, IfSome};
ghost use Rattle.tree_nodes.specs.Trees.{count_of, kids_at, parent_at};
ghost use Rattle.tree_nodes.specs.Kept.{number_of};
ghost use Rattle.scope_rules.specs.Nodes.{second, is_number};
ghost use Rattle.scope_rules.specs.Places.{plain_step, is_first_iterable, step_below, step, around};
ghost use Rattle.scope_rules.specs.Mangling.{class_from};
ghost use Rattle.call_binding.specs.Reading.{is_in_class};

use crate::kinds::{holds, is_class, is_comprehension, is_parameter};
use lint_values::NodeId;
use scope_rules::Step;
use tree_nodes::Tree;

/// Whether the second of some nodes is this.
fn is_second(nodes: &[NodeId], n: NodeId) -> bool
    ensures { result ≡ is_number (second (map number_of nodes.now)) n.0 }
{
    match nodes {
        [_, node, ..] => node.0 == n.0,
        _ => false,
    }
}

#[tactic(auto, unfolding(scope_rules::specs::Places::is_first_iterable))]
fn is_first_iterable(tree: &Tree, n: NodeId, q: NodeId, d: NodeId) -> bool
    requires clause { q.0 < count_of tree.now }
    requires whole { d.0 < count_of tree.now }
    ensures { result ≡ is_first_iterable tree.now n.0 q.0 d.0 }
{
    is_comprehension(tree.kind(d)) && is_second(tree.kids(d), q) && is_second(tree.kids(q), n)
}

#[tactic(auto, unfolding(scope_rules::specs::Places::plain_step))]
fn plain_step(tree: &Tree, n: NodeId, q: NodeId) -> Step
    requires part { n.0 < count_of tree.now }
    requires whole { q.0 < count_of tree.now }
    ensures { result ≡ plain_step tree.now n.0 q.0 }
{
    if holds(tree.kind(q), tree.kind(n)) {
        Step::Within(q.0)
    } else {
        Step::Beside(q.0)
    }
}

#[tactic(auto, unfolding(scope_rules::specs::Places::step_below))]
fn step_beyond(tree: &Tree, n: NodeId, q: NodeId, d: NodeId) -> Step
    requires part { n.0 < count_of tree.now }
    requires clause { q.0 < count_of tree.now }
    requires whole { d.0 < count_of tree.now }
    ensures { result ≡ step_below tree.now n.0 q.0 (Some d.0) }
{
    if is_parameter(tree.kind(q)) || is_first_iterable(tree, n, q, d) {
        Step::Beside(d.0)
    } else {
        plain_step(tree, n, q)
    }
}

#[tactic(auto, unfolding(scope_rules::specs::Places::step_below))]
fn step_below(tree: &Tree, n: NodeId, q: NodeId) -> Step
    requires part { n.0 < count_of tree.now }
    requires whole { q.0 < count_of tree.now }
    ensures { result ≡ step_below tree.now n.0 q.0 (parent_at tree.now q.0) }
{
    match tree.parent(q) {
        None => plain_step(tree, n, q),
        Some(d) => step_beyond(tree, n, q, d),
    }
}

/// One step from a node to the scope in which it stands.
#[tactic(auto, unfolding(scope_rules::specs::Places::step, scope_rules::specs::Places::step_from))]
fn step(tree: &Tree, n: NodeId) -> Step
    requires { n.0 < count_of tree.now }
    ensures { result ≡ step tree.now n.0 }
{
    match tree.parent(n) {
        None => Step::Within(0),
        Some(q) => step_below(tree, n, q),
    }
}

/// The innermost class among the scopes around a node.
pub(crate) fn class_around(tree: &Tree, n: NodeId) -> Option<u32>
    requires { n.0 < count_of tree.now }
    ensures value { result ≡ class_from tree.now (around tree.now n.0) }
    ensures made { IfSome result (λ c. c < count_of tree.now) }
{
    match step(tree, n) {
        Step::Beside(m) => class_around(tree, NodeId(m)),
        Step::Within(s) => {
            if is_class(tree.kind(NodeId(s))) {
                Some(s)
            } else if s == 0 {
                None
            } else {
                class_around(tree, NodeId(s))
            }
        }
    }
}

/// Whether a node stands anywhere below a class statement.
#[tactic(auto, using(crate::proofs::PlaceLaws::in_class_root))]
pub(crate) fn is_in_class(tree: &Tree, n: NodeId) -> bool
    requires { n.0 < count_of tree.now }
    ensures { result ≡ is_in_class tree.now n.0 }
{
    let mut below = n;
    while let Some(p) = tree.parent(below) {
        if is_class(tree.kind(p)) {
            return true;
        }
        below = p;
    }
    false
}
