// What is known of each node, read from the lists of the passes.
ghost use Rattle.std.specs.Prelude.{◌≡◌, ◌<◌, IfSome};
ghost use Rattle.tree_nodes.specs.Trees.{count_of};
ghost use Rattle.scope_rules.specs.Places.{around};
ghost use Rattle.scope_rules.specs.Mangling.{class_from, spelled};
ghost use Rattle.scope_rules.specs.Binding.{makes_local};
ghost use Rattle.scope_rules.specs.Reading.{answer_of};
ghost use Rattle.scope_rules.specs.Answers.{is_deleted};
ghost use Rattle.scope_bind.specs.Lists.{IsListOf};

use lint_values::{NodeId, Text};
use scope_rules::Where;
use tree_nodes::Tree;

/// The scope in which a node stands.
pub(crate) fn place_at(tree: &Tree, places: &[u32], n: NodeId) -> u32
    requires made { n.0 < count_of tree.now }
    requires places { IsListOf (around tree.now) tree.now places.now }
    ensures value { result ≡ around tree.now n.0 }
    ensures within { result < count_of tree.now }
{
    let _tree = tree;
    places[n.0 as usize]
}

/// The innermost class of a scope.
pub(crate) fn class_at(tree: &Tree, classes: &[Option<u32>], s: NodeId) -> Option<u32>
    requires made { s.0 < count_of tree.now }
    requires classes { IsListOf (class_from tree.now) tree.now classes.now }
    ensures value { result ≡ class_from tree.now s.0 }
    ensures known { IfSome result (λ c. c < count_of tree.now) }
{
    let _tree = tree;
    classes[s.0 as usize]
}

/// A node's name as it is read.
pub(crate) fn name_at<'n>(tree: &Tree, names: &'n [Option<Text>], n: NodeId) -> &'n Option<Text>
    requires made { n.0 < count_of tree.now }
    requires names { IsListOf (spelled tree.now) tree.now names.now }
    ensures { result.now ≡ spelled tree.now n.0 }
{
    let _tree = tree;
    &names[n.0 as usize]
}

/// The name that a node makes local.
pub(crate) fn bound_at<'n>(tree: &Tree, bound: &'n [Option<Text>], n: NodeId) -> &'n Option<Text>
    requires made { n.0 < count_of tree.now }
    requires bound { IsListOf (makes_local tree.now) tree.now bound.now }
    ensures { result.now ≡ makes_local tree.now n.0 }
{
    let _tree = tree;
    &bound[n.0 as usize]
}

/// Where a node leads.
pub(crate) fn answer_at(tree: &Tree, answers: &[Where], n: NodeId) -> Where
    requires made { n.0 < count_of tree.now }
    requires answers { IsListOf (answer_of tree.now) tree.now answers.now }
    ensures { result ≡ answer_of tree.now n.0 }
{
    let _tree = tree;
    answers[n.0 as usize]
}

/// Whether a node is deleted.
pub(crate) fn deleted_at(tree: &Tree, deleted: &[bool], n: NodeId) -> bool
    requires made { n.0 < count_of tree.now }
    requires deleted { IsListOf (is_deleted tree.now) tree.now deleted.now }
    ensures { result ≡ is_deleted tree.now n.0 }
{
    let _tree = tree;
    deleted[n.0 as usize]
}
