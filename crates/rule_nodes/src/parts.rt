// What stands among the parts of a node.
ghost use Rattle.std.specs.Prelude.{◌≡◌, ◌<◌, All, map};
ghost use Rattle.tree_nodes.specs.Trees.{count_of, kids_at};
ghost use Rattle.tree_nodes.specs.Kept.{number_of};
ghost use Rattle.rule_nodes.specs.Parts.{has_base, has_decorator};

use crate::kinds::{is_base, is_decorator};
use lint_values::NodeId;
use tree_nodes::Tree;

// Whether one of these nodes is a base of a class.
fn any_base(tree: &Tree, kids: &[NodeId]) -> bool
    requires { All (λ k. k.0 < count_of tree.now) kids.now }
    ensures { result ≡ has_base tree.now (map number_of kids.now) }
{
    let mut rest = kids;
    while let [kid, tail @ ..] = rest {
        if is_base(tree.kind(*kid)) {
            return true;
        }
        rest = tail;
    }
    false
}

/// Whether a class has a base.
pub fn has_base(tree: &Tree, n: NodeId) -> bool
    requires { n.0 < count_of tree.now }
    ensures { result ≡ has_base tree.now (kids_at tree.now n.0) }
{
    any_base(tree, tree.kids(n))
}

// Whether one of these nodes is a decorator.
fn any_decorator(tree: &Tree, kids: &[NodeId]) -> bool
    requires { All (λ k. k.0 < count_of tree.now) kids.now }
    ensures { result ≡ has_decorator tree.now (map number_of kids.now) }
{
    let mut rest = kids;
    while let [kid, tail @ ..] = rest {
        if is_decorator(tree.kind(*kid)) {
            return true;
        }
        rest = tail;
    }
    false
}

/// Whether a function or class has a decorator.
pub fn has_decorator(tree: &Tree, n: NodeId) -> bool
    requires { n.0 < count_of tree.now }
    ensures { result ≡ has_decorator tree.now (kids_at tree.now n.0) }
{
    any_decorator(tree, tree.kids(n))
}
