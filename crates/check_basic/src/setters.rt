// Setters of properties.
ghost use Rattle.std.specs.Prelude.{◌≡◌, ◌<◌, All, map, codes};
ghost use Rattle.std.specs.Str.{bytes_eq};
ghost use Rattle.tree_nodes.specs.Trees.{count_of, kids_at};
ghost use Rattle.tree_nodes.specs.Kept.{number_of};
ghost use Rattle.scope_rules.specs.Nodes.{kind_of};
ghost use Rattle.scope_rules.specs.Reading.{is_read_name};
ghost use Rattle.rule_nodes.specs.Nodes.{written};
ghost use Rattle.check_basic.specs.Nodes.{is_sole, is_setter_name, is_setter_mark, is_setter};

use crate::kinds::is_attribute;
use lint_values::NodeId;
use rule_nodes::{is_decorator, is_read_name, written};
use tree_nodes::Tree;

fn is_sole_name(tree: &Tree, kids: &[NodeId]) -> bool
    requires { All (λ k. k.0 < count_of tree.now) kids.now }
    ensures { result ≡ is_sole (λ k. is_read_name (kind_of tree.now k)) (map number_of kids.now) }
{
    match kids {
        [kid] => is_read_name(tree.kind(*kid)),
        _ => false,
    }
}

fn is_named_setter(tree: &Tree, n: NodeId) -> bool
    requires { n.0 < count_of tree.now }
    ensures { result ≡ bytes_eq (written tree.now n.0) (codes "setter") }
{
    written(tree, n) == "setter"
}

// `NAME.setter`.
fn is_setter_name(tree: &Tree, n: NodeId) -> bool
    requires { n.0 < count_of tree.now }
    ensures { result ≡ is_setter_name tree.now n.0 }
{
    is_attribute(tree.kind(n)) && is_named_setter(tree, n) && is_sole_name(tree, tree.kids(n))
}

fn is_sole_setter_name(tree: &Tree, kids: &[NodeId]) -> bool
    requires { All (λ k. k.0 < count_of tree.now) kids.now }
    ensures { result ≡ is_sole (is_setter_name tree.now) (map number_of kids.now) }
{
    match kids {
        [kid] => is_setter_name(tree, *kid),
        _ => false,
    }
}

// `@NAME.setter`.
fn is_setter_mark(tree: &Tree, n: NodeId) -> bool
    requires { n.0 < count_of tree.now }
    ensures { result ≡ is_setter_mark tree.now n.0 }
{
    is_decorator(tree.kind(n)) && is_sole_setter_name(tree, tree.kids(n))
}

fn any_setter_mark(tree: &Tree, kids: &[NodeId]) -> bool
    requires { All (λ k. k.0 < count_of tree.now) kids.now }
    ensures { result ≡ is_setter tree.now (map number_of kids.now) }
{
    let mut rest = kids;
    while let [kid, tail @ ..] = rest {
        if is_setter_mark(tree, *kid) {
            return true;
        }
        rest = tail;
    }
    false
}

/// Whether one of a function's decorators makes it a property's setter.
pub(crate) fn is_setter(tree: &Tree, n: NodeId) -> bool
    requires { n.0 < count_of tree.now }
    ensures { result ≡ is_setter tree.now (kids_at tree.now n.0) }
{
    any_setter_mark(tree, tree.kids(n))
}
