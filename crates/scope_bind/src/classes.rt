// The innermost class of each scope.
ghost use Rattle.std.specs.Prelude.{◌≡◌, ◌<◌, IfOk};
ghost use Rattle.tree_nodes.specs.Trees.{count_of};
ghost use Rattle.scope_rules.specs.Places.{around};
ghost use Rattle.scope_rules.specs.Mangling.{class_from};
ghost use Rattle.scope_bind.specs.Lists.{IsListOf, IsListUpTo};

use crate::kinds::is_class;
use lint_values::{Memory, NodeId};
use std::alloc::Global;
use tree_nodes::Tree;

/// The innermost class of a scope, by those of the scopes before it.
fn class_of(tree: &Tree, places: &[u32], classes: &[Option<u32>], s: u32) -> Option<u32>
    requires made { s < count_of tree.now }
    requires places { IsListOf (around tree.now) tree.now places.now }
    requires before { IsListUpTo (class_from tree.now) s classes.now }
    ensures { result ≡ class_from tree.now s }
{
    if is_class(tree.kind(NodeId(s))) {
        Some(s)
    } else if s == 0 {
        None
    } else {
        let place = places[s as usize];
        classes[place as usize]
    }
}

/// The innermost class of each scope. Nodes that open none get one too, which nobody asks for.
#[tactic(auto, using(crate::proofs::ListLaws::list_none, crate::proofs::ListLaws::list_more))]
pub(crate) fn classes_of(
    alloc: Global,
    tree: &Tree,
    places: &[u32],
) -> Result<Vec<Option<u32>>, Memory>
    requires { IsListOf (around tree.now) tree.now places.now }
    ensures { IfOk result (λ classes. IsListOf (class_from tree.now) tree.now classes.items) }
{
    let mut classes = Vec::new(alloc);
    for s in 0..tree.count() {
        let class = class_of(tree, places, &classes, s);
        classes.push(class)?;
    }
    Ok(classes)
}
