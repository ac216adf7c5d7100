// Whether a name of a scope is read.
ghost use Rattle.std.specs.Prelude.{◌≡◌, ◌<◌, ◌==◌, All, map};
ghost use Rattle.std.specs.List.{list_any};
ghost use Rattle.tree_nodes.specs.Trees.{count_of};
ghost use Rattle.tree_nodes.specs.Kept.{number_of};
ghost use Rattle.scope_bind.specs.Scoped.{AreScopesOf};
ghost use Rattle.unused_names.specs.Reads.{has_name, class_reads, is_augmented, is_loaded, is_changed, is_fallen_back_to, is_read};
ghost use Rattle.unused_names.specs.Knowledge.{IsKnown};

use crate::answers::{binders, loads};
use crate::classes::is_augmented;
use crate::known::Known;
use crate::name_set::has_name;
use lint_values::NodeId;
use scope_bind::Scopes;
use tree_nodes::Tree;

fn is_loaded(tree: &Tree, scopes: &Scopes, scope: u32, name: &str) -> bool
    requires { AreScopesOf tree.now scopes.now }
    ensures { result ≡ is_loaded tree.now (record { scope = scope; name = name.now }) }
{
    !loads(tree, scopes, scope, name).is_empty()
}

fn any_augmented(tree: &Tree, nodes: &[NodeId]) -> bool
    requires { All (λ k. k.0 < count_of tree.now) nodes.now }
    ensures { result ≡ list_any (is_augmented tree.now) (map number_of nodes.now) }
{
    let mut rest = nodes;
    while let [node, tail @ ..] = rest {
        if is_augmented(tree, *node) {
            return true;
        }
        rest = tail;
    }
    false
}

fn is_changed(tree: &Tree, scopes: &Scopes, scope: u32, name: &str) -> bool
    requires { AreScopesOf tree.now scopes.now }
    ensures { result ≡ is_changed tree.now (record { scope = scope; name = name.now }) }
{
    any_augmented(tree, binders(tree, scopes, scope, name))
}

fn is_read_by_class(tree: &Tree, known: &Known, name: &str) -> bool
    requires { IsKnown tree.now known.now }
    ensures { result ≡ has_name (class_reads tree.now) name.now }
{
    let _tree = tree;
    has_name(&known.class_reads, name)
}

fn is_fallen_back_to(tree: &Tree, known: &Known, scope: u32, name: &str) -> bool
    requires { IsKnown tree.now known.now }
    ensures { result ≡ is_fallen_back_to tree.now (record { scope = scope; name = name.now }) }
{
    scope == 0 && is_read_by_class(tree, known, name)
}

/// Whether a name of a scope is read.
#[tactic(auto, unfolding(crate::specs::Reads::is_read))]
pub(crate) fn is_read(tree: &Tree, scopes: &Scopes, known: &Known, scope: u32, name: &str) -> bool
    requires scopes { AreScopesOf tree.now scopes.now }
    requires known { IsKnown tree.now known.now }
    ensures { result ≡ is_read tree.now (record { scope = scope; name = name.now }) }
{
    is_loaded(tree, scopes, scope, name)
        || is_changed(tree, scopes, scope, name)
        || is_fallen_back_to(tree, known, scope, name)
}
