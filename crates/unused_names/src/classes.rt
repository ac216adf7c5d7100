// Names that are read in the bodies of classes that bind them.
ghost use Rattle.std.specs.Prelude.{◌≡◌, ◌<◌, ◌++◌, true, List, IfOk, OnOk, option_to_list};
ghost use Rattle.tree_nodes.specs.Trees.{count_of, parent_at};
ghost use Rattle.tree_nodes.specs.declared.kind.Kind.TheVariants as kinds;
ghost use Rattle.scope_rules.specs.Kinds.{is_class};
ghost use Rattle.scope_rules.specs.Nodes.{Name, kind_of};
ghost use Rattle.scope_rules.specs.Places.{around};
ghost use Rattle.scope_rules.specs.Mangling.{spelled};
ghost use Rattle.scope_rules.specs.Binding.{is_below};
ghost use Rattle.scope_rules.specs.Reading.{is_read_name};
ghost use Rattle.scope_bind.specs.Scoped.{AreScopesOf};
ghost use Rattle.unused_names.specs.Kinds.{is_augmented_assignment};
ghost use Rattle.unused_names.specs.Reads.{is_augmented, is_local_answer, is_read_here, is_read_in_class, class_read, class_reads};
ghost use Rattle.unused_names.specs.Sets.{HasNames};

use crate::answers::{around, resolved, spelled};
use crate::kinds::{is_augmented_assignment, is_name_target};
use crate::name_set::{NameSet, add_name, no_names};
use lint_values::{Memory, NodeId};
use rule_nodes::is_class;
use scope_bind::{Scopes, Where};
use std::alloc::Global;
use tree_nodes::{Kind, Tree};

fn is_below_augmented(tree: &Tree, n: NodeId) -> bool
    requires { n.0 < count_of tree.now }
    ensures { result ≡ is_below is_augmented_assignment tree.now (parent_at tree.now n.0) }
{
    match tree.parent(n) {
        Some(q) => is_augmented_assignment(tree.kind(q)),
        None => false,
    }
}

/// The target of an augmented assignment.
#[tactic(auto, unfolding(crate::specs::Reads::is_augmented))]
pub(crate) fn is_augmented(tree: &Tree, n: NodeId) -> bool
    requires { n.0 < count_of tree.now }
    ensures { result ≡ is_augmented tree.now n.0 }
{
    is_name_target(tree.kind(n)) && is_below_augmented(tree, n)
}

/// The answer is a name of the read's own scope.
#[tactic(auto, unfolding(crate::specs::Reads::is_local_answer))]
fn is_local_answer(answer: Where) -> bool
    ensures { result ≡ is_local_answer answer }
{
    match answer {
        Where::Local(_) => true,
        Where::Free(_) => false,
        Where::Global => false,
        Where::Builtin => false,
        Where::Nowhere => false,
    }
}

/// A name that is read.
#[tactic(auto, unfolding(scope_rules::specs::Reading::is_read_name))]
fn is_read_name_at(tree: &Tree, n: NodeId) -> bool
    requires { n.0 < count_of tree.now }
    ensures value { result ≡ is_read_name (kind_of tree.now n.0) }
    ensures named { result ≡ true → kind_of tree.now n.0 ≡ kinds.Name }
{
    matches!(tree.kind(n), Kind::Name)
}

/// A read that leads to its own scope, or the target of an augmented assignment.
#[tactic(auto, unfolding(crate::specs::Reads::is_read_here))]
fn is_read_here(tree: &Tree, scopes: &Scopes, n: NodeId) -> bool
    requires made { n.0 < count_of tree.now }
    requires scopes { AreScopesOf tree.now scopes.now }
    ensures { result ≡ is_read_here tree.now n.0 }
{
    if is_read_name_at(tree, n) {
        is_local_answer(resolved(tree, scopes, n))
    } else {
        is_augmented(tree, n)
    }
}

fn stands_in_class(tree: &Tree, scopes: &Scopes, n: NodeId) -> bool
    requires made { n.0 < count_of tree.now }
    requires scopes { AreScopesOf tree.now scopes.now }
    ensures { result ≡ is_class (kind_of tree.now (around tree.now n.0)) }
{
    is_class(tree.kind(around(tree, scopes, n)))
}

/// A name that is read in the body of a class which binds it.
#[tactic(auto, unfolding(crate::specs::Reads::is_read_in_class))]
fn is_read_in_class(tree: &Tree, scopes: &Scopes, n: NodeId) -> bool
    requires made { n.0 < count_of tree.now }
    requires scopes { AreScopesOf tree.now scopes.now }
    ensures { result ≡ is_read_in_class tree.now n.0 }
{
    stands_in_class(tree, scopes, n) && is_read_here(tree, scopes, n)
}

/// Adds a node's name, if it has one.
fn add_spelled(
    alloc: Global,
    tree: &Tree,
    scopes: &Scopes,
    n: NodeId,
    names: &mut NameSet,
) -> Result<(), Memory>
    requires made { n.0 < count_of tree.now }
    requires scopes { AreScopesOf tree.now scopes.now }
    ensures { (ns : List Name) → HasNames names.old ns → OnOk result (HasNames names.new (ns ++ option_to_list (spelled tree.now n.0))) }
{
    match spelled(tree, scopes, n) {
        Some(name) => add_name(alloc, names, name.as_bytes()),
        None => Ok(()),
    }
}

/// Adds the name that is read so at a node.
#[tactic(auto, unfolding(crate::specs::Reads::class_read))]
fn add_class_read(
    alloc: Global,
    tree: &Tree,
    scopes: &Scopes,
    n: NodeId,
    names: &mut NameSet,
) -> Result<(), Memory>
    requires made { n.0 < count_of tree.now }
    requires scopes { AreScopesOf tree.now scopes.now }
    ensures { (ns : List Name) → HasNames names.old ns → OnOk result (HasNames names.new (ns ++ class_read tree.now n.0)) }
{
    if is_read_in_class(tree, scopes, n) {
        add_spelled(alloc, tree, scopes, n, names)
    } else {
        Ok(())
    }
}

/// The names that are read so.
pub(crate) fn class_reads(alloc: Global, tree: &Tree, scopes: &Scopes) -> Result<NameSet, Memory>
    requires { AreScopesOf tree.now scopes.now }
    ensures { IfOk result (λ names. HasNames names (class_reads tree.now)) }
{
    let mut names = no_names(alloc);
    for n in 0..tree.count() {
        add_class_read(alloc, tree, scopes, NodeId(n), &mut names)?;
    }
    Ok(names)
}
