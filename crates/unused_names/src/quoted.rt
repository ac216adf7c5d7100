// Names in annotations that are written as strings.
ghost use Rattle.std.specs.Prelude.{◌≡◌, ◌<◌, ◌++◌, List, IfOk, OnOk};
ghost use Rattle.tree_nodes.specs.Trees.{count_of};
ghost use Rattle.scope_rules.specs.Nodes.{Name};
ghost use Rattle.scope_bind.specs.Lists.{IsListOf};
ghost use Rattle.unused_names.specs.Nodes.{is_under};
ghost use Rattle.unused_names.specs.AnnotationWords.{is_annotation_at, is_quoted, quoted_by, quoted};
ghost use Rattle.unused_names.specs.Sets.{HasNames};

use crate::kinds::{is_annotation, is_string};
use crate::literals::{add_words, text_of};
use crate::name_set::{NameSet, no_names};
use crate::under::under_of;
use lint_values::{Memory, NodeId};
use rule_nodes::written;
use std::alloc::Global;
use tree_nodes::Tree;

/// Whether each node is an annotation.
#[tactic(auto, using(scope_bind::proofs::ListLaws::list_none, scope_bind::proofs::ListLaws::list_more))]
fn annotations(alloc: Global, tree: &Tree) -> Result<Vec<bool>, Memory>
    ensures { IfOk result (λ annotations. IsListOf (is_annotation_at tree.now) tree.now annotations.items) }
{
    let mut annotations = Vec::new(alloc);
    for n in 0..tree.count() {
        let is_one = is_annotation(tree.kind(NodeId(n)));
        annotations.push(is_one)?;
    }
    Ok(annotations)
}

/// Whether each node is an annotation, or stands in one.
fn under_annotations(alloc: Global, tree: &Tree) -> Result<Vec<bool>, Memory>
    ensures { IfOk result (λ under. IsListOf (is_under (is_annotation_at tree.now) tree.now) tree.now under.items) }
{
    let annotations = annotations(alloc, tree)?;
    under_of(alloc, tree, annotations.as_slice())
}

fn is_under_annotation(tree: &Tree, under: &[bool], n: NodeId) -> bool
    requires made { n.0 < count_of tree.now }
    requires under { IsListOf (is_under (is_annotation_at tree.now) tree.now) tree.now under.now }
    ensures { result ≡ is_under (is_annotation_at tree.now) tree.now n.0 }
{
    let _tree = tree;
    under[n.0 as usize]
}

/// A string within an annotation.
#[tactic(auto, unfolding(crate::specs::AnnotationWords::is_quoted))]
fn is_quoted(tree: &Tree, under: &[bool], n: NodeId) -> bool
    requires made { n.0 < count_of tree.now }
    requires under { IsListOf (is_under (is_annotation_at tree.now) tree.now) tree.now under.now }
    ensures { result ≡ is_quoted tree.now n.0 }
{
    is_string(tree.kind(n)) && is_under_annotation(tree, under, n)
}

/// Adds the words of a node that is such a string.
#[tactic(auto, unfolding(crate::specs::AnnotationWords::quoted_by))]
fn add_quoted(
    alloc: Global,
    tree: &Tree,
    under: &[bool],
    n: NodeId,
    names: &mut NameSet,
) -> Result<(), Memory>
    requires made { n.0 < count_of tree.now }
    requires under { IsListOf (is_under (is_annotation_at tree.now) tree.now) tree.now under.now }
    ensures { (ns : List Name) → HasNames names.old ns → OnOk result (HasNames names.new (ns ++ quoted_by tree.now n.0)) }
{
    if is_quoted(tree, under, n) {
        add_words(alloc, names, text_of(written(tree, n).as_bytes()))
    } else {
        Ok(())
    }
}

fn quoted_under(alloc: Global, tree: &Tree, under: &[bool]) -> Result<NameSet, Memory>
    requires { IsListOf (is_under (is_annotation_at tree.now) tree.now) tree.now under.now }
    ensures { IfOk result (λ names. HasNames names (quoted tree.now)) }
{
    let mut names = no_names(alloc);
    for n in 0..tree.count() {
        add_quoted(alloc, tree, under, NodeId(n), &mut names)?;
    }
    Ok(names)
}

/// The words of all strings within annotations.
pub(crate) fn quoted(alloc: Global, tree: &Tree) -> Result<NameSet, Memory>
    ensures { IfOk result (λ names. HasNames names (quoted tree.now)) }
{
    let under = under_annotations(alloc, tree)?;
    quoted_under(alloc, tree, under.as_slice())
}
