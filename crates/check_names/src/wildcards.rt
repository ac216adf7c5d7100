// The rule on imports of all names of a module.
ghost use Rattle.std.specs.Prelude.{◌≡◌, ◌<◌, ◌++◌, All, OnOk, map};
ghost use Rattle.std.specs.List.{list_any};
ghost use Rattle.tree_nodes.specs.Trees.{count_of, kids_at};
ghost use Rattle.tree_nodes.specs.Kept.{number_of};
ghost use Rattle.scope_rules.specs.Nodes.{kind_of};
ghost use Rattle.check_names.specs.Kinds.{is_wildcard};
ghost use Rattle.rule_nodes.specs.Nodes.{of_nodes};
ghost use Rattle.check_names.specs.Wildcards.{imports_all, wildcard_import, wildcard_imports};

use crate::kinds::is_wildcard;
use lint_messages::{Code, Messages};
use lint_values::{FileId, Memory, NodeId, Text};
use rule_nodes::{is_import_from, message_on, written};
use std::alloc::Global;
use tree_nodes::Tree;

/// Whether some of these nodes is the `*` of an import.
fn any_wildcard(tree: &Tree, kids: &[NodeId]) -> bool
    requires { All (λ k. k.0 < count_of tree.now) kids.now }
    ensures { result ≡ list_any (λ k. is_wildcard (kind_of tree.now k)) (map number_of kids.now) }
{
    let mut rest = kids;
    while let [kid, tail @ ..] = rest {
        if is_wildcard(tree.kind(*kid)) {
            return true;
        }
        rest = tail;
    }
    false
}

/// Whether a node's kids have the `*` of an import.
fn has_wildcard_below(tree: &Tree, n: NodeId) -> bool
    requires { n.0 < count_of tree.now }
    ensures { result ≡ list_any (λ k. is_wildcard (kind_of tree.now k)) (kids_at tree.now n.0) }
{
    any_wildcard(tree, tree.kids(n))
}

fn imports_all(tree: &Tree, n: NodeId) -> bool
    requires { n.0 < count_of tree.now }
    ensures { result ≡ imports_all tree.now n.0 }
{
    is_import_from(tree.kind(n)) && has_wildcard_below(tree, n)
}

/// Adds the message of a node.
fn check_import(
    alloc: Global,
    file: FileId,
    tree: &Tree,
    n: NodeId,
    found: &mut Messages,
) -> Result<(), Memory>
    requires { n.0 < count_of tree.now }
    ensures { OnOk result (found.new ≡ found.old ++ wildcard_import file tree.now n.0) }
{
    if imports_all(tree, n) {
        let name = written(tree, n);
        let text = Text::from_str(alloc, name)?;
        found.push(message_on(alloc, file, tree, n, Code::WildcardImport, text)?)?;
    }
    Ok(())
}

/// Adds the messages of all nodes.
fn check_imports(
    alloc: Global,
    file: FileId,
    tree: &Tree,
    found: &mut Messages,
) -> Result<(), Memory>
    ensures { OnOk result (found.new ≡ found.old ++ of_nodes (wildcard_import file tree.now) tree.now) }
{
    for n in 0..tree.count() {
        check_import(alloc, file, tree, NodeId(n), found)?;
    }
    Ok(())
}

/// Adds the messages on imports of all names.
pub(crate) fn check_wildcards(
    alloc: Global,
    file: FileId,
    is_package: bool,
    tree: &Tree,
    found: &mut Messages,
) -> Result<(), Memory>
    ensures { OnOk result (found.new ≡ found.old ++ wildcard_imports file is_package tree.now) }
{
    if !is_package {
        check_imports(alloc, file, tree, found)?;
    }
    Ok(())
}
