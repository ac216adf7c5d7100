// The rule on imports of several modules.
ghost use Rattle.std.specs.Prelude.{◌≡◌, ◌<◌, ◌++◌, ◌∷◌, [], All, IfOk, OnOk, map, codes, string_bytes};
ghost use Rattle.tree_nodes.specs.Trees.{count_of, kids_at};
ghost use Rattle.tree_nodes.specs.Kept.{number_of};
ghost use Rattle.lint_messages.specs.declared.code.Code.TheVariants.{MultipleImports};
ghost use Rattle.rule_nodes.specs.Nodes.{written, message_at};
ghost use Rattle.check_basic.specs.TreeRules.{names_behind, imported_names, are_several, imports_several, multiple_imports};

use crate::kinds::is_import;
use lint_messages::{Code, Message, Messages};
use lint_values::{FileId, Memory, NodeId, Text};
use rule_nodes::{message_on, written};
use std::alloc::Global;
use tree_nodes::Tree;

// Adds a name behind a comma.
fn push_name_behind(tree: &Tree, n: NodeId, text: &mut String) -> Result<(), Memory>
    requires { n.0 < count_of tree.now }
    ensures { OnOk result (string_bytes text.new ≡ string_bytes text.old ++ (codes ", " ++ written tree.now n.0)) }
{
    text.push_str(", ")?;
    text.push_str(written(tree, n))?;
    Ok(())
}

// Adds each name behind a comma.
fn push_names_behind(tree: &Tree, kids: &[NodeId], text: &mut String) -> Result<(), Memory>
    requires { All (λ k. k.0 < count_of tree.now) kids.now }
    ensures { OnOk result (string_bytes text.new ≡ string_bytes text.old ++ names_behind tree.now (map number_of kids.now)) }
{
    let mut rest = kids;
    while let Some((kid, tail)) = rest.split_first() {
        push_name_behind(tree, *kid, text)?;
        rest = tail;
    }
    Ok(())
}

// The names joined by commas.
fn imported_names(alloc: Global, tree: &Tree, kids: &[NodeId]) -> Result<Text, Memory>
    requires { All (λ k. k.0 < count_of tree.now) kids.now }
    ensures { IfOk result (λ text. text ≡ imported_names tree.now (map number_of kids.now)) }
{
    match kids {
        [] => Ok(Text::from_str(alloc, "")?),
        [first, rest @ ..] => {
            let mut text = String::from_str(alloc, written(tree, *first))?;
            push_names_behind(tree, rest, &mut text)?;
            Ok(Text::from_string(text))
        }
    }
}

// The message of an `import`, with its names.
fn imports_message(alloc: Global, file: FileId, tree: &Tree, n: NodeId) -> Result<Message, Memory>
    requires { n.0 < count_of tree.now }
    ensures { IfOk result (λ message. message ≡ message_at file tree.now n.0 MultipleImports (imported_names tree.now (kids_at tree.now n.0) ∷ [])) }
{
    let names = imported_names(alloc, tree, tree.kids(n))?;
    message_on(alloc, file, tree, n, Code::MultipleImports, names)
}

fn has_several_kids(tree: &Tree, n: NodeId) -> bool
    requires { n.0 < count_of tree.now }
    ensures { result ≡ are_several (kids_at tree.now n.0) }
{
    tree.kids(n).len() > 1
}

fn imports_several(tree: &Tree, n: NodeId) -> bool
    requires { n.0 < count_of tree.now }
    ensures { result ≡ imports_several tree.now n.0 }
{
    is_import(tree.kind(n)) && has_several_kids(tree, n)
}

/// Adds the message of an `import` of several modules.
pub(crate) fn check_import(
    alloc: Global,
    file: FileId,
    tree: &Tree,
    n: NodeId,
    found: &mut Messages,
) -> Result<(), Memory>
    requires { n.0 < count_of tree.now }
    ensures { OnOk result (found.new ≡ found.old ++ multiple_imports file tree.now n.0) }
{
    if imports_several(tree, n) {
        found.push(imports_message(alloc, file, tree, n)?)?;
    }
    Ok(())
}
