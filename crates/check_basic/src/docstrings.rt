// The rules on docstrings.
ghost use Rattle.std.specs.Prelude.{◌≡◌, ◌<◌, ◌++◌, OnOk};
ghost use Rattle.tree_nodes.specs.Trees.{count_of};
ghost use Rattle.check_basic.specs.TreeRules.{at_first_line, is_undocumented, lacks_module_docstring, lacks_class_docstring, lacks_function_docstring, missing_module_docstring, missing_class_docstring, missing_function_docstring};

use crate::nodes::{has_docstring, has_statement, is_open};
use crate::setters::is_setter;
use lint_messages::{Code, Message, Messages};
use lint_values::{FileId, Memory, NodeId, Pos, Texts};
use rule_nodes::{is_class, is_def, is_module, is_public, message_at, written};
use std::alloc::Global;
use tree_nodes::Tree;

fn lacks_module_docstring(tree: &Tree, n: NodeId) -> bool
    requires { n.0 < count_of tree.now }
    ensures { result ≡ lacks_module_docstring tree.now n.0 }
{
    is_module(tree.kind(n)) && has_statement(tree, n) && !has_docstring(tree, n)
}

fn at_first_line(alloc: Global, file: FileId, n: NodeId, code: Code) -> Message
    ensures { result ≡ at_first_line file n.0 code }
{
    Message {
        file,
        node: Some(n),
        pos: Pos { line: 1, col: 0 },
        code,
        args: Texts::new(alloc),
    }
}

/// Adds the message of a module of statements without a docstring.
pub(crate) fn check_module(
    alloc: Global,
    file: FileId,
    tree: &Tree,
    n: NodeId,
    found: &mut Messages,
) -> Result<(), Memory>
    requires { n.0 < count_of tree.now }
    ensures { OnOk result (found.new ≡ found.old ++ missing_module_docstring file tree.now n.0) }
{
    if lacks_module_docstring(tree, n) {
        found.push(at_first_line(alloc, file, n, Code::MissingModuleDocstring))?;
    }
    Ok(())
}

// A public name, and no docstring.
fn is_undocumented(tree: &Tree, n: NodeId) -> bool
    requires { n.0 < count_of tree.now }
    ensures { result ≡ is_undocumented tree.now n.0 }
{
    is_public(written(tree, n)) && !has_docstring(tree, n)
}

fn lacks_class_docstring(tree: &Tree, n: NodeId) -> bool
    requires { n.0 < count_of tree.now }
    ensures { result ≡ lacks_class_docstring tree.now n.0 }
{
    is_class(tree.kind(n)) && is_undocumented(tree, n)
}

/// Adds the message of a public class without a docstring.
pub(crate) fn check_class(
    alloc: Global,
    file: FileId,
    tree: &Tree,
    n: NodeId,
    found: &mut Messages,
) -> Result<(), Memory>
    requires { n.0 < count_of tree.now }
    ensures { OnOk result (found.new ≡ found.old ++ missing_class_docstring file tree.now n.0) }
{
    if lacks_class_docstring(tree, n) {
        found.push(message_at(alloc, file, tree, n, Code::MissingClassDocstring))?;
    }
    Ok(())
}

fn lacks_function_docstring(tree: &Tree, n: NodeId) -> bool
    requires { n.0 < count_of tree.now }
    ensures { result ≡ lacks_function_docstring tree.now n.0 }
{
    is_def(tree.kind(n)) && is_undocumented(tree, n) && is_open(tree, n) && !is_setter(tree, n)
}

/// Adds the message of a public function without a docstring, at module level or in a class without bases, that is no
/// setter.
pub(crate) fn check_function(
    alloc: Global,
    file: FileId,
    tree: &Tree,
    n: NodeId,
    found: &mut Messages,
) -> Result<(), Memory>
    requires { n.0 < count_of tree.now }
    ensures { OnOk result (found.new ≡ found.old ++ missing_function_docstring file tree.now n.0) }
{
    if lacks_function_docstring(tree, n) {
        found.push(message_at(alloc, file, tree, n, Code::MissingFunctionDocstring))?;
    }
    Ok(())
}
