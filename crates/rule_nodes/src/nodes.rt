// Names of nodes, and messages about them.
ghost use Rattle.std.specs.Prelude.{◌≡◌, ◌<◌, [], ◌∷◌, IfOk, unwrap_or, option_copied};
ghost use Rattle.std.specs.Fmt.{decimal};
ghost use Rattle.tree_nodes.specs.Trees.{count_of};
ghost use Rattle.rule_nodes.specs.Nodes.{written, is_public, message_at};

use lint_messages::{Code, Message};
use lint_values::{FileId, Memory, NodeId, Text, Texts};
use std::alloc::Global;
use tree_nodes::Tree;

// The name, or nothing.
fn name_or_none<'n>(name: Option<&'n str>) -> &'n str
    ensures { result.now ≡ unwrap_or (option_copied name.entry) [] }
{
    match name {
        Some(name) => name,
        None => "",
    }
}

/// A node's name as written, or nothing.
pub fn written(tree: &Tree, n: NodeId) -> &str
    requires { n.0 < count_of tree.now }
    ensures { result.now ≡ written tree.now n.0 }
{
    name_or_none(tree.name(n))
}

/// Whether a name does not begin with `_`.
pub fn is_public(name: &str) -> bool
    ensures { result ≡ is_public name.now }
{
    match name.as_bytes() {
        [first, ..] => *first != b'_',
        [] => true,
    }
}

/// A message of a node.
pub fn message_with(file: FileId, tree: &Tree, n: NodeId, code: Code, args: Texts) -> Message
    requires { n.0 < count_of tree.now }
    ensures { result ≡ message_at file tree.now n.0 code args }
{
    Message {
        file,
        node: Some(n),
        pos: tree.pos(n),
        code,
        args,
    }
}

/// A message of a node, with no argument.
pub fn message_at(alloc: Global, file: FileId, tree: &Tree, n: NodeId, code: Code) -> Message
    requires { n.0 < count_of tree.now }
    ensures { result ≡ message_at file tree.now n.0 code [] }
{
    message_with(file, tree, n, code, Texts::new(alloc))
}

/// A message of a node about a text.
pub fn message_on(
    alloc: Global,
    file: FileId,
    tree: &Tree,
    n: NodeId,
    code: Code,
    text: Text,
) -> Result<Message, Memory>
    requires { n.0 < count_of tree.now }
    ensures { IfOk result (λ message. message ≡ message_at file tree.now n.0 code (text ∷ [])) }
{
    let mut args = Texts::new(alloc);
    args.push(text)?;
    Ok(message_with(file, tree, n, code, args))
}

/// A number as it is written.
pub fn number_text(alloc: Global, n: u64) -> Result<Text, Memory>
    ensures { IfOk result (λ text. text ≡ decimal n) }
{
    Ok(Text::from_string(format!(in alloc; "{n}")?))
}
