// The rule on functions with many local names.
ghost use Rattle.std.specs.Prelude.{◌≡◌, ◌<◌, ◌++◌, ◌∷◌, [], nat_lt, IfOk, OnOk};
ghost use Rattle.std.specs.Fmt.{decimal};
ghost use Rattle.std.specs.List.{count_by};
ghost use Rattle.tree_nodes.specs.Trees.{count_of};
ghost use Rattle.lint_messages.specs.declared.code.Code.TheVariants.{TooManyLocals};
ghost use Rattle.scope_bind.specs.Scoped.{AreScopesOf};
ghost use Rattle.rule_nodes.specs.Nodes.{is_public, message_at, due};
ghost use Rattle.check_names.specs.Locals.{local_count, too_many, too_many_locals};

use lint_messages::{Code, Message, Messages};
use lint_values::{FileId, Memory, NodeId, Text, Texts};
use rule_nodes::{is_def, is_public, message_with, number_text};
use scope_bind::{ScopeId, Scopes};
use std::alloc::Global;
use tree_nodes::Tree;

/// How many of these names are public.
fn public_count(names: &[Text]) -> usize
    ensures { result ≡ count_by is_public names.now }
{
    names.iter().filter(|name| is_public(name.as_str())).count()
}

/// How many public names are local to a scope.
fn local_count(tree: &Tree, scopes: &Scopes, scope: NodeId) -> usize
    requires { AreScopesOf tree.now scopes.now }
    ensures { result ≡ local_count tree.now scope.0 }
{
    let _tree = tree;
    public_count(scopes.names(ScopeId(scope.0)))
}

/// The message of a function, with how many there are and how many are allowed.
fn locals_message(
    alloc: Global,
    file: FileId,
    tree: &Tree,
    n: NodeId,
    count: usize,
    most: u32,
) -> Result<Message, Memory>
    requires { n.0 < count_of tree.now }
    ensures { IfOk result (λ message. message ≡ message_at file tree.now n.0 TooManyLocals (decimal count ∷ decimal most ∷ [])) }
{
    let mut args = Texts::new(alloc);
    args.push(number_text(alloc, count as u64)?)?;
    args.push(number_text(alloc, u64::from(most))?)?;
    Ok(message_with(file, tree, n, Code::TooManyLocals, args))
}

/// Adds the message of a function with so many local names.
fn check_count(
    alloc: Global,
    file: FileId,
    most: u32,
    tree: &Tree,
    n: NodeId,
    count: usize,
    found: &mut Messages,
) -> Result<(), Memory>
    requires { n.0 < count_of tree.now }
    ensures { OnOk result (found.new ≡ found.old ++ due (nat_lt most count) (message_at file tree.now n.0 TooManyLocals (decimal count ∷ decimal most ∷ []))) }
{
    if (most as usize) < count {
        found.push(locals_message(alloc, file, tree, n, count, most)?)?;
    }
    Ok(())
}

/// Adds the message of a node.
fn check_def(
    alloc: Global,
    file: FileId,
    most: u32,
    tree: &Tree,
    scopes: &Scopes,
    n: NodeId,
    found: &mut Messages,
) -> Result<(), Memory>
    requires scopes { AreScopesOf tree.now scopes.now }
    requires made { n.0 < count_of tree.now }
    ensures { OnOk result (found.new ≡ found.old ++ too_many file most tree.now n.0) }
{
    if is_def(tree.kind(n)) {
        let count = local_count(tree, scopes, n);
        check_count(alloc, file, most, tree, n, count, found)?;
    }
    Ok(())
}

/// Adds the messages on functions with many local names.
pub(crate) fn check_locals(
    alloc: Global,
    file: FileId,
    most: u32,
    tree: &Tree,
    scopes: &Scopes,
    found: &mut Messages,
) -> Result<(), Memory>
    requires { AreScopesOf tree.now scopes.now }
    ensures { OnOk result (found.new ≡ found.old ++ too_many_locals file most tree.now) }
{
    for n in 0..tree.count() {
        check_def(alloc, file, most, tree, scopes, NodeId(n), found)?;
    }
    Ok(())
}
