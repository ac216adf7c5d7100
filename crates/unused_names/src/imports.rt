// The rule on imports.
ghost use Rattle.std.specs.Prelude.{◌≡◌, ◌<◌, ◌++◌, ◌∷◌, [], All, IfOk, OnOk, map, codes};
ghost use Rattle.std.specs.Str.{bytes_eq};
ghost use Rattle.tree_nodes.specs.Trees.{count_of, kids_at, parent_at};
ghost use Rattle.tree_nodes.specs.Kept.{number_of};
ghost use Rattle.scope_rules.specs.Nodes.{first};
ghost use Rattle.scope_bind.specs.Scoped.{AreScopesOf};
ghost use Rattle.rule_nodes.specs.Nodes.{written, due};
ghost use Rattle.unused_names.specs.Nodes.{asked_above};
ghost use Rattle.unused_names.specs.Imports.{is_in_reach, is_unmentioned, is_future, is_same_name, is_reported_alias, from_text, import_text, text_in, statement_of, import_message, imports_among, unused_imports};
ghost use Rattle.unused_names.specs.Reads.{has_name};
ghost use Rattle.unused_names.specs.Exports.{exported};
ghost use Rattle.unused_names.specs.AnnotationWords.{quoted};
ghost use Rattle.unused_names.specs.Knowledge.{IsKnown};

use crate::answers::binders;
use crate::known::Known;
use crate::name_set::has_name;
use lint_messages::{Code, Message, Messages};
use lint_values::{FileId, Memory, NodeId, Text};
use rule_nodes::{is_alias, is_def, is_import_from, message_on, written};
use scope_bind::Scopes;
use std::alloc::Global;
use tree_nodes::Tree;

/// Whether a scope is a module other than `__init__.py`, or a function.
fn is_in_reach(is_package: bool, tree: &Tree, scope: u32, name: &str) -> bool
    requires { scope < count_of tree.now }
    ensures { result ≡ is_in_reach is_package tree.now (record { scope = scope; name = name.now }) }
{
    let _name = name;
    if scope == 0 {
        !is_package
    } else {
        is_def(tree.kind(NodeId(scope)))
    }
}

fn is_exported(tree: &Tree, known: &Known, name: &str) -> bool
    requires { IsKnown tree.now known.now }
    ensures { result ≡ has_name (exported tree.now) name.now }
{
    let _tree = tree;
    has_name(&known.exported, name)
}

fn is_quoted(tree: &Tree, known: &Known, name: &str) -> bool
    requires { IsKnown tree.now known.now }
    ensures { result ≡ has_name (quoted tree.now) name.now }
{
    let _tree = tree;
    has_name(&known.quoted, name)
}

/// Whether a name stands neither in a list `__all__` nor in a string within an annotation.
fn is_unmentioned(tree: &Tree, known: &Known, scope: u32, name: &str) -> bool
    requires { IsKnown tree.now known.now }
    ensures { result ≡ is_unmentioned tree.now (record { scope = scope; name = name.now }) }
{
    let _scope = scope;
    !(is_exported(tree, known, name) || is_quoted(tree, known, name))
}

fn is_named_future(tree: &Tree, q: NodeId) -> bool
    requires { q.0 < count_of tree.now }
    ensures { result ≡ bytes_eq (written tree.now q.0) (codes "__future__") }
{
    written(tree, q) == "__future__"
}

#[tactic(auto, unfolding(crate::specs::Imports::is_future))]
fn is_future(tree: &Tree, q: NodeId) -> bool
    requires { q.0 < count_of tree.now }
    ensures { result ≡ is_future tree.now q.0 }
{
    is_import_from(tree.kind(q)) && is_named_future(tree, q)
}

fn is_from_future(tree: &Tree, n: NodeId) -> bool
    requires { n.0 < count_of tree.now }
    ensures { result ≡ asked_above (is_future tree.now) (parent_at tree.now n.0) }
{
    match tree.parent(n) {
        Some(q) => is_future(tree, q),
        None => false,
    }
}

#[tactic(auto, unfolding(crate::specs::Imports::is_same_name))]
fn is_same_as(tree: &Tree, n: NodeId, kids: &[NodeId]) -> bool
    requires made { n.0 < count_of tree.now }
    requires kids { All (λ k. k.0 < count_of tree.now) kids.now }
    ensures { result ≡ is_same_name tree.now n.0 (first (map number_of kids.now)) }
{
    match kids {
        [k, ..] => written(tree, *k) == written(tree, n),
        [] => false,
    }
}

/// Whether the name behind `as` is the imported name.
fn is_same_name(tree: &Tree, n: NodeId) -> bool
    requires { n.0 < count_of tree.now }
    ensures { result ≡ is_same_name tree.now n.0 (first (kids_at tree.now n.0)) }
{
    is_same_as(tree, n, tree.kids(n))
}

/// An imported name that is reported.
#[tactic(auto, unfolding(crate::specs::Imports::is_reported_alias))]
fn is_reported_alias(tree: &Tree, n: NodeId) -> bool
    requires { n.0 < count_of tree.now }
    ensures { result ≡ is_reported_alias tree.now n.0 }
{
    is_alias(tree.kind(n)) && !is_from_future(tree, n) && !is_same_name(tree, n)
}

fn plain_from(alloc: Global, name: &str, module_name: &str) -> Result<Text, Memory>
    ensures { IfOk result (λ text. text ≡ codes "Unused " ++ (name.now ++ (codes " imported from " ++ module_name.now))) }
{
    let text = format!(in alloc; "Unused {name} imported from {module_name}")?;
    Ok(Text::from_string(text))
}

fn renamed_from(alloc: Global, name: &str, module_name: &str, as_name: &str) -> Result<Text, Memory>
    ensures { IfOk result (λ text. text ≡ codes "Unused " ++ (name.now ++ (codes " imported from " ++ (module_name.now ++ (codes " as " ++ as_name.now))))) }
{
    let text = format!(in alloc; "Unused {name} imported from {module_name} as {as_name}")?;
    Ok(Text::from_string(text))
}

#[tactic(auto, unfolding(crate::specs::Imports::from_text))]
fn from_text(
    alloc: Global,
    tree: &Tree,
    n: NodeId,
    q: NodeId,
    kids: &[NodeId],
) -> Result<Text, Memory>
    requires made { n.0 < count_of tree.now }
    requires statement { q.0 < count_of tree.now }
    requires kids { All (λ k. k.0 < count_of tree.now) kids.now }
    ensures { IfOk result (λ text. text ≡ from_text tree.now n.0 q.0 (first (map number_of kids.now))) }
{
    let name = written(tree, n);
    let module_name = written(tree, q);
    match kids {
        [k, ..] => renamed_from(alloc, name, module_name, written(tree, *k)),
        [] => plain_from(alloc, name, module_name),
    }
}

fn plain_import(alloc: Global, name: &str) -> Result<Text, Memory>
    ensures { IfOk result (λ text. text ≡ codes "Unused import " ++ name.now) }
{
    let text = format!(in alloc; "Unused import {name}")?;
    Ok(Text::from_string(text))
}

fn renamed_import(alloc: Global, name: &str, as_name: &str) -> Result<Text, Memory>
    ensures { IfOk result (λ text. text ≡ codes "Unused " ++ (name.now ++ (codes " imported as " ++ as_name.now))) }
{
    let text = format!(in alloc; "Unused {name} imported as {as_name}")?;
    Ok(Text::from_string(text))
}

#[tactic(auto, unfolding(crate::specs::Imports::import_text))]
fn import_text(alloc: Global, tree: &Tree, n: NodeId, kids: &[NodeId]) -> Result<Text, Memory>
    requires made { n.0 < count_of tree.now }
    requires kids { All (λ k. k.0 < count_of tree.now) kids.now }
    ensures { IfOk result (λ text. text ≡ import_text tree.now n.0 (first (map number_of kids.now))) }
{
    let name = written(tree, n);
    match kids {
        [k, ..] => renamed_import(alloc, name, written(tree, *k)),
        [] => plain_import(alloc, name),
    }
}

/// The text of an imported name of a statement.
#[tactic(auto, unfolding(crate::specs::Imports::text_in))]
fn text_in(alloc: Global, tree: &Tree, n: NodeId, q: NodeId) -> Result<Text, Memory>
    requires made { n.0 < count_of tree.now }
    requires statement { q.0 < count_of tree.now }
    ensures { IfOk result (λ text. text ≡ text_in tree.now n.0 q.0) }
{
    if is_import_from(tree.kind(q)) {
        from_text(alloc, tree, n, q, tree.kids(n))
    } else {
        import_text(alloc, tree, n, tree.kids(n))
    }
}

fn statement_of(tree: &Tree, n: NodeId) -> NodeId
    requires { n.0 < count_of tree.now }
    ensures value { result.0 ≡ statement_of tree.now n.0 }
    ensures made { result.0 < count_of tree.now }
{
    match tree.parent(n) {
        Some(q) => q,
        None => n,
    }
}

/// The message of an imported name, at its statement.
fn import_message(alloc: Global, file: FileId, tree: &Tree, n: NodeId) -> Result<Message, Memory>
    requires { n.0 < count_of tree.now }
    ensures { IfOk result (λ message. message ≡ import_message file tree.now n.0) }
{
    let statement = statement_of(tree, n);
    let text = text_in(alloc, tree, n, statement)?;
    message_on(alloc, file, tree, statement, Code::UnusedImport, text)
}

/// Adds the message of a binder, where it is an imported name that is reported.
fn check_alias(
    alloc: Global,
    file: FileId,
    tree: &Tree,
    n: NodeId,
    found: &mut Messages,
) -> Result<(), Memory>
    requires { n.0 < count_of tree.now }
    ensures { OnOk result (found.new ≡ found.old ++ due (is_reported_alias tree.now n.0) (import_message file tree.now n.0)) }
{
    if is_reported_alias(tree, n) {
        found.push(import_message(alloc, file, tree, n)?)?;
    }
    Ok(())
}

/// Adds the messages of these binders.
fn check_aliases(
    alloc: Global,
    file: FileId,
    tree: &Tree,
    nodes: &[NodeId],
    found: &mut Messages,
) -> Result<(), Memory>
    requires { All (λ k. k.0 < count_of tree.now) nodes.now }
    ensures { OnOk result (found.new ≡ found.old ++ imports_among file tree.now (map number_of nodes.now)) }
{
    let mut rest = nodes;
    while let Some((node, tail)) = rest.split_first() {
        check_alias(alloc, file, tree, *node, found)?;
        rest = tail;
    }
    Ok(())
}

/// Adds the messages of the imports that bind a name which is never read.
#[tactic(auto, unfolding(crate::specs::Imports::unused_imports))]
pub(crate) fn check_imports(
    alloc: Global,
    file: FileId,
    is_package: bool,
    tree: &Tree,
    scopes: &Scopes,
    known: &Known,
    scope: u32,
    name: &str,
    found: &mut Messages,
) -> Result<(), Memory>
    requires made { scope < count_of tree.now }
    requires scopes { AreScopesOf tree.now scopes.now }
    requires known { IsKnown tree.now known.now }
    ensures { OnOk result (found.new ≡ found.old ++ unused_imports file is_package tree.now (record { scope = scope; name = name.now })) }
{
    if is_in_reach(is_package, tree, scope, name) && is_unmentioned(tree, known, scope, name) {
        check_aliases(alloc, file, tree, binders(tree, scopes, scope, name), found)
    } else {
        Ok(())
    }
}
