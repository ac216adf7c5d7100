// The lines that list the scopes of a tree.
ghost use Rattle.std.specs.Prelude.{ℕ, ◌<◌};
ghost use Rattle.tree_nodes.specs.Trees.{count_of};
ghost use Rattle.scope_bind.specs.Scoped.{IsNode};

use lint_values::{Memory, NodeId};
use scope_bind::{ScopeId, Scopes, Where};
use std::alloc::Global;
use tree_nodes::{Kind, Tree};

// A word for a kind that opens a scope.
fn word_of(kind: Kind) -> &'static str {
    match kind {
        Kind::Module => "module",
        Kind::FunctionDef => "def",
        Kind::AsyncFunctionDef => "async",
        Kind::Lambda => "lambda",
        Kind::ClassDef => "class",
        Kind::ListComprehension => "listcomp",
        Kind::SetComprehension => "setcomp",
        Kind::DictComprehension => "dictcomp",
        _ => "genexp",
    }
}

// `scope`, its number, that of the scope around it, its line and column, what it is, and its name.
fn add_scope(text: &mut String, tree: &Tree, scopes: &Scopes, n: NodeId) -> Result<(), Memory>
    requires made { n.0 < count_of tree.now }
    requires known { (k : ℕ) → k < count_of tree.now → IsNode scopes.now k }
{
    let around = scopes.around(n);
    let pos = tree.pos(n);
    let word = word_of(tree.kind(n));
    let name = tree.name(n).unwrap_or("-");
    writeln!(
        text,
        "scope {} {} {} {} {word} {name}",
        n.0, around.0, pos.line, pos.col
    )?;
    Ok(())
}

// `bound`, the scope in which a node stands, the scope in which it binds a name, and the name, where these scopes differ.
fn add_binder(
    text: &mut String,
    tree: &Tree,
    scopes: &Scopes,
    scope: ScopeId,
    name: &str,
    binder: NodeId,
) -> Result<(), Memory>
    requires { (k : ℕ) → k < count_of tree.now → IsNode scopes.now k }
{
    if binder.0 < tree.count() {
        let around = scopes.around(binder);
        if around.0 != scope.0 {
            writeln!(text, "bound {} {} {name}", around.0, scope.0)?;
        }
    }
    Ok(())
}

// `local`, the scope, and a name that is local to it; then the binders of the name that stand elsewhere.
fn add_name(
    text: &mut String,
    tree: &Tree,
    scopes: &Scopes,
    scope: ScopeId,
    name: &str,
) -> Result<(), Memory>
    requires { (k : ℕ) → k < count_of tree.now → IsNode scopes.now k }
{
    writeln!(text, "local {} {name}", scope.0)?;
    for binder in scopes.binders(scope, name) {
        add_binder(text, tree, scopes, scope, name, *binder)?;
    }
    Ok(())
}

// The names of a scope.
fn add_names(text: &mut String, tree: &Tree, scopes: &Scopes, scope: ScopeId) -> Result<(), Memory>
    requires { (k : ℕ) → k < count_of tree.now → IsNode scopes.now k }
{
    for name in scopes.names(scope) {
        add_name(text, tree, scopes, scope, name.as_str())?;
    }
    Ok(())
}

// `read`, the scope in which a name is read, where it leads, and the name.
fn add_read(text: &mut String, scopes: &Scopes, n: NodeId) -> Result<(), Memory>
    requires { IsNode scopes.now n.0 }
{
    let around = scopes.around(n);
    let name = scopes.spelled(n).unwrap_or("-");
    match scopes.resolve(n) {
        Where::Local(s) => writeln!(text, "read {} local {} {name}", around.0, s.0)?,
        Where::Free(s) => writeln!(text, "read {} free {} {name}", around.0, s.0)?,
        Where::Global => writeln!(text, "read {} global 0 {name}", around.0)?,
        Where::Builtin => writeln!(text, "read {} builtin 0 {name}", around.0)?,
        Where::Nowhere => writeln!(text, "read {} nowhere 0 {name}", around.0)?,
    }
    Ok(())
}

// What there is to say of a node.
fn add_node(text: &mut String, tree: &Tree, scopes: &Scopes, n: NodeId) -> Result<(), Memory>
    requires made { n.0 < count_of tree.now }
    requires known { (k : ℕ) → k < count_of tree.now → IsNode scopes.now k }
{
    if matches!(tree.kind(n), Kind::Name) {
        add_read(text, scopes, n)?;
    }
    if let Some(scope) = scopes.scope(n) {
        add_scope(text, tree, scopes, n)?;
        add_names(text, tree, scopes, scope)?;
    }
    Ok(())
}

/// The lines of a tree: its scopes with their names, and its reads, as its nodes come.
pub fn listing(alloc: Global, tree: &Tree, scopes: &Scopes) -> Result<String, Memory>
    requires { (k : ℕ) → k < count_of tree.now → IsNode scopes.now k }
{
    let mut text = String::new(alloc);
    for n in 0..tree.count() {
        add_node(&mut text, tree, scopes, NodeId(n))?;
    }
    Ok(text)
}
