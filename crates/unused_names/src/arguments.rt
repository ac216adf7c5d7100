// The rule on parameters.
ghost use Rattle.std.specs.Prelude.{◌≡◌, ◌<◌, ◌++◌, ◌∷◌, [], All, OnOk, map};
ghost use Rattle.tree_nodes.specs.Trees.{count_of, kids_at, parent_at};
ghost use Rattle.tree_nodes.specs.Kept.{number_of};
ghost use Rattle.scope_bind.specs.Lists.{IsListOf};
ghost use Rattle.scope_bind.specs.Scoped.{AreScopesOf};
ghost use Rattle.lint_messages.specs.declared.code.Code.TheVariants.{UnusedArgument};
ghost use Rattle.rule_nodes.specs.Nodes.{due, message_at};
ghost use Rattle.unused_names.specs.Nodes.{asked_above};
ghost use Rattle.unused_names.specs.Arguments.{is_silent, is_first_parameter, reports, is_reported_parameter, arguments_among, unused_arguments};
ghost use Rattle.unused_names.specs.Knowledge.{IsKnown};

use crate::answers::binders;
use crate::bodies::is_method;
use crate::kinds::is_parameter;
use crate::known::Known;
use lint_messages::{Code, Messages};
use lint_values::{FileId, Memory, NodeId, Text};
use rule_nodes::{is_def, message_on};
use scope_bind::Scopes;
use std::alloc::Global;
use tree_nodes::Tree;

fn is_silent_among(tree: &Tree, silent: &[bool], n: NodeId) -> bool
    requires made { n.0 < count_of tree.now }
    requires silent { IsListOf (is_silent tree.now) tree.now silent.now }
    ensures { result ≡ is_silent tree.now n.0 }
{
    let _tree = tree;
    silent[n.0 as usize]
}

/// Whether the parameters of a function are not reported.
fn is_silent(tree: &Tree, known: &Known, n: NodeId) -> bool
    requires made { n.0 < count_of tree.now }
    requires known { IsKnown tree.now known.now }
    ensures { result ≡ is_silent tree.now n.0 }
{
    is_silent_among(tree, known.silent.as_slice(), n)
}

/// Whether a node is the first parameter among these.
fn is_first_of(tree: &Tree, kids: &[NodeId], n: NodeId) -> bool
    requires { All (λ k. k.0 < count_of tree.now) kids.now }
    ensures { result ≡ is_first_parameter tree.now (map number_of kids.now) n.0 }
{
    let mut rest = kids;
    while let [kid, tail @ ..] = rest {
        if is_parameter(tree.kind(*kid)) {
            return kid.0 == n.0;
        }
        rest = tail;
    }
    false
}

/// Whether a node is the first parameter of a function.
fn is_first_parameter(tree: &Tree, d: NodeId, n: NodeId) -> bool
    requires { d.0 < count_of tree.now }
    ensures { result ≡ is_first_parameter tree.now (kids_at tree.now d.0) n.0 }
{
    is_first_of(tree, tree.kids(d), n)
}

/// Whether a function reports its parameter.
#[tactic(auto, unfolding(crate::specs::Arguments::reports))]
fn reports(tree: &Tree, scopes: &Scopes, known: &Known, n: NodeId, d: NodeId) -> bool
    requires made { d.0 < count_of tree.now }
    requires scopes { AreScopesOf tree.now scopes.now }
    requires known { IsKnown tree.now known.now }
    ensures { result ≡ reports tree.now n.0 d.0 }
{
    is_def(tree.kind(d))
        && !is_silent(tree, known, d)
        && !(is_method(tree, scopes, d) && is_first_parameter(tree, d, n))
}

fn is_reported_by_owner(tree: &Tree, scopes: &Scopes, known: &Known, n: NodeId) -> bool
    requires made { n.0 < count_of tree.now }
    requires scopes { AreScopesOf tree.now scopes.now }
    requires known { IsKnown tree.now known.now }
    ensures { result ≡ asked_above (reports tree.now n.0) (parent_at tree.now n.0) }
{
    match tree.parent(n) {
        Some(d) => reports(tree, scopes, known, n, d),
        None => false,
    }
}

/// A parameter that is reported where it is never read.
#[tactic(auto, unfolding(crate::specs::Arguments::is_reported_parameter))]
fn is_reported_parameter(tree: &Tree, scopes: &Scopes, known: &Known, n: NodeId) -> bool
    requires made { n.0 < count_of tree.now }
    requires scopes { AreScopesOf tree.now scopes.now }
    requires known { IsKnown tree.now known.now }
    ensures { result ≡ is_reported_parameter tree.now n.0 }
{
    is_parameter(tree.kind(n)) && is_reported_by_owner(tree, scopes, known, n)
}

/// Adds the message of a binder, where it is such a parameter.
fn check_parameter(
    alloc: Global,
    file: FileId,
    tree: &Tree,
    scopes: &Scopes,
    known: &Known,
    name: &str,
    n: NodeId,
    found: &mut Messages,
) -> Result<(), Memory>
    requires made { n.0 < count_of tree.now }
    requires scopes { AreScopesOf tree.now scopes.now }
    requires known { IsKnown tree.now known.now }
    ensures { OnOk result (found.new ≡ found.old ++ due (is_reported_parameter tree.now n.0) (message_at file tree.now n.0 UnusedArgument (name.now ∷ []))) }
{
    if is_reported_parameter(tree, scopes, known, n) {
        let argument = Text::from_str(alloc, name)?;
        found.push(message_on(alloc, file, tree, n, Code::UnusedArgument, argument)?)?;
    }
    Ok(())
}

/// Adds the messages of these binders.
fn check_parameters(
    alloc: Global,
    file: FileId,
    tree: &Tree,
    scopes: &Scopes,
    known: &Known,
    name: &str,
    nodes: &[NodeId],
    found: &mut Messages,
) -> Result<(), Memory>
    requires nodes { All (λ k. k.0 < count_of tree.now) nodes.now }
    requires scopes { AreScopesOf tree.now scopes.now }
    requires known { IsKnown tree.now known.now }
    ensures { OnOk result (found.new ≡ found.old ++ arguments_among file tree.now name.now (map number_of nodes.now)) }
{
    let mut rest = nodes;
    while let Some((node, tail)) = rest.split_first() {
        check_parameter(alloc, file, tree, scopes, known, name, *node, found)?;
        rest = tail;
    }
    Ok(())
}

/// Adds the messages of the parameters that bind a name which is never read.
#[tactic(auto, unfolding(crate::specs::Arguments::unused_arguments))]
pub(crate) fn check_arguments(
    alloc: Global,
    file: FileId,
    tree: &Tree,
    scopes: &Scopes,
    known: &Known,
    scope: u32,
    name: &str,
    found: &mut Messages,
) -> Result<(), Memory>
    requires scopes { AreScopesOf tree.now scopes.now }
    requires known { IsKnown tree.now known.now }
    ensures { OnOk result (found.new ≡ found.old ++ unused_arguments file tree.now (record { scope = scope; name = name.now })) }
{
    let nodes = binders(tree, scopes, scope, name);
    check_parameters(alloc, file, tree, scopes, known, name, nodes, found)
}
