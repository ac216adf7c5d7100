// The rule on local variables.
ghost use Rattle.std.specs.Prelude.{◌≡◌, ◌<◌, ◌++◌, All, OnOk, map};
ghost use Rattle.std.specs.List.{list_any};
ghost use Rattle.tree_nodes.specs.Trees.{count_of};
ghost use Rattle.tree_nodes.specs.Kept.{number_of};
ghost use Rattle.scope_rules.specs.Answers.{binders_of};
ghost use Rattle.scope_bind.specs.Scoped.{AreScopesOf};
ghost use Rattle.unused_names.specs.Variables.{is_other_binder, is_listed, is_variable, unused_variables};
ghost use Rattle.unused_names.specs.Knowledge.{IsKnown};

use crate::answers::binders;
use crate::kinds::is_parameter;
use crate::known::Known;
use crate::locals::is_listed;
use lint_messages::{Code, Messages};
use lint_values::{FileId, Memory, NodeId, Text};
use rule_nodes::{is_alias, is_def, message_on};
use scope_bind::Scopes;
use std::alloc::Global;
use tree_nodes::Tree;

/// A parameter or an imported name.
#[tactic(auto, unfolding(crate::specs::Variables::is_other_binder))]
fn is_other_binder(tree: &Tree, n: NodeId) -> bool
    requires { n.0 < count_of tree.now }
    ensures { result ≡ is_other_binder tree.now n.0 }
{
    is_parameter(tree.kind(n)) || is_alias(tree.kind(n))
}

fn any_other_binder(tree: &Tree, nodes: &[NodeId]) -> bool
    requires { All (λ k. k.0 < count_of tree.now) nodes.now }
    ensures { result ≡ list_any (is_other_binder tree.now) (map number_of nodes.now) }
{
    let mut rest = nodes;
    while let [node, tail @ ..] = rest {
        if is_other_binder(tree, *node) {
            return true;
        }
        rest = tail;
    }
    false
}

fn has_other_binder(tree: &Tree, scopes: &Scopes, scope: u32, name: &str) -> bool
    requires { AreScopesOf tree.now scopes.now }
    ensures { result ≡ list_any (is_other_binder tree.now) (binders_of tree.now scope name.now) }
{
    any_other_binder(tree, binders(tree, scopes, scope, name))
}

fn is_handed_on(tree: &Tree, known: &Known, scope: u32) -> bool
    requires { IsKnown tree.now known.now }
    ensures { result ≡ is_listed tree.now scope }
{
    is_listed(tree, &known.locals, scope)
}

/// Whether a name is local to a function, bound by no parameter and no import, and handed on by no call of `locals`.
fn is_variable(tree: &Tree, scopes: &Scopes, known: &Known, scope: u32, name: &str) -> bool
    requires made { scope < count_of tree.now }
    requires scopes { AreScopesOf tree.now scopes.now }
    requires known { IsKnown tree.now known.now }
    ensures { result ≡ is_variable tree.now (record { scope = scope; name = name.now }) }
{
    is_def(tree.kind(NodeId(scope)))
        && !has_other_binder(tree, scopes, scope, name)
        && !is_handed_on(tree, known, scope)
}

/// Adds the message of a name that is never read, at its first binder.
#[tactic(auto, unfolding(crate::specs::Variables::unused_variables))]
pub(crate) fn check_variable(
    alloc: Global,
    file: FileId,
    tree: &Tree,
    scopes: &Scopes,
    known: &Known,
    n: NodeId,
    scope: u32,
    name: &str,
    found: &mut Messages,
) -> Result<(), Memory>
    requires node { n.0 < count_of tree.now }
    requires made { scope < count_of tree.now }
    requires scopes { AreScopesOf tree.now scopes.now }
    requires known { IsKnown tree.now known.now }
    ensures { OnOk result (found.new ≡ found.old ++ unused_variables file tree.now n.0 (record { scope = scope; name = name.now })) }
{
    if is_variable(tree, scopes, known, scope, name) {
        let argument = Text::from_str(alloc, name)?;
        found.push(message_on(alloc, file, tree, n, Code::UnusedVariable, argument)?)?;
    }
    Ok(())
}
