// Functions whose parameters are not reported.
ghost use Rattle.std.specs.Prelude.{◌≡◌, ◌<◌, All, IfOk, map, codes};
ghost use Rattle.std.specs.Str.{bytes_eq};
ghost use Rattle.tree_nodes.specs.Trees.{count_of, kids_at};
ghost use Rattle.tree_nodes.specs.Kept.{number_of};
ghost use Rattle.scope_rules.specs.Places.{around};
ghost use Rattle.scope_rules.specs.Mangling.{begins_private, ends_special};
ghost use Rattle.scope_rules.specs.Reading.{is_special};
ghost use Rattle.scope_bind.specs.Lists.{IsListOf};
ghost use Rattle.scope_bind.specs.Scoped.{AreScopesOf};
ghost use Rattle.rule_nodes.specs.Nodes.{written};
ghost use Rattle.unused_names.specs.Arguments.{has_bases, is_method, is_special_method, is_sole_ellipsis, is_stub, does_nothing, are_stubs, is_silent};

use crate::answers::around;
use crate::kinds::is_empty_statement;
use lint_values::{Memory, NodeId};
use rule_nodes::{
    has_base, has_decorator, is_class, is_ellipsis, is_expression_statement, is_in_body, written,
};
use scope_bind::Scopes;
use std::alloc::Global;
use tree_nodes::Tree;

/// A class with bases.
#[tactic(auto, unfolding(crate::specs::Arguments::has_bases))]
fn has_bases(tree: &Tree, n: NodeId) -> bool
    requires { n.0 < count_of tree.now }
    ensures { result ≡ has_bases tree.now n.0 }
{
    is_class(tree.kind(n)) && has_base(tree, n)
}

/// Whether each node is a class with bases.
#[tactic(auto, using(scope_bind::proofs::ListLaws::list_none, scope_bind::proofs::ListLaws::list_more))]
fn based_of(alloc: Global, tree: &Tree) -> Result<Vec<bool>, Memory>
    ensures { IfOk result (λ based. IsListOf (has_bases tree.now) tree.now based.items) }
{
    let mut based = Vec::new(alloc);
    for n in 0..tree.count() {
        let is_based = has_bases(tree, NodeId(n));
        based.push(is_based)?;
    }
    Ok(based)
}

fn is_based(tree: &Tree, based: &[bool], n: NodeId) -> bool
    requires made { n.0 < count_of tree.now }
    requires based { IsListOf (has_bases tree.now) tree.now based.now }
    ensures { result ≡ has_bases tree.now n.0 }
{
    let _tree = tree;
    based[n.0 as usize]
}

fn stands_in_based(tree: &Tree, scopes: &Scopes, based: &[bool], n: NodeId) -> bool
    requires made { n.0 < count_of tree.now }
    requires scopes { AreScopesOf tree.now scopes.now }
    requires based { IsListOf (has_bases tree.now) tree.now based.now }
    ensures { result ≡ has_bases tree.now (around tree.now n.0) }
{
    is_based(tree, based, around(tree, scopes, n))
}

/// A function in the body of a class.
pub(crate) fn is_method(tree: &Tree, scopes: &Scopes, n: NodeId) -> bool
    requires made { n.0 < count_of tree.now }
    requires scopes { AreScopesOf tree.now scopes.now }
    ensures { result ≡ is_method tree.now n.0 }
{
    is_class(tree.kind(around(tree, scopes, n)))
}

#[tactic(auto, unfolding(scope_rules::specs::Mangling::begins_private))]
fn begins_private(name: &[u8]) -> bool
    ensures { result ≡ begins_private name.now }
{
    match name {
        [first, second, ..] => *first == b'_' && *second == b'_',
        _ => false,
    }
}

#[tactic(auto, unfolding(scope_rules::specs::Mangling::ends_special))]
fn ends_special(name: &[u8]) -> bool
    ensures { result ≡ ends_special name.now }
{
    let end = name.len().saturating_sub(2);
    begins_private(&name[end..])
}

/// `__x__`, with a character between the underscores.
#[tactic(auto, unfolding(scope_rules::specs::Reading::is_special))]
fn is_special(name: &[u8]) -> bool
    ensures { result ≡ is_special name.now }
{
    name.len() >= 5 && (begins_private(name) && ends_special(name))
}

fn is_named_special(tree: &Tree, n: NodeId) -> bool
    requires { n.0 < count_of tree.now }
    ensures { result ≡ is_special (written tree.now n.0) }
{
    is_special(written(tree, n).as_bytes())
}

fn is_init(tree: &Tree, n: NodeId) -> bool
    requires { n.0 < count_of tree.now }
    ensures { result ≡ bytes_eq (written tree.now n.0) (codes "__init__") }
{
    written(tree, n) == "__init__"
}

/// A method `__x__` other than `__init__`.
#[tactic(auto, unfolding(crate::specs::Arguments::is_special_method))]
fn is_special_method(tree: &Tree, scopes: &Scopes, n: NodeId) -> bool
    requires made { n.0 < count_of tree.now }
    requires scopes { AreScopesOf tree.now scopes.now }
    ensures { result ≡ is_special_method tree.now n.0 }
{
    is_method(tree, scopes, n) && (is_named_special(tree, n) && !is_init(tree, n))
}

#[tactic(auto, unfolding(crate::specs::Arguments::is_sole_ellipsis))]
fn is_sole_ellipsis_of(tree: &Tree, kids: &[NodeId]) -> bool
    requires { All (λ k. k.0 < count_of tree.now) kids.now }
    ensures { result ≡ is_sole_ellipsis tree.now (map number_of kids.now) }
{
    match kids {
        [kid] => is_ellipsis(tree.kind(*kid)),
        _ => false,
    }
}

fn is_sole_ellipsis(tree: &Tree, n: NodeId) -> bool
    requires { n.0 < count_of tree.now }
    ensures { result ≡ is_sole_ellipsis tree.now (kids_at tree.now n.0) }
{
    is_sole_ellipsis_of(tree, tree.kids(n))
}

/// A statement that does nothing.
#[tactic(auto, unfolding(crate::specs::Arguments::is_stub))]
fn is_stub(tree: &Tree, n: NodeId) -> bool
    requires { n.0 < count_of tree.now }
    ensures { result ≡ is_stub tree.now n.0 }
{
    is_empty_statement(tree.kind(n))
        || (is_expression_statement(tree.kind(n)) && is_sole_ellipsis(tree, n))
}

#[tactic(auto, unfolding(crate::specs::Arguments::does_nothing))]
fn does_nothing(tree: &Tree, n: NodeId) -> bool
    requires { n.0 < count_of tree.now }
    ensures { result ≡ does_nothing tree.now n.0 }
{
    !is_in_body(tree.kind(n)) || is_stub(tree, n)
}

fn are_stubs_of(tree: &Tree, kids: &[NodeId]) -> bool
    requires { All (λ k. k.0 < count_of tree.now) kids.now }
    ensures { result ≡ are_stubs tree.now (map number_of kids.now) }
{
    let mut rest = kids;
    while let [kid, tail @ ..] = rest {
        if !does_nothing(tree, *kid) {
            return false;
        }
        rest = tail;
    }
    true
}

fn are_stubs(tree: &Tree, n: NodeId) -> bool
    requires { n.0 < count_of tree.now }
    ensures { result ≡ are_stubs tree.now (kids_at tree.now n.0) }
{
    are_stubs_of(tree, tree.kids(n))
}

/// A function whose parameters are not reported.
#[tactic(auto, unfolding(crate::specs::Arguments::is_silent))]
fn is_silent(tree: &Tree, scopes: &Scopes, based: &[bool], n: NodeId) -> bool
    requires made { n.0 < count_of tree.now }
    requires scopes { AreScopesOf tree.now scopes.now }
    requires based { IsListOf (has_bases tree.now) tree.now based.now }
    ensures { result ≡ is_silent tree.now n.0 }
{
    has_decorator(tree, n)
        || are_stubs(tree, n)
        || stands_in_based(tree, scopes, based, n)
        || is_special_method(tree, scopes, n)
}

#[tactic(auto, using(scope_bind::proofs::ListLaws::list_none, scope_bind::proofs::ListLaws::list_more))]
fn silent_where(
    alloc: Global,
    tree: &Tree,
    scopes: &Scopes,
    based: &[bool],
) -> Result<Vec<bool>, Memory>
    requires scopes { AreScopesOf tree.now scopes.now }
    requires based { IsListOf (has_bases tree.now) tree.now based.now }
    ensures { IfOk result (λ silent. IsListOf (is_silent tree.now) tree.now silent.items) }
{
    let mut silent = Vec::new(alloc);
    for n in 0..tree.count() {
        let is_one = is_silent(tree, scopes, based, NodeId(n));
        silent.push(is_one)?;
    }
    Ok(silent)
}

/// Whether the parameters of each function are not reported.
pub(crate) fn silent_of(alloc: Global, tree: &Tree, scopes: &Scopes) -> Result<Vec<bool>, Memory>
    requires { AreScopesOf tree.now scopes.now }
    ensures { IfOk result (λ silent. IsListOf (is_silent tree.now) tree.now silent.items) }
{
    let based = based_of(alloc, tree)?;
    silent_where(alloc, tree, scopes, based.as_slice())
}
