// What is asked of the scopes of a tree.
ghost use Rattle.std.specs.Prelude.{◌≡◌, ◌<◌, All, map, option_copied};
ghost use Rattle.tree_nodes.specs.Trees.{count_of};
ghost use Rattle.tree_nodes.specs.Kept.{number_of};
ghost use Rattle.tree_nodes.specs.declared.kind.Kind.TheVariants as kinds;
ghost use Rattle.scope_rules.specs.Nodes.{kind_of};
ghost use Rattle.scope_rules.specs.Places.{around};
ghost use Rattle.scope_rules.specs.Mangling.{spelled};
ghost use Rattle.scope_rules.specs.Binding.{beyond_comprehensions, own_scope};
ghost use Rattle.scope_rules.specs.Reading.{resolved};
ghost use Rattle.scope_rules.specs.Answers.{binders_of};
ghost use Rattle.scope_bind.specs.Scoped.{AreScopesOf};

use lint_values::NodeId;
use rule_nodes::{is_comprehension, is_walrus};
use scope_bind::{ScopeId, Scopes, Where};
use tree_nodes::Tree;

/// Where a name that is read leads.
pub(crate) fn resolved(tree: &Tree, scopes: &Scopes, n: NodeId) -> Where
    requires scopes { AreScopesOf tree.now scopes.now }
    requires made { n.0 < count_of tree.now }
    requires name { kind_of tree.now n.0 ≡ kinds.Name }
    ensures { result ≡ resolved tree.now n.0 }
{
    let _tree = tree;
    scopes.resolve(n)
}

/// The scope in which a node stands.
pub(crate) fn around(tree: &Tree, scopes: &Scopes, n: NodeId) -> NodeId
    requires scopes { AreScopesOf tree.now scopes.now }
    requires made { n.0 < count_of tree.now }
    ensures value { result.0 ≡ around tree.now n.0 }
    ensures made { result.0 < count_of tree.now }
{
    let _tree = tree;
    NodeId(scopes.around(n).0)
}

/// A node's name as it is read.
pub(crate) fn spelled<'n>(tree: &Tree, scopes: &'n Scopes, n: NodeId) -> Option<&'n str>
    requires scopes { AreScopesOf tree.now scopes.now }
    requires made { n.0 < count_of tree.now }
    ensures { option_copied result ≡ spelled tree.now n.0 }
{
    let _tree = tree;
    scopes.spelled(n)
}

/// The nodes that bind a name in a scope, in source order.
pub(crate) fn binders<'n>(
    tree: &Tree,
    scopes: &'n Scopes,
    scope: NodeId,
    name: &str,
) -> &'n [NodeId]
    requires { AreScopesOf tree.now scopes.now }
    ensures value { map number_of result.now ≡ binders_of tree.now scope.0 name.now }
    ensures made { All (λ b. b.0 < count_of tree.now) result.now }
{
    let _tree = tree;
    scopes.binders(ScopeId(scope.0), name)
}

/// The first scope from this one outwards that is no comprehension.
fn beyond_comprehensions(tree: &Tree, scopes: &Scopes, scope: NodeId) -> NodeId
    requires scopes { AreScopesOf tree.now scopes.now }
    requires made { scope.0 < count_of tree.now }
    ensures value { result.0 ≡ beyond_comprehensions tree.now scope.0 }
    ensures made { result.0 < count_of tree.now }
{
    let mut s = scope;
    'outwards: while s.0 != 0 && is_comprehension(tree.kind(s)) {
        s = around(tree, scopes, s);
    }
    s
}

/// The scope in which a node makes its name local.
#[tactic(auto, unfolding(scope_rules::specs::Binding::own_scope))]
pub(crate) fn own_scope(tree: &Tree, scopes: &Scopes, n: NodeId) -> NodeId
    requires scopes { AreScopesOf tree.now scopes.now }
    requires made { n.0 < count_of tree.now }
    ensures value { result.0 ≡ own_scope tree.now n.0 }
    ensures made { result.0 < count_of tree.now }
{
    let place = around(tree, scopes, n);
    if is_walrus(tree.kind(n)) {
        beyond_comprehensions(tree, scopes, place)
    } else {
        place
    }
}
