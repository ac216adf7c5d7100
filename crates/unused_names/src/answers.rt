// What the scopes of a tree answer, where they are known to be the tree's.
ghost use Rattle.std.specs.Prelude.{◌≡◌, ◌<◌, All, map, option_copied};
ghost use Rattle.tree_nodes.specs.Trees.{count_of};
ghost use Rattle.tree_nodes.specs.Kept.{number_of};
ghost use Rattle.tree_nodes.specs.declared.kind.Kind.TheVariants as kinds;
ghost use Rattle.scope_rules.specs.Nodes.{kind_of};
ghost use Rattle.scope_rules.specs.Places.{around};
ghost use Rattle.scope_rules.specs.Mangling.{spelled};
ghost use Rattle.scope_rules.specs.Reading.{resolved};
ghost use Rattle.scope_rules.specs.Answers.{binders_of, loads_of};
ghost use Rattle.scope_bind.specs.Scoped.{AreScopesOf};

use lint_values::NodeId;
use scope_bind::{ScopeId, Scopes, Where};
use tree_nodes::Tree;

/// The scope in which a node stands, by the node that opens it.
pub(crate) fn around(tree: &Tree, scopes: &Scopes, n: NodeId) -> NodeId
    requires made { n.0 < count_of tree.now }
    requires scopes { AreScopesOf tree.now scopes.now }
    ensures value { result.0 ≡ around tree.now n.0 }
    ensures within { result.0 < count_of tree.now }
{
    let _tree = tree;
    NodeId(scopes.around(n).0)
}

/// A node's name as it is read.
pub(crate) fn spelled<'s>(tree: &Tree, scopes: &'s Scopes, n: NodeId) -> Option<&'s str>
    requires made { n.0 < count_of tree.now }
    requires scopes { AreScopesOf tree.now scopes.now }
    ensures { option_copied result ≡ spelled tree.now n.0 }
{
    let _tree = tree;
    scopes.spelled(n)
}

/// Where the name that is read at a node leads.
pub(crate) fn resolved(tree: &Tree, scopes: &Scopes, n: NodeId) -> Where
    requires made { n.0 < count_of tree.now }
    requires named { kind_of tree.now n.0 ≡ kinds.Name }
    requires scopes { AreScopesOf tree.now scopes.now }
    ensures { result ≡ resolved tree.now n.0 }
{
    let _tree = tree;
    scopes.resolve(n)
}

/// The nodes that bind a name in a scope, in source order.
pub(crate) fn binders<'s>(tree: &Tree, scopes: &'s Scopes, scope: u32, name: &str) -> &'s [NodeId]
    requires scopes { AreScopesOf tree.now scopes.now }
    ensures value { map number_of result.now ≡ binders_of tree.now scope name.now }
    ensures made { All (λ k. k.0 < count_of tree.now) result.now }
{
    let _tree = tree;
    scopes.binders(ScopeId(scope), name)
}

/// The reads that lead to a name in a scope, in source order.
pub(crate) fn loads<'s>(tree: &Tree, scopes: &'s Scopes, scope: u32, name: &str) -> &'s [NodeId]
    requires scopes { AreScopesOf tree.now scopes.now }
    ensures value { map number_of result.now ≡ loads_of tree.now scope name.now }
    ensures made { All (λ k. k.0 < count_of tree.now) result.now }
{
    let _tree = tree;
    scopes.loads(ScopeId(scope), name)
}
