// What is asked of scopes. None of these calls takes memory.
ghost use Rattle.std.specs.Prelude.{◌≡◌, ◌<◌, map, option_map, option_copied, Some, None};
ghost use Rattle.tree_nodes.specs.Trees.{Tree as Syntax, count_of};
ghost use Rattle.tree_nodes.specs.Kept.{number_of};
ghost use Rattle.tree_nodes.specs.declared.kind.Kind.TheVariants as kinds;
ghost use Rattle.scope_rules.specs.Nodes.{kind_of};
ghost use Rattle.scope_rules.specs.Places.{around, outer};
ghost use Rattle.scope_rules.specs.Mangling.{spelled};
ghost use Rattle.scope_rules.specs.Reading.{resolved};
ghost use Rattle.scope_rules.specs.Answers.{opened_by, binders_of, loads_of, stores_of, deletes_of, AreNamesOf};
ghost use Rattle.scope_bind.specs.Scoped.{AreScopesOf, IsNode};
ghost use Rattle.scope_bind.specs.Calls.{scope_number};

use crate::scopes::Scopes;
use lint_values::{NodeId, Text};
use scope_rules::{ScopeId, Where};

impl Scopes {
    /// Where the name that is read at a node leads.
    pub fn resolve(&self, load: NodeId) -> Where
        requires { IsNode self.now load.0 }
        ensures { (t : Syntax) → AreScopesOf t self.now → load.0 < count_of t → kind_of t load.0 ≡ kinds.Name → result ≡ resolved t load.0 }
    {
        self.answers[load.0 as usize]
    }

    /// The nodes that bind a name in a scope, in source order.
    pub fn binders(&self, scope: ScopeId, name: &str) -> &[NodeId]
        ensures { (t : Syntax) → AreScopesOf t self.now → map number_of result.now ≡ binders_of t scope.0 name.now }
    {
        self.binders.find(scope.0, name)
    }

    /// The reads that lead to a name in a scope, in source order.
    pub fn loads(&self, scope: ScopeId, name: &str) -> &[NodeId]
        ensures { (t : Syntax) → AreScopesOf t self.now → map number_of result.now ≡ loads_of t scope.0 name.now }
    {
        self.loads.find(scope.0, name)
    }

    /// The targets that store an attribute, in source order.
    pub fn stores(&self, attr: &str) -> &[NodeId]
        ensures { (t : Syntax) → AreScopesOf t self.now → map number_of result.now ≡ stores_of t attr.now }
    {
        self.stores.find(0, attr)
    }

    /// The targets that delete an attribute, in source order.
    pub fn deletes(&self, attr: &str) -> &[NodeId]
        ensures { (t : Syntax) → AreScopesOf t self.now → map number_of result.now ≡ deletes_of t attr.now }
    {
        self.deletes.find(0, attr)
    }

    /// The scope that a node opens.
    pub fn scope(&self, n: NodeId) -> Option<ScopeId>
        requires { IsNode self.now n.0 }
        ensures { (t : Syntax) → AreScopesOf t self.now → n.0 < count_of t → option_map scope_number result ≡ opened_by t n.0 }
    {
        if self.openers[n.0 as usize] {
            Some(ScopeId(n.0))
        } else {
            None
        }
    }

    /// The scope in which a node stands.
    pub fn around(&self, n: NodeId) -> ScopeId
        requires { IsNode self.now n.0 }
        ensures { (t : Syntax) → AreScopesOf t self.now → n.0 < count_of t → result.0 ≡ around t n.0 }
    {
        ScopeId(self.places[n.0 as usize])
    }

    /// The scope around a scope. The module has none.
    #[tactic(auto, unfolding(scope_rules::specs::Places::outer))]
    pub fn outer(&self, s: ScopeId) -> Option<ScopeId>
        requires { IsNode self.now s.0 }
        ensures { (t : Syntax) → AreScopesOf t self.now → s.0 < count_of t → option_map scope_number result ≡ outer t s.0 }
    {
        if s.0 == 0 {
            None
        } else {
            Some(ScopeId(self.places[s.0 as usize]))
        }
    }

    /// The names that are local to a scope, ascending.
    pub fn names(&self, s: ScopeId) -> &[Text]
        ensures { (t : Syntax) → AreScopesOf t self.now → AreNamesOf t s.0 result.now }
    {
        self.local_names.names(s.0)
    }

    /// A node's name as it is read.
    pub fn spelled(&self, n: NodeId) -> Option<&str>
        requires { IsNode self.now n.0 }
        ensures { (t : Syntax) → AreScopesOf t self.now → n.0 < count_of t → option_copied result ≡ spelled t n.0 }
    {
        match &self.names[n.0 as usize] {
            Some(name) => Some(name.as_str()),
            None => None,
        }
    }
}
