// What a function takes: its parameters, read off the tree of its source.
ghost use Rattle.std.specs.Prelude.{◌≡◌, ◌<◌, ◌^◌, true, length};
ghost use Rattle.std.specs.List.{list_any};

use crate::{ParameterKind, parameters};
use lint_values::NodeId;
use std::marker::Model;
use tree_nodes::Tree;

/// What a function takes: its parameters in source order, and whether a receiver comes before the arguments of a call.
#[derive(Debug, Drop)]
pub struct Signature<'w> {
    tree: &'w Tree,
    def: NodeId,
    receiver: bool,
}

impl<'w> Model for Signature<'w> {
    ghost use Rattle.std.specs.Prelude.{◌<◌};
    ghost use Rattle.tree_nodes.specs.Trees.{count_of};
    ghost use Rattle.call_binding.specs.Parameters.{Formals};
    ghost use Rattle.call_binding.specs.Reading.{formals_of};

    ghost Value = { Formals };

    ghost view = { λ s. formals_of s.tree.now s.def.0 s.receiver };

    ghost invariant = { λ s. s.def.0 < count_of s.tree.now };
}

#[tactic(auto, unfolding(crate::specs::Reading::formals_of))]
impl<'w> Signature<'w> {
    ghost use Rattle.tree_nodes.specs.Trees.{count_of};
    ghost use Rattle.scope_rules.specs.Nodes.{kind_of};
    ghost use Rattle.call_binding.specs.Parameters.{parameter_at, positions, positions_before, may_take, is_hidden, is_var_keyword, receivers};
    ghost use Rattle.call_binding.specs.Reading.{is_function, formals_of};
    ghost use Rattle.call_binding.specs.Rule.{target, var_keyword, has_var_positional};

    /// What a `def` or a lambda takes, where a receiver comes before the arguments or not.
    pub fn of(tree: &'w Tree, def: NodeId, receiver: bool) -> Signature<'w>
        requires made { def.0 < count_of tree.now }
        requires function { is_function (kind_of tree.now def.0) ≡ true }
        ensures { result ≡ formals_of tree.now def.0 receiver }
    {
        Signature {
            tree,
            def,
            receiver,
        }
    }

    /// How many parameters there are.
    pub fn params(&self) -> u32
        ensures { result ≡ length self.now.params }
    {
        self.count() as u32
    }

    #[tactic(auto, unfolding(crate::specs::Reading::formals_of), using(crate::proofs::RoomLaws::params_room))]
    pub(crate) fn count(&self) -> usize
        ensures value { result ≡ length self.now.params }
        ensures small { result < 2 ^ 32 }
    {
        let _nodes = self.tree.count();
        parameters::count(self.tree, self.tree.kids(self.def))
    }

    /// How a parameter takes a value.
    pub(crate) fn kind(&self, i: usize) -> ParameterKind
        requires { i < length self.now.params }
        ensures { result ≡ (parameter_at self.now.params i).kind }
    {
        let param = parameters::nth(self.tree, self.tree.kids(self.def), i);
        parameters::kind_of(self.tree, self.def, param)
    }

    pub(crate) fn has_default(&self, i: usize) -> bool
        requires { i < length self.now.params }
        ensures { result ≡ (parameter_at self.now.params i).has_default }
    {
        let param = parameters::nth(self.tree, self.tree.kids(self.def), i);
        parameters::has_default(self.tree, self.def, param)
    }

    /// How many of the parameters before that number take a value by position.
    #[tactic(auto, unfolding(crate::specs::Reading::formals_of), using(crate::proofs::CountLaws::counted_is))]
    pub(crate) fn positions_before(&self, i: usize) -> usize
        ensures { result ≡ positions_before self.now.params i }
    {
        parameters::positions(self.tree, self.def, self.tree.kids(self.def), i)
    }

    /// How many parameters take a value by position.
    pub(crate) fn positions(&self) -> usize
        ensures { result ≡ positions self.now.params }
    {
        self.positions_before(self.count())
    }

    /// The parameter to which a keyword goes.
    pub(crate) fn target(&self, keyword: &str) -> Option<usize>
        ensures { result ≡ target self.now.params keyword.now }
    {
        parameters::target(self.tree, self.def, self.tree.kids(self.def), keyword)
    }

    pub(crate) fn var_keyword(&self) -> Option<usize>
        ensures { result ≡ var_keyword self.now.params }
    {
        parameters::var_keyword(self.tree, self.def, self.tree.kids(self.def))
    }

    pub(crate) fn has_var_positional(&self) -> bool
        ensures { result ≡ has_var_positional self.now.params }
    {
        parameters::has_var_positional(self.tree, self.def, self.tree.kids(self.def))
    }

    /// Whether a parameter before `/` has this name.
    pub(crate) fn has_hidden(&self, keyword: &str) -> bool
        ensures { result ≡ list_any (is_hidden keyword.now) self.now.params }
    {
        parameters::has_hidden(self.tree, self.def, self.tree.kids(self.def), keyword)
    }

    /// How many values the receiver is.
    pub(crate) fn receivers(&self) -> usize
        ensures { result ≡ receivers self.now }
    {
        if self.receiver { 1 } else { 0 }
    }
}
