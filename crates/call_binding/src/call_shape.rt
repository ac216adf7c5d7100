// What a call gives, read off the tree of its source.
ghost use Rattle.std.specs.Prelude.{◌≡◌, ◌+◌, ◌<◌, ◌^◌, true, All, length, map};
ghost use Rattle.tree_nodes.specs.Trees.{count_of};
ghost use Rattle.tree_nodes.specs.Kept.{number_of};
ghost use Rattle.call_binding.specs.Reading.{arguments_of};

use crate::names::written;
use crate::places::is_in_class;
use crate::{Signature, arguments};
use lint_values::NodeId;
use std::marker::Model;
use tree_nodes::Tree;

/// What a call gives: its plain arguments, its keywords in source order, and whether `*` or `**` brings more.
#[derive(Debug, Drop)]
pub struct CallShape<'w> {
    tree: &'w Tree,
    call: NodeId,
}

impl<'w> Model for CallShape<'w> {
    ghost use Rattle.std.specs.Prelude.{◌<◌};
    ghost use Rattle.tree_nodes.specs.Trees.{count_of};
    ghost use Rattle.call_binding.specs.Parameters.{Actuals};
    ghost use Rattle.call_binding.specs.Reading.{actuals_of};

    ghost Value = { Actuals };

    ghost view = { λ c. actuals_of c.tree.now c.call.0 };

    ghost invariant = { λ c. c.call.0 < count_of c.tree.now };
}

/// The arguments of a call.
pub(crate) fn arguments_of(tree: &Tree, call: NodeId) -> &[NodeId]
    requires { call.0 < count_of tree.now }
    ensures value { map number_of result.now ≡ arguments_of tree.now call.0 }
    ensures made { All (λ k. k.0 < count_of tree.now) result.now }
{
    match tree.kids(call) {
        [_, args @ ..] => args,
        [] => &[],
    }
}

#[tactic(auto, unfolding(crate::specs::Reading::actuals_of))]
impl<'w> CallShape<'w> {
    ghost use Rattle.scope_rules.specs.Nodes.{kind_of};
    ghost use Rattle.call_binding.specs.Parameters.{keyword_at};
    ghost use Rattle.call_binding.specs.Reading.{is_call, actuals_of};
    ghost use Rattle.call_binding.specs.Rule.{repeats};
    ghost use Rattle.call_binding.specs.Fates.{keyword_for};

    /// What a call gives.
    pub fn of(tree: &'w Tree, call: NodeId) -> CallShape<'w>
        requires made { call.0 < count_of tree.now }
        requires call { is_call (kind_of tree.now call.0) ≡ true }
        ensures { result ≡ actuals_of tree.now call.0 }
    {
        CallShape { tree, call }
    }

    /// How many arguments have a keyword.
    pub fn keywords(&self) -> u32
        ensures { result ≡ length self.now.keywords }
    {
        self.keyword_count() as u32
    }

    /// Whether the call has `*` or `**`. A call within a class with a private keyword counts as one with `**`.
    pub fn starred(&self) -> bool
        ensures { result ≡ self.now.starred }
    {
        let args = arguments_of(self.tree, self.call);
        arguments::has_star(self.tree, args)
            || (is_in_class(self.tree, self.call) && arguments::has_private(self.tree, args))
    }

    #[tactic(auto, unfolding(crate::specs::Reading::actuals_of), using(crate::proofs::RoomLaws::keywords_room))]
    pub(crate) fn keyword_count(&self) -> usize
        ensures value { result ≡ length self.now.keywords }
        ensures small { result < 2 ^ 32 }
    {
        let _nodes = self.tree.count();
        arguments::keyword_count(self.tree, arguments_of(self.tree, self.call))
    }

    /// How many arguments are plain.
    #[tactic(auto, unfolding(crate::specs::Reading::actuals_of), using(crate::proofs::RoomLaws::arguments_room))]
    pub(crate) fn positionals(&self) -> usize
        ensures value { result ≡ self.now.positionals }
        ensures small { result + length self.now.keywords + 1 < 2 ^ 32 }
    {
        let _nodes = self.tree.count();
        arguments::plain_count(self.tree, arguments_of(self.tree, self.call))
    }

    /// The keyword of a number.
    pub(crate) fn keyword(&self, j: usize) -> &str
        requires { j < length self.now.keywords }
        ensures { result.now ≡ keyword_at self.now.keywords j }
    {
        let args = arguments_of(self.tree, self.call);
        written(self.tree, arguments::keyword_node(self.tree, args, j))
    }

    /// Whether an earlier keyword is the same.
    #[tactic(auto, unfolding(crate::specs::Reading::actuals_of), using(crate::proofs::CountLaws::found_is))]
    pub(crate) fn repeats(&self, j: usize) -> bool
        requires { j < length self.now.keywords }
        ensures { result ≡ repeats self.now j }
    {
        let args = arguments_of(self.tree, self.call);
        arguments::has_keyword(self.tree, args, j, self.keyword(j))
    }

    /// The first keyword that goes to a parameter.
    pub(crate) fn keyword_for(&self, signature: &Signature, i: usize) -> Option<usize>
        ensures { result ≡ keyword_for signature.now self.now i }
    {
        let args = arguments_of(self.tree, self.call);
        arguments::keyword_for(signature, self.tree, args, i)
    }
}
