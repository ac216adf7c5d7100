// The nodes of parameters and arguments, by the numbers that a binding gives them.
ghost use Rattle.std.specs.Prelude.{◌≡◌, ◌<◌, true, length, slice_get, Some};
ghost use Rattle.tree_nodes.specs.Trees.{count_of};
ghost use Rattle.scope_rules.specs.Kinds.{is_parameter};
ghost use Rattle.scope_rules.specs.Nodes.{kind_of};
ghost use Rattle.call_binding.specs.Reading.{params_of};
ghost use Rattle.call_binding.specs.Arguments.{numbered_arguments};

use crate::call_shape::arguments_of;
use crate::{arguments, parameters};
use lint_values::NodeId;
use tree_nodes::Tree;

/// The node of a function's parameter.
pub fn parameter(tree: &Tree, def: NodeId, i: u32) -> NodeId
    requires made { def.0 < count_of tree.now }
    requires counted { i < length (params_of tree.now def.0) }
    ensures value { slice_get (params_of tree.now def.0) i ≡ Some result.0 }
    ensures made { result.0 < count_of tree.now }
    ensures parameter { is_parameter (kind_of tree.now result.0) ≡ true }
{
    parameters::nth(tree, tree.kids(def), i as usize)
}

/// The node of a call's argument. One with a keyword is the node of the keyword and its value.
#[tactic(auto, using(crate::proofs::ListLaws::front_get, crate::proofs::ListLaws::back_get, crate::proofs::ListLaws::back_short))]
pub fn argument(tree: &Tree, call: NodeId, n: u32) -> NodeId
    requires made { call.0 < count_of tree.now }
    requires counted { n < length (numbered_arguments tree.now call.0) }
    ensures value { slice_get (numbered_arguments tree.now call.0) n ≡ Some result.0 }
    ensures made { result.0 < count_of tree.now }
{
    let args = arguments_of(tree, call);
    let plain = arguments::plain_count(tree, args);
    let number = n as usize;
    if number < plain {
        arguments::plain_node(tree, args, number)
    } else {
        arguments::keyword_node(tree, args, number - plain)
    }
}
