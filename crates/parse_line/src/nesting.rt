// How deep expressions and patterns are nested.
ghost use Rattle.std.specs.Prelude.{◌≡◌, ◌<◌, length, drop, nat_le, slice_index_or};
ghost use Rattle.tree_nodes.specs.Back.{no_tree};
ghost use Rattle.tree_nodes.specs.Rows.{tree_of};
ghost use Rattle.py_language.specs.Nesting.{nesting, nesting_of};
ghost use Rattle.py_grammar.specs.Weights.{weight as weight_spec};
ghost use Rattle.py_forest.specs.Forests.{trees};

use py_forest::Forest;
use tree_nodes::{Kind, TreeBuilder};

/// 1 for a node that counts, and else 0.
fn weight(kind: Kind) -> u32
    ensures { result ≡ weight_spec kind }
{
    match kind {
        Kind::NameTarget
        | Kind::AttributeTarget
        | Kind::SubscriptTarget
        | Kind::TupleTarget
        | Kind::ListTarget
        | Kind::NamedExpression
        | Kind::Conditional
        | Kind::Lambda
        | Kind::BoolOr
        | Kind::BoolAnd
        | Kind::Not
        | Kind::Comparison
        | Kind::BitwiseOr
        | Kind::BitwiseXor
        | Kind::BitwiseAnd
        | Kind::Shift
        | Kind::Sum
        | Kind::Product
        | Kind::UnaryPlus
        | Kind::UnaryMinus
        | Kind::UnaryInvert
        | Kind::Power
        | Kind::Await
        | Kind::Attribute
        | Kind::Call
        | Kind::Subscript
        | Kind::Name
        | Kind::NumberLiteral
        | Kind::StringLiteral
        | Kind::BytesLiteral
        | Kind::FString
        | Kind::NoneLiteral
        | Kind::TrueLiteral
        | Kind::FalseLiteral
        | Kind::EllipsisLiteral
        | Kind::Tuple
        | Kind::List
        | Kind::Set
        | Kind::Dict
        | Kind::ListComprehension
        | Kind::SetComprehension
        | Kind::DictComprehension
        | Kind::GeneratorExpression
        | Kind::Yield
        | Kind::YieldFrom
        | Kind::MatchOr
        | Kind::MatchAs
        | Kind::MatchCapture
        | Kind::MatchWildcard
        | Kind::MatchSequence
        | Kind::MatchMapping
        | Kind::MatchClass => 1,
        _ => 0,
    }
}

/// Whether a row's tree is nested at most so deep.
#[tactic(auto, using(crate::proofs::NestingLaws::kid_next, crate::proofs::NestingLaws::kid_end, crate::proofs::NestingLaws::too_deep, crate::proofs::NestingLaws::below_root))]
fn is_within(builder: &TreeBuilder, row: u32, left: u32) -> bool
    requires { row < length builder.now }
    ensures { result ≡ nat_le (nesting weight_spec (tree_of builder.now row)) left }
{
    let own = weight(builder.kind(row));
    if own > left {
        return false;
    }
    let kids = builder.kids(row);
    for kid in kids {
        if !is_within(builder, *kid, left - own) {
            return false;
        }
    }
    true
}

/// Whether the tree at a place is nested at most so deep.
fn is_within_at(forest: &Forest, place: usize, left: u32) -> bool
    requires { place < length (trees forest.now) }
    ensures { result ≡ nat_le (nesting weight_spec (slice_index_or (trees forest.now) place no_tree)) left }
{
    is_within(&forest.builder, forest.tops[place].row, left)
}

/// Whether the trees from `mark` on are nested at most 200 deep.
#[tactic(auto, using(crate::proofs::NestingLaws::tree_next, crate::proofs::NestingLaws::tree_end))]
pub fn is_shallow(forest: &Forest, mark: usize) -> bool
    ensures { result ≡ nat_le (nesting_of weight_spec (drop mark (trees forest.now))) 200 }
{
    for place in mark..forest.len() {
        if !is_within_at(forest, place, 200) {
            return false;
        }
    }
    true
}
