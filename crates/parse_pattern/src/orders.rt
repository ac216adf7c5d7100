// Tests of the trees of a forest from a place on.
ghost use Rattle.std.specs.Prelude.{◌≡◌, ◌<◌, Some, false, All, length, map, drop, slice_index_or};
ghost use Rattle.tree_nodes.specs.Trees.{unpack};
ghost use Rattle.tree_nodes.specs.Back.{no_tree};
ghost use Rattle.tree_nodes.specs.Rows.{tree_of};
ghost use Rattle.py_grammar.specs.Patterns.{has_one_star as has_one_star_spec, rest_is_last as rest_is_last_spec, keywords_behind_patterns as keywords_behind_patterns_spec, is_unformatted as is_unformatted_spec, is_dotted as is_dotted_spec, is_sequence as is_sequence_spec, sequence_has_one_star as sequence_has_one_star_spec};
ghost use Rattle.py_forest.specs.Forests.{trees};
ghost use Rattle.parse_pattern.specs.Orders.{in_order_from};

use crate::order::{Order, seen_behind};
use py_forest::Forest;
use tree_nodes::{Kind, TreeBuilder};

/// Whether the trees from `mark` on stand in an order.
#[tactic(auto, using(crate::proofs::OrderLaws::order_next, crate::proofs::OrderLaws::order_end))]
pub fn is_in_order(forest: &Forest, order: Order, mark: usize) -> bool
    ensures { result ≡ in_order_from order (Some false) (drop mark (trees forest.now)) }
{
    let mut seen = false;
    for place in mark..forest.len() {
        match seen_behind(order, seen, forest.kind(place)) {
            Some(next) => seen = next,
            None => return false,
        }
    }
    true
}

/// Whether there is at most one star from `mark` on.
#[tactic(auto, using(crate::proofs::OrderLaws::one_star_is))]
pub fn has_one_star(forest: &Forest, mark: usize) -> bool
    ensures { result ≡ has_one_star_spec (drop mark (trees forest.now)) }
{
    is_in_order(forest, Order::OneStar, mark)
}

/// Whether nothing stands behind the rest of a mapping from `mark` on.
#[tactic(auto, using(crate::proofs::OrderLaws::rest_last_is))]
pub fn rest_is_last(forest: &Forest, mark: usize) -> bool
    ensures { result ≡ rest_is_last_spec (drop mark (trees forest.now)) }
{
    is_in_order(forest, Order::RestLast, mark)
}

/// Whether no plain pattern stands behind one with a keyword from `mark` on.
#[tactic(auto, using(crate::proofs::OrderLaws::keywords_last_is))]
pub fn keywords_behind_patterns(forest: &Forest, mark: usize) -> bool
    ensures { result ≡ keywords_behind_patterns_spec (drop mark (trees forest.now)) }
{
    is_in_order(forest, Order::KeywordsLast, mark)
}

/// Whether there is no f-string at `mark`.
#[tactic(auto, using(crate::proofs::OrderLaws::drop_first, crate::proofs::OrderLaws::drop_end))]
pub fn is_unformatted(forest: &Forest, mark: usize) -> bool
    ensures { result ≡ is_unformatted_spec (drop mark (trees forest.now)) }
{
    if mark < forest.len() {
        !matches!(forest.kind(mark), Kind::FString)
    } else {
        true
    }
}

/// Whether there is a name with dots at `mark`.
#[tactic(auto, using(crate::proofs::OrderLaws::drop_first, crate::proofs::OrderLaws::drop_end))]
pub fn is_dotted(forest: &Forest, mark: usize) -> bool
    ensures { result ≡ is_dotted_spec (drop mark (trees forest.now)) }
{
    if mark < forest.len() {
        matches!(forest.kind(mark), Kind::Attribute)
    } else {
        false
    }
}

/// A sequence.
fn is_sequence(kind: Kind) -> bool
    ensures { result ≡ is_sequence_spec kind }
{
    matches!(kind, Kind::MatchSequence)
}

/// Whether rows stand in an order.
#[tactic(auto, using(crate::proofs::OrderLaws::row_next, crate::proofs::OrderLaws::row_end))]
fn are_in_order(builder: &TreeBuilder, order: Order, rows: &[u32]) -> bool
    requires { All (λ k. k < length builder.now) rows.now }
    ensures { result ≡ in_order_from order (Some false) (map (tree_of builder.now) rows.now) }
{
    let mut seen = false;
    for row in rows {
        match seen_behind(order, seen, builder.kind(*row)) {
            Some(next) => seen = next,
            None => return false,
        }
    }
    true
}

/// Whether the kids of a row have at most one star.
#[tactic(auto, using(crate::proofs::OrderLaws::one_star_is, crate::proofs::OrderLaws::unpack_pack))]
fn kids_have_one_star(builder: &TreeBuilder, row: u32) -> bool
    requires { row < length builder.now }
    ensures { result ≡ has_one_star_spec (unpack (tree_of builder.now row).kids) }
{
    are_in_order(builder, Order::OneStar, builder.kids(row))
}

/// Whether the kids of the tree at a place have at most one star.
fn kids_have_one_star_at(forest: &Forest, place: usize) -> bool
    requires { place < length (trees forest.now) }
    ensures { result ≡ has_one_star_spec (unpack (slice_index_or (trees forest.now) place no_tree).kids) }
{
    kids_have_one_star(&forest.builder, forest.tops[place].row)
}

/// Whether the tree at `mark`, if it is a sequence, has at most one star.
#[tactic(auto, using(crate::proofs::OrderLaws::drop_first, crate::proofs::OrderLaws::drop_end))]
pub fn sequence_has_one_star(forest: &Forest, mark: usize) -> bool
    ensures { result ≡ sequence_has_one_star_spec (drop mark (trees forest.now)) }
{
    if mark >= forest.len() {
        return true;
    }
    if is_sequence(forest.kind(mark)) {
        kids_have_one_star_at(forest, mark)
    } else {
        true
    }
}
