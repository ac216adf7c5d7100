// Tests and changes of the trees from a mark on that a statement binds.
ghost use Rattle.std.specs.Prelude.{◌≡◌, ◌<◌, ◌≤◌, ◌++◌, ◌∷◌, [], length, take, drop, slice_index_or, OnOk, IfErr};
ghost use Rattle.tree_nodes.specs.Trees.{pack};
ghost use Rattle.tree_nodes.specs.Back.{no_tree};
ghost use Rattle.tree_nodes.specs.Rows.{tree_of};
ghost use Rattle.py_grammar.specs.Tests.{are_unstarred, is_group as is_group_spec, is_single as is_single_spec};
ghost use Rattle.py_grammar.specs.Statements.{targets_before_last as targets_before_last_spec, bound_before_last, is_single_first as is_single_first_spec, bound_first, are_deletable as are_deletable_spec, all_bound};
ghost use Rattle.parse_statement.specs.Stars.{is_starred as is_starred_spec};
ghost use Rattle.py_forest.specs.Forests.{trees};
ghost use Rattle.py_forest.specs.declared.fault.Fault.TheVariants.{Memory};

use py_forest::{Fault, Forest};
use tree_nodes::{Kind, TreeBuilder};

/// A name, an attribute or a subscription.
fn is_single(kind: Kind) -> bool
    ensures { result ≡ is_single_spec kind }
{
    matches!(kind, Kind::Name | Kind::Attribute | Kind::Subscript)
}

/// What a target of this kind binds is again made of targets.
fn is_group(kind: Kind) -> bool
    ensures { result ≡ is_group_spec kind }
{
    matches!(kind, Kind::Tuple | Kind::List | Kind::Starred)
}

/// A star.
fn is_starred(kind: Kind) -> bool
    ensures { result ≡ is_starred_spec kind }
{
    matches!(kind, Kind::Starred)
}

/// Whether no star stands in a row as a target.
#[tactic(auto, using(crate::proofs::StarLaws::unstarred_is, crate::proofs::StarLaws::unstarred_next, crate::proofs::StarLaws::unstarred_end))]
fn is_unstarred(builder: &TreeBuilder, row: u32) -> bool
    requires { row < length builder.now }
    ensures { result ≡ are_unstarred (pack (tree_of builder.now row ∷ [])) }
{
    let kind = builder.kind(row);
    if is_starred(kind) {
        return false;
    }
    if !is_group(kind) {
        return true;
    }
    let kids = builder.kids(row);
    for kid in kids {
        if !is_unstarred(builder, *kid) {
            return false;
        }
    }
    true
}

/// Whether no star stands in a tree as a target.
fn is_unstarred_at(forest: &Forest, place: usize) -> bool
    requires { place < length (trees forest.now) }
    ensures { result ≡ are_unstarred (pack (slice_index_or (trees forest.now) place no_tree ∷ [])) }
{
    is_unstarred(&forest.builder, forest.tops[place].row)
}

/// Whether the first from `mark` on is a name, an attribute or a subscription.
#[tactic(auto, using(crate::proofs::TargetLaws::single_first, crate::proofs::TargetLaws::single_none))]
pub fn is_single_first(forest: &Forest, mark: usize) -> bool
    ensures { result ≡ is_single_first_spec (drop mark (trees forest.now)) }
{
    if mark < forest.len() {
        is_single(forest.kind(mark))
    } else {
        false
    }
}

/// The first from `mark` on becomes a target.
#[tactic(auto, using(crate::proofs::TargetLaws::bound_first_is))]
pub fn bind_first(forest: &mut Forest, mark: usize) -> Result<(), Fault>
    ensures ok { OnOk result (trees forest.new ≡ take mark (trees forest.old) ++ bound_first (drop mark (trees forest.old))) }
    ensures err { IfErr result (λ e. e ≡ Memory) }
{
    forest.bind(mark)
}

/// Whether all but the last from `mark` on can be bound.
#[tactic(auto, using(crate::proofs::TargetLaws::targets_next, crate::proofs::TargetLaws::targets_end))]
pub fn targets_before_last(forest: &Forest, mark: usize) -> bool
    ensures { result ≡ targets_before_last_spec (drop mark (trees forest.now)) }
{
    for place in mark..forest.len().saturating_sub(1) {
        if !forest.is_target(place) {
            return false;
        }
    }
    true
}

/// All but the last from `mark` on become targets.
#[tactic(auto, using(crate::proofs::TargetLaws::before_last_turn, crate::proofs::TargetLaws::before_last_end))]
pub fn bind_before_last(forest: &mut Forest, mark: usize) -> Result<(), Fault>
    ensures ok { OnOk result (trees forest.new ≡ take mark (trees forest.old) ++ bound_before_last (drop mark (trees forest.old))) }
    ensures err { IfErr result (λ e. e ≡ Memory) }
{
    for place in mark..forest.len().saturating_sub(1) {
        forest.bind_at(place)?;
    }
    Ok(())
}

/// Whether each from `mark` on can be bound and has no star.
#[tactic(auto, using(crate::proofs::TargetLaws::deletable_next, crate::proofs::TargetLaws::deletable_end))]
pub fn are_deletable(forest: &Forest, mark: usize) -> bool
    ensures { result ≡ are_deletable_spec (drop mark (trees forest.now)) }
{
    for place in mark..forest.len() {
        if !forest.is_target(place) || !is_unstarred_at(forest, place) {
            return false;
        }
    }
    true
}

/// All from `mark` on become targets.
#[tactic(auto, using(crate::proofs::TargetLaws::all_turn, crate::proofs::TargetLaws::all_end))]
pub fn bind_all(forest: &mut Forest, mark: usize) -> Result<(), Fault>
    ensures ok { OnOk result (trees forest.new ≡ take mark (trees forest.old) ++ all_bound (drop mark (trees forest.old))) }
    ensures err { IfErr result (λ e. e ≡ Memory) }
{
    for place in mark..forest.len() {
        forest.bind_at(place)?;
    }
    Ok(())
}
