// What a list of trees is by the kinds of their roots.
ghost use Rattle.std.specs.Prelude.{◌≡◌, ℕ, ◌<◌, ◌≤◌, ◌||◌, if◌then◌else◌, true, false, length, drop, slice_index_or};
ghost use Rattle.tree_nodes.specs.Back.{no_tree};
ghost use Rattle.py_grammar.specs.Tests.{next_place as next_place_spec, in_order as in_order_spec};
ghost use Rattle.py_grammar.specs.Expressions.{is_clause as is_clause_spec, is_comprehension as is_comprehension_spec, is_of_dict as is_of_dict_spec, are_alike as are_alike_spec, is_plain as is_plain_spec, are_arguments as are_arguments_spec};
ghost use Rattle.py_forest.specs.Forests.{trees};

use crate::forest::Forest;
use tree_nodes::Kind;

/// A clause of a comprehension.
fn is_clause(kind: Kind) -> bool
    ensures { result ≡ is_clause_spec kind }
{
    matches!(kind, Kind::ComprehensionFor | Kind::AsyncComprehensionFor)
}

/// An item of a dictionary, or what is unpacked into one.
pub fn is_of_dict(kind: Kind) -> bool
    ensures { result ≡ is_of_dict_spec kind }
{
    matches!(kind, Kind::DictItem | Kind::DictUnpack)
}

/// An argument without a keyword or star.
fn is_plain(kind: Kind) -> bool
    ensures { result ≡ is_plain_spec kind }
{
    !matches!(
        kind,
        Kind::KeywordArgument | Kind::StarArgument | Kind::DoubleStarArgument
    )
}

/// What may stand in braces beside items, or beside elements.
fn fits_beside(of_dict: bool, kind: Kind) -> bool
    ensures { result ≡ (is_clause_spec kind || (if of_dict then is_of_dict_spec kind else (if is_of_dict_spec kind then false else true))) }
{
    if is_clause(kind) {
        true
    } else if of_dict {
        is_of_dict(kind)
    } else {
        !is_of_dict(kind)
    }
}

/// How far the order of arguments has come behind one more: 0 at first, 1 behind a keyword, 2 behind `**`.
fn next_place(place: u8, kind: Kind) -> Option<u8>
    ensures { result ≡ next_place_spec place kind }
{
    match kind {
        Kind::KeywordArgument => Some(if place == 2 { 2 } else { 1 }),
        Kind::StarArgument => if place == 2 { None } else { Some(place) },
        Kind::DoubleStarArgument => Some(2),
        _ => if place == 0 { Some(place) } else { None },
    }
}

impl Forest {
    /// The kind of the root of a tree.
    pub fn kind(&self, place: usize) -> Kind
        requires { place < length (trees self.now) }
        ensures { result ≡ (slice_index_or (trees self.now) place no_tree).node.kind }
    {
        self.tops[place].kind
    }

    /// Whether an element with clauses stands from `mark` on.
    #[tactic(auto, using(crate::proofs::KindLaws::comprehension_is, crate::proofs::KindLaws::comprehension_short))]
    pub fn is_comprehension(&self, mark: usize) -> bool
        ensures { result ≡ is_comprehension_spec (drop mark (trees self.now)) }
    {
        if self.len().saturating_sub(mark) > 1 {
            is_clause(self.kind(mark + 1))
        } else {
            false
        }
    }

    /// Whether items alone, or elements alone, stand from `mark` on.
    #[tactic(auto, using(crate::proofs::KindLaws::alike_none, crate::proofs::KindLaws::alike_some, crate::proofs::KindLaws::all_next, crate::proofs::KindLaws::all_end))]
    pub fn are_alike(&self, mark: usize) -> bool
        ensures { result ≡ are_alike_spec (drop mark (trees self.now)) }
    {
        if mark >= self.len() {
            return true;
        }
        let of_dict = is_of_dict(self.kind(mark));
        for place in mark + 1..self.len() {
            if !fits_beside(of_dict, self.kind(place)) {
                return false;
            }
        }
        true
    }

    /// Whether arguments stand in order from `mark` on.
    #[tactic(auto, using(crate::proofs::KindLaws::order_next, crate::proofs::KindLaws::order_end))]
    pub fn in_order(&self, mark: usize) -> bool
        ensures { result ≡ in_order_spec (drop mark (trees self.now)) }
    {
        let mut order = 0;
        for place in mark..self.len() {
            match next_place(order, self.kind(place)) {
                Some(next) => order = next,
                None => return false,
            }
        }
        true
    }

    /// Whether arguments in order, or a plain one with clauses, stand from `mark` on.
    #[tactic(auto, using(crate::proofs::KindLaws::plain_first))]
    pub fn are_arguments(&self, mark: usize) -> bool
        ensures { result ≡ are_arguments_spec (drop mark (trees self.now)) }
    {
        if self.is_comprehension(mark) {
            mark < self.len() && is_plain(self.kind(mark))
        } else {
            self.in_order(mark)
        }
    }
}
