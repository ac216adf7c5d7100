// Patterns for sequences.
ghost use Rattle.std.specs.Prelude.{◌≡◌, ℕ, ◌++◌, ◌∷◌, [], List, length, ◌≤◌, drop};
ghost use Rattle.tree_nodes.specs.Trees.{Tree};
ghost use Rattle.py_grammar.specs.Terminals.{code, Terminal};
ghost use Rattle.py_grammar.specs.Reading.{LineReader};
ghost use Rattle.py_grammar.specs.ReadingPatterns as spec;
ghost use Rattle.py_grammar.specs.ReadingLines.{phrase_at};
ghost use Rattle.py_forest.specs.Forests.{trees};
ghost use Rattle.parse_steps.specs.Runs.{Reads, GivesPhrases};
ghost use Rattle.std.specs.Prelude.{take, OnOk, IfErr};
ghost use Rattle.py_language.specs.Readers.{before, optional};
ghost use Rattle.py_grammar.specs.Firsts.{sequence_first};
ghost use Rattle.py_grammar.specs.Patterns.{pattern_in_parentheses};
ghost use Rattle.py_forest.specs.declared.fault.Fault.TheVariants.{Memory};
ghost use Rattle.parse_pattern.specs.Items.{inside_at, more_items_at};

use crate::item::Item;
use crate::lists::{comma_rest, maybe_list};
use crate::names::star_pattern;
use crate::orders::has_one_star;
use parse_parts::descend;
use parse_steps::marks::{
    COMMA, LEFT_BRACKET, LEFT_PAREN, RIGHT_BRACKET, RIGHT_PAREN, SEQUENCE_FIRST, STAR,
};
use parse_steps::skip;
use py_forest::{Fault, Forest};
use py_grammar::Entry;
use py_line::Line;
use tree_nodes::Kind;

/// A star or a pattern.
#[tactic(auto, using(parse_steps::proofs::Runs::behind_make, parse_steps::proofs::Runs::behind_after_is), unfolding(py_grammar::specs::ReadingPatterns::sequence_item_at))]
pub fn sequence_item<F: Fn(&mut Forest, Entry, usize) -> Result<usize, Fault>>(
    nested: &F,
    depth: u32,
    forest: &mut Forest,
    line: &Line,
    rest: usize,
) -> Result<usize, Fault>
    requires callable { F.IsAlwaysCallable nested.now }
    requires gives { GivesPhrases (F.post nested.now) line.now depth }
    ensures { Reads line.now (trees forest.old) (trees forest.new) result (spec.sequence_item_at (phrase_at depth) (drop rest line.now)) }
{
    if line.at(rest, STAR) {
        star_pattern(forest, line, rest)
    } else {
        descend(nested, depth, forest, Entry::Pattern, line, rest)
    }
}

/// A comma and more items, or nothing.
#[tactic(auto, using(parse_steps::proofs::Runs::behind_make, parse_steps::proofs::Runs::behind_after_is), unfolding(crate::specs::Items::more_items_at))]
fn maybe_more<F: Fn(&mut Forest, Entry, usize) -> Result<usize, Fault>>(
    nested: &F,
    depth: u32,
    forest: &mut Forest,
    line: &Line,
    rest: usize,
) -> Result<usize, Fault>
    requires callable { F.IsAlwaysCallable nested.now }
    requires gives { GivesPhrases (F.post nested.now) line.now depth }
    ensures { Reads line.now (trees forest.old) (trees forest.new) result (more_items_at (phrase_at depth) (drop rest line.now)) }
{
    if line.at(rest, COMMA) {
        comma_rest(nested, depth, forest, Item::OfSequence, line, rest)
    } else {
        Ok(rest)
    }
}

/// What stands in round brackets.
#[tactic(auto, using(parse_steps::proofs::Runs::behind_make, parse_steps::proofs::Runs::behind_after_is), unfolding(crate::specs::Items::inside_at, crate::specs::Items::more_items_at))]
fn inside<F: Fn(&mut Forest, Entry, usize) -> Result<usize, Fault>>(
    nested: &F,
    depth: u32,
    forest: &mut Forest,
    line: &Line,
    rest: usize,
) -> Result<usize, Fault>
    requires callable { F.IsAlwaysCallable nested.now }
    requires gives { GivesPhrases (F.post nested.now) line.now depth }
    ensures { Reads line.now (trees forest.old) (trees forest.new) result (inside_at (phrase_at depth) (drop rest line.now)) }
{
    if line.at(rest, STAR) {
        let rest = star_pattern(forest, line, rest)?;
        comma_rest(nested, depth, forest, Item::OfSequence, line, rest)
    } else {
        let rest = descend(nested, depth, forest, Entry::Pattern, line, rest)?;
        maybe_more(nested, depth, forest, line, rest)
    }
}

/// The same, or nothing.
#[tactic(auto, using(parse_steps::proofs::Runs::behind_make, parse_steps::proofs::Runs::behind_after_is))]
fn maybe_inside<F: Fn(&mut Forest, Entry, usize) -> Result<usize, Fault>>(
    nested: &F,
    depth: u32,
    forest: &mut Forest,
    line: &Line,
    rest: usize,
) -> Result<usize, Fault>
    requires callable { F.IsAlwaysCallable nested.now }
    requires gives { GivesPhrases (F.post nested.now) line.now depth }
    ensures { Reads line.now (trees forest.old) (trees forest.new) result (optional code sequence_first (inside_at (phrase_at depth)) (drop rest line.now)) }
{
    if line.at(rest, SEQUENCE_FIRST) {
        inside(nested, depth, forest, line, rest)
    } else {
        Ok(rest)
    }
}

/// Patterns in round brackets.
#[tactic(auto, using(parse_steps::proofs::Runs::behind_make, parse_steps::proofs::Runs::behind_after_is, parse_steps::proofs::Runs::behind_filter), unfolding(py_grammar::specs::ReadingPatterns::parenthesized_pattern_at, crate::specs::Items::inside_at, crate::specs::Items::more_items_at))]
pub fn parenthesized_pattern<F: Fn(&mut Forest, Entry, usize) -> Result<usize, Fault>>(
    nested: &F,
    depth: u32,
    forest: &mut Forest,
    line: &Line,
    rest: usize,
) -> Result<usize, Fault>
    requires callable { F.IsAlwaysCallable nested.now }
    requires gives { GivesPhrases (F.post nested.now) line.now depth }
    ensures { Reads line.now (trees forest.old) (trees forest.new) result (spec.parenthesized_pattern_at (phrase_at depth) (drop rest line.now)) }
{
    let start = rest;
    let mark = forest.len();
    let rest = skip(line, rest, LEFT_PAREN)?;
    let rest = maybe_inside(nested, depth, forest, line, rest)?;
    let rest = skip(line, rest, RIGHT_PAREN)?;
    if !has_one_star(forest, mark) {
        return Err(Fault::NoForm);
    }
    reduce_in_parentheses(forest, mark, line, start, rest)?;
    Ok(rest)
}

/// What stands from `mark` on, in round brackets, as one pattern.
fn reduce_in_parentheses(
    forest: &mut Forest,
    mark: usize,
    line: &Line,
    start: usize,
    rest: usize,
) -> Result<(), Fault>
    ensures ok { OnOk result (trees forest.new ≡ take mark (trees forest.old) ++ pattern_in_parentheses (before (drop start line.now) (drop rest line.now)) (drop mark (trees forest.old))) }
    ensures err { IfErr result (λ e. e ≡ Memory) }
{
    if forest.len().saturating_sub(mark) == 1 && !line.last_but_one_is(start, rest, COMMA) {
        Ok(())
    } else {
        forest.reduce(Kind::MatchSequence, mark, line, start, rest)
    }
}

/// Patterns in square brackets.
#[tactic(auto, using(parse_steps::proofs::Runs::behind_make, parse_steps::proofs::Runs::behind_after_is, parse_steps::proofs::Runs::behind_filter), unfolding(py_grammar::specs::ReadingPatterns::bracketed_pattern_at))]
pub fn bracketed_pattern<F: Fn(&mut Forest, Entry, usize) -> Result<usize, Fault>>(
    nested: &F,
    depth: u32,
    forest: &mut Forest,
    line: &Line,
    rest: usize,
) -> Result<usize, Fault>
    requires callable { F.IsAlwaysCallable nested.now }
    requires gives { GivesPhrases (F.post nested.now) line.now depth }
    ensures { Reads line.now (trees forest.old) (trees forest.new) result (spec.bracketed_pattern_at (phrase_at depth) (drop rest line.now)) }
{
    let start = rest;
    let mark = forest.len();
    let rest = skip(line, rest, LEFT_BRACKET)?;
    let rest = maybe_list(nested, depth, forest, Item::OfSequence, line, rest)?;
    let rest = skip(line, rest, RIGHT_BRACKET)?;
    if !has_one_star(forest, mark) {
        return Err(Fault::NoForm);
    }
    forest.reduce(Kind::MatchSequence, mark, line, start, rest)?;
    Ok(rest)
}
