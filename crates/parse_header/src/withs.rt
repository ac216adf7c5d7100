// Headers of `with` statements.
ghost use Rattle.std.specs.Prelude.{◌≡◌, ℕ, ◌++◌, ◌∷◌, [], List, length, ◌≤◌, drop};
ghost use Rattle.tree_nodes.specs.Trees.{Tree};
ghost use Rattle.py_grammar.specs.Terminals.{code, Terminal};
ghost use Rattle.py_grammar.specs.Reading.{LineReader};
ghost use Rattle.py_grammar.specs.ReadingHeaders as spec;
ghost use Rattle.py_grammar.specs.ReadingLines.{phrase_at};
ghost use Rattle.py_forest.specs.Forests.{trees};
ghost use Rattle.parse_steps.specs.Runs.{Reads, GivesPhrases};
ghost use Rattle.py_language.specs.Readers.{both, optional};
ghost use Rattle.py_grammar.specs.Words.{as_word, comma};
ghost use Rattle.py_grammar.specs.Firsts.{test_first};
ghost use Rattle.py_grammar.specs.Reading.{token, target, target_item_at, joined_, parenthesized, commas};

use crate::part::{Part, list};
use parse_parts::{descend, target_item};
use parse_steps::marks::{AS_WORD, COMMA, LEFT_PAREN, RIGHT_PAREN, WITH_WORD};
use parse_steps::skip;
use py_forest::{Fault, Forest};
use py_grammar::Entry;
use py_line::Line;
use tree_nodes::Kind;

/// What an item binds.
#[tactic(auto, using(parse_steps::proofs::Runs::behind_make, parse_steps::proofs::Runs::behind_after_is, parse_steps::proofs::Runs::behind_filter))]
fn item_target<F: Fn(&mut Forest, Entry, usize) -> Result<usize, Fault>>(
    nested: &F,
    depth: u32,
    forest: &mut Forest,
    line: &Line,
    rest: usize,
) -> Result<usize, Fault>
    requires callable { F.IsAlwaysCallable nested.now }
    requires gives { GivesPhrases (F.post nested.now) line.now depth }
    ensures { Reads line.now (trees forest.old) (trees forest.new) result (target (target_item_at (phrase_at depth)) (drop rest line.now)) }
{
    let mark = forest.len();
    let rest = target_item(nested, depth, forest, line, rest)?;
    if !forest.is_one_target(mark) {
        return Err(Fault::NoForm);
    }
    forest.bind(mark)?;
    Ok(rest)
}

/// `as` and what an item binds.
#[tactic(auto, using(parse_steps::proofs::Runs::behind_make, parse_steps::proofs::Runs::behind_after_is))]
fn target_behind_as<F: Fn(&mut Forest, Entry, usize) -> Result<usize, Fault>>(
    nested: &F,
    depth: u32,
    forest: &mut Forest,
    line: &Line,
    rest: usize,
) -> Result<usize, Fault>
    requires callable { F.IsAlwaysCallable nested.now }
    requires gives { GivesPhrases (F.post nested.now) line.now depth }
    ensures { Reads line.now (trees forest.old) (trees forest.new) result (both (token as_word) (target (target_item_at (phrase_at depth))) (drop rest line.now)) }
{
    let rest = skip(line, rest, AS_WORD)?;
    item_target(nested, depth, forest, line, rest)
}

/// The same, or nothing.
#[tactic(auto, using(parse_steps::proofs::Runs::behind_make, parse_steps::proofs::Runs::behind_after_is))]
fn maybe_target<F: Fn(&mut Forest, Entry, usize) -> Result<usize, Fault>>(
    nested: &F,
    depth: u32,
    forest: &mut Forest,
    line: &Line,
    rest: usize,
) -> Result<usize, Fault>
    requires callable { F.IsAlwaysCallable nested.now }
    requires gives { GivesPhrases (F.post nested.now) line.now depth }
    ensures { Reads line.now (trees forest.old) (trees forest.new) result (optional code as_word (both (token as_word) (target (target_item_at (phrase_at depth)))) (drop rest line.now)) }
{
    if line.at(rest, AS_WORD) {
        target_behind_as(nested, depth, forest, line, rest)
    } else {
        Ok(rest)
    }
}

/// An item, maybe with what it binds.
#[tactic(auto, using(parse_steps::proofs::Runs::behind_make, parse_steps::proofs::Runs::behind_after_is), unfolding(py_grammar::specs::ReadingHeaders::with_item_at))]
fn with_item<F: Fn(&mut Forest, Entry, usize) -> Result<usize, Fault>>(
    nested: &F,
    depth: u32,
    forest: &mut Forest,
    line: &Line,
    rest: usize,
) -> Result<usize, Fault>
    requires callable { F.IsAlwaysCallable nested.now }
    requires gives { GivesPhrases (F.post nested.now) line.now depth }
    ensures { Reads line.now (trees forest.old) (trees forest.new) result (spec.with_item_at (phrase_at depth) (drop rest line.now)) }
{
    let start = rest;
    let mark = forest.len();
    let rest = descend(nested, depth, forest, Entry::Test, line, rest)?;
    let rest = maybe_target(nested, depth, forest, line, rest)?;
    forest.reduce(Kind::WithItem, mark, line, start, rest)?;
    Ok(rest)
}

/// A comma and an item.
#[tactic(auto, using(parse_steps::proofs::Runs::behind_make, parse_steps::proofs::Runs::behind_after_is))]
fn item_behind_comma<F: Fn(&mut Forest, Entry, usize) -> Result<usize, Fault>>(
    nested: &F,
    depth: u32,
    forest: &mut Forest,
    line: &Line,
    rest: usize,
) -> Result<usize, Fault>
    requires callable { F.IsAlwaysCallable nested.now }
    requires gives { GivesPhrases (F.post nested.now) line.now depth }
    ensures { Reads line.now (trees forest.old) (trees forest.new) result (both (token comma) (spec.with_item_at (phrase_at depth)) (drop rest line.now)) }
{
    let rest = skip(line, rest, COMMA)?;
    with_item(nested, depth, forest, line, rest)
}

/// Items with commas between them.
fn joined_items<F: Fn(&mut Forest, Entry, usize) -> Result<usize, Fault>>(
    nested: &F,
    depth: u32,
    forest: &mut Forest,
    line: &Line,
    rest: usize,
) -> Result<usize, Fault>
    requires callable { F.IsAlwaysCallable nested.now }
    requires gives { GivesPhrases (F.post nested.now) line.now depth }
    ensures { Reads line.now (trees forest.old) (trees forest.new) result (joined_ (spec.with_item_at (phrase_at depth)) (drop rest line.now)) }
{
    let mut rest = with_item(nested, depth, forest, line, rest)?;
    'items: while line.at(rest, COMMA) {
        rest = item_behind_comma(nested, depth, forest, line, rest)?;
    }
    Ok(rest)
}

/// `with` and items.
#[tactic(auto, using(parse_steps::proofs::Runs::behind_make, parse_steps::proofs::Runs::behind_after_is), unfolding(py_grammar::specs::ReadingHeaders::plain_with_at))]
pub fn plain_with<F: Fn(&mut Forest, Entry, usize) -> Result<usize, Fault>>(
    nested: &F,
    depth: u32,
    forest: &mut Forest,
    line: &Line,
    rest: usize,
) -> Result<usize, Fault>
    requires callable { F.IsAlwaysCallable nested.now }
    requires gives { GivesPhrases (F.post nested.now) line.now depth }
    ensures { Reads line.now (trees forest.old) (trees forest.new) result (spec.plain_with_at (phrase_at depth) (drop rest line.now)) }
{
    let rest = skip(line, rest, WITH_WORD)?;
    joined_items(nested, depth, forest, line, rest)
}

/// Items in round brackets.
#[tactic(auto, using(parse_steps::proofs::Runs::behind_make, parse_steps::proofs::Runs::behind_after_is))]
fn bracketed_items<F: Fn(&mut Forest, Entry, usize) -> Result<usize, Fault>>(
    nested: &F,
    depth: u32,
    forest: &mut Forest,
    line: &Line,
    rest: usize,
) -> Result<usize, Fault>
    requires callable { F.IsAlwaysCallable nested.now }
    requires gives { GivesPhrases (F.post nested.now) line.now depth }
    ensures { Reads line.now (trees forest.old) (trees forest.new) result (parenthesized (commas test_first (spec.with_item_at (phrase_at depth))) (drop rest line.now)) }
{
    let rest = skip(line, rest, LEFT_PAREN)?;
    let rest = list(
        &|wood: &mut Forest, rest: usize| with_item(nested, depth, wood, line, rest),
        depth,
        Part::WithItem,
        forest,
        line,
        rest,
    )?;
    skip(line, rest, RIGHT_PAREN)
}

/// `with` and items in round brackets.
#[tactic(auto, using(parse_steps::proofs::Runs::behind_make, parse_steps::proofs::Runs::behind_after_is), unfolding(py_grammar::specs::ReadingHeaders::parenthesized_with_at))]
pub fn parenthesized_with<F: Fn(&mut Forest, Entry, usize) -> Result<usize, Fault>>(
    nested: &F,
    depth: u32,
    forest: &mut Forest,
    line: &Line,
    rest: usize,
) -> Result<usize, Fault>
    requires callable { F.IsAlwaysCallable nested.now }
    requires gives { GivesPhrases (F.post nested.now) line.now depth }
    ensures { Reads line.now (trees forest.old) (trees forest.new) result (spec.parenthesized_with_at (phrase_at depth) (drop rest line.now)) }
{
    let rest = skip(line, rest, WITH_WORD)?;
    bracketed_items(nested, depth, forest, line, rest)
}
