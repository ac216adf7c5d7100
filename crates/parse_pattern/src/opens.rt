// The patterns of a `case` line.
ghost use Rattle.std.specs.Prelude.{◌≡◌, ℕ, ◌++◌, ◌∷◌, [], List, length, ◌≤◌, drop};
ghost use Rattle.tree_nodes.specs.Trees.{Tree};
ghost use Rattle.py_grammar.specs.Terminals.{code, Terminal};
ghost use Rattle.py_grammar.specs.Reading.{LineReader};
ghost use Rattle.py_grammar.specs.ReadingPatterns as spec;
ghost use Rattle.py_grammar.specs.ReadingLines.{phrase_at};
ghost use Rattle.py_forest.specs.Forests.{trees};
ghost use Rattle.parse_steps.specs.Runs.{Reads, GivesPhrases};
ghost use Rattle.tree_nodes.specs.declared.kind.Kind.TheVariants as kinds;
ghost use Rattle.py_language.specs.Readers.{both, choose};
ghost use Rattle.py_grammar.specs.declared.entry.Entry.TheVariants as e;
ghost use Rattle.py_grammar.specs.Words.{star};
ghost use Rattle.py_grammar.specs.Firsts.{sequence_first};
ghost use Rattle.py_grammar.specs.Reading.{as_, tupled, comma_rest as comma_rest_spec};

use crate::item::Item;
use crate::lists::comma_rest;
use crate::names::star_pattern;
use crate::orders::sequence_has_one_star;
use parse_parts::descend;
use parse_steps::marks::{COMMA, STAR};
use py_forest::{Fault, Forest};
use py_grammar::Entry;
use py_line::Line;
use tree_nodes::Kind;

/// A star, a comma and more.
#[tactic(auto, using(parse_steps::proofs::Runs::behind_make, parse_steps::proofs::Runs::behind_after_is))]
fn star_and_more<F: Fn(&mut Forest, Entry, usize) -> Result<usize, Fault>>(
    nested: &F,
    depth: u32,
    forest: &mut Forest,
    line: &Line,
    rest: usize,
) -> Result<usize, Fault>
    requires callable { F.IsAlwaysCallable nested.now }
    requires gives { GivesPhrases (F.post nested.now) line.now depth }
    ensures { Reads line.now (trees forest.old) (trees forest.new) result (as_ kinds.MatchSequence (both (spec.star_pattern_at (phrase_at depth)) (comma_rest_spec sequence_first (spec.sequence_item_at (phrase_at depth)))) (drop rest line.now)) }
{
    let start = rest;
    let mark = forest.len();
    let rest = star_pattern(forest, line, rest)?;
    let rest = comma_rest(nested, depth, forest, Item::OfSequence, line, rest)?;
    forest.reduce(Kind::MatchSequence, mark, line, start, rest)?;
    Ok(rest)
}

/// A pattern, or several with commas.
#[tactic(auto, using(parse_steps::proofs::Runs::behind_make, parse_steps::proofs::Runs::behind_after_is, parse_steps::proofs::Runs::behind_maybe_more))]
fn pattern_and_more<F: Fn(&mut Forest, Entry, usize) -> Result<usize, Fault>>(
    nested: &F,
    depth: u32,
    forest: &mut Forest,
    line: &Line,
    rest: usize,
) -> Result<usize, Fault>
    requires callable { F.IsAlwaysCallable nested.now }
    requires gives { GivesPhrases (F.post nested.now) line.now depth }
    ensures { Reads line.now (trees forest.old) (trees forest.new) result (tupled kinds.MatchSequence sequence_first (phrase_at depth e.Pattern) (spec.sequence_item_at (phrase_at depth)) (drop rest line.now)) }
{
    let start = rest;
    let mark = forest.len();
    let rest = descend(nested, depth, forest, Entry::Pattern, line, rest)?;
    if line.at(rest, COMMA) {
        let rest = comma_rest(nested, depth, forest, Item::OfSequence, line, rest)?;
        forest.reduce(Kind::MatchSequence, mark, line, start, rest)?;
        Ok(rest)
    } else {
        Ok(rest)
    }
}

/// Patterns with commas.
fn patterns<F: Fn(&mut Forest, Entry, usize) -> Result<usize, Fault>>(
    nested: &F,
    depth: u32,
    forest: &mut Forest,
    line: &Line,
    rest: usize,
) -> Result<usize, Fault>
    requires callable { F.IsAlwaysCallable nested.now }
    requires gives { GivesPhrases (F.post nested.now) line.now depth }
    ensures { Reads line.now (trees forest.old) (trees forest.new) result (choose code star (as_ kinds.MatchSequence (both (spec.star_pattern_at (phrase_at depth)) (comma_rest_spec sequence_first (spec.sequence_item_at (phrase_at depth))))) (tupled kinds.MatchSequence sequence_first (phrase_at depth e.Pattern) (spec.sequence_item_at (phrase_at depth))) (drop rest line.now)) }
{
    if line.at(rest, STAR) {
        star_and_more(nested, depth, forest, line, rest)
    } else {
        pattern_and_more(nested, depth, forest, line, rest)
    }
}

/// A pattern, or several with commas, which is a sequence.
#[tactic(auto, using(parse_steps::proofs::Runs::behind_make, parse_steps::proofs::Runs::behind_after_is, parse_steps::proofs::Runs::behind_filter), unfolding(py_grammar::specs::ReadingPatterns::open_patterns_at))]
pub fn open_patterns<F: Fn(&mut Forest, Entry, usize) -> Result<usize, Fault>>(
    nested: &F,
    depth: u32,
    forest: &mut Forest,
    line: &Line,
    rest: usize,
) -> Result<usize, Fault>
    requires callable { F.IsAlwaysCallable nested.now }
    requires gives { GivesPhrases (F.post nested.now) line.now depth }
    ensures { Reads line.now (trees forest.old) (trees forest.new) result (spec.open_patterns_at (phrase_at depth) (drop rest line.now)) }
{
    let mark = forest.len();
    let rest = patterns(nested, depth, forest, line, rest)?;
    if !sequence_has_one_star(forest, mark) {
        return Err(Fault::NoForm);
    }
    Ok(rest)
}
