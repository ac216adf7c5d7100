// Patterns, from the tightest to the loosest.
ghost use Rattle.std.specs.Prelude.{◌≡◌, ℕ, ◌++◌, ◌∷◌, [], List, length, ◌≤◌, drop};
ghost use Rattle.tree_nodes.specs.Trees.{Tree};
ghost use Rattle.py_grammar.specs.Terminals.{code, Terminal};
ghost use Rattle.py_grammar.specs.Reading.{LineReader};
ghost use Rattle.py_grammar.specs.ReadingPatterns as spec;
ghost use Rattle.py_grammar.specs.ReadingLines.{phrase_at};
ghost use Rattle.py_forest.specs.Forests.{trees};
ghost use Rattle.parse_steps.specs.Runs.{Reads, GivesPhrases};
ghost use Rattle.py_language.specs.Readers.{both};
ghost use Rattle.py_grammar.specs.Words.{bar};
ghost use Rattle.py_grammar.specs.Reading.{token};

use crate::literals::literal;
use crate::mappings::mapping_pattern;
use crate::names::name_pattern;
use crate::sequences::{bracketed_pattern, parenthesized_pattern};
use parse_steps::marks::{AS_WORD, BAR, CAPTURE, LEFT_BRACKET, LEFT_PAREN, LITERAL_FIRST, NAME};
use parse_steps::skip;
use py_forest::{Fault, Forest};
use py_grammar::Entry;
use py_line::Line;
use tree_nodes::Kind;

/// A pattern without `|` and `as`.
#[tactic(auto, using(parse_steps::proofs::Runs::behind_make, parse_steps::proofs::Runs::behind_after_is), unfolding(py_grammar::specs::ReadingPatterns::closed_pattern_at))]
fn closed_pattern<F: Fn(&mut Forest, Entry, usize) -> Result<usize, Fault>>(
    nested: &F,
    depth: u32,
    forest: &mut Forest,
    line: &Line,
    rest: usize,
) -> Result<usize, Fault>
    requires callable { F.IsAlwaysCallable nested.now }
    requires gives { GivesPhrases (F.post nested.now) line.now depth }
    ensures { Reads line.now (trees forest.old) (trees forest.new) result (spec.closed_pattern_at (phrase_at depth) (drop rest line.now)) }
{
    if line.at(rest, LITERAL_FIRST) {
        let start = rest;
        let mark = forest.len();
        let rest = literal(nested, depth, forest, line, rest)?;
        forest.reduce(Kind::MatchValue, mark, line, start, rest)?;
        return Ok(rest);
    }
    if line.at(rest, NAME) {
        name_pattern(nested, depth, forest, line, rest)
    } else if line.at(rest, LEFT_PAREN) {
        parenthesized_pattern(nested, depth, forest, line, rest)
    } else if line.at(rest, LEFT_BRACKET) {
        bracketed_pattern(nested, depth, forest, line, rest)
    } else {
        mapping_pattern(nested, depth, forest, line, rest)
    }
}

/// A bar and a pattern.
#[tactic(auto, using(parse_steps::proofs::Runs::behind_make, parse_steps::proofs::Runs::behind_after_is))]
fn alternative<F: Fn(&mut Forest, Entry, usize) -> Result<usize, Fault>>(
    nested: &F,
    depth: u32,
    forest: &mut Forest,
    line: &Line,
    rest: usize,
) -> Result<usize, Fault>
    requires callable { F.IsAlwaysCallable nested.now }
    requires gives { GivesPhrases (F.post nested.now) line.now depth }
    ensures { Reads line.now (trees forest.old) (trees forest.new) result (both (token bar) (spec.closed_pattern_at (phrase_at depth)) (drop rest line.now)) }
{
    let rest = skip(line, rest, BAR)?;
    closed_pattern(nested, depth, forest, line, rest)
}

/// Patterns with bars between them.
#[tactic(auto, unfolding(py_grammar::specs::ReadingPatterns::or_pattern_at))]
fn or_pattern<F: Fn(&mut Forest, Entry, usize) -> Result<usize, Fault>>(
    nested: &F,
    depth: u32,
    forest: &mut Forest,
    line: &Line,
    rest: usize,
) -> Result<usize, Fault>
    requires callable { F.IsAlwaysCallable nested.now }
    requires gives { GivesPhrases (F.post nested.now) line.now depth }
    ensures { Reads line.now (trees forest.old) (trees forest.new) result (spec.or_pattern_at (phrase_at depth) (drop rest line.now)) }
{
    let start = rest;
    let mark = forest.len();
    let mut rest = closed_pattern(nested, depth, forest, line, rest)?;
    'alternatives: while line.at(rest, BAR) {
        rest = alternative(nested, depth, forest, line, rest)?;
    }
    forest.row(Kind::MatchOr, mark, line, start, rest)?;
    Ok(rest)
}

/// Alternatives, maybe with a name.
#[tactic(auto, using(parse_steps::proofs::Runs::behind_make, parse_steps::proofs::Runs::behind_after_is, parse_steps::proofs::Runs::behind_maybe_more), unfolding(py_grammar::specs::ReadingPatterns::pattern_at))]
pub fn pattern<F: Fn(&mut Forest, Entry, usize) -> Result<usize, Fault>>(
    nested: &F,
    depth: u32,
    forest: &mut Forest,
    line: &Line,
    rest: usize,
) -> Result<usize, Fault>
    requires callable { F.IsAlwaysCallable nested.now }
    requires gives { GivesPhrases (F.post nested.now) line.now depth }
    ensures { Reads line.now (trees forest.old) (trees forest.new) result (spec.pattern_at (phrase_at depth) (drop rest line.now)) }
{
    let start = rest;
    let mark = forest.len();
    let rest = or_pattern(nested, depth, forest, line, rest)?;
    if line.at(rest, AS_WORD) {
        let rest = skip(line, rest, AS_WORD)?;
        let rest = skip(line, rest, CAPTURE)?;
        forest.reduce_named(
            Kind::MatchAs,
            line.last_text(start, rest),
            mark,
            line,
            start,
            rest,
        )?;
        Ok(rest)
    } else {
        Ok(rest)
    }
}
