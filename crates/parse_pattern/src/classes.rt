// Patterns for classes.
ghost use Rattle.std.specs.Prelude.{◌≡◌, ℕ, ◌++◌, ◌∷◌, [], List, length, ◌≤◌, drop};
ghost use Rattle.tree_nodes.specs.Trees.{Tree};
ghost use Rattle.py_grammar.specs.Terminals.{code, Terminal};
ghost use Rattle.py_grammar.specs.Reading.{LineReader};
ghost use Rattle.py_grammar.specs.ReadingPatterns as spec;
ghost use Rattle.py_grammar.specs.ReadingLines.{phrase_at};
ghost use Rattle.py_forest.specs.Forests.{trees};
ghost use Rattle.parse_steps.specs.Runs.{Reads, GivesPhrases};

use crate::item::Item;
use crate::lists::maybe_list;
use crate::orders::keywords_behind_patterns;
use parse_parts::descend;
use parse_steps::marks::{ASSIGN, LEFT_PAREN, NAME, RIGHT_PAREN};
use parse_steps::skip;
use py_forest::{Fault, Forest};
use py_grammar::Entry;
use py_line::Line;
use tree_nodes::Kind;

/// A pattern, maybe with a keyword.
#[tactic(auto, using(parse_steps::proofs::Runs::behind_make, parse_steps::proofs::Runs::behind_after_is), unfolding(py_grammar::specs::ReadingPatterns::class_argument_at))]
pub fn class_argument<F: Fn(&mut Forest, Entry, usize) -> Result<usize, Fault>>(
    nested: &F,
    depth: u32,
    forest: &mut Forest,
    line: &Line,
    rest: usize,
) -> Result<usize, Fault>
    requires callable { F.IsAlwaysCallable nested.now }
    requires gives { GivesPhrases (F.post nested.now) line.now depth }
    ensures { Reads line.now (trees forest.old) (trees forest.new) result (spec.class_argument_at (phrase_at depth) (drop rest line.now)) }
{
    if line.at_two(rest, NAME, ASSIGN) {
        let start = rest;
        let mark = forest.len();
        let rest = skip(line, rest, NAME)?;
        let rest = skip(line, rest, ASSIGN)?;
        let rest = descend(nested, depth, forest, Entry::Pattern, line, rest)?;
        forest.reduce_named(
            Kind::MatchKeyword,
            line.first_text(start, rest),
            mark,
            line,
            start,
            rest,
        )?;
        Ok(rest)
    } else {
        descend(nested, depth, forest, Entry::Pattern, line, rest)
    }
}

/// Patterns in round brackets, and then those with keywords.
#[tactic(auto, using(parse_steps::proofs::Runs::behind_make, parse_steps::proofs::Runs::behind_after_is, parse_steps::proofs::Runs::behind_filter), unfolding(py_grammar::specs::ReadingPatterns::class_arguments_at))]
pub fn class_arguments<F: Fn(&mut Forest, Entry, usize) -> Result<usize, Fault>>(
    nested: &F,
    depth: u32,
    forest: &mut Forest,
    line: &Line,
    rest: usize,
) -> Result<usize, Fault>
    requires callable { F.IsAlwaysCallable nested.now }
    requires gives { GivesPhrases (F.post nested.now) line.now depth }
    ensures { Reads line.now (trees forest.old) (trees forest.new) result (spec.class_arguments_at (phrase_at depth) (drop rest line.now)) }
{
    let mark = forest.len();
    let rest = skip(line, rest, LEFT_PAREN)?;
    let rest = maybe_list(nested, depth, forest, Item::ClassArgument, line, rest)?;
    let rest = skip(line, rest, RIGHT_PAREN)?;
    if !keywords_behind_patterns(forest, mark) {
        return Err(Fault::NoForm);
    }
    Ok(rest)
}
