// One argument of a call.
ghost use Rattle.std.specs.Prelude.{drop};
ghost use Rattle.py_grammar.specs.Reading as spec;
ghost use Rattle.py_grammar.specs.ReadingLines.{phrase_at};
ghost use Rattle.py_forest.specs.Forests.{trees};
ghost use Rattle.parse_steps.specs.Runs.{Reads, GivesPhrases};

use crate::elements::{marked, named, pair};
use parse_steps::marks::{ASSIGN, DOUBLE_STAR, NAME, STAR, STARRED_FIRST};
use py_forest::{Fault, Forest};
use py_grammar::Entry;
use py_line::Line;
use tree_nodes::Kind;

/// An argument behind one star or two.
#[tactic(auto, unfolding(py_grammar::specs::Reading::starred_argument_at))]
pub fn starred_argument<F: Fn(&mut Forest, Entry, usize) -> Result<usize, Fault>>(
    nested: &F,
    depth: u32,
    forest: &mut Forest,
    line: &Line,
    rest: usize,
) -> Result<usize, Fault>
    requires callable { F.IsAlwaysCallable nested.now }
    requires gives { GivesPhrases (F.post nested.now) line.now depth }
    ensures { Reads line.now (trees forest.old) (trees forest.new) result (spec.starred_argument_at (phrase_at depth) (drop rest line.now)) }
{
    if line.at(rest, STAR) {
        marked(
            nested,
            depth,
            forest,
            Kind::StarArgument,
            STAR,
            Entry::Test,
            line,
            rest,
        )
    } else {
        marked(
            nested,
            depth,
            forest,
            Kind::DoubleStarArgument,
            DOUBLE_STAR,
            Entry::Test,
            line,
            rest,
        )
    }
}

/// A keyword argument, or a positional one.
#[tactic(auto, unfolding(py_grammar::specs::Reading::plain_argument_at))]
pub fn plain_argument<F: Fn(&mut Forest, Entry, usize) -> Result<usize, Fault>>(
    nested: &F,
    depth: u32,
    forest: &mut Forest,
    line: &Line,
    rest: usize,
) -> Result<usize, Fault>
    requires callable { F.IsAlwaysCallable nested.now }
    requires gives { GivesPhrases (F.post nested.now) line.now depth }
    ensures { Reads line.now (trees forest.old) (trees forest.new) result (spec.plain_argument_at (phrase_at depth) (drop rest line.now)) }
{
    if line.at_two(rest, NAME, ASSIGN) {
        pair(
            nested,
            depth,
            forest,
            Kind::KeywordArgument,
            ASSIGN,
            Entry::Test,
            line,
            rest,
        )
    } else {
        named(nested, depth, forest, line, rest)
    }
}

/// An argument of a call.
#[tactic(auto, unfolding(py_grammar::specs::Reading::argument_at))]
pub fn argument<F: Fn(&mut Forest, Entry, usize) -> Result<usize, Fault>>(
    nested: &F,
    depth: u32,
    forest: &mut Forest,
    line: &Line,
    rest: usize,
) -> Result<usize, Fault>
    requires callable { F.IsAlwaysCallable nested.now }
    requires gives { GivesPhrases (F.post nested.now) line.now depth }
    ensures { Reads line.now (trees forest.old) (trees forest.new) result (spec.argument_at (phrase_at depth) (drop rest line.now)) }
{
    if line.at(rest, STARRED_FIRST) {
        starred_argument(nested, depth, forest, line, rest)
    } else {
        plain_argument(nested, depth, forest, line, rest)
    }
}
