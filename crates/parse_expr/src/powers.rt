// Powers, and what is awaited.
ghost use Rattle.std.specs.Prelude.{◌≡◌, ℕ, List, drop};
ghost use Rattle.py_language.specs.Readers.{both};
ghost use Rattle.py_grammar.specs.declared.entry.Entry.TheVariants as e;
ghost use Rattle.py_grammar.specs.Words.{double_star};
ghost use Rattle.py_grammar.specs.Reading.{token};
ghost use Rattle.py_grammar.specs.Reading as spec;
ghost use Rattle.py_grammar.specs.ReadingLines.{phrase_at};
ghost use Rattle.py_forest.specs.Forests.{trees};
ghost use Rattle.parse_steps.specs.Runs.{Reads, GivesPhrases};

use crate::primaries::primary;
use parse_parts::descend;
use parse_steps::marks::{AWAIT_WORD, DOUBLE_STAR};
use parse_steps::skip;
use py_forest::{Fault, Forest};
use py_grammar::Entry;
use py_line::Line;
use tree_nodes::Kind;

/// A primary, or `await` and one.
#[tactic(auto, using(parse_steps::proofs::Runs::behind_make, parse_steps::proofs::Runs::behind_after_is), unfolding(py_grammar::specs::Reading::awaited_at))]
fn awaited<F: Fn(&mut Forest, Entry, usize) -> Result<usize, Fault>>(
    nested: &F,
    depth: u32,
    forest: &mut Forest,
    line: &Line,
    rest: usize,
) -> Result<usize, Fault>
    requires callable { F.IsAlwaysCallable nested.now }
    requires gives { GivesPhrases (F.post nested.now) line.now depth }
    ensures { Reads line.now (trees forest.old) (trees forest.new) result (spec.awaited_at (phrase_at depth) (drop rest line.now)) }
{
    if line.at(rest, AWAIT_WORD) {
        let start = rest;
        let mark = forest.len();
        let rest = skip(line, rest, AWAIT_WORD)?;
        let rest = primary(nested, depth, forest, line, rest)?;
        forest.reduce(Kind::Await, mark, line, start, rest)?;
        Ok(rest)
    } else {
        primary(nested, depth, forest, line, rest)
    }
}

/// `**` and a factor.
#[tactic(auto, using(parse_steps::proofs::Runs::behind_after_is))]
fn exponent<F: Fn(&mut Forest, Entry, usize) -> Result<usize, Fault>>(
    nested: &F,
    depth: u32,
    forest: &mut Forest,
    line: &Line,
    rest: usize,
) -> Result<usize, Fault>
    requires callable { F.IsAlwaysCallable nested.now }
    requires gives { GivesPhrases (F.post nested.now) line.now depth }
    ensures { Reads line.now (trees forest.old) (trees forest.new) result (both (token double_star) (phrase_at depth e.Factor) (drop rest line.now)) }
{
    let rest = skip(line, rest, DOUBLE_STAR)?;
    descend(nested, depth, forest, Entry::Factor, line, rest)
}

/// What is awaited, maybe to the power of a factor.
#[tactic(auto, using(parse_steps::proofs::Runs::behind_make, parse_steps::proofs::Runs::behind_after_is, parse_steps::proofs::Runs::behind_maybe_more), unfolding(py_grammar::specs::Reading::power_at))]
pub fn power<F: Fn(&mut Forest, Entry, usize) -> Result<usize, Fault>>(
    nested: &F,
    depth: u32,
    forest: &mut Forest,
    line: &Line,
    rest: usize,
) -> Result<usize, Fault>
    requires callable { F.IsAlwaysCallable nested.now }
    requires gives { GivesPhrases (F.post nested.now) line.now depth }
    ensures { Reads line.now (trees forest.old) (trees forest.new) result (spec.power_at (phrase_at depth) (drop rest line.now)) }
{
    let start = rest;
    let mark = forest.len();
    let rest = awaited(nested, depth, forest, line, rest)?;
    if line.at(rest, DOUBLE_STAR) {
        let rest = exponent(nested, depth, forest, line, rest)?;
        forest.reduce(Kind::Power, mark, line, start, rest)?;
        Ok(rest)
    } else {
        Ok(rest)
    }
}
