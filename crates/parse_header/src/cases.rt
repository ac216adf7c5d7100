// Headers of `match` statements and of their cases.
ghost use Rattle.std.specs.Prelude.{drop};
ghost use Rattle.py_grammar.specs.Terminals.{code};
ghost use Rattle.py_grammar.specs.ReadingHeaders as spec;
ghost use Rattle.py_grammar.specs.ReadingLines.{phrase_at};
ghost use Rattle.py_forest.specs.Forests.{trees};
ghost use Rattle.parse_steps.specs.Runs.{Reads, GivesPhrases};
ghost use Rattle.py_language.specs.Readers.{both, optional};
ghost use Rattle.py_grammar.specs.Words.{if_word};
ghost use Rattle.py_grammar.specs.Reading.{token, named_at};

use parse_parts::{Part, comma_rest, named, star};
use parse_pattern::open_patterns;
use parse_steps::marks::{CASE_WORD, COMMA, IF_WORD, MATCH_WORD, STAR};
use parse_steps::skip;
use py_forest::{Fault, Forest};
use py_grammar::Entry;
use py_line::Line;
use tree_nodes::Kind;

/// What is matched.
#[tactic(auto, using(parse_steps::proofs::Runs::behind_make, parse_steps::proofs::Runs::behind_after_is, parse_steps::proofs::Runs::behind_maybe_more), unfolding(py_grammar::specs::ReadingHeaders::subject_at))]
fn subject<F: Fn(&mut Forest, Entry, usize) -> Result<usize, Fault>>(
    nested: &F,
    depth: u32,
    forest: &mut Forest,
    line: &Line,
    rest: usize,
) -> Result<usize, Fault>
    requires callable { F.IsAlwaysCallable nested.now }
    requires gives { GivesPhrases (F.post nested.now) line.now depth }
    ensures { Reads line.now (trees forest.old) (trees forest.new) result (spec.subject_at (phrase_at depth) (drop rest line.now)) }
{
    let start = rest;
    let mark = forest.len();
    if line.at(rest, STAR) {
        let rest = star(nested, depth, forest, line, rest)?;
        let rest = comma_rest(nested, depth, forest, Part::Element, line, rest)?;
        forest.reduce(Kind::Tuple, mark, line, start, rest)?;
        return Ok(rest);
    }
    let rest = named(nested, depth, forest, line, rest)?;
    if line.at(rest, COMMA) {
        let rest = comma_rest(nested, depth, forest, Part::Element, line, rest)?;
        forest.reduce(Kind::Tuple, mark, line, start, rest)?;
        Ok(rest)
    } else {
        Ok(rest)
    }
}

/// `match` and what is matched.
#[tactic(auto, using(parse_steps::proofs::Runs::behind_make, parse_steps::proofs::Runs::behind_after_is), unfolding(py_grammar::specs::ReadingHeaders::match_header_at))]
pub fn match_header<F: Fn(&mut Forest, Entry, usize) -> Result<usize, Fault>>(
    nested: &F,
    depth: u32,
    forest: &mut Forest,
    line: &Line,
    rest: usize,
) -> Result<usize, Fault>
    requires callable { F.IsAlwaysCallable nested.now }
    requires gives { GivesPhrases (F.post nested.now) line.now depth }
    ensures { Reads line.now (trees forest.old) (trees forest.new) result (spec.match_header_at (phrase_at depth) (drop rest line.now)) }
{
    let rest = skip(line, rest, MATCH_WORD)?;
    subject(nested, depth, forest, line, rest)
}

/// The guard of a case.
#[tactic(auto, using(parse_steps::proofs::Runs::behind_make, parse_steps::proofs::Runs::behind_after_is))]
fn guard<F: Fn(&mut Forest, Entry, usize) -> Result<usize, Fault>>(
    nested: &F,
    depth: u32,
    forest: &mut Forest,
    line: &Line,
    rest: usize,
) -> Result<usize, Fault>
    requires callable { F.IsAlwaysCallable nested.now }
    requires gives { GivesPhrases (F.post nested.now) line.now depth }
    ensures { Reads line.now (trees forest.old) (trees forest.new) result (both (token if_word) (named_at (phrase_at depth)) (drop rest line.now)) }
{
    let rest = skip(line, rest, IF_WORD)?;
    named(nested, depth, forest, line, rest)
}

/// The same, or nothing.
#[tactic(auto, using(parse_steps::proofs::Runs::behind_make, parse_steps::proofs::Runs::behind_after_is))]
fn maybe_guard<F: Fn(&mut Forest, Entry, usize) -> Result<usize, Fault>>(
    nested: &F,
    depth: u32,
    forest: &mut Forest,
    line: &Line,
    rest: usize,
) -> Result<usize, Fault>
    requires callable { F.IsAlwaysCallable nested.now }
    requires gives { GivesPhrases (F.post nested.now) line.now depth }
    ensures { Reads line.now (trees forest.old) (trees forest.new) result (optional code if_word (both (token if_word) (named_at (phrase_at depth))) (drop rest line.now)) }
{
    if line.at(rest, IF_WORD) {
        guard(nested, depth, forest, line, rest)
    } else {
        Ok(rest)
    }
}

/// `case`, patterns, and a guard.
#[tactic(auto, using(parse_steps::proofs::Runs::behind_make, parse_steps::proofs::Runs::behind_after_is), unfolding(py_grammar::specs::ReadingHeaders::case_header_at))]
pub fn case_header<F: Fn(&mut Forest, Entry, usize) -> Result<usize, Fault>>(
    nested: &F,
    depth: u32,
    forest: &mut Forest,
    line: &Line,
    rest: usize,
) -> Result<usize, Fault>
    requires callable { F.IsAlwaysCallable nested.now }
    requires gives { GivesPhrases (F.post nested.now) line.now depth }
    ensures { Reads line.now (trees forest.old) (trees forest.new) result (spec.case_header_at (phrase_at depth) (drop rest line.now)) }
{
    let rest = skip(line, rest, CASE_WORD)?;
    let rest = open_patterns(nested, depth, forest, line, rest)?;
    maybe_guard(nested, depth, forest, line, rest)
}
