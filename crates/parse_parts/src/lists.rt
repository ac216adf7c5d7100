// Parts with commas between them.
ghost use Rattle.std.specs.Prelude.{drop};
ghost use Rattle.py_grammar.specs.Terminals.{code};
ghost use Rattle.py_grammar.specs.Reading as spec;
ghost use Rattle.py_grammar.specs.ReadingLines.{phrase_at};
ghost use Rattle.py_forest.specs.Forests.{trees};
ghost use Rattle.parse_steps.specs.Runs.{Reads, GivesPhrases};
ghost use Rattle.py_language.specs.Readers.{optional};
ghost use Rattle.py_grammar.specs.Words.{comma};
ghost use Rattle.py_grammar.specs.Firsts.{element_first};
ghost use Rattle.py_grammar.specs.Reading.{commas, comma_rest, tupled};
ghost use Rattle.parse_parts.specs.Parts.{part_first, part_at};

use crate::arguments::argument;
use crate::elements::{element, sx_item, target_item};
use crate::entries::brace_entry;
use crate::nested::descend;
use crate::parameters::lambda_parameter;
use crate::parts::{Part, first};
use crate::slices::slices_item;
use parse_steps::marks::{COMMA, ELEMENT_FIRST, FROM_WORD, YIELD_WORD};
use parse_steps::{behind, skip};
use py_forest::{Fault, Forest};
use py_grammar::Entry;
use py_line::Line;
use tree_nodes::Kind;

/// A part.
pub fn item<F: Fn(&mut Forest, Entry, usize) -> Result<usize, Fault>>(
    nested: &F,
    depth: u32,
    forest: &mut Forest,
    part: Part,
    line: &Line,
    rest: usize,
) -> Result<usize, Fault>
    requires callable { F.IsAlwaysCallable nested.now }
    requires gives { GivesPhrases (F.post nested.now) line.now depth }
    ensures { Reads line.now (trees forest.old) (trees forest.new) result (part_at (phrase_at depth) part (drop rest line.now)) }
{
    match part {
        Part::Element => element(nested, depth, forest, line, rest),
        Part::SxItem => sx_item(nested, depth, forest, line, rest),
        Part::BraceEntry => brace_entry(nested, depth, forest, line, rest),
        Part::Argument => argument(nested, depth, forest, line, rest),
        Part::SlicesItem => slices_item(nested, depth, forest, line, rest),
        Part::TargetItem => target_item(nested, depth, forest, line, rest),
        Part::LambdaParameter => lambda_parameter(nested, depth, forest, line, rest),
    }
}

/// Parts with commas between them, and maybe one behind them.
pub fn list<F: Fn(&mut Forest, Entry, usize) -> Result<usize, Fault>>(
    nested: &F,
    depth: u32,
    forest: &mut Forest,
    part: Part,
    line: &Line,
    rest: usize,
) -> Result<usize, Fault>
    requires callable { F.IsAlwaysCallable nested.now }
    requires gives { GivesPhrases (F.post nested.now) line.now depth }
    ensures { Reads line.now (trees forest.old) (trees forest.new) result (commas (part_first part) (part_at (phrase_at depth) part) (drop rest line.now)) }
{
    let mut rest = item(nested, depth, forest, part, line, rest)?;
    'parts: while line.at(rest, COMMA) {
        rest = behind(line, rest);
        if !line.at(rest, first(part)) {
            return Ok(rest);
        }
        rest = item(nested, depth, forest, part, line, rest)?;
    }
    Ok(rest)
}

/// A comma, and maybe more parts.
#[tactic(auto, using(parse_steps::proofs::Runs::behind_make, parse_steps::proofs::Runs::behind_after_is))]
pub fn comma_rest<F: Fn(&mut Forest, Entry, usize) -> Result<usize, Fault>>(
    nested: &F,
    depth: u32,
    forest: &mut Forest,
    part: Part,
    line: &Line,
    rest: usize,
) -> Result<usize, Fault>
    requires callable { F.IsAlwaysCallable nested.now }
    requires gives { GivesPhrases (F.post nested.now) line.now depth }
    ensures { Reads line.now (trees forest.old) (trees forest.new) result (comma_rest (part_first part) (part_at (phrase_at depth) part) (drop rest line.now)) }
{
    let rest = skip(line, rest, COMMA)?;
    if line.at(rest, first(part)) {
        list(nested, depth, forest, part, line, rest)
    } else {
        Ok(rest)
    }
}

/// A comma and maybe more parts, or nothing.
#[tactic(auto, using(parse_steps::proofs::Runs::behind_make, parse_steps::proofs::Runs::behind_after_is))]
pub fn maybe_comma_rest<F: Fn(&mut Forest, Entry, usize) -> Result<usize, Fault>>(
    nested: &F,
    depth: u32,
    forest: &mut Forest,
    part: Part,
    line: &Line,
    rest: usize,
) -> Result<usize, Fault>
    requires callable { F.IsAlwaysCallable nested.now }
    requires gives { GivesPhrases (F.post nested.now) line.now depth }
    ensures { Reads line.now (trees forest.old) (trees forest.new) result (optional code comma (comma_rest (part_first part) (part_at (phrase_at depth) part)) (drop rest line.now)) }
{
    if line.at(rest, COMMA) {
        comma_rest(nested, depth, forest, part, line, rest)
    } else {
        Ok(rest)
    }
}

/// A part alone, or a node over several.
#[tactic(auto, using(parse_steps::proofs::Runs::behind_make, parse_steps::proofs::Runs::behind_after_is, parse_steps::proofs::Runs::behind_maybe_more))]
pub fn tupled<F: Fn(&mut Forest, Entry, usize) -> Result<usize, Fault>>(
    nested: &F,
    depth: u32,
    forest: &mut Forest,
    kind: Kind,
    part: Part,
    line: &Line,
    rest: usize,
) -> Result<usize, Fault>
    requires callable { F.IsAlwaysCallable nested.now }
    requires gives { GivesPhrases (F.post nested.now) line.now depth }
    ensures { Reads line.now (trees forest.old) (trees forest.new) result (tupled kind (part_first part) (part_at (phrase_at depth) part) (part_at (phrase_at depth) part) (drop rest line.now)) }
{
    let start = rest;
    let mark = forest.len();
    let rest = item(nested, depth, forest, part, line, rest)?;
    if line.at(rest, COMMA) {
        let rest = comma_rest(nested, depth, forest, part, line, rest)?;
        forest.reduce(kind, mark, line, start, rest)?;
        Ok(rest)
    } else {
        Ok(rest)
    }
}

/// Expressions: one alone, or a tuple without brackets.
#[tactic(auto, unfolding(py_grammar::specs::Reading::sx_at))]
pub fn sx<F: Fn(&mut Forest, Entry, usize) -> Result<usize, Fault>>(
    nested: &F,
    depth: u32,
    forest: &mut Forest,
    line: &Line,
    rest: usize,
) -> Result<usize, Fault>
    requires callable { F.IsAlwaysCallable nested.now }
    requires gives { GivesPhrases (F.post nested.now) line.now depth }
    ensures { Reads line.now (trees forest.old) (trees forest.new) result (spec.sx_at (phrase_at depth) (drop rest line.now)) }
{
    tupled(nested, depth, forest, Kind::Tuple, Part::SxItem, line, rest)
}

/// Expressions, or nothing.
#[tactic(auto, using(parse_steps::proofs::Runs::behind_make, parse_steps::proofs::Runs::behind_after_is))]
pub fn maybe_sx<F: Fn(&mut Forest, Entry, usize) -> Result<usize, Fault>>(
    nested: &F,
    depth: u32,
    forest: &mut Forest,
    line: &Line,
    rest: usize,
) -> Result<usize, Fault>
    requires callable { F.IsAlwaysCallable nested.now }
    requires gives { GivesPhrases (F.post nested.now) line.now depth }
    ensures { Reads line.now (trees forest.old) (trees forest.new) result (optional code element_first (spec.sx_at (phrase_at depth)) (drop rest line.now)) }
{
    if line.at(rest, ELEMENT_FIRST) {
        sx(nested, depth, forest, line, rest)
    } else {
        Ok(rest)
    }
}

/// A `yield`, of another generator or of expressions.
#[tactic(auto, using(parse_steps::proofs::Runs::behind_make, parse_steps::proofs::Runs::behind_after_is), unfolding(py_grammar::specs::Reading::yield_at))]
pub fn yield_<F: Fn(&mut Forest, Entry, usize) -> Result<usize, Fault>>(
    nested: &F,
    depth: u32,
    forest: &mut Forest,
    line: &Line,
    rest: usize,
) -> Result<usize, Fault>
    requires callable { F.IsAlwaysCallable nested.now }
    requires gives { GivesPhrases (F.post nested.now) line.now depth }
    ensures { Reads line.now (trees forest.old) (trees forest.new) result (spec.yield_at (phrase_at depth) (drop rest line.now)) }
{
    let start = rest;
    let mark = forest.len();
    if line.at_two(rest, YIELD_WORD, FROM_WORD) {
        let rest = skip(line, rest, YIELD_WORD)?;
        let rest = skip(line, rest, FROM_WORD)?;
        let rest = descend(nested, depth, forest, Entry::Test, line, rest)?;
        forest.reduce(Kind::YieldFrom, mark, line, start, rest)?;
        Ok(rest)
    } else {
        let rest = skip(line, rest, YIELD_WORD)?;
        let rest = maybe_sx(nested, depth, forest, line, rest)?;
        forest.reduce(Kind::Yield, mark, line, start, rest)?;
        Ok(rest)
    }
}
