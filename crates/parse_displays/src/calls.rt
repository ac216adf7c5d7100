// Arguments of calls.
ghost use Rattle.std.specs.Prelude.{drop};
ghost use Rattle.py_grammar.specs.Terminals.{code};
ghost use Rattle.py_grammar.specs.Reading as spec;
ghost use Rattle.py_grammar.specs.ReadingLines.{phrase_at};
ghost use Rattle.py_forest.specs.Forests.{trees};
ghost use Rattle.parse_steps.specs.Runs.{Reads, GivesPhrases};
ghost use Rattle.py_language.specs.Readers.{optional};
ghost use Rattle.py_grammar.specs.Firsts.{argument_first, clause_or_comma};
ghost use Rattle.parse_displays.specs.Insides.{in_call_at};

use crate::comprehensions::clauses;
use parse_parts::{Part, comma_rest, list, maybe_comma_rest, plain_argument, starred_argument};
use parse_steps::marks::{
    ARGUMENT_FIRST, ASSIGN, CLAUSE_FIRST, CLAUSE_OR_COMMA, DOUBLE_STAR, LEFT_PAREN, NAME,
    RIGHT_PAREN, STAR, STARRED_FIRST,
};
use parse_steps::skip;
use py_forest::{Fault, Forest};
use py_grammar::Entry;
use py_line::Line;
use tree_nodes::Kind;

/// Arguments in their order.
#[tactic(auto, using(parse_steps::proofs::Runs::behind_make, parse_steps::proofs::Runs::behind_after_is, parse_steps::proofs::Runs::behind_filter), unfolding(py_grammar::specs::Reading::arguments_at))]
pub fn arguments<F: Fn(&mut Forest, Entry, usize) -> Result<usize, Fault>>(
    nested: &F,
    depth: u32,
    forest: &mut Forest,
    line: &Line,
    rest: usize,
) -> Result<usize, Fault>
    requires callable { F.IsAlwaysCallable nested.now }
    requires gives { GivesPhrases (F.post nested.now) line.now depth }
    ensures { Reads line.now (trees forest.old) (trees forest.new) result (spec.arguments_at (phrase_at depth) (drop rest line.now)) }
{
    let mark = forest.len();
    let rest = list(nested, depth, forest, Part::Argument, line, rest)?;
    if !forest.in_order(mark) {
        return Err(Fault::NoForm);
    }
    Ok(rest)
}

/// Clauses, or a comma and more arguments.
#[tactic(auto, unfolding(py_grammar::specs::Reading::more_arguments_at))]
fn more_arguments<F: Fn(&mut Forest, Entry, usize) -> Result<usize, Fault>>(
    nested: &F,
    depth: u32,
    forest: &mut Forest,
    line: &Line,
    rest: usize,
) -> Result<usize, Fault>
    requires callable { F.IsAlwaysCallable nested.now }
    requires gives { GivesPhrases (F.post nested.now) line.now depth }
    ensures { Reads line.now (trees forest.old) (trees forest.new) result (spec.more_arguments_at (phrase_at depth) (drop rest line.now)) }
{
    if line.at(rest, CLAUSE_FIRST) {
        clauses(nested, depth, forest, line, rest)
    } else {
        comma_rest(nested, depth, forest, Part::Argument, line, rest)
    }
}

/// Clauses, or a comma and more arguments, or nothing.
#[tactic(auto, using(parse_steps::proofs::Runs::behind_make, parse_steps::proofs::Runs::behind_after_is))]
fn maybe_more_arguments<F: Fn(&mut Forest, Entry, usize) -> Result<usize, Fault>>(
    nested: &F,
    depth: u32,
    forest: &mut Forest,
    line: &Line,
    rest: usize,
) -> Result<usize, Fault>
    requires callable { F.IsAlwaysCallable nested.now }
    requires gives { GivesPhrases (F.post nested.now) line.now depth }
    ensures { Reads line.now (trees forest.old) (trees forest.new) result (optional code clause_or_comma (spec.more_arguments_at (phrase_at depth)) (drop rest line.now)) }
{
    if line.at(rest, CLAUSE_OR_COMMA) {
        more_arguments(nested, depth, forest, line, rest)
    } else {
        Ok(rest)
    }
}

/// What the brackets of a call hold.
#[tactic(auto, using(parse_steps::proofs::Runs::behind_make, parse_steps::proofs::Runs::behind_after_is))]
fn in_call<F: Fn(&mut Forest, Entry, usize) -> Result<usize, Fault>>(
    nested: &F,
    depth: u32,
    forest: &mut Forest,
    line: &Line,
    rest: usize,
) -> Result<usize, Fault>
    requires callable { F.IsAlwaysCallable nested.now }
    requires gives { GivesPhrases (F.post nested.now) line.now depth }
    ensures { Reads line.now (trees forest.old) (trees forest.new) result (in_call_at (phrase_at depth) (drop rest line.now)) }
{
    if line.at(rest, STARRED_FIRST) {
        let rest = starred_argument(nested, depth, forest, line, rest)?;
        maybe_comma_rest(nested, depth, forest, Part::Argument, line, rest)
    } else {
        let rest = plain_argument(nested, depth, forest, line, rest)?;
        maybe_more_arguments(nested, depth, forest, line, rest)
    }
}

/// What the brackets of a call hold, or nothing.
#[tactic(auto, using(parse_steps::proofs::Runs::behind_make, parse_steps::proofs::Runs::behind_after_is))]
fn maybe_in_call<F: Fn(&mut Forest, Entry, usize) -> Result<usize, Fault>>(
    nested: &F,
    depth: u32,
    forest: &mut Forest,
    line: &Line,
    rest: usize,
) -> Result<usize, Fault>
    requires callable { F.IsAlwaysCallable nested.now }
    requires gives { GivesPhrases (F.post nested.now) line.now depth }
    ensures { Reads line.now (trees forest.old) (trees forest.new) result (optional code argument_first (in_call_at (phrase_at depth)) (drop rest line.now)) }
{
    if line.at(rest, ARGUMENT_FIRST) {
        in_call(nested, depth, forest, line, rest)
    } else {
        Ok(rest)
    }
}

/// The brackets of a call, with what they hold.
#[tactic(auto, using(parse_steps::proofs::Runs::behind_make, parse_steps::proofs::Runs::behind_after_is, parse_steps::proofs::Runs::behind_filter), unfolding(py_grammar::specs::Reading::call_arguments_at))]
pub fn call_arguments<F: Fn(&mut Forest, Entry, usize) -> Result<usize, Fault>>(
    nested: &F,
    depth: u32,
    forest: &mut Forest,
    line: &Line,
    rest: usize,
) -> Result<usize, Fault>
    requires callable { F.IsAlwaysCallable nested.now }
    requires gives { GivesPhrases (F.post nested.now) line.now depth }
    ensures { Reads line.now (trees forest.old) (trees forest.new) result (spec.call_arguments_at (phrase_at depth) (drop rest line.now)) }
{
    let start = rest;
    let mark = forest.len();
    let rest = skip(line, rest, LEFT_PAREN)?;
    let rest = maybe_in_call(nested, depth, forest, line, rest)?;
    let rest = skip(line, rest, RIGHT_PAREN)?;
    if !forest.are_arguments(mark) {
        return Err(Fault::NoForm);
    }
    forest.call_arguments(mark, line, start, rest)?;
    Ok(rest)
}
