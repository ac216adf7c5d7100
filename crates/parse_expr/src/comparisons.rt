// The operators of comparisons.
ghost use Rattle.std.specs.Prelude.{◌≡◌, ℕ, List, drop};
ghost use Rattle.tree_nodes.specs.declared.kind.Kind.TheVariants as kinds;
ghost use Rattle.py_language.specs.Readers.{both};
ghost use Rattle.py_grammar.specs.Words.{in_word, is_word, not_word};
ghost use Rattle.py_grammar.specs.Reading.{as_, token, comparison_sign_at};
ghost use Rattle.py_grammar.specs.ReadingLines.{phrase_at};
ghost use Rattle.py_forest.specs.Forests.{trees};
ghost use Rattle.parse_steps.specs.Runs.{Reads};

use parse_steps::marks::{COMPARISON_OPERATOR, IN_WORD, IS_WORD, NOT_WORD};
use parse_steps::{show_operator, skip};
use py_forest::{Fault, Forest};
use py_line::Line;
use tree_nodes::Kind;

/// `not in`, as one operator.
#[tactic(auto, using(parse_steps::proofs::Runs::behind_make, parse_steps::proofs::Runs::behind_after_is))]
fn not_in(forest: &mut Forest, line: &Line, rest: usize) -> Result<usize, Fault>
    ensures { Reads line.now (trees forest.old) (trees forest.new) result (as_ kinds.NotIn (both (token not_word) (token in_word)) (drop rest line.now)) }
{
    let start = rest;
    let mark = forest.len();
    let rest = skip(line, rest, NOT_WORD)?;
    let rest = skip(line, rest, IN_WORD)?;
    forest.reduce(Kind::NotIn, mark, line, start, rest)?;
    Ok(rest)
}

/// `is not`, as one operator.
#[tactic(auto, using(parse_steps::proofs::Runs::behind_make, parse_steps::proofs::Runs::behind_after_is))]
fn is_not(forest: &mut Forest, line: &Line, rest: usize) -> Result<usize, Fault>
    ensures { Reads line.now (trees forest.old) (trees forest.new) result (as_ kinds.IsNot (both (token is_word) (token not_word)) (drop rest line.now)) }
{
    let start = rest;
    let mark = forest.len();
    let rest = skip(line, rest, IS_WORD)?;
    let rest = skip(line, rest, NOT_WORD)?;
    forest.reduce(Kind::IsNot, mark, line, start, rest)?;
    Ok(rest)
}

/// `is`.
#[tactic(auto, using(parse_steps::proofs::Runs::behind_make, parse_steps::proofs::Runs::behind_after_is))]
fn is_alone(forest: &mut Forest, line: &Line, rest: usize) -> Result<usize, Fault>
    ensures { Reads line.now (trees forest.old) (trees forest.new) result (as_ kinds.Is (token is_word) (drop rest line.now)) }
{
    let start = rest;
    let mark = forest.len();
    let rest = skip(line, rest, IS_WORD)?;
    forest.reduce(Kind::Is, mark, line, start, rest)?;
    Ok(rest)
}

/// An operator of a comparison.
#[tactic(auto, unfolding(py_grammar::specs::Reading::comparison_sign_at))]
pub fn comparison_sign(
    depth: u32,
    forest: &mut Forest,
    line: &Line,
    rest: usize,
) -> Result<usize, Fault>
    ensures { Reads line.now (trees forest.old) (trees forest.new) result (comparison_sign_at (phrase_at depth) (drop rest line.now)) }
{
    let _depth = depth;
    if line.at(rest, COMPARISON_OPERATOR) {
        show_operator(forest, line, rest, COMPARISON_OPERATOR)
    } else if line.at(rest, NOT_WORD) {
        not_in(forest, line, rest)
    } else if line.at_two(rest, IS_WORD, NOT_WORD) {
        is_not(forest, line, rest)
    } else {
        is_alone(forest, line, rest)
    }
}
