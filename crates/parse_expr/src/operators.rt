// Rows of operators, from the tightest to the loosest.
ghost use Rattle.std.specs.Prelude.{◌≡◌, ℕ, List, drop};
ghost use Rattle.py_grammar.specs.Reading as spec;
ghost use Rattle.py_grammar.specs.ReadingLines.{phrase_at};
ghost use Rattle.py_forest.specs.Forests.{trees};
ghost use Rattle.parse_steps.specs.Runs.{Reads, GivesPhrases};

use crate::level::Level;
use crate::rows::row;
use crate::signs::factor;
use parse_parts::descend;
use parse_steps::marks::NOT_WORD;
use parse_steps::skip;
use py_forest::{Fault, Forest};
use py_grammar::Entry;
use py_line::Line;
use tree_nodes::Kind;

/// A row of products.
#[tactic(auto, unfolding(py_grammar::specs::Reading::term_at))]
fn term<F: Fn(&mut Forest, Entry, usize) -> Result<usize, Fault>>(
    nested: &F,
    depth: u32,
    forest: &mut Forest,
    line: &Line,
    rest: usize,
) -> Result<usize, Fault>
    requires callable { F.IsAlwaysCallable nested.now }
    requires gives { GivesPhrases (F.post nested.now) line.now depth }
    ensures { Reads line.now (trees forest.old) (trees forest.new) result (spec.term_at (phrase_at depth) (drop rest line.now)) }
{
    row(
        &|wood: &mut Forest, rest: usize| factor(nested, depth, wood, line, rest),
        depth,
        Level::Product,
        forest,
        line,
        rest,
    )
}

/// A row of sums.
#[tactic(auto, unfolding(py_grammar::specs::Reading::arith_at))]
fn arith<F: Fn(&mut Forest, Entry, usize) -> Result<usize, Fault>>(
    nested: &F,
    depth: u32,
    forest: &mut Forest,
    line: &Line,
    rest: usize,
) -> Result<usize, Fault>
    requires callable { F.IsAlwaysCallable nested.now }
    requires gives { GivesPhrases (F.post nested.now) line.now depth }
    ensures { Reads line.now (trees forest.old) (trees forest.new) result (spec.arith_at (phrase_at depth) (drop rest line.now)) }
{
    row(
        &|wood: &mut Forest, rest: usize| term(nested, depth, wood, line, rest),
        depth,
        Level::Sum,
        forest,
        line,
        rest,
    )
}

/// A row of shifts.
#[tactic(auto, unfolding(py_grammar::specs::Reading::shift_at))]
fn shift<F: Fn(&mut Forest, Entry, usize) -> Result<usize, Fault>>(
    nested: &F,
    depth: u32,
    forest: &mut Forest,
    line: &Line,
    rest: usize,
) -> Result<usize, Fault>
    requires callable { F.IsAlwaysCallable nested.now }
    requires gives { GivesPhrases (F.post nested.now) line.now depth }
    ensures { Reads line.now (trees forest.old) (trees forest.new) result (spec.shift_at (phrase_at depth) (drop rest line.now)) }
{
    row(
        &|wood: &mut Forest, rest: usize| arith(nested, depth, wood, line, rest),
        depth,
        Level::Shift,
        forest,
        line,
        rest,
    )
}

/// A row of `&`.
#[tactic(auto, unfolding(py_grammar::specs::Reading::bit_and_at))]
fn bit_and<F: Fn(&mut Forest, Entry, usize) -> Result<usize, Fault>>(
    nested: &F,
    depth: u32,
    forest: &mut Forest,
    line: &Line,
    rest: usize,
) -> Result<usize, Fault>
    requires callable { F.IsAlwaysCallable nested.now }
    requires gives { GivesPhrases (F.post nested.now) line.now depth }
    ensures { Reads line.now (trees forest.old) (trees forest.new) result (spec.bit_and_at (phrase_at depth) (drop rest line.now)) }
{
    row(
        &|wood: &mut Forest, rest: usize| shift(nested, depth, wood, line, rest),
        depth,
        Level::BitAnd,
        forest,
        line,
        rest,
    )
}

/// A row of `^`.
#[tactic(auto, unfolding(py_grammar::specs::Reading::bit_xor_at))]
fn bit_xor<F: Fn(&mut Forest, Entry, usize) -> Result<usize, Fault>>(
    nested: &F,
    depth: u32,
    forest: &mut Forest,
    line: &Line,
    rest: usize,
) -> Result<usize, Fault>
    requires callable { F.IsAlwaysCallable nested.now }
    requires gives { GivesPhrases (F.post nested.now) line.now depth }
    ensures { Reads line.now (trees forest.old) (trees forest.new) result (spec.bit_xor_at (phrase_at depth) (drop rest line.now)) }
{
    row(
        &|wood: &mut Forest, rest: usize| bit_and(nested, depth, wood, line, rest),
        depth,
        Level::BitXor,
        forest,
        line,
        rest,
    )
}

/// A row of `|`.
#[tactic(auto, unfolding(py_grammar::specs::Reading::bit_or_at))]
pub fn bit_or<F: Fn(&mut Forest, Entry, usize) -> Result<usize, Fault>>(
    nested: &F,
    depth: u32,
    forest: &mut Forest,
    line: &Line,
    rest: usize,
) -> Result<usize, Fault>
    requires callable { F.IsAlwaysCallable nested.now }
    requires gives { GivesPhrases (F.post nested.now) line.now depth }
    ensures { Reads line.now (trees forest.old) (trees forest.new) result (spec.bit_or_at (phrase_at depth) (drop rest line.now)) }
{
    row(
        &|wood: &mut Forest, rest: usize| bit_xor(nested, depth, wood, line, rest),
        depth,
        Level::BitOr,
        forest,
        line,
        rest,
    )
}

/// A row of comparisons.
#[tactic(auto, unfolding(py_grammar::specs::Reading::comparison_at))]
fn comparison<F: Fn(&mut Forest, Entry, usize) -> Result<usize, Fault>>(
    nested: &F,
    depth: u32,
    forest: &mut Forest,
    line: &Line,
    rest: usize,
) -> Result<usize, Fault>
    requires callable { F.IsAlwaysCallable nested.now }
    requires gives { GivesPhrases (F.post nested.now) line.now depth }
    ensures { Reads line.now (trees forest.old) (trees forest.new) result (spec.comparison_at (phrase_at depth) (drop rest line.now)) }
{
    row(
        &|wood: &mut Forest, rest: usize| bit_or(nested, depth, wood, line, rest),
        depth,
        Level::Comparison,
        forest,
        line,
        rest,
    )
}

/// A comparison, or `not` and what it turns.
#[tactic(auto, using(parse_steps::proofs::Runs::behind_make, parse_steps::proofs::Runs::behind_after_is), unfolding(py_grammar::specs::Reading::not_at))]
pub fn not<F: Fn(&mut Forest, Entry, usize) -> Result<usize, Fault>>(
    nested: &F,
    depth: u32,
    forest: &mut Forest,
    line: &Line,
    rest: usize,
) -> Result<usize, Fault>
    requires callable { F.IsAlwaysCallable nested.now }
    requires gives { GivesPhrases (F.post nested.now) line.now depth }
    ensures { Reads line.now (trees forest.old) (trees forest.new) result (spec.not_at (phrase_at depth) (drop rest line.now)) }
{
    if line.at(rest, NOT_WORD) {
        let start = rest;
        let mark = forest.len();
        let rest = skip(line, rest, NOT_WORD)?;
        let rest = descend(nested, depth, forest, Entry::Not, line, rest)?;
        forest.reduce(Kind::Not, mark, line, start, rest)?;
        Ok(rest)
    } else {
        comparison(nested, depth, forest, line, rest)
    }
}

/// A row of `and`.
#[tactic(auto, unfolding(py_grammar::specs::Reading::and_at))]
fn and<F: Fn(&mut Forest, Entry, usize) -> Result<usize, Fault>>(
    nested: &F,
    depth: u32,
    forest: &mut Forest,
    line: &Line,
    rest: usize,
) -> Result<usize, Fault>
    requires callable { F.IsAlwaysCallable nested.now }
    requires gives { GivesPhrases (F.post nested.now) line.now depth }
    ensures { Reads line.now (trees forest.old) (trees forest.new) result (spec.and_at (phrase_at depth) (drop rest line.now)) }
{
    row(
        &|wood: &mut Forest, rest: usize| not(nested, depth, wood, line, rest),
        depth,
        Level::And,
        forest,
        line,
        rest,
    )
}

/// A row of `or`.
#[tactic(auto, unfolding(py_grammar::specs::Reading::or_at))]
pub fn or<F: Fn(&mut Forest, Entry, usize) -> Result<usize, Fault>>(
    nested: &F,
    depth: u32,
    forest: &mut Forest,
    line: &Line,
    rest: usize,
) -> Result<usize, Fault>
    requires callable { F.IsAlwaysCallable nested.now }
    requires gives { GivesPhrases (F.post nested.now) line.now depth }
    ensures { Reads line.now (trees forest.old) (trees forest.new) result (spec.or_at (phrase_at depth) (drop rest line.now)) }
{
    row(
        &|wood: &mut Forest, rest: usize| and(nested, depth, wood, line, rest),
        depth,
        Level::Or,
        forest,
        line,
        rest,
    )
}
