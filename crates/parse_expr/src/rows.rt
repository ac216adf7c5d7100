// Rows of operators.
ghost use Rattle.std.specs.Prelude.{◌≡◌, ℕ, List, drop};
ghost use Rattle.tree_nodes.specs.Trees.{Tree};
ghost use Rattle.py_language.specs.Readers.{both};
ghost use Rattle.py_grammar.specs.ReadingLines.{phrase_at};
ghost use Rattle.py_forest.specs.Forests.{trees};
ghost use Rattle.parse_steps.specs.Runs.{Reads, GivesReader};
ghost use Rattle.parse_expr.specs.Levels.{level_at, level_first, level_kind, operator_at, within_at};

use crate::comparisons::comparison_sign;
use crate::level::{Level, first, kind};
use parse_steps::{show_operator, skip};
use py_forest::{Fault, Forest};
use py_line::Line;

/// An operator of the row.
fn operator(
    depth: u32,
    level: Level,
    forest: &mut Forest,
    line: &Line,
    rest: usize,
) -> Result<usize, Fault>
    ensures { Reads line.now (trees forest.old) (trees forest.new) result (operator_at (phrase_at depth) level (drop rest line.now)) }
{
    match level {
        Level::Comparison => comparison_sign(depth, forest, line, rest),
        Level::Shift | Level::Sum | Level::Product => show_operator(
            forest,
            line,
            rest,
            first(level),
        ),
        _ => skip(line, rest, first(level)),
    }
}

/// An operand of the row.
fn operand<G: Fn(&mut Forest, usize) -> Result<usize, Fault>>(
    within: &G,
    depth: u32,
    level: Level,
    forest: &mut Forest,
    line: &Line,
    rest: usize,
) -> Result<usize, Fault>
    requires callable { G.IsAlwaysCallable within.now }
    requires gives { GivesReader (G.post within.now) line.now (within_at (phrase_at depth) level) }
    ensures { Reads line.now (trees forest.old) (trees forest.new) result (within_at (phrase_at depth) level (drop rest line.now)) }
{
    let _depth = depth;
    let _level = level;
    let _line = line;
    within(forest, rest)
}

/// An operator of the row and an operand.
#[tactic(auto, using(parse_steps::proofs::Runs::behind_make, parse_steps::proofs::Runs::behind_after_is))]
fn turn<G: Fn(&mut Forest, usize) -> Result<usize, Fault>>(
    within: &G,
    depth: u32,
    level: Level,
    forest: &mut Forest,
    line: &Line,
    rest: usize,
) -> Result<usize, Fault>
    requires callable { G.IsAlwaysCallable within.now }
    requires gives { GivesReader (G.post within.now) line.now (within_at (phrase_at depth) level) }
    ensures { Reads line.now (trees forest.old) (trees forest.new) result (both (operator_at (phrase_at depth) level) (within_at (phrase_at depth) level) (drop rest line.now)) }
{
    let rest = operator(depth, level, forest, line, rest)?;
    operand(within, depth, level, forest, line, rest)
}

/// Operands with operators between them.
pub fn row<G: Fn(&mut Forest, usize) -> Result<usize, Fault>>(
    within: &G,
    depth: u32,
    level: Level,
    forest: &mut Forest,
    line: &Line,
    rest: usize,
) -> Result<usize, Fault>
    requires callable { G.IsAlwaysCallable within.now }
    requires gives { GivesReader (G.post within.now) line.now (within_at (phrase_at depth) level) }
    ensures { Reads line.now (trees forest.old) (trees forest.new) result (level_at (phrase_at depth) level (drop rest line.now)) }
{
    let start = rest;
    let mark = forest.len();
    let mut rest = operand(within, depth, level, forest, line, rest)?;
    'operands: while line.at(rest, first(level)) {
        rest = turn(within, depth, level, forest, line, rest)?;
    }
    forest.row(kind(level), mark, line, start, rest)?;
    Ok(rest)
}
