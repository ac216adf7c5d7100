// Statements that begin with an expression.
ghost use Rattle.std.specs.Prelude.{◌≡◌, ℕ, ◌++◌, List, length, drop};
ghost use Rattle.tree_nodes.specs.Trees.{Tree};
ghost use Rattle.tree_nodes.specs.declared.kind.Kind.TheVariants as kinds;
ghost use Rattle.py_language.specs.Languages.{whole};
ghost use Rattle.py_language.specs.Readers.{finished};
ghost use Rattle.py_grammar.specs.Nodes.{spanning};
ghost use Rattle.py_grammar.specs.Reading.{as_, yield_at};
ghost use Rattle.py_grammar.specs.ReadingStatements as spec;
ghost use Rattle.py_grammar.specs.ReadingLines.{phrase_at};
ghost use Rattle.py_forest.specs.Forests.{trees};
ghost use Rattle.parse_steps.specs.Runs.{Reads, GivesPhrases};
ghost use Rattle.parse_statement.specs.Behind.{behind_expressions_at, expression_statement_at};

use crate::values::{annotated_name, assignment, augmentation};
use parse_parts::{sx, yield_};
use parse_steps::marks::{ASSIGN, AUGMENTED_OPERATOR, COLON, YIELD_WORD};
use py_forest::{Fault, Forest};
use py_grammar::Entry;
use py_line::Line;
use tree_nodes::Kind;

/// A yield as a statement.
#[tactic(auto, using(parse_steps::proofs::Runs::behind_make, parse_steps::proofs::Runs::behind_after_is))]
fn yield_statement<F: Fn(&mut Forest, Entry, usize) -> Result<usize, Fault>>(
    nested: &F,
    depth: u32,
    forest: &mut Forest,
    line: &Line,
    rest: usize,
) -> Result<usize, Fault>
    requires callable { F.IsAlwaysCallable nested.now }
    requires gives { GivesPhrases (F.post nested.now) line.now depth }
    ensures { Reads line.now (trees forest.old) (trees forest.new) result (as_ kinds.ExpressionStatement (yield_at (phrase_at depth)) (drop rest line.now)) }
{
    let start = rest;
    let mark = forest.len();
    let rest = yield_(nested, depth, forest, line, rest)?;
    forest.reduce(Kind::ExpressionStatement, mark, line, start, rest)?;
    Ok(rest)
}

/// What stands from `mark` on as a statement.
fn expressions_alone(
    forest: &mut Forest,
    mark: usize,
    line: &Line,
    start: usize,
    rest: usize,
) -> Result<usize, Fault>
    ensures { (below u : List Tree) → trees forest.old ≡ below ++ u → length below ≡ mark → Reads line.now below (trees forest.new) result (finished (whole (spanning kinds.ExpressionStatement)) (drop start line.now) u (drop rest line.now)) }
{
    forest.reduce(Kind::ExpressionStatement, mark, line, start, rest)?;
    Ok(rest)
}

/// What makes a statement with the expressions from `mark` on.
#[tactic(auto, unfolding(crate::specs::Behind::behind_expressions_at))]
fn behind_expressions<F: Fn(&mut Forest, Entry, usize) -> Result<usize, Fault>>(
    nested: &F,
    depth: u32,
    forest: &mut Forest,
    mark: usize,
    line: &Line,
    start: usize,
    rest: usize,
) -> Result<usize, Fault>
    requires callable { F.IsAlwaysCallable nested.now }
    requires gives { GivesPhrases (F.post nested.now) line.now depth }
    ensures { (below u : List Tree) → trees forest.old ≡ below ++ u → length below ≡ mark → Reads line.now below (trees forest.new) result (behind_expressions_at (phrase_at depth) (drop start line.now) u (drop rest line.now)) }
{
    if line.at(rest, ASSIGN) {
        assignment(nested, depth, forest, mark, line, start, rest)
    } else if line.at(rest, AUGMENTED_OPERATOR) {
        augmentation(nested, depth, forest, mark, line, start, rest)
    } else if line.at(rest, COLON) {
        annotated_name(nested, depth, forest, mark, line, start, rest)
    } else {
        expressions_alone(forest, mark, line, start, rest)
    }
}

/// Expressions, and what stands behind them.
#[tactic(auto, unfolding(crate::specs::Behind::expression_statement_at))]
fn expression_statement<F: Fn(&mut Forest, Entry, usize) -> Result<usize, Fault>>(
    nested: &F,
    depth: u32,
    forest: &mut Forest,
    line: &Line,
    rest: usize,
) -> Result<usize, Fault>
    requires callable { F.IsAlwaysCallable nested.now }
    requires gives { GivesPhrases (F.post nested.now) line.now depth }
    ensures { Reads line.now (trees forest.old) (trees forest.new) result (expression_statement_at (phrase_at depth) (drop rest line.now)) }
{
    let start = rest;
    let mark = forest.len();
    let rest = sx(nested, depth, forest, line, rest)?;
    behind_expressions(nested, depth, forest, mark, line, start, rest)
}

/// A statement that begins with an expression.
#[tactic(auto, unfolding(py_grammar::specs::ReadingStatements::value_statement_at, crate::specs::Behind::expression_statement_at, crate::specs::Behind::behind_expressions_at))]
pub fn value_statement<F: Fn(&mut Forest, Entry, usize) -> Result<usize, Fault>>(
    nested: &F,
    depth: u32,
    forest: &mut Forest,
    line: &Line,
    rest: usize,
) -> Result<usize, Fault>
    requires callable { F.IsAlwaysCallable nested.now }
    requires gives { GivesPhrases (F.post nested.now) line.now depth }
    ensures { Reads line.now (trees forest.old) (trees forest.new) result (spec.value_statement_at (phrase_at depth) (drop rest line.now)) }
{
    if line.at(rest, YIELD_WORD) {
        yield_statement(nested, depth, forest, line, rest)
    } else {
        expression_statement(nested, depth, forest, line, rest)
    }
}
