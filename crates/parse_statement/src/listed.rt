// Statements.
ghost use Rattle.std.specs.Prelude.{◌≡◌, ℕ, ◌++◌, ◌∷◌, [], List, length, ◌≤◌, drop};
ghost use Rattle.tree_nodes.specs.Trees.{Tree};
ghost use Rattle.py_grammar.specs.Terminals.{code, Terminal};
ghost use Rattle.py_grammar.specs.Reading.{LineReader};
ghost use Rattle.py_grammar.specs.ReadingStatements as spec;
ghost use Rattle.py_grammar.specs.ReadingLines.{phrase_at};
ghost use Rattle.py_forest.specs.Forests.{trees};
ghost use Rattle.parse_steps.specs.Runs.{Reads, GivesPhrases};

use crate::expressions::value_statement;
use crate::keywords::keyword_statement;
use crate::part::{Part, list};
use parse_steps::marks::KEYWORD_STATEMENT_FIRST;
use py_forest::{Fault, Forest};
use py_grammar::Entry;
use py_line::Line;

/// A statement.
#[tactic(auto, using(parse_steps::proofs::Runs::behind_make, parse_steps::proofs::Runs::behind_after_is), unfolding(py_grammar::specs::ReadingStatements::statement_at))]
fn statement<F: Fn(&mut Forest, Entry, usize) -> Result<usize, Fault>>(
    nested: &F,
    depth: u32,
    forest: &mut Forest,
    line: &Line,
    rest: usize,
) -> Result<usize, Fault>
    requires callable { F.IsAlwaysCallable nested.now }
    requires gives { GivesPhrases (F.post nested.now) line.now depth }
    ensures { Reads line.now (trees forest.old) (trees forest.new) result (spec.statement_at (phrase_at depth) (drop rest line.now)) }
{
    if line.at(rest, KEYWORD_STATEMENT_FIRST) {
        keyword_statement(nested, depth, forest, line, rest)
    } else {
        value_statement(nested, depth, forest, line, rest)
    }
}

/// Statements with semicolons between them.
#[tactic(auto, unfolding(py_grammar::specs::ReadingStatements::statements_at))]
pub fn statements<F: Fn(&mut Forest, Entry, usize) -> Result<usize, Fault>>(
    nested: &F,
    depth: u32,
    forest: &mut Forest,
    line: &Line,
    rest: usize,
) -> Result<usize, Fault>
    requires callable { F.IsAlwaysCallable nested.now }
    requires gives { GivesPhrases (F.post nested.now) line.now depth }
    ensures { Reads line.now (trees forest.old) (trees forest.new) result (spec.statements_at (phrase_at depth) (drop rest line.now)) }
{
    list(
        &|wood: &mut Forest, rest: usize| statement(nested, depth, wood, line, rest),
        depth,
        Part::Statement,
        forest,
        line,
        rest,
    )
}
