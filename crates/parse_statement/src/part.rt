// What stands between separators.
ghost use Rattle.std.specs.Prelude.{◌≡◌, ℕ, List, drop};
ghost use Rattle.py_language.specs.Readers.{separated};
ghost use Rattle.py_grammar.specs.Symbols.{set_of};
ghost use Rattle.py_grammar.specs.Terminals.{code};
ghost use Rattle.py_grammar.specs.ReadingLines.{phrase_at};
ghost use Rattle.py_forest.specs.Forests.{trees};
ghost use Rattle.parse_steps.specs.Runs.{Reads, GivesReader};
ghost use Rattle.parse_statement.specs.Parts.{part_separator, part_first, part_at};

use parse_steps::behind;
use parse_steps::marks::{COMMA, FACTOR_FIRST, NAME, SEMICOLON, STATEMENT_FIRST};
use py_forest::{Fault, Forest};
use py_grammar::Symbol;
use py_line::Line;

/// What stands between separators.
#[derive(Clone, Copy, Debug, PartialEq, Eq)]
pub enum Part {
    /// What `del` takes away.
    Deleted,
    /// A name in brackets that is imported from a module.
    ImportedName,
    Statement,
}

/// What stands between two of them.
fn separator(part: Part) -> &'static [Symbol]
    ensures { set_of result.now ≡ part_separator part }
{
    match part {
        Part::Deleted | Part::ImportedName => COMMA,
        Part::Statement => SEMICOLON,
    }
}

/// With what a part begins.
fn first(part: Part) -> &'static [Symbol]
    ensures { set_of result.now ≡ part_first part }
{
    match part {
        Part::Deleted => FACTOR_FIRST,
        Part::ImportedName => NAME,
        Part::Statement => STATEMENT_FIRST,
    }
}

/// A part.
fn one<G: Fn(&mut Forest, usize) -> Result<usize, Fault>>(
    step: &G,
    depth: u32,
    part: Part,
    forest: &mut Forest,
    line: &Line,
    rest: usize,
) -> Result<usize, Fault>
    requires callable { G.IsAlwaysCallable step.now }
    requires gives { GivesReader (G.post step.now) line.now (part_at (phrase_at depth) part) }
    ensures { Reads line.now (trees forest.old) (trees forest.new) result (part_at (phrase_at depth) part (drop rest line.now)) }
{
    let _depth = depth;
    let _part = part;
    let _line = line;
    step(forest, rest)
}

/// Parts with separators between them, and maybe one behind them.
pub fn list<G: Fn(&mut Forest, usize) -> Result<usize, Fault>>(
    step: &G,
    depth: u32,
    part: Part,
    forest: &mut Forest,
    line: &Line,
    rest: usize,
) -> Result<usize, Fault>
    requires callable { G.IsAlwaysCallable step.now }
    requires gives { GivesReader (G.post step.now) line.now (part_at (phrase_at depth) part) }
    ensures { Reads line.now (trees forest.old) (trees forest.new) result (separated code (part_separator part) (part_first part) (part_at (phrase_at depth) part) (drop rest line.now)) }
{
    let mut rest = one(step, depth, part, forest, line, rest)?;
    'parts: while line.at(rest, separator(part)) {
        rest = behind(line, rest);
        if !line.at(rest, first(part)) {
            return Ok(rest);
        }
        rest = one(step, depth, part, forest, line, rest)?;
    }
    Ok(rest)
}
