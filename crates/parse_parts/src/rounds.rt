// What stands again and again.
ghost use Rattle.std.specs.Prelude.{◌≡◌, drop};
ghost use Rattle.py_language.specs.Readers.{many};
ghost use Rattle.py_grammar.specs.Symbols.{set_of};
ghost use Rattle.py_grammar.specs.Terminals.{code};
ghost use Rattle.py_grammar.specs.ReadingLines.{phrase_at};
ghost use Rattle.py_forest.specs.Forests.{trees};
ghost use Rattle.parse_steps.specs.Runs.{Reads, GivesReader};
ghost use Rattle.parse_parts.specs.Rounds.{round_first, round_at};

use parse_steps::marks::{BYTE_STRING, CLAUSE_FIRST, FIELD_OPEN, IF_WORD, STRING_FIRST};
use py_forest::{Fault, Forest};
use py_grammar::Symbol;
use py_line::Line;

/// What stands again and again, with nothing between.
#[derive(Clone, Copy, Debug, PartialEq, Eq)]
pub enum Round {
    /// Of a clause of a comprehension.
    Condition,
    /// Of a comprehension.
    Clause,
    /// In the format of a field.
    InnerField,
    /// Of an f-string.
    Field,
    /// Of strings that stand side by side.
    StringPart,
    /// Of byte strings that stand side by side.
    ByteString,
}

/// With what one begins.
fn first(round: Round) -> &'static [Symbol]
    ensures { set_of result.now ≡ round_first round }
{
    match round {
        Round::Condition => IF_WORD,
        Round::Clause => CLAUSE_FIRST,
        Round::InnerField | Round::Field => FIELD_OPEN,
        Round::StringPart => STRING_FIRST,
        Round::ByteString => BYTE_STRING,
    }
}

/// One of them.
fn one<G: Fn(&mut Forest, usize) -> Result<usize, Fault>>(
    step: &G,
    depth: u32,
    round: Round,
    forest: &mut Forest,
    line: &Line,
    rest: usize,
) -> Result<usize, Fault>
    requires callable { G.IsAlwaysCallable step.now }
    requires gives { GivesReader (G.post step.now) line.now (round_at (phrase_at depth) round) }
    ensures { Reads line.now (trees forest.old) (trees forest.new) result (round_at (phrase_at depth) round (drop rest line.now)) }
{
    let _depth = depth;
    let _round = round;
    let _line = line;
    step(forest, rest)
}

/// As many as there are.
pub fn again<G: Fn(&mut Forest, usize) -> Result<usize, Fault>>(
    step: &G,
    depth: u32,
    round: Round,
    forest: &mut Forest,
    line: &Line,
    rest: usize,
) -> Result<usize, Fault>
    requires callable { G.IsAlwaysCallable step.now }
    requires gives { GivesReader (G.post step.now) line.now (round_at (phrase_at depth) round) }
    ensures { Reads line.now (trees forest.old) (trees forest.new) result (many code (round_first round) (round_at (phrase_at depth) round) (drop rest line.now)) }
{
    let mut rest = rest;
    'rounds: while line.at(rest, first(round)) {
        rest = one(step, depth, round, forest, line, rest)?;
    }
    Ok(rest)
}
