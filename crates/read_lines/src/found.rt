// A line of terminals, in a forest of its own.
ghost use Rattle.std.specs.Prelude.{◌≡◌, ◌+◌, [], IfOk, IfErr, IfSome};
ghost use Rattle.py_language.specs.Brackets.{peak};
ghost use Rattle.py_grammar.specs.Terminals.{code};
ghost use Rattle.py_grammar.specs.Words.{closes, opens};
ghost use Rattle.py_forest.specs.Forests.{trees};
ghost use Rattle.read_lines.specs.Found.{FitsIn, SpellsNothing, OnNone};

use parse_line::{Found, read};
use py_forest::{Fault, Forest};
use py_line::Line;
use py_terminals::depth;

/// How often phrases lead back, one within the other, at most: for each bracket, and for a nesting of 200.
fn descents(line: &Line) -> Option<u32>
    ensures { IfSome result (λ given. given ≡ 201 + peak code opens closes 0 line.now) }
{
    match u32::try_from(depth(line)) {
        Ok(brackets) => brackets.checked_add(201),
        Err(_) => None,
    }
}

/// What the terminals of a line are found to be. More brackets than a number of 32 bits counts want memory.
#[tactic(auto, using(crate::proofs::FormLaws::found_fits, crate::proofs::FormLaws::nothing_found))]
pub(crate) fn found_in(forest: &mut Forest, line: &Line) -> Result<Found, Fault>
    requires { trees forest.old ≡ [] }
    ensures ok { IfOk result (λ found. FitsIn line.now (trees forest.new) found) }
    ensures err { IfErr result (OnNone (SpellsNothing line.now)) }
{
    match descents(line) {
        Some(descents) => read(forest, descents, line),
        None => Err(Fault::Memory),
    }
}
