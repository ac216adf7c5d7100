// Tokens that are passed.
ghost use Rattle.std.specs.Prelude.{◌≡◌, ℕ, List, drop};
ghost use Rattle.tree_nodes.specs.Trees.{Tree};
ghost use Rattle.py_language.specs.Readers.{skipped};
ghost use Rattle.py_grammar.specs.Symbols.{set_of};
ghost use Rattle.py_grammar.specs.Terminals.{code};
ghost use Rattle.parse_steps.specs.Runs.{Reads};

use py_forest::Fault;
use py_grammar::Symbol;
use py_line::Line;

/// The place behind one of these symbols.
#[tactic(auto, using(crate::proofs::Tokens::skipped_at, crate::proofs::Tokens::skipped_not))]
pub fn skip(line: &Line, rest: usize, set: &[Symbol]) -> Result<usize, Fault>
    ensures { (u : List Tree) → Reads line.now u u result (skipped code (set_of set.now) (drop rest line.now)) }
{
    if line.at(rest, set) {
        Ok(behind(line, rest))
    } else {
        Err(Fault::NoForm)
    }
}

/// The place behind the symbol at a place.
#[tactic(auto, using(crate::proofs::Tokens::drop_one, crate::proofs::Tokens::drop_end))]
pub fn behind(line: &Line, rest: usize) -> usize
    ensures { drop result line.now ≡ drop 1 (drop rest line.now) }
{
    if rest < line.len() { rest + 1 } else { rest }
}
