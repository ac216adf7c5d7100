// Statements that are one word.
ghost use Rattle.std.specs.Prelude.{◌≡◌, ◌++◌, ◌∷◌, [], drop};
ghost use Rattle.py_forest.specs.Forests.{trees};
ghost use Rattle.parse_steps.specs.Runs.{Reads};
ghost use Rattle.std.specs.Prelude.{OnOk, IfErr, slice_index_or};
ghost use Rattle.tree_nodes.specs.Trees.{none};
ghost use Rattle.py_grammar.specs.declared.entry.Entry.TheVariants as e;
ghost use Rattle.py_grammar.specs.Terminals.{no_terminal};
ghost use Rattle.py_grammar.specs.Words.{lone_word};
ghost use Rattle.py_grammar.specs.Statements.{lone_leaf};
ghost use Rattle.py_grammar.specs.Reading.{leaf};
ghost use Rattle.py_forest.specs.declared.fault.Fault.TheVariants.{Memory};
ghost use Rattle.parse_statement.specs.Lone.{lone_kind as lone_kind_spec};

use parse_steps::behind;
use parse_steps::marks::LONE_WORD;
use py_forest::{Fault, Forest};
use py_grammar::Symbol;
use py_line::Line;
use tree_nodes::Kind;

/// The kind of a statement that is one word.
fn lone_kind(symbol: Symbol) -> Kind
    ensures { result ≡ lone_kind_spec symbol }
{
    match symbol {
        Symbol::BreakWord => Kind::Break,
        Symbol::ContinueWord => Kind::Continue,
        _ => Kind::Pass,
    }
}

/// The word at a place as a statement.
#[tactic(auto, using(crate::proofs::LoneLaws::lone_is))]
fn add_lone(forest: &mut Forest, line: &Line, place: usize) -> Result<(), Fault>
    ensures ok { OnOk result (trees forest.new ≡ trees forest.old ++ record { node = lone_leaf (slice_index_or line.now place no_terminal); kids = none } ∷ []) }
    ensures err { IfErr result (λ e. e ≡ Memory) }
{
    let kind = lone_kind(line.symbol(place));
    forest.leaf(kind, line.pos(place), line.end_line(place), None)
}

/// `pass`, `break` or `continue`.
#[tactic(auto, using(parse_steps::proofs::Tokens::shown_at, parse_steps::proofs::Tokens::shown_not))]
pub fn lone(forest: &mut Forest, line: &Line, rest: usize) -> Result<usize, Fault>
    ensures { Reads line.now (trees forest.old) (trees forest.new) result (leaf lone_leaf lone_word (drop rest line.now)) }
{
    if line.at(rest, LONE_WORD) {
        add_lone(forest, line, rest)?;
        Ok(behind(line, rest))
    } else {
        Err(Fault::NoForm)
    }
}
