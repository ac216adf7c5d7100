// Names that belong to an outer scope.
ghost use Rattle.std.specs.Prelude.{drop};
ghost use Rattle.py_grammar.specs.Reading.{LineReader};
ghost use Rattle.py_grammar.specs.ReadingStatements as spec;
ghost use Rattle.py_forest.specs.Forests.{trees};
ghost use Rattle.parse_steps.specs.Runs.{Reads};
ghost use Rattle.tree_nodes.specs.declared.kind.Kind.TheVariants as kinds;
ghost use Rattle.py_language.specs.Readers.{both};
ghost use Rattle.py_grammar.specs.Words.{comma, name};
ghost use Rattle.py_grammar.specs.Nodes.{named_leaf};
ghost use Rattle.py_grammar.specs.Reading.{token, leaf, joined_};

use crate::round::{Round, again};
use parse_steps::marks::{COMMA, GLOBAL_WORD, NAME, NONLOCAL_WORD};
use parse_steps::{show_named, skip};
use py_forest::{Fault, Forest};
use py_grammar::Entry;
use py_line::Line;
use tree_nodes::Kind;

/// A comma and a name.
#[tactic(auto, using(parse_steps::proofs::Runs::behind_make, parse_steps::proofs::Runs::behind_after_is))]
fn declared_name(forest: &mut Forest, line: &Line, rest: usize) -> Result<usize, Fault>
    ensures { Reads line.now (trees forest.old) (trees forest.new) result (both (token comma) (leaf (named_leaf kinds.DeclaredName) name) (drop rest line.now)) }
{
    let rest = skip(line, rest, COMMA)?;
    show_named(forest, Kind::DeclaredName, line, rest, NAME)
}

/// Names with commas between them.
#[tactic(auto, using(parse_steps::proofs::Runs::behind_make, parse_steps::proofs::Runs::behind_after_is))]
fn declared_names(forest: &mut Forest, line: &Line, rest: usize) -> Result<usize, Fault>
    ensures { Reads line.now (trees forest.old) (trees forest.new) result (joined_ (leaf (named_leaf kinds.DeclaredName) name) (drop rest line.now)) }
{
    let rest = show_named(forest, Kind::DeclaredName, line, rest, NAME)?;
    again(
        &|wood: &mut Forest, rest: usize| declared_name(wood, line, rest),
        0,
        Round::DeclaredName,
        forest,
        line,
        rest,
    )
}

/// Names that belong to an outer scope.
#[tactic(auto, using(parse_steps::proofs::Runs::behind_make, parse_steps::proofs::Runs::behind_after_is), unfolding(py_grammar::specs::ReadingStatements::declaration_at))]
pub fn declaration(forest: &mut Forest, line: &Line, rest: usize) -> Result<usize, Fault>
    ensures { (self : Entry → LineReader) → Reads line.now (trees forest.old) (trees forest.new) result (spec.declaration_at self (drop rest line.now)) }
{
    let start = rest;
    let mark = forest.len();
    if line.at(rest, GLOBAL_WORD) {
        let rest = skip(line, rest, GLOBAL_WORD)?;
        let rest = declared_names(forest, line, rest)?;
        forest.reduce(Kind::Global, mark, line, start, rest)?;
        Ok(rest)
    } else {
        let rest = skip(line, rest, NONLOCAL_WORD)?;
        let rest = declared_names(forest, line, rest)?;
        forest.reduce(Kind::Nonlocal, mark, line, start, rest)?;
        Ok(rest)
    }
}
