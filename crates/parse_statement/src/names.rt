// Names of modules, and what is imported from them.
ghost use Rattle.std.specs.Prelude.{◌≡◌, ℕ, ◌++◌, ◌∷◌, [], List, length, ◌≤◌, drop};
ghost use Rattle.tree_nodes.specs.Trees.{Tree};
ghost use Rattle.py_grammar.specs.Terminals.{code, Terminal};
ghost use Rattle.py_grammar.specs.Reading.{LineReader};
ghost use Rattle.py_grammar.specs.ReadingStatements as spec;
ghost use Rattle.py_grammar.specs.ReadingLines.{phrase_at};
ghost use Rattle.py_forest.specs.Forests.{trees};
ghost use Rattle.parse_steps.specs.Runs.{Reads, GivesPhrases};
ghost use Rattle.py_language.specs.Readers.{both, many, optional};
ghost use Rattle.py_grammar.specs.Words.{as_word, comma, dot, dots, name};
ghost use Rattle.py_grammar.specs.Reading.{token, joined_, parenthesized, commas};
ghost use Rattle.parse_statement.specs.Rounds.{alias_at};

use crate::part::{Part, list};
use crate::round::{Round, again};
use crate::texts::{dotted_name, module_text};
use parse_steps::marks::{
    AS_WORD, COMMA, DOT, DOTS, FROM_WORD, IMPORT_WORD, LEFT_PAREN, NAME, RIGHT_PAREN, STAR,
};
use parse_steps::{show_named, show_plain, skip};
use py_forest::{Fault, Forest};
use py_grammar::Entry;
use py_line::Line;
use tree_nodes::Kind;

/// The name behind `as`.
#[tactic(auto, using(parse_steps::proofs::Runs::behind_make, parse_steps::proofs::Runs::behind_after_is), unfolding(py_grammar::specs::ReadingStatements::as_name_at))]
pub fn as_name(forest: &mut Forest, line: &Line, rest: usize) -> Result<usize, Fault>
    ensures { (self : Entry → LineReader) → Reads line.now (trees forest.old) (trees forest.new) result (spec.as_name_at self (drop rest line.now)) }
{
    let rest = skip(line, rest, AS_WORD)?;
    show_named(forest, Kind::AsName, line, rest, NAME)
}

/// The name behind `as`, or nothing.
#[tactic(auto, using(parse_steps::proofs::Runs::behind_make, parse_steps::proofs::Runs::behind_after_is))]
pub fn maybe_as_name(forest: &mut Forest, line: &Line, rest: usize) -> Result<usize, Fault>
    ensures { (self : Entry → LineReader) → Reads line.now (trees forest.old) (trees forest.new) result (optional code as_word (spec.as_name_at self) (drop rest line.now)) }
{
    if line.at(rest, AS_WORD) {
        as_name(forest, line, rest)
    } else {
        Ok(rest)
    }
}

/// A dot and a name.
#[tactic(auto, using(parse_steps::proofs::Runs::behind_make, parse_steps::proofs::Runs::behind_after_is))]
fn name_behind_dot(forest: &mut Forest, line: &Line, rest: usize) -> Result<usize, Fault>
    ensures { Reads line.now (trees forest.old) (trees forest.new) result (both (token dot) (token name) (drop rest line.now)) }
{
    let _len = forest.len();
    let rest = skip(line, rest, DOT)?;
    skip(line, rest, NAME)
}

/// Names with dots between them.
#[tactic(auto, using(parse_steps::proofs::Runs::behind_make, parse_steps::proofs::Runs::behind_after_is), unfolding(py_grammar::specs::ReadingStatements::module_name_at))]
fn module_name(forest: &mut Forest, line: &Line, rest: usize) -> Result<usize, Fault>
    ensures { (self : Entry → LineReader) → Reads line.now (trees forest.old) (trees forest.new) result (spec.module_name_at self (drop rest line.now)) }
{
    let rest = skip(line, rest, NAME)?;
    again(
        &|wood: &mut Forest, rest: usize| name_behind_dot(wood, line, rest),
        0,
        Round::Name,
        forest,
        line,
        rest,
    )
}

/// A module, maybe with a name of its own.
#[tactic(auto, using(parse_steps::proofs::Runs::behind_make, parse_steps::proofs::Runs::behind_after_is), unfolding(crate::specs::Rounds::alias_at))]
fn alias(depth: u32, forest: &mut Forest, line: &Line, rest: usize) -> Result<usize, Fault>
    ensures { Reads line.now (trees forest.old) (trees forest.new) result (alias_at (phrase_at depth) (drop rest line.now)) }
{
    let _depth = depth;
    let start = rest;
    let mark = forest.len();
    let rest = module_name(forest, line, rest)?;
    let rest = maybe_as_name(forest, line, rest)?;
    let name = dotted_name(forest.alloc, line, start, rest)?;
    forest.reduce_named(Kind::Alias, name.as_str(), mark, line, start, rest)?;
    Ok(rest)
}

/// A comma and a module.
#[tactic(auto, using(parse_steps::proofs::Runs::behind_make, parse_steps::proofs::Runs::behind_after_is))]
fn alias_behind_comma(
    depth: u32,
    forest: &mut Forest,
    line: &Line,
    rest: usize,
) -> Result<usize, Fault>
    ensures { Reads line.now (trees forest.old) (trees forest.new) result (both (token comma) (alias_at (phrase_at depth)) (drop rest line.now)) }
{
    let rest = skip(line, rest, COMMA)?;
    alias(depth, forest, line, rest)
}

/// Modules with commas between them.
#[tactic(auto, using(parse_steps::proofs::Runs::behind_make, parse_steps::proofs::Runs::behind_after_is))]
fn aliases(depth: u32, forest: &mut Forest, line: &Line, rest: usize) -> Result<usize, Fault>
    ensures { Reads line.now (trees forest.old) (trees forest.new) result (joined_ (alias_at (phrase_at depth)) (drop rest line.now)) }
{
    let rest = alias(depth, forest, line, rest)?;
    again(
        &|wood: &mut Forest, rest: usize| alias_behind_comma(depth, wood, line, rest),
        depth,
        Round::Alias,
        forest,
        line,
        rest,
    )
}

/// Modules that are imported.
#[tactic(auto, using(parse_steps::proofs::Runs::behind_make, parse_steps::proofs::Runs::behind_after_is), unfolding(py_grammar::specs::ReadingStatements::import_at, crate::specs::Rounds::alias_at))]
pub fn import(depth: u32, forest: &mut Forest, line: &Line, rest: usize) -> Result<usize, Fault>
    ensures { Reads line.now (trees forest.old) (trees forest.new) result (spec.import_at (phrase_at depth) (drop rest line.now)) }
{
    let start = rest;
    let mark = forest.len();
    let rest = skip(line, rest, IMPORT_WORD)?;
    let rest = aliases(depth, forest, line, rest)?;
    forest.reduce(Kind::Import, mark, line, start, rest)?;
    Ok(rest)
}

/// A name that is imported, maybe with a name of its own.
#[tactic(auto, using(parse_steps::proofs::Runs::behind_make, parse_steps::proofs::Runs::behind_after_is), unfolding(py_grammar::specs::ReadingStatements::imported_name_at))]
fn imported_name(depth: u32, forest: &mut Forest, line: &Line, rest: usize) -> Result<usize, Fault>
    ensures { Reads line.now (trees forest.old) (trees forest.new) result (spec.imported_name_at (phrase_at depth) (drop rest line.now)) }
{
    let _depth = depth;
    let start = rest;
    let mark = forest.len();
    let rest = skip(line, rest, NAME)?;
    let rest = maybe_as_name(forest, line, rest)?;
    forest.reduce_named(
        Kind::Alias,
        line.first_text(start, rest),
        mark,
        line,
        start,
        rest,
    )?;
    Ok(rest)
}

/// A comma and a name.
#[tactic(auto, using(parse_steps::proofs::Runs::behind_make, parse_steps::proofs::Runs::behind_after_is))]
fn imported_name_behind_comma(
    depth: u32,
    forest: &mut Forest,
    line: &Line,
    rest: usize,
) -> Result<usize, Fault>
    ensures { Reads line.now (trees forest.old) (trees forest.new) result (both (token comma) (spec.imported_name_at (phrase_at depth)) (drop rest line.now)) }
{
    let rest = skip(line, rest, COMMA)?;
    imported_name(depth, forest, line, rest)
}

/// Names with commas between them.
#[tactic(auto, using(parse_steps::proofs::Runs::behind_make, parse_steps::proofs::Runs::behind_after_is))]
fn joined_names(depth: u32, forest: &mut Forest, line: &Line, rest: usize) -> Result<usize, Fault>
    ensures { Reads line.now (trees forest.old) (trees forest.new) result (joined_ (spec.imported_name_at (phrase_at depth)) (drop rest line.now)) }
{
    let rest = imported_name(depth, forest, line, rest)?;
    again(
        &|wood: &mut Forest, rest: usize| imported_name_behind_comma(depth, wood, line, rest),
        depth,
        Round::ImportedName,
        forest,
        line,
        rest,
    )
}

/// Names in round brackets.
#[tactic(auto, using(parse_steps::proofs::Runs::behind_make, parse_steps::proofs::Runs::behind_after_is))]
fn bracketed_names(
    depth: u32,
    forest: &mut Forest,
    line: &Line,
    rest: usize,
) -> Result<usize, Fault>
    ensures { Reads line.now (trees forest.old) (trees forest.new) result (parenthesized (commas name (spec.imported_name_at (phrase_at depth))) (drop rest line.now)) }
{
    let rest = skip(line, rest, LEFT_PAREN)?;
    let rest = list(
        &|wood: &mut Forest, rest: usize| imported_name(depth, wood, line, rest),
        depth,
        Part::ImportedName,
        forest,
        line,
        rest,
    )?;
    skip(line, rest, RIGHT_PAREN)
}

/// What is imported from a module.
#[tactic(auto, using(parse_steps::proofs::Runs::behind_make, parse_steps::proofs::Runs::behind_after_is), unfolding(py_grammar::specs::ReadingStatements::imported_names_at))]
fn imported_names(depth: u32, forest: &mut Forest, line: &Line, rest: usize) -> Result<usize, Fault>
    ensures { Reads line.now (trees forest.old) (trees forest.new) result (spec.imported_names_at (phrase_at depth) (drop rest line.now)) }
{
    if line.at(rest, STAR) {
        show_plain(forest, Kind::ImportWildcard, line, rest, STAR)
    } else if line.at(rest, NAME) {
        joined_names(depth, forest, line, rest)
    } else {
        bracketed_names(depth, forest, line, rest)
    }
}

/// Dots before the name of a module.
#[tactic(auto, using(parse_steps::proofs::Runs::behind_make, parse_steps::proofs::Runs::behind_after_is))]
fn dot(forest: &mut Forest, line: &Line, rest: usize) -> Result<usize, Fault>
    ensures { Reads line.now (trees forest.old) (trees forest.new) result (token dots (drop rest line.now)) }
{
    let _len = forest.len();
    skip(line, rest, DOTS)
}

/// More of them.
fn more_dots(forest: &mut Forest, line: &Line, rest: usize) -> Result<usize, Fault>
    ensures { Reads line.now (trees forest.old) (trees forest.new) result (many code dots (token dots) (drop rest line.now)) }
{
    again(
        &|wood: &mut Forest, rest: usize| dot(wood, line, rest),
        0,
        Round::Dots,
        forest,
        line,
        rest,
    )
}

/// The name of a module, or nothing.
#[tactic(auto, using(parse_steps::proofs::Runs::behind_make, parse_steps::proofs::Runs::behind_after_is))]
fn maybe_module_name(forest: &mut Forest, line: &Line, rest: usize) -> Result<usize, Fault>
    ensures { (self : Entry → LineReader) → Reads line.now (trees forest.old) (trees forest.new) result (optional code name (spec.module_name_at self) (drop rest line.now)) }
{
    if line.at(rest, NAME) {
        module_name(forest, line, rest)
    } else {
        Ok(rest)
    }
}

/// The module from which names are imported.
#[tactic(auto, using(parse_steps::proofs::Runs::behind_make, parse_steps::proofs::Runs::behind_after_is), unfolding(py_grammar::specs::ReadingStatements::source_at))]
fn source(forest: &mut Forest, line: &Line, rest: usize) -> Result<usize, Fault>
    ensures { (self : Entry → LineReader) → Reads line.now (trees forest.old) (trees forest.new) result (spec.source_at self (drop rest line.now)) }
{
    if line.at(rest, NAME) {
        return module_name(forest, line, rest);
    }
    let rest = skip(line, rest, DOTS)?;
    let rest = more_dots(forest, line, rest)?;
    maybe_module_name(forest, line, rest)
}

/// Names that are imported from a module.
#[tactic(auto, using(parse_steps::proofs::Runs::behind_make, parse_steps::proofs::Runs::behind_after_is), unfolding(py_grammar::specs::ReadingStatements::import_from_at))]
pub fn import_from(
    depth: u32,
    forest: &mut Forest,
    line: &Line,
    rest: usize,
) -> Result<usize, Fault>
    ensures { Reads line.now (trees forest.old) (trees forest.new) result (spec.import_from_at (phrase_at depth) (drop rest line.now)) }
{
    let start = rest;
    let mark = forest.len();
    let rest = skip(line, rest, FROM_WORD)?;
    let rest = source(forest, line, rest)?;
    let rest = skip(line, rest, IMPORT_WORD)?;
    let rest = imported_names(depth, forest, line, rest)?;
    let name = module_text(forest.alloc, line, start, rest)?;
    forest.reduce_named(Kind::ImportFrom, name.as_str(), mark, line, start, rest)?;
    Ok(rest)
}
