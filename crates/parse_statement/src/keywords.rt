// Statements that begin with a keyword.
ghost use Rattle.std.specs.Prelude.{drop};
ghost use Rattle.py_grammar.specs.Terminals.{code};
ghost use Rattle.py_grammar.specs.ReadingStatements as spec;
ghost use Rattle.py_grammar.specs.ReadingLines.{phrase_at};
ghost use Rattle.py_forest.specs.Forests.{trees};
ghost use Rattle.parse_steps.specs.Runs.{Reads, GivesPhrases};
ghost use Rattle.py_language.specs.Readers.{both, optional};
ghost use Rattle.py_grammar.specs.declared.entry.Entry.TheVariants as e;
ghost use Rattle.py_grammar.specs.Words.{comma};
ghost use Rattle.py_grammar.specs.Reading.{token};

use crate::declarations::declaration;
use crate::names::{import, import_from};
use crate::part::{Part, list};
use crate::raises::raise;
use crate::targets::{are_deletable, bind_all};
use crate::words::lone;
use parse_parts::{descend, maybe_sx};
use parse_steps::marks::{
    ASSERT_WORD, COMMA, DEL_WORD, IMPORT_WORD, LONE_WORD, RAISE_WORD, RETURN_WORD,
};
use parse_steps::skip;
use py_forest::{Fault, Forest};
use py_grammar::{Entry, Symbol};
use py_line::Line;
use tree_nodes::Kind;

/// `global` or `nonlocal`.
const DECLARATION_WORD: &[Symbol] = &[Symbol::GlobalWord, Symbol::NonlocalWord];

/// What a function gives.
#[tactic(auto, using(parse_steps::proofs::Runs::behind_make, parse_steps::proofs::Runs::behind_after_is), unfolding(py_grammar::specs::ReadingStatements::return_at))]
fn give_back<F: Fn(&mut Forest, Entry, usize) -> Result<usize, Fault>>(
    nested: &F,
    depth: u32,
    forest: &mut Forest,
    line: &Line,
    rest: usize,
) -> Result<usize, Fault>
    requires callable { F.IsAlwaysCallable nested.now }
    requires gives { GivesPhrases (F.post nested.now) line.now depth }
    ensures { Reads line.now (trees forest.old) (trees forest.new) result (spec.return_at (phrase_at depth) (drop rest line.now)) }
{
    let start = rest;
    let mark = forest.len();
    let rest = skip(line, rest, RETURN_WORD)?;
    let rest = maybe_sx(nested, depth, forest, line, rest)?;
    forest.reduce(Kind::Return, mark, line, start, rest)?;
    Ok(rest)
}

/// What is taken away.
#[tactic(auto, using(parse_steps::proofs::Runs::behind_make, parse_steps::proofs::Runs::behind_after_is, parse_steps::proofs::Runs::behind_filter), unfolding(py_grammar::specs::ReadingStatements::delete_at))]
fn delete<F: Fn(&mut Forest, Entry, usize) -> Result<usize, Fault>>(
    nested: &F,
    depth: u32,
    forest: &mut Forest,
    line: &Line,
    rest: usize,
) -> Result<usize, Fault>
    requires callable { F.IsAlwaysCallable nested.now }
    requires gives { GivesPhrases (F.post nested.now) line.now depth }
    ensures { Reads line.now (trees forest.old) (trees forest.new) result (spec.delete_at (phrase_at depth) (drop rest line.now)) }
{
    let start = rest;
    let mark = forest.len();
    let rest = skip(line, rest, DEL_WORD)?;
    let rest = list(
        &|wood: &mut Forest, rest: usize| descend(nested, depth, wood, Entry::BitOr, line, rest),
        depth,
        Part::Deleted,
        forest,
        line,
        rest,
    )?;
    if !are_deletable(forest, mark) {
        return Err(Fault::NoForm);
    }
    bind_all(forest, mark)?;
    forest.reduce(Kind::Delete, mark, line, start, rest)?;
    Ok(rest)
}

/// The message of an assertion.
#[tactic(auto, using(parse_steps::proofs::Runs::behind_make, parse_steps::proofs::Runs::behind_after_is))]
fn message<F: Fn(&mut Forest, Entry, usize) -> Result<usize, Fault>>(
    nested: &F,
    depth: u32,
    forest: &mut Forest,
    line: &Line,
    rest: usize,
) -> Result<usize, Fault>
    requires callable { F.IsAlwaysCallable nested.now }
    requires gives { GivesPhrases (F.post nested.now) line.now depth }
    ensures { Reads line.now (trees forest.old) (trees forest.new) result (both (token comma) (phrase_at depth e.Test) (drop rest line.now)) }
{
    let rest = skip(line, rest, COMMA)?;
    descend(nested, depth, forest, Entry::Test, line, rest)
}

/// The message, or nothing.
#[tactic(auto, using(parse_steps::proofs::Runs::behind_make, parse_steps::proofs::Runs::behind_after_is))]
fn maybe_message<F: Fn(&mut Forest, Entry, usize) -> Result<usize, Fault>>(
    nested: &F,
    depth: u32,
    forest: &mut Forest,
    line: &Line,
    rest: usize,
) -> Result<usize, Fault>
    requires callable { F.IsAlwaysCallable nested.now }
    requires gives { GivesPhrases (F.post nested.now) line.now depth }
    ensures { Reads line.now (trees forest.old) (trees forest.new) result (optional code comma (both (token comma) (phrase_at depth e.Test)) (drop rest line.now)) }
{
    if line.at(rest, COMMA) {
        message(nested, depth, forest, line, rest)
    } else {
        Ok(rest)
    }
}

/// What must hold.
#[tactic(auto, using(parse_steps::proofs::Runs::behind_make, parse_steps::proofs::Runs::behind_after_is), unfolding(py_grammar::specs::ReadingStatements::assert_at))]
fn assertion<F: Fn(&mut Forest, Entry, usize) -> Result<usize, Fault>>(
    nested: &F,
    depth: u32,
    forest: &mut Forest,
    line: &Line,
    rest: usize,
) -> Result<usize, Fault>
    requires callable { F.IsAlwaysCallable nested.now }
    requires gives { GivesPhrases (F.post nested.now) line.now depth }
    ensures { Reads line.now (trees forest.old) (trees forest.new) result (spec.assert_at (phrase_at depth) (drop rest line.now)) }
{
    let start = rest;
    let mark = forest.len();
    let rest = skip(line, rest, ASSERT_WORD)?;
    let rest = descend(nested, depth, forest, Entry::Test, line, rest)?;
    let rest = maybe_message(nested, depth, forest, line, rest)?;
    forest.reduce(Kind::Assert, mark, line, start, rest)?;
    Ok(rest)
}

/// A statement that begins with a keyword.
#[tactic(auto, using(parse_steps::proofs::Runs::behind_make, parse_steps::proofs::Runs::behind_after_is), unfolding(py_grammar::specs::ReadingStatements::keyword_statement_at))]
pub fn keyword_statement<F: Fn(&mut Forest, Entry, usize) -> Result<usize, Fault>>(
    nested: &F,
    depth: u32,
    forest: &mut Forest,
    line: &Line,
    rest: usize,
) -> Result<usize, Fault>
    requires callable { F.IsAlwaysCallable nested.now }
    requires gives { GivesPhrases (F.post nested.now) line.now depth }
    ensures { Reads line.now (trees forest.old) (trees forest.new) result (spec.keyword_statement_at (phrase_at depth) (drop rest line.now)) }
{
    if line.at(rest, LONE_WORD) {
        lone(forest, line, rest)
    } else if line.at(rest, RETURN_WORD) {
        give_back(nested, depth, forest, line, rest)
    } else if line.at(rest, RAISE_WORD) {
        raise(nested, depth, forest, line, rest)
    } else if line.at(rest, DECLARATION_WORD) {
        declaration(forest, line, rest)
    } else if line.at(rest, DEL_WORD) {
        delete(nested, depth, forest, line, rest)
    } else if line.at(rest, ASSERT_WORD) {
        assertion(nested, depth, forest, line, rest)
    } else if line.at(rest, IMPORT_WORD) {
        import(depth, forest, line, rest)
    } else {
        import_from(depth, forest, line, rest)
    }
}
