// Headers of loops and of what catches, and decorators.
ghost use Rattle.std.specs.Prelude.{drop};
ghost use Rattle.py_grammar.specs.Terminals.{code};
ghost use Rattle.py_grammar.specs.ReadingHeaders as spec;
ghost use Rattle.py_grammar.specs.ReadingLines.{phrase_at};
ghost use Rattle.py_forest.specs.Forests.{trees};
ghost use Rattle.parse_steps.specs.Runs.{Reads, GivesPhrases};
ghost use Rattle.py_language.specs.Readers.{both, optional};
ghost use Rattle.py_grammar.specs.declared.entry.Entry.TheVariants as e;
ghost use Rattle.py_grammar.specs.Words.{as_word};
ghost use Rattle.py_grammar.specs.Firsts.{test_first};
ghost use Rattle.py_grammar.specs.ReadingStatements.{as_name_at};

use parse_displays::targets;
use parse_parts::{descend, named, sx};
use parse_statement::maybe_as_name;
use parse_steps::marks::{AT_SIGN, EXCEPT_WORD, FOR_WORD, IN_WORD, STAR, TEST_FIRST};
use parse_steps::skip;
use py_forest::{Fault, Forest};
use py_grammar::Entry;
use py_line::Line;
use tree_nodes::Kind;

/// `for`, what it binds, and over what it goes.
#[tactic(auto, using(parse_steps::proofs::Runs::behind_make, parse_steps::proofs::Runs::behind_after_is), unfolding(py_grammar::specs::ReadingHeaders::for_header_at))]
pub fn for_header<F: Fn(&mut Forest, Entry, usize) -> Result<usize, Fault>>(
    nested: &F,
    depth: u32,
    forest: &mut Forest,
    line: &Line,
    rest: usize,
) -> Result<usize, Fault>
    requires callable { F.IsAlwaysCallable nested.now }
    requires gives { GivesPhrases (F.post nested.now) line.now depth }
    ensures { Reads line.now (trees forest.old) (trees forest.new) result (spec.for_header_at (phrase_at depth) (drop rest line.now)) }
{
    let rest = skip(line, rest, FOR_WORD)?;
    let rest = targets(nested, depth, forest, line, rest)?;
    let rest = skip(line, rest, IN_WORD)?;
    sx(nested, depth, forest, line, rest)
}

/// What is caught, maybe with a name.
#[tactic(auto, using(parse_steps::proofs::Runs::behind_make, parse_steps::proofs::Runs::behind_after_is))]
fn caught<F: Fn(&mut Forest, Entry, usize) -> Result<usize, Fault>>(
    nested: &F,
    depth: u32,
    forest: &mut Forest,
    line: &Line,
    rest: usize,
) -> Result<usize, Fault>
    requires callable { F.IsAlwaysCallable nested.now }
    requires gives { GivesPhrases (F.post nested.now) line.now depth }
    ensures { Reads line.now (trees forest.old) (trees forest.new) result (both (phrase_at depth e.Test) (optional code as_word (as_name_at (phrase_at depth))) (drop rest line.now)) }
{
    let rest = descend(nested, depth, forest, Entry::Test, line, rest)?;
    maybe_as_name(forest, line, rest)
}

/// The same, or nothing.
#[tactic(auto, using(parse_steps::proofs::Runs::behind_make, parse_steps::proofs::Runs::behind_after_is))]
fn maybe_caught<F: Fn(&mut Forest, Entry, usize) -> Result<usize, Fault>>(
    nested: &F,
    depth: u32,
    forest: &mut Forest,
    line: &Line,
    rest: usize,
) -> Result<usize, Fault>
    requires callable { F.IsAlwaysCallable nested.now }
    requires gives { GivesPhrases (F.post nested.now) line.now depth }
    ensures { Reads line.now (trees forest.old) (trees forest.new) result (optional code test_first (both (phrase_at depth e.Test) (optional code as_word (as_name_at (phrase_at depth)))) (drop rest line.now)) }
{
    if line.at(rest, TEST_FIRST) {
        caught(nested, depth, forest, line, rest)
    } else {
        Ok(rest)
    }
}

/// `except` and what is caught.
#[tactic(auto, using(parse_steps::proofs::Runs::behind_make, parse_steps::proofs::Runs::behind_after_is), unfolding(py_grammar::specs::ReadingHeaders::except_header_at))]
pub fn except_header<F: Fn(&mut Forest, Entry, usize) -> Result<usize, Fault>>(
    nested: &F,
    depth: u32,
    forest: &mut Forest,
    line: &Line,
    rest: usize,
) -> Result<usize, Fault>
    requires callable { F.IsAlwaysCallable nested.now }
    requires gives { GivesPhrases (F.post nested.now) line.now depth }
    ensures { Reads line.now (trees forest.old) (trees forest.new) result (spec.except_header_at (phrase_at depth) (drop rest line.now)) }
{
    let rest = skip(line, rest, EXCEPT_WORD)?;
    maybe_caught(nested, depth, forest, line, rest)
}

/// `except*` and what is caught.
#[tactic(auto, using(parse_steps::proofs::Runs::behind_make, parse_steps::proofs::Runs::behind_after_is), unfolding(py_grammar::specs::ReadingHeaders::except_star_header_at))]
pub fn except_star_header<F: Fn(&mut Forest, Entry, usize) -> Result<usize, Fault>>(
    nested: &F,
    depth: u32,
    forest: &mut Forest,
    line: &Line,
    rest: usize,
) -> Result<usize, Fault>
    requires callable { F.IsAlwaysCallable nested.now }
    requires gives { GivesPhrases (F.post nested.now) line.now depth }
    ensures { Reads line.now (trees forest.old) (trees forest.new) result (spec.except_star_header_at (phrase_at depth) (drop rest line.now)) }
{
    let rest = skip(line, rest, EXCEPT_WORD)?;
    let rest = skip(line, rest, STAR)?;
    caught(nested, depth, forest, line, rest)
}

/// `@` and what decorates.
#[tactic(auto, using(parse_steps::proofs::Runs::behind_make, parse_steps::proofs::Runs::behind_after_is), unfolding(py_grammar::specs::ReadingHeaders::decorator_line_at))]
pub fn decorator_line<F: Fn(&mut Forest, Entry, usize) -> Result<usize, Fault>>(
    nested: &F,
    depth: u32,
    forest: &mut Forest,
    line: &Line,
    rest: usize,
) -> Result<usize, Fault>
    requires callable { F.IsAlwaysCallable nested.now }
    requires gives { GivesPhrases (F.post nested.now) line.now depth }
    ensures { Reads line.now (trees forest.old) (trees forest.new) result (spec.decorator_line_at (phrase_at depth) (drop rest line.now)) }
{
    let start = rest;
    let mark = forest.len();
    let rest = skip(line, rest, AT_SIGN)?;
    let rest = named(nested, depth, forest, line, rest)?;
    forest.reduce(Kind::Decorator, mark, line, start, rest)?;
    Ok(rest)
}
