// How deep and how long expressions may be: chains and nestings, read over a knot of the tests' own.
ghost use Rattle.std.specs.Prelude.{◌≡◌, ℕ, List, drop};
ghost use Rattle.py_grammar.specs.ReadingLines.{phrase_at, reader_of};
ghost use Rattle.py_forest.specs.Forests.{trees};
ghost use Rattle.parse_steps.specs.Runs.{Reads, GivesPhrases};

use crate::{bit_or, factor, not, or, test};
use lint_values::Pos;
use py_forest::{Fault, Forest};
use py_grammar::{Entry, Symbol};
use py_line::Line;
use std::alloc::Global;
use std::process::Abort;
use std::test::Fail;

/// A phrase by its entry. No pattern stands in an expression.
#[tactic(auto, unfolding(py_grammar::specs::ReadingLines::reader_of))]
fn entry_of<F: Fn(&mut Forest, Entry, usize) -> Result<usize, Fault>>(
    nested: &F,
    depth: u32,
    forest: &mut Forest,
    entry: Entry,
    line: &Line,
    rest: usize,
) -> Result<usize, Fault>
    requires callable { F.IsAlwaysCallable nested.now }
    requires gives { GivesPhrases (F.post nested.now) line.now depth }
    ensures { Reads line.now (trees forest.old) (trees forest.new) result (reader_of (phrase_at depth) entry (drop rest line.now)) }
{
    match entry {
        Entry::Test => test(nested, depth, forest, line, rest),
        Entry::Or => or(nested, depth, forest, line, rest),
        Entry::Not => not(nested, depth, forest, line, rest),
        Entry::BitOr => bit_or(nested, depth, forest, line, rest),
        Entry::Factor => factor(nested, depth, forest, line, rest),
        Entry::Pattern => Err(Fault::Memory),
    }
}

/// A phrase that leads back at most `depth` times, one within the other.
#[tactic(auto, using(crate::proofs::Deep::phrase_deep, crate::proofs::Deep::phrase_none))]
fn phrase(
    forest: &mut Forest,
    depth: u32,
    entry: Entry,
    line: &Line,
    rest: usize,
) -> Result<usize, Fault>
    ensures { Reads line.now (trees forest.old) (trees forest.new) result (phrase_at depth entry (drop rest line.now)) }
{
    if depth == 0 {
        return Err(Fault::NoForm);
    }
    let left = depth - 1;
    entry_of(
        &|wood: &mut Forest, entry: Entry, rest: usize| -> Result<usize, Fault>
            ensures { Reads line.entry.now (trees wood.old) (trees wood.new) result (phrase_at left entry (drop rest line.entry.now)) }
        { phrase(wood, left, entry, line, rest) },
        left,
        forest,
        entry,
        line,
        rest,
    )
}

/// Adds a symbol so many times.
fn add(line: &mut Line, times: usize, symbol: Symbol) -> Result<(), Fail> {
    for _ in 0..times {
        line.push(symbol, Pos { line: 1, col: 0 }, 1, "x")?;
    }
    Ok(())
}

/// How many symbols of a line are read as a test, with so many descents.
fn read(alloc: Global, line: &Line, depth: u32) -> Option<usize> {
    let mut forest = Forest::new(alloc);
    phrase(&mut forest, depth, Entry::Test, line, 0).ok()
}

#[test]
fn long_chains_are_read(rt: HostRuntime) -> Result<(), Fail> {
    let alloc = rt.alloc();
    let mut line = Line::new(alloc);
    for _ in 0..9_999 {
        add(&mut line, 1, Symbol::Number)?;
        add(&mut line, 1, Symbol::Plus)?;
    }
    add(&mut line, 1, Symbol::Number)?;
    assert_eq!(rt; read(alloc, &line, 1), Some(19_999));
    Ok(())
}

#[test]
fn nested_words_are_read(rt: HostRuntime) -> Result<(), Fail> {
    let alloc = rt.alloc();
    let mut line = Line::new(alloc);
    add(&mut line, 199, Symbol::NotWord)?;
    add(&mut line, 1, Symbol::Name)?;
    assert_eq!(rt; read(alloc, &line, 200), Some(200));
    assert_eq!(rt; read(alloc, &line, 199), None);
    Ok(())
}

#[test]
fn nested_brackets_are_read(rt: HostRuntime) -> Result<(), Fail> {
    let alloc = rt.alloc();
    let mut line = Line::new(alloc);
    add(&mut line, 200, Symbol::LeftParen)?;
    add(&mut line, 200, Symbol::NotWord)?;
    add(&mut line, 1, Symbol::Name)?;
    add(&mut line, 200, Symbol::RightParen)?;
    assert_eq!(rt; read(alloc, &line, 401), Some(601));
    Ok(())
}
