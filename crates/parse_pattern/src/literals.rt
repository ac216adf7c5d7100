// Literals as patterns.
ghost use Rattle.std.specs.Prelude.{◌≡◌, ℕ, ◌++◌, ◌∷◌, [], List, length, ◌≤◌, drop};
ghost use Rattle.tree_nodes.specs.Trees.{Tree};
ghost use Rattle.py_grammar.specs.Terminals.{code, Terminal};
ghost use Rattle.py_grammar.specs.Reading.{LineReader};
ghost use Rattle.py_grammar.specs.ReadingPatterns as spec;
ghost use Rattle.py_grammar.specs.ReadingLines.{phrase_at};
ghost use Rattle.py_forest.specs.Forests.{trees};
ghost use Rattle.parse_steps.specs.Runs.{Reads, GivesPhrases};
ghost use Rattle.std.specs.Prelude.{false, true, ◌&&◌, if◌then◌else◌};
ghost use Rattle.py_language.specs.Readers.{before, where_};
ghost use Rattle.py_grammar.specs.Nodes.{last_text};
ghost use Rattle.py_grammar.specs.Patterns.{is_imaginary_text, is_unformatted as is_unformatted_spec};
ghost use Rattle.py_grammar.specs.Reading.{strings_at};

use crate::orders::is_unformatted;
use parse_steps::marks::{CONSTANT_WORD, MINUS, NUMBER, SIGNED_FIRST, STRINGS_FIRST, SUM_OPERATOR};
use parse_steps::{show_atom, show_operator, skip};
use parse_strings::strings;
use py_forest::{Fault, Forest};
use py_grammar::Entry;
use py_line::Line;
use tree_nodes::Kind;

/// A number, maybe behind a minus.
#[tactic(auto, using(parse_steps::proofs::Runs::behind_make, parse_steps::proofs::Runs::behind_after_is), unfolding(py_grammar::specs::ReadingPatterns::signed_number_at))]
fn signed_number(forest: &mut Forest, line: &Line, rest: usize) -> Result<usize, Fault>
    ensures { (self : Entry → LineReader) → Reads line.now (trees forest.old) (trees forest.new) result (spec.signed_number_at self (drop rest line.now)) }
{
    if line.at(rest, NUMBER) {
        return show_atom(forest, line, rest, NUMBER);
    }
    let start = rest;
    let mark = forest.len();
    let rest = skip(line, rest, MINUS)?;
    let rest = show_atom(forest, line, rest, NUMBER)?;
    forest.reduce(Kind::UnaryMinus, mark, line, start, rest)?;
    Ok(rest)
}

/// Whether a number is imaginary.
fn is_imaginary(text: &str) -> bool
    ensures { result ≡ is_imaginary_text text.now }
{
    let digits = text.as_bytes();
    let last = match digits.len() {
        0 => 0,
        count => digits[count - 1],
    };
    last == b'j' || last == b'J'
}

/// Whether the number from `start` up to `real` is a real one, and that from `place` up to `rest` an imaginary one.
fn is_complex(line: &Line, start: usize, real: usize, place: usize, rest: usize) -> bool
    ensures { result ≡ ((if is_imaginary_text (last_text (before (drop start line.now) (drop real line.now))) then false else true) && is_imaginary_text (last_text (before (drop place line.now) (drop rest line.now)))) }
{
    !is_imaginary(line.last_text(start, real)) && is_imaginary(line.last_text(place, rest))
}

/// A number, or a real one, a sign and an imaginary one.
#[tactic(auto, unfolding(py_grammar::specs::ReadingPatterns::number_pattern_at))]
fn number_pattern(forest: &mut Forest, line: &Line, rest: usize) -> Result<usize, Fault>
    ensures { (self : Entry → LineReader) → Reads line.now (trees forest.old) (trees forest.new) result (spec.number_pattern_at self (drop rest line.now)) }
{
    let start = rest;
    let mark = forest.len();
    let real = signed_number(forest, line, rest)?;
    if !line.at(real, SUM_OPERATOR) {
        return Ok(real);
    }
    let place = show_operator(forest, line, real, SUM_OPERATOR)?;
    let rest = show_atom(forest, line, place, NUMBER)?;
    if !is_complex(line, start, real, place, rest) {
        return Err(Fault::NoForm);
    }
    forest.row(Kind::Sum, mark, line, start, rest)?;
    Ok(rest)
}

/// Strings without f.
#[tactic(auto, using(parse_steps::proofs::Runs::behind_make, parse_steps::proofs::Runs::behind_after_is, parse_steps::proofs::Runs::behind_filter))]
fn unformatted_strings<F: Fn(&mut Forest, Entry, usize) -> Result<usize, Fault>>(
    nested: &F,
    depth: u32,
    forest: &mut Forest,
    line: &Line,
    rest: usize,
) -> Result<usize, Fault>
    requires callable { F.IsAlwaysCallable nested.now }
    requires gives { GivesPhrases (F.post nested.now) line.now depth }
    ensures { Reads line.now (trees forest.old) (trees forest.new) result (where_ is_unformatted_spec (strings_at (phrase_at depth)) (drop rest line.now)) }
{
    let mark = forest.len();
    let rest = strings(nested, depth, forest, line, rest)?;
    if !is_unformatted(forest, mark) {
        return Err(Fault::NoForm);
    }
    Ok(rest)
}

/// A number, strings without f, `None`, `True` or `False`.
#[tactic(auto, using(parse_steps::proofs::Runs::behind_make, parse_steps::proofs::Runs::behind_after_is), unfolding(py_grammar::specs::ReadingPatterns::literal_at))]
pub fn literal<F: Fn(&mut Forest, Entry, usize) -> Result<usize, Fault>>(
    nested: &F,
    depth: u32,
    forest: &mut Forest,
    line: &Line,
    rest: usize,
) -> Result<usize, Fault>
    requires callable { F.IsAlwaysCallable nested.now }
    requires gives { GivesPhrases (F.post nested.now) line.now depth }
    ensures { Reads line.now (trees forest.old) (trees forest.new) result (spec.literal_at (phrase_at depth) (drop rest line.now)) }
{
    if line.at(rest, SIGNED_FIRST) {
        number_pattern(forest, line, rest)
    } else if line.at(rest, STRINGS_FIRST) {
        unformatted_strings(nested, depth, forest, line, rest)
    } else {
        show_atom(forest, line, rest, CONSTANT_WORD)
    }
}
