// Displays: what brackets hold.
ghost use Rattle.std.specs.Prelude.{drop};
ghost use Rattle.py_grammar.specs.Terminals.{code};
ghost use Rattle.py_grammar.specs.Reading as spec;
ghost use Rattle.py_grammar.specs.ReadingLines.{phrase_at};
ghost use Rattle.py_forest.specs.Forests.{trees};
ghost use Rattle.parse_steps.specs.Runs.{Reads, GivesPhrases};
ghost use Rattle.py_language.specs.Readers.{optional};
ghost use Rattle.py_grammar.specs.Firsts.{brace_first, clause_or_comma, element_first, value_first};
ghost use Rattle.parse_displays.specs.Insides.{in_round_at, in_square_at, in_brace_at};

use crate::comprehensions::clauses;
use parse_parts::{
    Part, comma_rest, item_or_named, maybe_comma_rest, named, star, unpacked, yield_,
};
use parse_steps::marks::{
    BRACE_FIRST, CLAUSE_FIRST, CLAUSE_OR_COMMA, COLON, DOUBLE_STAR, ELEMENT_FIRST, LEFT_BRACE,
    LEFT_BRACKET, LEFT_PAREN, NAME, RIGHT_BRACE, RIGHT_BRACKET, RIGHT_PAREN, STAR, UNPACKED_FIRST,
    VALUE_FIRST, WALRUS, YIELD_WORD,
};
use parse_steps::skip;
use py_forest::{Fault, Forest};
use py_grammar::Entry;
use py_line::Line;
use tree_nodes::Kind;

/// Clauses, or a comma and more elements.
#[tactic(auto, unfolding(py_grammar::specs::Reading::more_elements_at))]
fn more_elements<F: Fn(&mut Forest, Entry, usize) -> Result<usize, Fault>>(
    nested: &F,
    depth: u32,
    forest: &mut Forest,
    line: &Line,
    rest: usize,
) -> Result<usize, Fault>
    requires callable { F.IsAlwaysCallable nested.now }
    requires gives { GivesPhrases (F.post nested.now) line.now depth }
    ensures { Reads line.now (trees forest.old) (trees forest.new) result (spec.more_elements_at (phrase_at depth) (drop rest line.now)) }
{
    if line.at(rest, CLAUSE_FIRST) {
        clauses(nested, depth, forest, line, rest)
    } else {
        comma_rest(nested, depth, forest, Part::Element, line, rest)
    }
}

/// Clauses, or a comma and more elements, or nothing.
#[tactic(auto, using(parse_steps::proofs::Runs::behind_make, parse_steps::proofs::Runs::behind_after_is))]
fn maybe_more_elements<F: Fn(&mut Forest, Entry, usize) -> Result<usize, Fault>>(
    nested: &F,
    depth: u32,
    forest: &mut Forest,
    line: &Line,
    rest: usize,
) -> Result<usize, Fault>
    requires callable { F.IsAlwaysCallable nested.now }
    requires gives { GivesPhrases (F.post nested.now) line.now depth }
    ensures { Reads line.now (trees forest.old) (trees forest.new) result (optional code clause_or_comma (spec.more_elements_at (phrase_at depth)) (drop rest line.now)) }
{
    if line.at(rest, CLAUSE_OR_COMMA) {
        more_elements(nested, depth, forest, line, rest)
    } else {
        Ok(rest)
    }
}

/// What round brackets hold.
#[tactic(auto, using(parse_steps::proofs::Runs::behind_make, parse_steps::proofs::Runs::behind_after_is))]
fn in_round<F: Fn(&mut Forest, Entry, usize) -> Result<usize, Fault>>(
    nested: &F,
    depth: u32,
    forest: &mut Forest,
    line: &Line,
    rest: usize,
) -> Result<usize, Fault>
    requires callable { F.IsAlwaysCallable nested.now }
    requires gives { GivesPhrases (F.post nested.now) line.now depth }
    ensures { Reads line.now (trees forest.old) (trees forest.new) result (in_round_at (phrase_at depth) (drop rest line.now)) }
{
    if line.at(rest, YIELD_WORD) {
        yield_(nested, depth, forest, line, rest)
    } else if line.at(rest, STAR) {
        let rest = star(nested, depth, forest, line, rest)?;
        comma_rest(nested, depth, forest, Part::Element, line, rest)
    } else {
        let rest = named(nested, depth, forest, line, rest)?;
        maybe_more_elements(nested, depth, forest, line, rest)
    }
}

/// What round brackets hold, or nothing.
#[tactic(auto, using(parse_steps::proofs::Runs::behind_make, parse_steps::proofs::Runs::behind_after_is))]
fn maybe_in_round<F: Fn(&mut Forest, Entry, usize) -> Result<usize, Fault>>(
    nested: &F,
    depth: u32,
    forest: &mut Forest,
    line: &Line,
    rest: usize,
) -> Result<usize, Fault>
    requires callable { F.IsAlwaysCallable nested.now }
    requires gives { GivesPhrases (F.post nested.now) line.now depth }
    ensures { Reads line.now (trees forest.old) (trees forest.new) result (optional code value_first (in_round_at (phrase_at depth)) (drop rest line.now)) }
{
    if line.at(rest, VALUE_FIRST) {
        in_round(nested, depth, forest, line, rest)
    } else {
        Ok(rest)
    }
}

/// Round brackets, with what they hold.
#[tactic(auto, using(parse_steps::proofs::Runs::behind_make, parse_steps::proofs::Runs::behind_after_is), unfolding(py_grammar::specs::Reading::parenthesized_at))]
pub fn parenthesized<F: Fn(&mut Forest, Entry, usize) -> Result<usize, Fault>>(
    nested: &F,
    depth: u32,
    forest: &mut Forest,
    line: &Line,
    rest: usize,
) -> Result<usize, Fault>
    requires callable { F.IsAlwaysCallable nested.now }
    requires gives { GivesPhrases (F.post nested.now) line.now depth }
    ensures { Reads line.now (trees forest.old) (trees forest.new) result (spec.parenthesized_at (phrase_at depth) (drop rest line.now)) }
{
    let start = rest;
    let mark = forest.len();
    let rest = skip(line, rest, LEFT_PAREN)?;
    let rest = maybe_in_round(nested, depth, forest, line, rest)?;
    let rest = skip(line, rest, RIGHT_PAREN)?;
    forest.in_parentheses(mark, line, start, rest)?;
    Ok(rest)
}

/// What square brackets hold.
#[tactic(auto, using(parse_steps::proofs::Runs::behind_make, parse_steps::proofs::Runs::behind_after_is))]
fn in_square<F: Fn(&mut Forest, Entry, usize) -> Result<usize, Fault>>(
    nested: &F,
    depth: u32,
    forest: &mut Forest,
    line: &Line,
    rest: usize,
) -> Result<usize, Fault>
    requires callable { F.IsAlwaysCallable nested.now }
    requires gives { GivesPhrases (F.post nested.now) line.now depth }
    ensures { Reads line.now (trees forest.old) (trees forest.new) result (in_square_at (phrase_at depth) (drop rest line.now)) }
{
    if line.at(rest, STAR) {
        let rest = star(nested, depth, forest, line, rest)?;
        maybe_comma_rest(nested, depth, forest, Part::Element, line, rest)
    } else {
        let rest = named(nested, depth, forest, line, rest)?;
        maybe_more_elements(nested, depth, forest, line, rest)
    }
}

/// What square brackets hold, or nothing.
#[tactic(auto, using(parse_steps::proofs::Runs::behind_make, parse_steps::proofs::Runs::behind_after_is))]
fn maybe_in_square<F: Fn(&mut Forest, Entry, usize) -> Result<usize, Fault>>(
    nested: &F,
    depth: u32,
    forest: &mut Forest,
    line: &Line,
    rest: usize,
) -> Result<usize, Fault>
    requires callable { F.IsAlwaysCallable nested.now }
    requires gives { GivesPhrases (F.post nested.now) line.now depth }
    ensures { Reads line.now (trees forest.old) (trees forest.new) result (optional code element_first (in_square_at (phrase_at depth)) (drop rest line.now)) }
{
    if line.at(rest, ELEMENT_FIRST) {
        in_square(nested, depth, forest, line, rest)
    } else {
        Ok(rest)
    }
}

/// Square brackets, with what they hold.
#[tactic(auto, using(parse_steps::proofs::Runs::behind_make, parse_steps::proofs::Runs::behind_after_is), unfolding(py_grammar::specs::Reading::list_display_at))]
pub fn list_display<F: Fn(&mut Forest, Entry, usize) -> Result<usize, Fault>>(
    nested: &F,
    depth: u32,
    forest: &mut Forest,
    line: &Line,
    rest: usize,
) -> Result<usize, Fault>
    requires callable { F.IsAlwaysCallable nested.now }
    requires gives { GivesPhrases (F.post nested.now) line.now depth }
    ensures { Reads line.now (trees forest.old) (trees forest.new) result (spec.list_display_at (phrase_at depth) (drop rest line.now)) }
{
    let start = rest;
    let mark = forest.len();
    let rest = skip(line, rest, LEFT_BRACKET)?;
    let rest = maybe_in_square(nested, depth, forest, line, rest)?;
    let rest = skip(line, rest, RIGHT_BRACKET)?;
    forest.in_brackets(mark, line, start, rest)?;
    Ok(rest)
}

/// Clauses, or a comma and more entries.
#[tactic(auto, unfolding(py_grammar::specs::Reading::more_entries_at))]
fn more_entries<F: Fn(&mut Forest, Entry, usize) -> Result<usize, Fault>>(
    nested: &F,
    depth: u32,
    forest: &mut Forest,
    line: &Line,
    rest: usize,
) -> Result<usize, Fault>
    requires callable { F.IsAlwaysCallable nested.now }
    requires gives { GivesPhrases (F.post nested.now) line.now depth }
    ensures { Reads line.now (trees forest.old) (trees forest.new) result (spec.more_entries_at (phrase_at depth) (drop rest line.now)) }
{
    if line.at(rest, CLAUSE_FIRST) {
        clauses(nested, depth, forest, line, rest)
    } else {
        comma_rest(nested, depth, forest, Part::BraceEntry, line, rest)
    }
}

/// Clauses, or a comma and more entries, or nothing.
#[tactic(auto, using(parse_steps::proofs::Runs::behind_make, parse_steps::proofs::Runs::behind_after_is))]
fn maybe_more_entries<F: Fn(&mut Forest, Entry, usize) -> Result<usize, Fault>>(
    nested: &F,
    depth: u32,
    forest: &mut Forest,
    line: &Line,
    rest: usize,
) -> Result<usize, Fault>
    requires callable { F.IsAlwaysCallable nested.now }
    requires gives { GivesPhrases (F.post nested.now) line.now depth }
    ensures { Reads line.now (trees forest.old) (trees forest.new) result (optional code clause_or_comma (spec.more_entries_at (phrase_at depth)) (drop rest line.now)) }
{
    if line.at(rest, CLAUSE_OR_COMMA) {
        more_entries(nested, depth, forest, line, rest)
    } else {
        Ok(rest)
    }
}

/// What braces hold.
#[tactic(auto, using(parse_steps::proofs::Runs::behind_make, parse_steps::proofs::Runs::behind_after_is))]
fn in_brace<F: Fn(&mut Forest, Entry, usize) -> Result<usize, Fault>>(
    nested: &F,
    depth: u32,
    forest: &mut Forest,
    line: &Line,
    rest: usize,
) -> Result<usize, Fault>
    requires callable { F.IsAlwaysCallable nested.now }
    requires gives { GivesPhrases (F.post nested.now) line.now depth }
    ensures { Reads line.now (trees forest.old) (trees forest.new) result (in_brace_at (phrase_at depth) (drop rest line.now)) }
{
    if line.at(rest, UNPACKED_FIRST) {
        let rest = unpacked(nested, depth, forest, line, rest)?;
        maybe_comma_rest(nested, depth, forest, Part::BraceEntry, line, rest)
    } else {
        let rest = item_or_named(nested, depth, forest, line, rest)?;
        maybe_more_entries(nested, depth, forest, line, rest)
    }
}

/// What braces hold, or nothing.
#[tactic(auto, using(parse_steps::proofs::Runs::behind_make, parse_steps::proofs::Runs::behind_after_is))]
fn maybe_in_brace<F: Fn(&mut Forest, Entry, usize) -> Result<usize, Fault>>(
    nested: &F,
    depth: u32,
    forest: &mut Forest,
    line: &Line,
    rest: usize,
) -> Result<usize, Fault>
    requires callable { F.IsAlwaysCallable nested.now }
    requires gives { GivesPhrases (F.post nested.now) line.now depth }
    ensures { Reads line.now (trees forest.old) (trees forest.new) result (optional code brace_first (in_brace_at (phrase_at depth)) (drop rest line.now)) }
{
    if line.at(rest, BRACE_FIRST) {
        in_brace(nested, depth, forest, line, rest)
    } else {
        Ok(rest)
    }
}

/// Braces, with what they hold.
#[tactic(auto, using(parse_steps::proofs::Runs::behind_make, parse_steps::proofs::Runs::behind_after_is, parse_steps::proofs::Runs::behind_filter), unfolding(py_grammar::specs::Reading::brace_display_at))]
pub fn brace_display<F: Fn(&mut Forest, Entry, usize) -> Result<usize, Fault>>(
    nested: &F,
    depth: u32,
    forest: &mut Forest,
    line: &Line,
    rest: usize,
) -> Result<usize, Fault>
    requires callable { F.IsAlwaysCallable nested.now }
    requires gives { GivesPhrases (F.post nested.now) line.now depth }
    ensures { Reads line.now (trees forest.old) (trees forest.new) result (spec.brace_display_at (phrase_at depth) (drop rest line.now)) }
{
    let start = rest;
    let mark = forest.len();
    let rest = skip(line, rest, LEFT_BRACE)?;
    let rest = maybe_in_brace(nested, depth, forest, line, rest)?;
    let rest = skip(line, rest, RIGHT_BRACE)?;
    if !forest.are_alike(mark) {
        return Err(Fault::NoForm);
    }
    forest.in_braces(mark, line, start, rest)?;
    Ok(rest)
}
