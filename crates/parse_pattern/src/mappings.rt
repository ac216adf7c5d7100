// Patterns for mappings.
ghost use Rattle.std.specs.Prelude.{◌≡◌, ℕ, ◌++◌, ◌∷◌, [], List, length, ◌≤◌, drop};
ghost use Rattle.tree_nodes.specs.Trees.{Tree};
ghost use Rattle.py_grammar.specs.Terminals.{code, Terminal};
ghost use Rattle.py_grammar.specs.Reading.{LineReader};
ghost use Rattle.py_grammar.specs.ReadingPatterns as spec;
ghost use Rattle.py_grammar.specs.ReadingLines.{phrase_at};
ghost use Rattle.py_forest.specs.Forests.{trees};
ghost use Rattle.parse_steps.specs.Runs.{Reads, GivesPhrases};
ghost use Rattle.py_language.specs.Readers.{where_};
ghost use Rattle.py_grammar.specs.Patterns.{is_dotted as is_dotted_spec};
ghost use Rattle.parse_pattern.specs.Items.{mapping_key_at, mapping_rest_at};

use crate::item::Item;
use crate::lists::maybe_list;
use crate::literals::literal;
use crate::names::dotted_name;
use crate::orders::{is_dotted, rest_is_last};
use parse_parts::descend;
use parse_steps::marks::{CAPTURE, COLON, DOUBLE_STAR, LEFT_BRACE, LITERAL_FIRST, RIGHT_BRACE};
use parse_steps::skip;
use py_forest::{Fault, Forest};
use py_grammar::Entry;
use py_line::Line;
use tree_nodes::Kind;

/// What takes the rest of a mapping.
#[tactic(auto, using(parse_steps::proofs::Runs::behind_make, parse_steps::proofs::Runs::behind_after_is), unfolding(crate::specs::Items::mapping_rest_at))]
fn mapping_rest(forest: &mut Forest, line: &Line, rest: usize) -> Result<usize, Fault>
    ensures { (self : Entry → LineReader) → Reads line.now (trees forest.old) (trees forest.new) result (mapping_rest_at self (drop rest line.now)) }
{
    let start = rest;
    let mark = forest.len();
    let rest = skip(line, rest, DOUBLE_STAR)?;
    let rest = skip(line, rest, CAPTURE)?;
    forest.reduce_named(
        Kind::MatchRest,
        line.second_text(start, rest),
        mark,
        line,
        start,
        rest,
    )?;
    Ok(rest)
}

/// A name with dots.
#[tactic(auto, using(parse_steps::proofs::Runs::behind_make, parse_steps::proofs::Runs::behind_after_is, parse_steps::proofs::Runs::behind_filter))]
fn dotted_key(forest: &mut Forest, line: &Line, rest: usize) -> Result<usize, Fault>
    ensures { (self : Entry → LineReader) → Reads line.now (trees forest.old) (trees forest.new) result (where_ is_dotted_spec (spec.dotted_name_at self) (drop rest line.now)) }
{
    let mark = forest.len();
    let rest = dotted_name(forest, line, rest)?;
    if !is_dotted(forest, mark) {
        return Err(Fault::NoForm);
    }
    Ok(rest)
}

/// What stands before the colon.
#[tactic(auto, using(parse_steps::proofs::Runs::behind_make, parse_steps::proofs::Runs::behind_after_is), unfolding(crate::specs::Items::mapping_key_at))]
fn mapping_key<F: Fn(&mut Forest, Entry, usize) -> Result<usize, Fault>>(
    nested: &F,
    depth: u32,
    forest: &mut Forest,
    line: &Line,
    rest: usize,
) -> Result<usize, Fault>
    requires callable { F.IsAlwaysCallable nested.now }
    requires gives { GivesPhrases (F.post nested.now) line.now depth }
    ensures { Reads line.now (trees forest.old) (trees forest.new) result (mapping_key_at (phrase_at depth) (drop rest line.now)) }
{
    if line.at(rest, LITERAL_FIRST) {
        literal(nested, depth, forest, line, rest)
    } else {
        dotted_key(forest, line, rest)
    }
}

/// A key with a pattern, or what takes the rest.
#[tactic(auto, using(parse_steps::proofs::Runs::behind_make, parse_steps::proofs::Runs::behind_after_is), unfolding(py_grammar::specs::ReadingPatterns::mapping_item_at, crate::specs::Items::mapping_key_at, crate::specs::Items::mapping_rest_at))]
pub fn mapping_item<F: Fn(&mut Forest, Entry, usize) -> Result<usize, Fault>>(
    nested: &F,
    depth: u32,
    forest: &mut Forest,
    line: &Line,
    rest: usize,
) -> Result<usize, Fault>
    requires callable { F.IsAlwaysCallable nested.now }
    requires gives { GivesPhrases (F.post nested.now) line.now depth }
    ensures { Reads line.now (trees forest.old) (trees forest.new) result (spec.mapping_item_at (phrase_at depth) (drop rest line.now)) }
{
    if line.at(rest, DOUBLE_STAR) {
        return mapping_rest(forest, line, rest);
    }
    let start = rest;
    let mark = forest.len();
    let rest = mapping_key(nested, depth, forest, line, rest)?;
    let rest = skip(line, rest, COLON)?;
    let rest = descend(nested, depth, forest, Entry::Pattern, line, rest)?;
    forest.reduce(Kind::MatchItem, mark, line, start, rest)?;
    Ok(rest)
}

/// Items in braces.
#[tactic(auto, using(parse_steps::proofs::Runs::behind_make, parse_steps::proofs::Runs::behind_after_is, parse_steps::proofs::Runs::behind_filter), unfolding(py_grammar::specs::ReadingPatterns::mapping_pattern_at))]
pub fn mapping_pattern<F: Fn(&mut Forest, Entry, usize) -> Result<usize, Fault>>(
    nested: &F,
    depth: u32,
    forest: &mut Forest,
    line: &Line,
    rest: usize,
) -> Result<usize, Fault>
    requires callable { F.IsAlwaysCallable nested.now }
    requires gives { GivesPhrases (F.post nested.now) line.now depth }
    ensures { Reads line.now (trees forest.old) (trees forest.new) result (spec.mapping_pattern_at (phrase_at depth) (drop rest line.now)) }
{
    let start = rest;
    let mark = forest.len();
    let rest = skip(line, rest, LEFT_BRACE)?;
    let rest = maybe_list(nested, depth, forest, Item::OfMapping, line, rest)?;
    let rest = skip(line, rest, RIGHT_BRACE)?;
    if !rest_is_last(forest, mark) {
        return Err(Fault::NoForm);
    }
    forest.reduce(Kind::MatchMapping, mark, line, start, rest)?;
    Ok(rest)
}
