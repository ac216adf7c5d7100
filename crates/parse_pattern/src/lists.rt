// Lists within patterns.
ghost use Rattle.std.specs.Prelude.{◌≡◌, ℕ, ◌++◌, ◌∷◌, [], List, length, ◌≤◌, drop};
ghost use Rattle.tree_nodes.specs.Trees.{Tree};
ghost use Rattle.py_grammar.specs.Terminals.{code, Terminal};
ghost use Rattle.py_grammar.specs.Reading.{LineReader};
ghost use Rattle.py_grammar.specs.ReadingPatterns as spec;
ghost use Rattle.py_grammar.specs.ReadingLines.{phrase_at};
ghost use Rattle.py_forest.specs.Forests.{trees};
ghost use Rattle.parse_steps.specs.Runs.{Reads, GivesPhrases};
ghost use Rattle.py_language.specs.Readers.{optional};
ghost use Rattle.py_grammar.specs.Reading.{commas, comma_rest as comma_rest_spec};
ghost use Rattle.parse_pattern.specs.Items.{item_at, item_first};

use crate::classes::class_argument;
use crate::item::{Item, first};
use crate::mappings::mapping_item;
use crate::sequences::sequence_item;
use parse_steps::marks::COMMA;
use parse_steps::{behind, skip};
use py_forest::{Fault, Forest};
use py_grammar::Entry;
use py_line::Line;

/// An item.
fn item<F: Fn(&mut Forest, Entry, usize) -> Result<usize, Fault>>(
    nested: &F,
    depth: u32,
    forest: &mut Forest,
    kind: Item,
    line: &Line,
    rest: usize,
) -> Result<usize, Fault>
    requires callable { F.IsAlwaysCallable nested.now }
    requires gives { GivesPhrases (F.post nested.now) line.now depth }
    ensures { Reads line.now (trees forest.old) (trees forest.new) result (item_at (phrase_at depth) kind (drop rest line.now)) }
{
    match kind {
        Item::ClassArgument => class_argument(nested, depth, forest, line, rest),
        Item::OfSequence => sequence_item(nested, depth, forest, line, rest),
        Item::OfMapping => mapping_item(nested, depth, forest, line, rest),
    }
}

/// Items with commas between them, and maybe one behind them.
fn list<F: Fn(&mut Forest, Entry, usize) -> Result<usize, Fault>>(
    nested: &F,
    depth: u32,
    forest: &mut Forest,
    kind: Item,
    line: &Line,
    rest: usize,
) -> Result<usize, Fault>
    requires callable { F.IsAlwaysCallable nested.now }
    requires gives { GivesPhrases (F.post nested.now) line.now depth }
    ensures { Reads line.now (trees forest.old) (trees forest.new) result (commas (item_first kind) (item_at (phrase_at depth) kind) (drop rest line.now)) }
{
    let mut rest = item(nested, depth, forest, kind, line, rest)?;
    'items: while line.at(rest, COMMA) {
        rest = behind(line, rest);
        if !line.at(rest, first(kind)) {
            return Ok(rest);
        }
        rest = item(nested, depth, forest, kind, line, rest)?;
    }
    Ok(rest)
}

/// Items, or none.
#[tactic(auto, using(parse_steps::proofs::Runs::behind_make, parse_steps::proofs::Runs::behind_after_is))]
pub fn maybe_list<F: Fn(&mut Forest, Entry, usize) -> Result<usize, Fault>>(
    nested: &F,
    depth: u32,
    forest: &mut Forest,
    kind: Item,
    line: &Line,
    rest: usize,
) -> Result<usize, Fault>
    requires callable { F.IsAlwaysCallable nested.now }
    requires gives { GivesPhrases (F.post nested.now) line.now depth }
    ensures { Reads line.now (trees forest.old) (trees forest.new) result (optional code (item_first kind) (commas (item_first kind) (item_at (phrase_at depth) kind)) (drop rest line.now)) }
{
    if line.at(rest, first(kind)) {
        list(nested, depth, forest, kind, line, rest)
    } else {
        Ok(rest)
    }
}

/// A comma, and maybe more items.
#[tactic(auto, using(parse_steps::proofs::Runs::behind_make, parse_steps::proofs::Runs::behind_after_is))]
pub fn comma_rest<F: Fn(&mut Forest, Entry, usize) -> Result<usize, Fault>>(
    nested: &F,
    depth: u32,
    forest: &mut Forest,
    kind: Item,
    line: &Line,
    rest: usize,
) -> Result<usize, Fault>
    requires callable { F.IsAlwaysCallable nested.now }
    requires gives { GivesPhrases (F.post nested.now) line.now depth }
    ensures { Reads line.now (trees forest.old) (trees forest.new) result (comma_rest_spec (item_first kind) (item_at (phrase_at depth) kind) (drop rest line.now)) }
{
    let rest = skip(line, rest, COMMA)?;
    maybe_list(nested, depth, forest, kind, line, rest)
}
