// What stands between commas, and phrases behind signs.
ghost use Rattle.std.specs.Prelude.{drop};
ghost use Rattle.py_grammar.specs.Terminals.{code};
ghost use Rattle.py_grammar.specs.Reading as spec;
ghost use Rattle.py_grammar.specs.ReadingLines.{phrase_at};
ghost use Rattle.py_forest.specs.Forests.{trees};
ghost use Rattle.parse_steps.specs.Runs.{Reads, GivesPhrases};
ghost use Rattle.py_language.specs.Readers.{both, optional};
ghost use Rattle.py_grammar.specs.Symbols.{set_of};
ghost use Rattle.py_grammar.specs.declared.entry.Entry.TheVariants as e;
ghost use Rattle.py_grammar.specs.Firsts.{test_first};
ghost use Rattle.py_grammar.specs.Reading.{token, as_, pair};

use crate::nested::descend;
use parse_steps::marks::{NAME, STAR, TEST_FIRST, WALRUS};
use parse_steps::skip;
use py_forest::{Fault, Forest};
use py_grammar::{Entry, Symbol};
use py_line::Line;
use tree_nodes::Kind;

/// A sign and a phrase.
#[tactic(auto, using(parse_steps::proofs::Runs::behind_make, parse_steps::proofs::Runs::behind_after_is))]
pub fn marked<F: Fn(&mut Forest, Entry, usize) -> Result<usize, Fault>>(
    nested: &F,
    depth: u32,
    forest: &mut Forest,
    kind: Kind,
    sign: &[Symbol],
    entry: Entry,
    line: &Line,
    rest: usize,
) -> Result<usize, Fault>
    requires callable { F.IsAlwaysCallable nested.now }
    requires gives { GivesPhrases (F.post nested.now) line.now depth }
    ensures { Reads line.now (trees forest.old) (trees forest.new) result (as_ kind (both (token (set_of sign.now)) (phrase_at depth entry)) (drop rest line.now)) }
{
    let start = rest;
    let mark = forest.len();
    let rest = skip(line, rest, sign)?;
    let rest = descend(nested, depth, forest, entry, line, rest)?;
    forest.reduce(kind, mark, line, start, rest)?;
    Ok(rest)
}

/// A name, a sign and a phrase.
#[tactic(auto, using(parse_steps::proofs::Runs::behind_make, parse_steps::proofs::Runs::behind_after_is))]
pub fn pair<F: Fn(&mut Forest, Entry, usize) -> Result<usize, Fault>>(
    nested: &F,
    depth: u32,
    forest: &mut Forest,
    kind: Kind,
    sign: &[Symbol],
    entry: Entry,
    line: &Line,
    rest: usize,
) -> Result<usize, Fault>
    requires callable { F.IsAlwaysCallable nested.now }
    requires gives { GivesPhrases (F.post nested.now) line.now depth }
    ensures { Reads line.now (trees forest.old) (trees forest.new) result (pair kind (set_of sign.now) (phrase_at depth entry) (drop rest line.now)) }
{
    let start = rest;
    let mark = forest.len();
    let rest = skip(line, rest, NAME)?;
    let rest = skip(line, rest, sign)?;
    let rest = descend(nested, depth, forest, entry, line, rest)?;
    let name = line.first_text(start, rest);
    forest.reduce_named(kind, name, mark, line, start, rest)?;
    Ok(rest)
}

/// A starred operand.
#[tactic(auto, unfolding(py_grammar::specs::Reading::star_at))]
pub fn star<F: Fn(&mut Forest, Entry, usize) -> Result<usize, Fault>>(
    nested: &F,
    depth: u32,
    forest: &mut Forest,
    line: &Line,
    rest: usize,
) -> Result<usize, Fault>
    requires callable { F.IsAlwaysCallable nested.now }
    requires gives { GivesPhrases (F.post nested.now) line.now depth }
    ensures { Reads line.now (trees forest.old) (trees forest.new) result (spec.star_at (phrase_at depth) (drop rest line.now)) }
{
    marked(
        nested,
        depth,
        forest,
        Kind::Starred,
        STAR,
        Entry::BitOr,
        line,
        rest,
    )
}

/// A test, maybe with a name and `:=` before it.
#[tactic(auto, unfolding(py_grammar::specs::Reading::named_at))]
pub fn named<F: Fn(&mut Forest, Entry, usize) -> Result<usize, Fault>>(
    nested: &F,
    depth: u32,
    forest: &mut Forest,
    line: &Line,
    rest: usize,
) -> Result<usize, Fault>
    requires callable { F.IsAlwaysCallable nested.now }
    requires gives { GivesPhrases (F.post nested.now) line.now depth }
    ensures { Reads line.now (trees forest.old) (trees forest.new) result (spec.named_at (phrase_at depth) (drop rest line.now)) }
{
    if line.at_two(rest, NAME, WALRUS) {
        pair(
            nested,
            depth,
            forest,
            Kind::NamedExpression,
            WALRUS,
            Entry::Test,
            line,
            rest,
        )
    } else {
        descend(nested, depth, forest, Entry::Test, line, rest)
    }
}

/// An element of a display, or of what round brackets hold.
#[tactic(auto, unfolding(py_grammar::specs::Reading::element_at))]
pub fn element<F: Fn(&mut Forest, Entry, usize) -> Result<usize, Fault>>(
    nested: &F,
    depth: u32,
    forest: &mut Forest,
    line: &Line,
    rest: usize,
) -> Result<usize, Fault>
    requires callable { F.IsAlwaysCallable nested.now }
    requires gives { GivesPhrases (F.post nested.now) line.now depth }
    ensures { Reads line.now (trees forest.old) (trees forest.new) result (spec.element_at (phrase_at depth) (drop rest line.now)) }
{
    if line.at(rest, STAR) {
        star(nested, depth, forest, line, rest)
    } else {
        named(nested, depth, forest, line, rest)
    }
}

/// An element of a bare tuple, which has no `:=`.
#[tactic(auto, unfolding(py_grammar::specs::Reading::sx_item_at))]
pub fn sx_item<F: Fn(&mut Forest, Entry, usize) -> Result<usize, Fault>>(
    nested: &F,
    depth: u32,
    forest: &mut Forest,
    line: &Line,
    rest: usize,
) -> Result<usize, Fault>
    requires callable { F.IsAlwaysCallable nested.now }
    requires gives { GivesPhrases (F.post nested.now) line.now depth }
    ensures { Reads line.now (trees forest.old) (trees forest.new) result (spec.sx_item_at (phrase_at depth) (drop rest line.now)) }
{
    if line.at(rest, STAR) {
        star(nested, depth, forest, line, rest)
    } else {
        descend(nested, depth, forest, Entry::Test, line, rest)
    }
}

/// An operand, maybe starred, that stands as a target.
#[tactic(auto, unfolding(py_grammar::specs::Reading::target_item_at))]
pub fn target_item<F: Fn(&mut Forest, Entry, usize) -> Result<usize, Fault>>(
    nested: &F,
    depth: u32,
    forest: &mut Forest,
    line: &Line,
    rest: usize,
) -> Result<usize, Fault>
    requires callable { F.IsAlwaysCallable nested.now }
    requires gives { GivesPhrases (F.post nested.now) line.now depth }
    ensures { Reads line.now (trees forest.old) (trees forest.new) result (spec.target_item_at (phrase_at depth) (drop rest line.now)) }
{
    if line.at(rest, STAR) {
        star(nested, depth, forest, line, rest)
    } else {
        descend(nested, depth, forest, Entry::BitOr, line, rest)
    }
}

/// A test, or nothing.
#[tactic(auto, using(parse_steps::proofs::Runs::behind_make, parse_steps::proofs::Runs::behind_after_is))]
pub fn maybe_test<F: Fn(&mut Forest, Entry, usize) -> Result<usize, Fault>>(
    nested: &F,
    depth: u32,
    forest: &mut Forest,
    line: &Line,
    rest: usize,
) -> Result<usize, Fault>
    requires callable { F.IsAlwaysCallable nested.now }
    requires gives { GivesPhrases (F.post nested.now) line.now depth }
    ensures { Reads line.now (trees forest.old) (trees forest.new) result (optional code test_first (phrase_at depth e.Test) (drop rest line.now)) }
{
    if line.at(rest, TEST_FIRST) {
        descend(nested, depth, forest, Entry::Test, line, rest)
    } else {
        Ok(rest)
    }
}
