// Slices.
ghost use Rattle.std.specs.Prelude.{drop};
ghost use Rattle.py_grammar.specs.Terminals.{code};
ghost use Rattle.py_grammar.specs.Reading as spec;
ghost use Rattle.py_grammar.specs.ReadingLines.{phrase_at};
ghost use Rattle.py_forest.specs.Forests.{trees};
ghost use Rattle.parse_steps.specs.Runs.{Reads, GivesPhrases};
ghost use Rattle.tree_nodes.specs.declared.kind.Kind.TheVariants as kinds;
ghost use Rattle.py_language.specs.Languages.{whole};
ghost use Rattle.py_language.specs.Readers.{both, optional, followed, maybe_more, extended};
ghost use Rattle.py_grammar.specs.declared.entry.Entry.TheVariants as e;
ghost use Rattle.py_grammar.specs.Words.{colon};
ghost use Rattle.py_grammar.specs.Firsts.{test_first};
ghost use Rattle.py_grammar.specs.Nodes.{spanning, plain_leaf};
ghost use Rattle.py_grammar.specs.Reading.{leaf};

use crate::elements::{marked, maybe_test, pair};
use crate::nested::descend;
use parse_steps::marks::{COLON, NAME, STAR, WALRUS};
use parse_steps::show_plain;
use py_forest::{Fault, Forest};
use py_grammar::Entry;
use py_line::Line;
use tree_nodes::Kind;

/// A second colon and maybe a test, or nothing.
#[tactic(auto, using(parse_steps::proofs::Runs::behind_make, parse_steps::proofs::Runs::behind_after_is))]
fn second_colon<F: Fn(&mut Forest, Entry, usize) -> Result<usize, Fault>>(
    nested: &F,
    depth: u32,
    forest: &mut Forest,
    line: &Line,
    rest: usize,
) -> Result<usize, Fault>
    requires callable { F.IsAlwaysCallable nested.now }
    requires gives { GivesPhrases (F.post nested.now) line.now depth }
    ensures { Reads line.now (trees forest.old) (trees forest.new) result (optional code colon (both (leaf (plain_leaf kinds.SliceColon) colon) (optional code test_first (phrase_at depth e.Test))) (drop rest line.now)) }
{
    if line.at(rest, COLON) {
        let rest = show_plain(forest, Kind::SliceColon, line, rest, COLON)?;
        maybe_test(nested, depth, forest, line, rest)
    } else {
        Ok(rest)
    }
}

/// A slice from its first colon on.
#[tactic(auto, using(parse_steps::proofs::Runs::behind_make, parse_steps::proofs::Runs::behind_after_is), unfolding(py_grammar::specs::Reading::slice_rest_at))]
fn slice_rest<F: Fn(&mut Forest, Entry, usize) -> Result<usize, Fault>>(
    nested: &F,
    depth: u32,
    forest: &mut Forest,
    line: &Line,
    rest: usize,
) -> Result<usize, Fault>
    requires callable { F.IsAlwaysCallable nested.now }
    requires gives { GivesPhrases (F.post nested.now) line.now depth }
    ensures { Reads line.now (trees forest.old) (trees forest.new) result (spec.slice_rest_at (phrase_at depth) (drop rest line.now)) }
{
    let rest = show_plain(forest, Kind::SliceColon, line, rest, COLON)?;
    let rest = maybe_test(nested, depth, forest, line, rest)?;
    second_colon(nested, depth, forest, line, rest)
}

/// A test, maybe with the rest of a slice.
#[tactic(auto, using(parse_steps::proofs::Runs::behind_make, parse_steps::proofs::Runs::behind_after_is, parse_steps::proofs::Runs::behind_maybe_more))]
fn plain_slice<F: Fn(&mut Forest, Entry, usize) -> Result<usize, Fault>>(
    nested: &F,
    depth: u32,
    forest: &mut Forest,
    line: &Line,
    rest: usize,
) -> Result<usize, Fault>
    requires callable { F.IsAlwaysCallable nested.now }
    requires gives { GivesPhrases (F.post nested.now) line.now depth }
    ensures { Reads line.now (trees forest.old) (trees forest.new) result (followed (phrase_at depth e.Test) (maybe_more code colon (extended (whole (spanning kinds.Slice)) (spec.slice_rest_at (phrase_at depth)))) (drop rest line.now)) }
{
    let start = rest;
    let mark = forest.len();
    let rest = descend(nested, depth, forest, Entry::Test, line, rest)?;
    if line.at(rest, COLON) {
        let rest = slice_rest(nested, depth, forest, line, rest)?;
        forest.reduce(Kind::Slice, mark, line, start, rest)?;
        Ok(rest)
    } else {
        Ok(rest)
    }
}

/// A slice, or an index.
#[tactic(auto, using(parse_steps::proofs::Runs::behind_make, parse_steps::proofs::Runs::behind_after_is), unfolding(py_grammar::specs::Reading::slice_at))]
fn slice<F: Fn(&mut Forest, Entry, usize) -> Result<usize, Fault>>(
    nested: &F,
    depth: u32,
    forest: &mut Forest,
    line: &Line,
    rest: usize,
) -> Result<usize, Fault>
    requires callable { F.IsAlwaysCallable nested.now }
    requires gives { GivesPhrases (F.post nested.now) line.now depth }
    ensures { Reads line.now (trees forest.old) (trees forest.new) result (spec.slice_at (phrase_at depth) (drop rest line.now)) }
{
    if line.at(rest, COLON) {
        let start = rest;
        let mark = forest.len();
        let rest = slice_rest(nested, depth, forest, line, rest)?;
        forest.reduce(Kind::Slice, mark, line, start, rest)?;
        Ok(rest)
    } else if line.at_two(rest, NAME, WALRUS) {
        pair(
            nested,
            depth,
            forest,
            Kind::NamedExpression,
            WALRUS,
            Entry::Test,
            line,
            rest,
        )
    } else {
        plain_slice(nested, depth, forest, line, rest)
    }
}

/// What stands between the commas of a subscription.
#[tactic(auto, unfolding(py_grammar::specs::Reading::slices_item_at))]
pub fn slices_item<F: Fn(&mut Forest, Entry, usize) -> Result<usize, Fault>>(
    nested: &F,
    depth: u32,
    forest: &mut Forest,
    line: &Line,
    rest: usize,
) -> Result<usize, Fault>
    requires callable { F.IsAlwaysCallable nested.now }
    requires gives { GivesPhrases (F.post nested.now) line.now depth }
    ensures { Reads line.now (trees forest.old) (trees forest.new) result (spec.slices_item_at (phrase_at depth) (drop rest line.now)) }
{
    if line.at(rest, STAR) {
        marked(
            nested,
            depth,
            forest,
            Kind::Starred,
            STAR,
            Entry::Test,
            line,
            rest,
        )
    } else {
        slice(nested, depth, forest, line, rest)
    }
}
