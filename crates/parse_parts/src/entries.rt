// Entries between braces.
ghost use Rattle.std.specs.Prelude.{drop};
ghost use Rattle.py_grammar.specs.Terminals.{code};
ghost use Rattle.py_grammar.specs.Reading as spec;
ghost use Rattle.py_grammar.specs.ReadingLines.{phrase_at};
ghost use Rattle.py_forest.specs.Forests.{trees};
ghost use Rattle.parse_steps.specs.Runs.{Reads, GivesPhrases};
ghost use Rattle.tree_nodes.specs.declared.kind.Kind.TheVariants as kinds;
ghost use Rattle.py_language.specs.Languages.{whole};
ghost use Rattle.py_language.specs.Readers.{both, followed, maybe_more, extended};
ghost use Rattle.py_grammar.specs.declared.entry.Entry.TheVariants as e;
ghost use Rattle.py_grammar.specs.Words.{colon};
ghost use Rattle.py_grammar.specs.Nodes.{spanning};
ghost use Rattle.py_grammar.specs.Reading.{token};

use crate::elements::{marked, pair, star};
use crate::nested::descend;
use parse_steps::marks::{COLON, DOUBLE_STAR, NAME, UNPACKED_FIRST, WALRUS};
use parse_steps::skip;
use py_forest::{Fault, Forest};
use py_grammar::Entry;
use py_line::Line;
use tree_nodes::Kind;

/// A test, or two with a colon between them.
#[tactic(auto, using(parse_steps::proofs::Runs::behind_make, parse_steps::proofs::Runs::behind_after_is, parse_steps::proofs::Runs::behind_maybe_more))]
fn plain_item<F: Fn(&mut Forest, Entry, usize) -> Result<usize, Fault>>(
    nested: &F,
    depth: u32,
    forest: &mut Forest,
    line: &Line,
    rest: usize,
) -> Result<usize, Fault>
    requires callable { F.IsAlwaysCallable nested.now }
    requires gives { GivesPhrases (F.post nested.now) line.now depth }
    ensures { Reads line.now (trees forest.old) (trees forest.new) result (followed (phrase_at depth e.Test) (maybe_more code colon (extended (whole (spanning kinds.DictItem)) (both (token colon) (phrase_at depth e.Test)))) (drop rest line.now)) }
{
    let start = rest;
    let mark = forest.len();
    let rest = descend(nested, depth, forest, Entry::Test, line, rest)?;
    if line.at(rest, COLON) {
        let rest = skip(line, rest, COLON)?;
        let rest = descend(nested, depth, forest, Entry::Test, line, rest)?;
        forest.reduce(Kind::DictItem, mark, line, start, rest)?;
        Ok(rest)
    } else {
        Ok(rest)
    }
}

/// An element of a set, or an item of a dictionary.
#[tactic(auto, unfolding(py_grammar::specs::Reading::item_or_named_at))]
pub fn item_or_named<F: Fn(&mut Forest, Entry, usize) -> Result<usize, Fault>>(
    nested: &F,
    depth: u32,
    forest: &mut Forest,
    line: &Line,
    rest: usize,
) -> Result<usize, Fault>
    requires callable { F.IsAlwaysCallable nested.now }
    requires gives { GivesPhrases (F.post nested.now) line.now depth }
    ensures { Reads line.now (trees forest.old) (trees forest.new) result (spec.item_or_named_at (phrase_at depth) (drop rest line.now)) }
{
    if line.at_two(rest, NAME, WALRUS) {
        pair(
            nested,
            depth,
            forest,
            Kind::NamedExpression,
            WALRUS,
            Entry::Test,
            line,
            rest,
        )
    } else {
        plain_item(nested, depth, forest, line, rest)
    }
}

/// What is unpacked into a dictionary or a set.
#[tactic(auto, unfolding(py_grammar::specs::Reading::unpacked_at))]
pub fn unpacked<F: Fn(&mut Forest, Entry, usize) -> Result<usize, Fault>>(
    nested: &F,
    depth: u32,
    forest: &mut Forest,
    line: &Line,
    rest: usize,
) -> Result<usize, Fault>
    requires callable { F.IsAlwaysCallable nested.now }
    requires gives { GivesPhrases (F.post nested.now) line.now depth }
    ensures { Reads line.now (trees forest.old) (trees forest.new) result (spec.unpacked_at (phrase_at depth) (drop rest line.now)) }
{
    if line.at(rest, DOUBLE_STAR) {
        marked(
            nested,
            depth,
            forest,
            Kind::DictUnpack,
            DOUBLE_STAR,
            Entry::BitOr,
            line,
            rest,
        )
    } else {
        star(nested, depth, forest, line, rest)
    }
}

/// An entry of a dictionary or of a set.
#[tactic(auto, unfolding(py_grammar::specs::Reading::brace_entry_at))]
pub fn brace_entry<F: Fn(&mut Forest, Entry, usize) -> Result<usize, Fault>>(
    nested: &F,
    depth: u32,
    forest: &mut Forest,
    line: &Line,
    rest: usize,
) -> Result<usize, Fault>
    requires callable { F.IsAlwaysCallable nested.now }
    requires gives { GivesPhrases (F.post nested.now) line.now depth }
    ensures { Reads line.now (trees forest.old) (trees forest.new) result (spec.brace_entry_at (phrase_at depth) (drop rest line.now)) }
{
    if line.at(rest, UNPACKED_FIRST) {
        unpacked(nested, depth, forest, line, rest)
    } else {
        item_or_named(nested, depth, forest, line, rest)
    }
}
