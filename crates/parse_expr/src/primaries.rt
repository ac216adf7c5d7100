// Atoms and what stands behind them.
ghost use Rattle.std.specs.Prelude.{◌≡◌, ℕ, ◌++◌, List, length, drop};
ghost use Rattle.tree_nodes.specs.Trees.{Tree};
ghost use Rattle.tree_nodes.specs.declared.kind.Kind.TheVariants as kinds;
ghost use Rattle.py_language.specs.Languages.{whole};
ghost use Rattle.py_language.specs.Readers.{both, extended};
ghost use Rattle.py_grammar.specs.Terminals.{Terminal};
ghost use Rattle.py_grammar.specs.Words.{dot, name};
ghost use Rattle.py_grammar.specs.Nodes.{spanning, called, last_text};
ghost use Rattle.py_grammar.specs.Reading as spec;
ghost use Rattle.py_grammar.specs.Reading.{token, bracketed_};
ghost use Rattle.py_grammar.specs.ReadingLines.{phrase_at};
ghost use Rattle.py_forest.specs.Forests.{trees};
ghost use Rattle.parse_steps.specs.Runs.{Reads, GivesPhrases};

use parse_displays::{brace_display, call_arguments, list_display, parenthesized, slices};
use parse_steps::marks::{
    DOT, LEFT_BRACKET, LEFT_PAREN, NAME, RIGHT_BRACKET, SIMPLE_ATOM, STRINGS_FIRST, TRAILER_FIRST,
};
use parse_steps::{show_atom, skip};
use parse_strings::strings;
use py_forest::{Fault, Forest};
use py_grammar::Entry;
use py_line::Line;
use tree_nodes::Kind;

/// A dot and a name.
#[tactic(auto, using(parse_steps::proofs::Runs::behind_after_is))]
fn dotted(line: &Line, rest: usize) -> Result<usize, Fault>
    ensures { (u : List Tree) → Reads line.now u u result (both (token dot) (token name) (drop rest line.now)) }
{
    let rest = skip(line, rest, DOT)?;
    let rest = skip(line, rest, NAME)?;
    Ok(rest)
}

/// Slices in brackets.
#[tactic(auto, using(parse_steps::proofs::Runs::behind_after_is))]
fn in_brackets<F: Fn(&mut Forest, Entry, usize) -> Result<usize, Fault>>(
    nested: &F,
    depth: u32,
    forest: &mut Forest,
    line: &Line,
    rest: usize,
) -> Result<usize, Fault>
    requires callable { F.IsAlwaysCallable nested.now }
    requires gives { GivesPhrases (F.post nested.now) line.now depth }
    ensures { Reads line.now (trees forest.old) (trees forest.new) result (bracketed_ (spec.slices_at (phrase_at depth)) (drop rest line.now)) }
{
    let rest = skip(line, rest, LEFT_BRACKET)?;
    let rest = slices(nested, depth, forest, line, rest)?;
    let rest = skip(line, rest, RIGHT_BRACKET)?;
    Ok(rest)
}

/// A dot and a name behind what stands from `mark` on.
#[tactic(auto, using(parse_steps::proofs::Runs::behind_after_is, parse_steps::proofs::Runs::behind_extended))]
fn attribute(
    forest: &mut Forest,
    mark: usize,
    start: usize,
    line: &Line,
    rest: usize,
) -> Result<usize, Fault>
    ensures { (below u : List Tree) → trees forest.old ≡ below ++ u → length below ≡ mark → Reads line.now below (trees forest.new) result (extended (whole (called kinds.Attribute last_text)) (both (token dot) (token name)) (drop start line.now) u (drop rest line.now)) }
{
    let rest = dotted(line, rest)?;
    let name = line.last_text(start, rest);
    forest.reduce_named(Kind::Attribute, name, mark, line, start, rest)?;
    Ok(rest)
}

/// The brackets of a call.
#[tactic(auto, using(parse_steps::proofs::Runs::behind_after_is, parse_steps::proofs::Runs::behind_extended))]
fn call<F: Fn(&mut Forest, Entry, usize) -> Result<usize, Fault>>(
    nested: &F,
    depth: u32,
    forest: &mut Forest,
    mark: usize,
    start: usize,
    line: &Line,
    rest: usize,
) -> Result<usize, Fault>
    requires callable { F.IsAlwaysCallable nested.now }
    requires gives { GivesPhrases (F.post nested.now) line.now depth }
    ensures { (below u : List Tree) → trees forest.old ≡ below ++ u → length below ≡ mark → Reads line.now below (trees forest.new) result (extended (whole (spanning kinds.Call)) (spec.call_arguments_at (phrase_at depth)) (drop start line.now) u (drop rest line.now)) }
{
    let rest = call_arguments(nested, depth, forest, line, rest)?;
    forest.reduce(Kind::Call, mark, line, start, rest)?;
    Ok(rest)
}

/// The brackets of a subscription.
#[tactic(auto, using(parse_steps::proofs::Runs::behind_after_is, parse_steps::proofs::Runs::behind_extended))]
fn subscript<F: Fn(&mut Forest, Entry, usize) -> Result<usize, Fault>>(
    nested: &F,
    depth: u32,
    forest: &mut Forest,
    mark: usize,
    start: usize,
    line: &Line,
    rest: usize,
) -> Result<usize, Fault>
    requires callable { F.IsAlwaysCallable nested.now }
    requires gives { GivesPhrases (F.post nested.now) line.now depth }
    ensures { (below u : List Tree) → trees forest.old ≡ below ++ u → length below ≡ mark → Reads line.now below (trees forest.new) result (extended (whole (spanning kinds.Subscript)) (bracketed_ (spec.slices_at (phrase_at depth))) (drop start line.now) u (drop rest line.now)) }
{
    let rest = in_brackets(nested, depth, forest, line, rest)?;
    forest.reduce(Kind::Subscript, mark, line, start, rest)?;
    Ok(rest)
}

/// A name behind a dot, or the brackets of a call or a subscription.
#[tactic(auto, using(parse_steps::proofs::Runs::behind_after_is, parse_steps::proofs::Runs::behind_extended), unfolding(py_grammar::specs::Reading::trailer_at))]
fn trailer<F: Fn(&mut Forest, Entry, usize) -> Result<usize, Fault>>(
    nested: &F,
    depth: u32,
    forest: &mut Forest,
    mark: usize,
    start: usize,
    line: &Line,
    rest: usize,
) -> Result<usize, Fault>
    requires callable { F.IsAlwaysCallable nested.now }
    requires gives { GivesPhrases (F.post nested.now) line.now depth }
    ensures { (below u : List Tree) → trees forest.old ≡ below ++ u → length below ≡ mark → Reads line.now below (trees forest.new) result (spec.trailer_at (phrase_at depth) (drop start line.now) u (drop rest line.now)) }
{
    if line.at(rest, DOT) {
        attribute(forest, mark, start, line, rest)
    } else if line.at(rest, LEFT_PAREN) {
        call(nested, depth, forest, mark, start, line, rest)
    } else {
        subscript(nested, depth, forest, mark, start, line, rest)
    }
}

/// An atom.
#[tactic(auto, unfolding(py_grammar::specs::Reading::atom_at))]
fn atom<F: Fn(&mut Forest, Entry, usize) -> Result<usize, Fault>>(
    nested: &F,
    depth: u32,
    forest: &mut Forest,
    line: &Line,
    rest: usize,
) -> Result<usize, Fault>
    requires callable { F.IsAlwaysCallable nested.now }
    requires gives { GivesPhrases (F.post nested.now) line.now depth }
    ensures { Reads line.now (trees forest.old) (trees forest.new) result (spec.atom_at (phrase_at depth) (drop rest line.now)) }
{
    if line.at(rest, SIMPLE_ATOM) {
        show_atom(forest, line, rest, SIMPLE_ATOM)
    } else if line.at(rest, STRINGS_FIRST) {
        strings(nested, depth, forest, line, rest)
    } else if line.at(rest, LEFT_PAREN) {
        parenthesized(nested, depth, forest, line, rest)
    } else if line.at(rest, LEFT_BRACKET) {
        list_display(nested, depth, forest, line, rest)
    } else {
        brace_display(nested, depth, forest, line, rest)
    }
}

/// An atom, and what stands behind it.
#[tactic(auto, using(parse_steps::proofs::Runs::behind_make, parse_steps::proofs::Runs::behind_after_is), unfolding(py_grammar::specs::Reading::primary_at))]
pub fn primary<F: Fn(&mut Forest, Entry, usize) -> Result<usize, Fault>>(
    nested: &F,
    depth: u32,
    forest: &mut Forest,
    line: &Line,
    rest: usize,
) -> Result<usize, Fault>
    requires callable { F.IsAlwaysCallable nested.now }
    requires gives { GivesPhrases (F.post nested.now) line.now depth }
    ensures { Reads line.now (trees forest.old) (trees forest.new) result (spec.primary_at (phrase_at depth) (drop rest line.now)) }
{
    let start = rest;
    let mark = forest.len();
    let mut rest = atom(nested, depth, forest, line, rest)?;
    'trailers: while line.at(rest, TRAILER_FIRST) {
        rest = trailer(nested, depth, forest, mark, start, line, rest)?;
    }
    Ok(rest)
}
