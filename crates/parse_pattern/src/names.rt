// Patterns that begin with a name, and stars.
ghost use Rattle.std.specs.Prelude.{◌≡◌, ℕ, ◌++◌, ◌∷◌, [], List, length, ◌≤◌, drop};
ghost use Rattle.tree_nodes.specs.Trees.{Tree};
ghost use Rattle.py_grammar.specs.Terminals.{code, Terminal};
ghost use Rattle.py_grammar.specs.Reading.{LineReader};
ghost use Rattle.py_grammar.specs.ReadingPatterns as spec;
ghost use Rattle.py_grammar.specs.ReadingLines.{phrase_at};
ghost use Rattle.py_forest.specs.Forests.{trees};
ghost use Rattle.parse_steps.specs.Runs.{Reads, GivesPhrases};
ghost use Rattle.std.specs.Prelude.{take, OnOk, IfErr};
ghost use Rattle.tree_nodes.specs.declared.kind.Kind.TheVariants as kinds;
ghost use Rattle.py_language.specs.Languages.{whole};
ghost use Rattle.py_language.specs.Readers.{before, both, extended};
ghost use Rattle.py_grammar.specs.Words.{dot, name};
ghost use Rattle.py_grammar.specs.Nodes.{called, last_text};
ghost use Rattle.py_grammar.specs.Reading.{token};
ghost use Rattle.py_grammar.specs.Patterns.{name_pattern as name_pattern_spec, star_pattern as star_pattern_spec};
ghost use Rattle.py_forest.specs.declared.fault.Fault.TheVariants.{Memory};

use crate::classes::class_arguments;
use parse_steps::marks::{DOT, LEFT_PAREN, NAME, STAR};
use parse_steps::{show_atom, skip};
use py_forest::{Fault, Forest};
use py_grammar::{Entry, Symbol};
use py_line::Line;
use tree_nodes::Kind;

/// The name that binds nothing.
const UNDERSCORE: &[Symbol] = &[Symbol::Underscore];

/// Names with dots between them.
#[tactic(auto, unfolding(py_grammar::specs::ReadingPatterns::dotted_name_at))]
pub fn dotted_name(forest: &mut Forest, line: &Line, rest: usize) -> Result<usize, Fault>
    ensures { (self : Entry → LineReader) → Reads line.now (trees forest.old) (trees forest.new) result (spec.dotted_name_at self (drop rest line.now)) }
{
    let start = rest;
    let mark = forest.len();
    let mut rest = show_atom(forest, line, rest, NAME)?;
    'dots: while line.at(rest, DOT) {
        rest = dotted_turn(forest, mark, line, start, rest)?;
    }
    Ok(rest)
}

/// A dot and a name, behind what stands from `mark` on.
#[tactic(auto, using(parse_steps::proofs::Runs::behind_make, parse_steps::proofs::Runs::behind_after_is))]
fn dotted_turn(
    forest: &mut Forest,
    mark: usize,
    line: &Line,
    start: usize,
    rest: usize,
) -> Result<usize, Fault>
    ensures { (below u : List Tree) → trees forest.old ≡ below ++ u → length below ≡ mark → Reads line.now below (trees forest.new) result (extended (whole (called kinds.Attribute last_text)) (both (token dot) (token name)) (drop start line.now) u (drop rest line.now)) }
{
    let rest = skip(line, rest, DOT)?;
    let rest = skip(line, rest, NAME)?;
    forest.reduce_named(
        Kind::Attribute,
        line.last_text(start, rest),
        mark,
        line,
        start,
        rest,
    )?;
    Ok(rest)
}

/// A name, `_`, a dotted name, or a class with patterns.
#[tactic(auto, using(parse_steps::proofs::Runs::behind_make, parse_steps::proofs::Runs::behind_after_is, crate::proofs::Continued::behind_pick), unfolding(py_grammar::specs::ReadingPatterns::name_pattern_at))]
pub fn name_pattern<F: Fn(&mut Forest, Entry, usize) -> Result<usize, Fault>>(
    nested: &F,
    depth: u32,
    forest: &mut Forest,
    line: &Line,
    rest: usize,
) -> Result<usize, Fault>
    requires callable { F.IsAlwaysCallable nested.now }
    requires gives { GivesPhrases (F.post nested.now) line.now depth }
    ensures { Reads line.now (trees forest.old) (trees forest.new) result (spec.name_pattern_at (phrase_at depth) (drop rest line.now)) }
{
    let start = rest;
    let mark = forest.len();
    let rest = dotted_name(forest, line, rest)?;
    if line.at(rest, LEFT_PAREN) {
        let rest = class_arguments(nested, depth, forest, line, rest)?;
        forest.reduce(Kind::MatchClass, mark, line, start, rest)?;
        Ok(rest)
    } else {
        reduce_name(forest, mark, line, start, rest)?;
        Ok(rest)
    }
}

/// A star and a name.
#[tactic(auto, using(parse_steps::proofs::Runs::behind_make, parse_steps::proofs::Runs::behind_after_is), unfolding(py_grammar::specs::ReadingPatterns::star_pattern_at))]
pub fn star_pattern(forest: &mut Forest, line: &Line, rest: usize) -> Result<usize, Fault>
    ensures { (self : Entry → LineReader) → Reads line.now (trees forest.old) (trees forest.new) result (spec.star_pattern_at self (drop rest line.now)) }
{
    let start = rest;
    let mark = forest.len();
    let rest = skip(line, rest, STAR)?;
    let rest = skip(line, rest, NAME)?;
    add_star(forest, mark, line, start, rest)?;
    Ok(rest)
}

/// What stands from `mark` on as a pattern: a name binds, and a dotted name is compared.
fn reduce_name(
    forest: &mut Forest,
    mark: usize,
    line: &Line,
    start: usize,
    rest: usize,
) -> Result<(), Fault>
    ensures ok { OnOk result (trees forest.new ≡ take mark (trees forest.old) ++ name_pattern_spec (before (drop start line.now) (drop rest line.now)) (drop mark (trees forest.old))) }
    ensures err { IfErr result (λ e. e ≡ Memory) }
{
    if mark >= forest.len() {
        return Ok(());
    }
    if !matches!(forest.kind(mark), Kind::Name) {
        return forest.reduce(Kind::MatchValue, mark, line, start, rest);
    }
    forest.cut(mark);
    if line.first_is(start, rest, UNDERSCORE) {
        forest.reduce(Kind::MatchWildcard, mark, line, start, rest)
    } else {
        forest.reduce_named(
            Kind::MatchCapture,
            line.first_text(start, rest),
            mark,
            line,
            start,
            rest,
        )
    }
}

/// A star pattern behind the trees.
fn add_star(
    forest: &mut Forest,
    mark: usize,
    line: &Line,
    start: usize,
    rest: usize,
) -> Result<(), Fault>
    requires { mark ≡ length (trees forest.old) }
    ensures ok { OnOk result (trees forest.new ≡ take mark (trees forest.old) ++ star_pattern_spec (before (drop start line.now) (drop rest line.now)) (drop mark (trees forest.old))) }
    ensures err { IfErr result (λ e. e ≡ Memory) }
{
    if line.second_is(start, rest, UNDERSCORE) {
        forest.reduce(Kind::MatchStarWildcard, mark, line, start, rest)
    } else {
        forest.reduce_named(
            Kind::MatchStar,
            line.second_text(start, rest),
            mark,
            line,
            start,
            rest,
        )
    }
}
