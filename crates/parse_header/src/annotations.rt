// What is said of parameters.
ghost use Rattle.std.specs.Prelude.{drop};
ghost use Rattle.py_grammar.specs.Terminals.{code};
ghost use Rattle.py_grammar.specs.ReadingHeaders as spec;
ghost use Rattle.py_grammar.specs.ReadingLines.{phrase_at};
ghost use Rattle.py_forest.specs.Forests.{trees};
ghost use Rattle.parse_steps.specs.Runs.{Reads, GivesPhrases};
ghost use Rattle.tree_nodes.specs.declared.kind.Kind.TheVariants as kinds;
ghost use Rattle.py_language.specs.Readers.{both, choose, optional};
ghost use Rattle.py_grammar.specs.declared.entry.Entry.TheVariants as e;
ghost use Rattle.py_grammar.specs.Words.{colon, star};
ghost use Rattle.py_grammar.specs.Reading.{token, as_};

use parse_parts::descend;
use parse_statement::annotation;
use parse_steps::marks::{COLON, STAR};
use parse_steps::skip;
use py_forest::{Fault, Forest};
use py_grammar::Entry;
use py_line::Line;
use tree_nodes::Kind;

/// What is said of a parameter.
#[tactic(auto, using(parse_steps::proofs::Runs::behind_make, parse_steps::proofs::Runs::behind_after_is), unfolding(py_grammar::specs::ReadingHeaders::parameter_annotation_at))]
fn parameter_annotation<F: Fn(&mut Forest, Entry, usize) -> Result<usize, Fault>>(
    nested: &F,
    depth: u32,
    forest: &mut Forest,
    line: &Line,
    rest: usize,
) -> Result<usize, Fault>
    requires callable { F.IsAlwaysCallable nested.now }
    requires gives { GivesPhrases (F.post nested.now) line.now depth }
    ensures { Reads line.now (trees forest.old) (trees forest.new) result (spec.parameter_annotation_at (phrase_at depth) (drop rest line.now)) }
{
    let rest = skip(line, rest, COLON)?;
    annotation(nested, depth, forest, line, rest)
}

/// What is said of a parameter, or nothing.
#[tactic(auto, using(parse_steps::proofs::Runs::behind_make, parse_steps::proofs::Runs::behind_after_is))]
pub fn maybe_parameter_annotation<F: Fn(&mut Forest, Entry, usize) -> Result<usize, Fault>>(
    nested: &F,
    depth: u32,
    forest: &mut Forest,
    line: &Line,
    rest: usize,
) -> Result<usize, Fault>
    requires callable { F.IsAlwaysCallable nested.now }
    requires gives { GivesPhrases (F.post nested.now) line.now depth }
    ensures { Reads line.now (trees forest.old) (trees forest.new) result (optional code colon (spec.parameter_annotation_at (phrase_at depth)) (drop rest line.now)) }
{
    if line.at(rest, COLON) {
        parameter_annotation(nested, depth, forest, line, rest)
    } else {
        Ok(rest)
    }
}

/// A star and what is said.
#[tactic(auto, using(parse_steps::proofs::Runs::behind_make, parse_steps::proofs::Runs::behind_after_is))]
fn starred_annotation<F: Fn(&mut Forest, Entry, usize) -> Result<usize, Fault>>(
    nested: &F,
    depth: u32,
    forest: &mut Forest,
    line: &Line,
    rest: usize,
) -> Result<usize, Fault>
    requires callable { F.IsAlwaysCallable nested.now }
    requires gives { GivesPhrases (F.post nested.now) line.now depth }
    ensures { Reads line.now (trees forest.old) (trees forest.new) result (as_ kinds.StarAnnotation (both (token star) (phrase_at depth e.BitOr)) (drop rest line.now)) }
{
    let start = rest;
    let mark = forest.len();
    let rest = skip(line, rest, STAR)?;
    let rest = descend(nested, depth, forest, Entry::BitOr, line, rest)?;
    forest.reduce(Kind::StarAnnotation, mark, line, start, rest)?;
    Ok(rest)
}

/// What is said, maybe with a star.
#[tactic(auto, using(parse_steps::proofs::Runs::behind_make, parse_steps::proofs::Runs::behind_after_is))]
fn any_annotation<F: Fn(&mut Forest, Entry, usize) -> Result<usize, Fault>>(
    nested: &F,
    depth: u32,
    forest: &mut Forest,
    line: &Line,
    rest: usize,
) -> Result<usize, Fault>
    requires callable { F.IsAlwaysCallable nested.now }
    requires gives { GivesPhrases (F.post nested.now) line.now depth }
    ensures { Reads line.now (trees forest.old) (trees forest.new) result (choose code star (as_ kinds.StarAnnotation (both (token star) (phrase_at depth e.BitOr))) (as_ kinds.Annotation (phrase_at depth e.Test)) (drop rest line.now)) }
{
    if line.at(rest, STAR) {
        starred_annotation(nested, depth, forest, line, rest)
    } else {
        annotation(nested, depth, forest, line, rest)
    }
}

/// What is said of a parameter behind a star.
#[tactic(auto, using(parse_steps::proofs::Runs::behind_make, parse_steps::proofs::Runs::behind_after_is), unfolding(py_grammar::specs::ReadingHeaders::star_annotation_at))]
fn star_annotation<F: Fn(&mut Forest, Entry, usize) -> Result<usize, Fault>>(
    nested: &F,
    depth: u32,
    forest: &mut Forest,
    line: &Line,
    rest: usize,
) -> Result<usize, Fault>
    requires callable { F.IsAlwaysCallable nested.now }
    requires gives { GivesPhrases (F.post nested.now) line.now depth }
    ensures { Reads line.now (trees forest.old) (trees forest.new) result (spec.star_annotation_at (phrase_at depth) (drop rest line.now)) }
{
    let rest = skip(line, rest, COLON)?;
    any_annotation(nested, depth, forest, line, rest)
}

/// The same, or nothing.
#[tactic(auto, using(parse_steps::proofs::Runs::behind_make, parse_steps::proofs::Runs::behind_after_is))]
pub fn maybe_star_annotation<F: Fn(&mut Forest, Entry, usize) -> Result<usize, Fault>>(
    nested: &F,
    depth: u32,
    forest: &mut Forest,
    line: &Line,
    rest: usize,
) -> Result<usize, Fault>
    requires callable { F.IsAlwaysCallable nested.now }
    requires gives { GivesPhrases (F.post nested.now) line.now depth }
    ensures { Reads line.now (trees forest.old) (trees forest.new) result (optional code colon (spec.star_annotation_at (phrase_at depth)) (drop rest line.now)) }
{
    if line.at(rest, COLON) {
        star_annotation(nested, depth, forest, line, rest)
    } else {
        Ok(rest)
    }
}
