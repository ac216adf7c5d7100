// Parameters of a lambda.
ghost use Rattle.std.specs.Prelude.{List, drop};
ghost use Rattle.tree_nodes.specs.Trees.{Tree};
ghost use Rattle.py_grammar.specs.Terminals.{code};
ghost use Rattle.py_grammar.specs.Reading as spec;
ghost use Rattle.py_grammar.specs.ReadingLines.{phrase_at};
ghost use Rattle.py_forest.specs.Forests.{trees};
ghost use Rattle.parse_steps.specs.Runs.{Reads, GivesPhrases};
ghost use Rattle.tree_nodes.specs.declared.kind.Kind.TheVariants as kinds;
ghost use Rattle.py_language.specs.Readers.{both, optional, made};
ghost use Rattle.py_grammar.specs.declared.entry.Entry.TheVariants as e;
ghost use Rattle.py_grammar.specs.Words.{assign, double_star, name, star};
ghost use Rattle.py_grammar.specs.Nodes.{first_text, second_text};
ghost use Rattle.py_grammar.specs.Expressions.{star_parameter};
ghost use Rattle.py_grammar.specs.Reading.{called_, token};

use crate::nested::descend;
use parse_steps::marks::{ASSIGN, DOUBLE_STAR, NAME, SLASH, STAR};
use parse_steps::{show_plain, skip};
use py_forest::{Fault, Forest};
use py_grammar::Entry;
use py_line::Line;
use tree_nodes::Kind;

/// The default of a parameter, or nothing.
#[tactic(auto, using(parse_steps::proofs::Runs::behind_make, parse_steps::proofs::Runs::behind_after_is))]
pub fn maybe_default<F: Fn(&mut Forest, Entry, usize) -> Result<usize, Fault>>(
    nested: &F,
    depth: u32,
    forest: &mut Forest,
    line: &Line,
    rest: usize,
) -> Result<usize, Fault>
    requires callable { F.IsAlwaysCallable nested.now }
    requires gives { GivesPhrases (F.post nested.now) line.now depth }
    ensures { Reads line.now (trees forest.old) (trees forest.new) result (optional code assign (both (token assign) (phrase_at depth e.Test)) (drop rest line.now)) }
{
    if line.at(rest, ASSIGN) {
        let rest = skip(line, rest, ASSIGN)?;
        descend(nested, depth, forest, Entry::Test, line, rest)
    } else {
        Ok(rest)
    }
}

/// A name, or nothing.
fn maybe_name(line: &Line, rest: usize) -> Result<usize, Fault>
    ensures { (u : List Tree) → Reads line.now u u result (optional code name (token name) (drop rest line.now)) }
{
    if line.at(rest, NAME) {
        skip(line, rest, NAME)
    } else {
        Ok(rest)
    }
}

/// A parameter, maybe with a default.
#[tactic(auto, using(parse_steps::proofs::Runs::behind_make, parse_steps::proofs::Runs::behind_after_is))]
fn plain_parameter<F: Fn(&mut Forest, Entry, usize) -> Result<usize, Fault>>(
    nested: &F,
    depth: u32,
    forest: &mut Forest,
    line: &Line,
    rest: usize,
) -> Result<usize, Fault>
    requires callable { F.IsAlwaysCallable nested.now }
    requires gives { GivesPhrases (F.post nested.now) line.now depth }
    ensures { Reads line.now (trees forest.old) (trees forest.new) result (called_ kinds.Parameter first_text (both (token name) (optional code assign (both (token assign) (phrase_at depth e.Test)))) (drop rest line.now)) }
{
    let start = rest;
    let mark = forest.len();
    let rest = skip(line, rest, NAME)?;
    let rest = maybe_default(nested, depth, forest, line, rest)?;
    let name = line.first_text(start, rest);
    forest.reduce_named(Kind::Parameter, name, mark, line, start, rest)?;
    Ok(rest)
}

/// `*`, maybe with a name.
#[tactic(auto, using(parse_steps::proofs::Runs::behind_make, parse_steps::proofs::Runs::behind_after_is))]
fn star_parameter(forest: &mut Forest, line: &Line, rest: usize) -> Result<usize, Fault>
    ensures { Reads line.now (trees forest.old) (trees forest.new) result (made star_parameter (both (token star) (optional code name (token name))) (drop rest line.now)) }
{
    let start = rest;
    let mark = forest.len();
    let rest = skip(line, rest, STAR)?;
    let rest = maybe_name(line, rest)?;
    forest.star_parameter(mark, line, start, rest)?;
    Ok(rest)
}

/// `**` and a name.
#[tactic(auto, using(parse_steps::proofs::Runs::behind_make, parse_steps::proofs::Runs::behind_after_is))]
fn double_star_parameter(forest: &mut Forest, line: &Line, rest: usize) -> Result<usize, Fault>
    ensures { Reads line.now (trees forest.old) (trees forest.new) result (called_ kinds.DoubleStarParameter second_text (both (token double_star) (token name)) (drop rest line.now)) }
{
    let start = rest;
    let mark = forest.len();
    let rest = skip(line, rest, DOUBLE_STAR)?;
    let rest = skip(line, rest, NAME)?;
    let name = line.second_text(start, rest);
    forest.reduce_named(Kind::DoubleStarParameter, name, mark, line, start, rest)?;
    Ok(rest)
}

/// A parameter of a lambda, or one of its marks.
#[tactic(auto, unfolding(py_grammar::specs::Reading::lambda_parameter_at))]
pub fn lambda_parameter<F: Fn(&mut Forest, Entry, usize) -> Result<usize, Fault>>(
    nested: &F,
    depth: u32,
    forest: &mut Forest,
    line: &Line,
    rest: usize,
) -> Result<usize, Fault>
    requires callable { F.IsAlwaysCallable nested.now }
    requires gives { GivesPhrases (F.post nested.now) line.now depth }
    ensures { Reads line.now (trees forest.old) (trees forest.new) result (spec.lambda_parameter_at (phrase_at depth) (drop rest line.now)) }
{
    if line.at(rest, NAME) {
        plain_parameter(nested, depth, forest, line, rest)
    } else if line.at(rest, SLASH) {
        show_plain(forest, Kind::PositionalOnlyMark, line, rest, SLASH)
    } else if line.at(rest, STAR) {
        star_parameter(forest, line, rest)
    } else {
        double_star_parameter(forest, line, rest)
    }
}
