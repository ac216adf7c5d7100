// Parameters of functions.
ghost use Rattle.std.specs.Prelude.{drop};
ghost use Rattle.py_grammar.specs.Terminals.{code};
ghost use Rattle.py_grammar.specs.ReadingHeaders as spec;
ghost use Rattle.py_grammar.specs.ReadingLines.{phrase_at};
ghost use Rattle.py_forest.specs.Forests.{trees};
ghost use Rattle.parse_steps.specs.Runs.{Reads, GivesPhrases};
ghost use Rattle.tree_nodes.specs.declared.kind.Kind.TheVariants as kinds;
ghost use Rattle.py_language.specs.Readers.{both, made, optional};
ghost use Rattle.py_grammar.specs.declared.entry.Entry.TheVariants as e;
ghost use Rattle.py_grammar.specs.Words.{assign, colon, double_star, name, star};
ghost use Rattle.py_grammar.specs.Firsts.{parameter_first};
ghost use Rattle.py_grammar.specs.Nodes.{first_text, second_text};
ghost use Rattle.py_grammar.specs.Expressions.{star_parameter};
ghost use Rattle.py_grammar.specs.Reading.{token, called_};

use crate::annotations::{maybe_parameter_annotation, maybe_star_annotation};
use crate::part::{Part, list};
use parse_parts::descend;
use parse_steps::marks::{ASSIGN, DOUBLE_STAR, NAME, PARAMETER_FIRST, SLASH, STAR};
use parse_steps::{show_plain, skip};
use py_forest::{Fault, Forest};
use py_grammar::Entry;
use py_line::Line;
use tree_nodes::Kind;

/// The default of a parameter.
#[tactic(auto, using(parse_steps::proofs::Runs::behind_make, parse_steps::proofs::Runs::behind_after_is))]
fn default_value<F: Fn(&mut Forest, Entry, usize) -> Result<usize, Fault>>(
    nested: &F,
    depth: u32,
    forest: &mut Forest,
    line: &Line,
    rest: usize,
) -> Result<usize, Fault>
    requires callable { F.IsAlwaysCallable nested.now }
    requires gives { GivesPhrases (F.post nested.now) line.now depth }
    ensures { Reads line.now (trees forest.old) (trees forest.new) result (both (token assign) (phrase_at depth e.Test) (drop rest line.now)) }
{
    let rest = skip(line, rest, ASSIGN)?;
    descend(nested, depth, forest, Entry::Test, line, rest)
}

/// The default of a parameter, or nothing.
#[tactic(auto, using(parse_steps::proofs::Runs::behind_make, parse_steps::proofs::Runs::behind_after_is))]
fn maybe_default_value<F: Fn(&mut Forest, Entry, usize) -> Result<usize, Fault>>(
    nested: &F,
    depth: u32,
    forest: &mut Forest,
    line: &Line,
    rest: usize,
) -> Result<usize, Fault>
    requires callable { F.IsAlwaysCallable nested.now }
    requires gives { GivesPhrases (F.post nested.now) line.now depth }
    ensures { Reads line.now (trees forest.old) (trees forest.new) result (optional code assign (both (token assign) (phrase_at depth e.Test)) (drop rest line.now)) }
{
    if line.at(rest, ASSIGN) {
        default_value(nested, depth, forest, line, rest)
    } else {
        Ok(rest)
    }
}

/// What stands behind the name of a parameter.
#[tactic(auto, using(parse_steps::proofs::Runs::behind_make, parse_steps::proofs::Runs::behind_after_is))]
fn annotation_and_default<F: Fn(&mut Forest, Entry, usize) -> Result<usize, Fault>>(
    nested: &F,
    depth: u32,
    forest: &mut Forest,
    line: &Line,
    rest: usize,
) -> Result<usize, Fault>
    requires callable { F.IsAlwaysCallable nested.now }
    requires gives { GivesPhrases (F.post nested.now) line.now depth }
    ensures { Reads line.now (trees forest.old) (trees forest.new) result (both (optional code colon (spec.parameter_annotation_at (phrase_at depth))) (optional code assign (both (token assign) (phrase_at depth e.Test))) (drop rest line.now)) }
{
    let rest = maybe_parameter_annotation(nested, depth, forest, line, rest)?;
    maybe_default_value(nested, depth, forest, line, rest)
}

/// A parameter with a name.
#[tactic(auto, using(parse_steps::proofs::Runs::behind_make, parse_steps::proofs::Runs::behind_after_is))]
fn plain_parameter<F: Fn(&mut Forest, Entry, usize) -> Result<usize, Fault>>(
    nested: &F,
    depth: u32,
    forest: &mut Forest,
    line: &Line,
    rest: usize,
) -> Result<usize, Fault>
    requires callable { F.IsAlwaysCallable nested.now }
    requires gives { GivesPhrases (F.post nested.now) line.now depth }
    ensures { Reads line.now (trees forest.old) (trees forest.new) result (called_ kinds.Parameter first_text (both (token name) (both (optional code colon (spec.parameter_annotation_at (phrase_at depth))) (optional code assign (both (token assign) (phrase_at depth e.Test))))) (drop rest line.now)) }
{
    let start = rest;
    let mark = forest.len();
    let rest = skip(line, rest, NAME)?;
    let rest = annotation_and_default(nested, depth, forest, line, rest)?;
    forest.reduce_named(
        Kind::Parameter,
        line.first_text(start, rest),
        mark,
        line,
        start,
        rest,
    )?;
    Ok(rest)
}

/// The name behind a star.
#[tactic(auto, using(parse_steps::proofs::Runs::behind_make, parse_steps::proofs::Runs::behind_after_is))]
fn starred_name<F: Fn(&mut Forest, Entry, usize) -> Result<usize, Fault>>(
    nested: &F,
    depth: u32,
    forest: &mut Forest,
    line: &Line,
    rest: usize,
) -> Result<usize, Fault>
    requires callable { F.IsAlwaysCallable nested.now }
    requires gives { GivesPhrases (F.post nested.now) line.now depth }
    ensures { Reads line.now (trees forest.old) (trees forest.new) result (both (token name) (optional code colon (spec.star_annotation_at (phrase_at depth))) (drop rest line.now)) }
{
    let rest = skip(line, rest, NAME)?;
    maybe_star_annotation(nested, depth, forest, line, rest)
}

/// The name behind a star, or nothing.
#[tactic(auto, using(parse_steps::proofs::Runs::behind_make, parse_steps::proofs::Runs::behind_after_is))]
fn maybe_starred_name<F: Fn(&mut Forest, Entry, usize) -> Result<usize, Fault>>(
    nested: &F,
    depth: u32,
    forest: &mut Forest,
    line: &Line,
    rest: usize,
) -> Result<usize, Fault>
    requires callable { F.IsAlwaysCallable nested.now }
    requires gives { GivesPhrases (F.post nested.now) line.now depth }
    ensures { Reads line.now (trees forest.old) (trees forest.new) result (optional code name (both (token name) (optional code colon (spec.star_annotation_at (phrase_at depth)))) (drop rest line.now)) }
{
    if line.at(rest, NAME) {
        starred_name(nested, depth, forest, line, rest)
    } else {
        Ok(rest)
    }
}

/// A star, maybe with a name.
#[tactic(auto, using(parse_steps::proofs::Runs::behind_make, parse_steps::proofs::Runs::behind_after_is))]
fn star_parameter<F: Fn(&mut Forest, Entry, usize) -> Result<usize, Fault>>(
    nested: &F,
    depth: u32,
    forest: &mut Forest,
    line: &Line,
    rest: usize,
) -> Result<usize, Fault>
    requires callable { F.IsAlwaysCallable nested.now }
    requires gives { GivesPhrases (F.post nested.now) line.now depth }
    ensures { Reads line.now (trees forest.old) (trees forest.new) result (made star_parameter (both (token star) (optional code name (both (token name) (optional code colon (spec.star_annotation_at (phrase_at depth)))))) (drop rest line.now)) }
{
    let start = rest;
    let mark = forest.len();
    let rest = skip(line, rest, STAR)?;
    let rest = maybe_starred_name(nested, depth, forest, line, rest)?;
    forest.star_parameter(mark, line, start, rest)?;
    Ok(rest)
}

/// Two stars and a name.
#[tactic(auto, using(parse_steps::proofs::Runs::behind_make, parse_steps::proofs::Runs::behind_after_is))]
fn double_star_parameter<F: Fn(&mut Forest, Entry, usize) -> Result<usize, Fault>>(
    nested: &F,
    depth: u32,
    forest: &mut Forest,
    line: &Line,
    rest: usize,
) -> Result<usize, Fault>
    requires callable { F.IsAlwaysCallable nested.now }
    requires gives { GivesPhrases (F.post nested.now) line.now depth }
    ensures { Reads line.now (trees forest.old) (trees forest.new) result (called_ kinds.DoubleStarParameter second_text (both (token double_star) (both (token name) (optional code colon (spec.parameter_annotation_at (phrase_at depth))))) (drop rest line.now)) }
{
    let start = rest;
    let mark = forest.len();
    let rest = skip(line, rest, DOUBLE_STAR)?;
    let rest = skip(line, rest, NAME)?;
    let rest = maybe_parameter_annotation(nested, depth, forest, line, rest)?;
    forest.reduce_named(
        Kind::DoubleStarParameter,
        line.second_text(start, rest),
        mark,
        line,
        start,
        rest,
    )?;
    Ok(rest)
}

/// A parameter.
#[tactic(auto, unfolding(py_grammar::specs::ReadingHeaders::parameter_at))]
fn parameter<F: Fn(&mut Forest, Entry, usize) -> Result<usize, Fault>>(
    nested: &F,
    depth: u32,
    forest: &mut Forest,
    line: &Line,
    rest: usize,
) -> Result<usize, Fault>
    requires callable { F.IsAlwaysCallable nested.now }
    requires gives { GivesPhrases (F.post nested.now) line.now depth }
    ensures { Reads line.now (trees forest.old) (trees forest.new) result (spec.parameter_at (phrase_at depth) (drop rest line.now)) }
{
    if line.at(rest, NAME) {
        plain_parameter(nested, depth, forest, line, rest)
    } else if line.at(rest, SLASH) {
        show_plain(forest, Kind::PositionalOnlyMark, line, rest, SLASH)
    } else if line.at(rest, STAR) {
        star_parameter(nested, depth, forest, line, rest)
    } else {
        double_star_parameter(nested, depth, forest, line, rest)
    }
}

/// Parameters in order.
#[tactic(auto, using(parse_steps::proofs::Runs::behind_make, parse_steps::proofs::Runs::behind_after_is, parse_steps::proofs::Runs::behind_filter), unfolding(py_grammar::specs::ReadingHeaders::parameters_at))]
fn parameters<F: Fn(&mut Forest, Entry, usize) -> Result<usize, Fault>>(
    nested: &F,
    depth: u32,
    forest: &mut Forest,
    line: &Line,
    rest: usize,
) -> Result<usize, Fault>
    requires callable { F.IsAlwaysCallable nested.now }
    requires gives { GivesPhrases (F.post nested.now) line.now depth }
    ensures { Reads line.now (trees forest.old) (trees forest.new) result (spec.parameters_at (phrase_at depth) (drop rest line.now)) }
{
    let mark = forest.len();
    let rest = list(
        &|wood: &mut Forest, rest: usize| parameter(nested, depth, wood, line, rest),
        depth,
        Part::Parameter,
        forest,
        line,
        rest,
    )?;
    if !forest.parameters_in_order(mark) {
        return Err(Fault::NoForm);
    }
    forest.keyword_only_behind_star(mark)?;
    Ok(rest)
}

/// Parameters, or none.
#[tactic(auto, using(parse_steps::proofs::Runs::behind_make, parse_steps::proofs::Runs::behind_after_is))]
pub fn maybe_parameters<F: Fn(&mut Forest, Entry, usize) -> Result<usize, Fault>>(
    nested: &F,
    depth: u32,
    forest: &mut Forest,
    line: &Line,
    rest: usize,
) -> Result<usize, Fault>
    requires callable { F.IsAlwaysCallable nested.now }
    requires gives { GivesPhrases (F.post nested.now) line.now depth }
    ensures { Reads line.now (trees forest.old) (trees forest.new) result (optional code parameter_first (spec.parameters_at (phrase_at depth)) (drop rest line.now)) }
{
    if line.at(rest, PARAMETER_FIRST) {
        parameters(nested, depth, forest, line, rest)
    } else {
        Ok(rest)
    }
}
