// Headers of functions and classes.
ghost use Rattle.std.specs.Prelude.{drop};
ghost use Rattle.py_grammar.specs.Terminals.{code};
ghost use Rattle.py_grammar.specs.ReadingHeaders as spec;
ghost use Rattle.py_grammar.specs.ReadingLines.{phrase_at};
ghost use Rattle.py_forest.specs.Forests.{trees};
ghost use Rattle.parse_steps.specs.Runs.{Reads, GivesPhrases};
ghost use Rattle.tree_nodes.specs.declared.kind.Kind.TheVariants as kinds;
ghost use Rattle.py_language.specs.Readers.{both, optional};
ghost use Rattle.py_grammar.specs.declared.entry.Entry.TheVariants as e;
ghost use Rattle.py_grammar.specs.Words.{arrow, left_paren};
ghost use Rattle.py_grammar.specs.Firsts.{argument_first, parameter_first};
ghost use Rattle.py_grammar.specs.Reading.{token, as_, parenthesized, arguments_at};

use crate::parameters::maybe_parameters;
use parse_displays::arguments;
use parse_statement::annotation;
use parse_steps::marks::{
    ARGUMENT_FIRST, ARROW, CLASS_WORD, DEF_WORD, LEFT_PAREN, NAME, RIGHT_PAREN,
};
use parse_steps::skip;
use py_forest::{Fault, Forest};
use py_grammar::Entry;
use py_line::Line;

/// Parameters in round brackets.
#[tactic(auto, using(parse_steps::proofs::Runs::behind_make, parse_steps::proofs::Runs::behind_after_is))]
fn bracketed_parameters<F: Fn(&mut Forest, Entry, usize) -> Result<usize, Fault>>(
    nested: &F,
    depth: u32,
    forest: &mut Forest,
    line: &Line,
    rest: usize,
) -> Result<usize, Fault>
    requires callable { F.IsAlwaysCallable nested.now }
    requires gives { GivesPhrases (F.post nested.now) line.now depth }
    ensures { Reads line.now (trees forest.old) (trees forest.new) result (parenthesized (optional code parameter_first (spec.parameters_at (phrase_at depth))) (drop rest line.now)) }
{
    let rest = skip(line, rest, LEFT_PAREN)?;
    let rest = maybe_parameters(nested, depth, forest, line, rest)?;
    skip(line, rest, RIGHT_PAREN)
}

/// What is said of the value.
#[tactic(auto, using(parse_steps::proofs::Runs::behind_make, parse_steps::proofs::Runs::behind_after_is))]
fn given<F: Fn(&mut Forest, Entry, usize) -> Result<usize, Fault>>(
    nested: &F,
    depth: u32,
    forest: &mut Forest,
    line: &Line,
    rest: usize,
) -> Result<usize, Fault>
    requires callable { F.IsAlwaysCallable nested.now }
    requires gives { GivesPhrases (F.post nested.now) line.now depth }
    ensures { Reads line.now (trees forest.old) (trees forest.new) result (both (token arrow) (as_ kinds.Annotation (phrase_at depth e.Test)) (drop rest line.now)) }
{
    let rest = skip(line, rest, ARROW)?;
    annotation(nested, depth, forest, line, rest)
}

/// The same, or nothing.
#[tactic(auto, using(parse_steps::proofs::Runs::behind_make, parse_steps::proofs::Runs::behind_after_is))]
fn maybe_given<F: Fn(&mut Forest, Entry, usize) -> Result<usize, Fault>>(
    nested: &F,
    depth: u32,
    forest: &mut Forest,
    line: &Line,
    rest: usize,
) -> Result<usize, Fault>
    requires callable { F.IsAlwaysCallable nested.now }
    requires gives { GivesPhrases (F.post nested.now) line.now depth }
    ensures { Reads line.now (trees forest.old) (trees forest.new) result (optional code arrow (both (token arrow) (as_ kinds.Annotation (phrase_at depth e.Test))) (drop rest line.now)) }
{
    if line.at(rest, ARROW) {
        given(nested, depth, forest, line, rest)
    } else {
        Ok(rest)
    }
}

/// `def`, a name, parameters, and what is said of the value.
#[tactic(auto, using(parse_steps::proofs::Runs::behind_make, parse_steps::proofs::Runs::behind_after_is), unfolding(py_grammar::specs::ReadingHeaders::function_header_at))]
pub fn function_header<F: Fn(&mut Forest, Entry, usize) -> Result<usize, Fault>>(
    nested: &F,
    depth: u32,
    forest: &mut Forest,
    line: &Line,
    rest: usize,
) -> Result<usize, Fault>
    requires callable { F.IsAlwaysCallable nested.now }
    requires gives { GivesPhrases (F.post nested.now) line.now depth }
    ensures { Reads line.now (trees forest.old) (trees forest.new) result (spec.function_header_at (phrase_at depth) (drop rest line.now)) }
{
    let rest = skip(line, rest, DEF_WORD)?;
    let rest = skip(line, rest, NAME)?;
    let rest = bracketed_parameters(nested, depth, forest, line, rest)?;
    maybe_given(nested, depth, forest, line, rest)
}

/// Arguments, or none.
#[tactic(auto, using(parse_steps::proofs::Runs::behind_make, parse_steps::proofs::Runs::behind_after_is))]
fn maybe_arguments<F: Fn(&mut Forest, Entry, usize) -> Result<usize, Fault>>(
    nested: &F,
    depth: u32,
    forest: &mut Forest,
    line: &Line,
    rest: usize,
) -> Result<usize, Fault>
    requires callable { F.IsAlwaysCallable nested.now }
    requires gives { GivesPhrases (F.post nested.now) line.now depth }
    ensures { Reads line.now (trees forest.old) (trees forest.new) result (optional code argument_first (arguments_at (phrase_at depth)) (drop rest line.now)) }
{
    if line.at(rest, ARGUMENT_FIRST) {
        arguments(nested, depth, forest, line, rest)
    } else {
        Ok(rest)
    }
}

/// Arguments in round brackets.
#[tactic(auto, using(parse_steps::proofs::Runs::behind_make, parse_steps::proofs::Runs::behind_after_is))]
fn bracketed_arguments<F: Fn(&mut Forest, Entry, usize) -> Result<usize, Fault>>(
    nested: &F,
    depth: u32,
    forest: &mut Forest,
    line: &Line,
    rest: usize,
) -> Result<usize, Fault>
    requires callable { F.IsAlwaysCallable nested.now }
    requires gives { GivesPhrases (F.post nested.now) line.now depth }
    ensures { Reads line.now (trees forest.old) (trees forest.new) result (parenthesized (optional code argument_first (arguments_at (phrase_at depth))) (drop rest line.now)) }
{
    let rest = skip(line, rest, LEFT_PAREN)?;
    let rest = maybe_arguments(nested, depth, forest, line, rest)?;
    skip(line, rest, RIGHT_PAREN)
}

/// The same, or nothing.
#[tactic(auto, using(parse_steps::proofs::Runs::behind_make, parse_steps::proofs::Runs::behind_after_is))]
fn maybe_bracketed_arguments<F: Fn(&mut Forest, Entry, usize) -> Result<usize, Fault>>(
    nested: &F,
    depth: u32,
    forest: &mut Forest,
    line: &Line,
    rest: usize,
) -> Result<usize, Fault>
    requires callable { F.IsAlwaysCallable nested.now }
    requires gives { GivesPhrases (F.post nested.now) line.now depth }
    ensures { Reads line.now (trees forest.old) (trees forest.new) result (optional code left_paren (parenthesized (optional code argument_first (arguments_at (phrase_at depth)))) (drop rest line.now)) }
{
    if line.at(rest, LEFT_PAREN) {
        bracketed_arguments(nested, depth, forest, line, rest)
    } else {
        Ok(rest)
    }
}

/// `class`, a name, and arguments.
#[tactic(auto, using(parse_steps::proofs::Runs::behind_make, parse_steps::proofs::Runs::behind_after_is), unfolding(py_grammar::specs::ReadingHeaders::class_header_at))]
pub fn class_header<F: Fn(&mut Forest, Entry, usize) -> Result<usize, Fault>>(
    nested: &F,
    depth: u32,
    forest: &mut Forest,
    line: &Line,
    rest: usize,
) -> Result<usize, Fault>
    requires callable { F.IsAlwaysCallable nested.now }
    requires gives { GivesPhrases (F.post nested.now) line.now depth }
    ensures { Reads line.now (trees forest.old) (trees forest.new) result (spec.class_header_at (phrase_at depth) (drop rest line.now)) }
{
    let rest = skip(line, rest, CLASS_WORD)?;
    let rest = skip(line, rest, NAME)?;
    maybe_bracketed_arguments(nested, depth, forest, line, rest)
}
