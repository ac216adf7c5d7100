// Lambdas.
ghost use Rattle.std.specs.Prelude.{◌≡◌, ℕ, List, drop};
ghost use Rattle.tree_nodes.specs.Trees.{Tree};
ghost use Rattle.py_language.specs.Readers.{both, optional, where_};
ghost use Rattle.py_grammar.specs.declared.entry.Entry.TheVariants as e;
ghost use Rattle.py_grammar.specs.Terminals.{code, Terminal};
ghost use Rattle.py_grammar.specs.Words.{colon};
ghost use Rattle.py_grammar.specs.Firsts.{parameter_first};
ghost use Rattle.py_grammar.specs.Tests.{parameters_in_order};
ghost use Rattle.py_grammar.specs.Reading as spec;
ghost use Rattle.py_grammar.specs.Reading.{commas, token};
ghost use Rattle.py_grammar.specs.ReadingLines.{phrase_at};
ghost use Rattle.py_forest.specs.Forests.{trees};
ghost use Rattle.parse_steps.specs.Runs.{Reads, GivesPhrases};

use parse_parts::{Part, descend, list};
use parse_steps::marks::{COLON, LAMBDA_WORD, PARAMETER_FIRST};
use parse_steps::skip;
use py_forest::{Fault, Forest};
use py_grammar::Entry;
use py_line::Line;
use tree_nodes::Kind;

/// Parameters in order.
#[tactic(auto, using(parse_steps::proofs::Runs::behind_filter))]
fn in_order<F: Fn(&mut Forest, Entry, usize) -> Result<usize, Fault>>(
    nested: &F,
    depth: u32,
    forest: &mut Forest,
    line: &Line,
    rest: usize,
) -> Result<usize, Fault>
    requires callable { F.IsAlwaysCallable nested.now }
    requires gives { GivesPhrases (F.post nested.now) line.now depth }
    ensures { Reads line.now (trees forest.old) (trees forest.new) result (where_ parameters_in_order (commas parameter_first (spec.lambda_parameter_at (phrase_at depth))) (drop rest line.now)) }
{
    let mark = forest.len();
    let rest = list(nested, depth, forest, Part::LambdaParameter, line, rest)?;
    if !forest.parameters_in_order(mark) {
        return Err(Fault::NoForm);
    }
    Ok(rest)
}

/// The parameters of a lambda.
#[tactic(auto, using(parse_steps::proofs::Runs::behind_make), unfolding(py_grammar::specs::Reading::lambda_parameters_at))]
fn lambda_parameters<F: Fn(&mut Forest, Entry, usize) -> Result<usize, Fault>>(
    nested: &F,
    depth: u32,
    forest: &mut Forest,
    line: &Line,
    rest: usize,
) -> Result<usize, Fault>
    requires callable { F.IsAlwaysCallable nested.now }
    requires gives { GivesPhrases (F.post nested.now) line.now depth }
    ensures { Reads line.now (trees forest.old) (trees forest.new) result (spec.lambda_parameters_at (phrase_at depth) (drop rest line.now)) }
{
    let mark = forest.len();
    let rest = in_order(nested, depth, forest, line, rest)?;
    forest.keyword_only_behind_star(mark)?;
    Ok(rest)
}

/// Parameters, or none.
#[tactic(auto, using(parse_steps::proofs::Runs::behind_make, parse_steps::proofs::Runs::behind_after_is))]
fn maybe_lambda_parameters<F: Fn(&mut Forest, Entry, usize) -> Result<usize, Fault>>(
    nested: &F,
    depth: u32,
    forest: &mut Forest,
    line: &Line,
    rest: usize,
) -> Result<usize, Fault>
    requires callable { F.IsAlwaysCallable nested.now }
    requires gives { GivesPhrases (F.post nested.now) line.now depth }
    ensures { Reads line.now (trees forest.old) (trees forest.new) result (optional code parameter_first (spec.lambda_parameters_at (phrase_at depth)) (drop rest line.now)) }
{
    if line.at(rest, PARAMETER_FIRST) {
        lambda_parameters(nested, depth, forest, line, rest)
    } else {
        Ok(rest)
    }
}

/// A colon and a test.
#[tactic(auto, using(parse_steps::proofs::Runs::behind_after_is))]
fn body<F: Fn(&mut Forest, Entry, usize) -> Result<usize, Fault>>(
    nested: &F,
    depth: u32,
    forest: &mut Forest,
    line: &Line,
    rest: usize,
) -> Result<usize, Fault>
    requires callable { F.IsAlwaysCallable nested.now }
    requires gives { GivesPhrases (F.post nested.now) line.now depth }
    ensures { Reads line.now (trees forest.old) (trees forest.new) result (both (token colon) (phrase_at depth e.Test) (drop rest line.now)) }
{
    let rest = skip(line, rest, COLON)?;
    descend(nested, depth, forest, Entry::Test, line, rest)
}

/// `lambda`, parameters and a body.
#[tactic(auto, using(parse_steps::proofs::Runs::behind_make, parse_steps::proofs::Runs::behind_after_is), unfolding(py_grammar::specs::Reading::lambda_at))]
pub fn lambda<F: Fn(&mut Forest, Entry, usize) -> Result<usize, Fault>>(
    nested: &F,
    depth: u32,
    forest: &mut Forest,
    line: &Line,
    rest: usize,
) -> Result<usize, Fault>
    requires callable { F.IsAlwaysCallable nested.now }
    requires gives { GivesPhrases (F.post nested.now) line.now depth }
    ensures { Reads line.now (trees forest.old) (trees forest.new) result (spec.lambda_at (phrase_at depth) (drop rest line.now)) }
{
    let start = rest;
    let mark = forest.len();
    let rest = skip(line, rest, LAMBDA_WORD)?;
    let rest = maybe_lambda_parameters(nested, depth, forest, line, rest)?;
    let rest = body(nested, depth, forest, line, rest)?;
    forest.reduce(Kind::Lambda, mark, line, start, rest)?;
    Ok(rest)
}
