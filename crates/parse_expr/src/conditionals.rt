// Conditional expressions.
ghost use Rattle.std.specs.Prelude.{◌≡◌, ℕ, List, drop};
ghost use Rattle.tree_nodes.specs.declared.kind.Kind.TheVariants as kinds;
ghost use Rattle.py_language.specs.Languages.{whole};
ghost use Rattle.py_language.specs.Readers.{both, followed, extended, maybe_more};
ghost use Rattle.py_grammar.specs.declared.entry.Entry.TheVariants as e;
ghost use Rattle.py_grammar.specs.Words.{else_word, if_word};
ghost use Rattle.py_grammar.specs.Terminals.{code};
ghost use Rattle.py_grammar.specs.Nodes.{spanning};
ghost use Rattle.py_grammar.specs.Reading.{token};
ghost use Rattle.py_grammar.specs.Reading as spec;
ghost use Rattle.py_grammar.specs.ReadingLines.{phrase_at};
ghost use Rattle.py_forest.specs.Forests.{trees};
ghost use Rattle.parse_steps.specs.Runs.{Reads, GivesPhrases};

use crate::lambdas::lambda;
use crate::operators::or;
use parse_parts::descend;
use parse_steps::marks::{ELSE_WORD, IF_WORD, LAMBDA_WORD};
use parse_steps::skip;
use py_forest::{Fault, Forest};
use py_grammar::Entry;
use py_line::Line;
use tree_nodes::Kind;

/// `else` and a test.
#[tactic(auto, using(parse_steps::proofs::Runs::behind_after_is))]
fn otherwise<F: Fn(&mut Forest, Entry, usize) -> Result<usize, Fault>>(
    nested: &F,
    depth: u32,
    forest: &mut Forest,
    line: &Line,
    rest: usize,
) -> Result<usize, Fault>
    requires callable { F.IsAlwaysCallable nested.now }
    requires gives { GivesPhrases (F.post nested.now) line.now depth }
    ensures { Reads line.now (trees forest.old) (trees forest.new) result (both (token else_word) (phrase_at depth e.Test) (drop rest line.now)) }
{
    let rest = skip(line, rest, ELSE_WORD)?;
    descend(nested, depth, forest, Entry::Test, line, rest)
}

/// `if` and a condition, and what holds else.
#[tactic(auto, using(parse_steps::proofs::Runs::behind_after_is))]
fn condition<F: Fn(&mut Forest, Entry, usize) -> Result<usize, Fault>>(
    nested: &F,
    depth: u32,
    forest: &mut Forest,
    line: &Line,
    rest: usize,
) -> Result<usize, Fault>
    requires callable { F.IsAlwaysCallable nested.now }
    requires gives { GivesPhrases (F.post nested.now) line.now depth }
    ensures { Reads line.now (trees forest.old) (trees forest.new) result (both (token if_word) (both (spec.or_at (phrase_at depth)) (both (token else_word) (phrase_at depth e.Test))) (drop rest line.now)) }
{
    let rest = skip(line, rest, IF_WORD)?;
    let rest = or(nested, depth, forest, line, rest)?;
    otherwise(nested, depth, forest, line, rest)
}

/// A row of `or`, maybe with a condition.
#[tactic(auto, using(parse_steps::proofs::Runs::behind_maybe_more))]
fn conditional<F: Fn(&mut Forest, Entry, usize) -> Result<usize, Fault>>(
    nested: &F,
    depth: u32,
    forest: &mut Forest,
    line: &Line,
    rest: usize,
) -> Result<usize, Fault>
    requires callable { F.IsAlwaysCallable nested.now }
    requires gives { GivesPhrases (F.post nested.now) line.now depth }
    ensures { Reads line.now (trees forest.old) (trees forest.new) result (followed (spec.or_at (phrase_at depth)) (maybe_more code if_word (extended (whole (spanning kinds.Conditional)) (both (token if_word) (both (spec.or_at (phrase_at depth)) (both (token else_word) (phrase_at depth e.Test)))))) (drop rest line.now)) }
{
    let start = rest;
    let mark = forest.len();
    let rest = or(nested, depth, forest, line, rest)?;
    if line.at(rest, IF_WORD) {
        let rest = condition(nested, depth, forest, line, rest)?;
        forest.reduce(Kind::Conditional, mark, line, start, rest)?;
        Ok(rest)
    } else {
        Ok(rest)
    }
}

/// A lambda, or a row of `or` that may have a condition.
#[tactic(auto, unfolding(py_grammar::specs::Reading::test_at))]
pub fn test<F: Fn(&mut Forest, Entry, usize) -> Result<usize, Fault>>(
    nested: &F,
    depth: u32,
    forest: &mut Forest,
    line: &Line,
    rest: usize,
) -> Result<usize, Fault>
    requires callable { F.IsAlwaysCallable nested.now }
    requires gives { GivesPhrases (F.post nested.now) line.now depth }
    ensures { Reads line.now (trees forest.old) (trees forest.new) result (spec.test_at (phrase_at depth) (drop rest line.now)) }
{
    if line.at(rest, LAMBDA_WORD) {
        lambda(nested, depth, forest, line, rest)
    } else {
        conditional(nested, depth, forest, line, rest)
    }
}
