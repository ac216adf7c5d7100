// Clauses of comprehensions.
ghost use Rattle.std.specs.Prelude.{drop};
ghost use Rattle.py_grammar.specs.Terminals.{code};
ghost use Rattle.py_grammar.specs.Reading as spec;
ghost use Rattle.py_grammar.specs.ReadingLines.{phrase_at};
ghost use Rattle.py_forest.specs.Forests.{trees};
ghost use Rattle.parse_steps.specs.Runs.{Reads, GivesPhrases};
ghost use Rattle.py_language.specs.Readers.{both, many};
ghost use Rattle.py_grammar.specs.declared.entry.Entry.TheVariants as e;
ghost use Rattle.py_grammar.specs.Words.{if_word};
ghost use Rattle.py_grammar.specs.Firsts.{clause_first};
ghost use Rattle.py_grammar.specs.Reading.{token};

use parse_parts::{Part, Round, again, descend, tupled};
use parse_steps::marks::{ASYNC_WORD, FOR_WORD, IF_WORD, IN_WORD};
use parse_steps::skip;
use py_forest::{Fault, Forest};
use py_grammar::Entry;
use py_line::Line;
use tree_nodes::Kind;

/// What a loop binds.
#[tactic(auto, using(parse_steps::proofs::Runs::behind_make, parse_steps::proofs::Runs::behind_after_is, parse_steps::proofs::Runs::behind_filter), unfolding(py_grammar::specs::Reading::targets_at))]
pub fn targets<F: Fn(&mut Forest, Entry, usize) -> Result<usize, Fault>>(
    nested: &F,
    depth: u32,
    forest: &mut Forest,
    line: &Line,
    rest: usize,
) -> Result<usize, Fault>
    requires callable { F.IsAlwaysCallable nested.now }
    requires gives { GivesPhrases (F.post nested.now) line.now depth }
    ensures { Reads line.now (trees forest.old) (trees forest.new) result (spec.targets_at (phrase_at depth) (drop rest line.now)) }
{
    let mark = forest.len();
    let rest = tupled(
        nested,
        depth,
        forest,
        Kind::Tuple,
        Part::TargetItem,
        line,
        rest,
    )?;
    if !forest.is_one_target(mark) {
        return Err(Fault::NoForm);
    }
    forest.bind(mark)?;
    Ok(rest)
}

/// A condition.
#[tactic(auto, using(parse_steps::proofs::Runs::behind_make, parse_steps::proofs::Runs::behind_after_is))]
fn condition<F: Fn(&mut Forest, Entry, usize) -> Result<usize, Fault>>(
    nested: &F,
    depth: u32,
    forest: &mut Forest,
    line: &Line,
    rest: usize,
) -> Result<usize, Fault>
    requires callable { F.IsAlwaysCallable nested.now }
    requires gives { GivesPhrases (F.post nested.now) line.now depth }
    ensures { Reads line.now (trees forest.old) (trees forest.new) result (both (token if_word) (phrase_at depth e.Or) (drop rest line.now)) }
{
    let rest = skip(line, rest, IF_WORD)?;
    descend(nested, depth, forest, Entry::Or, line, rest)
}

/// Conditions.
fn conditions<F: Fn(&mut Forest, Entry, usize) -> Result<usize, Fault>>(
    nested: &F,
    depth: u32,
    forest: &mut Forest,
    line: &Line,
    rest: usize,
) -> Result<usize, Fault>
    requires callable { F.IsAlwaysCallable nested.now }
    requires gives { GivesPhrases (F.post nested.now) line.now depth }
    ensures { Reads line.now (trees forest.old) (trees forest.new) result (many code if_word (both (token if_word) (phrase_at depth e.Or)) (drop rest line.now)) }
{
    again(
        &|wood: &mut Forest, rest: usize| condition(nested, depth, wood, line, rest),
        depth,
        Round::Condition,
        forest,
        line,
        rest,
    )
}

/// A loop and its conditions, from `for` on.
#[tactic(auto, using(parse_steps::proofs::Runs::behind_make, parse_steps::proofs::Runs::behind_after_is), unfolding(py_grammar::specs::Reading::for_clause_at))]
fn for_clause<F: Fn(&mut Forest, Entry, usize) -> Result<usize, Fault>>(
    nested: &F,
    depth: u32,
    forest: &mut Forest,
    line: &Line,
    rest: usize,
) -> Result<usize, Fault>
    requires callable { F.IsAlwaysCallable nested.now }
    requires gives { GivesPhrases (F.post nested.now) line.now depth }
    ensures { Reads line.now (trees forest.old) (trees forest.new) result (spec.for_clause_at (phrase_at depth) (drop rest line.now)) }
{
    let rest = skip(line, rest, FOR_WORD)?;
    let rest = targets(nested, depth, forest, line, rest)?;
    let rest = skip(line, rest, IN_WORD)?;
    let rest = descend(nested, depth, forest, Entry::Or, line, rest)?;
    conditions(nested, depth, forest, line, rest)
}

/// A clause of a comprehension.
#[tactic(auto, using(parse_steps::proofs::Runs::behind_make, parse_steps::proofs::Runs::behind_after_is), unfolding(py_grammar::specs::Reading::clause_at))]
fn clause<F: Fn(&mut Forest, Entry, usize) -> Result<usize, Fault>>(
    nested: &F,
    depth: u32,
    forest: &mut Forest,
    line: &Line,
    rest: usize,
) -> Result<usize, Fault>
    requires callable { F.IsAlwaysCallable nested.now }
    requires gives { GivesPhrases (F.post nested.now) line.now depth }
    ensures { Reads line.now (trees forest.old) (trees forest.new) result (spec.clause_at (phrase_at depth) (drop rest line.now)) }
{
    let start = rest;
    let mark = forest.len();
    if line.at(rest, ASYNC_WORD) {
        let rest = skip(line, rest, ASYNC_WORD)?;
        let rest = for_clause(nested, depth, forest, line, rest)?;
        forest.reduce(Kind::AsyncComprehensionFor, mark, line, start, rest)?;
        Ok(rest)
    } else {
        let rest = for_clause(nested, depth, forest, line, rest)?;
        forest.reduce(Kind::ComprehensionFor, mark, line, start, rest)?;
        Ok(rest)
    }
}

/// More clauses.
fn more_clauses<F: Fn(&mut Forest, Entry, usize) -> Result<usize, Fault>>(
    nested: &F,
    depth: u32,
    forest: &mut Forest,
    line: &Line,
    rest: usize,
) -> Result<usize, Fault>
    requires callable { F.IsAlwaysCallable nested.now }
    requires gives { GivesPhrases (F.post nested.now) line.now depth }
    ensures { Reads line.now (trees forest.old) (trees forest.new) result (many code clause_first (spec.clause_at (phrase_at depth)) (drop rest line.now)) }
{
    again(
        &|wood: &mut Forest, rest: usize| clause(nested, depth, wood, line, rest),
        depth,
        Round::Clause,
        forest,
        line,
        rest,
    )
}

/// The clauses of a comprehension.
#[tactic(auto, using(parse_steps::proofs::Runs::behind_make, parse_steps::proofs::Runs::behind_after_is), unfolding(py_grammar::specs::Reading::clauses_at))]
pub fn clauses<F: Fn(&mut Forest, Entry, usize) -> Result<usize, Fault>>(
    nested: &F,
    depth: u32,
    forest: &mut Forest,
    line: &Line,
    rest: usize,
) -> Result<usize, Fault>
    requires callable { F.IsAlwaysCallable nested.now }
    requires gives { GivesPhrases (F.post nested.now) line.now depth }
    ensures { Reads line.now (trees forest.old) (trees forest.new) result (spec.clauses_at (phrase_at depth) (drop rest line.now)) }
{
    let rest = clause(nested, depth, forest, line, rest)?;
    more_clauses(nested, depth, forest, line, rest)
}
