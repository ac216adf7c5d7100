// What stands behind an expression, and makes a statement with it.
ghost use Rattle.std.specs.Prelude.{◌≡◌, ℕ, ◌++◌, ◌∷◌, [], List, length, ◌≤◌, drop};
ghost use Rattle.tree_nodes.specs.Trees.{Tree};
ghost use Rattle.py_grammar.specs.Terminals.{code, Terminal};
ghost use Rattle.py_grammar.specs.Reading.{LineReader};
ghost use Rattle.py_grammar.specs.ReadingStatements as spec;
ghost use Rattle.py_grammar.specs.ReadingLines.{phrase_at};
ghost use Rattle.py_forest.specs.Forests.{trees};
ghost use Rattle.parse_steps.specs.Runs.{Reads, GivesPhrases};
ghost use Rattle.tree_nodes.specs.declared.kind.Kind.TheVariants as kinds;
ghost use Rattle.py_language.specs.Readers.{both, extended_where, many, optional, some};
ghost use Rattle.py_grammar.specs.declared.entry.Entry.TheVariants as e;
ghost use Rattle.py_grammar.specs.Words.{assign, augmented_operator, colon};
ghost use Rattle.py_grammar.specs.Nodes.{operator_leaf};
ghost use Rattle.py_grammar.specs.Statements.{targets_before_last as targets_before_last_spec, is_single_first as is_single_first_spec, assigned, augmented, annotated};
ghost use Rattle.py_grammar.specs.Reading.{token, leaf, as_};

use crate::round::{Round, again};
use crate::targets::{bind_before_last, bind_first, is_single_first, targets_before_last};
use parse_parts::{descend, sx, yield_};
use parse_steps::marks::{ASSIGN, AUGMENTED_OPERATOR, COLON, YIELD_WORD};
use parse_steps::{show_operator, skip};
use py_forest::{Fault, Forest};
use py_grammar::Entry;
use py_line::Line;
use tree_nodes::Kind;

/// A yield or expressions.
#[tactic(auto, using(parse_steps::proofs::Runs::behind_make, parse_steps::proofs::Runs::behind_after_is), unfolding(py_grammar::specs::ReadingStatements::value_at))]
fn value<F: Fn(&mut Forest, Entry, usize) -> Result<usize, Fault>>(
    nested: &F,
    depth: u32,
    forest: &mut Forest,
    line: &Line,
    rest: usize,
) -> Result<usize, Fault>
    requires callable { F.IsAlwaysCallable nested.now }
    requires gives { GivesPhrases (F.post nested.now) line.now depth }
    ensures { Reads line.now (trees forest.old) (trees forest.new) result (spec.value_at (phrase_at depth) (drop rest line.now)) }
{
    if line.at(rest, YIELD_WORD) {
        yield_(nested, depth, forest, line, rest)
    } else {
        sx(nested, depth, forest, line, rest)
    }
}

/// `=` and a value.
#[tactic(auto, using(parse_steps::proofs::Runs::behind_make, parse_steps::proofs::Runs::behind_after_is), unfolding(py_grammar::specs::ReadingStatements::assigned_value_at))]
fn assigned_value<F: Fn(&mut Forest, Entry, usize) -> Result<usize, Fault>>(
    nested: &F,
    depth: u32,
    forest: &mut Forest,
    line: &Line,
    rest: usize,
) -> Result<usize, Fault>
    requires callable { F.IsAlwaysCallable nested.now }
    requires gives { GivesPhrases (F.post nested.now) line.now depth }
    ensures { Reads line.now (trees forest.old) (trees forest.new) result (spec.assigned_value_at (phrase_at depth) (drop rest line.now)) }
{
    let rest = skip(line, rest, ASSIGN)?;
    value(nested, depth, forest, line, rest)
}

/// More of them.
fn more_values<F: Fn(&mut Forest, Entry, usize) -> Result<usize, Fault>>(
    nested: &F,
    depth: u32,
    forest: &mut Forest,
    line: &Line,
    rest: usize,
) -> Result<usize, Fault>
    requires callable { F.IsAlwaysCallable nested.now }
    requires gives { GivesPhrases (F.post nested.now) line.now depth }
    ensures { Reads line.now (trees forest.old) (trees forest.new) result (many code assign (spec.assigned_value_at (phrase_at depth)) (drop rest line.now)) }
{
    again(
        &|wood: &mut Forest, rest: usize| assigned_value(nested, depth, wood, line, rest),
        depth,
        Round::AssignedValue,
        forest,
        line,
        rest,
    )
}

/// `=` and values.
#[tactic(auto, using(parse_steps::proofs::Runs::behind_make, parse_steps::proofs::Runs::behind_after_is))]
fn assigned_values<F: Fn(&mut Forest, Entry, usize) -> Result<usize, Fault>>(
    nested: &F,
    depth: u32,
    forest: &mut Forest,
    line: &Line,
    rest: usize,
) -> Result<usize, Fault>
    requires callable { F.IsAlwaysCallable nested.now }
    requires gives { GivesPhrases (F.post nested.now) line.now depth }
    ensures { Reads line.now (trees forest.old) (trees forest.new) result (some code assign (spec.assigned_value_at (phrase_at depth)) (drop rest line.now)) }
{
    let rest = assigned_value(nested, depth, forest, line, rest)?;
    more_values(nested, depth, forest, line, rest)
}

/// `=` and a value, or nothing.
#[tactic(auto, using(parse_steps::proofs::Runs::behind_make, parse_steps::proofs::Runs::behind_after_is))]
fn maybe_assigned_value<F: Fn(&mut Forest, Entry, usize) -> Result<usize, Fault>>(
    nested: &F,
    depth: u32,
    forest: &mut Forest,
    line: &Line,
    rest: usize,
) -> Result<usize, Fault>
    requires callable { F.IsAlwaysCallable nested.now }
    requires gives { GivesPhrases (F.post nested.now) line.now depth }
    ensures { Reads line.now (trees forest.old) (trees forest.new) result (optional code assign (spec.assigned_value_at (phrase_at depth)) (drop rest line.now)) }
{
    if line.at(rest, ASSIGN) {
        assigned_value(nested, depth, forest, line, rest)
    } else {
        Ok(rest)
    }
}

/// `=` and values behind what stands from `mark` on.
#[tactic(auto)]
pub fn assignment<F: Fn(&mut Forest, Entry, usize) -> Result<usize, Fault>>(
    nested: &F,
    depth: u32,
    forest: &mut Forest,
    mark: usize,
    line: &Line,
    start: usize,
    rest: usize,
) -> Result<usize, Fault>
    requires callable { F.IsAlwaysCallable nested.now }
    requires gives { GivesPhrases (F.post nested.now) line.now depth }
    ensures { (below u : List Tree) → trees forest.old ≡ below ++ u → length below ≡ mark → Reads line.now below (trees forest.new) result (extended_where targets_before_last_spec assigned (some code assign (spec.assigned_value_at (phrase_at depth))) (drop start line.now) u (drop rest line.now)) }
{
    let rest = assigned_values(nested, depth, forest, line, rest)?;
    if !targets_before_last(forest, mark) {
        return Err(Fault::NoForm);
    }
    bind_before_last(forest, mark)?;
    forest.reduce(Kind::Assign, mark, line, start, rest)?;
    Ok(rest)
}

/// An operator and a value behind what stands from `mark` on.
#[tactic(auto)]
pub fn augmentation<F: Fn(&mut Forest, Entry, usize) -> Result<usize, Fault>>(
    nested: &F,
    depth: u32,
    forest: &mut Forest,
    mark: usize,
    line: &Line,
    start: usize,
    rest: usize,
) -> Result<usize, Fault>
    requires callable { F.IsAlwaysCallable nested.now }
    requires gives { GivesPhrases (F.post nested.now) line.now depth }
    ensures { (below u : List Tree) → trees forest.old ≡ below ++ u → length below ≡ mark → Reads line.now below (trees forest.new) result (extended_where is_single_first_spec augmented (both (leaf operator_leaf augmented_operator) (spec.value_at (phrase_at depth))) (drop start line.now) u (drop rest line.now)) }
{
    let rest = show_operator(forest, line, rest, AUGMENTED_OPERATOR)?;
    let rest = value(nested, depth, forest, line, rest)?;
    if !is_single_first(forest, mark) {
        return Err(Fault::NoForm);
    }
    bind_first(forest, mark)?;
    forest.reduce(Kind::AugAssign, mark, line, start, rest)?;
    Ok(rest)
}

/// What is said of a name.
#[tactic(auto, using(parse_steps::proofs::Runs::behind_make, parse_steps::proofs::Runs::behind_after_is))]
pub fn annotation<F: Fn(&mut Forest, Entry, usize) -> Result<usize, Fault>>(
    nested: &F,
    depth: u32,
    forest: &mut Forest,
    line: &Line,
    rest: usize,
) -> Result<usize, Fault>
    requires callable { F.IsAlwaysCallable nested.now }
    requires gives { GivesPhrases (F.post nested.now) line.now depth }
    ensures { Reads line.now (trees forest.old) (trees forest.new) result (as_ kinds.Annotation (phrase_at depth e.Test) (drop rest line.now)) }
{
    let start = rest;
    let mark = forest.len();
    let rest = descend(nested, depth, forest, Entry::Test, line, rest)?;
    forest.reduce(Kind::Annotation, mark, line, start, rest)?;
    Ok(rest)
}

/// `:` and an annotation, maybe with a value.
#[tactic(auto, using(parse_steps::proofs::Runs::behind_make, parse_steps::proofs::Runs::behind_after_is))]
fn annotation_and_value<F: Fn(&mut Forest, Entry, usize) -> Result<usize, Fault>>(
    nested: &F,
    depth: u32,
    forest: &mut Forest,
    line: &Line,
    rest: usize,
) -> Result<usize, Fault>
    requires callable { F.IsAlwaysCallable nested.now }
    requires gives { GivesPhrases (F.post nested.now) line.now depth }
    ensures { Reads line.now (trees forest.old) (trees forest.new) result (both (token colon) (both (as_ kinds.Annotation (phrase_at depth e.Test)) (optional code assign (spec.assigned_value_at (phrase_at depth)))) (drop rest line.now)) }
{
    let rest = skip(line, rest, COLON)?;
    let rest = annotation(nested, depth, forest, line, rest)?;
    maybe_assigned_value(nested, depth, forest, line, rest)
}

/// An annotation behind what stands from `mark` on.
#[tactic(auto)]
pub fn annotated_name<F: Fn(&mut Forest, Entry, usize) -> Result<usize, Fault>>(
    nested: &F,
    depth: u32,
    forest: &mut Forest,
    mark: usize,
    line: &Line,
    start: usize,
    rest: usize,
) -> Result<usize, Fault>
    requires callable { F.IsAlwaysCallable nested.now }
    requires gives { GivesPhrases (F.post nested.now) line.now depth }
    ensures { (below u : List Tree) → trees forest.old ≡ below ++ u → length below ≡ mark → Reads line.now below (trees forest.new) result (extended_where is_single_first_spec annotated (both (token colon) (both (as_ kinds.Annotation (phrase_at depth e.Test)) (optional code assign (spec.assigned_value_at (phrase_at depth))))) (drop start line.now) u (drop rest line.now)) }
{
    let rest = annotation_and_value(nested, depth, forest, line, rest)?;
    if !is_single_first(forest, mark) {
        return Err(Fault::NoForm);
    }
    bind_first(forest, mark)?;
    forest.reduce(Kind::AnnAssign, mark, line, start, rest)?;
    Ok(rest)
}
