// The fields of f-strings.
ghost use Rattle.std.specs.Prelude.{◌≡◌, ℕ, List, drop};
ghost use Rattle.tree_nodes.specs.Trees.{Tree};
ghost use Rattle.py_language.specs.Readers.{many};
ghost use Rattle.py_grammar.specs.Terminals.{code, Terminal};
ghost use Rattle.py_grammar.specs.Words.{field_open};
ghost use Rattle.py_grammar.specs.Reading as spec;
ghost use Rattle.py_grammar.specs.ReadingLines.{phrase_at};
ghost use Rattle.py_forest.specs.Forests.{trees};
ghost use Rattle.parse_steps.specs.Runs.{Reads, GivesPhrases, GivesReader};

use parse_parts::{Round, again, sx, yield_};
use parse_steps::marks::{FIELD_CLOSE, FIELD_OPEN, YIELD_WORD};
use parse_steps::skip;
use py_forest::{Fault, Forest};
use py_grammar::Entry;
use py_line::Line;
use tree_nodes::Kind;

/// What a field holds.
#[tactic(auto, unfolding(py_grammar::specs::Reading::field_expression_at))]
fn field_expression<F: Fn(&mut Forest, Entry, usize) -> Result<usize, Fault>>(
    nested: &F,
    depth: u32,
    forest: &mut Forest,
    line: &Line,
    rest: usize,
) -> Result<usize, Fault>
    requires callable { F.IsAlwaysCallable nested.now }
    requires gives { GivesPhrases (F.post nested.now) line.now depth }
    ensures { Reads line.now (trees forest.old) (trees forest.new) result (spec.field_expression_at (phrase_at depth) (drop rest line.now)) }
{
    if line.at(rest, YIELD_WORD) {
        yield_(nested, depth, forest, line, rest)
    } else {
        sx(nested, depth, forest, line, rest)
    }
}

/// A field of a format.
#[tactic(auto, using(parse_steps::proofs::Runs::behind_make, parse_steps::proofs::Runs::behind_after_is), unfolding(py_grammar::specs::Reading::inner_field_at))]
fn inner_field<F: Fn(&mut Forest, Entry, usize) -> Result<usize, Fault>>(
    nested: &F,
    depth: u32,
    forest: &mut Forest,
    line: &Line,
    rest: usize,
) -> Result<usize, Fault>
    requires callable { F.IsAlwaysCallable nested.now }
    requires gives { GivesPhrases (F.post nested.now) line.now depth }
    ensures { Reads line.now (trees forest.old) (trees forest.new) result (spec.inner_field_at (phrase_at depth) (drop rest line.now)) }
{
    let start = rest;
    let mark = forest.len();
    let rest = skip(line, rest, FIELD_OPEN)?;
    let rest = field_expression(nested, depth, forest, line, rest)?;
    let rest = skip(line, rest, FIELD_CLOSE)?;
    forest.reduce(Kind::Field, mark, line, start, rest)?;
    Ok(rest)
}

/// The fields of a format.
fn inner_fields<F: Fn(&mut Forest, Entry, usize) -> Result<usize, Fault>>(
    nested: &F,
    depth: u32,
    forest: &mut Forest,
    line: &Line,
    rest: usize,
) -> Result<usize, Fault>
    requires callable { F.IsAlwaysCallable nested.now }
    requires gives { GivesPhrases (F.post nested.now) line.now depth }
    ensures { Reads line.now (trees forest.old) (trees forest.new) result (many code field_open (spec.inner_field_at (phrase_at depth)) (drop rest line.now)) }
{
    again(
        &|wood: &mut Forest, rest: usize| inner_field(nested, depth, wood, line, rest),
        depth,
        Round::InnerField,
        forest,
        line,
        rest,
    )
}

/// A field of a string, with the fields of its format.
#[tactic(auto, using(parse_steps::proofs::Runs::behind_make, parse_steps::proofs::Runs::behind_after_is), unfolding(py_grammar::specs::Reading::field_at))]
fn field<F: Fn(&mut Forest, Entry, usize) -> Result<usize, Fault>>(
    nested: &F,
    depth: u32,
    forest: &mut Forest,
    line: &Line,
    rest: usize,
) -> Result<usize, Fault>
    requires callable { F.IsAlwaysCallable nested.now }
    requires gives { GivesPhrases (F.post nested.now) line.now depth }
    ensures { Reads line.now (trees forest.old) (trees forest.new) result (spec.field_at (phrase_at depth) (drop rest line.now)) }
{
    let start = rest;
    let mark = forest.len();
    let rest = skip(line, rest, FIELD_OPEN)?;
    let rest = field_expression(nested, depth, forest, line, rest)?;
    let rest = inner_fields(nested, depth, forest, line, rest)?;
    let rest = skip(line, rest, FIELD_CLOSE)?;
    forest.reduce(Kind::Field, mark, line, start, rest)?;
    Ok(rest)
}

/// The fields of a string.
pub fn fields<F: Fn(&mut Forest, Entry, usize) -> Result<usize, Fault>>(
    nested: &F,
    depth: u32,
    forest: &mut Forest,
    line: &Line,
    rest: usize,
) -> Result<usize, Fault>
    requires callable { F.IsAlwaysCallable nested.now }
    requires gives { GivesPhrases (F.post nested.now) line.now depth }
    ensures { Reads line.now (trees forest.old) (trees forest.new) result (many code field_open (spec.field_at (phrase_at depth)) (drop rest line.now)) }
{
    again(
        &|wood: &mut Forest, rest: usize| field(nested, depth, wood, line, rest),
        depth,
        Round::Field,
        forest,
        line,
        rest,
    )
}
