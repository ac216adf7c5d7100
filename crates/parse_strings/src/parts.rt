// Strings that stand one behind the other.
ghost use Rattle.std.specs.Prelude.{◌≡◌, ℕ, List, drop};
ghost use Rattle.tree_nodes.specs.Trees.{Tree};
ghost use Rattle.py_language.specs.Readers.{both, many};
ghost use Rattle.py_grammar.specs.Terminals.{code, Terminal};
ghost use Rattle.py_grammar.specs.Words.{byte_string, field_open, format_string, format_string_end};
ghost use Rattle.py_grammar.specs.Firsts.{string_first};
ghost use Rattle.py_grammar.specs.Reading.{token};
ghost use Rattle.py_grammar.specs.Reading as spec;
ghost use Rattle.py_grammar.specs.ReadingLines.{phrase_at};
ghost use Rattle.py_forest.specs.Forests.{trees};
ghost use Rattle.parse_steps.specs.Runs.{Reads, GivesPhrases, GivesReader};

use crate::inner::fields;
use parse_parts::{Round, again};
use parse_steps::marks::{BYTE_STRING, FORMAT_STRING, FORMAT_STRING_END, PLAIN_STRING};
use parse_steps::skip;
use py_forest::{Fault, Forest};
use py_grammar::Entry;
use py_line::Line;

/// The fields of an f-string, and its end.
#[tactic(auto, using(parse_steps::proofs::Runs::behind_after_is))]
fn to_the_end<F: Fn(&mut Forest, Entry, usize) -> Result<usize, Fault>>(
    nested: &F,
    depth: u32,
    forest: &mut Forest,
    line: &Line,
    rest: usize,
) -> Result<usize, Fault>
    requires callable { F.IsAlwaysCallable nested.now }
    requires gives { GivesPhrases (F.post nested.now) line.now depth }
    ensures { Reads line.now (trees forest.old) (trees forest.new) result (both (many code field_open (spec.field_at (phrase_at depth))) (token format_string_end) (drop rest line.now)) }
{
    let rest = fields(nested, depth, forest, line, rest)?;
    let rest = skip(line, rest, FORMAT_STRING_END)?;
    Ok(rest)
}

/// An f-string.
#[tactic(auto, using(parse_steps::proofs::Runs::behind_after_is))]
fn format_string<F: Fn(&mut Forest, Entry, usize) -> Result<usize, Fault>>(
    nested: &F,
    depth: u32,
    forest: &mut Forest,
    line: &Line,
    rest: usize,
) -> Result<usize, Fault>
    requires callable { F.IsAlwaysCallable nested.now }
    requires gives { GivesPhrases (F.post nested.now) line.now depth }
    ensures { Reads line.now (trees forest.old) (trees forest.new) result (both (token format_string) (both (many code field_open (spec.field_at (phrase_at depth))) (token format_string_end)) (drop rest line.now)) }
{
    let rest = skip(line, rest, FORMAT_STRING)?;
    to_the_end(nested, depth, forest, line, rest)
}

/// A string without fields, or an f-string.
#[tactic(auto, unfolding(py_grammar::specs::Reading::string_part_at))]
fn string_part<F: Fn(&mut Forest, Entry, usize) -> Result<usize, Fault>>(
    nested: &F,
    depth: u32,
    forest: &mut Forest,
    line: &Line,
    rest: usize,
) -> Result<usize, Fault>
    requires callable { F.IsAlwaysCallable nested.now }
    requires gives { GivesPhrases (F.post nested.now) line.now depth }
    ensures { Reads line.now (trees forest.old) (trees forest.new) result (spec.string_part_at (phrase_at depth) (drop rest line.now)) }
{
    if line.at(rest, PLAIN_STRING) {
        skip(line, rest, PLAIN_STRING)
    } else {
        format_string(nested, depth, forest, line, rest)
    }
}

/// More strings.
fn string_parts<F: Fn(&mut Forest, Entry, usize) -> Result<usize, Fault>>(
    nested: &F,
    depth: u32,
    forest: &mut Forest,
    line: &Line,
    rest: usize,
) -> Result<usize, Fault>
    requires callable { F.IsAlwaysCallable nested.now }
    requires gives { GivesPhrases (F.post nested.now) line.now depth }
    ensures { Reads line.now (trees forest.old) (trees forest.new) result (many code string_first (spec.string_part_at (phrase_at depth)) (drop rest line.now)) }
{
    again(
        &|wood: &mut Forest, rest: usize| string_part(nested, depth, wood, line, rest),
        depth,
        Round::StringPart,
        forest,
        line,
        rest,
    )
}

/// A byte string.
fn byte_string(forest: &mut Forest, line: &Line, rest: usize) -> Result<usize, Fault>
    ensures { Reads line.now (trees forest.old) (trees forest.new) result (token byte_string (drop rest line.now)) }
{
    let _len = forest.len();
    skip(line, rest, BYTE_STRING)
}

/// More byte strings.
fn byte_strings<F: Fn(&mut Forest, Entry, usize) -> Result<usize, Fault>>(
    nested: &F,
    depth: u32,
    forest: &mut Forest,
    line: &Line,
    rest: usize,
) -> Result<usize, Fault>
    requires callable { F.IsAlwaysCallable nested.now }
    requires gives { GivesPhrases (F.post nested.now) line.now depth }
    ensures { Reads line.now (trees forest.old) (trees forest.new) result (many code byte_string (token byte_string) (drop rest line.now)) }
{
    again(
        &|wood: &mut Forest, rest: usize| byte_string(wood, line, rest),
        depth,
        Round::ByteString,
        forest,
        line,
        rest,
    )
}

/// Byte strings, or strings and f-strings, one behind the other.
#[tactic(auto, using(parse_steps::proofs::Runs::behind_make, parse_steps::proofs::Runs::behind_after_is), unfolding(py_grammar::specs::Reading::strings_at))]
pub fn strings<F: Fn(&mut Forest, Entry, usize) -> Result<usize, Fault>>(
    nested: &F,
    depth: u32,
    forest: &mut Forest,
    line: &Line,
    rest: usize,
) -> Result<usize, Fault>
    requires callable { F.IsAlwaysCallable nested.now }
    requires gives { GivesPhrases (F.post nested.now) line.now depth }
    ensures { Reads line.now (trees forest.old) (trees forest.new) result (spec.strings_at (phrase_at depth) (drop rest line.now)) }
{
    let start = rest;
    let mark = forest.len();
    if line.at(rest, BYTE_STRING) {
        let rest = skip(line, rest, BYTE_STRING)?;
        let rest = byte_strings(nested, depth, forest, line, rest)?;
        forest.reduce_bytes(mark, line, start, rest)?;
        Ok(rest)
    } else {
        let rest = string_part(nested, depth, forest, line, rest)?;
        let rest = string_parts(nested, depth, forest, line, rest)?;
        forest.reduce_strings(mark, line, start, rest)?;
        Ok(rest)
    }
}
