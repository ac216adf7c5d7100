// Signs before operands.
ghost use Rattle.std.specs.Prelude.{◌≡◌, ℕ, ◌++◌, ◌≤◌, List, length, take, drop, OnOk, IfErr};
ghost use Rattle.py_language.specs.Languages.{whole};
ghost use Rattle.py_language.specs.Readers.{before, both};
ghost use Rattle.py_grammar.specs.declared.entry.Entry.TheVariants as e;
ghost use Rattle.py_grammar.specs.Words.{sign};
ghost use Rattle.py_grammar.specs.Nodes.{spanning};
ghost use Rattle.py_grammar.specs.Expressions.{sign_node};
ghost use Rattle.py_grammar.specs.Reading.{token};
ghost use Rattle.py_grammar.specs.Reading as spec;
ghost use Rattle.py_grammar.specs.ReadingLines.{phrase_at};
ghost use Rattle.py_forest.specs.Forests.{trees};
ghost use Rattle.parse_steps.specs.Runs.{Reads, GivesPhrases};
ghost use Rattle.py_forest.specs.declared.fault.Fault.TheVariants.{Memory};

use crate::powers::power;
use parse_parts::descend;
use parse_steps::marks::{MINUS, PLUS, SIGN};
use parse_steps::skip;
use py_forest::{Fault, Forest};
use py_grammar::Entry;
use py_line::Line;
use tree_nodes::Kind;

/// The kind of an operand behind the sign with which a stretch begins.
fn sign_kind(line: &Line, start: usize, rest: usize) -> Kind
    ensures { spanning result (before (drop start line.now) (drop rest line.now)) ≡ sign_node (before (drop start line.now) (drop rest line.now)) }
{
    if line.first_is(start, rest, PLUS) {
        Kind::UnaryPlus
    } else if line.first_is(start, rest, MINUS) {
        Kind::UnaryMinus
    } else {
        Kind::UnaryInvert
    }
}

/// The trees from `mark` on as an operand behind a sign.
fn reduce_signed(
    forest: &mut Forest,
    mark: usize,
    line: &Line,
    start: usize,
    rest: usize,
) -> Result<(), Fault>
    requires { mark ≤ length (trees forest.old) }
    ensures ok { OnOk result (trees forest.new ≡ take mark (trees forest.old) ++ whole sign_node (before (drop start line.now) (drop rest line.now)) (drop mark (trees forest.old))) }
    ensures err { IfErr result (λ e. e ≡ Memory) }
{
    let kind = sign_kind(line, start, rest);
    forest.reduce(kind, mark, line, start, rest)
}

/// A sign and a factor.
#[tactic(auto, using(parse_steps::proofs::Runs::behind_after_is))]
fn signed<F: Fn(&mut Forest, Entry, usize) -> Result<usize, Fault>>(
    nested: &F,
    depth: u32,
    forest: &mut Forest,
    line: &Line,
    rest: usize,
) -> Result<usize, Fault>
    requires callable { F.IsAlwaysCallable nested.now }
    requires gives { GivesPhrases (F.post nested.now) line.now depth }
    ensures { Reads line.now (trees forest.old) (trees forest.new) result (both (token sign) (phrase_at depth e.Factor) (drop rest line.now)) }
{
    let rest = skip(line, rest, SIGN)?;
    descend(nested, depth, forest, Entry::Factor, line, rest)
}

/// A power, or a sign and a factor.
#[tactic(auto, using(parse_steps::proofs::Runs::behind_make, parse_steps::proofs::Runs::behind_after_is), unfolding(py_grammar::specs::Reading::factor_at))]
pub fn factor<F: Fn(&mut Forest, Entry, usize) -> Result<usize, Fault>>(
    nested: &F,
    depth: u32,
    forest: &mut Forest,
    line: &Line,
    rest: usize,
) -> Result<usize, Fault>
    requires callable { F.IsAlwaysCallable nested.now }
    requires gives { GivesPhrases (F.post nested.now) line.now depth }
    ensures { Reads line.now (trees forest.old) (trees forest.new) result (spec.factor_at (phrase_at depth) (drop rest line.now)) }
{
    if line.at(rest, SIGN) {
        let start = rest;
        let mark = forest.len();
        let rest = signed(nested, depth, forest, line, rest)?;
        reduce_signed(forest, mark, line, start, rest)?;
        Ok(rest)
    } else {
        power(nested, depth, forest, line, rest)
    }
}
