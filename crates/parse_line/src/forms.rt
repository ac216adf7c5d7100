// Lines of a form: a header with statements or alone, a decorator, and simple statements.
ghost use Rattle.std.specs.Prelude.{◌≡◌, ℕ, List, drop, length};
ghost use Rattle.py_grammar.specs.declared.head.Head.TheVariants as heads;
ghost use Rattle.py_grammar.specs.ReadingLines.{phrase_at, headed_at, bare_at, simple_at, shallow, without_body};
ghost use Rattle.py_grammar.specs.ReadingHeaders.{decorator_line_at};
ghost use Rattle.py_forest.specs.Forests.{trees};
ghost use Rattle.parse_steps.specs.Runs.{Reads, GivesPhrases};
ghost use Rattle.parse_line.specs.Found.{Finds};
ghost use Rattle.parse_line.specs.Headers.{header_at};

use crate::found::Found;
use crate::header::Header;
use crate::headers::{body, header_and_colon};
use crate::nesting::is_shallow;
use parse_header::decorator_line;
use parse_statement::statements;
use py_forest::{Fault, Forest};
use py_grammar::{Entry, Head};
use py_line::Line;

/// A header, its colon, and maybe simple statements.
#[tactic(auto, using(crate::proofs::LineLaws::headed_ends, crate::proofs::LineLaws::headed_too_deep, crate::proofs::LineLaws::headed_goes_on, crate::proofs::LineLaws::headed_failed, crate::proofs::LineLaws::body_failed))]
pub(crate) fn headed<F: Fn(&mut Forest, Entry, usize) -> Result<usize, Fault>>(
    nested: &F,
    depth: u32,
    forest: &mut Forest,
    head: Head,
    kind: Header,
    line: &Line,
) -> Result<Found, Fault>
    requires callable { F.IsAlwaysCallable nested.now }
    requires gives { GivesPhrases (F.post nested.now) line.now depth }
    ensures { Finds (trees forest.old) (trees forest.new) result (headed_at (phrase_at depth) head (header_at (phrase_at depth) kind) line.now) }
{
    let mark = forest.len();
    let rest = header_and_colon(nested, depth, forest, kind, line, 0)?;
    let nodes = forest.len().saturating_sub(mark);
    let rest = body(nested, depth, forest, line, rest)?;
    if rest < line.len() {
        return Err(Fault::NoForm);
    }
    if !is_shallow(forest, mark) {
        return Err(Fault::NoForm);
    }
    Ok(Found { head, nodes })
}

/// A header with its colon alone.
#[tactic(auto, using(crate::proofs::LineLaws::nodes_end, crate::proofs::LineLaws::nodes_too_deep, crate::proofs::LineLaws::nodes_go_on, crate::proofs::LineLaws::nodes_failed), unfolding(py_grammar::specs::ReadingLines::bare_at))]
pub(crate) fn bare<F: Fn(&mut Forest, Entry, usize) -> Result<usize, Fault>>(
    nested: &F,
    depth: u32,
    forest: &mut Forest,
    head: Head,
    kind: Header,
    line: &Line,
) -> Result<Found, Fault>
    requires callable { F.IsAlwaysCallable nested.now }
    requires gives { GivesPhrases (F.post nested.now) line.now depth }
    ensures { Finds (trees forest.old) (trees forest.new) result (bare_at (phrase_at depth) head (header_at (phrase_at depth) kind) line.now) }
{
    let mark = forest.len();
    let rest = header_and_colon(nested, depth, forest, kind, line, 0)?;
    if rest < line.len() {
        return Err(Fault::NoForm);
    }
    if !is_shallow(forest, mark) {
        return Err(Fault::NoForm);
    }
    let nodes = forest.len().saturating_sub(mark);
    Ok(Found { head, nodes })
}

/// Simple statements.
#[tactic(auto, using(crate::proofs::LineLaws::simple_ends, crate::proofs::LineLaws::simple_too_deep, crate::proofs::LineLaws::simple_goes_on, crate::proofs::LineLaws::simple_failed))]
pub(crate) fn simple<F: Fn(&mut Forest, Entry, usize) -> Result<usize, Fault>>(
    nested: &F,
    depth: u32,
    forest: &mut Forest,
    line: &Line,
) -> Result<Found, Fault>
    requires callable { F.IsAlwaysCallable nested.now }
    requires gives { GivesPhrases (F.post nested.now) line.now depth }
    ensures { Finds (trees forest.old) (trees forest.new) result (simple_at (phrase_at depth) line.now) }
{
    let mark = forest.len();
    let rest = statements(nested, depth, forest, line, 0)?;
    if rest < line.len() {
        return Err(Fault::NoForm);
    }
    if !is_shallow(forest, mark) {
        return Err(Fault::NoForm);
    }
    Ok(Found {
        head: Head::Simple,
        nodes: 0,
    })
}

/// A decorator.
#[tactic(auto, using(crate::proofs::LineLaws::nodes_end, crate::proofs::LineLaws::nodes_too_deep, crate::proofs::LineLaws::nodes_go_on, crate::proofs::LineLaws::nodes_failed))]
pub(crate) fn decorator<F: Fn(&mut Forest, Entry, usize) -> Result<usize, Fault>>(
    nested: &F,
    depth: u32,
    forest: &mut Forest,
    line: &Line,
) -> Result<Found, Fault>
    requires callable { F.IsAlwaysCallable nested.now }
    requires gives { GivesPhrases (F.post nested.now) line.now depth }
    ensures { Finds (trees forest.old) (trees forest.new) result (shallow (without_body heads.Decorator (decorator_line_at (phrase_at depth) line.now))) }
{
    let mark = forest.len();
    let rest = decorator_line(nested, depth, forest, line, 0)?;
    if rest < line.len() {
        return Err(Fault::NoForm);
    }
    if !is_shallow(forest, mark) {
        return Err(Fault::NoForm);
    }
    let nodes = forest.len().saturating_sub(mark);
    Ok(Found {
        head: Head::Decorator,
        nodes,
    })
}
