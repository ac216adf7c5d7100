// Lines by what they begin with.
ghost use Rattle.std.specs.Prelude.{◌≡◌, ℕ, List, IfOk, IfErr, is_some, drop, length};
ghost use Rattle.py_grammar.specs.declared.head.Head.TheVariants as heads;
ghost use Rattle.py_grammar.specs.Terminals.{first_of, second_of};
ghost use Rattle.py_grammar.specs.ReadingLines.{phrase_at, headed_at, bare_at, simple_at, or_line, with_at, async_line_at, except_line_at, line_by, line_at};
ghost use Rattle.py_forest.specs.Forests.{trees};
ghost use Rattle.py_forest.specs.declared.fault.Fault.TheVariants.{Memory};
ghost use Rattle.parse_steps.specs.Runs.{Reads, GivesPhrases};
ghost use Rattle.parse_line.specs.Found.{Finds};
ghost use Rattle.parse_line.specs.declared.header.Header.TheVariants as headers;
ghost use Rattle.parse_line.specs.Headers.{header_at};

use crate::forms::{bare, decorator, headed, simple};
use crate::found::Found;
use crate::header::Header;
use crate::knot::phrase;
use py_forest::{Fault, Forest};
use py_grammar::{Entry, Head, Symbol};
use py_line::Line;

/// Whether the line is a header of a kind, tried apart.
fn is_headed<F: Fn(&mut Forest, Entry, usize) -> Result<usize, Fault>>(
    nested: &F,
    depth: u32,
    forest: &Forest,
    head: Head,
    kind: Header,
    line: &Line,
) -> Result<bool, Fault>
    requires callable { F.IsAlwaysCallable nested.now }
    requires gives { GivesPhrases (F.post nested.now) line.now depth }
    ensures ok { IfOk result (λ fits. fits ≡ is_some (headed_at (phrase_at depth) head (header_at (phrase_at depth) kind) line.now)) }
    ensures err { IfErr result (λ e. e ≡ Memory) }
{
    let mut scratch = Forest::new(forest.alloc);
    match headed(nested, depth, &mut scratch, head, kind, line) {
        Ok(_) => Ok(true),
        Err(Fault::NoForm) => Ok(false),
        Err(Fault::Memory) => Err(Fault::Memory),
    }
}

/// Whether the line is a header of a kind alone, tried apart.
fn is_bare<F: Fn(&mut Forest, Entry, usize) -> Result<usize, Fault>>(
    nested: &F,
    depth: u32,
    forest: &Forest,
    head: Head,
    kind: Header,
    line: &Line,
) -> Result<bool, Fault>
    requires callable { F.IsAlwaysCallable nested.now }
    requires gives { GivesPhrases (F.post nested.now) line.now depth }
    ensures ok { IfOk result (λ fits. fits ≡ is_some (bare_at (phrase_at depth) head (header_at (phrase_at depth) kind) line.now)) }
    ensures err { IfErr result (λ e. e ≡ Memory) }
{
    let mut scratch = Forest::new(forest.alloc);
    match bare(nested, depth, &mut scratch, head, kind, line) {
        Ok(_) => Ok(true),
        Err(Fault::NoForm) => Ok(false),
        Err(Fault::Memory) => Err(Fault::Memory),
    }
}

/// A header of the one kind, and where the line is none of the other.
#[tactic(auto, using(crate::proofs::LineLaws::or_first, crate::proofs::LineLaws::or_second))]
fn headed_or<F: Fn(&mut Forest, Entry, usize) -> Result<usize, Fault>>(
    nested: &F,
    depth: u32,
    forest: &mut Forest,
    head: Head,
    kind: Header,
    other: Header,
    line: &Line,
) -> Result<Found, Fault>
    requires callable { F.IsAlwaysCallable nested.now }
    requires gives { GivesPhrases (F.post nested.now) line.now depth }
    ensures { Finds (trees forest.old) (trees forest.new) result (or_line (headed_at (phrase_at depth) head (header_at (phrase_at depth) kind) line.now) (headed_at (phrase_at depth) head (header_at (phrase_at depth) other) line.now)) }
{
    if is_headed(nested, depth, forest, head, kind, line)? {
        headed(nested, depth, forest, head, kind, line)
    } else {
        headed(nested, depth, forest, head, other, line)
    }
}

/// A header of `match`, and where the line is none simple statements.
#[tactic(auto, using(crate::proofs::LineLaws::or_first, crate::proofs::LineLaws::or_second))]
fn match_line<F: Fn(&mut Forest, Entry, usize) -> Result<usize, Fault>>(
    nested: &F,
    depth: u32,
    forest: &mut Forest,
    line: &Line,
) -> Result<Found, Fault>
    requires callable { F.IsAlwaysCallable nested.now }
    requires gives { GivesPhrases (F.post nested.now) line.now depth }
    ensures { Finds (trees forest.old) (trees forest.new) result (or_line (bare_at (phrase_at depth) heads.Match (header_at (phrase_at depth) headers.Match) line.now) (simple_at (phrase_at depth) line.now)) }
{
    if is_bare(nested, depth, forest, Head::Match, Header::Match, line)? {
        bare(nested, depth, forest, Head::Match, Header::Match, line)
    } else {
        simple(nested, depth, forest, line)
    }
}

/// A header of `case`, and where the line is none simple statements.
#[tactic(auto, using(crate::proofs::LineLaws::or_first, crate::proofs::LineLaws::or_second))]
fn case_line<F: Fn(&mut Forest, Entry, usize) -> Result<usize, Fault>>(
    nested: &F,
    depth: u32,
    forest: &mut Forest,
    line: &Line,
) -> Result<Found, Fault>
    requires callable { F.IsAlwaysCallable nested.now }
    requires gives { GivesPhrases (F.post nested.now) line.now depth }
    ensures { Finds (trees forest.old) (trees forest.new) result (or_line (headed_at (phrase_at depth) heads.Case (header_at (phrase_at depth) headers.Case) line.now) (simple_at (phrase_at depth) line.now)) }
{
    if is_headed(nested, depth, forest, Head::Case, Header::Case, line)? {
        headed(nested, depth, forest, Head::Case, Header::Case, line)
    } else {
        simple(nested, depth, forest, line)
    }
}

/// A line behind `async`.
#[tactic(auto, unfolding(py_grammar::specs::ReadingLines::async_line_at, py_grammar::specs::ReadingLines::with_at))]
fn async_line<F: Fn(&mut Forest, Entry, usize) -> Result<usize, Fault>>(
    nested: &F,
    depth: u32,
    forest: &mut Forest,
    line: &Line,
) -> Result<Found, Fault>
    requires callable { F.IsAlwaysCallable nested.now }
    requires gives { GivesPhrases (F.post nested.now) line.now depth }
    ensures { Finds (trees forest.old) (trees forest.new) result (async_line_at (phrase_at depth) (second_of line.now).symbol line.now) }
{
    match line.symbol(1) {
        Symbol::ForWord => headed(
            nested,
            depth,
            forest,
            Head::AsyncFor,
            Header::AsyncFor,
            line,
        ),
        Symbol::WithWord => headed_or(
            nested,
            depth,
            forest,
            Head::AsyncWith,
            Header::AsyncParenthesizedWith,
            Header::AsyncWith,
            line,
        ),
        _ => headed(
            nested,
            depth,
            forest,
            Head::AsyncFunctionDef,
            Header::AsyncFunctionDef,
            line,
        ),
    }
}

/// A line behind `except`.
#[tactic(auto, unfolding(py_grammar::specs::ReadingLines::except_line_at))]
fn except_line<F: Fn(&mut Forest, Entry, usize) -> Result<usize, Fault>>(
    nested: &F,
    depth: u32,
    forest: &mut Forest,
    line: &Line,
) -> Result<Found, Fault>
    requires callable { F.IsAlwaysCallable nested.now }
    requires gives { GivesPhrases (F.post nested.now) line.now depth }
    ensures { Finds (trees forest.old) (trees forest.new) result (except_line_at (phrase_at depth) (second_of line.now).symbol line.now) }
{
    match line.symbol(1) {
        Symbol::Star => headed(
            nested,
            depth,
            forest,
            Head::ExceptStar,
            Header::ExceptStar,
            line,
        ),
        _ => headed(nested, depth, forest, Head::Except, Header::Except, line),
    }
}

/// A line by its first token.
#[tactic(auto, unfolding(py_grammar::specs::ReadingLines::line_by, py_grammar::specs::ReadingLines::with_at))]
fn line_of<F: Fn(&mut Forest, Entry, usize) -> Result<usize, Fault>>(
    nested: &F,
    depth: u32,
    forest: &mut Forest,
    symbol: Symbol,
    line: &Line,
) -> Result<Found, Fault>
    requires callable { F.IsAlwaysCallable nested.now }
    requires gives { GivesPhrases (F.post nested.now) line.now depth }
    ensures { Finds (trees forest.old) (trees forest.new) result (line_by (phrase_at depth) symbol line.now) }
{
    match symbol {
        Symbol::AtSign => decorator(nested, depth, forest, line),
        Symbol::IfWord => headed(nested, depth, forest, Head::If, Header::If, line),
        Symbol::ElifWord => headed(nested, depth, forest, Head::Elif, Header::Elif, line),
        Symbol::ElseWord => headed(nested, depth, forest, Head::Else, Header::Else, line),
        Symbol::WhileWord => headed(nested, depth, forest, Head::While, Header::While, line),
        Symbol::ForWord => headed(nested, depth, forest, Head::For, Header::For, line),
        Symbol::TryWord => headed(nested, depth, forest, Head::Try, Header::Try, line),
        Symbol::ExceptWord => except_line(nested, depth, forest, line),
        Symbol::FinallyWord => headed(nested, depth, forest, Head::Finally, Header::Finally, line),
        Symbol::WithWord => headed_or(
            nested,
            depth,
            forest,
            Head::With,
            Header::ParenthesizedWith,
            Header::With,
            line,
        ),
        Symbol::DefWord => headed(
            nested,
            depth,
            forest,
            Head::FunctionDef,
            Header::FunctionDef,
            line,
        ),
        Symbol::ClassWord => headed(
            nested,
            depth,
            forest,
            Head::ClassDef,
            Header::ClassDef,
            line,
        ),
        Symbol::AsyncWord => async_line(nested, depth, forest, line),
        Symbol::MatchWord => match_line(nested, depth, forest, line),
        Symbol::CaseWord => case_line(nested, depth, forest, line),
        _ => simple(nested, depth, forest, line),
    }
}

/// A whole line, with phrases that lead back at most `depth` times: the forest grows by the parts of its header and then by its
/// simple statements. Where the line has no form, or memory runs out, the forest is to be used no more.
#[tactic(auto, unfolding(py_grammar::specs::ReadingLines::line_at))]
pub fn read(forest: &mut Forest, depth: u32, line: &Line) -> Result<Found, Fault>
    ensures { Finds (trees forest.old) (trees forest.new) result (line_at (phrase_at depth) line.now) }
{
    line_of(
        &|wood: &mut Forest, entry: Entry, rest: usize| -> Result<usize, Fault>
            ensures { Reads line.entry.now (trees wood.old) (trees wood.new) result (phrase_at depth entry (drop rest line.entry.now)) }
        { phrase(wood, depth, entry, line, rest) },
        depth,
        forest,
        line.symbol(0),
        line,
    )
}
