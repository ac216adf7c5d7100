// Headers by their kind.
ghost use Rattle.std.specs.Prelude.{◌≡◌, ℕ, ◌++◌, ◌∷◌, [], List, length, ◌≤◌, drop};
ghost use Rattle.tree_nodes.specs.Trees.{Tree};
ghost use Rattle.py_grammar.specs.Terminals.{code, Terminal};
ghost use Rattle.py_grammar.specs.Reading.{LineReader};
ghost use Rattle.py_grammar.specs.ReadingLines as spec;
ghost use Rattle.py_grammar.specs.ReadingLines.{phrase_at};
ghost use Rattle.py_forest.specs.Forests.{trees};
ghost use Rattle.parse_steps.specs.Runs.{Reads, GivesPhrases};
ghost use Rattle.py_language.specs.Readers.{both};
ghost use Rattle.py_grammar.specs.Symbols.{set_of};
ghost use Rattle.py_grammar.specs.Words.{async_word, colon};
ghost use Rattle.py_grammar.specs.Reading.{token, named_at};
ghost use Rattle.py_grammar.specs.ReadingHeaders.{for_header_at, plain_with_at, parenthesized_with_at, function_header_at};
ghost use Rattle.parse_line.specs.Headers.{header_at, body_at};

use crate::header::Header;
use parse_header::{
    case_header, class_header, except_header, except_star_header, for_header, function_header,
    match_header, parenthesized_with, plain_with,
};
use parse_parts::named;
use parse_statement::statements;
use parse_steps::marks::{
    ASYNC_WORD, COLON, ELIF_WORD, ELSE_WORD, FINALLY_WORD, IF_WORD, TRY_WORD, WHILE_WORD,
};
use parse_steps::skip;
use py_forest::{Fault, Forest};
use py_grammar::{Entry, Symbol};
use py_line::Line;

/// A word and an expression.
#[tactic(auto, using(parse_steps::proofs::Runs::behind_make, parse_steps::proofs::Runs::behind_after_is))]
fn with_test<F: Fn(&mut Forest, Entry, usize) -> Result<usize, Fault>>(
    nested: &F,
    depth: u32,
    forest: &mut Forest,
    word: &[Symbol],
    line: &Line,
    rest: usize,
) -> Result<usize, Fault>
    requires callable { F.IsAlwaysCallable nested.now }
    requires gives { GivesPhrases (F.post nested.now) line.now depth }
    ensures { Reads line.now (trees forest.old) (trees forest.new) result (both (token (set_of word.now)) (named_at (phrase_at depth)) (drop rest line.now)) }
{
    let rest = skip(line, rest, word)?;
    named(nested, depth, forest, line, rest)
}

/// The same behind `async`.
#[tactic(auto, using(parse_steps::proofs::Runs::behind_make, parse_steps::proofs::Runs::behind_after_is))]
fn async_for_header<F: Fn(&mut Forest, Entry, usize) -> Result<usize, Fault>>(
    nested: &F,
    depth: u32,
    forest: &mut Forest,
    line: &Line,
    rest: usize,
) -> Result<usize, Fault>
    requires callable { F.IsAlwaysCallable nested.now }
    requires gives { GivesPhrases (F.post nested.now) line.now depth }
    ensures { Reads line.now (trees forest.old) (trees forest.new) result (both (token async_word) (for_header_at (phrase_at depth)) (drop rest line.now)) }
{
    let rest = skip(line, rest, ASYNC_WORD)?;
    for_header(nested, depth, forest, line, rest)
}

/// The same behind `async`.
#[tactic(auto, using(parse_steps::proofs::Runs::behind_make, parse_steps::proofs::Runs::behind_after_is))]
fn async_plain_with<F: Fn(&mut Forest, Entry, usize) -> Result<usize, Fault>>(
    nested: &F,
    depth: u32,
    forest: &mut Forest,
    line: &Line,
    rest: usize,
) -> Result<usize, Fault>
    requires callable { F.IsAlwaysCallable nested.now }
    requires gives { GivesPhrases (F.post nested.now) line.now depth }
    ensures { Reads line.now (trees forest.old) (trees forest.new) result (both (token async_word) (plain_with_at (phrase_at depth)) (drop rest line.now)) }
{
    let rest = skip(line, rest, ASYNC_WORD)?;
    plain_with(nested, depth, forest, line, rest)
}

/// The same behind `async`.
#[tactic(auto, using(parse_steps::proofs::Runs::behind_make, parse_steps::proofs::Runs::behind_after_is))]
fn async_parenthesized_with<F: Fn(&mut Forest, Entry, usize) -> Result<usize, Fault>>(
    nested: &F,
    depth: u32,
    forest: &mut Forest,
    line: &Line,
    rest: usize,
) -> Result<usize, Fault>
    requires callable { F.IsAlwaysCallable nested.now }
    requires gives { GivesPhrases (F.post nested.now) line.now depth }
    ensures { Reads line.now (trees forest.old) (trees forest.new) result (both (token async_word) (parenthesized_with_at (phrase_at depth)) (drop rest line.now)) }
{
    let rest = skip(line, rest, ASYNC_WORD)?;
    parenthesized_with(nested, depth, forest, line, rest)
}

/// The same behind `async`.
#[tactic(auto, using(parse_steps::proofs::Runs::behind_make, parse_steps::proofs::Runs::behind_after_is))]
fn async_function_header<F: Fn(&mut Forest, Entry, usize) -> Result<usize, Fault>>(
    nested: &F,
    depth: u32,
    forest: &mut Forest,
    line: &Line,
    rest: usize,
) -> Result<usize, Fault>
    requires callable { F.IsAlwaysCallable nested.now }
    requires gives { GivesPhrases (F.post nested.now) line.now depth }
    ensures { Reads line.now (trees forest.old) (trees forest.new) result (both (token async_word) (function_header_at (phrase_at depth)) (drop rest line.now)) }
{
    let rest = skip(line, rest, ASYNC_WORD)?;
    function_header(nested, depth, forest, line, rest)
}

/// A word alone.
fn alone(forest: &mut Forest, line: &Line, rest: usize, word: &[Symbol]) -> Result<usize, Fault>
    ensures { Reads line.now (trees forest.old) (trees forest.new) result (token (set_of word.now) (drop rest line.now)) }
{
    let _len = forest.len();
    skip(line, rest, word)
}

/// A header by its kind.
fn header<F: Fn(&mut Forest, Entry, usize) -> Result<usize, Fault>>(
    nested: &F,
    depth: u32,
    forest: &mut Forest,
    kind: Header,
    line: &Line,
    rest: usize,
) -> Result<usize, Fault>
    requires callable { F.IsAlwaysCallable nested.now }
    requires gives { GivesPhrases (F.post nested.now) line.now depth }
    ensures { Reads line.now (trees forest.old) (trees forest.new) result (header_at (phrase_at depth) kind (drop rest line.now)) }
{
    match kind {
        Header::If => with_test(nested, depth, forest, IF_WORD, line, rest),
        Header::Elif => with_test(nested, depth, forest, ELIF_WORD, line, rest),
        Header::Else => alone(forest, line, rest, ELSE_WORD),
        Header::While => with_test(nested, depth, forest, WHILE_WORD, line, rest),
        Header::For => for_header(nested, depth, forest, line, rest),
        Header::AsyncFor => async_for_header(nested, depth, forest, line, rest),
        Header::Try => alone(forest, line, rest, TRY_WORD),
        Header::Except => except_header(nested, depth, forest, line, rest),
        Header::ExceptStar => except_star_header(nested, depth, forest, line, rest),
        Header::Finally => alone(forest, line, rest, FINALLY_WORD),
        Header::With => plain_with(nested, depth, forest, line, rest),
        Header::ParenthesizedWith => parenthesized_with(nested, depth, forest, line, rest),
        Header::AsyncWith => async_plain_with(nested, depth, forest, line, rest),
        Header::AsyncParenthesizedWith => async_parenthesized_with(
            nested, depth, forest, line, rest,
        ),
        Header::FunctionDef => function_header(nested, depth, forest, line, rest),
        Header::AsyncFunctionDef => async_function_header(nested, depth, forest, line, rest),
        Header::ClassDef => class_header(nested, depth, forest, line, rest),
        Header::Match => match_header(nested, depth, forest, line, rest),
        Header::Case => case_header(nested, depth, forest, line, rest),
    }
}

/// A header and its colon.
#[tactic(auto, using(parse_steps::proofs::Runs::behind_make, parse_steps::proofs::Runs::behind_after_is))]
pub fn header_and_colon<F: Fn(&mut Forest, Entry, usize) -> Result<usize, Fault>>(
    nested: &F,
    depth: u32,
    forest: &mut Forest,
    kind: Header,
    line: &Line,
    rest: usize,
) -> Result<usize, Fault>
    requires callable { F.IsAlwaysCallable nested.now }
    requires gives { GivesPhrases (F.post nested.now) line.now depth }
    ensures { Reads line.now (trees forest.old) (trees forest.new) result (both (header_at (phrase_at depth) kind) (token colon) (drop rest line.now)) }
{
    let rest = header(nested, depth, forest, kind, line, rest)?;
    alone(forest, line, rest, COLON)
}

/// The statements behind a header, if there are any.
#[tactic(auto, using(crate::proofs::Bodies::body_some, crate::proofs::Bodies::body_none))]
pub fn body<F: Fn(&mut Forest, Entry, usize) -> Result<usize, Fault>>(
    nested: &F,
    depth: u32,
    forest: &mut Forest,
    line: &Line,
    rest: usize,
) -> Result<usize, Fault>
    requires callable { F.IsAlwaysCallable nested.now }
    requires gives { GivesPhrases (F.post nested.now) line.now depth }
    ensures { Reads line.now (trees forest.old) (trees forest.new) result (body_at (phrase_at depth) (drop rest line.now)) }
{
    if rest < line.len() {
        statements(nested, depth, forest, line, rest)
    } else {
        Ok(rest)
    }
}
