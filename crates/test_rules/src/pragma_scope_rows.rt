// Pragmas over sources and the trees that Python's own parser gives them.
ghost use Rattle.std.specs.Prelude.{◌<◌, ◌↔◌, IsTrue, All};

use lint_messages::Code;
use lint_values::{Memory, Pos};
use pragma_scope::{BadName, Pragmas, skip_file};
use py_token::tokenize;
use std::alloc::Global;
use std::process::Abort;
use std::test::Fail;
use tree_nodes::{Kind, Tree, TreeBuilder};

mod rows;

// The kind that a letter stands for.
fn kind_of(letter: u8) -> Kind {
    match letter {
        b'n' => Kind::Name,
        b'D' => Kind::Docstring,
        b'p' => Kind::Pass,
        b'I' => Kind::If,
        b'L' => Kind::Elif,
        b'E' => Kind::Else,
        b'W' => Kind::While,
        b'R' => Kind::For,
        b'w' => Kind::With,
        b'T' => Kind::Try,
        b'h' => Kind::ExceptHandler,
        b'y' => Kind::Finally,
        b'M' => Kind::Match,
        b'K' => Kind::Case,
        b'd' => Kind::FunctionDef,
        b'C' => Kind::ClassDef,
        b'@' => Kind::Decorator,
        _ => Kind::Module,
    }
}

fn digit(b: u8) -> u32
    ensures { result < 10 }
{
    u32::from(b.saturating_sub(b'0')).min(9)
}

fn are_below(kids: &[u32], count: usize) -> bool
    ensures { IsTrue result ↔ All (λ k. k < count) kids.now }
{
    kids.iter().all(|k| (*k as usize) < count)
}

// Adds a node over the last of those that are open, so many.
fn add(
    rt: &impl Abort,
    builder: &mut TreeBuilder,
    open: &mut Vec<u32>,
    kind: Kind,
    line: u32,
    end_line: u32,
    kids: usize,
) -> Result<(), Fail> {
    let from = open.len().saturating_sub(kids);
    let below = are_below(&open[from..], builder.rows());
    assert!(rt; below);
    let number = builder.push(kind, Pos { line, col: 0 }, end_line, None, &open[from..])?;
    open.truncate(from);
    open.push(number)?;
    Ok(())
}

// Adds the node of a word: its kind's letter, its line, its last line, and how many of the nodes before it are its kids.
fn add_word(
    rt: &impl Abort,
    builder: &mut TreeBuilder,
    open: &mut Vec<u32>,
    word: &[u8],
) -> Result<(), Fail> {
    match word {
        [letter, line, last, kids] => {
            let (line, last, kids) = (digit(*line), digit(*last), digit(*kids) as usize);
            add(rt, builder, open, kind_of(*letter), line, last, kids)
        }
        _ => Ok(()),
    }
}

// The tree of nodes in postorder, a word each, without the module's own.
fn tree_of(rt: &impl Abort, alloc: Global, nodes: &str) -> Result<Tree, Fail> {
    let mut builder = TreeBuilder::new(alloc);
    let mut open = Vec::new(alloc);
    for word in nodes.as_bytes().split(|b| *b == b' ') {
        add_word(rt, &mut builder, &mut open, word)?;
    }
    let kids = open.len();
    add(rt, &mut builder, &mut open, Kind::Module, 1, 1, kids)?;
    let root = open.pop().unwrap_or(0);
    let is_made = (root as usize) < builder.rows();
    assert!(rt; is_made);
    Ok(builder.finish(root)?)
}

// A source of a row: `~` stands for a line end and `^` for a tab.
fn spelled(alloc: Global, row: &str) -> Result<String, Fail> {
    let mut text = String::new(alloc);
    for c in row.chars() {
        text.push(match c {
            '~' => '\n',
            '^' => '\t',
            _ => c,
        })?;
    }
    Ok(text)
}

// The pragmas of a source with this tree.
fn pragmas_of(rt: &impl Abort, alloc: Global, source: &str, nodes: &str) -> Result<Pragmas, Fail> {
    let tree = tree_of(rt, alloc, nodes)?;
    let source = spelled(alloc, source)?;
    assert!(rt; source.len() < 1000);
    match tokenize(alloc, source.as_bytes()) {
        Ok(tokens) => {
            let pragmas = Pragmas::read(alloc, &tokens, &tree)?;
            assert_eq!(rt; pragmas.skips(), skip_file(&tokens), "{source}");
            Ok(pragmas)
        }
        Err(_) => {
            assert!(rt; false, "{source}");
            Err(Fail::from(Memory))
        }
    }
}

fn mark(state: Option<bool>) -> char {
    match state {
        None => '.',
        Some(false) => '-',
        Some(true) => '+',
    }
}

// The state of a code on so many lines.
fn marks(alloc: Global, pragmas: &Pragmas, lines: usize) -> Result<String, Fail> {
    let mut text = String::new(alloc);
    for line in 0..lines.min(9) {
        text.push(mark(pragmas.state(Code::LineTooLong, line as u32 + 1)))?;
    }
    Ok(text)
}

fn check_row(rt: &impl Abort, alloc: Global, row: &str) -> Result<(), Fail> {
    match row.split_once('|') {
        Some((source, rest)) => match rest.split_once('|') {
            Some((nodes, expected)) => {
                let pragmas = pragmas_of(rt, alloc, source, nodes)?;
                let found = marks(alloc, &pragmas, expected.len())?;
                assert_eq!(rt; found.as_str(), expected, "{source}");
            }
            None => assert!(rt; false, "{row}"),
        },
        None => assert!(rt; false, "{row}"),
    }
    Ok(())
}

fn check_rows(rt: &impl Abort, alloc: Global, rows: &str) -> Result<(), Fail> {
    for row in rows.split('\n') {
        check_row(rt, alloc, row)?;
    }
    Ok(())
}

#[test]
fn behind_code_the_logical_line_counts(rt: HostRuntime) -> Result<(), Fail> {
    check_rows(&rt, rt.alloc(), rows::BEHIND_CODE)
}

#[test]
fn behind_a_header_its_block_counts(rt: HostRuntime) -> Result<(), Fail> {
    check_rows(&rt, rt.alloc(), rows::HEADERS)
}

#[test]
fn alone_on_a_line_the_block_around_counts(rt: HostRuntime) -> Result<(), Fail> {
    check_rows(&rt, rt.alloc(), rows::ALONE)
}

#[test]
fn other_actions_have_lines_of_their_own(rt: HostRuntime) -> Result<(), Fail> {
    check_rows(&rt, rt.alloc(), rows::OTHERS)
}

// Each bad name's line, action and word.
fn shown(alloc: Global, names: &[BadName]) -> Result<String, Fail> {
    let mut text = String::new(alloc);
    for name in names {
        let (action, word) = (name.action.as_str(), name.word.as_str());
        text.push_str(format!(in alloc; "{} {action} {word};", name.line)?.as_str())?;
    }
    Ok(text)
}

#[test]
fn bad_names_are_told(rt: HostRuntime) -> Result<(), Fail> {
    let rows = [
        ("X = 1  # pylint: disable=Bad_Name", "1 disable Bad_Name;"),
        (
            "x  # pylint: enable=C0301,X1 # pylint: disable-next=all, X Y",
            "1 enable X1;1 disable-next X Y;",
        ),
        (
            "~# pylint: disable=C030, unused-import, I",
            "2 disable C030;",
        ),
        ("# pylint: disable-all=X ; disable=Y", ""),
    ];
    for (source, expected) in rows {
        let pragmas = pragmas_of(&rt, rt.alloc(), source, "")?;
        let found = shown(rt.alloc(), pragmas.bad_names())?;
        assert_eq!(rt; found.as_str(), expected, "{source}");
    }
    Ok(())
}

#[test]
fn files_are_skipped(rt: HostRuntime) -> Result<(), Fail> {
    let rows = [
        ("x~# pylint: skip-file~", true),
        ("x  # y # pylint:skip-file ; z", true),
        ("# pylint: skip-file # x", true),
        ("# pylint: skip-files", false),
        ("# pylint: skip-file, x", false),
        ("x = '# pylint: skip-file'", false),
    ];
    for (source, expected) in rows {
        let pragmas = pragmas_of(&rt, rt.alloc(), source, "")?;
        assert_eq!(rt; pragmas.skips(), expected, "{source}");
    }
    Ok(())
}
