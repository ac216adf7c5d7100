ghost use Rattle.std.specs.Prelude.{◌<◌, ◌↔◌, ◌≤◌, ◌+◌, length, map, IsTrue, All, IfSome};
ghost use Rattle.py_blocks.specs.Rows.{row_of};
ghost use Rattle.py_blocks.specs.Building.{IsMade};

use lint_values::{NodeId, Pos};
use py_blocks::{BlockCause, BlockError, BlockRow, Line, first_fault, parse_rows};
use py_grammar::Head;
use std::alloc::Global;
use std::process::Abort;
use std::test::Fail;
use tree_nodes::{Kind, Tree, TreeBuilder};

// Lines in short, with the first fault: a word a line, with a dot for each level. A header has a `:` where it opens a block, and
// a `;` where a statement stands behind it.
const SHAPES: [(&str, Option<(usize, BlockCause)>); 92] = [
    ("", None),
    ("x", None),
    ("if: .x", None),
    ("if;", None),
    ("if: .x elif: .x else: .x", None),
    ("if; elif; else;", None),
    ("if: .x elif: .x elif; x", None),
    ("if: .if: ..x else: .x", None),
    ("while: .x else: .x", None),
    ("for: .x else; x", None),
    ("afor: .x else: .x", None),
    ("try: .x exc: .x", None),
    ("try: .x exc: .x exc: .x else: .x fin: .x", None),
    ("try: .x fin: .x", None),
    ("try; exc*; exc*; else; fin;", None),
    ("try; exc; fin; x", None),
    ("with: .x", None),
    ("awith; x", None),
    ("def: .x", None),
    ("adef: .x x", None),
    ("class: .x", None),
    ("@ def: .x", None),
    ("@ @ class; x", None),
    ("class: .@ .def; .x", None),
    ("@ adef;", None),
    ("match: .case: ..x .case; x", None),
    ("def: .try: ..x .exc: ..x .else: ..x x", None),
    (
        "if: .for: ..try: ...x ..fin: ...x .else: ..x else: .x",
        None,
    ),
    ("class: .def: ..if: ...x x", None),
    ("match: .case: ..match: ...case; x", None),
    ("if; x if; else;", None),
    ("while: .if: ..x .elif: ..x else: .x", None),
    ("else: .x", Some((0, BlockCause::Follows))),
    ("elif;", Some((0, BlockCause::Follows))),
    ("exc: .x", Some((0, BlockCause::Follows))),
    ("fin;", Some((0, BlockCause::Follows))),
    ("case: .x", Some((0, BlockCause::Follows))),
    (".x", Some((0, BlockCause::Unexpected))),
    ("if: ..x", Some((1, BlockCause::Unexpected))),
    ("x .x", Some((1, BlockCause::Unexpected))),
    ("if; .x", Some((1, BlockCause::Unexpected))),
    ("if: .x .else;", Some((2, BlockCause::Follows))),
    ("if: x", Some((1, BlockCause::NeedsBlock))),
    ("if:", Some((0, BlockCause::NeedsBlock))),
    ("def: .if: x", Some((2, BlockCause::NeedsBlock))),
    ("if: .x ..x", Some((2, BlockCause::Unexpected))),
    ("x else;", Some((1, BlockCause::Follows))),
    ("if; x else;", Some((2, BlockCause::Follows))),
    ("while; elif;", Some((1, BlockCause::Follows))),
    ("try; else; exc;", Some((1, BlockCause::Follows))),
    ("try; exc; else; exc;", Some((3, BlockCause::Follows))),
    ("if; else; exc;", Some((2, BlockCause::Follows))),
    ("try; exc; exc*;", Some((2, BlockCause::Follows))),
    ("try; exc*; exc;", Some((2, BlockCause::Follows))),
    ("try; fin; exc;", Some((2, BlockCause::Follows))),
    ("try; fin; fin;", Some((2, BlockCause::Follows))),
    ("try; fin; else;", Some((2, BlockCause::Follows))),
    ("try; exc; else; else;", Some((3, BlockCause::Follows))),
    ("if; else; else;", Some((2, BlockCause::Follows))),
    ("if; else; elif;", Some((2, BlockCause::Follows))),
    ("for; else; fin;", Some((2, BlockCause::Follows))),
    ("if; else; fin;", Some((2, BlockCause::Follows))),
    ("try: .x x", Some((2, BlockCause::Follows))),
    ("try;", Some((0, BlockCause::Follows))),
    ("try: .x", Some((0, BlockCause::Follows))),
    ("try: .if:", Some((0, BlockCause::Follows))),
    ("if: .try: ..x x", Some((3, BlockCause::Follows))),
    ("if: .try: ..x", Some((1, BlockCause::Follows))),
    ("try: .try: ..x x", Some((3, BlockCause::Follows))),
    ("try: .x else: .x", Some((2, BlockCause::Follows))),
    ("@ x", Some((1, BlockCause::Follows))),
    ("@", Some((0, BlockCause::Follows))),
    ("@ @", Some((0, BlockCause::Follows))),
    ("@ if: .x", Some((1, BlockCause::Follows))),
    ("@ .def;", Some((1, BlockCause::Unexpected))),
    ("class: .@ x", Some((2, BlockCause::Follows))),
    ("class: .@", Some((1, BlockCause::Follows))),
    ("match: .x", Some((1, BlockCause::NeedsBlock))),
    ("match: x", Some((1, BlockCause::NeedsBlock))),
    ("match:", Some((0, BlockCause::NeedsBlock))),
    ("match: .case; .x", Some((2, BlockCause::NeedsBlock))),
    ("match: .case: ..case;", Some((2, BlockCause::Follows))),
    ("match: .case; case;", Some((2, BlockCause::Follows))),
    ("x fin;", Some((1, BlockCause::Follows))),
    ("def; else;", Some((1, BlockCause::Follows))),
    ("with; else;", Some((1, BlockCause::Follows))),
    ("class: .x else;", Some((2, BlockCause::Follows))),
    ("else:", Some((0, BlockCause::NeedsBlock))),
    ("else: x", Some((0, BlockCause::Follows))),
    ("if: .x .elif;", Some((2, BlockCause::Follows))),
    ("@ else;", Some((1, BlockCause::Follows))),
    ("try: .x .exc;", Some((0, BlockCause::Follows))),
];

fn head_of(word: &str) -> Head {
    match word {
        "@" => Head::Decorator,
        "if" => Head::If,
        "elif" => Head::Elif,
        "else" => Head::Else,
        "while" => Head::While,
        "for" => Head::For,
        "afor" => Head::AsyncFor,
        "try" => Head::Try,
        "exc" => Head::Except,
        "exc*" => Head::ExceptStar,
        "fin" => Head::Finally,
        "with" => Head::With,
        "awith" => Head::AsyncWith,
        "def" => Head::FunctionDef,
        "adef" => Head::AsyncFunctionDef,
        "class" => Head::ClassDef,
        "match" => Head::Match,
        "case" => Head::Case,
        _ => Head::Simple,
    }
}

// How many dots a word begins with, and what is behind them.
fn without_dots(word: &str) -> (u32, &str) {
    if let Some(rest) = word.strip_prefix("...") {
        (3, rest)
    } else if let Some(rest) = word.strip_prefix("..") {
        (2, rest)
    } else if let Some(rest) = word.strip_prefix(".") {
        (1, rest)
    } else {
        (0, word)
    }
}

// The line of a word.
fn line_of_word(word: &str) -> Line {
    let (level, rest) = without_dots(word);
    match rest.strip_suffix(":") {
        Some(header) => Line {
            head: head_of(header),
            level,
            is_open: true,
        },
        None => Line {
            head: head_of(rest.strip_suffix(";").unwrap_or(rest)),
            level,
            is_open: false,
        },
    }
}

// What is found in lines in short.
fn found(alloc: Global, shape: &str) -> Result<Option<(usize, BlockCause)>, Fail> {
    let mut lines = Vec::new(alloc);
    for word in shape.split_ascii_whitespace() {
        lines.push(line_of_word(word))?;
    }
    match first_fault(alloc, lines.as_slice(), true)? {
        Some(fault) => Ok(Some((fault.place, fault.cause))),
        None => Ok(None),
    }
}

#[test]
fn each_shape_has_its_first_fault(rt: HostRuntime) -> Result<(), Fail> {
    let mut seen = 0u64;
    for (shape, fault) in &SHAPES {
        assert_eq!(rt; found(rt.alloc(), shape)?, *fault, "{shape}");
        seen = seen.saturating_add(1);
    }
    assert_eq!(rt; seen, 92);
    Ok(())
}

fn are_below(numbers: &[u32], count: usize) -> bool
    ensures { IsTrue result ↔ All (λ n. n < count) numbers.now }
{
    numbers.iter().all(|n| (*n as usize) < count)
}

fn is_below(number: Option<u32>, count: usize) -> bool
    ensures { IsTrue result ↔ IfSome number (λ n. n < count) }
{
    match number {
        Some(n) => (n as usize) < count,
        None => true,
    }
}

fn is_made(row: &BlockRow, count: usize) -> bool
    ensures { IsTrue result ↔ IsMade count (row_of row.now) }
{
    are_below(row.nodes, count) && are_below(row.body, count) && is_below(row.docstring, count)
}

fn are_made(rows: &[BlockRow], count: usize) -> bool
    ensures { IsTrue result ↔ All (λ row. IsMade count (row_of row)) rows.now }
{
    rows.iter().all(|row| is_made(row, count))
}

fn rows_are_made(rows: &[BlockRow], count: usize) -> bool
    ensures { IsTrue result → All (IsMade count) (map row_of rows.now) }
{
    are_made(rows, count)
}

// The tree of rows whose numbers are right.
fn parsed(
    rt: &impl Abort,
    alloc: Global,
    builder: TreeBuilder,
    rows: &[BlockRow],
) -> Result<Result<Tree, BlockError>, Fail> {
    let made = rows_are_made(rows, builder.rows());
    assert!(rt; made);
    Ok(parse_rows(alloc, builder, rows))
}

// A row on a line of its own.
fn row<'a>(head: Head, level: u32, line: u32, nodes: &'a [u32], body: &'a [u32]) -> BlockRow<'a> {
    BlockRow {
        head,
        level,
        pos: Pos { line, col: 0 },
        end_line: line,
        name: None,
        nodes,
        body,
        docstring: None,
    }
}

// A leaf on a line.
fn leaf(builder: &mut TreeBuilder, kind: Kind, line: u32) -> Result<u32, Fail> {
    Ok(builder.push(kind, Pos { line, col: 0 }, line, None, &[])?)
}

// A line for each node: its number, kind, line and last line, kids.
fn shown(alloc: Global, tree: &Tree) -> Result<String, Fail> {
    let mut text = String::new(alloc);
    for n in 0..tree.count() {
        let id = NodeId(n);
        let line = tree.pos(id).line;
        text.push_str(format!(in alloc;
            "{n} {:?} {line} {}",
            tree.kind(id),
            tree.end_line(id)
        )?.as_str())?;
        for kid in tree.kids(id) {
            text.push_str(format!(in alloc; " {}", kid.0)?.as_str())?;
        }
        text.push_str("\n")?;
    }
    Ok(text)
}

// @d                1
// def f():          2
//     "doc"         3
//     if a: pass    4
//     else:         5
//         pass      6
// try: pass         7
// except: pass      8
#[test]
fn rows_make_a_tree(rt: HostRuntime) -> Result<(), Fail> {
    let alloc = rt.alloc();
    let mut builder = TreeBuilder::new(alloc);
    let d = [leaf(&mut builder, Kind::Decorator, 1)?];
    let text = [leaf(&mut builder, Kind::ExpressionStatement, 3)?];
    let doc = leaf(&mut builder, Kind::Docstring, 3)?;
    let a = [leaf(&mut builder, Kind::Name, 4)?];
    let four = [leaf(&mut builder, Kind::Pass, 4)?];
    let six = [leaf(&mut builder, Kind::Pass, 6)?];
    let seven = [leaf(&mut builder, Kind::Pass, 7)?];
    let eight = [leaf(&mut builder, Kind::Pass, 8)?];
    let mut documented = row(Head::Simple, 1, 3, &[], &text);
    documented.docstring = Some(doc);
    let rows = [
        row(Head::Decorator, 0, 1, &d, &[]),
        row(Head::FunctionDef, 0, 2, &[], &[]),
        documented,
        row(Head::If, 1, 4, &a, &four),
        row(Head::Else, 1, 5, &[], &[]),
        row(Head::Simple, 2, 6, &[], &six),
        row(Head::Try, 0, 7, &[], &seven),
        row(Head::Except, 0, 8, &[], &eight),
    ];
    let tree = parsed(&rt, alloc, builder, &rows)?;
    let tree = match tree {
        Ok(tree) => shown(alloc, &tree)?,
        Err(_) => String::new(alloc),
    };
    assert_eq!(rt;
        tree.as_str(),
        "0 Module 1 8 1 9\n1 FunctionDef 2 6 2 3 4\n2 Decorator 1 1\n3 Docstring 3 3\n4 If 4 6 5 6 7\n5 Name 4 4\n6 Pass 4 4\n7 Else 5 6 8\n8 Pass 6 6\n9 Try 7 8 10 11\n10 Pass 7 7\n11 ExceptHandler 8 8 12\n12 Pass 8 8\n"
    );
    Ok(())
}

#[test]
fn a_fault_has_the_line_of_its_row(rt: HostRuntime) -> Result<(), Fail> {
    let alloc = rt.alloc();
    let rows = [
        row(Head::If, 0, 3, &[], &[]),
        row(Head::Simple, 0, 7, &[], &[]),
    ];
    let answer = parsed(&rt, alloc, TreeBuilder::new(alloc), &rows)?;
    let fault = BlockError::At {
        line: 7,
        cause: BlockCause::NeedsBlock,
    };
    assert_eq!(rt; answer.err(), Some(fault));
    Ok(())
}
