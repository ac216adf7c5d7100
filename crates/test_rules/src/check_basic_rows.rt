// The rules on trees, over sources and the trees that Python's own parser gives them.
ghost use Rattle.std.specs.Prelude.{◌<◌, ◌↔◌, IsTrue, All};

use check_basic::{check_tree, statements};
use lint_messages::Messages;
use lint_values::{FileId, Pos};
use options::{Edits, Options};
use py_token::tokenize;
use std::alloc::Global;
use std::process::Abort;
use std::test::Fail;
use tree_nodes::{Kind, Tree, TreeBuilder};

mod docstrings;
mod lines;

// The kind that a letter stands for.
fn kind_of(letter: u8) -> Kind {
    match letter {
        b'n' => Kind::Name,
        b'e' => Kind::EllipsisLiteral,
        b's' => Kind::StringLiteral,
        b'b' => Kind::BytesLiteral,
        b'u' => Kind::NumberLiteral,
        b'a' => Kind::Attribute,
        b't' => Kind::Tuple,
        b'F' => Kind::FString,
        b'f' => Kind::Field,
        b'+' => Kind::Add,
        b'S' => Kind::Sum,
        b'v' => Kind::NameTarget,
        b'D' => Kind::Docstring,
        b'x' => Kind::ExpressionStatement,
        b'p' => Kind::Pass,
        b'r' => Kind::Return,
        b'=' => Kind::Assign,
        b'c' => Kind::AsName,
        b'l' => Kind::Alias,
        b'i' => Kind::Import,
        b'm' => Kind::ImportFrom,
        b'I' => Kind::If,
        b'L' => Kind::Elif,
        b'E' => Kind::Else,
        b'W' => Kind::While,
        b'R' => Kind::For,
        b'w' => Kind::With,
        b'o' => Kind::WithItem,
        b'T' => Kind::Try,
        b'h' => Kind::ExceptHandler,
        b'y' => Kind::Finally,
        b'M' => Kind::Match,
        b'k' => Kind::MatchValue,
        b'K' => Kind::Case,
        b'd' => Kind::FunctionDef,
        b'q' => Kind::AsyncFunctionDef,
        b'g' => Kind::Parameter,
        b'C' => Kind::ClassDef,
        b'*' => Kind::StarArgument,
        b'j' => Kind::KeywordArgument,
        b'z' => Kind::DoubleStarArgument,
        b'@' => Kind::Decorator,
        _ => Kind::Module,
    }
}

fn digit(b: u8) -> u32
    ensures { result < 10 }
{
    u32::from(b.saturating_sub(b'0')).min(9)
}

fn name_in(word: &[u8]) -> Option<&str> {
    match str::from_utf8(word) {
        Ok(name) if !word.is_empty() => Some(name),
        _ => None,
    }
}

fn are_below(kids: &[u32], count: usize) -> bool
    ensures { IsTrue result ↔ All (λ k. k < count) kids.now }
{
    kids.iter().all(|k| (*k as usize) < count)
}

// Adds a node over the last of those that are open, so many.
fn add(
    rt: &impl Abort,
    builder: &mut TreeBuilder,
    open: &mut Vec<u32>,
    kind: Kind,
    pos: Pos,
    name: Option<&str>,
    kids: usize,
) -> Result<(), Fail> {
    let from = open.len().saturating_sub(kids);
    let below = are_below(&open[from..], builder.rows());
    assert!(rt; below);
    let number = builder.push(kind, pos, pos.line, name, &open[from..])?;
    open.truncate(from);
    open.push(number)?;
    Ok(())
}

// Adds the node of a word: its kind's letter, its line, its column in two digits, how many of the nodes before it are its
// kids, and its name.
fn add_word(
    rt: &impl Abort,
    builder: &mut TreeBuilder,
    open: &mut Vec<u32>,
    word: &[u8],
) -> Result<(), Fail> {
    match word {
        [letter, line, tens, ones, kids, name @ ..] => {
            let pos = Pos {
                line: digit(*line),
                col: 10 * digit(*tens) + digit(*ones),
            };
            let kids = digit(*kids) as usize;
            add(
                rt,
                builder,
                open,
                kind_of(*letter),
                pos,
                name_in(name),
                kids,
            )
        }
        _ => Ok(()),
    }
}

// The tree of nodes in postorder, a word each, without the module's own.
fn tree_of(rt: &impl Abort, alloc: Global, nodes: &str) -> Result<Tree, Fail> {
    let mut builder = TreeBuilder::new(alloc);
    let mut open = Vec::new(alloc);
    for word in nodes.as_bytes().split(|b| *b == b' ') {
        add_word(rt, &mut builder, &mut open, word)?;
    }
    let kids = open.len();
    add(
        rt,
        &mut builder,
        &mut open,
        Kind::Module,
        Pos { line: 1, col: 0 },
        None,
        kids,
    )?;
    let root = open.pop().unwrap_or(0);
    let is_made = (root as usize) < builder.rows();
    assert!(rt; is_made);
    Ok(builder.finish(root)?)
}

// Each message's place, letters and arguments.
fn shown(alloc: Global, messages: &Messages) -> Result<String, Fail> {
    let mut text = String::new(alloc);
    for m in messages.as_slice() {
        if !text.is_empty() {
            text.push_str("; ")?;
        }
        let (line, col, letters) = (m.pos.line, m.pos.col, m.code.letters());
        text.push_str(format!(in alloc; "{line}:{col} {letters}")?.as_str())?;
        for arg in m.args.as_slice() {
            text.push_str(" ")?;
            text.push_str(arg.as_str())?;
        }
    }
    Ok(text)
}

// A source with this tree has these messages.
fn tells(
    rt: &impl Abort,
    alloc: Global,
    source: &str,
    nodes: &str,
    messages: &str,
) -> Result<(), Fail> {
    assert!(rt; source.len() < 1000);
    let tree = tree_of(rt, alloc, nodes)?;
    let options = Options::of(alloc, &Edits::new(alloc), &Edits::new(alloc))?;
    match tokenize(alloc, source.as_bytes()) {
        Ok(tokens) => {
            let found = check_tree(alloc, FileId(0), &tokens, &tree, &options)?;
            assert_eq!(rt; shown(alloc, &found)?.as_str(), messages, "{source}");
        }
        Err(_) => assert!(rt; false, "{source}"),
    }
    Ok(())
}

// A source as a row spells it: `~` stands for a line end and `^` for a tab.
fn spelled(alloc: Global, row: &str) -> Result<String, Fail> {
    let mut text = String::new(alloc);
    for c in row.chars() {
        text.push(match c {
            '~' => '\n',
            '^' => '\t',
            _ => c,
        })?;
    }
    Ok(text)
}

// Each row is a source, the nodes of its tree and its messages, between bars.
fn tell(rt: &impl Abort, alloc: Global, rows: &str) -> Result<(), Fail> {
    for row in rows.split('\n') {
        let (source, rest) = row.split_once('|').unwrap_or((row, ""));
        let (nodes, messages) = rest.split_once('|').unwrap_or((rest, ""));
        let source = spelled(alloc, source)?;
        tells(rt, alloc, source.as_str(), nodes, messages)?;
    }
    Ok(())
}

// How many statements, and the nodes of a tree, between bars; the source stands behind them.
const STATEMENTS: &str = r#"0||
0|D1000"""Doc."""|"""Doc."""~
2|D1000"d" n2000x x2001 n2030y x2031|"d"~x; y~
5|D1000"d" n2030x n3040y x3041 n4050z n4080y x4081 L4002 n5060y x5061 E5001 I2004|"d"~if x:~    y~elif z: y~else: y~
6|D1000"d" p3040 n4070x p5040 h4002 p7040 E6001 p9040 y8001 T2004|"d"~try:~    pass~except x:~    pass~else:~    pass~finally:~    pass~
2|D1000"d" D3040"d" p4040 C2002A|"d"~class A:~    "d"~    pass~
2|D1000"d" n2060x u30901 k3091 n3120y x3121 K3042 M2002|"d"~match x:~    case 1: y~
5|D1000"d" n2050x x2051 n3070y n3100z x3101 h3002 n4090x x4091 y4001 T2003|"d"~try: x~except y: z~finally: x~
2|n1000x x1001 s2000"""Doc.""" x2001|x~"""Doc."""~
4|D1000"d" n3070x n5120x x5121 d4081g I3042 d2001_f|"d"~def _f():~    if x:~        def g():~            x~
1|D1000"d" l2070a.b.c c2160e l2141d l2220f i2003|"d"~import a.b.c, d as e, f~"#;

#[test]
fn statements_are_counted(rt: HostRuntime) -> Result<(), Fail> {
    let alloc = rt.alloc();
    for row in STATEMENTS.split('\n') {
        let (count, rest) = row.split_once('|').unwrap_or((row, ""));
        let (nodes, _) = rest.split_once('|').unwrap_or((rest, ""));
        let tree = tree_of(&rt, alloc, nodes)?;
        let found = format!(in alloc; "{}", statements(&tree))?;
        assert_eq!(rt; found.as_str(), count, "{row}");
    }
    Ok(())
}
