ghost use Rattle.std.specs.Prelude.{◌<◌, ◌↔◌, IsTrue, All};

use lint_messages::{Code, Message};
use lint_values::{FileId, Pos};
use scope_bind::Scopes;
use std::alloc::Global;
use std::process::Abort;
use std::test::Fail;
use tree_nodes::{Kind, Tree, TreeBuilder};
use unused_names::check_unused;

// The kinds of nodes in the program.
const KINDS: [(&str, Kind); 12] = [
    ("Alias", Kind::Alias),
    ("AsName", Kind::AsName),
    ("Assign", Kind::Assign),
    ("FunctionDef", Kind::FunctionDef),
    ("Import", Kind::Import),
    ("ImportFrom", Kind::ImportFrom),
    ("Module", Kind::Module),
    ("Name", Kind::Name),
    ("NameTarget", Kind::NameTarget),
    ("NumberLiteral", Kind::NumberLiteral),
    ("Parameter", Kind::Parameter),
    ("Return", Kind::Return),
];

// import os
// import used
// from x import y as z
//
//
// def f(a, _b):
//     x = 1
//     dummy = 2
//     return used
const PROGRAM: &str =
    "Alias:os/0 Import/1 Alias:used/0 Import/1 AsName:z/0 Alias:y/1 ImportFrom:x/1 Parameter:a/0 Parameter:_b/0 NameTarget:x/0 NumberLiteral:1/0 Assign/2 NameTarget:dummy/0 NumberLiteral:2/0 Assign/2 Name:used/0 Return/1 FunctionDef:f/5 Module/4";

fn kind_named(word: &str) -> Option<Kind> {
    for (name, kind) in KINDS {
        if word == name {
            return Some(kind);
        }
    }
    None
}

fn are_below(kids: &[u32], count: usize) -> bool
    ensures { IsTrue result ↔ All (λ k. k < count) kids.now }
{
    kids.iter().all(|k| (*k as usize) < count)
}

// Takes the last open rows away.
fn taken(alloc: Global, open: &mut Vec<u32>, count: usize) -> Result<Vec<u32>, Fail> {
    let start = open.len().saturating_sub(count);
    let kids = Vec::from_slice(alloc, &open[start..])?;
    open.truncate(start);
    Ok(kids)
}

// A node behind its kids: its kind, maybe `:` and its name, `/` and the count of its kids.
fn add_word(
    rt: &impl Abort,
    alloc: Global,
    builder: &mut TreeBuilder,
    open: &mut Vec<u32>,
    word: &str,
) -> Result<(), Fail> {
    let (node, count) = word.split_once('/').unwrap_or((word, "0"));
    let (kind, name) = match node.split_once(':') {
        Some((kind, name)) => (kind, Some(name)),
        None => (node, None),
    };
    let Some(kind) = kind_named(kind) else {
        assert_eq!(rt; kind, "a kind");
        return Ok(());
    };
    let kids = taken(alloc, open, count.parse().unwrap_or(0))?;
    let below = are_below(kids.as_slice(), builder.rows());
    assert!(rt; below);
    let pos = Pos { line: 1, col: 0 };
    open.push(builder.push(kind, pos, 1, name, kids.as_slice())?)?;
    Ok(())
}

fn tree_of(rt: &impl Abort, alloc: Global, nodes: &str) -> Result<Tree, Fail> {
    let mut builder = TreeBuilder::new(alloc);
    let mut open = Vec::new(alloc);
    for word in nodes.split(' ') {
        add_word(rt, alloc, &mut builder, &mut open, word)?;
    }
    let root = open.pop().unwrap_or(0);
    let is_made = (root as usize) < builder.rows();
    assert!(rt; is_made);
    Ok(builder.finish(root)?)
}

// Adds what messages of this code say.
fn add_shown(
    alloc: Global,
    messages: &[Message],
    code: Code,
    letters: &str,
    text: &mut String,
) -> Result<(), Fail> {
    for message in messages {
        if message.code == code {
            for argument in message.args.as_slice() {
                if !text.is_empty() {
                    text.push_str("; ")?;
                }
                let argument = argument.as_str();
                text.push_str(format!(in alloc; "{letters} {argument}")?.as_str())?;
            }
        }
    }
    Ok(())
}

fn shown(alloc: Global, tree: &Tree) -> Result<String, Fail> {
    let scopes = Scopes::build(alloc, tree)?;
    let messages = check_unused(alloc, FileId(0), false, tree, &scopes)?;
    let mut text = String::new(alloc);
    let list = messages.as_slice();
    add_shown(alloc, list, Code::UnusedImport, "W0611", &mut text)?;
    add_shown(alloc, list, Code::UnusedVariable, "W0612", &mut text)?;
    add_shown(alloc, list, Code::UnusedArgument, "W0613", &mut text)?;
    Ok(text)
}

#[test]
fn unused_names_of_a_module(rt: HostRuntime) -> Result<(), Fail> {
    let alloc = rt.alloc();
    let tree = tree_of(&rt, alloc, PROGRAM)?;
    let expected = "W0611 Unused import os; W0611 Unused y imported from x as z; W0612 x; W0613 a";
    assert_eq!(rt; shown(alloc, &tree)?.as_str(), expected);
    Ok(())
}
