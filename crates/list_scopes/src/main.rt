// Lists the scopes of files: where each stands, which names are local to it, and where each read in it leads. It serves
// comparisons and measurements; no clause says what it prints.
#![tactic(auto)]

mod listing;
mod source;

use lint_values::{Memory, Text};
use listing::listing;
use scope_bind::{ScopeId, Scopes};
use source::tree_of;
use std::alloc::Global;
use std::io::ErrorKind;
use std::process::ExitCode;
use std::time::Instant;
use std::{env, fs, io, rt};
use tree_nodes::Tree;

const WANT_OF_MEMORY: u8 = 70;

const INPUT_REFUSED: u8 = 71;

const WRITE_FAULT: u8 = 74;

// How the program ends other than well.
enum Fault {
    Memory,
    Input,
    Write,
}

impl From<Memory> for Fault {
    fn from(_: Memory) -> Self {
        Fault::Memory
    }
}

// An error of reading.
fn unread(error: io::Error) -> Fault {
    if error.kind() == ErrorKind::OutOfMemory {
        Fault::Memory
    } else {
        Fault::Input
    }
}

// An error of writing.
fn unwritten(_error: io::Error) -> Fault {
    Fault::Write
}

// The words behind the program's name.
fn words(rt: &HostRuntime) -> io::Result<Vec<Text>> {
    let mut words = Vec::new(rt.alloc());
    for word in env::args(rt)?.skip(1) {
        words.push(Text::from_string(word))?;
    }
    Ok(words)
}

// Prints the scopes of a tree.
fn list(rt: &HostRuntime, alloc: Global, tree: &Tree) -> Result<(), Fault> {
    let scopes = Scopes::build(alloc, tree)?;
    let text = listing(alloc, tree, &scopes)?;
    print!(rt; "{text}").map_err(unwritten)
}

// Prints how many nodes a tree has, and how long its scopes take.
fn time(rt: &HostRuntime, alloc: Global, tree: &Tree) -> Result<(), Fault> {
    let start = Instant::now(rt).map_err(unread)?;
    let scopes = Scopes::build(alloc, tree)?;
    let taken = start.elapsed(rt).map_err(unread)?;
    let names = scopes.names(ScopeId(0)).len();
    println!(rt;
        "{} nodes, {} names of the module, {} microseconds",
        tree.count(),
        names,
        taken.as_micros()
    )
    .map_err(unwritten)
}

// What is asked for of a file, which is read first. One that is no Python is said to be refused.
fn answer(rt: &HostRuntime, mode: &str, path: &str) -> Result<(), Fault> {
    let alloc = rt.alloc();
    let bytes = fs::read(rt, path).map_err(unread)?;
    println!(rt; "file {path}").map_err(unwritten)?;
    match tree_of(alloc, bytes.as_slice())? {
        None => println!(rt; "refused").map_err(unwritten),
        Some(tree) if mode == "time" => time(rt, alloc, &tree),
        Some(tree) => list(rt, alloc, &tree),
    }
}

// The first word is `list` or `time`; the others are paths.
fn answer_all(rt: &HostRuntime) -> Result<(), Fault> {
    let words = words(rt).map_err(unread)?;
    let Some((mode, paths)) = words.split_first() else {
        return Err(Fault::Input);
    };
    for path in paths {
        answer(rt, mode.as_str(), path.as_str())?;
    }
    Ok(())
}

fn main(rt: HostRuntime) -> ExitCode {
    match answer_all(&rt) {
        Ok(()) => ExitCode::SUCCESS,
        Err(Fault::Memory) => ExitCode::from(WANT_OF_MEMORY),
        Err(Fault::Input) => ExitCode::from(INPUT_REFUSED),
        Err(Fault::Write) => ExitCode::from(WRITE_FAULT),
    }
}
