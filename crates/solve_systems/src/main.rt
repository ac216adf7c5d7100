// Solves a system of a given shape and size, for measurements and for refusals of memory.
#![tactic(auto)]

ghost use Rattle.std.specs.Prelude.{◌≡◌, ◌<◌, ◌≤◌};

mod shapes;

use infer_core::{Equations, Frozen, Solver, Steps};
use infer_sets::AbsSet;
use infer_systems::{Counted, System};
use lint_values::Memory;
use shapes::system_of;
use std::alloc::Global;
use std::io::ErrorKind;
use std::marker::Brand;
use std::process::ExitCode;
use std::sync::ledger::{Blank, Ledger};
use std::{env, io};

const WANT_OF_MEMORY: u8 = 70;

const WORDS_REFUSED: u8 = 71;

const WRITE_FAULT: u8 = 74;

// What was done: a digest of the sets, the demands that ran out of memory, and the evaluations.
#[derive(Drop)]
struct Done {
    digest: u64,
    refused: u64,
    first: u64,
    second: u64,
}

// A number for a set: how many values it has, and one more than any for Uninferable.
fn weight(set: &AbsSet) -> u64 {
    match set.values() {
        Some(values) => values.len() as u64,
        None => u32::MAX as u64 + 1,
    }
}

// A demand, once more where memory ran out: the solver may be asked again.
fn weigh<E: Equations, L: Ledger>(
    solver: &mut Solver<E>,
    var: u64,
    refused: &mut u64,
    steps: &mut Steps<L>,
) -> Result<u64, Memory>
    requires { var < E.count_of solver.old.equations }
    ensures { solver.new.equations ≡ solver.old.equations }
{
    if let Ok(set) = solver.demand(var, steps) {
        return Ok(weight(set));
    }
    *refused = refused.saturating_add(1);
    Ok(weight(solver.demand(var, steps)?))
}

// Demands each variable below `count`, and gives a digest of their sets.
fn weigh_all<E: Equations, L: Ledger>(
    solver: &mut Solver<E>,
    count: u64,
    refused: &mut u64,
    steps: &mut Steps<L>,
) -> Result<u64, Memory>
    requires { count ≤ E.count_of solver.old.equations }
    ensures { solver.new.equations ≡ solver.old.equations }
{
    let mut digest = 0u64;
    for var in 0..count {
        let weight = weigh(solver, var, refused, steps)?;
        digest = digest.wrapping_mul(31).wrapping_add(weight);
    }
    Ok(digest)
}

// Solves each variable, hands the sets to a frozen table, and demands each again over it.
fn solve<L: Ledger>(alloc: Global, system: &System, blank: Blank) -> Result<Done, Memory>
    requires name { blank.name ≡ L.name }
    requires parts { blank.parts ≡ L.parts }
    requires some { 0 < blank.parts }
{
    let mut steps = Steps::<L>::new(blank);
    let counted = Counted::new(system);
    let count = counted.var_count();
    let mut refused = 0u64;
    let mut table = Frozen::empty(alloc);
    let mut solver = Solver::new(alloc, &counted, &table);
    let digest = weigh_all(&mut solver, count, &mut refused, &mut steps)?;
    let first = counted.evaluations();
    let overlay = solver.finish()?;
    table.merge(overlay)?;
    let mut second = Solver::new(alloc, &counted, &table);
    let again = weigh_all(&mut second, count, &mut refused, &mut steps)?;
    Ok(Done {
        digest: digest ^ again.rotate_left(1),
        refused,
        first,
        second: counted.evaluations().saturating_sub(first),
    })
}

fn solve_words(alloc: Global, shape: &str, size: u64) -> Result<Done, Memory> {
    let system = system_of(alloc, shape, size)?;
    solve::<Brand>(alloc, &system, Blank::new(1))
}

// The shape and the size behind the program's name.
fn words(rt: &HostRuntime) -> io::Result<(String, u64)> {
    let mut shape = String::new(rt.alloc());
    let mut size = 0u64;
    for (place, word) in env::args(rt)?.skip(1).enumerate() {
        if place == 0 {
            shape = word;
        } else {
            size = word.parse().unwrap_or(0);
        }
    }
    Ok((shape, size))
}

fn main(rt: HostRuntime) -> ExitCode {
    let (shape, size) = match words(&rt) {
        Ok(words) => words,
        Err(error) if error.kind() == ErrorKind::OutOfMemory => {
            return ExitCode::from(WANT_OF_MEMORY);
        }
        Err(_) => return ExitCode::from(WORDS_REFUSED),
    };
    let Ok(done) = solve_words(rt.alloc(), &shape, size) else {
        return ExitCode::from(WANT_OF_MEMORY);
    };
    let written = println!(rt;
        "sets {:016x}\nrefused {}\nevaluations {} and {}",
        done.digest, done.refused, done.first, done.second
    );
    match written {
        Ok(()) => ExitCode::SUCCESS,
        Err(_) => ExitCode::from(WRITE_FAULT),
    }
}
