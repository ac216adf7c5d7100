ghost use Rattle.std.specs.Prelude.{◌≡◌, ◌<◌, ◌≤◌, OnOk};
ghost use Rattle.infer_core.specs.Right.{IsRight};

use crate::rule::Rule::{Both, Copy, More, Nothing, Unknown, Value, When};
use crate::{Counted, Rule, System};
use infer_core::{
    Equations, Frozen, Plain, Solver, Steps, least_solves, tables_cross_threads as cross_threads,
};
use infer_sets::{AbsSet, AbsVal};
use lint_values::{FileId, Memory};
use std::alloc::Global;
use std::marker::Brand;
use std::sync::ledger::{Blank, Ledger};
use std::test::Fail;

// A bit for each of the values 0 to 6, and 99 for Uninferable.
fn bits_of(set: &AbsSet) -> u32 {
    if set.values().is_none() {
        return 99;
    }
    let mut bits = 0u32;
    for number in 0..7 {
        if set.has(&AbsVal::Module(FileId(number))) {
            bits |= 1 << number;
        }
    }
    bits
}

// The set of a variable by the plain solver, if the other solver gives the same, also when it is asked again.
fn solved_by<L: Ledger>(
    alloc: Global,
    system: &System,
    var: u64,
    blank: Blank,
) -> Result<u32, Memory>
    requires name { blank.name ≡ L.name }
    requires parts { blank.parts ≡ L.parts }
    requires some { 0 < blank.parts }
{
    if var >= system.var_count() {
        return Ok(1000);
    }
    let mut steps = Steps::<L>::new(blank);
    let plain = bits_of(&Plain::solve(alloc, system, var, &mut steps)?);
    let base = Frozen::empty(alloc);
    let mut solver = Solver::new(alloc, system, &base);
    let first = bits_of(solver.demand(var, &mut steps)?);
    let second = bits_of(solver.demand(var, &mut steps)?);
    Ok(if first == plain && second == plain {
        plain
    } else {
        1000
    })
}

fn solved(alloc: Global, system: &System, var: u64) -> Result<u32, Memory> {
    solved_by::<Brand>(alloc, system, var, Blank::new(1))
}

// The sets of four variables, as bits.
fn four(alloc: Global, limit: u32, rules: [Rule; 4]) -> Result<[u32; 4], Memory> {
    let rules = Vec::from_array(alloc, rules)?;
    let system = System { rules, limit };
    Ok([
        solved(alloc, &system, 0)?,
        solved(alloc, &system, 1)?,
        solved(alloc, &system, 2)?,
        solved(alloc, &system, 3)?,
    ])
}

// The limit, the rules of the variables 0 to 3, and their sets in the least solution.
const SYSTEMS: [(u32, [Rule; 4], [u32; 4]); 34] = [
    (1, [Nothing, Nothing, Nothing, Nothing], [0, 0, 0, 0]),
    (1, [Unknown, Nothing, Nothing, Nothing], [99, 0, 0, 0]),
    (1, [Value(0), Nothing, Nothing, Nothing], [1, 0, 0, 0]),
    (0, [Value(0), Nothing, Nothing, Nothing], [99, 0, 0, 0]),
    (1, [Value(0), Copy(0), Copy(1), Copy(2)], [1, 1, 1, 1]),
    (1, [Copy(1), Copy(2), Copy(3), Value(2)], [4, 4, 4, 4]),
    (2, [Copy(0), Nothing, Nothing, Nothing], [0, 0, 0, 0]),
    (2, [Copy(1), Copy(0), Nothing, Nothing], [0, 0, 0, 0]),
    (2, [Copy(1), Copy(2), Copy(3), Copy(0)], [0, 0, 0, 0]),
    (2, [More(1, 0), Copy(2), Copy(3), Copy(0)], [1, 1, 1, 1]),
    (2, [More(1, 0), More(0, 1), Nothing, Nothing], [3, 3, 0, 0]),
    (
        1,
        [More(1, 0), More(0, 1), Nothing, Nothing],
        [99, 99, 0, 0],
    ),
    (
        2,
        [More(1, 0), More(2, 1), More(0, 2), Nothing],
        [99, 99, 99, 0],
    ),
    (
        3,
        [More(1, 0), More(2, 1), More(0, 2), Nothing],
        [7, 7, 7, 0],
    ),
    (2, [Value(0), Value(1), Both(0, 1), Copy(2)], [1, 2, 3, 3]),
    (1, [Value(0), Value(1), Both(0, 1), Copy(2)], [1, 2, 99, 99]),
    (1, [Value(0), Value(0), Both(0, 1), Nothing], [1, 1, 1, 0]),
    (
        4,
        [Unknown, More(0, 1), Both(0, 3), Value(1)],
        [99, 99, 99, 2],
    ),
    (4, [When(1, 2), Nothing, Value(0), Nothing], [0, 0, 1, 0]),
    (4, [When(1, 2), Value(3), Value(0), Nothing], [1, 8, 1, 0]),
    (4, [When(0, 1), Value(0), Nothing, Nothing], [0, 1, 0, 0]),
    (4, [When(1, 3), When(0, 3), Nothing, Value(0)], [0, 0, 0, 1]),
    (4, [When(1, 3), Value(1), Nothing, Unknown], [99, 2, 0, 99]),
    (4, [When(1, 3), Unknown, Nothing, Value(0)], [1, 99, 0, 1]),
    (2, [Both(0, 1), Value(1), Nothing, Nothing], [2, 2, 0, 0]),
    (2, [Both(1, 1), More(0, 0), Nothing, Nothing], [1, 1, 0, 0]),
    (
        2,
        [More(0, 0), More(0, 1), More(1, 2), Nothing],
        [1, 3, 99, 0],
    ),
    (
        3,
        [More(0, 0), More(0, 1), More(1, 2), Nothing],
        [1, 3, 7, 0],
    ),
    (1, [Copy(1), Both(2, 3), Value(0), Value(1)], [99, 99, 1, 2]),
    (3, [When(1, 2), Copy(3), More(0, 1), Value(0)], [2, 1, 2, 1]),
    (
        3,
        [When(2, 1), Value(0), When(0, 3), Value(1)],
        [0, 1, 0, 2],
    ),
    (
        2,
        [Both(1, 2), More(0, 0), More(0, 1), Copy(0)],
        [3, 3, 3, 3],
    ),
    (
        1,
        [Both(1, 2), More(0, 0), More(0, 1), Copy(0)],
        [99, 99, 99, 99],
    ),
    (2, [Copy(5), Value(1), Nothing, Nothing], [2, 2, 0, 0]),
];

#[test]
fn small_systems_have_their_least_solutions(rt: HostRuntime) -> Result<(), Fail> {
    let alloc = rt.alloc();
    for (limit, rules, wanted) in SYSTEMS {
        assert_eq!(rt;
            four(alloc, limit, rules)?,
            wanted,
            "{rules:?} under {limit}"
        );
    }
    Ok(())
}

// Number i takes the set of number i + 1, the last that of number 0, and number 0 adds one value.
fn ring(alloc: Global, size: u64, limit: u32) -> Result<System, Memory> {
    let mut rules = Vec::new(alloc);
    rules.push(More(1, 5))?;
    for next in 2..size.max(1).min(1000000) + 1 {
        rules.push(Copy(next))?;
    }
    Ok(System { rules, limit })
}

// How many of the variables below `count` have the set with these bits.
fn matching<E: Equations, L: Ledger>(
    solver: &mut Solver<E>,
    count: u64,
    wanted: u32,
    steps: &mut Steps<L>,
) -> Result<u64, Memory>
    requires { count ≤ E.count_of solver.old.equations }
    ensures { solver.new.equations ≡ solver.old.equations }
{
    let mut matching = 0u64;
    for var in 0..count {
        let bits = bits_of(solver.demand(var, steps)?);
        matching = matching.saturating_add((bits == wanted) as u64);
    }
    Ok(matching)
}

// Each variable is demanded, and then each again: how many have the set with these bits, and the evaluations so far.
fn demanded_by<L: Ledger>(
    alloc: Global,
    system: &System,
    wanted: u32,
    blank: Blank,
) -> Result<[u64; 4], Memory>
    requires name { blank.name ≡ L.name }
    requires parts { blank.parts ≡ L.parts }
    requires some { 0 < blank.parts }
{
    let mut steps = Steps::<L>::new(blank);
    let counted = Counted::new(system);
    let count = counted.var_count();
    let base = Frozen::empty(alloc);
    let mut solver = Solver::new(alloc, &counted, &base);
    let first = matching(&mut solver, count, wanted, &mut steps)?;
    let taken = counted.evaluations();
    let second = matching(&mut solver, count, wanted, &mut steps)?;
    Ok([first, taken, second, counted.evaluations()])
}

fn demanded(alloc: Global, system: &System, wanted: u32) -> Result<[u64; 4], Memory> {
    demanded_by::<Brand>(alloc, system, wanted, Blank::new(1))
}

#[test]
fn a_ring_has_its_one_value(rt: HostRuntime) -> Result<(), Fail> {
    let alloc = rt.alloc();
    let short = ring(alloc, 50, 100)?;
    assert_eq!(rt; solved(alloc, &short, 49)?, 32);
    let system = ring(alloc, 1000, 100)?;
    least_solves(&system);
    let [first, taken, second, again] = demanded(alloc, &system, 32)?;
    assert_eq!(rt; first, 1000);
    assert_eq!(rt; second, 1000);
    assert!(rt; taken <= 103000, "{taken}");
    assert_eq!(rt; again, taken);
    Ok(())
}

// How many variables have one set by the plain solver and, each time, by one solver that is asked for each of them twice.
fn alike<E: Equations, L: Ledger>(
    alloc: Global,
    eqs: &E,
    solver: &mut Solver<E>,
    count: u64,
    steps: &mut Steps<L>,
) -> Result<u64, Memory>
    requires same { solver.old.equations ≡ eqs.now }
    requires in_range { count ≤ E.count_of eqs.now }
{
    let mut alike = 0u64;
    for var in 0..count {
        let plain = bits_of(&Plain::solve(alloc, eqs, var, steps)?);
        let first = bits_of(solver.demand(var, steps)?);
        let second = bits_of(solver.demand(var, steps)?);
        alike = alike.saturating_add((plain == first && plain == second) as u64);
    }
    Ok(alike)
}

fn alike_by<L: Ledger>(alloc: Global, system: &System, blank: Blank) -> Result<u64, Memory>
    requires name { blank.name ≡ L.name }
    requires parts { blank.parts ≡ L.parts }
    requires some { 0 < blank.parts }
{
    let mut steps = Steps::<L>::new(blank);
    let base = Frozen::empty(alloc);
    let mut solver = Solver::new(alloc, system, &base);
    alike(alloc, system, &mut solver, system.var_count(), &mut steps)
}

fn all_alike(alloc: Global, system: &System) -> Result<u64, Memory> {
    alike_by::<Brand>(alloc, system, Blank::new(1))
}

// A number below the bound, from a seed.
fn random(seed: &mut u64, below: u64) -> u64
    requires { 0 < below }
    ensures { result < below }
{
    *seed = seed
        .wrapping_mul(6364136223846793005)
        .wrapping_add(1442695040888963407);
    (*seed >> 33) % below
}

fn random_rule(seed: &mut u64) -> Rule {
    let var = random(seed, 16);
    let other = random(seed, 16);
    let number = random(seed, 7) as u32;
    match random(seed, 10) {
        0 => Nothing,
        1 => Unknown,
        2 => Value(number),
        3 | 4 => Copy(var),
        5 | 6 => More(var, number),
        7 | 8 => Both(var, other),
        _ => When(var, other),
    }
}

fn random_system(alloc: Global, seed: &mut u64) -> Result<System, Memory> {
    let mut rules = Vec::new(alloc);
    for _ in 0..random(seed, 12) + 1 {
        rules.push(random_rule(seed))?;
    }
    Ok(System {
        rules,
        limit: random(seed, 5) as u32,
    })
}

// The digest so far, and then the sets that one solver gives.
fn digest_on<E: Equations, L: Ledger>(
    solver: &mut Solver<E>,
    count: u64,
    before: u64,
    steps: &mut Steps<L>,
) -> Result<u64, Memory>
    requires { count ≤ E.count_of solver.old.equations }
    ensures { solver.new.equations ≡ solver.old.equations }
{
    let mut digest = before;
    for var in 0..count {
        let bits = bits_of(solver.demand(var, steps)?);
        digest = digest
            .wrapping_mul(6364136223846793005)
            .wrapping_add(bits as u64);
    }
    Ok(digest)
}

fn digest_by<L: Ledger>(
    alloc: Global,
    system: &System,
    before: u64,
    blank: Blank,
) -> Result<u64, Memory>
    requires name { blank.name ≡ L.name }
    requires parts { blank.parts ≡ L.parts }
    requires some { 0 < blank.parts }
{
    let mut steps = Steps::<L>::new(blank);
    let base = Frozen::empty(alloc);
    let mut solver = Solver::new(alloc, system, &base);
    digest_on(&mut solver, system.var_count(), before, &mut steps)
}

fn digest_of(alloc: Global, system: &System, before: u64) -> Result<u64, Memory> {
    digest_by::<Brand>(alloc, system, before, Blank::new(1))
}

// How many variables the systems have together, and the digest of their sets, as tools/random_systems.py finds them.
const SEEDED: (u64, u64) = (1330, 15272535771660217250);

#[test]
fn the_solvers_agree_on_systems_from_a_seed(rt: HostRuntime) -> Result<(), Fail> {
    let alloc = rt.alloc();
    let mut seed = 1u64;
    let mut count = 0u64;
    let mut digest = 0u64;
    for number in 0..200u32 {
        let system = random_system(alloc, &mut seed)?;
        assert_eq!(rt; all_alike(alloc, &system)?, system.var_count(), "{number}");
        count = count.saturating_add(system.var_count());
        digest = digest_of(alloc, &system, digest)?;
    }
    assert_eq!(rt; count, SEEDED.0);
    assert_eq!(rt; digest, SEEDED.1);
    Ok(())
}

// Two solvers over one table each solve a variable, and the table takes over what both solved.
fn round<E: Equations, L: Ledger>(
    alloc: Global,
    eqs: &E,
    table: &mut Frozen,
    first: u64,
    second: u64,
    steps: &mut Steps<L>,
) -> Result<(), Memory>
    requires right { IsRight (E.count_of eqs.now) (E.limit_of eqs.now) (E.right eqs.now) table.old.sets }
    requires first { first < E.count_of eqs.now }
    requires second { second < E.count_of eqs.now }
    ensures { OnOk result (IsRight (E.count_of eqs.now) (E.limit_of eqs.now) (E.right eqs.now) table.new.sets) }
{
    let mut one = Solver::new(alloc, eqs, table);
    let _ = one.demand(first, steps)?;
    let mut two = Solver::new(alloc, eqs, table);
    let _ = two.demand(second, steps)?;
    let solved = one.finish()?;
    let also = two.finish()?;
    table.merge(solved)?;
    table.merge(also)?;
    Ok(())
}

// After a round and once more the same round: the variables, and those solved again; the evaluations of both rounds.
fn rounds_by<L: Ledger>(
    alloc: Global,
    system: &System,
    first: u64,
    second: u64,
    blank: Blank,
) -> Result<[u64; 4], Memory>
    requires name { blank.name ≡ L.name }
    requires parts { blank.parts ≡ L.parts }
    requires some { 0 < blank.parts }
{
    let mut steps = Steps::<L>::new(blank);
    let counted = Counted::new(system);
    let count = counted.var_count();
    if first >= count || second >= count {
        return Ok([1000; 4]);
    }
    let mut table = Frozen::empty(alloc);
    round(alloc, &counted, &mut table, first, second, &mut steps)?;
    let taken = counted.evaluations();
    round(alloc, &counted, &mut table, first, second, &mut steps)?;
    Ok([table.count(), table.again(), taken, counted.evaluations()])
}

fn rounds(alloc: Global, rules: [Rule; 4], first: u64, second: u64) -> Result<[u64; 4], Memory> {
    let rules = Vec::from_array(alloc, rules)?;
    rounds_by::<Brand>(
        alloc,
        &System { rules, limit: 2 },
        first,
        second,
        Blank::new(1),
    )
}

// Rules, the two variables that two solvers are asked for, and what `rounds_by` gives.
const ROUNDS: [([Rule; 4], u64, u64, [u64; 4]); 5] = [
    ([Copy(1), Copy(2), Value(2), Copy(2)], 0, 3, [4, 1, 8, 8]),
    ([Copy(1), Copy(2), Value(2), Copy(2)], 0, 0, [3, 3, 10, 10]),
    ([Copy(1), Copy(2), Value(2), Copy(2)], 3, 1, [3, 1, 6, 6]),
    ([Value(0), Value(1), Nothing, Nothing], 0, 1, [2, 0, 2, 2]),
    ([Nothing, Unknown, Nothing, Nothing], 2, 2, [1, 1, 2, 2]),
];

#[test]
fn tables_take_over_what_solvers_solved(rt: HostRuntime) -> Result<(), Fail> {
    let alloc = rt.alloc();
    for (rules, first, second, wanted) in ROUNDS {
        assert_eq!(rt;
            rounds(alloc, rules, first, second)?,
            wanted,
            "{rules:?} {first} {second}"
        );
    }
    Ok(())
}

#[test]
fn an_empty_table_has_no_set(rt: HostRuntime) -> Result<(), Fail> {
    let base = Frozen::empty(rt.alloc());
    assert!(rt; base.get(0).is_none());
    assert_eq!(rt; base.count(), 0);
    assert_eq!(rt; base.again(), 0);
    Ok(())
}

#[test]
fn tables_cross_threads(rt: HostRuntime) -> Result<(), Fail> {
    let alloc = rt.alloc();
    let system = ring(alloc, 3, 1)?;
    let base = Frozen::empty(alloc);
    let overlay = Solver::new(alloc, &system, &base).finish()?;
    cross_threads(&base, &overlay);
    Ok(())
}
