// Systems of a given shape and size.
ghost use Rattle.std.specs.Prelude.{◌<◌, ◌≤◌};

use infer_systems::{Rule, System};
use lint_values::Memory;
use std::alloc::Global;

const MOST: u64 = 10000000;

const WIDEST: u64 = 1000;

/// The system with this many variables, ten million at most: a ring, a fan, readers of the same variables or many variables
/// with one set under the limit 100, or else layers under the limit 8.
pub fn system_of(alloc: Global, shape: &str, size: u64) -> Result<System, Memory> {
    let size = size.min(MOST);
    if shape == "ring" {
        return ring(alloc, size);
    }
    if shape == "fan" {
        return readers(alloc, size, 0);
    }
    if shape == "readers" {
        return readers(alloc, size, size / 11);
    }
    if shape == "shared" {
        return shared(alloc, size);
    }
    layers(alloc, size)
}

// Number i takes the set of number i + 1, the last that of number 0, and number 0 adds one value.
fn ring(alloc: Global, size: u64) -> Result<System, Memory>
    requires { size ≤ 10000000 }
{
    let mut rules = Vec::new(alloc);
    rules.push(Rule::More(1, 5))?;
    for next in 2..size + 1 {
        rules.push(Rule::Copy(next))?;
    }
    Ok(System { rules, limit: 100 })
}

// A number below the bound, from a seed.
fn random(seed: &mut u64, below: u64) -> u64
    requires { 0 < below }
    ensures { result < below }
{
    *seed = seed
        .wrapping_mul(6364136223846793005)
        .wrapping_add(1442695040888963407);
    (*seed >> 33) % below
}

// The sets of two variables at random of the next layer, and a value in the last one.
fn rule_in_layers(seed: &mut u64, var: u64, size: u64, width: u64) -> Rule
    requires var { var ≤ 10000000 }
    requires some { 0 < width }
    requires width { width ≤ 1000 }
{
    let next = var - var % width + width;
    let first = random(seed, width);
    let second = random(seed, width);
    if next + width > size {
        return Rule::Value((first % 12) as u32);
    }
    Rule::Both(next + first, next + second)
}

// Layers of a thousand variables, or ten layers of a small system.
fn layers(alloc: Global, size: u64) -> Result<System, Memory>
    requires { size ≤ 10000000 }
{
    let width = (size / 10).max(1).min(WIDEST);
    let mut seed = 1u64;
    let mut rules = Vec::new(alloc);
    for var in 0..size {
        rules.push(rule_in_layers(&mut seed, var, size, width))?;
    }
    Ok(System { rules, limit: 8 })
}

// Number 0 takes the sets of the next ones, the readers, each of which takes the sets of all behind the readers, and these
// have one value each. With no reader number 0 takes the sets of all others itself.
fn readers(alloc: Global, size: u64, many: u64) -> Result<System, Memory>
    requires size { size ≤ 10000000 }
    requires many { many ≤ 10000000 }
{
    let rest = size.saturating_sub(many + 1) as u32;
    let mut rules = Vec::new(alloc);
    rules.push(if many == 0 {
        Rule::Row(1, rest)
    } else {
        Rule::Row(1, many as u32)
    })?;
    for _ in 0..many {
        rules.push(Rule::Row(many + 1, rest))?;
    }
    for number in 0..rest {
        rules.push(Rule::Value(number % 12))?;
    }
    Ok(System { rules, limit: 100 })
}

// The last fifty variables are a chain in which each adds one value to the next one's set. All others take the set of fifty
// values of its first.
fn shared(alloc: Global, size: u64) -> Result<System, Memory>
    requires { size ≤ 10000000 }
{
    let first = size.saturating_sub(50);
    let mut rules = Vec::new(alloc);
    for _ in 0..first {
        rules.push(Rule::Copy(first))?;
    }
    for var in first..size.saturating_sub(1) {
        rules.push(Rule::More(var + 1, (size - var) as u32))?;
    }
    rules.push(Rule::Value(1))?;
    Ok(System { rules, limit: 100 })
}
