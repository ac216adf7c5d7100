// Equations given by a list of rules.
ghost use Rattle.std.specs.Prelude.{◌≡◌, ℕ, ◌<◌, ◌^◌, ◌%◌, IfOk, length, Some};
ghost use Rattle.std.specs.FinSet as set;
ghost use Rattle.infer_sets.specs.Sets.{joined, Set};
ghost use Rattle.infer_equations.specs.Seen.{Stays};
ghost use Rattle.infer_equations.specs.Reading.{Gives};
ghost use Rattle.infer_systems.specs.Rules.{value_of, with_reads, both_right, both_reads, when_right, when_reads, rule_right, rule_reads, rule_at, no_reads, row_right, row_reads};

use crate::rule::Rule;
use infer_core::{Equations, Steps, View};
use infer_sets::{AbsSet, AbsVal, SetId};
use lint_values::{FileId, Memory};
use std::alloc::Global;
use std::sync::ledger::Ledger;

/// One rule for each variable, and the most values that a set may have.
#[derive(Drop)]
pub struct System {
    pub rules: Vec<Rule>,
    pub limit: u32,
}

fn one(alloc: Global, number: u32) -> Result<AbsSet, Memory>
    ensures { IfOk result (λ s. s ≡ value_of number) }
{
    AbsSet::one(alloc, AbsVal::Module(FileId(number)))
}

// A set that needs no reading.
fn constant(alloc: Global, limit: u32, number: u32) -> Result<AbsSet, Memory>
    ensures { IfOk result (λ s. s ≡ joined limit (value_of number) (value_of number)) }
{
    let set = one(alloc, number)?;
    set.join(alloc, &set, limit)
}

// The set of a variable with more values.
fn with(limit: u32, var: u64, more: AbsSet, view: &mut View) -> Result<SetId, Memory>
    ensures stays { Stays view.old view.new }
    ensures gives { IfOk result (λ id. Gives (λ a. joined limit (a var) more) (λ _. with_reads var) view.old view.new id) }
{
    let set = view.get(var)?;
    let other = view.number(more)?;
    view.join(set, other, limit)
}

// The sets of two variables together.
fn both(limit: u32, first: u64, second: u64, view: &mut View) -> Result<SetId, Memory>
    ensures stays { Stays view.old view.new }
    ensures gives { IfOk result (λ id. Gives (both_right limit first second) (both_reads first second) view.old view.new id) }
{
    let set = view.get(first)?;
    let more = view.get(second)?;
    view.join(set, more, limit)
}

// The set of the second variable where that of the first is not empty.
fn when(
    alloc: Global,
    limit: u32,
    first: u64,
    second: u64,
    view: &mut View,
) -> Result<SetId, Memory>
    ensures stays { Stays view.old view.new }
    ensures gives { IfOk result (λ id. Gives (when_right limit first second) (when_reads first second) view.old view.new id) }
{
    let none = AbsSet::empty(alloc);
    let set = view.get(first)?;
    if view.set(set).is_within(&none) {
        return view.number(none);
    }
    with(limit, second, none, view)
}

// The sets of several variables together, from one on.
fn row(
    alloc: Global,
    limit: u32,
    count: u64,
    first: u64,
    many: u32,
    view: &mut View,
) -> Result<SetId, Memory>
    requires some { 0 < count }
    requires count { count < 2 ^ 63 }
    ensures stays { Stays view.old view.new }
    ensures gives { IfOk result (λ id. Gives (row_right count limit first many) (row_reads count first many) view.old view.new id) }
{
    let start = first % count;
    let mut set = view.number(AbsSet::empty(alloc))?;
    for place in 0..many {
        let more = view.get((start + place as u64) % count)?;
        set = view.join(set, more, limit)?;
    }
    Ok(set)
}

// The right side of a rule, over `count` variables.
fn right_side(
    alloc: Global,
    limit: u32,
    count: u64,
    rule: Rule,
    view: &mut View,
) -> Result<SetId, Memory>
    requires some { 0 < count }
    requires count { count < 2 ^ 63 }
    ensures stays { Stays view.old view.new }
    ensures gives { IfOk result (λ id. Gives (rule_right count limit rule) (rule_reads count rule) view.old view.new id) }
{
    match rule {
        Rule::Nothing => view.number(AbsSet::empty(alloc)),
        Rule::Unknown => view.number(AbsSet::uninferable()),
        Rule::Value(number) => view.number(constant(alloc, limit, number)?),
        Rule::Copy(var) => with(limit, var % count, AbsSet::empty(alloc), view),
        Rule::More(var, number) => with(limit, var % count, one(alloc, number)?, view),
        Rule::Both(first, second) => both(limit, first % count, second % count, view),
        Rule::When(first, second) => when(alloc, limit, first % count, second % count, view),
        Rule::Row(first, many) => row(alloc, limit, count, first, many, view),
    }
}

impl Equations for System {
    ghost use Rattle.std.specs.Prelude.{length};
    ghost use Rattle.infer_systems.specs.Rules.{rule_at, rule_right, rule_reads};
    ghost use Rattle.infer_systems.specs.Laws.{rule-rises, rule-fits, rule-in_range};

    ghost limit_of = { λ e. e.limit };

    ghost count_of = { λ e. length e.rules.items };

    ghost right = { λ e v a. rule_right (length e.rules.items) e.limit (rule_at e.rules.items v) a };

    ghost reads = { λ e v a. rule_reads (length e.rules.items) (rule_at e.rules.items v) a };

    fn limit(&self) -> u32 {
        self.limit
    }

    fn var_count(&self) -> u64 {
        self.rules.len() as u64
    }

    fn eval<L: Ledger>(
        &self,
        alloc: Global,
        var: u64,
        view: &mut View,
        steps: &mut Steps<L>,
    ) -> Result<SetId, Memory> {
        steps.tick();
        let rule = self.rules[var as usize];
        right_side(alloc, self.limit, self.rules.len() as u64, rule, view)
    }

    ghost monotone = { λ e v a b h w. rule-rises (length e.rules.items) e.limit (rule_at e.rules.items v) a b w };

    ghost within = { λ e v a h f. rule-fits (length e.rules.items) e.limit (rule_at e.rules.items v) a f };

    ghost in_range = { λ e v a h. rule-in_range (length e.rules.items) v (rule_at e.rules.items v) a h };
}
