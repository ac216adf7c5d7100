// Equations whose evaluations are counted as they run.
ghost use Rattle.std.specs.Prelude.{◌≡◌, ℕ, ◌<◌, length};

use crate::system::System;
use infer_core::{Equations, Steps, View};
use infer_sets::SetId;
use lint_values::Memory;
use std::alloc::Global;
use std::cell::Cell;
use std::sync::ledger::Ledger;

/// A system, and how often its right sides were evaluated. `Steps` counts them for contracts, and takes no memory; this
/// counts them at run time, for tests and measurements. No contract says what it counts.
#[derive(Drop)]
pub struct Counted<'a> {
    system: &'a System,
    evaluations: Cell<u64>,
}

impl<'a> Counted<'a> {
    /// The system, with no evaluation yet.
    pub fn new(system: &'a System) -> Counted<'a> {
        Counted {
            system,
            evaluations: Cell::new(0),
        }
    }

    /// How many evaluations there were.
    pub fn evaluations(&self) -> u64 {
        self.evaluations.get()
    }
}

impl<'a> Equations for Counted<'a> {
    ghost use Rattle.std.specs.Prelude.{length};
    ghost use Rattle.infer_systems.specs.Rules.{rule_at, rule_right, rule_reads};
    ghost use Rattle.infer_systems.specs.Laws.{rule-rises, rule-fits, rule-in_range};

    ghost limit_of = { λ e. e.system.now.limit };

    ghost count_of = { λ e. length e.system.now.rules.items };

    ghost right = { λ e v a. rule_right (length e.system.now.rules.items) e.system.now.limit (rule_at e.system.now.rules.items v) a };

    ghost reads = { λ e v a. rule_reads (length e.system.now.rules.items) (rule_at e.system.now.rules.items v) a };

    fn limit(&self) -> u32 {
        self.system.limit()
    }

    fn var_count(&self) -> u64 {
        self.system.var_count()
    }

    fn eval<L: Ledger>(
        &self,
        alloc: Global,
        var: u64,
        view: &mut View,
        steps: &mut Steps<L>,
    ) -> Result<SetId, Memory> {
        self.evaluations.set(self.evaluations.get().wrapping_add(1));
        self.system.eval(alloc, var, view, steps)
    }

    ghost monotone = { λ e v a b h w. rule-rises (length e.system.now.rules.items) e.system.now.limit (rule_at e.system.now.rules.items v) a b w };

    ghost within = { λ e v a h f. rule-fits (length e.system.now.rules.items) e.system.now.limit (rule_at e.system.now.rules.items v) a f };

    ghost in_range = { λ e v a h. rule-in_range (length e.system.now.rules.items) v (rule_at e.system.now.rules.items v) a h };
}
