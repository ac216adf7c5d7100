// A solver that keeps what it solved.
ghost use Rattle.std.specs.Prelude.{◌≡◌, ℕ, ◌<◌, IfOk, IfSome, None, option_copied};
ghost use Rattle.std.specs.FinMap as map;
ghost use Rattle.infer_equations.specs.Least.{least};
ghost use Rattle.infer_equations.specs.Assignment.{overlaid};
ghost use Rattle.infer_lazy.specs.Reach.{AreSupported};
ghost use Rattle.infer_core.specs.Right.{IsRight};
ghost use Rattle.infer_core.specs.Solving.{AreApart};
ghost use Rattle.infer_core.specs.Demand.{IsDemanded};

use crate::frozen::Frozen;
use crate::overlay::Overlay;
use infer_equations::{Equations, Steps, View};
use infer_lazy::work_through;
use infer_sets::AbsSet;
use lint_values::Memory;
use std::alloc::Global;
use std::marker::Model;
use std::sync::ledger::Ledger;

/// A solver of equations, over a frozen table that is right for them. It keeps the sets that it solved in a table of its
/// own, by the numbers of a layer over the frozen table's sets. Contracts see its equations, the sets of the frozen table, and those that it solved.
#[derive(Drop)]
pub struct Solver<'a, E: Equations> {
    alloc: Global,
    eqs: &'a E,
    view: View<'a>,
}

impl<'a, E: Equations> Model for Solver<'a, E> {
    ghost use Rattle.infer_core.specs.Solving.{Solving, solving_code, IsSolving};

    ghost Value = { Solving E };

    ghost coded = { solving_code E.code };

    ghost view = { λ s. record { equations = s.eqs.now; base = s.view.base; solved = s.view.own } };

    ghost invariant = { λ s. IsSolving (E.count_of s.eqs.now) (E.limit_of s.eqs.now) (E.right s.eqs.now) s.view.base s.view.own };
}

impl<'a, E: Equations> Solver<'a, E> {
    /// A solver that has solved nothing yet.
    pub fn new(alloc: Global, eqs: &'a E, base: &'a Frozen) -> Solver<'a, E>
        requires { IsRight (E.count_of eqs.now) (E.limit_of eqs.now) (E.right eqs.now) base.now.sets }
        ensures { result ≡ record { equations = eqs.now; base = base.now.sets; solved = map.empty } }
    {
        Solver {
            alloc,
            eqs,
            view: View::over(alloc, base.table()),
        }
    }

    /// Hands out what the solver solved, whole. Each of its sets is that of the least solution, its variables are none of
    /// the frozen table, and each rests on some variables of the two: its right side is its set wherever an assignment
    /// agrees with the least solution on these. The sets are copied, each once.
    pub fn finish(self) -> Result<Overlay, Memory>
        ensures whole { IfOk result (λ o. o ≡ self.entry.solved) }
        ensures right { IfOk result (λ o. IsRight (E.count_of self.entry.equations) (E.limit_of self.entry.equations) (E.right self.entry.equations) o) }
        ensures apart { IfOk result (λ o. AreApart self.entry.base o) }
        ensures rests { IfOk result (λ o. AreSupported (least (E.count_of self.entry.equations) (E.limit_of self.entry.equations) (E.right self.entry.equations)) (E.right self.entry.equations) self.entry.base o) }
    {
        Ok(Overlay::new(self.view.into_table()?))
    }

    fn known(&self, var: u64) -> Option<&AbsSet>
        ensures found { option_copied result ≡ map.get (overlaid self.now.base self.now.solved) var }
        ensures least { IfSome result (λ s. s.now ≡ least (E.count_of self.now.equations) (E.limit_of self.now.equations) (E.right self.now.equations) var) }
    {
        self.view.solved(var)
    }

    // Solves a variable that no table has.
    fn solve<L: Ledger>(&mut self, var: u64, steps: &mut Steps<L>) -> Result<(), Memory>
        requires in_range { var < E.count_of self.old.equations }
        requires missing { map.get (overlaid self.old.base self.old.solved) var ≡ None }
        ensures { IsDemanded (E.limit_of self.old.equations) (least (E.count_of self.old.equations) (E.limit_of self.old.equations) (E.right self.old.equations)) (E.reads self.old.equations) self.old self.new var steps.old steps.new result }
    {
        self.view.give_up();
        match work_through(self.alloc, self.eqs, &mut self.view, var, steps) {
            Err(refused) => Err(refused),
            Ok(reached) => self.view.settle(&reached),
        }
    }

    fn settle<L: Ledger>(&mut self, var: u64, steps: &mut Steps<L>) -> Result<(), Memory>
        requires { var < E.count_of self.old.equations }
        ensures { IsDemanded (E.limit_of self.old.equations) (least (E.count_of self.old.equations) (E.limit_of self.old.equations) (E.right self.old.equations)) (E.reads self.old.equations) self.old self.new var steps.old steps.new result }
    {
        if self.known(var).is_some() {
            return Ok(());
        }
        self.solve(var, steps)
    }
}

impl<'a, E: Equations> Solver<'a, E> {
    ghost use Rattle.std.specs.Prelude.{◌≡◌, ⊤, IfOk, [], ◌<◌};
    ghost use Rattle.std.specs.Borrow.{sem, follows_so};
    ghost use Rattle.infer_equations.specs.Least.{least};
    ghost use mathlib.Core.Option as maybe;
    ghost use mir.Syntax.{named};
    ghost use Rattle.infer_core.specs.Demand.{IsDemanded};
    ghost use Rattle.infer_core.specs.contracts.solver.Solver.{the_row};

    /// The set of a variable in the least solution, whatever was demanded before. What was solved stays solved, also where
    /// memory runs out, and the solver may be asked again.
    pub fn demand<L: Ledger>(&mut self, var: u64, steps: &mut Steps<L>) -> Result<&AbsSet, Memory>
        requires { var < E.count_of self.old.equations }
        ensures value { IfOk result (λ s. s.now ≡ least (E.count_of self.old.equations) (E.limit_of self.old.equations) (E.right self.old.equations) var) }
        ensures* after { sem 𝓛 (follows_so (the_row (record { mir = named 1; lft = [] }) E.row E.Equations) (the_row (record { mir = named 1; lft = [] }) E.row E.Equations) self.entry.ghost_name maybe.none (λ _ _. ⊤) (λ v. IsDemanded (E.limit_of self.old.equations) (least (E.count_of self.old.equations) (E.limit_of self.old.equations) (E.right self.old.equations)) (E.reads self.old.equations) self.old v var steps.old steps.new result)) }
    {
        match self.settle(var, steps) {
            Err(memory) => Err(memory),
            Ok(()) => match self.known(var) {
                Some(set) => Ok(set),
                None => unreachable!(),
            },
        }
    }
}
