// Equations over sets.
ghost use Rattle.std.specs.Prelude.{◌≡◌, ℕ, ◌+◌, ◌<◌, List, IfOk};
ghost use Rattle.std.specs.List.{All};
ghost use Rattle.infer_sets.specs.Sets.{Set, Below, Fits};
ghost use Rattle.infer_equations.specs.Assignment.{Within, AllFit};
ghost use Rattle.infer_equations.specs.Reading.{Gives};
ghost use Rattle.infer_equations.specs.Seen.{Stays};

use crate::steps::Steps;
use crate::view::View;
use infer_sets::SetId;
use lint_values::Memory;
use std::alloc::Global;
use std::sync::ledger::Ledger;

/// One equation for each variable below `var_count`: its right side is a set that depends on the variables' sets.
pub trait Equations {
    /// The most values that a set may have.
    ghost limit_of: { Self → ℕ };

    /// How many variables there are.
    ghost count_of: { Self → ℕ };

    /// The right side of a variable under an assignment.
    ghost right: { Self → ℕ → (ℕ → Set) → Set };

    /// The variables whose sets the right side takes under an assignment.
    ghost reads: { Self → ℕ → (ℕ → Set) → List ℕ };

    /// The most values that a set may have.
    fn limit(&self) -> u32
        ensures { result ≡ limit_of self.now };

    /// How many variables there are: they are the numbers below it.
    fn var_count(&self) -> u64
        ensures { result ≡ count_of self.now };

    /// The number of the right side of a variable under the view's assignment. It takes sets from the view alone, and
    /// counts one step.
    fn eval<L: Ledger>(
        &self,
        alloc: Global,
        var: u64,
        view: &mut View,
        steps: &mut Steps<L>,
    ) -> Result<SetId, Memory>
        requires { var < count_of self.now }
        ensures step { steps.new ≡ steps.old + 1 }
        ensures stays { Stays view.old view.new }
        ensures gives { IfOk result (λ id. Gives (right self.now var) (reads self.now var) view.old view.new id) };

    // A greater assignment gives a greater right side.
    ghost monotone: { (e : Self) (v : ℕ) (a b : ℕ → Set) → v < count_of e → Within a b → Below (right e v a) (right e v b) };

    // Under sets within the limit the right side is within the limit.
    ghost within: { (e : Self) (v : ℕ) (a : ℕ → Set) → v < count_of e → AllFit (limit_of e) a → Fits (limit_of e) (right e v a) };

    // Only variables of these equations are read.
    ghost in_range: { (e : Self) (v : ℕ) (a : ℕ → Set) → v < count_of e → All (λ w. w < count_of e) (reads e v a) };
}
