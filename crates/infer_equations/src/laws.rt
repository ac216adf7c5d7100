// What holds of the least solution of any equations.
ghost use Rattle.infer_equations.specs.Least.{least, IsLeastSolution};

use crate::equations::Equations;

/// The rounds end in the least solution.
pub fn least_solves<E: Equations>(_eqs: &E)
    ensures { IsLeastSolution (E.count_of _eqs.now) (E.limit_of _eqs.now) (E.right _eqs.now) (least (E.count_of _eqs.now) (E.limit_of _eqs.now) (E.right _eqs.now)) }
{}
