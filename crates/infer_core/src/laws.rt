// From one demand to many, and from one merge to many.
ghost use Rattle.infer_core.specs.Laws.{ReachGoesOn, CostsAddUp, RowsCompose, FewAgain};

use infer_equations::Equations;

/// What some variables reach is reached from whatever reaches all of these.
pub fn reach_goes_on()
    ensures { ReachGoesOn }
{}

/// The steps for variables, and those for others, are together no more than those for both.
pub fn costs_add_up()
    ensures { CostsAddUp }
{}

/// Demands in a row are again demands in a row, with one sum of what they added and of their steps.
pub fn rows_compose<E: Equations>(_eqs: &E)
    ensures { RowsCompose E }
{}

/// Where overlays of one round are merged, each but the first solves again at most what the table gained in the round.
pub fn merges_count_few()
    ensures { FewAgain }
{}
