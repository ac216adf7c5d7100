// Lists of parameters.
ghost use Rattle.std.specs.Prelude.{◌≡◌, ℕ, ◌<◌, ◌≤◌, ◌+◌, ◌++◌, ◌||◌, if◌then◌else◌, true, false, Some, None, List, length, take, drop, slice_set, slice_index_or, OnOk, IfOk, IfErr};
ghost use Rattle.tree_nodes.specs.Trees.{Tree};
ghost use Rattle.tree_nodes.specs.Back.{no_tree};
ghost use Rattle.tree_nodes.specs.Rows.{tree_of};
ghost use Rattle.py_grammar.specs.Terminals.{Terminal};
ghost use Rattle.py_grammar.specs.Tests.{ends_with_default as ends_with_default_spec, behind_parameter as behind_parameter_spec, behind_slash as behind_slash_spec, behind_star as behind_star_spec, behind_double_star as behind_double_star_spec, next_stage as next_stage_spec, may_end as may_end_spec, parameters_in_order as parameters_in_order_spec, keyword_only, is_star as is_star_spec};
ghost use Rattle.py_grammar.specs.Expressions.{keyword_only_behind_star as keyword_only_behind_star_spec};
ghost use Rattle.py_forest.specs.Annotations.{is_annotation as is_annotation_spec};
ghost use Rattle.py_forest.specs.Forests.{trees};
ghost use Rattle.py_forest.specs.declared.fault.Fault.TheVariants.{Memory};

use crate::fault::Fault;
use crate::forest::Forest;
use py_grammar::Stage;
use tree_nodes::{Kind, TreeBuilder};

/// The annotation of a parameter.
fn is_annotation(kind: Kind) -> bool
    ensures { result ≡ is_annotation_spec kind }
{
    matches!(kind, Kind::Annotation)
}

/// `*` or `*args`.
fn is_star(kind: Kind) -> bool
    ensures { result ≡ is_star_spec kind }
{
    matches!(kind, Kind::KeywordOnlyMark | Kind::StarParameter)
}

/// Whether a row's last kid is there and no annotation.
#[tactic(auto, using(crate::proofs::ParameterLaws::default_last, crate::proofs::ParameterLaws::default_none))]
fn ends_with_default(builder: &TreeBuilder, row: u32) -> bool
    requires { row < length builder.now }
    ensures { result ≡ ends_with_default_spec (tree_of builder.now row).kids }
{
    let kids = builder.kids(row);
    if kids.is_empty() {
        return false;
    }
    !is_annotation(builder.kind(kids[kids.len() - 1]))
}

/// Behind a parameter.
fn behind_parameter(stage: Stage, defaulted: bool) -> Option<Stage>
    ensures { result ≡ behind_parameter_spec stage defaulted }
{
    match stage {
        Stage::Start | Stage::Plain => Some(if defaulted {
            Stage::Defaulted
        } else {
            Stage::Plain
        }),
        Stage::Defaulted => if defaulted {
            Some(Stage::Defaulted)
        } else {
            None
        },
        Stage::PlainBehindSlash => Some(if defaulted {
            Stage::DefaultedBehindSlash
        } else {
            Stage::PlainBehindSlash
        }),
        Stage::DefaultedBehindSlash => if defaulted {
            Some(Stage::DefaultedBehindSlash)
        } else {
            None
        },
        Stage::BareStar | Stage::Keywords => Some(Stage::Keywords),
        Stage::End => None,
    }
}

/// Behind `/`.
fn behind_slash(stage: Stage) -> Option<Stage>
    ensures { result ≡ behind_slash_spec stage }
{
    match stage {
        Stage::Plain => Some(Stage::PlainBehindSlash),
        Stage::Defaulted => Some(Stage::DefaultedBehindSlash),
        _ => None,
    }
}

/// Behind `*` or `*args`.
fn behind_star(stage: Stage, next: Stage) -> Option<Stage>
    ensures { result ≡ behind_star_spec stage next }
{
    match stage {
        Stage::BareStar | Stage::Keywords | Stage::End => None,
        _ => Some(next),
    }
}

/// Behind `**options`.
fn behind_double_star(stage: Stage) -> Option<Stage>
    ensures { result ≡ behind_double_star_spec stage }
{
    match stage {
        Stage::BareStar | Stage::End => None,
        _ => Some(Stage::End),
    }
}

/// The stage behind one more: `defaulted` says of a parameter that it has a default.
fn next_stage(stage: Stage, kind: Kind, defaulted: bool) -> Option<Stage>
    ensures { (t : Tree) → t.node.kind ≡ kind → ends_with_default_spec t.kids ≡ defaulted → result ≡ next_stage_spec stage t }
{
    match kind {
        Kind::PositionalOnlyMark => behind_slash(stage),
        Kind::KeywordOnlyMark => behind_star(stage, Stage::BareStar),
        Kind::StarParameter => behind_star(stage, Stage::Keywords),
        Kind::DoubleStarParameter => behind_double_star(stage),
        _ => behind_parameter(stage, defaulted),
    }
}

/// A list of parameters may end at this stage.
fn may_end(stage: Stage) -> bool
    ensures { result ≡ may_end_spec stage }
{
    !matches!(stage, Stage::BareStar)
}

impl Forest {
    /// Whether a tree's last kid is there and no annotation.
    fn is_defaulted(&self, place: usize) -> bool
        requires { place < length (trees self.now) }
        ensures { result ≡ ends_with_default_spec (slice_index_or (trees self.now) place no_tree).kids }
    {
        ends_with_default(&self.builder, self.tops[place].row)
    }

    /// The stage behind the parameter at a place.
    fn stage_behind(&self, stage: Stage, place: usize) -> Option<Stage>
        requires { place < length (trees self.now) }
        ensures { result ≡ next_stage_spec stage (slice_index_or (trees self.now) place no_tree) }
    {
        next_stage(stage, self.kind(place), self.is_defaulted(place))
    }

    /// Whether parameters stand in order from `mark` on.
    #[tactic(auto, using(crate::proofs::ParameterLaws::stage_next, crate::proofs::ParameterLaws::stage_end))]
    pub fn parameters_in_order(&self, mark: usize) -> bool
        ensures { result ≡ parameters_in_order_spec (drop mark (trees self.now)) }
    {
        let mut stage = Stage::Start;
        for place in mark..self.len() {
            match self.stage_behind(stage, place) {
                Some(next) => stage = next,
                None => return false,
            }
        }
        may_end(stage)
    }

    /// A parameter behind a star becomes one that only a keyword gives; whether a star stands before what follows.
    #[tactic(auto, using(crate::proofs::ParameterLaws::keyword_only_is, crate::proofs::ParameterLaws::set_itself))]
    fn pass_parameter(&mut self, place: usize, behind: bool) -> Result<bool, Fault>
        requires { place < length (trees self.old) }
        ensures ok { OnOk result (trees self.new ≡ slice_set (trees self.old) place (if behind then keyword_only (slice_index_or (trees self.old) place no_tree) else slice_index_or (trees self.old) place no_tree)) }
        ensures star { IfOk result (λ b. b ≡ (behind || is_star_spec (slice_index_or (trees self.old) place no_tree).node.kind)) }
        ensures err { IfErr result (λ e. e ≡ Memory) }
    {
        let kind = self.kind(place);
        if !behind {
            return Ok(is_star(kind));
        }
        if matches!(kind, Kind::Parameter) {
            self.retag_at(place, Kind::KeywordOnlyParameter)?;
        }
        Ok(true)
    }

    /// The parameters behind a star, from `mark` on, become those that only a keyword gives.
    pub fn keyword_only_behind_star(&mut self, mark: usize) -> Result<(), Fault>
        ensures ok { (ts : List Terminal) → OnOk result (trees self.new ≡ take mark (trees self.old) ++ keyword_only_behind_star_spec ts (drop mark (trees self.old))) }
        ensures err { IfErr result (λ e. e ≡ Memory) }
    {
        let mut behind = false;
        for place in mark..self.len() {
            behind = self.pass_parameter(place, behind)?;
        }
        Ok(())
    }
}
