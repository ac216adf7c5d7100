// Trees of a forest that become others.
ghost use Rattle.std.specs.Prelude.{◌≡◌, ℕ, ◌<◌, ◌≤◌, ◌+◌, ◌++◌, ◌==◌, ◌||◌, ◌&&◌, if◌then◌else◌, true, false, Some, None, List, length, take, drop, slice_set, slice_index_or, OnOk, IfOk, IfErr};
ghost use Rattle.tree_nodes.specs.Trees.{Tree};
ghost use Rattle.tree_nodes.specs.Back.{no_tree};
ghost use Rattle.tree_nodes.specs.Rows.{tree_of, with_kind};
ghost use Rattle.py_grammar.specs.Terminals.{Terminal};
ghost use Rattle.py_grammar.specs.Tests.{is_target as is_target_spec, as_target as as_target_spec};
ghost use Rattle.py_grammar.specs.Expressions.{is_one_target as is_one_target_spec, bound};
ghost use Rattle.py_forest.specs.Forests.{trees};
ghost use Rattle.py_forest.specs.declared.fault.Fault.TheVariants.{Memory};

use crate::fault::Fault;
use crate::forest::Forest;
use crate::targets::{as_target, is_target};
use crate::top::Top;
use tree_nodes::Kind;

impl Forest {
    /// Whether a tree can be bound.
    pub fn is_target(&self, place: usize) -> bool
        requires { place < length (trees self.now) }
        ensures { result ≡ is_target_spec (slice_index_or (trees self.now) place no_tree) }
    {
        is_target(&self.builder, self.tops[place].row)
    }

    /// Whether one tree stands from `mark` on, and can be bound.
    #[tactic(auto, using(crate::proofs::ChangeLaws::one_target, crate::proofs::ChangeLaws::no_one_target))]
    pub fn is_one_target(&self, mark: usize) -> bool
        ensures { result ≡ is_one_target_spec (drop mark (trees self.now)) }
    {
        if self.len().saturating_sub(mark) == 1 {
            self.is_target(mark)
        } else {
            false
        }
    }

    /// A tree becomes a target.
    pub fn bind_at(&mut self, place: usize) -> Result<(), Fault>
        requires { place < length (trees self.old) }
        ensures ok { OnOk result (trees self.new ≡ slice_set (trees self.old) place (as_target_spec (slice_index_or (trees self.old) place no_tree))) }
        ensures err { IfErr result (λ e. e ≡ Memory) }
    {
        let row = as_target(&mut self.builder, self.alloc, self.tops[place].row)?;
        let kind = self.builder.kind(row);
        self.tops[place] = Top { row, kind };
        Ok(())
    }

    /// The first of the trees from `mark` on becomes a target.
    #[tactic(auto, using(crate::proofs::ChangeLaws::bound_first_is, crate::proofs::ChangeLaws::bound_none))]
    pub fn bind(&mut self, mark: usize) -> Result<(), Fault>
        ensures ok { (ts : List Terminal) → OnOk result (trees self.new ≡ take mark (trees self.old) ++ bound ts (drop mark (trees self.old))) }
        ensures err { IfErr result (λ e. e ≡ Memory) }
    {
        if mark < self.len() {
            self.bind_at(mark)?;
        }
        Ok(())
    }

    /// The root of a tree gets another kind.
    pub fn retag_at(&mut self, place: usize, kind: Kind) -> Result<(), Fault>
        requires { place < length (trees self.old) }
        ensures ok { OnOk result (trees self.new ≡ slice_set (trees self.old) place (with_kind kind (slice_index_or (trees self.old) place no_tree).kids (slice_index_or (trees self.old) place no_tree))) }
        ensures err { IfErr result (λ e. e ≡ Memory) }
    {
        let row = self.builder.retag(self.tops[place].row, kind)?;
        self.tops[place] = Top { row, kind };
        Ok(())
    }
}
