// A list of trees over a builder's rows.
ghost use Rattle.std.specs.Prelude.{◌≡◌, ℕ, ◌<◌, ◌≤◌, ◌+◌, ◌++◌, ◌∷◌, [], Some, None, length, map, take, drop, option_copied, OnOk, IfErr};
ghost use Rattle.std.specs.Prelude.{All};
ghost use Rattle.py_forest.specs.Tops.{IsTop};

use crate::fault::Fault;
use crate::top::{Top, rows_from};
use lint_values::Pos;
use py_line::Line;
use std::alloc::Global;
use tree_nodes::{Kind, TreeBuilder};

/// Trees in order. Rows that no tree has any more are left behind in the builder.
#[derive(Debug, Drop)]
pub struct Forest {
    pub alloc: Global,
    pub builder: TreeBuilder,
    pub tops: Vec<Top>,
    /// The rows of a node's kids, while it is made.
    below: Vec<u32>,
    ghost tops_are_made: { All (IsTop builder) tops.items },
}

impl Forest {
    ghost use Rattle.tree_nodes.specs.Trees.{none, pack};
    ghost use Rattle.py_language.specs.Languages.{whole, row};
    ghost use Rattle.py_language.specs.Readers.{before};
    ghost use Rattle.py_grammar.specs.Nodes.{spanning, called};
    ghost use Rattle.py_forest.specs.Forests.{trees};
    ghost use Rattle.py_forest.specs.declared.fault.Fault.TheVariants.{Memory};

    /// No trees yet.
    #[tactic(auto, unfolding(crate::specs::Forests::trees))]
    pub fn new(alloc: Global) -> Forest
        ensures { trees result ≡ [] }
    {
        Forest {
            alloc,
            builder: TreeBuilder::new(alloc),
            tops: Vec::new(alloc),
            below: Vec::new(alloc),
        }
    }

    /// How many trees there are.
    #[tactic(auto, unfolding(crate::specs::Forests::trees))]
    pub fn len(&self) -> usize
        ensures { result ≡ length (trees self.now) }
    {
        self.tops.len()
    }

    /// The trees from `mark` on become the kids of one node.
    pub fn node(
        &mut self,
        kind: Kind,
        pos: Pos,
        end_line: u32,
        name: Option<&str>,
        mark: usize,
    ) -> Result<(), Fault>
        ensures ok { OnOk result (trees self.new ≡ take mark (trees self.old) ++ record { node = record { kind = kind; pos = pos; end_line = end_line; name = option_copied name.entry }; kids = pack (drop mark (trees self.old)) } ∷ []) }
        ensures err { IfErr result (λ e. e ≡ Memory) }
    {
        rows_from(&mut self.below, self.tops.as_slice(), mark)?;
        let row = self
            .builder
            .push(kind, pos, end_line, name, self.below.as_slice())?;
        self.tops.truncate(mark);
        self.tops.push(Top { row, kind })?;
        Ok(())
    }

    /// Only the trees before `mark` stay.
    pub fn cut(&mut self, mark: usize)
        ensures { trees self.new ≡ take mark (trees self.old) }
    {
        self.tops.truncate(mark);
    }

    /// A node without kids behind the trees.
    pub fn leaf(
        &mut self,
        kind: Kind,
        pos: Pos,
        end_line: u32,
        name: Option<&str>,
    ) -> Result<(), Fault>
        ensures ok { OnOk result (trees self.new ≡ trees self.old ++ record { node = record { kind = kind; pos = pos; end_line = end_line; name = option_copied name.entry }; kids = none } ∷ []) }
        ensures err { IfErr result (λ e. e ≡ Memory) }
    {
        let mark = self.len();
        self.node(kind, pos, end_line, name, mark)
    }

    /// The trees from `mark` on become the kids of one node over the line from `start` up to `rest`.
    pub fn reduce(
        &mut self,
        kind: Kind,
        mark: usize,
        line: &Line,
        start: usize,
        rest: usize,
    ) -> Result<(), Fault>
        ensures ok { OnOk result (trees self.new ≡ take mark (trees self.old) ++ whole (spanning kind) (before (drop start line.now) (drop rest line.now)) (drop mark (trees self.old))) }
        ensures err { IfErr result (λ e. e ≡ Memory) }
    {
        let stretch = line.stretch(start, rest);
        self.node(kind, stretch.pos, stretch.end_line, None, mark)
    }

    /// The same with a name.
    pub fn reduce_named(
        &mut self,
        kind: Kind,
        name: &str,
        mark: usize,
        line: &Line,
        start: usize,
        rest: usize,
    ) -> Result<(), Fault>
        ensures ok { OnOk result (trees self.new ≡ take mark (trees self.old) ++ whole (called kind (λ _. name.now)) (before (drop start line.now) (drop rest line.now)) (drop mark (trees self.old))) }
        ensures err { IfErr result (λ e. e ≡ Memory) }
    {
        let stretch = line.stretch(start, rest);
        self.node(kind, stretch.pos, stretch.end_line, Some(name), mark)
    }

    #[tactic(auto, using(crate::proofs::TreeLaws::row_of_few, crate::proofs::TreeLaws::row_of_many))]
    /// The same without a name, where there are two trees or more.
    pub fn row(
        &mut self,
        kind: Kind,
        mark: usize,
        line: &Line,
        start: usize,
        rest: usize,
    ) -> Result<(), Fault>
        ensures ok { OnOk result (trees self.new ≡ take mark (trees self.old) ++ row (spanning kind) (before (drop start line.now) (drop rest line.now)) (drop mark (trees self.old))) }
        ensures err { IfErr result (λ e. e ≡ Memory) }
    {
        if self.len().saturating_sub(mark) > 1 {
            self.reduce(kind, mark, line, start, rest)?;
        }
        Ok(())
    }
}
