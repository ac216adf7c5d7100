// What the brackets of a subscription hold.
ghost use Rattle.std.specs.Prelude.{drop};
ghost use Rattle.py_grammar.specs.Reading as spec;
ghost use Rattle.py_grammar.specs.ReadingLines.{phrase_at};
ghost use Rattle.py_forest.specs.Forests.{trees};
ghost use Rattle.parse_steps.specs.Runs.{Reads, GivesPhrases};

use parse_parts::{Part, tupled};
use py_forest::{Fault, Forest};
use py_grammar::Entry;
use py_line::Line;
use tree_nodes::Kind;

/// What the brackets of a subscription hold.
#[tactic(auto, unfolding(py_grammar::specs::Reading::slices_at))]
pub fn slices<F: Fn(&mut Forest, Entry, usize) -> Result<usize, Fault>>(
    nested: &F,
    depth: u32,
    forest: &mut Forest,
    line: &Line,
    rest: usize,
) -> Result<usize, Fault>
    requires callable { F.IsAlwaysCallable nested.now }
    requires gives { GivesPhrases (F.post nested.now) line.now depth }
    ensures { Reads line.now (trees forest.old) (trees forest.new) result (spec.slices_at (phrase_at depth) (drop rest line.now)) }
{
    tupled(
        nested,
        depth,
        forest,
        Kind::Slices,
        Part::SlicesItem,
        line,
        rest,
    )
}
