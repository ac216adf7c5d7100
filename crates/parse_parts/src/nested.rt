// Phrases within phrases.
ghost use Rattle.std.specs.Prelude.{drop};
ghost use Rattle.py_grammar.specs.ReadingLines.{phrase_at};
ghost use Rattle.py_forest.specs.Forests.{trees};
ghost use Rattle.parse_steps.specs.Runs.{Reads, GivesPhrases};

use py_forest::{Fault, Forest};
use py_grammar::Entry;
use py_line::Line;

/// A phrase within a phrase.
pub fn descend<F: Fn(&mut Forest, Entry, usize) -> Result<usize, Fault>>(
    nested: &F,
    depth: u32,
    forest: &mut Forest,
    entry: Entry,
    line: &Line,
    rest: usize,
) -> Result<usize, Fault>
    requires callable { F.IsAlwaysCallable nested.now }
    requires gives { GivesPhrases (F.post nested.now) line.now depth }
    ensures { Reads line.now (trees forest.old) (trees forest.new) result (phrase_at depth entry (drop rest line.now)) }
{
    let _depth = depth;
    let _line = line;
    nested(forest, entry, rest)
}
