// Phrases within phrases.
ghost use Rattle.std.specs.Prelude.{◌≡◌, ℕ, List, drop};
ghost use Rattle.py_grammar.specs.ReadingLines.{phrase_at, reader_of};
ghost use Rattle.py_forest.specs.Forests.{trees};
ghost use Rattle.parse_steps.specs.Runs.{Reads, GivesPhrases};

use parse_expr::{bit_or, factor, not, or, test};
use parse_pattern::pattern;
use py_forest::{Fault, Forest};
use py_grammar::Entry;
use py_line::Line;

/// A phrase by its entry.
#[tactic(auto, unfolding(py_grammar::specs::ReadingLines::reader_of))]
fn entry_of<F: Fn(&mut Forest, Entry, usize) -> Result<usize, Fault>>(
    nested: &F,
    depth: u32,
    forest: &mut Forest,
    entry: Entry,
    line: &Line,
    rest: usize,
) -> Result<usize, Fault>
    requires callable { F.IsAlwaysCallable nested.now }
    requires gives { GivesPhrases (F.post nested.now) line.now depth }
    ensures { Reads line.now (trees forest.old) (trees forest.new) result (reader_of (phrase_at depth) entry (drop rest line.now)) }
{
    match entry {
        Entry::Test => test(nested, depth, forest, line, rest),
        Entry::Or => or(nested, depth, forest, line, rest),
        Entry::Not => not(nested, depth, forest, line, rest),
        Entry::BitOr => bit_or(nested, depth, forest, line, rest),
        Entry::Factor => factor(nested, depth, forest, line, rest),
        Entry::Pattern => pattern(nested, depth, forest, line, rest),
    }
}

/// A phrase that leads back at most `depth` times, one within the other.
#[tactic(auto, using(crate::proofs::Deep::phrase_deep, crate::proofs::Deep::phrase_none))]
pub fn phrase(
    forest: &mut Forest,
    depth: u32,
    entry: Entry,
    line: &Line,
    rest: usize,
) -> Result<usize, Fault>
    ensures { Reads line.now (trees forest.old) (trees forest.new) result (phrase_at depth entry (drop rest line.now)) }
{
    if depth == 0 {
        return Err(Fault::NoForm);
    }
    let left = depth - 1;
    entry_of(
        &|wood: &mut Forest, entry: Entry, rest: usize| -> Result<usize, Fault>
            ensures { Reads line.entry.now (trees wood.old) (trees wood.new) result (phrase_at left entry (drop rest line.entry.now)) }
        { phrase(wood, left, entry, line, rest) },
        left,
        forest,
        entry,
        line,
        rest,
    )
}
