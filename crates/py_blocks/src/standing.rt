// The lines that still stand while faults are looked for.
ghost use Rattle.std.specs.Prelude.{◌≡◌, ◌||◌, ◌∷◌, reverse, OnOk};
ghost use Rattle.py_blocks.specs.Standing as spec;
ghost use Rattle.py_blocks.specs.Standing.{left, tries, stand};

use crate::Line;
use crate::heads::is_try;
use lint_values::Memory;
use py_grammar::Head;

/// A line all of whose later lines are deeper so far, with the kind of the line before it at its level.
#[derive(Clone, Copy, Debug)]
pub struct Standing {
    pub level: u32,
    pub head: Head,
    pub elder: Option<Head>,
}

/// What a line has around it.
#[derive(Clone, Copy, Debug)]
pub struct Around {
    /// The line before it.
    pub previous: Option<Line>,
    /// The kind of the line before it at its level.
    pub elder: Option<Head>,
    /// The kind of the elder's own elder.
    pub behind: Option<Head>,
    /// The kind of the line that it stands under.
    pub under: Option<Head>,
    /// Whether it ends the block of a deeper `try`.
    pub leaves_try: bool,
}

/// Drops the lines that are deeper, and says whether one of them is a `try`.
fn leave_deeper(standing: &mut Vec<Standing>, level: u32) -> bool
    ensures tries { result ≡ tries level (reverse standing.old.items) }
    ensures left { reverse standing.new.items ≡ left level (reverse standing.old.items) }
{
    let mut leaves_try = false;
    'leave: while let Some(top) = top(standing.as_slice()) {
        if top.level <= level {
            break;
        }
        leaves_try = either(leaves_try, is_try(top.head));
        drop_top(standing);
    }
    leaves_try
}

fn either(a: bool, b: bool) -> bool
    ensures { result ≡ (a || b) }
{
    a || b
}

/// Drops the lines that a line of this level leaves, and says what it has around it.
pub fn leave(standing: &mut Vec<Standing>, previous: Option<Line>, level: u32) -> Around
    ensures around { result ≡ spec.surroundings previous level (reverse standing.old.items) }
    ensures below { reverse standing.new.items ≡ spec.below level (left level (reverse standing.old.items)) }
{
    let leaves_try = leave_deeper(standing, level);
    let (elder, behind) = take_elder(standing, level);
    let under = top_head(standing.as_slice());
    Around {
        previous,
        elder,
        behind,
        under,
        leaves_try,
    }
}

/// Drops the top where it is of this level, and gives its kind and its elder's.
fn take_elder(standing: &mut Vec<Standing>, level: u32) -> (Option<Head>, Option<Head>)
    ensures elder { result.0 ≡ spec.elder_at level (reverse standing.old.items) }
    ensures behind { result.1 ≡ spec.behind_at level (reverse standing.old.items) }
    ensures below { reverse standing.new.items ≡ spec.below level (reverse standing.old.items) }
{
    match top(standing.as_slice()) {
        Some(top) if top.level == level => {
            drop_top(standing);
            (Some(top.head), top.elder)
        }
        _ => (None, None),
    }
}

fn top_head(standing: &[Standing]) -> Option<Head>
    ensures { result ≡ spec.top_head (reverse standing.now) }
{
    match top(standing) {
        Some(top) => Some(top.head),
        None => None,
    }
}

fn top(standing: &[Standing]) -> Option<Standing>
    ensures { result ≡ spec.top (reverse standing.now) }
{
    standing.last().copied()
}

fn drop_top(standing: &mut Vec<Standing>)
    ensures { reverse standing.new.items ≡ spec.rest (reverse standing.old.items) }
{
    let _top = standing.pop();
}

/// Puts a line on top of those that it left standing.
pub fn put(standing: &mut Vec<Standing>, line: Line, elder: Option<Head>) -> Result<(), Memory>
    ensures { OnOk result (reverse standing.new.items ≡ record { level = line.level; head = line.head; elder = elder } ∷ reverse standing.old.items) }
{
    standing.push(Standing {
        level: line.level,
        head: line.head,
        elder,
    })?;
    Ok(())
}
