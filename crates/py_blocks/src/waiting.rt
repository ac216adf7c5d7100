// What the lines of a level make, while rows are taken from the last one back.
ghost use Rattle.std.specs.Prelude.{◌≡◌, ◌++◌, reverse, OnOk};
ghost use Rattle.py_blocks.specs.Statements.{nothing};
ghost use Rattle.py_blocks.specs.Stack.{first_or, others, deepened};
ghost use Rattle.py_blocks.specs.Building.{level_of, levels_of};

use lint_values::Memory;
use std::alloc::Global;

/// What the lines so far make at a level. Clauses, whose header stands before them, and statements are kept from the last one
/// back. `reach` is the line where the last clause ends, `last` the line where the last line does.
#[derive(Debug, Drop)]
pub struct Waiting {
    pub docstring: Option<u32>,
    pub clauses: Vec<u32>,
    pub reach: u32,
    pub statements: Vec<u32>,
    pub last: u32,
}

impl Waiting {
    /// No lines.
    pub fn new(alloc: Global) -> Waiting
        ensures { level_of result ≡ nothing }
    {
        Waiting {
            docstring: None,
            clauses: Vec::new(alloc),
            reach: 0,
            statements: Vec::new(alloc),
            last: 0,
        }
    }
}

/// Opens levels until there are so many.
pub fn deepen(alloc: Global, levels: &mut Vec<Waiting>, count: usize) -> Result<(), Memory>
    ensures { OnOk result (levels_of levels.new.items ≡ deepened nothing count (levels_of levels.old.items)) }
{
    'deepen: while levels.len() < count {
        levels.push(Waiting::new(alloc))?;
    }
    Ok(())
}

/// Takes the deepest level.
pub fn take_level(alloc: Global, levels: &mut Vec<Waiting>) -> Waiting
    ensures level { level_of result ≡ first_or nothing (levels_of levels.old.items) }
    ensures rest { levels_of levels.new.items ≡ others (levels_of levels.old.items) }
{
    match levels.pop() {
        Some(level) => level,
        None => Waiting::new(alloc),
    }
}

/// Adds items from the last one back.
pub fn push_reversed(out: &mut Vec<u32>, items: &[u32]) -> Result<(), Memory>
    ensures { OnOk result (out.new.items ≡ out.old.items ++ reverse items.now) }
{
    let mut left = items.len();
    while left > 0 {
        left -= 1;
        out.push(items[left])?;
    }
    Ok(())
}
