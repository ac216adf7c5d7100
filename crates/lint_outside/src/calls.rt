// Numbers of calls.
ghost use Rattle.std.specs.Prelude.{◌≡◌, ◌++◌, ◌∷◌, [], IsTrue, ◌↔◌, Contains, OnOk, OnErr};

use lint_values::Memory;
use std::alloc::Global;
use std::marker::Model;

/// Numbers of calls, in the order in which they were added. Contracts see them as a list.
#[derive(Debug, Drop)]
pub struct Calls {
    alloc: Global,
    numbers: Vec<u32>,
}

impl Model for Calls {
    ghost use Rattle.std.specs.Prelude.{ℕ, List};

    ghost Value = { List ℕ };

    ghost view = { λ calls. calls.numbers.items };
}

impl Calls {
    pub fn new(alloc: Global) -> Calls
        ensures { result ≡ [] }
    {
        Calls {
            alloc,
            numbers: Vec::new(alloc),
        }
    }

    pub fn add(&mut self, n: u32) -> Result<(), Memory>
        ensures ok { OnOk result (self.new ≡ self.old ++ n ∷ []) }
        ensures err { OnErr result (self.new ≡ self.old) }
    {
        self.numbers.push(n)?;
        Ok(())
    }

    // Where its memory is from.
    pub(crate) fn alloc(&self) -> Global {
        self.alloc
    }

    // Whether a number is among them.
    pub(crate) fn has(&self, number: u64) -> bool
        ensures { IsTrue result ↔ Contains self.now number }
    {
        self.numbers.iter().any(|n| u64::from(*n) == number)
    }
}
