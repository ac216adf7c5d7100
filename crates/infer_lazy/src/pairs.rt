// Who read whom.
ghost use Rattle.std.specs.Prelude.{◌≡◌, [], OnOk};
ghost use Rattle.std.specs.BTreeSet.{insert_key};
ghost use Rattle.infer_lazy.specs.Pairs.{pair_cmp, readers};
ghost use Rattle.infer_lazy.specs.Waiting.{with_places};

use crate::waiting::Waiting;
use lint_values::Memory;
use std::alloc::Global;
use std::collections::BTreeSet;
use std::marker::Model;

/// Pairs of a variable that was read and its reader's place, each once. The readers of a variable stand together, so that
/// they are found without the other pairs. Contracts see the list of the pairs, which ascends.
#[derive(Drop)]
pub struct Pairs {
    pairs: BTreeSet<(u64, usize)>,
}

impl Model for Pairs {
    ghost use Rattle.std.specs.Prelude.{List, ℕ, ◌<◌, ◌^◌};
    ghost use Rattle.std.specs.List.{All};

    ghost Value = { List (ℕ × ℕ) };

    ghost view = { λ p. p.pairs.keys };

    ghost invariant = { λ p. All (λ q. q.1 < 2 ^ 64) p.pairs.keys };
}

impl Pairs {
    /// No pair.
    pub fn new(alloc: Global) -> Pairs
        ensures { result ≡ [] }
    {
        Pairs {
            pairs: BTreeSet::new(alloc),
        }
    }

    /// Adds a pair, unless it is there.
    pub fn add(&mut self, read: u64, reader: usize) -> Result<(), Memory>
        ensures { OnOk result (self.new ≡ insert_key pair_cmp self.old (read, reader)) }
    {
        self.pairs.insert((read, reader))?;
        Ok(())
    }

    /// Who read the variable waits.
    pub fn wake(&self, var: u64, waiting: &mut Waiting) -> Result<(), Memory>
        ensures { OnOk result (waiting.new ≡ with_places waiting.old (readers var self.now)) }
    {
        for pair in self.pairs.range((var, 0)..=(var, usize::MAX)) {
            waiting.add(pair.1)?;
        }
        Ok(())
    }
}
