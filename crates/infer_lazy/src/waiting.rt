// The variables that wait, by their places among those that were reached.
ghost use Rattle.std.specs.Prelude.{◌≡◌, ◌<◌, ◌-◌, ◌≤◌, ◌++◌, ◌∷◌, [], OnOk, IfSome, IfNone};
ghost use Rattle.std.specs.List.{All};
ghost use Rattle.infer_lazy.specs.Waiting.{with_places, places};

use lint_values::Memory;
use std::alloc::Global;
use std::collections::BTreeSet;
use std::marker::Model;

/// Places that wait, each once. Contracts see the list of them, which ascends.
#[derive(Drop)]
pub struct Waiting {
    places: BTreeSet<usize>,
}

impl Model for Waiting {
    ghost use Rattle.std.specs.Prelude.{List, ℕ};

    ghost Value = { List ℕ };

    ghost view = { λ w. w.places.keys };
}

impl Waiting {
    /// No place.
    pub fn new(alloc: Global) -> Waiting
        ensures { result ≡ [] }
    {
        Waiting {
            places: BTreeSet::new(alloc),
        }
    }

    /// A place waits; where it waited before nothing changes.
    pub fn add(&mut self, place: usize) -> Result<(), Memory>
        ensures { OnOk result (self.new ≡ with_places self.old (place ∷ [])) }
    {
        self.places.insert(place)?;
        Ok(())
    }

    /// Each place from one on, below another, waits.
    pub fn add_from(&mut self, first: usize, end: usize) -> Result<(), Memory>
        requires { first ≤ end }
        ensures { OnOk result (self.new ≡ with_places self.old (places first (end - first))) }
    {
        for place in first..end {
            self.add(place)?;
        }
        Ok(())
    }

    /// Takes out the last of the places, the greatest: what was reached last goes first.
    pub fn take(&mut self) -> Option<usize>
        ensures taken { IfSome result (λ place. self.old ≡ self.new ++ place ∷ []) }
        ensures greatest { IfSome result (λ place. All (λ q. q < place) self.new) }
        ensures none { IfNone result (self.old ≡ []) }
    {
        self.places.pop_last()
    }
}
