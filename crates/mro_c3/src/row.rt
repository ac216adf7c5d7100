// Rows of bases, and orders.
ghost use Rattle.std.specs.Prelude.{◌≡◌, ◌<◌, ◌↔◌, All, IsTrue};
ghost use Rattle.mro_c3.specs.Order.{BasesAreBelow};

use std::alloc::Global;
use std::marker::Model;

/// The numbers of a class's bases, in the order of its class statement. Contracts see them as a list.
#[derive(Debug, Drop)]
pub struct Row {
    bases: Vec<usize>,
}

impl Model for Row {
    ghost use Rattle.std.specs.Prelude.{ℕ, List};

    ghost Value = { List ℕ };

    ghost view = { λ r. r.bases.items };
}

impl Row {
    /// Takes the numbers over, with their memory.
    pub fn from_vec(bases: Vec<usize>) -> Row
        ensures { result ≡ bases.items }
    {
        Row { bases }
    }

    /// The numbers themselves, with their memory.
    pub fn into_vec(self) -> Vec<usize>
        ensures { result.items ≡ self }
    {
        let Row { bases } = self;
        bases
    }

    /// The numbers of the bases, in order.
    pub fn as_slice(&self) -> &[usize]
        ensures { result.now ≡ self.now }
    {
        self.bases.as_slice()
    }
}

/// Whether each class has a larger number than its bases, as where classes are numbered in the order of their
/// definitions.
pub fn bases_are_below(rows: &[Row]) -> bool
    ensures { IsTrue result ↔ BasesAreBelow rows.now }
{
    for (class, row) in rows.iter().enumerate() {
        if !are_below(row.as_slice(), class) {
            return false;
        }
    }
    true
}

fn are_below(bases: &[usize], class: usize) -> bool
    ensures { IsTrue result ↔ All (λ base. base < class) bases.now }
{
    bases.iter().all(|base| *base < class)
}

/// The order of a class: its own number first, then those of its ancestors. Contracts see it as a list.
#[derive(Debug, Drop)]
pub struct Order {
    classes: Vec<usize>,
}

impl Model for Order {
    ghost use Rattle.std.specs.Prelude.{ℕ, List};

    ghost Value = { List ℕ };

    ghost view = { λ o. o.classes.items };
}

impl Order {
    /// Takes the numbers over, with their memory.
    pub fn from_vec(classes: Vec<usize>) -> Order
        ensures { result ≡ classes.items }
    {
        Order { classes }
    }

    /// The numbers themselves, with their memory.
    pub fn into_vec(self) -> Vec<usize>
        ensures { result.items ≡ self }
    {
        let Order { classes } = self;
        classes
    }

    /// The numbers of the class and its ancestors, in order.
    pub fn as_slice(&self) -> &[usize]
        ensures { result.now ≡ self.now }
    {
        self.classes.as_slice()
    }
}
