// What is left of a list while it is merged, and how often each number stands in tails.
ghost use Rattle.std.specs.Prelude.{◌≡◌, ◌+◌, ◌<◌, ◌≤◌, ℕ, All, OnOk, drop, length, slice_index};
ghost use Rattle.mro_c3.specs.Merge.{head, without_head};
ghost use Rattle.mro_c3.specs.Table.{CountsMore, IsCounted, Recounts};

use crate::counts::{count_each, uncount_head};
use lint_values::Memory;
use std::marker::Model;

/// What is left of a list while it is merged. Contracts see it as a list.
#[derive(Drop)]
pub(crate) struct Remaining<'a> {
    numbers: &'a [usize],
}

impl<'a> Model for Remaining<'a> {
    ghost use Rattle.std.specs.Prelude.{ℕ, List};

    ghost Value = { List ℕ };

    ghost view = { λ r. r.numbers.now };
}

impl<'a> Remaining<'a> {
    pub(crate) fn new(numbers: &'a [usize]) -> Remaining<'a>
        ensures { result ≡ numbers.now }
    {
        Remaining { numbers }
    }

    /// The first number that is left.
    pub(crate) fn head(&self) -> Option<usize>
        ensures { result ≡ head self.now }
    {
        match self.numbers {
            [first, ..] => Some(*first),
            [] => None,
        }
    }

    /// Counts the numbers behind the head.
    pub(crate) fn count_tail(&self, in_tails: &mut [usize]) -> Result<(), Memory>
        requires { All (λ n. n < length in_tails.old) self.now }
        ensures { OnOk result (CountsMore (drop 1 self.now) in_tails.old in_tails.new) }
    {
        count_each(in_tails, tail(self.numbers))?;
        Ok(())
    }

    /// Takes the number from the front of the list, if it stands there, and what then heads the list from the counts.
    pub(crate) fn take(&mut self, number: usize, in_tails: &mut [usize])
        requires { IsCounted (drop 1 self.old) in_tails.old }
        ensures list { self.new ≡ without_head number self.old }
        ensures counts { Recounts (drop 1 self.old) (drop 1 self.new) in_tails.old in_tails.new }
    {
        if let [first, ..] = self.numbers {
            if *first == number {
                self.numbers = tail(self.numbers);
                uncount_head(in_tails, self.numbers);
            }
        }
    }
}

fn tail(numbers: &[usize]) -> &[usize]
    ensures { result.now ≡ drop 1 numbers.now }
{
    match numbers {
        [_, tail @ ..] => tail,
        [] => numbers,
    }
}
