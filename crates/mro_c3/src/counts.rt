// Tables of how often each number was counted.
ghost use Rattle.std.specs.Prelude.{◌≡◌, ◌<◌, ◌≤◌, ◌↔◌, [], ◌∷◌, All, IsTrue, OnOk, drop, length, slice_index};
ghost use Rattle.mro_c3.specs.Table.{CountsMore, IsCounted, Recounts};

use lint_values::Memory;

/// Counts each number of a list. A count that no `usize` holds is answered as want of memory.
pub(crate) fn count_each(counts: &mut [usize], numbers: &[usize]) -> Result<(), Memory>
    requires { All (λ n. n < length counts.old) numbers.now }
    ensures { OnOk result (CountsMore numbers.now counts.old counts.new) }
{
    for number in numbers {
        count(counts, *number)?;
    }
    Ok(())
}

fn count(counts: &mut [usize], number: usize) -> Result<(), Memory>
    requires { number < length counts.old }
    ensures { OnOk result (CountsMore (number ∷ []) counts.old counts.new) }
{
    match counts[number].checked_add(1) {
        Some(more) => {
            counts[number] = more;
            Ok(())
        }
        None => Err(Memory),
    }
}

/// Whether a number was not counted.
pub(crate) fn is_uncounted(counts: &[usize], number: usize) -> bool
    requires { number < length counts.now }
    ensures { IsTrue result ↔ (slice_index counts.now number ≡ 0) }
{
    counts[number] == 0
}

/// Takes the head of a list from the counts.
pub(crate) fn uncount_head(counts: &mut [usize], list: &[usize])
    requires { IsCounted list.now counts.old }
    ensures { Recounts list.now (drop 1 list.now) counts.old counts.new }
{
    if let [head, ..] = list {
        uncount(counts, *head);
    }
}

fn uncount(counts: &mut [usize], number: usize)
    requires { 1 ≤ slice_index counts.old number }
    ensures { CountsMore (number ∷ []) counts.new counts.old }
{
    counts[number] -= 1;
}
