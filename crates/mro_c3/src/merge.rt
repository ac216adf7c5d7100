// The merge of lists.
ghost use Rattle.std.specs.Prelude.{◌≡◌, ◌<◌, ◌↔◌, ℕ, List, [], IfOk, IfNone, IfSome, IsTrue, OnOk, length, map};
ghost use Rattle.mro_c3.specs.Merge.{heads, next_of, without_head, Merges};
ghost use Rattle.mro_c3.specs.Table.{AllNumbersBelow, CountsTails, IsMergedBehind};

use crate::counts::is_uncounted;
use crate::remaining::Remaining;
use lint_values::Memory;

/// Counts what stands in the tails of the lists.
pub(crate) fn count_tails(lists: &[Remaining], in_tails: &mut [usize]) -> Result<(), Memory>
    requires below { AllNumbersBelow (length in_tails.old) lists.now }
    requires empty { CountsTails [] in_tails.old }
    ensures { OnOk result (CountsTails lists.now in_tails.new) }
{
    for list in lists {
        list.count_tail(in_tails)?;
    }
    Ok(())
}

/// Puts the merge of the lists behind the numbers that are given, or answers None where there is no merge.
pub(crate) fn merge(
    lists: &mut [Remaining],
    in_tails: &mut [usize],
    mut numbers: Vec<usize>,
) -> Result<Option<Vec<usize>>, Memory>
    requires below { AllNumbersBelow (length in_tails.old) lists.old }
    requires counted { CountsTails lists.old in_tails.old }
    ensures merged { IfOk result (λ answer. IfSome answer (λ all. IsMergedBehind lists.old numbers.items all.items)) }
    ensures none { IfOk result (λ answer. IfNone answer ((merged : List ℕ) → Merges lists.old merged → ⊥)) }
    ensures empty { IfOk result (λ answer. IfSome answer (λ _. CountsTails [] in_tails.new)) }
{
    while let Some(number) = next(lists, in_tails) {
        take_each(lists, number, in_tails);
        numbers.push(number)?;
    }
    if is_used_up(lists) {
        Ok(Some(numbers))
    } else {
        Ok(None)
    }
}

/// The first head that stands in no tail.
fn next(lists: &[Remaining], in_tails: &[usize]) -> Option<usize>
    requires below { AllNumbersBelow (length in_tails.now) lists.now }
    requires counted { CountsTails lists.now in_tails.now }
    ensures { result ≡ next_of lists.now }
{
    for list in lists {
        if let Some(number) = list.head() {
            if is_uncounted(in_tails, number) {
                return Some(number);
            }
        }
    }
    None
}

/// Takes the number from the front of each list that it heads.
fn take_each(lists: &mut [Remaining], number: usize, in_tails: &mut [usize])
    requires { CountsTails lists.old in_tails.old }
    ensures lists { lists.new ≡ map (without_head number) lists.old }
    ensures counted { CountsTails lists.new in_tails.new }
{
    for list in lists.iter_mut() {
        list.take(number, in_tails);
    }
}

fn is_used_up(lists: &[Remaining]) -> bool
    ensures { IsTrue result ↔ (heads lists.now ≡ []) }
{
    for list in lists {
        if let Some(_) = list.head() {
            return false;
        }
    }
    true
}
