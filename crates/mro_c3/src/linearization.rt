// The linearization of a class.
ghost use Rattle.std.specs.Prelude.{◌≡◌, ◌<◌, ◌≤◌, ◌+◌, ℕ, List, [], All, IfOk, IfNone, IfSome, length, replicate};
ghost use Rattle.mro_c3.specs.Laws.{IsLinear};
ghost use Rattle.mro_c3.specs.Order.{BasesAreBelow, IsOrder, merged_lists};
ghost use Rattle.mro_c3.specs.Table.{CountsTails, MarksReached, order_at, HasBaseOrders};

use crate::merge::{count_tails, merge};
use crate::reached::reached_from;
use crate::remaining::Remaining;
use crate::row::{Order, Row};
use lint_values::Memory;
use std::alloc::Global;

/// The order of a class among classes that are given by their rows, or None where it has none. Each class that it
/// reaches is linearized once; of the others those with smaller numbers take a mark and an empty order each.
pub fn linearize(alloc: Global, rows: &[Row], k: usize) -> Result<Option<Order>, Memory>
    requires below { BasesAreBelow rows.now }
    requires known { k < length rows.now }
    ensures order { IfOk result (λ answer. IfSome answer (IsOrder rows.now k)) }
    ensures none { IfOk result (λ answer. IfNone answer ((order : List ℕ) → IsOrder rows.now k order → ⊥)) }
    ensures laws { IfOk result (λ answer. IfSome answer (IsLinear rows.now k)) }
{
    let marks = reached_from(alloc, rows, k)?;
    let mut in_tails = vec![in alloc; 0usize; k]?;
    order_from(alloc, rows, k, &marks, &mut in_tails)
}

/// The order of a class, whose ancestors are marked, from the orders of its ancestors.
fn order_from(
    alloc: Global,
    rows: &[Row],
    k: usize,
    marks: &[bool],
    in_tails: &mut [usize],
) -> Result<Option<Order>, Memory>
    requires below { BasesAreBelow rows.now }
    requires known { k < length rows.now }
    requires marked { MarksReached rows.now k marks.now }
    requires zeros { in_tails.old ≡ replicate k 0 }
    ensures order { IfOk result (λ answer. IfSome answer (IsOrder rows.now k)) }
    ensures none { IfOk result (λ answer. IfNone answer ((order : List ℕ) → IsOrder rows.now k order → ⊥)) }
{
    let mut orders = Vec::new(alloc);
    for class in 0..k {
        if marks[class] {
            match order_of(alloc, rows, class, &orders, in_tails)? {
                Some(order) => orders.push(order)?,
                None => return Ok(None),
            }
        } else {
            orders.push(Order::from_vec(Vec::new(alloc)))?;
        }
    }
    order_of(alloc, rows, k, &orders, in_tails)
}

/// The order of a class whose bases' orders are made.
fn order_of(
    alloc: Global,
    rows: &[Row],
    class: usize,
    orders: &[Order],
    in_tails: &mut [usize],
) -> Result<Option<Order>, Memory>
    requires below { BasesAreBelow rows.now }
    requires known { class < length rows.now }
    requires size { length orders.now ≡ class }
    requires made { HasBaseOrders rows.now class orders.now }
    requires room { class ≤ length in_tails.old }
    requires empty { CountsTails [] in_tails.old }
    ensures order { IfOk result (λ answer. IfSome answer (IsOrder rows.now class)) }
    ensures numbers { IfOk result (λ answer. IfSome answer (All (λ n. n < class + 1))) }
    ensures none { IfOk result (λ answer. IfNone answer ((order : List ℕ) → IsOrder rows.now class order → ⊥)) }
    ensures empty { IfOk result (λ answer. IfSome answer (λ _. CountsTails [] in_tails.new)) }
{
    let mut lists = lists_of(alloc, rows[class].as_slice(), orders)?;
    count_tails(&lists, in_tails)?;
    let mut numbers = Vec::new(alloc);
    numbers.push(class)?;
    match merge(&mut lists, in_tails, numbers)? {
        Some(order) => Ok(Some(Order::from_vec(order))),
        None => Ok(None),
    }
}

/// The orders of the bases, and the list of the bases.
fn lists_of<'a>(
    alloc: Global,
    row: &'a [usize],
    orders: &'a [Order],
) -> Result<Vec<Remaining<'a>>, Memory>
    requires { All (λ base. base < length orders.now) row.now }
    ensures { IfOk result (λ lists. lists.items ≡ merged_lists row.now (order_at orders.now)) }
{
    let mut lists = Vec::new(alloc);
    for base in row {
        lists.push(Remaining::new(orders[*base].as_slice()))?;
    }
    lists.push(Remaining::new(row))?;
    Ok(lists)
}
