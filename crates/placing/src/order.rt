//! Children in order-modified document order (CSS Grid 2, 6.3).

ghost use Rattle.std.specs.Prelude.{◌≡◌, ℕ, ℤ, map, IfOk, OnOk};
ghost use Rattle.std.specs.List.{range_with_len};
ghost use Rattle.tree_rules.specs.Orders.{in_order, numbered_from, sorted_by};
ghost use Rattle.placing.specs.Order.{numbers_in_order};

use lunit::{NoMemory, Sequence};
use std::alloc::Global;

/// Values of `order`, each after its number from 0.
fn numbered(alloc: Global, orders: &[i32]) -> Result<Vec<(usize, i32)>, NoMemory>
    ensures { IfOk result (λ pairs. pairs.items ≡ numbered_from 0 orders.now) }
{
    let mut pairs = Vec::with_capacity(alloc, orders.len())?;
    for number in 0..orders.len() {
        pairs.push((number, orders[number]))?;
    }
    Ok(pairs)
}

/// Sorts numbered values by the values; equal ones stay in their order.
fn sort(pairs: &mut Vec<(usize, i32)>) -> Result<(), NoMemory>
    ensures { OnOk result (pairs.new.items ≡ sorted_by (λ (e : ℕ × ℤ). e.1) pairs.old.items) }
{
    pairs.sort_by_key(|pair| pair.1)?;
    Ok(())
}

/// Values of `order` with their numbers, by the values and then as they come.
fn sorted(alloc: Global, orders: &[i32]) -> Result<Vec<(usize, i32)>, NoMemory>
    ensures { IfOk result (λ pairs. pairs.items ≡ in_order (λ (x : ℤ). x) orders.now) }
{
    let mut pairs = numbered(alloc, orders)?;
    sort(&mut pairs)?;
    Ok(pairs)
}

/// The numbers of the pairs.
fn numbers_of(alloc: Global, pairs: &[(usize, i32)]) -> Result<Sequence<usize>, NoMemory>
    ensures { IfOk result (λ numbers. numbers ≡ map (λ (e : ℕ × ℤ). e.0) pairs.now) }
{
    let mut numbers = Vec::with_capacity(alloc, pairs.len())?;
    for (number, _) in pairs {
        numbers.push(*number)?;
    }
    Ok(Sequence::from_vec(numbers))
}

/// The numbers from 0 on, as many as `count` says.
pub(crate) fn numbers_as_they_come(alloc: Global, count: usize) -> Result<Sequence<usize>, NoMemory>
    ensures { IfOk result (λ numbers. numbers ≡ range_with_len 0 count) }
{
    let mut numbers = Vec::with_capacity(alloc, count)?;
    for number in 0..count {
        numbers.push(number)?;
    }
    Ok(Sequence::from_vec(numbers))
}

/// The numbers of values of `order`, from 0, by the values and then as they come. `NoMemory` where memory is wanting.
pub(crate) fn numbers_in_order(alloc: Global, orders: &[i32]) -> Result<Sequence<usize>, NoMemory>
    ensures { IfOk result (λ numbers. numbers ≡ numbers_in_order orders.now) }
{
    let pairs = sorted(alloc, orders)?;
    numbers_of(alloc, &pairs)
}
