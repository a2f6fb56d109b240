//! Back from order-modified document order (CSS Grid 2, 6.3).

ghost use Rattle.std.specs.Prelude.{◌≡◌, ◌<◌, ◌^◌, ℕ, ℤ, pos, All, IfOk, OnOk};
ghost use Rattle.tree_rules.specs.Orders.{sorted_by};
ghost use Rattle.placing.specs.Turns.{pairs_from, turns};

use lunit::NoMemory;
use std::alloc::Global;

/// Sorts places by their numbers.
fn sort(pairs: &mut Vec<(usize, i64)>) -> Result<(), NoMemory>
    ensures { OnOk result (pairs.new.items ≡ sorted_by (λ (e : ℕ × ℤ). e.1) pairs.old.items) }
{
    pairs.sort_by_key(|pair| pair.1)?;
    Ok(())
}

/// A number of at most 32 bits.
fn number_of(number: usize) -> i64
    requires { number < 2 ^ 32 }
    ensures { result ≡ pos number }
{
    number as i64
}

/// Numbers with their places.
fn numbered(alloc: Global, numbers: &[usize]) -> Result<Vec<(usize, i64)>, NoMemory>
    requires { All (λ n. n < 2 ^ 32) numbers.now }
    ensures { IfOk result (λ pairs. pairs.items ≡ pairs_from 0 numbers.now) }
{
    let mut pairs = Vec::with_capacity(alloc, numbers.len())?;
    for place in 0..numbers.len() {
        let number = number_of(numbers[place]);
        pairs.push((place, number))?;
    }
    Ok(pairs)
}

/// The places of numbers, by the numbers: where items stand in the order of these numbers, this is where the next one in document
/// order stands. `NoMemory` where memory is wanting.
pub(crate) fn turns(alloc: Global, numbers: &[usize]) -> Result<Vec<(usize, i64)>, NoMemory>
    requires { All (λ n. n < 2 ^ 32) numbers.now }
    ensures { IfOk result (λ pairs. pairs.items ≡ turns numbers.now) }
{
    let mut pairs = numbered(alloc, numbers)?;
    sort(&mut pairs)?;
    Ok(pairs)
}
