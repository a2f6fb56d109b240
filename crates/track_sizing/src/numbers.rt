//! Exact numbers of units.

ghost use Rattle.std.specs.Prelude.{◌≡◌, ◌≤◌, ◌^◌, ◌+ℤ◌, ◌-ℤ◌, ◌≤ℤ◌, ◌&&◌, pos, true};
ghost use Rattle.std.specs.Int.{int_max, int_min};
ghost use Rattle.lunit.specs.Units.{IsUnits, clamp};
ghost use Rattle.part_rules.specs.Lists.{above_zero, at_most};

use lunit::{Lu, Wide};

/// The greater of two numbers.
pub fn greater(one: Wide, other: Wide) -> Wide
    ensures { result ≡ int_max one other }
{
    if one < other { other } else { one }
}

/// The greater of two lengths.
pub fn longer(one: Lu, other: Lu) -> Lu
    ensures { result ≡ int_max one other }
{
    if one < other { other } else { one }
}

/// The lesser of two lengths.
pub fn shorter(one: Lu, other: Lu) -> Lu
    ensures { result ≡ int_min one other }
{
    if other < one { other } else { one }
}

/// The number, but at most a limit, where there is one.
pub fn at_most(limit: Option<Wide>, number: Wide) -> Wide
    ensures { result ≡ at_most limit number }
{
    match limit {
        Some(limit) => { if number < limit { number } else { limit } }
        None => number,
    }
}

/// The length, but at most a limit, where there is one.
pub fn at_most_limit(limit: Option<Lu>, length: Lu) -> Lu
    ensures { result ≡ at_most limit length }
{
    match limit {
        Some(limit) => shorter(limit, length),
        None => length,
    }
}

#[tactic(auto, unfolding(lunit::specs::Units::clamp))]
/// A space that is shared: at least 0, and limited to the range of lengths.
pub fn shared(space: Wide) -> Lu
    ensures value { result ≡ clamp (int_max (pos 0) space) }
{
    greater(Wide::of(0), space).clamp()
}

#[tactic(auto, unfolding(lunit::specs::Units::clamp))]
/// A number that is in the range of lengths, as a length.
pub fn length(number: Wide) -> Lu
    requires { IsUnits number }
    ensures { result ≡ number }
{
    number.clamp()
}

/// Whether a space is 0.
pub fn is_nothing(space: Lu) -> bool
    requires { pos 0 ≤ℤ space }
    ensures { result ≡ true → space ≡ pos 0 }
{
    space.units() <= 0
}

#[tactic(auto, using(crate::proofs::Order::that_number))]
/// Whether a length with so much more is as it was.
pub fn stays_with(length: Lu, more: Lu) -> bool
    ensures { result ≡ true → clamp (length +ℤ more) ≡ length }
{
    (length.wide() + more.wide()).clamp() == length
}

#[tactic(auto, using(crate::proofs::Order::that_number))]
/// Whether two lengths are the same.
pub fn is_same(one: Lu, other: Lu) -> bool
    ensures { result ≡ true → one ≡ other }
{
    one == other
}

/// Whether a length is not above 0.
pub fn is_not_above(length: Lu) -> bool
    ensures { result ≡ true → length ≤ℤ pos 0 }
{
    length.units() <= 0
}

/// Whether a length is not below 0.
pub fn is_not_below(length: Lu) -> bool
    ensures { result ≡ true → pos 0 ≤ℤ length }
{
    0 <= length.units()
}

#[tactic(auto, unfolding(lunit::specs::Units::clamp))]
/// The sum of two lengths, limited to the range of lengths.
pub fn sum(one: Lu, other: Lu) -> Lu
    ensures { result ≡ clamp (one +ℤ other) }
{
    Lu::of(one.units() + other.units())
}

#[tactic(auto, unfolding(lunit::specs::Units::clamp))]
/// A length less another, limited to the range of lengths.
pub fn difference(one: Lu, other: Lu) -> Lu
    ensures { result ≡ clamp (one -ℤ other) }
{
    Lu::of(one.units() - other.units())
}

#[tactic(auto, unfolding(lunit::specs::Units::clamp))]
/// The length, but at least 0.
pub fn at_least_nothing(length: Lu) -> Lu
    ensures { result ≡ int_max (pos 0) length }
{
    longer(Lu::of(0), length)
}

/// Whether both are so.
pub fn both(one: bool, other: bool) -> bool
    ensures { result ≡ (one && other) }
{
    one && other
}

/// The units of a length, or 0 where it is below 0.
pub fn units_of(length: Lu) -> u64
    ensures value { result ≡ above_zero length }
    ensures range { result ≤ 2 ^ 30 }
{
    u64::try_from(length.units()).unwrap_or(0)
}

#[tactic(auto, unfolding(lunit::specs::Units::clamp))]
/// The length of so many units.
pub fn length_of(units: u64) -> Lu
    requires { units ≤ 2 ^ 30 }
    ensures { result ≡ pos units }
{
    Wide::of(units as i128).clamp()
}
