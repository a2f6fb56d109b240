//! Exact numbers of units.

ghost use Rattle.std.specs.Prelude.{◌≡◌, ◌+ℤ◌, ◌≤ℤ◌, pos};
ghost use Rattle.std.specs.Int.{int_max};
ghost use Rattle.lunit.specs.Units.{IsUnits, clamp};

use lunit::{Lu, Wide};

#[tactic(auto, using(crate::proofs::Limits::clamp_units))]
/// The length of an exact number in the range of lengths.
pub fn exact(number: Wide) -> Lu
    requires { IsUnits number }
    ensures { result ≡ number }
{
    number.clamp()
}

/// The sum of two lengths, where it is in their range.
pub fn sum_of_two(first: Lu, second: Lu) -> Lu
    requires { IsUnits (first +ℤ second) }
    ensures { result ≡ first +ℤ second }
{
    exact(first.wide() + second.wide())
}

#[tactic(auto, using(crate::proofs::Limits::some_size))]
/// The number, but at least 0, as a length.
pub fn positive_part(number: Wide) -> Lu
    ensures value { result ≡ clamp (int_max (pos 0) number) }
    ensures some { pos 0 ≤ℤ result }
{
    Wide::of(0).max(number).clamp()
}
