//! Lengths, and the greater and the lesser of two.

ghost use Rattle.std.specs.Prelude.{◌≡◌, pos};
ghost use Rattle.std.specs.Int.{int_max, int_min};
ghost use Rattle.lunit.specs.Units.{IsUnits};

use lunit::{Lu, Wide};

#[tactic(auto, unfolding(lunit::specs::Units::clamp))]
/// A length of 0.
pub(crate) fn zero() -> Lu
    ensures { result ≡ pos 0 }
{
    Lu::of(0)
}

/// The greater of two lengths.
pub(crate) fn longer(one: Lu, other: Lu) -> Lu
    ensures { result ≡ int_max one other }
{
    if one < other { other } else { one }
}

/// The lesser of two lengths.
pub(crate) fn shorter(one: Lu, other: Lu) -> Lu
    ensures { result ≡ int_min one other }
{
    if other < one { other } else { one }
}

#[tactic(auto, unfolding(lunit::specs::Units::clamp))]
/// A number that is in the range of lengths, as a length.
pub(crate) fn length(number: Wide) -> Lu
    requires { IsUnits number }
    ensures { result ≡ number }
{
    number.clamp()
}
