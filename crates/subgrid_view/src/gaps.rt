//! Exact numbers of units, and the two halves of a difference of gutters.

ghost use Rattle.std.specs.Prelude.{◌≡◌, ◌-ℤ◌};
ghost use Rattle.part_rules.specs.Views.{half_after, half_before};
ghost use Rattle.subgrid_view.specs.Ranges.{IsDifference};

use lunit::{Lu, Wide};

/// A number of units as an exact number.
pub fn units(number: i64) -> Wide
    ensures { result ≡ number }
{
    Wide::of(number as i128)
}

/// A gutter less another one.
pub fn difference(gap: Lu, outer_gap: Lu) -> Wide
    ensures value { result ≡ gap -ℤ outer_gap }
    ensures range { IsDifference result }
{
    gap.wide() - outer_gap.wide()
}

/// The half of a difference of gutters that lies before the gutter, rounded down, also below zero (own rule).
pub fn half_before(difference: Wide) -> Wide
    requires { IsDifference difference }
    ensures value { result ≡ half_before difference }
    ensures range { IsDifference result }
{
    difference.floor_div(2)
}

/// The rest of the difference, which lies after the gutter (own rule).
pub fn half_after(difference: Wide) -> Wide
    requires { IsDifference difference }
    ensures value { result ≡ half_after difference }
    ensures range { IsDifference result }
{
    difference - half_before(difference)
}
