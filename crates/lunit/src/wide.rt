ghost use Rattle.std.specs.Prelude.{◌≡◌, ℤ, pos, ◌+ℤ◌, ◌-ℤ◌, ◌*ℤ◌, ◌≤ℤ◌, ◌^◌, ◌≤◌, ◌<◌, unsigned_abs};
ghost use Rattle.lunit.specs.Units.{clamp, floor_div, IsWide, IsLong};

use crate::Lu;
use std::marker::Model;
use std::ops::{Add, Sub};

/// An exact sum or product of units on the way to a length: a magnitude of at most 2^126. Contracts see the number.
#[derive(Clone, Copy, Debug, PartialEq, Eq, PartialOrd, Ord)]
pub struct Wide {
    units: i128,
}

impl Model for Wide {
    ghost use Rattle.std.specs.Prelude.{ℤ};
    ghost use Rattle.lunit.specs.Units.{IsWide};

    ghost Value = { ℤ };

    ghost view = { λ a. a.units };

    ghost invariant = { λ a. IsWide a.units };

    ghost inverse = { λ z. record { units = z } };
}

impl Add<Wide> for Wide {
    type Output = Wide;

    ghost can_add = { λ a b. IsWide (a +ℤ b) };

    ghost add_gives = { λ a b r. r ≡ a +ℤ b };

    fn add(self, other: Wide) -> Wide {
        Wide {
            units: self.units + other.units,
        }
    }
}

impl Sub<Wide> for Wide {
    type Output = Wide;

    ghost can_sub = { λ a b. IsWide (a -ℤ b) };

    ghost sub_gives = { λ a b r. r ≡ a -ℤ b };

    fn sub(self, other: Wide) -> Wide {
        Wide {
            units: self.units - other.units,
        }
    }
}

impl Wide {
    /// A number of units as an exact number.
    pub fn of(units: i128) -> Wide
        requires { IsWide units }
        ensures { result ≡ units }
    {
        Wide { units }
    }

    /// The number of units, where it fits a position along an axis.
    pub fn units(self) -> i64
        requires { IsLong self }
        ensures { result ≡ self }
    {
        self.units as i64
    }

    #[tactic(auto, unfolding(crate::specs::Units::clamp))]
    /// Limited to the range of lengths.
    pub fn clamp(self) -> Lu
        ensures { result ≡ clamp self }
    {
        Lu::of(self.units.clamp(-(1 << 30), 1 << 30) as i64)
    }

    #[tactic(auto, unfolding(crate::specs::Units::floor_div))]
    /// Divided and rounded down, also below zero.
    pub fn floor_div(self, by: u64) -> Wide
        requires { 0 < by }
        ensures value { result ≡ floor_div self by }
        ensures bound { unsigned_abs result ≤ unsigned_abs self }
    {
        Wide {
            units: self.units.div_euclid(by as i128),
        }
    }

    /// The number multiplied by another, which is not below zero.
    pub fn times(self, by: u64) -> Wide
        requires { IsWide (self *ℤ pos by) }
        ensures { result ≡ self *ℤ pos by }
    {
        Wide {
            units: self.units * by as i128,
        }
    }
}
