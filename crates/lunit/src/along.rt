ghost use Rattle.std.specs.Prelude.{◌≡◌, ℤ, ◌+ℤ◌, ◌-ℤ◌};
ghost use Rattle.lunit.specs.Units.{IsLong};

use std::marker::Model;
use std::ops::{Add, Sub};

/// The inline axis, along which columns follow each other.
pub const INLINE: u8 = 0;

/// The block axis, along which rows follow each other.
pub const BLOCK: u8 = 1;

/// A length or a position along one axis, in units; it is not limited. Those of two axes do not mix.
/// Contracts see the number.
#[derive(Clone, Copy, Debug, PartialEq, Eq, PartialOrd, Ord)]
pub struct Along<const AXIS: u8> {
    units: i64,
}

impl<const AXIS: u8> Model for Along<AXIS> {
    ghost use Rattle.std.specs.Prelude.{ℤ};

    ghost Value = { ℤ };

    ghost view = { λ a. a.units };

    ghost inverse = { λ z. record { units = z } };
}

impl<const AXIS: u8> Along<AXIS> {
    /// A number of units along the axis.
    pub fn of(units: i64) -> Self
        ensures { result ≡ units }
    {
        Along { units }
    }

    /// The number of units.
    pub fn units(self) -> i64
        ensures { result ≡ self.entry }
    {
        self.units
    }
}

impl<const AXIS: u8> Add<Along<AXIS>> for Along<AXIS> {
    type Output = Along<AXIS>;

    ghost can_add = { λ a b. IsLong (a +ℤ b) };

    ghost add_gives = { λ a b r. r ≡ a +ℤ b };

    fn add(self, other: Along<AXIS>) -> Along<AXIS> {
        Along {
            units: self.units + other.units,
        }
    }
}

impl<const AXIS: u8> Sub<Along<AXIS>> for Along<AXIS> {
    type Output = Along<AXIS>;

    ghost can_sub = { λ a b. IsLong (a -ℤ b) };

    ghost sub_gives = { λ a b r. r ≡ a -ℤ b };

    fn sub(self, other: Along<AXIS>) -> Along<AXIS> {
        Along {
            units: self.units - other.units,
        }
    }
}
