ghost use Rattle.std.specs.Prelude.{◌≡◌, ℤ};
ghost use Rattle.lunit.specs.Decimals.{read_units};
ghost use Rattle.lunit.specs.Units.{clamp, percent, IsUnits};

use crate::{BadNumber, NumberForm, Wide};
use std::marker::Model;

/// A length in units of one sixty-fourth of a pixel, from -2^30 to 2^30 units. Contracts see the number.
#[derive(Clone, Copy, Debug, PartialEq, Eq, PartialOrd, Ord)]
pub struct Lu {
    units: i32,
}

impl Model for Lu {
    ghost use Rattle.std.specs.Prelude.{ℤ};
    ghost use Rattle.lunit.specs.Units.{IsUnits};

    ghost Value = { ℤ };

    ghost view = { λ a. a.units };

    ghost invariant = { λ a. IsUnits a.units };

    ghost inverse = { λ z. record { units = z } };
}

impl Lu {
    #[tactic(auto, using(crate::proofs::Lengths::length_read))]
    /// The length of a number of px without a unit: an optional sign, digits, and optionally a point with digits; the
    /// digits before or after the point may be missing, not both. Times 64 and truncated toward zero (own rule).
    /// `BadNumber` exactly where the text is no such number, or its magnitude passes 1,048,576, also by a little.
    pub fn read(text: &[u8]) -> Result<Lu, BadNumber>
        ensures { result ≡ read_units text.now }
    {
        match NumberForm::LENGTHS.read(text) {
            Some(units) => Ok(Lu::of(units)),
            None => Err(BadNumber),
        }
    }

    #[tactic(auto, unfolding(crate::specs::Units::clamp))]
    /// The length of so many units, limited to the range of lengths.
    pub fn of(units: i64) -> Lu
        ensures { result ≡ clamp units }
    {
        Lu {
            units: units.clamp(-(1 << 30), 1 << 30) as i32,
        }
    }

    /// The number of units.
    pub fn units(self) -> i64
        ensures value { result ≡ self }
        ensures range { IsUnits result }
    {
        self.units as i64
    }

    /// The number of units, for exact sums and products.
    pub fn wide(self) -> Wide
        ensures value { result ≡ self }
        ensures range { IsUnits result }
    {
        Wide::of(self.units as i128)
    }

    /// This percentage of the length, in thousandths of a percent, rounded down (own rule).
    pub fn percent_of(self, thousandths: u32) -> Lu
        ensures { result ≡ percent self thousandths }
    {
        self.wide()
            .times(thousandths as u64)
            .floor_div(100_000)
            .clamp()
    }
}

/// The length of 0. Unused places of lists are filled with it.
impl Default for Lu {
    ghost use Rattle.std.specs.Prelude.{pos};

    ghost is_default = { λ a. a ≡ pos 0 };

    fn default() -> Lu {
        Lu { units: 0 }
    }
}
