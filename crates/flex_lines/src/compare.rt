//! Exact numbers of units, and how they compare.

ghost use Rattle.std.specs.Prelude.{◌≡◌, ◌&&◌, int_le, int_lt};

use lunit::Wide;

/// A number of units as an exact number.
pub fn units(number: i64) -> Wide
    ensures { result ≡ number }
{
    Wide::of(number as i128)
}

#[tactic(auto, using(crate::proofs::Orders::le_is))]
/// Whether the first is at most the second.
pub fn is_at_most(first: Wide, second: Wide) -> bool
    ensures { result ≡ int_le first second }
{
    first <= second
}

/// Whether both are the same.
pub fn is_same(first: Wide, second: Wide) -> bool
    ensures { result ≡ (int_le first second && int_le second first) }
{
    is_at_most(first, second) && is_at_most(second, first)
}

#[tactic(auto, using(crate::proofs::Orders::lt_is))]
/// Whether the first is less than the second.
pub fn is_less(first: Wide, second: Wide) -> bool
    ensures { result ≡ int_lt first second }
{
    first < second
}
