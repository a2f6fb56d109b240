ghost use Rattle.std.specs.Prelude.{◌≡◌, ◌≤◌, ◌*◌, ◌/◌, min, unsigned_abs};
ghost use Rattle.style_types.specs.Units.{size_of, is_negative, differ, signed, relative, length_of};

use lunit::{Copied, Lu, NoMemory};
use std::alloc::Global;

/// The unit of a declared length (CSS Values 4, section 6).
#[derive(Clone, Copy, Debug, PartialEq, Eq)]
pub enum Unit {
    /// The length is in units of 1/64 px, as it stands.
    Px,
    /// The length is so many millionths of the font size of the node (of its parent in `font-size`
    /// itself).
    Em(i64),
    /// The length is so many millionths of the font size of the root.
    Rem(i64),
}

/// The magnitude of so many millionths of a font size, in units of 1/64 px.
fn size_of(millionths: i64, font: Lu) -> u64
    ensures value { result ≡ size_of millionths font }
    ensures few { result ≤ 67108864 }
{
    let product = millionths.unsigned_abs() as u128 * font.units().unsigned_abs() as u128;
    (product / 1_000_000).min(1 << 26) as u64
}

fn is_negative(number: i64) -> bool
    ensures { result ≡ is_negative number }
{
    number < 0
}

/// Whether one holds and the other does not.
fn differ(a: bool, b: bool) -> bool
    ensures { result ≡ differ a b }
{
    a != b
}

#[tactic(auto, unfolding(lunit::specs::Units::clamp))]
/// The length of this magnitude.
fn signed(negative: bool, size: u64) -> Lu
    requires { size ≤ 67108864 }
    ensures { result ≡ signed negative size }
{
    let units = size as i64;
    if negative {
        Lu::of(-units)
    } else {
        Lu::of(units)
    }
}

#[tactic(auto, unfolding(crate::specs::Units::relative))]
/// The length of so many millionths of a font size: truncated toward zero, then limited to a
/// magnitude of 2^26 units (own rule).
fn relative(millionths: i64, font: Lu) -> Lu
    ensures { result ≡ relative millionths font }
{
    let negative = differ(is_negative(millionths), is_negative(font.units()));
    signed(negative, size_of(millionths, font))
}

impl Unit {
    /// The length, which stands as px with this unit, where the font size of the node is `em` and that of the root `rem`.
    pub(crate) fn length_of(self, em: Lu, rem: Lu, px: Lu) -> Lu
        ensures { result ≡ length_of em rem self px }
    {
        match self {
            Unit::Px => px,
            Unit::Em(millionths) => relative(millionths, em),
            Unit::Rem(millionths) => relative(millionths, rem),
        }
    }
}

impl Copied for Unit {
    fn copy(&self, _alloc: Global) -> Result<Unit, NoMemory> {
        Ok(*self)
    }
}
