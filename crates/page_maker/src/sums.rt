ghost use Rattle.std.specs.Prelude.{◌≡◌, ℤ, pos, neg_ℤ, ◌+ℤ◌, ◌*ℤ◌, ◌≤ℤ◌, ◌*◌, ◌^◌};
ghost use Rattle.std.specs.List.{All};
ghost use Rattle.page_maker.specs.Sums.{weighted, rest_of, checksum, IsSmall, IsSmallBox, IsSmallRect};

use lunit::{Along, Name, Rect, Wide};

/// A length along an axis, for exact sums.
fn wide<const AXIS: u8>(length: Along<AXIS>) -> Wide
    requires { IsSmall length }
    ensures { result ≡ length.entry }
{
    Wide::of(length.units() as i128)
}

/// x + 3y, which is at most 2^58.
fn weighted_place(rect: &Rect) -> Wide
    requires { IsSmallRect rect.now }
    ensures value { result ≡ rect.now.x +ℤ rect.now.y *ℤ pos 3 }
    ensures low { neg_ℤ (pos (2 ^ 58)) ≤ℤ result }
    ensures high { result ≤ℤ pos (2 ^ 58) }
{
    wide(rect.x) + wide(rect.y).times(3)
}

/// 5 * width + 7 * height, which is at most 12 times 2^56.
fn weighted_size(rect: &Rect) -> Wide
    requires { IsSmallRect rect.now }
    ensures value { result ≡ rect.now.width *ℤ pos 5 +ℤ rect.now.height *ℤ pos 7 }
    ensures low { neg_ℤ (pos (12 * 2 ^ 56)) ≤ℤ result }
    ensures high { result ≤ℤ pos (12 * 2 ^ 56) }
{
    wide(rect.width).times(5) + wide(rect.height).times(7)
}

#[tactic(auto, unfolding(crate::specs::Sums::weighted))]
/// x + 3y + 5 * width + 7 * height.
fn weighted(rect: &Rect) -> i64
    requires { IsSmallRect rect.now }
    ensures value { result ≡ weighted rect.now }
    ensures low { neg_ℤ (pos (2 ^ 60)) ≤ℤ result }
    ensures high { result ≤ℤ pos (2 ^ 60) }
{
    (weighted_place(rect) + weighted_size(rect)).units()
}

/// The sum.
fn added(total: u64, number: i64) -> i128
    ensures { result ≡ pos total +ℤ number }
{
    total as i128 + number as i128
}

#[tactic(auto, unfolding(crate::specs::Sums::rest_of))]
/// What is left modulo 2^64, at least 0.
fn rest_of(sum: i128) -> u64
    ensures { result ≡ rest_of sum }
{
    sum.rem_euclid(1 << 64) as u64
}

/// The total with one box more.
fn total_with(total: u64, rect: &Rect) -> u64
    requires { IsSmallRect rect.now }
    ensures { result ≡ rest_of (pos total +ℤ weighted rect.now) }
{
    rest_of(added(total, weighted(rect)))
}

#[tactic(auto, using(crate::proofs::Totals::sum_laws))]
/// The sum of x + 3y + 5 * width + 7 * height over all boxes, in units, modulo 2^64 and at least 0. Takes no memory.
pub fn checksum(boxes: &[(Name, Rect)]) -> u64
    requires { All IsSmallBox boxes.now }
    ensures { result ≡ checksum boxes.now }
{
    let mut total = 0;
    for (_, rect) in boxes {
        total = total_with(total, rect);
    }
    total
}
