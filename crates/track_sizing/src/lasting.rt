//! Whether the sizes of tracks for a max-content space are also those for their own total as a definite space (CSS Grid 2, 12.3).

ghost use Rattle.std.specs.Prelude.{◌≡◌, ◌<◌, ◌^◌, ◌≤ℤ◌, length, map, true};
ghost use Rattle.part_rules.specs.Tracks.{full, total};
ghost use Rattle.track_sizing.specs.Again.{AreOrdered, IsFrom, IsUnbound, IsUpTo};

use crate::rest::full_total;
use crate::row::Row;
use lunit::{Item, Lu};
use part_rules::{Fit, Space};

/// The sizes of tracks, and whether they last.
#[derive(Drop)]
pub struct Lasting {
    /// The sizes, in the order of the tracks.
    pub sizes: Vec<Lu>,
    /// Whether the tracks surely have the same sizes for their own total as a definite space. It can be `false` where they have.
    pub lasting: bool,
}

/// Whether the total once each base size is its growth limit is not below a declared minimum.
fn is_from(min: Option<Lu>, gap: Lu, rows: &[Row]) -> bool
    requires { length rows.now < 2 ^ 32 }
    ensures { result ≡ true → IsFrom min (total gap (map full rows.now)) }
{
    match min {
        Some(min) => min.wide() <= full_total(gap, rows),
        None => true,
    }
}

/// Whether it is not above a declared maximum.
fn is_up_to(max: Option<Lu>, gap: Lu, rows: &[Row]) -> bool
    requires { length rows.now < 2 ^ 32 }
    ensures { result ≡ true → IsUpTo max (total gap (map full rows.now)) }
{
    match max {
        Some(max) => full_total(gap, rows) <= max.wide(),
        None => true,
    }
}

/// Whether the space is max-content, and declared lengths do not bind the total once each base size is its growth limit.
pub fn is_unbound<const AXIS: u8>(fit: &Fit<AXIS>, rows: &[Row]) -> bool
    requires { length rows.now < 2 ^ 32 }
    ensures { result ≡ true → IsUnbound fit.now (total fit.now.gap (map full rows.now)) }
{
    match fit.space {
        Space::MaxContent => is_from(fit.min, fit.gap, rows) && is_up_to(fit.max, fit.gap, rows),
        _ => false,
    }
}

/// Whether the min-content contribution of an item is not above its max-content contribution.
fn is_ordered(item: &Item) -> bool
    ensures { result ≡ true → item.now.low ≤ℤ item.now.high }
{
    item.low.units() <= item.high.units()
}

#[tactic(auto, using(crate::proofs::Lows::items_ordered))]
/// Whether it is so of all items.
pub fn are_ordered(items: &[Item]) -> bool
    ensures { result ≡ true → AreOrdered items.now }
{
    for item in items {
        if !is_ordered(item) {
            return false;
        }
    }
    true
}
