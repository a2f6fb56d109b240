//! One row, in whole units.

ghost use Rattle.std.specs.Prelude.{◌≡◌, ◌≤◌, ◌<◌, ◌^◌, ◌+◌, pos, ◌≤ℤ◌, nat_lt};
ghost use Rattle.part_rules.specs.Lists.{above_zero};
ghost use Rattle.part_rules.specs.Sharing.{end_of, is_above, up_to, filled_to};

use lunit::{Lu, Wide};
use part_rules::Share;

/// The units of a length, or 0 where it is below 0.
pub fn units(length: Lu) -> u64
    ensures value { result ≡ above_zero length }
    ensures range { result ≤ 2 ^ 30 }
{
    u64::try_from(length.units()).unwrap_or(0)
}

#[tactic(auto, unfolding(lunit::specs::Units::clamp))]
/// The length of so many units.
pub fn length(units: u64) -> Lu
    requires { units ≤ 2 ^ 30 }
    ensures { result ≡ pos units }
{
    Wide::of(units as i128).clamp()
}

/// The most units that a row of this room takes.
pub fn end_of(room: Option<Lu>) -> Option<u64>
    ensures { result ≡ end_of room }
{
    match room {
        Some(room) => Some(units(room)),
        None => None,
    }
}

/// Whether a row of this end takes more than the level.
pub fn is_above(level: u64, end: Option<u64>) -> bool
    ensures { result ≡ is_above level end }
{
    match end {
        Some(end) => level < end,
        None => true,
    }
}

/// What a row of this end has at the level.
pub fn up_to(level: u64, end: Option<u64>) -> u64
    ensures value { result ≡ up_to level end }
    ensures most { result ≤ level }
{
    match end {
        Some(end) if end <= level => end,
        _ => level,
    }
}

/// The row, filled to the level.
pub fn filled(row: Share, level: u64) -> Share
    requires { level ≤ 2 ^ 30 }
    ensures { result ≡ filled_to level row }
{
    Share {
        room: row.room,
        got: length(up_to(level, end_of(row.room))),
    }
}
