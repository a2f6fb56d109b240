//! The rooms of tracks where a space is handed out (own rule).

ghost use Rattle.std.specs.Prelude.{◌≡◌, ◌≤ℤ◌, pos};
ghost use Rattle.part_rules.specs.Lists.{at_most};
ghost use Rattle.part_rules.specs.Tracks.{base_so_far, base_to_limit, lesser, limit_so_far, to_limit, up_to};
ghost use Rattle.track_sizing.specs.Here.{floored, limit_room_of, open_of, rises_of, room_of, share_of};

use crate::kinds::{Affected, Kind, affects, fit_argument, is_of};
use crate::numbers::{shared, shorter};
use crate::row::Row;
use lunit::{Lu, Wide};
use part_rules::{Most, Share};

/// How much each track can take in one turn.
#[derive(Clone, Copy)]
pub enum Rooms {
    /// Base sizes of affected tracks up to their growth limits, for `fit-content` at most up to its argument.
    ToLimit(Affected),
    /// Base sizes of the other tracks up to their growth limits.
    Others(Affected),
    /// Base sizes of affected tracks of this kind, for `fit-content` up to its argument.
    ToArgument(Affected, Kind),
    /// Base sizes of affected tracks of this kind that are no `fit-content` tracks, without end.
    Open(Affected, Kind),
    /// Affected tracks, without end.
    All(Affected),
    /// Growth limits of affected tracks that rise first: in the first step those without end, in the second also those that are
    /// infinitely growable, for `fit-content` up to its argument.
    Rising(Affected, bool),
    /// Growth limits of affected tracks; in the second step for `fit-content` up to its argument.
    ToEnd(Affected, bool),
    /// Base sizes up to the growth limits.
    Growth,
    /// Base sizes of tracks with the max function `auto`, without end.
    Stretch,
}

#[tactic(auto, unfolding(lunit::specs::Units::clamp))]
/// The room up to an end. One below 0 is 0, which takes as little.
fn up_to(size: Wide, end: Option<Lu>) -> Option<Lu>
    requires some { pos 0 ≤ℤ size }
    requires most { size ≤ℤ pos 4294967296 }
    ensures { result ≡ floored (up_to size end) }
{
    match end {
        Some(end) => Some(shared(end.wide() - size)),
        None => None,
    }
}

/// The lesser of two rooms.
fn lesser(one: Option<Lu>, other: Option<Lu>) -> Option<Lu>
    ensures { result ≡ lesser one other }
{
    match (one, other) {
        (Some(one), Some(other)) => Some(shorter(other, one)),
        (Some(one), None) => Some(one),
        (None, other) => other,
    }
}

/// The base size with what the item at hand has given.
fn base_so_far(row: &Row) -> Wide
    ensures value { result ≡ base_so_far row.now }
    ensures some { pos 0 ≤ℤ result }
    ensures most { result ≤ℤ pos 4294967296 }
{
    row.base().wide() + row.incurred().wide()
}

/// The growth limit with what the item at hand has given.
fn limit_so_far(row: &Row) -> Wide
    ensures value { result ≡ limit_so_far row.now }
    ensures some { pos 0 ≤ℤ result }
    ensures most { result ≤ℤ pos 4294967296 }
{
    row.limit_or_base().wide() + row.incurred().wide()
}

#[tactic(auto, using(crate::proofs::Floored::floored_lesser))]
/// The room of a base size up to the growth limit, and to the argument of `fit-content`.
fn base_to_limit(row: &Row) -> Option<Lu>
    ensures { result ≡ floored (base_to_limit row.now) }
{
    let size = base_so_far(row);
    lesser(
        up_to(size, row.limit()),
        up_to(size, fit_argument(&row.rule().most)),
    )
}

/// The room of a growth limit that rises.
fn limit_room(second: bool, row: &Row) -> Option<Lu>
    ensures { result ≡ floored (limit_room_of second row.now) }
{
    if second {
        up_to(limit_so_far(row), fit_argument(&row.rule().most))
    } else {
        None
    }
}

/// Whether a growth limit rises before the others do.
fn rises(second: bool, row: &Row) -> bool
    ensures { result ≡ rises_of second row.now }
{
    row.limit().is_none() || (second && row.endless())
}

/// Whether a track receives without end.
pub fn is_open(affected: &Affected, receives: &Kind, row: &Row) -> bool
    ensures { result ≡ open_of affected.now receives.now row.now }
{
    affects(affected, row) && is_of(receives, row) && fit_argument(&row.rule().most).is_none()
}

#[tactic(auto, unfolding(lunit::specs::Units::clamp))]
/// No room.
fn none() -> Option<Lu>
    ensures { result ≡ floored (Some (pos 0)) }
{
    Some(Lu::of(0))
}

/// The room of a track.
fn room(rooms: &Rooms, row: &Row) -> Option<Lu>
    ensures { result ≡ floored (room_of rooms.now row.now) }
{
    match rooms {
        Rooms::ToLimit(affected) if affects(affected, row) => base_to_limit(row),
        Rooms::Others(affected) if !affects(affected, row) => up_to(base_so_far(row), row.limit()),
        Rooms::ToArgument(affected, receives) if affects(affected, row) && is_of(receives, row) => {
            up_to(base_so_far(row), fit_argument(&row.rule().most))
        }
        Rooms::Open(affected, receives) if is_open(affected, receives, row) => None,
        Rooms::All(affected) if affects(affected, row) => None,
        Rooms::Rising(affected, second) if affects(affected, row) && rises(*second, row) => {
            limit_room(*second, row)
        }
        Rooms::ToEnd(affected, second) if affects(affected, row) => limit_room(*second, row),
        Rooms::Growth => up_to(row.base().wide(), row.limit()),
        Rooms::Stretch => match row.rule().most {
            Most::Auto => None,
            _ => none(),
        },
        _ => none(),
    }
}

#[tactic(auto, unfolding(lunit::specs::Units::clamp))]
/// The track as a row that takes part.
pub fn share(rooms: &Rooms, row: &Row) -> Share
    ensures { result ≡ share_of rooms.now row.now }
{
    Share {
        room: room(rooms, row),
        got: Lu::of(0),
    }
}
