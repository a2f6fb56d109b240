//! The rest of the space (CSS Grid 2, 12.6 and 12.8).

ghost use Rattle.std.specs.Prelude.{◌≡◌, ◌<◌, ◌^◌, ◌+◌, ◌≤◌, ◌≤ℤ◌, IfSome, filter, length, map, not, pos, true};
ghost use Rattle.lunit.specs.Units.{IsUnits};
ghost use Rattle.part_rules.specs.Lists.{zipped};
ghost use Rattle.part_rules.specs.Tracks.{Track, all_gutters, auto_room, close_limit, free_of, full, grown, maximised, maximised_within, stretch_space, stretched, stretched_over, to_limit, total};
ghost use Rattle.track_sizing.specs.Here.{AreFilled, HaveShares, HaveUnits, IsFilled, IsSum, grow_share, room_of};
ghost use Rattle.track_sizing.specs.Fits.{IsKnownSpace};
ghost use Rattle.track_sizing.specs.Placed.{AreSet};

use crate::alone::some_special;
use crate::even::{Gains, gain_evenly};
use crate::item::{base_sum, limit_sum};
use crate::numbers::{is_nothing, is_same, shared};
use crate::rooms::Rooms;
use crate::row::Row;
use crate::turn::set_rooms;
use lunit::{Lu, Wide};
use part_rules::{Fit, Share, Space};
use share_out::hand_out;

#[tactic(auto, using(crate::proofs::Grown::counts))]
/// How many tracks are not collapsed.
fn open_tracks(rows: &[Row]) -> u64
    requires { length rows.now < 2 ^ 32 }
    ensures value { result ≡ length (filter (λ (t : Track). not t.rule.collapsed) rows.now) }
    ensures few { result < 2 ^ 32 }
{
    let mut count = 0;
    for row in rows {
        if !row.rule().collapsed {
            count += 1;
        }
    }
    count
}

#[tactic(auto, using(crate::proofs::Sums::times_some))]
/// The gutters between the tracks that are not collapsed (CSS Grid 2, 7.2.3.2).
pub fn all_gutters(gap: Lu, rows: &[Row]) -> Wide
    requires { length rows.now < 2 ^ 32 }
    ensures value { result ≡ all_gutters gap rows.now }
    ensures some { pos 0 ≤ℤ gap → pos 0 ≤ℤ result }
    ensures range { IsSum result }
{
    gap.wide().times(open_tracks(rows).saturating_sub(1))
}

#[tactic(auto, unfolding(lunit::specs::Units::clamp))]
/// What a space leaves.
pub fn free_of(gap: Lu, space: Wide, rows: &[Row]) -> Lu
    requires few { length rows.now < 2 ^ 32 }
    requires space { IsUnits space }
    ensures value { result ≡ free_of gap space rows.now }
    ensures some { pos 0 ≤ℤ result }
{
    shared(space - base_sum(rows) - all_gutters(gap, rows))
}

#[tactic(auto, using(crate::proofs::Loops::zipping))]
/// Grows the base sizes by what the tracks have got.
fn grow_by_shares(rows: &mut [Row], takers: &[Share])
    requires length { length takers.now ≡ length rows.old }
    requires some { HaveShares takers.now }
    ensures { rows.new ≡ zipped grow_share rows.old takers.now }
{
    for (place, row) in rows.iter_mut().enumerate() {
        *row = row.grow_base(takers[place].got);
    }
}

#[tactic(auto, using(crate::proofs::Ungrown::units_read))]
/// Reads the base sizes once: all are in the range of lengths, so one stays as it is where it grows by nothing.
fn read_bases(rows: &[Row])
    ensures { HaveUnits rows.now }
{
    for row in rows {
        let base = row.base();
        let _units = base.units();
    }
}

#[tactic(auto, using(crate::proofs::Ungrown::grown_none))]
/// Grows the base sizes by a space in equal parts, as far as there is room. Where the space is 0, they stay as they are.
fn grow(rooms: &Rooms, space: Lu, rows: &mut [Row], takers: &mut [Share])
    requires length { length takers.old ≡ length rows.old }
    requires some { pos 0 ≤ℤ space }
    ensures { rows.new ≡ grown (room_of rooms.now) space rows.old }
{
    if is_nothing(space) {
        read_bases(rows);
        return;
    }
    set_rooms(rooms, rows, takers);
    let _left = hand_out(space, takers);
    grow_by_shares(rows, takers);
}

#[tactic(auto, using(crate::proofs::Ungrown::filled_row))]
/// Whether a base size is the growth limit.
fn is_filled(row: &Row) -> bool
    ensures { result ≡ true → IsFilled row.now }
{
    let base = row.base();
    let _units = base.units();
    match row.limit() {
        Some(limit) => is_same(limit, base),
        None => false,
    }
}

#[tactic(auto, using(crate::proofs::Ungrown::rows_filled))]
/// Whether all base sizes are so.
fn are_filled(rows: &[Row]) -> bool
    ensures { result ≡ true → AreFilled rows.now }
{
    for row in rows {
        if !is_filled(row) {
            return false;
        }
    }
    true
}

#[tactic(auto, using(crate::proofs::Ungrown::filled_grown))]
/// Grows the base sizes up to the growth limits by what a space leaves. Where they are the growth limits, they stay as they are.
fn grow_to_limits(gap: Lu, space: Wide, rows: &mut [Row], takers: &mut [Share])
    requires few { length rows.old < 2 ^ 32 }
    requires length { length takers.old ≡ length rows.old }
    requires space { IsUnits space }
    ensures { rows.new ≡ grown to_limit (free_of gap space rows.old) rows.old }
{
    if are_filled(rows) {
        return;
    }
    let free = free_of(gap, space, rows);
    grow(&Rooms::Growth, free, rows, takers);
}

#[tactic(auto, using(crate::proofs::Evenly::stretch_even))]
/// Grows the base sizes of tracks with the max function `auto` by a space in equal parts: by a quotient where all tracks are such.
fn grow_autos(space: Lu, rows: &mut [Row], takers: &mut [Share])
    requires few { length rows.old < 2 ^ 32 }
    requires length { length takers.old ≡ length rows.old }
    requires some { pos 0 ≤ℤ space }
    ensures { rows.new ≡ grown auto_room space rows.old }
{
    if is_nothing(space) || rows.len() < 2 || some_special(rows) {
        grow(&Rooms::Stretch, space, rows, takers);
        return;
    }
    gain_evenly(&Gains::Base, space, rows);
}

#[tactic(auto, using(crate::proofs::Loops::changing))]
/// Gives each track its growth limit as its base size.
fn fill_to_limits(rows: &mut [Row])
    ensures { rows.new ≡ map full rows.old }
{
    for row in rows.iter_mut() {
        *row = row.full();
    }
}

#[tactic(auto, using(crate::proofs::Loops::changing))]
/// Gives each growth limit that still has no end the base size (CSS Grid 2, 12.5, step 5).
fn close_limits(rows: &mut [Row])
    ensures { rows.new ≡ map close_limit rows.old }
{
    for row in rows.iter_mut() {
        *row = row.close_limit();
    }
}

/// Gives each growth limit that still has no end the base size, of tracks that are set.
pub fn close_set_limits(first: Wide, rows: &mut [Row])
    requires { AreSet first rows.old }
    ensures rows { rows.new ≡ map close_limit rows.old }
    ensures set { AreSet first rows.new }
{
    close_limits(rows);
}

#[tactic(auto, using(crate::proofs::Grown::full_sums))]
/// The total once each base size is its growth limit.
pub fn full_total(gap: Lu, rows: &[Row]) -> Wide
    requires { length rows.now < 2 ^ 32 }
    ensures { result ≡ total gap (map full rows.now) }
{
    limit_sum(rows) + all_gutters(gap, rows)
}

/// Maximises the tracks under a max-content space: each base size becomes its growth limit, unless the total then passes the
/// declared maximum; then what that leaves is handed out up to the limits.
fn maximise_within(most: Option<Lu>, gap: Lu, rows: &mut [Row], takers: &mut [Share])
    requires few { length rows.old < 2 ^ 32 }
    requires length { length takers.old ≡ length rows.old }
    ensures { rows.new ≡ maximised_within most gap rows.old }
{
    match most {
        Some(most) => {
            if most.wide() < full_total(gap, rows) {
                grow_to_limits(gap, most.wide(), rows, takers);
            } else {
                fill_to_limits(rows);
            }
        }
        None => fill_to_limits(rows),
    }
}

/// Maximises the tracks (CSS Grid 2, 12.6).
pub fn maximise<const AXIS: u8>(
    space: &Space<AXIS>,
    most: Option<Lu>,
    gap: Lu,
    rows: &mut [Row],
    takers: &mut [Share],
)
    requires few { length rows.old < 2 ^ 32 }
    requires length { length takers.old ≡ length rows.old }
    requires space { IsKnownSpace space.now }
    ensures { rows.new ≡ maximised space.now most gap rows.old }
{
    match space {
        Space::Definite(size) => {
            grow_to_limits(gap, Wide::of(size.units() as i128), rows, takers);
        }
        Space::MinContent => {}
        Space::MaxContent => maximise_within(most, gap, rows, takers),
    }
}

/// Stretches `auto` tracks over a space.
fn stretch_over(space: Option<Wide>, gap: Lu, rows: &mut [Row], takers: &mut [Share])
    requires few { length rows.old < 2 ^ 32 }
    requires length { length takers.old ≡ length rows.old }
    requires space { IfSome space IsUnits }
    ensures { rows.new ≡ stretched_over space gap rows.old }
{
    match space {
        Some(space) => {
            let free = free_of(gap, space, rows);
            grow_autos(free, rows, takers);
        }
        None => {}
    }
}

/// The space that `auto` tracks are stretched over: a definite space, else the declared minimum.
fn stretch_space<const AXIS: u8>(space: &Space<AXIS>, min: Option<Lu>) -> Option<Wide>
    requires { IsKnownSpace space.now }
    ensures value { result ≡ stretch_space space.now min }
    ensures range { IfSome result IsUnits }
{
    if let Space::Definite(size) = space {
        return Some(Wide::of(size.units() as i128));
    }
    match min {
        Some(min) => Some(min.wide()),
        None => None,
    }
}

/// Stretches `auto` tracks (CSS Grid 2, 12.8).
pub fn stretch<const AXIS: u8>(fit: &Fit<AXIS>, rows: &mut [Row], takers: &mut [Share])
    requires few { length rows.old < 2 ^ 32 }
    requires length { length takers.old ≡ length rows.old }
    requires space { IsKnownSpace fit.now.space }
    ensures { rows.new ≡ stretched fit.now rows.old }
{
    if fit.stretch {
        stretch_over(stretch_space(&fit.space, fit.min), fit.gap, rows, takers);
    }
}
