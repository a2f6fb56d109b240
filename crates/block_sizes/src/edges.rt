//! Where the tracks of a grid lie in its content box (CSS Box Alignment 3, section 5).

ghost use Rattle.std.specs.Prelude.{◌≡◌, ◌+◌, ◌+ℤ◌, ◌-ℤ◌, ◌-◌, ◌*◌, ◌*ℤ◌, ◌^◌, ◌≤◌, ◌<◌, ◌≤ℤ◌, length, neg_ℤ, pos, IfOk};
ghost use Rattle.part_rules.specs.Alignment.{content_moved};
ghost use Rattle.part_rules.specs.Lists.{sum_of};
ghost use Rattle.tree_rules.specs.Distribution.{edges_from, edges_in, open_tracks, total_of_tracks};
ghost use Rattle.block_sizes.specs.Moving.{IsFree, IsPlace, first_place, last_place, moved_by};
ghost use Rattle.placing.specs.Spread.{AreBetween, AreSpread, IsBetween};

use box_align::content_offset;
use inline_sizes::{is_safe, mode_of, open_tracks};
use lunit::{Lu, NoMemory, Sequence, Wide};
use part_rules::{Mode, Rule};
use std::alloc::Global;
use style_types::Align;

/// How the tracks of a container are moved in it: by a value of alignment, by the space that they leave, and by how many of them
/// are not collapsed.
#[derive(Clone, Copy)]
struct Moving {
    mode: Mode,
    safe: bool,
    free: Wide,
    count: u32,
}

/// The sum of some lengths.
fn sum_of(sizes: &[Lu]) -> Wide
    ensures value { result ≡ sum_of sizes.now }
    ensures low { neg_ℤ (pos (1073741824 * length sizes.now)) ≤ℤ result }
    ensures high { result ≤ℤ pos (1073741824 * length sizes.now) }
{
    let mut sum = Wide::of(0);
    for size in sizes {
        sum = sum + size.wide();
    }
    sum
}

#[tactic(auto, using(crate::proofs::Open::open_few))]
/// The number of tracks that are not collapsed.
fn count_open(rules: &[Rule]) -> u32
    requires { length rules.now ≤ 131072 }
    ensures value { result ≡ open_tracks rules.now }
    ensures few { result ≤ 131072 }
{
    open_tracks(rules) as u32
}

#[tactic(auto, using(crate::proofs::Open::gutters_low, crate::proofs::Open::gutters_high))]
/// The gutters between so many tracks.
fn gutters(gap: Lu, count: u32) -> Wide
    requires { count ≤ 131072 }
    ensures value { result ≡ gap *ℤ pos (count - 1) }
    ensures low { neg_ℤ (pos 140737488355328) ≤ℤ result }
    ensures high { result ≤ℤ pos 140737488355328 }
{
    gap.wide().times(u64::from(count.saturating_sub(1)))
}

/// What so many tracks that are not collapsed leave of a container of this size.
fn free_space(size: Lu, sizes: &[Lu], gap: Lu, count: u32) -> Wide
    requires few { length sizes.now ≤ 131072 }
    requires count { count ≤ 131072 }
    ensures value { result ≡ size -ℤ (sum_of sizes.now +ℤ gap *ℤ pos (count - 1)) }
    ensures range { IsFree result }
{
    size.wide() - (sum_of(sizes) + gutters(gap, count))
}

/// A number of units as an exact number.
fn units(number: i64) -> Wide
    ensures { result ≡ number }
{
    Wide::of(number as i128)
}

/// How far a value of alignment moves subject `number` of so many by the free space.
fn offset_by(mode: Mode, safe: bool, free: Wide, number: u32, count: u32) -> Wide
    requires free { IsFree free }
    requires number { number < count }
    ensures { result ≡ content_moved mode safe free number count }
{
    units(content_offset(mode, safe, free.units(), number, count))
}

/// How far the track of this number is moved, of those that are not collapsed.
fn offset(moving: &Moving, number: u32) -> Wide
    requires free { IsFree moving.now.free }
    requires number { number < moving.now.count }
    ensures value { result ≡ moved_by moving.now number }
    ensures range { IsFree result }
{
    offset_by(moving.mode, moving.safe, moving.free, number, moving.count)
}

/// Where a track of this size lies that would start at this place but for what it is moved by.
fn moved_track(moving: &Moving, number: u32, place: Wide, size: Lu) -> (i64, i64)
    requires free { IsFree moving.now.free }
    requires number { number < moving.now.count }
    requires place { IsPlace place }
    ensures value { result ≡
        (place +ℤ moved_by moving.now number, place +ℤ moved_by moving.now number +ℤ size) }
    ensures range { IsBetween first_place last_place result }
{
    let start = place + offset(moving, number);
    (start.units(), (start + size.wide()).units())
}

/// A collapsed track has no position, which is 0 here.
fn collapsed_track() -> (i64, i64)
    ensures value { result ≡ (pos 0, pos 0) }
    ensures range { IsBetween first_place last_place result }
{
    (0, 0)
}

/// Where a track begins that follows one of this size at this place.
fn next_place(place: Wide, size: Lu, gap: Lu) -> Wide
    requires { IsPlace place }
    ensures value { result ≡ place +ℤ size +ℤ gap }
    ensures low { (place -ℤ pos 2147483648) ≤ℤ result }
    ensures high { result ≤ℤ (place +ℤ pos 2147483648) }
{
    place + size.wide() + gap.wide()
}

#[tactic(auto, using(crate::proofs::Seams::between_laws))]
/// The start and the end of each track.
fn moved_tracks(
    alloc: Global,
    moving: &Moving,
    gap: Lu,
    rules: &[Rule],
    sizes: &[Lu],
) -> Result<Sequence<(i64, i64)>, NoMemory>
    requires few { length rules.now ≤ 131072 }
    requires sizes { length sizes.now ≡ length rules.now }
    requires count { moving.now.count ≡ open_tracks rules.now }
    requires free { IsFree moving.now.free }
    ensures value { IfOk result
        (λ edges. edges ≡ edges_from (moved_by moving.now) gap 0 (pos 0) rules.now sizes.now) }
    ensures counted { IfOk result (λ edges. length edges ≡ length rules.now) }
    ensures range { IfOk result (AreBetween first_place last_place) }
{
    let mut edges = Sequence::from_vec(Vec::with_capacity(alloc, rules.len())?);
    let mut number = 0;
    let mut place = Wide::of(0);
    for (at, rule) in rules.iter().enumerate() {
        if rule.collapsed {
            edges.push(collapsed_track())?;
            continue;
        }
        let size = sizes[at];
        edges.push(moved_track(moving, number, place, size))?;
        place = next_place(place, size, gap);
        number += 1;
    }
    Ok(edges)
}

#[tactic(auto, using(crate::proofs::Seams::all_moved, crate::proofs::Seams::spread_places))]
/// The start and the end of each track of an axis in a container of this size, in units of 1/64 px from the start of its content
/// box: the tracks follow each other with the gutters between those that are not collapsed, and the content distribution moves
/// them (CSS Box Alignment 3, section 5; CSS Grid 2, 7.2.3.2). A collapsed track has no position, which is 0 here. There are as
/// many sizes as rules.
///
/// `NoMemory` where memory is wanting.
pub fn edges_in(
    alloc: Global,
    align: &Align,
    size: Lu,
    rules: &[Rule],
    sizes: &[Lu],
    gap: Lu,
) -> Result<Sequence<(i64, i64)>, NoMemory>
    requires few { length rules.now ≤ 131072 }
    requires sizes { length sizes.now ≡ length rules.now }
    ensures value { IfOk result
        (λ edges. edges ≡
        edges_in align.now size (record { rules = rules.now; sizes = sizes.now; gap = gap })) }
    ensures counted { IfOk result (λ edges. length edges ≡ length rules.now) }
    ensures spread { IfOk result (AreSpread (2 ^ 50 + 2 ^ 34)) }
{
    let count = count_open(rules);
    let moving = Moving {
        mode: mode_of(&align.mode),
        safe: is_safe(align),
        free: free_space(size, sizes, gap, count),
        count,
    };
    let edges = moved_tracks(alloc, &moving, gap, rules, sizes)?;
    Ok(edges)
}
