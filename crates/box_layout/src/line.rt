//! The children of one line of a flex container (CSS Flexbox 1, 9.5).

ghost use Rattle.std.specs.Prelude.{◌≡◌, ◌*◌, ◌<◌, ◌≤◌, ◌++◌, ◌+ℤ◌, length, map, pos, IfOk};
ghost use Rattle.std.specs.List.{list_any};
ghost use Rattle.lunit.specs.Units.{IsUnits};
ghost use Rattle.part_rules.specs.FlexLines.{gaps, line_margins};
ghost use Rattle.part_rules.specs.Lists.{joined, sum_of};
ghost use Rattle.part_rules.specs.declared.share.Share.{Share};
ghost use Rattle.tree_rules.specs.NodeSizes.{margin};
ghost use Rattle.box_layout.specs.Ranges.{IsAlong, IsFree, IsGaps, IsLineRest, IsOuter, IsOuterSum, IsReach, IsSpot, IsStep, IsSum};
ghost use Rattle.box_layout.specs.Seats.{autos_of, has_auto, line_rest, line_seats, moved_by_rest, outer_main, seats_along};
ghost use Rattle.box_layout.specs.Shares.{nothing_for, share_of, shares_of};
ghost use Rattle.box_layout.specs.declared.sitting.Sitting.{Sitting};

use crate::aligned::{both_margins, margin};
use crate::seats::{Seat, has_auto, seat_in};
use crate::sitting::{Container, Sitting};
use box_align::content_offset;
use inline_sizes::{is_safe, mode_of};
use lunit::{Lu, NoMemory, Sequence, Wide};
use share_out::{Share, hand_out};
use std::alloc::Global;
use style_types::Align;

// ---- sums

/// The sum of some lengths. It is exact.
pub fn total(sizes: &[Lu]) -> Wide
    ensures value { result ≡ sum_of sizes.now }
    ensures range { IsSum (length sizes.now) result }
{
    let mut sum = Wide::of(0);
    for size in sizes {
        sum = sum + size.wide();
    }
    sum
}

/// The gaps between so many, of this size.
fn gaps_of(gap: Wide, count: usize) -> Wide
    requires gap { IsUnits gap }
    requires few { count ≤ 65536 }
    ensures { result ≡ gaps gap count }
{
    gap.times(count.saturating_sub(1) as u64)
}

/// The gaps between so many.
pub fn gaps(gap: Lu, count: usize) -> Wide
    requires { count ≤ 65536 }
    ensures value { result ≡ gaps gap count }
    ensures range { IsGaps result }
{
    gaps_of(gap.wide(), count)
}

#[tactic(auto, using(crate::proofs::Sums::outer_is))]
/// The size of a child along its line, with both margins.
fn outer_main(child: &Sitting) -> Wide
    ensures value { result ≡ outer_main child.now }
    ensures range { IsOuter result }
{
    child.main.wide() + both_margins(&child.along)
}

#[tactic(auto, using(crate::proofs::Steps::outer_next))]
/// The sizes of the children of a line, with their margins.
fn outer_sum(line: &[Sitting]) -> Wide
    requires { length line.now ≤ 65536 }
    ensures value { result ≡ sum_of (map outer_main line.now) }
    ensures range { IsOuterSum (length line.now) result }
{
    let mut sum = Wide::of(0);
    for child in line {
        sum = sum + outer_main(child);
    }
    sum
}

// ---- what is left

/// What a line leaves of the main size beside its children and the gaps between them.
fn line_rest(flex: &Container, line: &[Sitting]) -> Wide
    requires { length line.now ≤ 65536 }
    ensures value { result ≡
        line_rest flex.now (length line.now) (sum_of (map outer_main line.now)) }
    ensures range { IsLineRest result }
{
    flex.main.wide() - gaps(flex.gap, line.len()) - outer_sum(line)
}

#[tactic(auto, using(crate::proofs::Reaches::free_near))]
/// How far child `k` of `n` is moved by what is left.
fn content_moved(align: &Align, free: Wide, k: usize, n: usize) -> Wide
    requires free { IsFree free }
    requires subject { k < n }
    requires few { n ≤ 65536 }
    ensures { result ≡ moved_by_rest align.now free n k }
{
    let units = content_offset(
        mode_of(&align.mode),
        is_safe(align),
        free.units(),
        k as u32,
        n as u32,
    );
    Wide::of(units as i128)
}

/// How far child `k` of `n`, or line `k` of them, is moved by what is left (CSS Box Alignment 3, section 5).
pub fn moved_by_rest(align: &Align, free: Wide, k: usize, n: usize) -> Wide
    requires free { IsFree free }
    requires subject { k < n }
    requires few { n ≤ 65536 }
    ensures value { result ≡ moved_by_rest align.now free n k }
    ensures range { IsFree result }
{
    content_moved(align, free, k, n)
}

// ---- `auto` margins

/// A row that takes of a space where the margin is `auto`, and else nothing.
fn share_of(margin: &Option<Lu>) -> Share
    ensures { result ≡ share_of margin.now }
{
    let room = match margin {
        Some(_) => Some(Lu::default()),
        None => None,
    };
    Share {
        room,
        got: Lu::default(),
    }
}

#[tactic(auto, using(crate::proofs::Rows::shares_next))]
/// Two rows for each child of a line, for its two margins.
fn shares_of(alloc: Global, line: &[Sitting]) -> Result<Vec<Share>, NoMemory>
    ensures { IfOk result (λ rows. rows.items ≡ shares_of line.now) }
{
    let mut rows = Vec::with_capacity(alloc, line.len().saturating_mul(2))?;
    for child in line {
        rows.push(share_of(&child.along.start))?;
        rows.push(share_of(&child.along.end))?;
    }
    Ok(rows)
}

/// What rows have got.
fn parts_of(alloc: Global, rows: &[Share]) -> Result<Vec<Lu>, NoMemory>
    ensures { IfOk result (λ parts. parts.items ≡ map (λ (s : Share). s.got) rows.now) }
{
    let mut parts = Vec::with_capacity(alloc, rows.len())?;
    for row in rows {
        parts.push(row.got)?;
    }
    Ok(parts)
}

/// Whether a margin of a child of a line is `auto` along it.
fn any_auto(line: &[Sitting]) -> bool
    ensures { result ≡ list_any (λ (s : Sitting). has_auto s.along) line.now }
{
    line.iter().any(|child| has_auto(&child.along))
}

#[tactic(auto, using(crate::proofs::Rows::nothing_next))]
/// Nothing for both margins of each child of a line.
fn nothing_for(alloc: Global, line: &[Sitting]) -> Result<Vec<Lu>, NoMemory>
    ensures { IfOk result (λ taken. taken.items ≡ nothing_for line.now) }
{
    let nothing = Lu::default();
    let mut taken = Vec::with_capacity(alloc, line.len().saturating_mul(2))?;
    for _child in line {
        taken.push(nothing)?;
        taken.push(nothing)?;
    }
    Ok(taken)
}

/// What the margins of the children of a line, two for each, take of what it leaves: the `auto` ones share it in equal parts
/// (CSS Flexbox 1, 9.5, step 12).
fn taken_of(alloc: Global, rest: Wide, line: &[Sitting]) -> Result<Vec<Lu>, NoMemory>
    ensures value { IfOk result
        (λ taken. taken.items ≡ line_margins rest (joined (map autos_of line.now))) }
    ensures count { IfOk result (λ taken. length taken.items ≡ 2 * length line.now) }
{
    if !any_auto(line) {
        return nothing_for(alloc, line);
    }
    let mut rows = shares_of(alloc, line)?;
    let _left = hand_out(rest.clamp(), rows.as_mut_slice());
    parts_of(alloc, &rows)
}

// ---- one after another

#[tactic(auto, using(crate::proofs::Sums::start_is))]
/// Where a child starts along the line, by what stands before it, what it is moved by, and what its margin takes.
fn start_of(place: Wide, moved: Wide, taken: Lu, child: &Sitting) -> Wide
    requires place { IsAlong place }
    requires moved { IsFree moved }
    ensures value { result ≡ place +ℤ moved +ℤ margin child.now.along.start +ℤ taken }
    ensures range { IsSpot result }
{
    place + moved + margin(&child.along.start).wide() + taken.wide()
}

#[tactic(auto, using(crate::proofs::Sums::step_is))]
/// What a child takes of the line, with the gap after it.
fn step_of(gap: Lu, before: Lu, after: Lu, child: &Sitting) -> Wide
    ensures value { result ≡ before +ℤ after +ℤ outer_main child.now +ℤ gap }
    ensures range { IsStep result }
{
    before.wide() + after.wide() + outer_main(child) + gap.wide()
}

/// Adds the seats of the children of a line of this start and size across, which leaves this much beside what `auto` margins take:
/// two numbers for each child.
fn seat_along(
    flex: &Container,
    at: Wide,
    size: Lu,
    free: Wide,
    taken: &[Lu],
    line: &[Sitting],
    mut seats: Sequence<Seat>,
) -> Result<Sequence<Seat>, NoMemory>
    requires line { IsReach at }
    requires free { IsFree free }
    requires few { length line.now ≤ 65536 }
    requires count { length taken.now ≡ 2 * length line.now }
    ensures { IfOk result
        (λ all. all ≡
        seats ++
        seats_along flex.now (record { at = at; size = size })
        (moved_by_rest flex.now.along free (length line.now)) 0 (pos 0) taken.now
        line.now) }
{
    let mut place = Wide::of(0);
    for (k, child) in line.iter().enumerate() {
        let moved = moved_by_rest(&flex.along, free, k, line.len());
        let before = taken[2 * k];
        let after = taken[2 * k + 1];
        let start = start_of(place, moved, before, child);
        seats.push(seat_in(flex, at, size, start, child))?;
        place = place + step_of(flex.gap, before, after, child);
    }
    Ok(seats)
}

/// Adds the seats of the children of a line of this start and size across: its `auto` margins share what is left of the main size,
/// and the content distribution has the rest (CSS Flexbox 1, 9.5).
pub fn seat_line(
    alloc: Global,
    flex: &Container,
    at: Wide,
    size: Lu,
    line: &[Sitting],
    seats: Sequence<Seat>,
) -> Result<Sequence<Seat>, NoMemory>
    requires line { IsReach at }
    requires few { length line.now ≤ 65536 }
    ensures { IfOk result
        (λ all. all ≡ seats ++ line_seats flex.now (record { at = at; size = size }) line.now) }
{
    let rest = line_rest(flex, line);
    let taken = taken_of(alloc, rest, line)?;
    let free = rest - total(&taken);
    seat_along(flex, at, size, free, &taken, line, seats)
}
