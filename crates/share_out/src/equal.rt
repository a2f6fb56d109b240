//! Sharing in equal parts.

ghost use Rattle.std.specs.Prelude.{◌≡◌, ℤ, pos, ◌+ℤ◌, ◌≤ℤ◌, ◌⊎◌, false, map, ◌≤◌, ◌<◌, ◌^◌, ◌+◌, length, take};
ghost use Rattle.std.specs.List.{list_any};
ghost use Rattle.part_rules.specs.declared.share.Share.{Share};
ghost use Rattle.part_rules.specs.Lists.{sum_of};
ghost use Rattle.part_rules.specs.Sharing.{above, has_room, handed, shared_rows, left_over};
ghost use Rattle.share_out.specs.Levels.{filled_rows};

use crate::level::{fill, tally_at};
use crate::row::{end_of, is_above, length, units};
use lunit::Lu;
use part_rules::Share;

/// How far rows are filled: those before the place `higher` to one unit more than `level`, the others to `level`.
#[derive(Clone, Copy)]
struct Filling {
    level: u64,
    higher: usize,
    left: u64,
}

#[tactic(auto, using(part_rules::proofs::Levels::above_parts))]
/// The place before which so many rows take more than the level.
fn place_after(count: u64, level: u64, rows: &[Share]) -> usize
    requires { count ≤ above level rows.now }
    ensures within { result ≤ length rows.now }
    ensures count { above level (take result rows.now) ≡ count }
    ensures none { 0 < result → 0 < count }
{
    let mut seen = 0;
    for (place, row) in rows.iter().enumerate() {
        if seen == count {
            return place;
        }
        if is_above(level, end_of(row.room)) {
            seen += 1;
        }
    }
    rows.len()
}

#[tactic(auto, using(crate::proofs::Levels::ends_at, crate::proofs::Levels::full_at, part_rules::proofs::Levels::used_none, part_rules::proofs::Levels::level_least))]
/// How far the units fill the rows. The level rises by what each row that takes more would get of what is left; where some of
/// them become full, there is something left for a further turn.
fn find_filling(units: u64, rows: &[Share]) -> Filling
    ensures same { handed units rows.now ≡
        record { rows = filled_rows result.level result.higher rows.now; left = result.left } }
    ensures within { result.higher ≤ length rows.now }
    ensures level { result.level ≤ units }
    ensures higher { 0 < result.higher → result.level < units }
    ensures left { result.left ≤ units }
{
    let mut level = 0;
    let mut tally = tally_at(level, rows);
    while tally.above > 0 && tally.above <= units - tally.used {
        level += (units - tally.used) / tally.above;
        tally = tally_at(level, rows);
    }
    let left = units - tally.used;
    if tally.above == 0 {
        return Filling {
            level,
            higher: 0,
            left,
        };
    }
    Filling {
        level,
        higher: place_after(left, level, rows),
        left: 0,
    }
}

/// Fills the rows as far as it says.
fn fill_to(filling: Filling, rows: &mut [Share])
    requires within { filling.higher ≤ length rows.old }
    requires level { filling.level ≤ 2 ^ 30 }
    requires higher { 0 < filling.higher → filling.level < 2 ^ 30 }
    ensures { rows.new ≡ filled_rows filling.level filling.higher rows.old }
{
    let (first, rest) = rows.split_at_mut(filling.higher);
    if filling.higher > 0 {
        fill(first, filling.level + 1);
    }
    fill(rest, filling.level);
}

#[tactic(auto, using(crate::proofs::Levels::rooms_filled, crate::proofs::Levels::rooms_kept))]
/// Shares the space in equal parts, in units, and answers what is left of it. One unit at a time goes to the rows in their
/// order, round after round, but for a row whose room is used up, until no unit is left or no row has room (own rule).
///
/// It sets `got` of each row; what a row had before does not count. A room of at most 0 takes no unit. Of a space below 0
/// nothing is given, and it is answered as it is. The shares and the answer sum to the space.
///
/// The units are not counted out. Each row that has room is filled by an equal part of what is left, and where some of them
/// become full on the way, what is left then is divided again. So there is at most one division more than rows that become
/// full, with one pass over the rows for each.
pub fn hand_out(space: Lu, rows: &mut [Share]) -> Lu
    ensures rows { rows.new ≡ shared_rows space rows.old }
    ensures left { result ≡ left_over space rows.old }
    ensures rooms { map (λ (s : Share). s.room) rows.new ≡ map (λ (s : Share). s.room) rows.old }
    ensures sum { sum_of (map (λ (s : Share). s.got) rows.new) +ℤ result ≡ space }
    ensures used { pos 0 ≤ℤ space → (result ≡ pos 0) ⊎ (list_any has_room rows.new ≡ false) }
{
    if space.units() < 0 {
        fill(rows, 0);
        return space;
    }
    let filling = find_filling(units(space), rows);
    fill_to(filling, rows);
    length(filling.left)
}
