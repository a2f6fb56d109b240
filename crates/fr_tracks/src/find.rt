//! The size of an `fr` that fills a space.

ghost use Rattle.std.specs.Prelude.{◌≡◌, ◌<◌, ◌^◌, ◌-ℤ◌, pos, ◌≤ℤ◌, map, length};
ghost use Rattle.std.specs.List.{list_any};
ghost use Rattle.std.specs.Int.{int_max};
ghost use Rattle.lunit.specs.Units.{clamp, top};
ghost use Rattle.part_rules.specs.Fractions.{falls_short, found, fraction_of, is_flexible, left_flexible, leftover, settled, weight_of};
ghost use Rattle.fr_tracks.specs.Settled.{HaveBases, IsSpace};

use crate::row::{falls_short, held, is_left, left_factor};
use lunit::{Lu, Wide};
use part_rules::{FrRow, Fraction};

#[tactic(auto, unfolding(lunit::specs::Units::clamp))]
/// A space that is shared: at least 0, and limited to the range of lengths.
fn shared(space: Wide) -> Lu
    ensures value { result ≡ clamp (int_max (pos 0) space) }
    ensures some { pos 0 ≤ℤ result }
{
    if space < Wide::of(0) {
        Wide::of(0).clamp()
    } else {
        space.clamp()
    }
}

#[tactic(auto, using(std::proofs::lemmas::Grind::common_steps))]
/// The fraction of the tracks that do not fall short of the last fraction.
fn next_fraction(last: &Fraction, rows: &[FrRow], space: Wide) -> Fraction
    requires few { length rows.now < 2 ^ 32 }
    requires space { IsSpace space }
    ensures space { result.space ≡
        leftover space (map (settled last.now.space last.now.weight) rows.now) }
    ensures least { pos 0 ≤ℤ result.space }
    ensures some { 0 < result.weight }
    ensures weight { result.weight ≡
        weight_of (map (settled last.now.space last.now.weight) rows.now) }
{
    let mut sum = Wide::of(0);
    let mut weight = 0;
    for row in rows {
        sum = sum + held(last, row).wide();
        weight += left_factor(last, row);
    }
    Fraction {
        space: shared(space - sum),
        weight: weight.max(1000),
    }
}

/// Whether some track that does not fall short of the last fraction falls short of the next.
fn some_fall_short(last: &Fraction, next: &Fraction, rows: &[FrRow]) -> bool
    ensures { result ≡
        list_any (falls_short next.now.space next.now.weight)
        (map (settled last.now.space last.now.weight) rows.now) }
{
    for row in rows {
        if is_left(last, row) && falls_short(next, row) {
            return true;
        }
    }
    false
}

/// Whether some track does not fall short of the last fraction.
fn some_left(last: &Fraction, rows: &[FrRow]) -> bool
    ensures { result ≡
        list_any is_flexible (map (settled last.now.space last.now.weight) rows.now) }
{
    for row in rows {
        if is_left(last, row) {
            return true;
        }
    }
    false
}

#[tactic(auto, using(crate::proofs::Settled::starts))]
/// The last fraction of which some track falls short.
///
/// A track that falls short of one fraction falls short of each later one, since a fraction is never greater than the one before.
/// So the last fraction alone tells which tracks take part.
fn last_short(rows: &[FrRow], space: Wide) -> Fraction
    requires few { length rows.now < 2 ^ 32 }
    requires space { IsSpace space }
    requires bases { HaveBases rows.now }
    ensures { left_flexible (length rows.now) space rows.now ≡
        map (settled result.space result.weight) rows.now }
{
    let mut last = Fraction {
        space: Lu::of(0),
        weight: 0,
    };
    for _start in 0..rows.len() {
        let next = next_fraction(&last, rows, space);
        if !some_fall_short(&last, &next, rows) {
            return last;
        }
        last = next;
    }
    last
}

#[tactic(auto, unfolding(lunit::specs::Units::clamp))]
/// The size of an `fr` for a space from which the gutters are taken off already, so that it can be below 0 (CSS Grid 2, 12.7.1).
///
/// There are fewer than 2^32 tracks, no base size is below 0, and the space is at most the greatest length.
pub fn find_fr_without_gutters(rows: &[FrRow], space: Wide) -> Fraction
    requires few { length rows.now < 2 ^ 32 }
    requires space { IsSpace space }
    requires bases { HaveBases rows.now }
    ensures value { result ≡ fraction_of space (left_flexible (length rows.now) space rows.now) }
    ensures space { pos 0 ≤ℤ result.space }
    ensures weight { 0 < result.weight }
{
    let last = last_short(rows, space);
    if some_left(&last, rows) {
        next_fraction(&last, rows, space)
    } else {
        Fraction {
            space: Lu::of(0),
            weight: 1000,
        }
    }
}

/// The size of an `fr` that fills the space with these tracks and gutters (CSS Grid 2, 12.7.1), as a quotient: the space that
/// the flexible tracks share over the sum of their factors, which counts as at least 1. A flexible track whose part would be
/// less than its base size counts as not flexible, and the fraction is then found again among the others. Where no flexible
/// track is left, it is 0 over 1000.
///
/// There are fewer than 2^32 tracks, and neither the gutters nor a base size are below 0.
pub fn find_fr(rows: &[FrRow], gutters: Lu, space: Lu) -> Fraction
    requires few { length rows.now < 2 ^ 32 }
    requires gutters { pos 0 ≤ℤ gutters }
    requires bases { HaveBases rows.now }
    ensures value { result ≡ found rows.now gutters space }
    ensures space { pos 0 ≤ℤ result.space }
    ensures weight { 0 < result.weight }
{
    find_fr_without_gutters(rows, space.wide() - gutters.wide())
}
