//! A space that is given by the factors of flexible tracks (own rule).

ghost use Rattle.std.specs.Prelude.{◌≡◌, ◌<◌, ◌^◌, ◌≤ℤ◌, ◌-ℤ◌, length, map, pos};
ghost use Rattle.lunit.specs.Units.{top};
ghost use Rattle.part_rules.specs.Lists.{total_of, zipped};
ghost use Rattle.part_rules.specs.Sharing.{apportioned_whole};
ghost use Rattle.part_rules.specs.Tracks.{factor_of, incur};
ghost use Rattle.track_sizing.specs.Here.{AreQuiet, by_factors_of, weight_of};

use crate::kinds::{Affected, affects};
use crate::rooms::Rooms;
use crate::row::Row;
use crate::turn::hand_out_to;
use lunit::{Lu, Wide};
use part_rules::{Most, Share};

/// The factor of a flexible track, in thousandths.
pub fn factor_of(most: &Most) -> Option<u32>
    ensures { result ≡ factor_of most.now }
{
    match most {
        Most::Flex(factor) => Some(*factor),
        _ => None,
    }
}

/// The factor of an affected track, and 0 for another.
fn weight(affected: &Affected, row: &Row) -> u64
    ensures value { result ≡ weight_of affected.now row.now }
    ensures range { result < 2 ^ 32 }
{
    if !affects(affected, row) {
        return 0;
    }
    match factor_of(&row.rule().most) {
        Some(factor) => u64::from(factor),
        None => 0,
    }
}

/// The sum of the factors of the affected tracks.
fn total_weight(affected: &Affected, rows: &[Row]) -> u64
    requires { length rows.now < 2 ^ 32 }
    ensures { result ≡ total_of (map (weight_of affected.now) rows.now) }
{
    let mut total = 0;
    for row in rows {
        total += weight(affected, row);
    }
    total
}

#[tactic(auto, using(crate::proofs::Parts::parts))]
/// Gives each affected track its part of the space by the factors, whose sum is `total`.
fn incur_parts(affected: &Affected, space: Lu, total: u64, rows: &mut [Row])
    requires some { pos 0 ≤ℤ space }
    requires quiet { AreQuiet rows.old }
    requires total { total ≡ total_of (map (weight_of affected.now) rows.old) }
    requires flexible { 0 < total }
    ensures { rows.new ≡
        zipped incur rows.old (apportioned_whole space (map (weight_of affected.now) rows.old)) }
{
    let mut sum = 0;
    let mut lower = Wide::of(0);
    for row in rows.iter_mut() {
        sum += weight(affected, row);
        let upper = space.wide().times(sum).floor_div(total);
        *row = row.incur((upper - lower).clamp());
        lower = upper;
    }
}

/// Gives the whole space to the affected tracks: by their factors or, where these are all 0, in equal parts.
pub fn give_by_factors(affected: &Affected, space: Lu, rows: &mut [Row], takers: &mut [Share])
    requires few { length rows.old < 2 ^ 32 }
    requires length { length takers.old ≡ length rows.old }
    requires some { pos 0 ≤ℤ space }
    requires most { space ≤ℤ top }
    requires quiet { AreQuiet rows.old }
    ensures { rows.new ≡ by_factors_of affected.now space rows.old }
{
    let total = total_weight(affected, rows);
    if total == 0 {
        let _left = hand_out_to(&Rooms::All(*affected), space, rows, takers);
    } else {
        incur_parts(affected, space, total, rows);
    }
}
