//! What holds of the two calls together. The law is the contract of a function that does nothing.

ghost use Rattle.std.specs.Prelude.{◌≡◌, ◌≤◌, ◌-ℤ◌, ◌+ℤ◌, ◌<ℤ◌, pos, ◌≤ℤ◌, map, length};
ghost use Rattle.part_rules.specs.declared.fraction.FrRow.{FrRow};
ghost use Rattle.part_rules.specs.Fractions.{expanded, factor_of, found, left_flexible};
ghost use Rattle.part_rules.specs.Lists.{sum_of, total_of};
ghost use Rattle.fr_tracks.specs.Settled.{HaveBases};

use lunit::Lu;
use part_rules::FrRow;

/// Base sizes and gutters that together are less than a space fill it exactly once the tracks are expanded by the fraction
/// that is found for it, where the factors of the tracks that stay flexible sum to at least 1.
pub fn fractions_fill_the_space(rows: &[FrRow], gutters: Lu, space: Lu)
    requires gutters { pos 0 ≤ℤ gutters }
    requires bases { HaveBases rows.now }
    requires room { (sum_of (map (λ (r : FrRow). r.base) rows.now) +ℤ gutters) <ℤ space }
    requires factors { 1000 ≤ total_of
        (map factor_of (left_flexible (length rows.now) (space -ℤ gutters) rows.now)) }
    ensures { (sum_of
        (map (λ (r : FrRow). r.base) (expanded (found rows.now gutters space) rows.now)) +ℤ
        gutters) ≡ space }
{
    // its range
    let _most = space.wide();
}
