//! Sharing by weights.

ghost use Rattle.std.specs.Prelude.{◌≡◌, ◌≤◌, ◌<◌, ◌-ℤ◌, length};
ghost use Rattle.lunit.specs.Units.{IsUnits};
ghost use Rattle.part_rules.specs.Lists.{sum_of, total_of};
ghost use Rattle.part_rules.specs.Sharing.{part, apportioned};
ghost use Rattle.share_out.specs.Parts.{IsPart};

use lunit::{Lu, Wide};

#[tactic(auto, using(crate::proofs::Parts::is_part))]
/// What the first rows get, whose weights sum to `sum`: that part of the space, rounded down, also below zero.
fn first_part(space: Lu, total: u64, sum: u64) -> Wide
    requires some { 0 < total }
    requires within { sum ≤ total }
    ensures value { result ≡ part space total sum }
    ensures side { IsPart space result }
{
    space.wide().times(sum).floor_div(total)
}

#[tactic(auto, unfolding(lunit::specs::Units::clamp))]
/// The length from one point to the other.
fn difference(upper: Wide, lower: Wide) -> Lu
    requires { IsUnits (upper -ℤ lower) }
    ensures { result ≡ upper -ℤ lower }
{
    (upper - lower).clamp()
}

#[tactic(auto, using(crate::proofs::Parts::part_none, crate::proofs::Parts::difference_fits))]
/// Shares the space by weights of the whole weight `total`, which is at least their sum and above 0: with P(i) the sum of the
/// first i weights, row i of `out` gets floor(space * P(i) / total) - floor(space * P(i - 1) / total) units (own rule).
/// `out` is as long as `weights`. The space may be below 0. Where `total` is the sum of the weights, the parts sum to the space.
pub fn apportion(space: Lu, total: u64, weights: &[u32], out: &mut [Lu])
    requires length { length out.old ≡ length weights.now }
    requires some { 0 < total }
    requires whole { total_of weights.now ≤ total }
    ensures parts { out.new ≡ apportioned space total weights.now }
    ensures all { total ≡ total_of weights.now → sum_of out.new ≡ space }
{
    let mut sum = 0;
    let mut lower = Wide::of(0);
    for (place, weight) in weights.iter().enumerate() {
        sum += u64::from(*weight);
        let upper = first_part(space, total, sum);
        out[place] = difference(upper, lower);
        lower = upper;
    }
}
