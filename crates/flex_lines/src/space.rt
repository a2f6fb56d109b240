//! The space that a round gives to the items of a line that are not frozen.

ghost use Rattle.std.specs.Prelude.{◌≡◌, ◌<◌, ◌≤◌, ◌^◌, ◌*◌, ◌-ℤ◌, ◌*ℤ◌, ◌≤ℤ◌, length, map, pos};
ghost use Rattle.std.specs.Int.{int_max, int_min};
ghost use Rattle.lunit.specs.Units.{clamp, floor_div};
ghost use Rattle.part_rules.specs.FlexLines.{factor_of, free_factor, gaps, outer_now, weight_of};
ghost use Rattle.part_rules.specs.Lists.{above_zero, sum_of, total_of};
ghost use Rattle.flex_lines.specs.Ranges.{IsGaps, IsOuter, IsSum};
ghost use Rattle.flex_lines.specs.Rounds.{free_item, pieces, space_given, space_left};

use crate::compare::units;
use crate::flexible::{Flexible, factor_of};
use lunit::{Lu, Wide};
use part_rules::FlexItem;

/// What the items that are not frozen sum to.
#[derive(Clone, Copy)]
pub struct Sums {
    /// Their flex factors, in thousandths.
    pub factors: u64,
    /// Their weights.
    pub weights: u128,
    /// Their outer base sizes.
    pub outer: Wide,
}

/// The gaps between so many items.
pub fn gaps(gap: Lu, count: usize) -> Wide
    ensures value { result ≡ gaps gap count }
    ensures range { IsGaps result }
{
    gap.wide().times(count.saturating_sub(1) as u64)
}

/// What a base size has beyond borders and paddings; 0 where it has nothing.
fn inner_base(item: &FlexItem) -> u128
    ensures value { result ≡ above_zero (item.now.base -ℤ item.now.inner) }
    ensures range { result ≤ 2 ^ 31 }
{
    u128::try_from(item.base.units() - item.inner.units()).unwrap_or(0)
}

/// The weight of an item: its grow factor, or its shrink factor times its inner base size (CSS Flexbox 1, 9.7).
pub fn weight_of(grow: bool, item: &FlexItem) -> u128
    ensures value { result ≡ weight_of grow (free_item item.now) }
    ensures range { result ≤ 2 ^ 63 }
{
    let factor = factor_of(grow, item) as u128;
    if grow {
        factor
    } else {
        factor * inner_base(item)
    }
}

/// The outer base size of an item.
fn outer_base(item: &FlexItem) -> Wide
    ensures value { result ≡ outer_now (free_item item.now) }
    ensures range { IsOuter result }
{
    item.base.wide() + item.margins.wide()
}

/// The sums over items that are not frozen.
pub fn sums_of(grow: bool, flexible: &[Flexible]) -> Sums
    requires { length flexible.now < 2 ^ 32 }
    ensures factors { result.factors ≡ total_of (map (free_factor grow) (pieces flexible.now)) }
    ensures weights { result.weights ≡ total_of (map (weight_of grow) (pieces flexible.now)) }
    ensures outer { result.outer ≡ sum_of (map outer_now (pieces flexible.now)) }
    ensures few { result.weights ≤ 2 ^ 95 }
    ensures range { IsSum result.outer }
{
    let mut factors = 0;
    let mut weights = 0;
    let mut outer = units(0);
    for one in flexible {
        factors += factor_of(grow, &one.item) as u64;
        weights += weight_of(grow, &one.item);
        outer = outer + outer_base(&one.item);
    }
    Sums {
        factors,
        weights,
        outer,
    }
}

/// The number, but at least 0, as a length.
pub fn positive_part(number: Wide) -> Lu
    ensures value { result ≡ clamp (int_max (pos 0) number) }
    ensures some { pos 0 ≤ℤ result }
{
    units(0).max(number).clamp()
}

/// What a line leaves of the main size beside what its gaps and frozen items take and the outer base sizes of the others, or what
/// it lacks where the items shrink; at least 0 (own rule).
pub fn space_left(grow: bool, main: Wide, taken: Wide, outer: Wide) -> Lu
    requires main { IsSum main }
    requires taken { IsSum taken }
    requires outer { IsSum outer }
    ensures value { result ≡ space_left grow main taken outer }
    ensures some { pos 0 ≤ℤ result }
{
    let rest = main - taken - outer;
    if grow {
        positive_part(rest)
    } else {
        positive_part(units(0) - rest)
    }
}

/// The part of the initial space of so many thousandths, but at most the whole space.
fn part_given(initial: Lu, whole: Lu, factors: u64) -> Lu
    requires initial { pos 0 ≤ℤ initial }
    requires whole { pos 0 ≤ℤ whole }
    ensures value { result ≡ int_min whole (floor_div (initial *ℤ pos factors) 1000) }
    ensures some { pos 0 ≤ℤ result }
{
    let part = initial.wide().times(factors).floor_div(1000);
    whole.wide().min(part).clamp()
}

/// The space that is given, where the flex factors sum to so many thousandths: below 1000, at most that part of the initial
/// space (CSS Flexbox 1, 9.7, step 4).
pub fn space_given(initial: Lu, whole: Lu, factors: u64) -> Lu
    requires initial { pos 0 ≤ℤ initial }
    requires whole { pos 0 ≤ℤ whole }
    ensures value { result ≡ space_given initial whole factors }
    ensures some { pos 0 ≤ℤ result }
{
    if factors < 1000 {
        part_given(initial, whole, factors)
    } else {
        whole
    }
}
