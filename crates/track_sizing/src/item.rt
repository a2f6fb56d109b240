//! What an item asks for of the tracks that it spans (CSS Grid 2, 12.5).

ghost use Rattle.std.specs.Prelude.{◌≡◌, ◌<◌, ◌^◌, ◌<ℤ◌, ◌-ℤ◌, ◌≤ℤ◌, IfSome, length, map, pos, true};
ghost use Rattle.std.specs.Int.{int_max};
ghost use Rattle.lunit.specs.Units.{IsUnits, clamp, top};
ghost use Rattle.std.specs.List.{list_any};
ghost use Rattle.part_rules.specs.Lists.{sum_of};
ghost use Rattle.part_rules.specs.Tracks.{Track, base_of, capped_most, flexible, inner_gutters, is_auto_least, limit_of, span_length};
ghost use Rattle.track_sizing.specs.Here.{IsIdle, IsSpan, IsSum, asked_of, automatic_of, content_based_of, capped_of, fixed_of, is_content_based_of, limited_of, minimum_of, needed_of};

use crate::kinds::{fit_argument, flexible, is_auto_least};
use crate::numbers::{at_most, greater, is_not_above, is_not_below, shared};
use crate::row::{Row, fixed_most};
use lunit::{Floor, Item, Lu, Wide};
use part_rules::Most;

/// Which contribution an item asks for.
#[derive(Clone, Copy)]
pub enum Asks {
    /// The minimum contribution, or where the grid is sized for its content the limited min-content contribution.
    Minimum,
    /// The min-content contribution.
    Low,
    /// The limited max-content contribution.
    LimitedHigh,
    /// The max-content contribution.
    High,
}

/// Whether some track is flexible.
pub fn some_flexible(rows: &[Row]) -> bool
    ensures { result ≡ list_any flexible rows.now }
{
    for row in rows {
        if flexible(row) {
            return true;
        }
    }
    false
}

/// Whether some track has the min function `auto`.
fn some_auto(rows: &[Row]) -> bool
    ensures { result ≡ list_any (λ (t : Track). is_auto_least t.rule.least) rows.now }
{
    for row in rows {
        if is_auto_least(&row.rule().least) {
            return true;
        }
    }
    false
}

#[tactic(auto, using(crate::proofs::Sums::known))]
/// The sum of the max functions, where all are fixed.
fn fixed_sum(rows: &[Row]) -> Option<Wide>
    ensures value { result ≡ fixed_of rows.now }
    ensures range { IfSome result (λ sum. IsSum sum) }
{
    let mut sum = Wide::of(0);
    for row in rows {
        match fixed_most(&row.rule().most) {
            Some(size) => sum = sum + size.wide(),
            None => return None,
        }
    }
    Some(sum)
}

/// A max function that is fixed, as which the argument of `fit-content` counts.
pub fn capped_most(most: &Most) -> Option<Lu>
    ensures { result ≡ capped_most most.now }
{
    match fit_argument(most) {
        Some(argument) => Some(argument),
        None => fixed_most(most),
    }
}

#[tactic(auto, using(crate::proofs::Sums::known))]
/// The sum of the max functions, where all are fixed; the argument of `fit-content` counts.
fn capped_sum(rows: &[Row]) -> Option<Wide>
    ensures { result ≡ capped_of rows.now }
{
    let mut sum = Wide::of(0);
    for row in rows {
        match capped_most(&row.rule().most) {
            Some(size) => sum = sum + size.wide(),
            None => return None,
        }
    }
    Some(sum)
}

#[tactic(auto, using(crate::proofs::Sums::sums))]
/// The sum of the base sizes.
pub fn base_sum(rows: &[Row]) -> Wide
    ensures value { result ≡ sum_of (map base_of rows.now) }
    ensures range { IsSum result }
{
    let mut sum = Wide::of(0);
    for row in rows {
        sum = sum + row.base().wide();
    }
    sum
}

#[tactic(auto, using(crate::proofs::Sums::sums))]
/// The sum of the growth limits, where one without end counts as the base size.
pub fn limit_sum(rows: &[Row]) -> Wide
    ensures value { result ≡ sum_of (map limit_of rows.now) }
    ensures range { IsSum result }
{
    let mut sum = Wide::of(0);
    for row in rows {
        sum = sum + row.limit_or_base().wide();
    }
    sum
}

/// The number of tracks that an item spans.
pub fn span_length(item: &Item) -> u64
    requires { item.now.span.start <ℤ item.now.span.end }
    ensures value { pos result ≡ span_length item.now }
    ensures few { result < 2 ^ 32 }
{
    (i64::from(item.span.end) - i64::from(item.span.start)) as u64
}

#[tactic(auto, using(crate::proofs::Sums::times_some))]
/// The gutters between the tracks of an item.
pub fn inner_gutters(gap: Lu, item: &Item) -> Wide
    requires { item.now.span.start <ℤ item.now.span.end }
    ensures value { result ≡ inner_gutters gap item.now }
    ensures some { pos 0 ≤ℤ gap → pos 0 ≤ℤ result }
    ensures range { IsSpan result }
{
    gap.wide().times(span_length(item) - 1)
}

/// Whether the automatic minimum is content-based (CSS Grid 2, 6.6).
fn is_content_based(rows: &[Row], item: &Item) -> bool
    requires { item.now.span.start <ℤ item.now.span.end }
    ensures { result ≡ is_content_based_of rows.now item.now }
{
    some_auto(rows) && (span_length(item) == 1 || !some_flexible(rows))
}

/// The automatic minimum, where it is content-based (CSS Grid 2, 6.6).
fn content_based(gap: Lu, rows: &[Row], item: &Item, size: Lu, margins: Lu) -> Wide
    requires { item.now.span.start <ℤ item.now.span.end }
    ensures value { result ≡ content_based_of gap rows.now item.now size margins }
    ensures range { IsUnits result }
{
    let most = match fixed_sum(rows) {
        Some(sum) => Some(sum + inner_gutters(gap, item) - margins.wide()),
        None => None,
    };
    greater(Wide::of(0), at_most(most, size.wide()))
}

/// The automatic minimum (CSS Grid 2, 6.6).
fn automatic_minimum(gap: Lu, rows: &[Row], item: &Item, size: Lu, margins: Lu) -> Wide
    requires { item.now.span.start <ℤ item.now.span.end }
    ensures value { result ≡ automatic_of gap rows.now item.now size margins }
    ensures range { IsUnits result }
{
    if is_content_based(rows, item) {
        content_based(gap, rows, item, size, margins)
    } else {
        Wide::of(0)
    }
}

/// The minimum contribution (CSS Grid 2, 12.5).
fn minimum(gap: Lu, rows: &[Row], item: &Item) -> Lu
    requires { item.now.span.start <ℤ item.now.span.end }
    ensures { result ≡ minimum_of gap rows.now item.now }
{
    match item.floor {
        Floor::Known(size) => size,
        Floor::Content {
            size,
            margins,
            inner,
        } => {
            let content = automatic_minimum(gap, rows, item, size, margins);
            (margins.wide() + greater(inner.wide(), content)).clamp()
        }
    }
}

/// A contribution limited by the max functions of the tracks, and at least the minimum contribution (CSS Grid 2, 12.5).
fn limited(gap: Lu, contribution: Lu, rows: &[Row], item: &Item) -> Wide
    requires { item.now.span.start <ℤ item.now.span.end }
    ensures value { result ≡ limited_of gap contribution rows.now item.now }
    ensures range { IsUnits result }
{
    greater(
        minimum(gap, rows, item).wide(),
        at_most(capped_sum(rows), contribution.wide()),
    )
}

/// What the item asks for.
pub fn asked(definite: bool, gap: Lu, asks: &Asks, rows: &[Row], item: &Item) -> Wide
    requires { item.now.span.start <ℤ item.now.span.end }
    ensures value { result ≡ asked_of definite gap asks.now rows.now item.now }
    ensures range { IsUnits result }
{
    match asks {
        Asks::Minimum => {
            if definite {
                minimum(gap, rows, item).wide()
            } else {
                limited(gap, item.low, rows, item)
            }
        }
        Asks::Low => item.low.wide(),
        Asks::LimitedHigh => limited(gap, item.high, rows, item),
        Asks::High => item.high.wide(),
    }
}

#[tactic(auto, unfolding(lunit::specs::Units::clamp))]
/// The space that the item needs for what it asks, beyond the sum of the sizes and the gutters between them (own rule).
pub fn needed(gap: Lu, asked: Wide, sum: Wide, item: &Item) -> Lu
    requires span { item.now.span.start <ℤ item.now.span.end }
    requires asked { IsUnits asked }
    requires sum { IsSum sum }
    ensures value { result ≡ clamp (int_max (pos 0) (asked -ℤ sum -ℤ inner_gutters gap item.now)) }
    ensures some { pos 0 ≤ℤ result }
    ensures most { result ≤ℤ top }
{
    shared(asked - sum - inner_gutters(gap, item))
}

#[tactic(auto, using(crate::proofs::Still::idle_known))]
/// Whether an item surely gives nothing in each step: no contribution of it is above 0, and no gutter is below 0. Such is the item
/// that stands for a subgrid without margins, borders and paddings.
pub fn is_idle(gap: Lu, item: &Item) -> bool
    ensures { result ≡ true → IsIdle gap item.now }
{
    if !is_not_below(gap) {
        return false;
    }
    if !is_not_above(item.low) {
        return false;
    }
    if !is_not_above(item.high) {
        return false;
    }
    match item.floor {
        Floor::Known(size) => is_not_above(size),
        _ => false,
    }
}
