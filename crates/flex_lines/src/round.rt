//! One round over the items of a line that are not frozen.

ghost use Rattle.std.specs.Prelude.{◌≡◌, ◌<◌, ◌≤◌, ◌^◌, ◌+ℤ◌, ◌≤ℤ◌, ◌&&◌, int_le, int_lt, length, map, pos, IfOk};
ghost use Rattle.std.specs.List.{All};
ghost use Rattle.part_rules.specs.FlexLines.{freezes, tried, violation, weight_of};
ghost use Rattle.part_rules.specs.Lists.{total_of};
ghost use Rattle.part_rules.specs.Sharing.{part};
ghost use Rattle.flex_lines.specs.Ranges.{ArePlaced, IsChange, IsOuter, IsPart, IsRound, IsSize};
ghost use Rattle.flex_lines.specs.Rounds.{change_of, free_item, left, newly_held, piece, pieces, reach, settled, stopped, stops, tries};

use crate::compare::{is_at_most, is_less, units};
use crate::flexible::Flexible;
use crate::limits::limited_main;
use crate::space::weight_of;
use lunit::{Lu, NoMemory, Wide};
use part_rules::FlexItem;
use std::alloc::Global;

/// The units of a length that is at least 0.
fn number(length: Lu) -> u128
    requires { pos 0 ≤ℤ length }
    ensures value { pos result ≡ length }
    ensures range { result ≤ 2 ^ 30 }
{
    length.units() as u128
}

/// A number of units as an exact number.
fn exact(number: u128) -> Wide
    requires { number ≤ 2 ^ 126 }
    ensures { result ≡ pos number }
{
    Wide::of(number as i128)
}

/// What items of so much weight make of the space, rounded down (own rule).
fn part(space: Lu, whole: u128, weight: u128) -> Wide
    requires space { pos 0 ≤ℤ space }
    requires some { 0 < whole }
    requires within { weight ≤ whole }
    requires few { whole ≤ 2 ^ 95 }
    ensures value { result ≡ part space whole weight }
    ensures range { IsPart result }
{
    exact(number(space) * weight / whole)
}

/// What items of so much weight make of the space, rounded down; nothing where the whole weight is
/// 0 (own rule).
fn reach(space: Lu, whole: u128, weight: u128) -> Wide
    requires space { pos 0 ≤ℤ space }
    requires within { weight ≤ whole }
    requires few { whole ≤ 2 ^ 95 }
    ensures value { result ≡ reach space whole weight }
    ensures range { IsPart result }
{
    if whole == 0 {
        units(0)
    } else {
        part(space, whole, weight)
    }
}

/// The size that an item has with what it is given, or has to give up where the items shrink.
fn tried(grow: bool, item: &FlexItem, given: Wide) -> Wide
    requires { IsOuter given }
    ensures value { result ≡ tried grow (free_item item.now) given }
    ensures range { IsSize result }
{
    if grow {
        item.base.wide() + given
    } else {
        item.base.wide() - given
    }
}

/// The sizes that the items have with this space, shared by their weights of the sum `whole` (CSS Flexbox 1, 9.7, step 4; the
/// rounding is an own rule).
pub fn try_sizes(
    alloc: Global,
    grow: bool,
    space: Lu,
    whole: u128,
    flexible: &[Flexible],
) -> Result<Vec<Wide>, NoMemory>
    requires space { pos 0 ≤ℤ space }
    requires whole { whole ≡ total_of (map (weight_of grow) (pieces flexible.now)) }
    requires few { whole ≤ 2 ^ 95 }
    ensures value { IfOk result
        (λ sizes. sizes.items ≡ tries grow space whole 0 (pieces flexible.now)) }
    ensures range { IfOk result (λ sizes. All IsSize sizes.items) }
{
    let mut sizes = Vec::with_capacity(alloc, flexible.len())?;
    let mut before = 0;
    let mut lower = reach(space, whole, 0);
    for one in flexible {
        before += weight_of(grow, &one.item);
        let upper = reach(space, whole, before);
        sizes.push(tried(grow, &one.item, upper - lower))?;
        lower = upper;
    }
    Ok(sizes)
}

/// What its limits change of the size of an item.
fn violation(one: &Flexible, size: Wide) -> Wide
    requires { IsSize size }
    ensures value { result ≡ violation (piece one.now) size }
    ensures range { IsChange result }
{
    limited_main(&one.item, size) - size
}

/// Whether the changes even out.
fn evens_out(sum: Wide) -> bool
    ensures { result ≡ (int_le (pos 0) sum && int_le sum (pos 0)) }
{
    is_at_most(units(0), sum) && is_at_most(sum, units(0))
}

/// Whether an item is raised, as most are.
fn rises(sum: Wide, change: Wide) -> bool
    ensures { result ≡ (int_lt (pos 0) sum && int_lt (pos 0) change) }
{
    is_less(units(0), sum) && is_less(units(0), change)
}

/// Whether an item is lowered, as most are.
fn falls(sum: Wide, change: Wide) -> bool
    ensures { result ≡ (int_lt sum (pos 0) && int_lt change (pos 0)) }
{
    is_less(sum, units(0)) && is_less(change, units(0))
}

/// Whether an item is frozen, where its limits make this change and those of all items changes of this sum (CSS Flexbox 1, 9.7,
/// step 4).
fn freezes(sum: Wide, change: Wide) -> bool
    ensures { result ≡ freezes sum change }
{
    evens_out(sum) || (rises(sum, change) || falls(sum, change))
}

/// Whether an item is frozen at this size.
fn stops(sum: Wide, one: &Flexible, size: Wide) -> bool
    requires { IsSize size }
    ensures { result ≡ stops sum one.now size }
{
    freezes(sum, violation(one, size))
}

/// The size that an item is frozen at.
fn stopped(one: &Flexible, size: Wide) -> Lu
    requires { IsSize size }
    ensures { result ≡ stopped one.now size }
{
    limited_main(&one.item, size).clamp()
}

/// What the limits of all items change of these sizes.
pub fn change_of(flexible: &[Flexible], sizes: &[Wide]) -> Wide
    requires few { length flexible.now < 2 ^ 32 }
    requires length { length sizes.now ≡ length flexible.now }
    requires sizes { All IsSize sizes.now }
    ensures { result ≡ change_of flexible.now sizes.now }
{
    let mut sum = units(0);
    for (place, one) in flexible.iter().enumerate() {
        sum = sum + violation(one, sizes[place]);
    }
    sum
}

/// Puts the sizes of the items that are frozen now at their places.
pub fn settle(sum: Wide, flexible: &[Flexible], sizes: &[Wide], all: &mut Vec<Lu>)
    requires length { length sizes.now ≡ length flexible.now }
    requires sizes { All IsSize sizes.now }
    requires places { ArePlaced (length all.old.items) flexible.now }
    ensures { all.new.items ≡ settled sum flexible.now sizes.now all.old.items }
{
    for (place, one) in flexible.iter().enumerate() {
        let size = sizes[place];
        if !stops(sum, one, size) {
            continue;
        }
        all[one.place] = stopped(one, size);
    }
}

/// The outer sizes of the items that are frozen now.
pub fn newly_held(sum: Wide, flexible: &[Flexible], sizes: &[Wide]) -> Wide
    requires few { length flexible.now < 2 ^ 32 }
    requires length { length sizes.now ≡ length flexible.now }
    requires sizes { All IsSize sizes.now }
    ensures value { result ≡ newly_held sum flexible.now sizes.now }
    ensures range { IsRound result }
{
    let mut held = units(0);
    for (place, one) in flexible.iter().enumerate() {
        let size = sizes[place];
        if !stops(sum, one, size) {
            continue;
        }
        held = held + (stopped(one, size).wide() + one.item.margins.wide());
    }
    held
}

/// The items that are still not frozen.
pub fn left(
    alloc: Global,
    sum: Wide,
    flexible: &[Flexible],
    sizes: &[Wide],
) -> Result<Vec<Flexible>, NoMemory>
    requires length { length sizes.now ≡ length flexible.now }
    requires sizes { All IsSize sizes.now }
    ensures { IfOk result (λ rest. rest.items ≡ left sum flexible.now sizes.now) }
{
    let mut rest = Vec::new(alloc);
    for (place, one) in flexible.iter().enumerate() {
        if stops(sum, one, sizes[place]) {
            continue;
        }
        rest.push(*one)?;
    }
    Ok(rest)
}
