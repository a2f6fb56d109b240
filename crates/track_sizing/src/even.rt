//! A group whose items span all tracks, of which none has another function than `auto` or a growth limit: what the items give goes
//! to the tracks in equal parts, so the greatest need of an item is all that counts (CSS Grid 2, 12.5, step 3).

ghost use Rattle.std.specs.Prelude.{◌≡◌, ◌≤◌, ◌<◌, ◌+◌, ◌*◌, ◌^◌, ◌++◌, ◌-ℤ◌, ◌≤ℤ◌, drop, filter, length, map, pos, take, true};
ghost use Rattle.lunit.specs.Units.{IsUnits, top};
ghost use Rattle.part_rules.specs.Lists.{above_zero};
ghost use Rattle.part_rules.specs.Tracks.{base_of, close_limit, crosses_flexible, group_fitted, limit_of, spans_fitted};
ghost use Rattle.track_sizing.specs.Even.{AreEnded, AreFresh, AreOpen, HaveSum, IsFresh, all_bases, even_asks, gained, gained_evenly, greatest_of, gutters_in, space_for, with_bases, with_limits, with_lows};
ghost use Rattle.track_sizing.specs.Here.{IsSum};
ghost use Rattle.track_sizing.specs.Ordered.{AreOf};
ghost use Rattle.track_sizing.specs.Placed.{AreIn, AreSet};

use crate::alone::{is_special, plain_asks, plain_least};
use crate::group::{is_definite, is_max_content};
use crate::item::Asks;
use crate::numbers::{is_not_below, is_nothing, length_of, longer, shared, units_of};
use crate::row::Row;
use crate::runs::has;
use lunit::{Item, Lu, Wide};
use part_rules::Space;

/// What of a track gains.
#[derive(Clone, Copy)]
pub enum Gains {
    /// The base size.
    Base,
    /// The growth limit, which has an end then.
    Limit,
}

/// How many units each track gets, and how many tracks get one unit more.
#[derive(Clone, Copy)]
struct Parts {
    each: u64,
    more: u64,
}

#[tactic(auto, using(crate::proofs::Evenly::fresh_row))]
/// Whether a track has no other function than `auto`, the base size 0, no growth limit, no planned increase and no mark.
fn is_fresh(row: &Row) -> bool
    ensures { result ≡ true → IsFresh row.now }
{
    if is_special(row) {
        return false;
    }
    if !row.is_unplanned() {
        return false;
    }
    if !is_nothing(row.base()) {
        return false;
    }
    if row.endless() {
        return false;
    }
    match row.limit() {
        Some(_) => false,
        None => true,
    }
}

#[tactic(auto, using(crate::proofs::Evenly::rows_fresh))]
/// Whether all tracks are so.
fn are_fresh(rows: &[Row]) -> bool
    ensures { result ≡ true → AreFresh rows.now }
{
    for row in rows {
        if !is_fresh(row) {
            return false;
        }
    }
    true
}

#[tactic(auto, using(crate::proofs::Evenly::items_over))]
/// Whether each item spans so many tracks.
fn are_of(number: Wide, items: &[Item]) -> bool
    ensures { result ≡ true → AreOf number items.now }
{
    for item in items {
        if !has(number, item) {
            return false;
        }
    }
    true
}

/// Whether there are items and two tracks or more, all items span all tracks, no track has another function than `auto`, a base size
/// above 0 or a growth limit, and the gap is not below 0.
pub fn is_even(gap: Lu, items: &[Item], rows: &[Row]) -> bool
    requires { length rows.now < 2 ^ 32 }
    ensures gap { result ≡ true → pos 0 ≤ℤ gap }
    ensures items { result ≡ true → 0 < length items.now }
    ensures tracks { result ≡ true → 2 ≤ length rows.now }
    ensures over { result ≡ true → AreOf (pos (length rows.now)) items.now }
    ensures fresh { result ≡ true → AreFresh rows.now }
{
    if !is_not_below(gap) {
        return false;
    }
    if items.len() == 0 {
        return false;
    }
    if rows.len() < 2 {
        return false;
    }
    if !are_of(Wide::of(rows.len() as i128), items) {
        return false;
    }
    are_fresh(rows)
}

/// What an item asks for of such tracks.
fn asked_evenly(definite: bool, asks: &Asks, item: &Item) -> Lu
    ensures { result ≡ even_asks definite asks.now item.now }
{
    match asks {
        Asks::Minimum => plain_asks(definite, item),
        Asks::Low => item.low,
        Asks::LimitedHigh => longer(plain_least(item), item.high),
        Asks::High => item.high,
    }
}

#[tactic(auto, using(crate::proofs::Evenly::space_most), unfolding(lunit::specs::Units::clamp))]
/// The space that an item needs beyond the sum of the sizes and the gutters. With the sum it is a length.
fn space_for(definite: bool, asks: &Asks, sum: Wide, gutters: Wide, item: &Item) -> Lu
    requires sum { IsUnits sum }
    requires gutters { IsSum gutters }
    requires gap { pos 0 ≤ℤ gutters }
    ensures value { result ≡ space_for definite asks.now sum gutters item.now }
    ensures some { pos 0 ≤ℤ result }
    ensures most { result ≤ℤ (top -ℤ sum) }
{
    let asked = asked_evenly(definite, asks, item).wide();
    shared(asked - sum - gutters)
}

#[tactic(auto, using(crate::proofs::Evenly::greatest))]
/// The greatest space that one of the items needs. With the sum of the sizes it is a length.
fn greatest_for(definite: bool, asks: &Asks, sum: Wide, gutters: Wide, items: &[Item]) -> Lu
    requires sum { IsUnits sum }
    requires gutters { IsSum gutters }
    requires gap { pos 0 ≤ℤ gutters }
    ensures value { result ≡
        greatest_of (space_for definite asks.now sum gutters) (pos 0) items.now }
    ensures some { pos 0 ≤ℤ result }
    ensures most { result ≤ℤ (top -ℤ sum) }
{
    let mut most = Lu::default();
    for item in items {
        most = longer(space_for(definite, asks, sum, gutters, item), most);
    }
    most
}

#[tactic(auto, using(crate::proofs::Sums::times_some))]
/// The gutters between so many tracks.
fn gutters_in(gap: Lu, rows: &[Row]) -> Wide
    requires few { length rows.now < 2 ^ 32 }
    requires gap { pos 0 ≤ℤ gap }
    ensures value { result ≡ gutters_in gap rows.now }
    ensures some { pos 0 ≤ℤ result }
    ensures range { IsSum result }
{
    gap.wide().times((rows.len() as u64).saturating_sub(1))
}

#[tactic(auto, using(crate::proofs::Evenly::parted))]
/// The equal parts of a space.
fn parts_of(space: Lu, tracks: u64) -> Parts
    requires space { pos 0 ≤ℤ space }
    requires tracks { 2 ≤ tracks }
    ensures whole { result.each * tracks + result.more ≡ above_zero space }
    ensures more { result.more < tracks }
    ensures range { result.each < 2 ^ 30 }
{
    let units = units_of(space);
    Parts {
        each: units / tracks,
        more: units % tracks,
    }
}

/// Gives a track its share, in place.
fn gain(gains: &Gains, share: Lu, row: &mut Row)
    requires { pos 0 ≤ℤ share }
    ensures { row.new ≡ gained gains.now share row.old }
{
    match gains {
        Gains::Base => row.add_base(share),
        Gains::Limit => row.lift(share),
    }
}

#[tactic(auto, using(crate::proofs::Loops::changing))]
/// The tracks with the same share each.
fn gain_each(gains: &Gains, share: Lu, rows: &mut [Row])
    requires { pos 0 ≤ℤ share }
    ensures { rows.new ≡ map (gained gains.now share) rows.old }
{
    for row in rows.iter_mut() {
        gain(gains, share, row);
    }
}

/// The first tracks with one share each, and the others with another.
fn gain_in_parts(gains: &Gains, more: Lu, each: Lu, place: usize, rows: &mut [Row])
    requires place { place ≤ length rows.old }
    requires more { pos 0 ≤ℤ more }
    requires each { pos 0 ≤ℤ each }
    ensures { rows.new ≡
        map (gained gains.now more) (take place rows.old)
        ++ map (gained gains.now each) (drop place rows.old) }
{
    let (first, rest) = rows.split_at_mut(place);
    gain_each(gains, more, first);
    gain_each(gains, each, rest);
}

/// The tracks with equal parts of a space.
pub fn gain_evenly(gains: &Gains, space: Lu, rows: &mut [Row])
    requires few { length rows.old < 2 ^ 32 }
    requires tracks { 2 ≤ length rows.old }
    requires space { pos 0 ≤ℤ space }
    ensures { rows.new ≡ gained_evenly gains.now space rows.old }
{
    let parts = parts_of(space, rows.len() as u64);
    let place = parts.more as usize;
    gain_in_parts(
        gains,
        length_of(parts.each + 1),
        length_of(parts.each),
        place,
        rows,
    );
}

#[tactic(auto, using(crate::proofs::Evenly::bases))]
/// A step on base sizes, of which the sum is known; answers their sum after it. Where no item needs a space, they stay as they are.
fn gain_bases(
    definite: bool,
    asks: &Asks,
    gap: Lu,
    sum: Wide,
    items: &[Item],
    rows: &mut [Row],
) -> Wide
    requires few { length rows.old < 2 ^ 32 }
    requires tracks { 2 ≤ length rows.old }
    requires gap { pos 0 ≤ℤ gap }
    requires plain { AreOpen rows.old }
    requires sum { HaveSum base_of rows.old sum }
    ensures rows { rows.new ≡ with_bases definite asks.now gap items.now rows.old }
    ensures plain { AreOpen rows.new }
    ensures sum { HaveSum base_of rows.new result }
{
    let space = greatest_for(definite, asks, sum, gutters_in(gap, rows), items);
    if is_nothing(space) {
        return sum;
    }
    gain_evenly(&Gains::Base, space, rows);
    sum + space.wide()
}

#[tactic(auto, using(crate::proofs::Evenly::open_fresh))]
/// The steps on base sizes; answers their sum.
fn gain_all_bases(definite: bool, max: bool, gap: Lu, items: &[Item], rows: &mut [Row]) -> Wide
    requires few { length rows.old < 2 ^ 32 }
    requires tracks { 2 ≤ length rows.old }
    requires gap { pos 0 ≤ℤ gap }
    requires fresh { AreFresh rows.old }
    ensures rows { rows.new ≡ all_bases definite max gap items.now rows.old }
    ensures plain { AreOpen rows.new }
    ensures sum { HaveSum base_of rows.new result }
{
    let sum = gain_bases(definite, &Asks::Minimum, gap, Wide::of(0), items, rows);
    if !max {
        return sum;
    }
    gain_bases(definite, &Asks::LimitedHigh, gap, sum, items, rows)
}

#[tactic(auto, using(crate::proofs::Evenly::lows))]
/// The first step on growth limits, which gives them an end, where the sum of the base sizes is known; answers the sum of the limits.
/// No marks are set for the second step, which lifts all tracks alike.
fn lift_lows(gap: Lu, sum: Wide, items: &[Item], rows: &mut [Row]) -> Wide
    requires few { length rows.old < 2 ^ 32 }
    requires tracks { 2 ≤ length rows.old }
    requires gap { pos 0 ≤ℤ gap }
    requires plain { AreOpen rows.old }
    requires sum { HaveSum base_of rows.old sum }
    ensures rows { rows.new ≡ with_lows gap items.now rows.old }
    ensures ended { AreEnded rows.new }
    ensures sum { HaveSum limit_of rows.new result }
{
    let space = greatest_for(true, &Asks::Low, sum, gutters_in(gap, rows), items);
    gain_evenly(&Gains::Limit, space, rows);
    sum + space.wide()
}

#[tactic(auto, using(crate::proofs::Evenly::limits))]
/// The second step on growth limits, of which the sum is known. Where no item needs a space, they stay as they are.
fn lift_limits(gap: Lu, sum: Wide, items: &[Item], rows: &mut [Row])
    requires few { length rows.old < 2 ^ 32 }
    requires tracks { 2 ≤ length rows.old }
    requires gap { pos 0 ≤ℤ gap }
    requires ended { AreEnded rows.old }
    requires sum { HaveSum limit_of rows.old sum }
    ensures { rows.new ≡ with_limits gap items.now rows.old }
{
    let space = greatest_for(true, &Asks::High, sum, gutters_in(gap, rows), items);
    if is_nothing(space) {
        return;
    }
    gain_evenly(&Gains::Limit, space, rows);
}

/// All groups, where the items and tracks are such: there is one group, and no item crosses a flexible track. Each growth limit has an
/// end then.
pub fn fit_evenly<const AXIS: u8>(
    space: &Space<AXIS>,
    gap: Lu,
    first: Wide,
    items: &[Item],
    rows: &mut [Row],
)
    requires few { length rows.old < 2 ^ 32 }
    requires tracks { 2 ≤ length rows.old }
    requires set { AreSet first rows.old }
    requires items { AreIn first (length rows.old) items.now }
    requires some { 0 < length items.now }
    requires over { AreOf (pos (length rows.old)) items.now }
    requires gap { pos 0 ≤ℤ gap }
    requires fresh { AreFresh rows.old }
    ensures rows { rows.new ≡
        map close_limit
        (group_fitted space.now gap true (filter (crosses_flexible rows.old) items.now)
        (spans_fitted space.now gap items.now (length rows.old) 2 rows.old)) }
    ensures set { AreSet first rows.new }
{
    let definite = is_definite(space);
    let max = is_max_content(space);
    let bases = gain_all_bases(definite, max, gap, items, rows);
    let limits = lift_lows(gap, bases, items, rows);
    lift_limits(gap, limits, items, rows);
}
