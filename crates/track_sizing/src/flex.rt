//! Flexible tracks expanded (CSS Grid 2, 12.7).

ghost use Rattle.std.specs.Prelude.{◌≡◌, ◌<◌, ◌^◌, ◌≤ℤ◌, IfOk, OnOk, filter, int_lt, length, map, pos};
ghost use Rattle.lunit.specs.Units.{IsUnits};
ghost use Rattle.fr_tracks.specs.Settled.{HaveBases, IsSpace};
ghost use Rattle.part_rules.specs.declared.fraction.FrRow.{FrRow};
ghost use Rattle.part_rules.specs.Lists.{at_least, at_most, sum_of, zipped};
ghost use Rattle.part_rules.specs.Fractions.{expanded, found, fraction_of, left_flexible, no_fraction};
ghost use Rattle.part_rules.specs.Tracks.{all_gutters, base_fraction, crosses_flexible, definite_fraction, flexed, flexible, fr_row, fraction_for, greater, item_fraction, with_base};
ghost use Rattle.track_sizing.specs.Fits.{IsKnownSpace};
ghost use Rattle.track_sizing.specs.Flex.{IsBounded, filled_fraction, greatest_alone, greatest_over, highest, item_fractions, lone_fraction, other_total, space_again, track_fractions};
ghost use Rattle.track_sizing.specs.Here.{IsSum};
ghost use Rattle.track_sizing.specs.Placed.{AreIn, AreSet, IsIn};

use crate::content::crosses_flexible;
use crate::distribute::place_of;
use crate::factors::factor_of;
use crate::group::is_max_content;
use crate::item::{inner_gutters, some_flexible, span_length};
use crate::kinds::flexible;
use crate::numbers::{length, longer, shared};
use crate::rest::{all_gutters, free_of};
use crate::row::Row;
use fr_tracks::{expand, find_fr_without_gutters};
use lunit::{Item, Lu, NoMemory, Wide};
use part_rules::{Fit, FrRow, Fraction, Space};
use std::alloc::Global;

/// A track as the size of an `fr` sees it.
fn fr_row(row: &Row) -> FrRow
    ensures value { result ≡ fr_row row.now }
    ensures base { pos 0 ≤ℤ result.base }
{
    FrRow {
        base: row.base(),
        factor: factor_of(&row.rule().most),
    }
}

#[tactic(auto, using(crate::proofs::Best::bases_more))]
/// The tracks as the size of an `fr` sees them.
pub fn fr_rows(alloc: Global, rows: &[Row]) -> Result<Vec<FrRow>, NoMemory>
    ensures value { IfOk result (λ all. all.items ≡ map fr_row rows.now) }
    ensures bases { IfOk result (λ all. HaveBases all.items) }
{
    let mut all = Vec::with_capacity(alloc, rows.len())?;
    for row in rows {
        all.push(fr_row(row))?;
    }
    Ok(all)
}

#[tactic(auto, unfolding(lunit::specs::Units::clamp))]
/// No size of an `fr`.
fn no_fraction() -> Fraction
    ensures value { result ≡ no_fraction }
    ensures space { pos 0 ≤ℤ result.space }
    ensures weight { 0 < result.weight }
{
    Fraction {
        space: Lu::of(0),
        weight: 1000,
    }
}

#[tactic(auto, unfolding(lunit::specs::Units::clamp))]
/// Whether some of a space is free.
fn is_free(space: Lu) -> bool
    ensures { result ≡ int_lt (pos 0) space }
{
    Lu::of(0) < space
}

/// The fraction that fills a space.
fn filling_fraction(gap: Lu, space: Lu, rows: &[Row], all: &[FrRow]) -> Fraction
    requires few { length rows.now < 2 ^ 32 }
    requires gap { pos 0 ≤ℤ gap }
    requires all { all.now ≡ map fr_row rows.now }
    requires bases { HaveBases all.now }
    ensures value { result ≡ found (map fr_row rows.now) (all_gutters gap rows.now) space }
    ensures space { pos 0 ≤ℤ result.space }
    ensures weight { 0 < result.weight }
{
    find_fr_without_gutters(all, space.wide() - all_gutters(gap, rows))
}

/// The fraction of a definite space: 0 where none of it is free.
pub fn definite_fraction(gap: Lu, space: Lu, rows: &[Row], all: &[FrRow]) -> Fraction
    requires few { length rows.now < 2 ^ 32 }
    requires gap { pos 0 ≤ℤ gap }
    requires all { all.now ≡ map fr_row rows.now }
    requires bases { HaveBases all.now }
    ensures value { result ≡ definite_fraction gap space rows.now }
    ensures space { pos 0 ≤ℤ result.space }
    ensures weight { 0 < result.weight }
{
    if is_free(free_of(gap, space.wide(), rows)) {
        filling_fraction(gap, space, rows, all)
    } else {
        no_fraction()
    }
}

/// The greater of two fractions.
fn greater(one: &Fraction, other: &Fraction) -> Fraction
    requires one { 0 < one.now.weight }
    requires other { 0 < other.now.weight }
    requires one_space { pos 0 ≤ℤ one.now.space }
    requires other_space { pos 0 ≤ℤ other.now.space }
    ensures value { result ≡ greater one.now other.now }
    ensures space { pos 0 ≤ℤ result.space }
    ensures weight { 0 < result.weight }
{
    let (space, weight) = if one.space.wide().times(other.weight)
        < other.space.wide().times(one.weight)
    {
        (other.space, other.weight)
    } else {
        (one.space, one.weight)
    };
    Fraction { space, weight }
}

/// The fraction by which a flexible track keeps its base size: over its factor, or over 1 where that is less.
fn base_fraction(row: &Row) -> Fraction
    ensures value { result ≡ base_fraction row.now }
    ensures space { pos 0 ≤ℤ result.space }
    ensures weight { 0 < result.weight }
{
    let factor = match factor_of(&row.rule().most) {
        Some(factor) => u64::from(factor),
        None => 0,
    };
    Fraction {
        space: row.base(),
        weight: factor.max(1000),
    }
}

#[tactic(auto, unfolding(lunit::specs::Units::clamp))]
/// The fraction that fills a space with one flexible track.
fn filled_fraction(base: Lu, factor: u32, space: Wide) -> Fraction
    ensures value { result ≡ filled_fraction base factor space }
    ensures space { pos 0 ≤ℤ result.space }
    ensures weight { 0 < result.weight }
{
    let left = shared(space);
    let weight = u64::from(factor).max(1000);
    if left.wide().times(u64::from(factor)) < base.wide().times(weight) {
        no_fraction()
    } else {
        Fraction {
            space: left,
            weight,
        }
    }
}

/// The fraction that fills a space with one track.
fn lone_fraction(row: &FrRow, space: Wide) -> Fraction
    ensures value { result ≡ lone_fraction row.now.base row.now.factor space }
    ensures space { pos 0 ≤ℤ result.space }
    ensures weight { 0 < result.weight }
{
    match row.factor {
        Some(factor) => filled_fraction(row.base, factor, space),
        None => no_fraction(),
    }
}

#[tactic(auto, using(crate::proofs::Lonely::lone_found))]
/// The fraction that fills a space with these tracks. With one track there is but one start.
fn fraction_in(rows: &[FrRow], space: Wide) -> Fraction
    requires few { length rows.now < 2 ^ 32 }
    requires space { IsSpace space }
    requires bases { HaveBases rows.now }
    ensures value { result ≡ fraction_of space (left_flexible (length rows.now) space rows.now) }
    ensures space { pos 0 ≤ℤ result.space }
    ensures weight { 0 < result.weight }
{
    if rows.len() == 1 {
        return lone_fraction(&rows[0], space);
    }
    find_fr_without_gutters(rows, space)
}

/// The fraction by which the tracks of an item have room for its max-content contribution.
fn item_fraction(gap: Lu, first: Wide, rows: &[Row], all: &[FrRow], item: &Item) -> Fraction
    requires few { length rows.now < 2 ^ 32 }
    requires gap { pos 0 ≤ℤ gap }
    requires set { AreSet first rows.now }
    requires item { IsIn first (length rows.now) item.now }
    requires all { all.now ≡ map fr_row rows.now }
    requires bases { HaveBases all.now }
    ensures value { result ≡ item_fraction gap rows.now item.now }
    ensures space { pos 0 ≤ℤ result.space }
    ensures weight { 0 < result.weight }
{
    let start = place_of(first, item);
    let tracks = span_length(item) as usize;
    let (_before, rest) = all.split_at(start);
    let (mine, _behind) = rest.split_at(tracks);
    fraction_in(mine, item.high.wide() - inner_gutters(gap, item))
}

#[tactic(auto, using(crate::proofs::Highest::highest_of))]
/// The greatest max-content contribution of some items, and of one more.
fn highest(one: Lu, items: &[Item]) -> Lu
    ensures { result ≡ highest one items.now }
{
    let mut best = one;
    for item in items {
        best = longer(best, item.high);
    }
    best
}

/// The greatest fraction of the items over one track: that of the greatest max-content contribution.
fn greatest_over_one(row: &FrRow, items: &[Item]) -> Fraction
    ensures value { result ≡ greatest_alone row.now items.now }
    ensures space { pos 0 ≤ℤ result.space }
    ensures weight { 0 < result.weight }
{
    match items.split_first() {
        Some((item, others)) => lone_fraction(row, highest(item.high, others).wide()),
        None => no_fraction(),
    }
}

#[tactic(auto, using(crate::proofs::Best::best, crate::proofs::Highest::alone_greatest))]
/// The greatest fraction of the items that cross a flexible track.
fn greatest_of_items(gap: Lu, first: Wide, rows: &[Row], all: &[FrRow], items: &[Item]) -> Fraction
    requires few { length rows.now < 2 ^ 32 }
    requires gap { pos 0 ≤ℤ gap }
    requires set { AreSet first rows.now }
    requires items { AreIn first (length rows.now) items.now }
    requires all { all.now ≡ map fr_row rows.now }
    requires bases { HaveBases all.now }
    ensures value { result ≡ greatest_over no_fraction (item_fractions gap rows.now items.now) }
    ensures space { pos 0 ≤ℤ result.space }
    ensures weight { 0 < result.weight }
{
    if all.len() == 1 {
        return greatest_over_one(&all[0], items);
    }
    let mut best = no_fraction();
    for back in 0..items.len() {
        let item = &items[items.len() - 1 - back];
        if crosses_flexible(first, rows, item) {
            best = greater(&item_fraction(gap, first, rows, all, item), &best);
        }
    }
    best
}

#[tactic(auto, using(crate::proofs::Best::best))]
/// The greatest of a fraction and those by which the flexible tracks keep their base sizes.
fn greatest_of_tracks(start: &Fraction, rows: &[Row]) -> Fraction
    requires weight { 0 < start.now.weight }
    requires space { pos 0 ≤ℤ start.now.space }
    ensures value { result ≡ greatest_over start.now (track_fractions rows.now) }
    ensures space { pos 0 ≤ℤ result.space }
    ensures weight { 0 < result.weight }
{
    let mut best = Fraction {
        space: start.space,
        weight: start.weight,
    };
    for back in 0..rows.len() {
        let row = &rows[rows.len() - 1 - back];
        if flexible(row) {
            best = greater(&base_fraction(row), &best);
        }
    }
    best
}

#[tactic(auto, using(crate::proofs::Flexed::max_fraction))]
/// The fraction (CSS Grid 2, 12.7).
pub fn fraction_for<const AXIS: u8>(
    space: &Space<AXIS>,
    gap: Lu,
    first: Wide,
    items: &[Item],
    rows: &[Row],
    all: &[FrRow],
) -> Fraction
    requires few { length rows.now < 2 ^ 32 }
    requires gap { pos 0 ≤ℤ gap }
    requires space { IsKnownSpace space.now }
    requires set { AreSet first rows.now }
    requires items { AreIn first (length rows.now) items.now }
    requires all { all.now ≡ map fr_row rows.now }
    requires bases { HaveBases all.now }
    ensures value { result ≡ fraction_for space.now gap items.now rows.now }
    ensures space { pos 0 ≤ℤ result.space }
    ensures weight { 0 < result.weight }
{
    match space {
        Space::Definite(size) => {
            definite_fraction(gap, length(Wide::of(size.units() as i128)), rows, all)
        }
        Space::MinContent => no_fraction(),
        Space::MaxContent => {
            let start = greatest_of_items(gap, first, rows, all, items);
            greatest_of_tracks(&start, rows)
        }
    }
}

#[tactic(auto, using(crate::proofs::Flexed::bases_expanded, crate::proofs::Flexed::length_rows))]
/// The sizes that a fraction gives the tracks.
fn expanded_rows(alloc: Global, fraction: Fraction, rows: &[Row]) -> Result<Vec<FrRow>, NoMemory>
    requires weight { 0 < fraction.weight }
    requires space { pos 0 ≤ℤ fraction.space }
    ensures value { IfOk result (λ all. all.items ≡ expanded fraction (map fr_row rows.now)) }
    ensures bases { IfOk result (λ all. HaveBases all.items) }
    ensures length { IfOk result (λ all. length all.items ≡ length rows.now) }
{
    let mut all = fr_rows(alloc, rows)?;
    expand(&mut all, fraction);
    Ok(all)
}

#[tactic(auto, using(crate::proofs::Bounds::size_sums))]
/// The sum of the sizes.
fn size_sum(all: &[FrRow]) -> Wide
    ensures value { result ≡ sum_of (map (λ (r : FrRow). r.base) all.now) }
    ensures range { IsSum result }
{
    let mut sum = Wide::of(0);
    for row in all {
        sum = sum + row.base.wide();
    }
    sum
}

/// A number, but at most a length, where there is one.
fn at_most_length(most: Option<Lu>, number: Wide) -> Wide
    ensures value { result ≡ at_most most number }
    ensures range { IsBounded number result }
{
    match most {
        Some(most) => {
            if most.wide() < number {
                most.wide()
            } else {
                number
            }
        }
        None => number,
    }
}

/// A number, but at least a length, where there is one.
fn at_least_length(least: Option<Lu>, number: Wide) -> Wide
    ensures value { result ≡ at_least least number }
    ensures range { IsBounded number result }
{
    match least {
        Some(least) => {
            if number < least.wide() {
                least.wide()
            } else {
                number
            }
        }
        None => number,
    }
}

#[tactic(auto, using(crate::proofs::Bounds::bounds))]
/// The total limited by the declared lengths, where that is another.
fn other_total(min: Option<Lu>, most: Option<Lu>, total: Wide) -> Option<Lu>
    ensures { result ≡ other_total min most total }
{
    let bounded = at_least_length(min, at_most_length(most, total));
    if bounded == total {
        None
    } else {
        Some(length(bounded))
    }
}

#[tactic(auto, using(crate::proofs::Loops::zipping))]
/// Gives the tracks these base sizes.
fn set_bases(rows: &mut [Row], all: &[FrRow])
    requires length { length all.now ≡ length rows.old }
    requires bases { HaveBases all.now }
    ensures { rows.new ≡ zipped with_base rows.old all.now }
{
    for (place, row) in rows.iter_mut().enumerate() {
        *row = row.with_base(all[place].base);
    }
}

/// The space for which the flexible tracks are expanded again, where there is one: under a max-content space the total limited by
/// the declared lengths, where that is another.
fn space_again<const AXIS: u8>(fit: &Fit<AXIS>, rows: &[Row], done: &[FrRow]) -> Option<Lu>
    requires few { length rows.now < 2 ^ 32 }
    requires length { length done.now ≡ length rows.now }
    ensures { result ≡ space_again fit.now rows.now done.now }
{
    if is_max_content(&fit.space) {
        other_total(
            fit.min,
            fit.max,
            size_sum(done) + all_gutters(fit.gap, rows),
        )
    } else {
        None
    }
}

#[tactic(auto, using(crate::proofs::Flexed::flexed_none, crate::proofs::Flexed::flexed_some))]
/// Expands the flexible tracks (CSS Grid 2, 12.7). Under a max-content space it is done again, from the sizes as they were, where
/// the declared lengths ask for another total. Where no track is flexible, all stay as they are.
pub fn flex<const AXIS: u8>(
    alloc: Global,
    fit: &Fit<AXIS>,
    first: Wide,
    items: &[Item],
    rows: &mut [Row],
) -> Result<(), NoMemory>
    requires few { length rows.old < 2 ^ 32 }
    requires gap { pos 0 ≤ℤ fit.now.gap }
    requires space { IsKnownSpace fit.now.space }
    requires set { AreSet first rows.old }
    requires items { AreIn first (length rows.old) items.now }
    ensures { OnOk result (rows.new ≡ flexed fit.now items.now rows.old) }
{
    if !some_flexible(rows) {
        return Ok(());
    }
    let all = fr_rows(alloc, rows)?;
    let fraction = fraction_for(&fit.space, fit.gap, first, items, rows, &all);
    let done = expanded_rows(alloc, fraction, rows)?;
    match space_again(fit, rows, &done) {
        Some(space) => {
            let fraction = definite_fraction(fit.gap, space, rows, &all);
            let again = expanded_rows(alloc, fraction, rows)?;
            set_bases(rows, &again);
            Ok(())
        }
        None => {
            set_bases(rows, &done);
            Ok(())
        }
    }
}
