//! Intrinsic track sizes (CSS Grid 2, 12.5).

ghost use Rattle.std.specs.Prelude.{◌≡◌, ◌<◌, ◌≤◌, ◌^◌, IfOk, OnOk, filter, length, map, pos, true};
ghost use Rattle.part_rules.specs.Tracks.{close_limit, content_sized, crosses_flexible, fit_alone, group_fitted, of_span, some_fitted, spans_fitted};
ghost use Rattle.track_sizing.specs.Calm.{AreQuietItems, AreUntouched};
ghost use Rattle.track_sizing.specs.Ordered.{AreFrom, AreOf, AreRising, IsRun};
ghost use Rattle.track_sizing.specs.Placed.{AreIn, AreSet, IsIn};
ghost use Rattle.track_sizing.specs.Spans.{is_of_span};

use crate::alone::fit_alone;
use crate::calm::{are_calm, are_steady};
use crate::distribute::place_of;
use crate::even::{fit_evenly, is_even};
use crate::group::{fit_group, pass_group};
use crate::item::{some_flexible, span_length};
use crate::kinds::{Affected, Kind, some_affected};
use crate::rest::close_set_limits;
use crate::row::Row;
use crate::runs::{by_tracks, run_length, wide_items};
use lunit::{Item, Lu, NoMemory, Wide};
use part_rules::{Share, Space};
use std::alloc::Global;

/// Whether an item crosses a flexible track.
pub fn crosses_flexible(first: Wide, rows: &[Row], item: &Item) -> bool
    requires few { length rows.now < 2 ^ 32 }
    requires set { AreSet first rows.now }
    requires item { IsIn first (length rows.now) item.now }
    ensures { result ≡ crosses_flexible rows.now item.now }
{
    let start = place_of(first, item);
    let tracks = span_length(item) as usize;
    let (_before, rest) = rows.split_at(start);
    let (mine, _behind) = rest.split_at(tracks);
    some_flexible(mine)
}

/// Whether an item spans so many tracks, of which none is flexible.
fn is_of_span(first: Wide, rows: &[Row], span: u64, item: &Item) -> bool
    requires few { length rows.now < 2 ^ 32 }
    requires set { AreSet first rows.now }
    requires item { IsIn first (length rows.now) item.now }
    ensures { result ≡ is_of_span rows.now span item.now }
{
    span_length(item) == span && !crosses_flexible(first, rows, item)
}

#[tactic(auto, using(crate::proofs::Kept::kept_items))]
/// The items that span so many tracks, of which none is flexible.
fn of_span(
    alloc: Global,
    first: Wide,
    rows: &[Row],
    items: &[Item],
    span: u64,
) -> Result<Vec<Item>, NoMemory>
    requires few { length rows.now < 2 ^ 32 }
    requires set { AreSet first rows.now }
    requires items { AreIn first (length rows.now) items.now }
    ensures value { IfOk result (λ group. group.items ≡ of_span rows.now items.now span) }
    ensures items { IfOk result (λ group. AreIn first (length rows.now) group.items) }
{
    let mut group = Vec::new(alloc);
    for item in items {
        if is_of_span(first, rows, span, item) {
            group.push(*item)?;
        }
    }
    Ok(group)
}

#[tactic(auto, using(crate::proofs::Kept::kept_items))]
/// The items that cross a flexible track.
fn crossing_items(
    alloc: Global,
    first: Wide,
    rows: &[Row],
    items: &[Item],
) -> Result<Vec<Item>, NoMemory>
    requires few { length rows.now < 2 ^ 32 }
    requires set { AreSet first rows.now }
    requires items { AreIn first (length rows.now) items.now }
    ensures value { IfOk result
        (λ group. group.items ≡ filter (crosses_flexible rows.now) items.now) }
    ensures items { IfOk result (λ group. AreIn first (length rows.now) group.items) }
{
    let mut group = Vec::new(alloc);
    for item in items {
        if crosses_flexible(first, rows, item) {
            group.push(*item)?;
        }
    }
    Ok(group)
}

#[tactic(auto, using(crate::proofs::Kept::some_group, crate::proofs::Kept::no_group))]
/// The steps for a group of items that cross no flexible track; a group without items is passed over.
fn fit_some<const AXIS: u8>(
    space: &Space<AXIS>,
    gap: Lu,
    first: Wide,
    items: &[Item],
    rows: &mut [Row],
    takers: &mut [Share],
)
    requires few { length rows.old < 2 ^ 32 }
    requires length { length takers.old ≡ length rows.old }
    requires set { AreSet first rows.old }
    requires items { AreIn first (length rows.old) items.now }
    ensures rows { rows.new ≡ some_fitted space.now gap items.now rows.old }
    ensures set { AreSet first rows.new }
{
    if items.len() > 0 {
        fit_group(space, gap, false, first, items, rows, takers);
    }
}

#[tactic(auto, using(crate::proofs::Kept::run_empty, crate::proofs::Kept::run_whole))]
/// The steps for those of a run of items of one span that cross no flexible track: for all of them where no track is flexible.
fn fit_run<const AXIS: u8>(
    alloc: Global,
    space: &Space<AXIS>,
    gap: Lu,
    first: Wide,
    items: &[Item],
    span: u64,
    rows: &mut [Row],
    takers: &mut [Share],
) -> Result<(), NoMemory>
    requires few { length rows.old < 2 ^ 32 }
    requires length { length takers.old ≡ length rows.old }
    requires set { AreSet first rows.old }
    requires items { AreIn first (length rows.old) items.now }
    requires run { AreOf (pos span) items.now }
    ensures rows { OnOk result
        (rows.new ≡ some_fitted space.now gap (of_span rows.old items.now span) rows.old) }
    ensures set { OnOk result (AreSet first rows.new) }
{
    if items.len() == 0 {
        return Ok(());
    }
    if !some_flexible(rows) {
        fit_some(space, gap, first, items, rows, takers);
        return Ok(());
    }
    let group = of_span(alloc, first, rows, items, span)?;
    fit_some(space, gap, first, &group, rows, takers);
    Ok(())
}

/// How many items stand first that span so many tracks, where none spans fewer.
fn spanning(tracks: u64, items: &[Item]) -> usize
    requires rising { AreRising items.now }
    requires from { AreFrom (pos tracks) items.now }
    ensures fits { result ≤ length items.now }
    ensures run { IsRun (pos tracks) items.now result }
{
    run_length(Wide::of(i128::from(tracks)), items)
}

#[tactic(auto, using(crate::proofs::Kept::one_turn, crate::proofs::Kept::no_turn, crate::proofs::Unchanged::few_spans))]
/// The groups of items of two tracks, of three and so on that cross no flexible track. Over one track there is none.
fn fit_spans<const AXIS: u8>(
    alloc: Global,
    space: &Space<AXIS>,
    gap: Lu,
    first: Wide,
    items: &[Item],
    rows: &mut [Row],
    takers: &mut [Share],
) -> Result<(), NoMemory>
    requires few { length rows.old < 2 ^ 32 }
    requires length { length takers.old ≡ length rows.old }
    requires set { AreSet first rows.old }
    requires items { AreIn first (length rows.old) items.now }
    ensures rows { OnOk result
        (rows.new ≡ spans_fitted space.now gap items.now (length rows.old) 2 rows.old) }
    ensures set { OnOk result (AreSet first rows.new) }
{
    if rows.len() < 2 {
        return Ok(());
    }
    let wide = wide_items(alloc, items)?;
    let sorted = by_tracks(alloc, &wide)?;
    let mut left: &[Item] = &sorted;
    let mut span = 2;
    for _turn in 0..rows.len() {
        if left.len() == 0 {
            return Ok(());
        }
        let (mine, others) = left.split_at(spanning(span, left));
        fit_run(alloc, space, gap, first, mine, span, rows, takers)?;
        left = others;
        span += 1;
    }
    Ok(())
}

#[tactic(auto, using(crate::proofs::Passed::group_passed))]
/// The steps for the items that cross a flexible track, given the tracks as they were at first. No item is asked where the steps
/// affect no track: a flexible max function is not intrinsic, so only intrinsic min functions count.
fn fit_crossing<const AXIS: u8>(
    alloc: Global,
    space: &Space<AXIS>,
    gap: Lu,
    first: Wide,
    items: &[Item],
    start: &[Row],
    rows: &mut [Row],
    takers: &mut [Share],
) -> Result<(), NoMemory>
    requires few { length rows.old < 2 ^ 32 }
    requires length { length takers.old ≡ length rows.old }
    requires same { length start.now ≡ length rows.old }
    requires start { AreSet first start.now }
    requires set { AreSet first rows.old }
    requires items { AreIn first (length rows.old) items.now }
    ensures rows { OnOk result
        (rows.new ≡
        group_fitted space.now gap true (filter (crosses_flexible start.now) items.now) rows.old) }
    ensures set { OnOk result (AreSet first rows.new) }
{
    let affected = Affected {
        kind: Kind::IntrinsicLeast,
        crossing: true,
    };
    if !some_affected(&affected, rows) {
        pass_group(first, rows);
        return Ok(());
    }
    let crossing = crossing_items(alloc, first, start, items)?;
    fit_group(space, gap, true, first, &crossing, rows, takers);
    Ok(())
}

#[tactic(auto, using(crate::proofs::Unchanged::nothing_changed, crate::proofs::Steady::untouched))]
/// Groups of items of two tracks and more, and last the items that cross a flexible track. Where such items ask for nothing and the
/// tracks have growth limits, all stay as they are. Answers whether surely no size is changed.
fn size_groups<const AXIS: u8>(
    alloc: Global,
    space: &Space<AXIS>,
    gap: Lu,
    first: Wide,
    items: &[Item],
    quiet: bool,
    rows: &mut [Row],
    takers: &mut [Share],
) -> Result<bool, NoMemory>
    requires few { length rows.old < 2 ^ 32 }
    requires length { length takers.old ≡ length rows.old }
    requires set { AreSet first rows.old }
    requires items { AreIn first (length rows.old) items.now }
    requires quiet { quiet ≡ true → AreQuietItems gap items.now }
    ensures rows { OnOk result
        (rows.new ≡
        map close_limit
        (group_fitted space.now gap true (filter (crosses_flexible rows.old) items.now)
        (spans_fitted space.now gap items.now (length rows.old) 2 rows.old))) }
    ensures set { OnOk result (AreSet first rows.new) }
    ensures untouched { IfOk result
        (λ untouched. untouched ≡ true → AreUntouched gap items.now rows.old) }
{
    if quiet && are_calm(rows) {
        return Ok(true);
    }
    if !quiet && is_even(gap, items, rows) {
        fit_evenly(space, gap, first, items, rows);
        return Ok(false);
    }
    let untouched = quiet && are_steady(rows);
    let start = Vec::from_slice(alloc, rows)?;
    fit_spans(alloc, space, gap, first, items, rows, takers)?;
    fit_crossing(alloc, space, gap, first, items, &start, rows, takers)?;
    close_set_limits(first, rows);
    Ok(untouched)
}

#[tactic(auto, using(crate::proofs::Whole::content_whole))]
/// Sizes the tracks for the contributions of the items: items of one track, groups of items of more tracks, and last the items
/// that cross a flexible track. Answers whether surely the items of one track alone have sized them.
pub fn size_content<const AXIS: u8>(
    alloc: Global,
    space: &Space<AXIS>,
    gap: Lu,
    first: Wide,
    items: &[Item],
    rows: &mut [Row],
    takers: &mut [Share],
) -> Result<bool, NoMemory>
    requires few { length rows.old < 2 ^ 32 }
    requires length { length takers.old ≡ length rows.old }
    requires set { AreSet first rows.old }
    requires items { AreIn first (length rows.old) items.now }
    ensures rows { OnOk result (rows.new ≡ content_sized space.now gap items.now rows.old) }
    ensures set { OnOk result (AreSet first rows.new) }
    ensures untouched { IfOk result
        (λ untouched. untouched ≡ true →
        AreUntouched gap items.now (fit_alone space.now gap items.now rows.old)) }
{
    let quiet = fit_alone(alloc, space, gap, first, items, rows)?;
    size_groups(alloc, space, gap, first, items, quiet, rows, takers)
}
