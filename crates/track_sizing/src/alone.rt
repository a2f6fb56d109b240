//! Items that span one track (CSS Grid 2, 12.5, step 2).

ghost use Rattle.std.specs.Prelude.{◌≡◌, ◌<◌, ◌^◌, ◌+ℤ◌, IfOk, OnOk, false, length, map, pos, true};
ghost use Rattle.std.specs.List.{list_any};
ghost use Rattle.std.specs.Ordering.{int_eq};
ghost use Rattle.part_rules.specs.Lists.{zipped};
ghost use Rattle.part_rules.specs.Tracks.{fit_alone, is_auto_most, is_definite};
ghost use Rattle.track_sizing.specs.Alone.{base_alone, content_ask, fit_none, fit_single, is_single, is_special, limit_ask, limit_most, limit_single, plain_asks, plain_least, single_alone, single_asks, single_by, single_content, single_least, single_none, single_of, single_plain};
ghost use Rattle.track_sizing.specs.Calm.{AreQuietItems, IsQuiet};
ghost use Rattle.track_sizing.specs.Placed.{AreIn, AreSet, IsIn};

use crate::distribute::place_of;
use crate::group::is_definite;
use crate::item::{capped_most, is_idle};
use crate::kinds::{flexible, is_auto_least};
use crate::numbers::{at_least_nothing, at_most_limit, both, difference, longer, shorter, sum};
use crate::row::{Row, fixed_most};
use lunit::{Floor, Item, Lu, NoMemory, Wide};
use part_rules::{Least, Most, Rule, Space};
use std::alloc::Global;

/// What the items that span a track alone make of it.
#[derive(Clone, Copy)]
struct Single {
    /// 1 where there is one, else 0; a whole word, which is set at once.
    some: u32,
    /// The base size.
    base: Lu,
    /// The greatest contribution by which the growth limit goes: the min-content contribution where
    /// the max track sizing function is `min-content`, else the max-content contribution.
    most: Lu,
}

/// A track without an item.
fn single_none(row: &Row) -> Single
    ensures { result ≡ single_none row.now }
{
    Single {
        some: 0,
        base: row.base(),
        most: Lu::default(),
    }
}

#[tactic(auto, using(crate::proofs::Known::content_by), unfolding(lunit::specs::Units::clamp))]
/// The automatic minimum of an item in a track with the min function `auto` that it spans alone: it is content-based there
/// (CSS Grid 2, 6.6).
fn single_content(most: &Most, size: Lu, margins: Lu) -> Lu
    ensures { result ≡ single_content most.now size margins }
{
    let _units = size.units();
    match fixed_most(most) {
        Some(fixed) => longer(Lu::of(0), shorter(difference(fixed, margins), size)),
        None => longer(Lu::of(0), size),
    }
}

/// The minimum contribution of such an item (CSS Grid 2, 12.5).
fn single_least(most: &Most, item: &Item) -> Lu
    ensures { result ≡ single_least most.now item.now.floor }
{
    match item.floor {
        Floor::Known(size) => size,
        Floor::Content {
            size,
            margins,
            inner,
        } => {
            let content = single_content(most, size, margins);
            sum(margins, longer(inner, content))
        }
    }
}

/// What such an item asks for.
fn single_asks(definite: bool, most: &Most, item: &Item) -> Lu
    ensures { result ≡ single_asks definite most.now item.now }
{
    let least = single_least(most, item);
    if definite {
        least
    } else {
        longer(least, at_most_limit(capped_most(most), item.low))
    }
}

/// The contribution that the min functions `min-content` and `max-content` ask for.
fn content_ask(least: &Least, item: &Item) -> Lu
    ensures { result ≡ content_ask least.now item.now }
{
    match least {
        Least::MinContent => item.low,
        _ => item.high,
    }
}

/// The base size by one item more.
fn base_more(definite: bool, rule: &Rule, item: &Item, base: Lu) -> Lu
    ensures { result ≡ base_alone definite rule.now.least rule.now.most item.now base }
{
    match &rule.least {
        Least::Fixed(_) => base,
        Least::Auto => longer(single_asks(definite, &rule.most, item), base),
        _ => longer(content_ask(&rule.least, item), base),
    }
}

/// The contribution by which a growth limit goes.
fn limit_ask(most: &Most, item: &Item) -> Lu
    ensures { result ≡ limit_ask most.now item.now }
{
    match most {
        Most::MinContent => item.low,
        _ => item.high,
    }
}

/// What a track is by one item more that spans it alone.
fn single_more(definite: bool, item: &Item, row: &Row, single: &Single) -> Single
    ensures { result ≡ single_alone definite item.now row.now single.now }
{
    let rule = row.rule();
    Single {
        some: 1,
        base: base_more(definite, &rule, item, single.base),
        most: longer(limit_ask(&rule.most, item), single.most),
    }
}

/// Whether an item spans one track.
fn is_single(item: &Item) -> bool
    ensures { result ≡ is_single item.now }
{
    i64::from(item.span.end) - 1 == i64::from(item.span.start)
}

#[tactic(auto, using(crate::proofs::Lone::item_laws, crate::proofs::Unchanged::item_quiet))]
/// Counts an item to the track that it spans alone, where that is not flexible. Answers whether it surely gives nothing to more.
fn add_item<const AXIS: u8>(
    space: &Space<AXIS>,
    gap: Lu,
    first: Wide,
    rows: &[Row],
    item: &Item,
    singles: &mut [Single],
) -> bool
    requires few { length rows.now < 2 ^ 32 }
    requires length { length singles.old ≡ length rows.now }
    requires set { AreSet first rows.now }
    requires item { IsIn first (length rows.now) item.now }
    ensures singles { singles.new ≡
        zipped (single_by space.now gap rows.now item.now) rows.now singles.old }
    ensures quiet { result ≡ true → IsQuiet gap item.now }
{
    if !is_single(item) {
        return is_idle(gap, item);
    }
    let place = place_of(first, item);
    let row = &rows[place];
    if flexible(row) {
        return true;
    }
    singles[place] = single_more(is_definite(space), item, row, &singles[place]);
    true
}

#[inline(never)]
#[tactic(auto, using(crate::proofs::Lone::list_laws, crate::proofs::Unchanged::items_quiet))]
/// Counts items to the tracks that they span alone, from the last to the first. Answers whether they surely give nothing to more
/// tracks.
fn add_items<const AXIS: u8>(
    space: &Space<AXIS>,
    gap: Lu,
    first: Wide,
    rows: &[Row],
    items: &[Item],
    singles: &mut [Single],
) -> bool
    requires few { length rows.now < 2 ^ 32 }
    requires length { length singles.old ≡ length rows.now }
    requires set { AreSet first rows.now }
    requires items { AreIn first (length rows.now) items.now }
    requires none { singles.old ≡ map single_none rows.now }
    ensures singles { singles.new ≡ map (single_of space.now gap rows.now items.now) rows.now }
    ensures quiet { result ≡ true → AreQuietItems gap items.now }
{
    let mut quiet = true;
    for back in 0..items.len() {
        let item = &items[items.len() - 1 - back];
        let more = add_item(space, gap, first, rows, item, singles);
        quiet = both(more, quiet);
    }
    quiet
}

/// Whether the max function is `auto`.
fn is_auto_most(most: &Most) -> bool
    ensures { result ≡ is_auto_most most.now }
{
    match most {
        Most::Auto => true,
        _ => false,
    }
}

#[tactic(auto, unfolding(crate::specs::Alone::is_special))]
/// Whether a track has another min or max function than `auto`.
pub fn is_special(row: &Row) -> bool
    ensures { result ≡ is_special row.now }
{
    let rule = row.rule();
    !is_auto_least(&rule.least) || !is_auto_most(&rule.most)
}

/// Whether some track has.
pub fn some_special(rows: &[Row]) -> bool
    ensures { result ≡ list_any is_special rows.now }
{
    for row in rows {
        if is_special(row) {
            return true;
        }
    }
    false
}

/// The minimum contribution of an item to a track that has no other function than `auto` and that it spans alone.
pub fn plain_least(item: &Item) -> Lu
    ensures { result ≡ plain_least item.now.floor }
{
    match item.floor {
        Floor::Known(size) => size,
        Floor::Content {
            size,
            margins,
            inner,
        } => sum(margins, longer(inner, at_least_nothing(size))),
    }
}

/// What such an item asks for.
pub fn plain_asks(definite: bool, item: &Item) -> Lu
    ensures { result ≡ plain_asks definite item.now }
{
    let least = plain_least(item);
    if definite {
        least
    } else {
        longer(least, item.low)
    }
}

/// What such a track is by one item more that spans it alone.
fn single_plain(definite: bool, item: &Item, single: &Single) -> Single
    ensures { result ≡ single_plain definite item.now single.now }
{
    Single {
        some: 1,
        base: longer(plain_asks(definite, item), single.base),
        most: longer(item.high, single.most),
    }
}

#[tactic(auto, using(crate::proofs::Lone::item_laws, crate::proofs::Unchanged::item_quiet))]
/// Counts an item to the track that it spans alone, where no track has another function than `auto`. Answers whether it surely gives
/// nothing to more.
fn add_plain_item<const AXIS: u8>(
    _space: &Space<AXIS>,
    definite: bool,
    gap: Lu,
    first: Wide,
    rows: &[Row],
    item: &Item,
    singles: &mut [Single],
) -> bool
    requires few { length rows.now < 2 ^ 32 }
    requires length { length singles.old ≡ length rows.now }
    requires set { AreSet first rows.now }
    requires item { IsIn first (length rows.now) item.now }
    requires plain { list_any is_special rows.now ≡ false }
    requires definite { definite ≡ is_definite _space.now }
    ensures singles { singles.new ≡
        zipped (single_by _space.now gap rows.now item.now) rows.now singles.old }
    ensures quiet { result ≡ true → IsQuiet gap item.now }
{
    if !is_single(item) {
        return is_idle(gap, item);
    }
    let place = place_of(first, item);
    let _row = &rows[place];
    singles[place] = single_plain(definite, item, &singles[place]);
    true
}

#[inline(never)]
#[tactic(auto, using(crate::proofs::Lone::list_laws, crate::proofs::Unchanged::items_quiet))]
/// Counts items so to the tracks that they span alone, from the last to the first. Answers whether they surely give nothing to more
/// tracks.
fn add_plain_items<const AXIS: u8>(
    space: &Space<AXIS>,
    definite: bool,
    gap: Lu,
    first: Wide,
    rows: &[Row],
    items: &[Item],
    singles: &mut [Single],
) -> bool
    requires few { length rows.now < 2 ^ 32 }
    requires length { length singles.old ≡ length rows.now }
    requires set { AreSet first rows.now }
    requires items { AreIn first (length rows.now) items.now }
    requires plain { list_any is_special rows.now ≡ false }
    requires definite { definite ≡ is_definite space.now }
    requires none { singles.old ≡ map single_none rows.now }
    ensures singles { singles.new ≡ map (single_of space.now gap rows.now items.now) rows.now }
    ensures quiet { result ≡ true → AreQuietItems gap items.now }
{
    let mut quiet = true;
    for back in 0..items.len() {
        let item = &items[items.len() - 1 - back];
        let more = add_plain_item(space, definite, gap, first, rows, item, singles);
        quiet = both(more, quiet);
    }
    quiet
}

/// Counts items to the tracks that they span alone: with fewer steps for each where all tracks have the functions `auto`. Answers
/// whether they surely give nothing to more tracks.
fn count_items<const AXIS: u8>(
    space: &Space<AXIS>,
    gap: Lu,
    first: Wide,
    rows: &[Row],
    items: &[Item],
    singles: &mut [Single],
) -> bool
    requires few { length rows.now < 2 ^ 32 }
    requires length { length singles.old ≡ length rows.now }
    requires set { AreSet first rows.now }
    requires items { AreIn first (length rows.now) items.now }
    requires none { singles.old ≡ map single_none rows.now }
    ensures singles { singles.new ≡ map (single_of space.now gap rows.now items.now) rows.now }
    ensures quiet { result ≡ true → AreQuietItems gap items.now }
{
    if some_special(rows) {
        return add_items(space, gap, first, rows, items, singles);
    }
    add_plain_items(space, is_definite(space), gap, first, rows, items, singles)
}

/// The tracks without items.
fn no_singles(alloc: Global, rows: &[Row]) -> Result<Vec<Single>, NoMemory>
    ensures { IfOk result (λ singles. singles.items ≡ map single_none rows.now) }
{
    let mut singles = Vec::with_capacity(alloc, rows.len())?;
    for row in rows {
        singles.push(single_none(row))?;
    }
    Ok(singles)
}

/// The growth limit by the greatest contribution of at least one item.
fn limit_most(most: &Most, greatest: Lu, limit: Option<Lu>) -> Option<Lu>
    ensures { result ≡ limit_most most.now greatest limit }
{
    match most {
        Most::MinContent | Most::Auto | Most::MaxContent => Some(greatest),
        Most::Fit(argument) => Some(shorter(*argument, greatest)),
        Most::Fixed(_) | Most::Flex(_) => limit,
    }
}

/// The growth limit by the items that span a track alone.
fn limit_single(row: &Row, single: &Single) -> Option<Lu>
    ensures { result ≡ limit_single row.now single.now }
{
    if single.some == 1 {
        limit_most(&row.rule().most, single.most, row.limit())
    } else {
        row.limit()
    }
}

/// Fits the track to the items that span it alone. A flexible track is left as it is.
fn fit_single(row: &mut Row, single: &Single)
    ensures { row.new ≡ fit_single row.old single.now }
{
    if flexible(row) {
        return;
    }
    let base = longer(row.base(), single.base);
    let limit = match limit_single(row, single) {
        Some(limit) => Some(longer(base, limit)),
        None => None,
    };
    row.fit(base, limit);
}

#[tactic(auto, using(crate::proofs::Loops::zipping))]
/// Fits the tracks to the items that span one alone.
fn fit_each(rows: &mut [Row], singles: &[Single])
    requires { length singles.now ≡ length rows.old }
    ensures { rows.new ≡ zipped fit_single rows.old singles.now }
{
    for (place, row) in rows.iter_mut().enumerate() {
        fit_single(row, &singles[place]);
    }
}

/// Whether some item spans one track.
fn some_single(items: &[Item]) -> bool
    ensures { result ≡ list_any is_single items.now }
{
    for item in items {
        if is_single(item) {
            return true;
        }
    }
    false
}

#[tactic(auto, using(crate::proofs::Unspanned::items_idle))]
/// Whether all items surely give nothing.
fn are_idle(gap: Lu, items: &[Item]) -> bool
    ensures { result ≡ true → AreQuietItems gap items.now }
{
    for item in items {
        if !is_idle(gap, item) {
            return false;
        }
    }
    true
}

#[tactic(auto, using(crate::proofs::Unspanned::as_it_was))]
/// Fits the track to no item: its growth limit is not below its base size. A flexible track is left as it is.
fn fit_none(row: &mut Row)
    ensures { row.new ≡ fit_none row.old }
{
    if flexible(row) {
        return;
    }
    match row.limit() {
        Some(limit) => row.fit(row.base(), Some(longer(row.base(), limit))),
        None => {}
    }
}

#[tactic(auto, using(crate::proofs::Loops::changing))]
/// Fits each track to no item.
fn fit_to_none(rows: &mut [Row])
    ensures { rows.new ≡ map fit_none rows.old }
{
    for row in rows.iter_mut() {
        fit_none(row);
    }
}

/// Fits the tracks to the items that span one alone. Answers whether the items surely give nothing to more tracks.
pub fn fit_alone<const AXIS: u8>(
    alloc: Global,
    space: &Space<AXIS>,
    gap: Lu,
    first: Wide,
    items: &[Item],
    rows: &mut [Row],
) -> Result<bool, NoMemory>
    requires few { length rows.old < 2 ^ 32 }
    requires set { AreSet first rows.old }
    requires items { AreIn first (length rows.old) items.now }
    ensures rows { OnOk result (rows.new ≡ fit_alone space.now gap items.now rows.old) }
    ensures quiet { IfOk result (λ quiet. quiet ≡ true → AreQuietItems gap items.now) }
{
    if !some_single(items) {
        fit_to_none(rows);
        return Ok(are_idle(gap, items));
    }
    let mut singles = no_singles(alloc, rows)?;
    let quiet = count_items(space, gap, first, rows, items, &mut singles);
    fit_each(rows, &singles);
    Ok(quiet)
}
