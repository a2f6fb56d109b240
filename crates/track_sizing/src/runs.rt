//! Items in the order of how many tracks they span, and runs of those that span as many.

ghost use Rattle.std.specs.Prelude.{◌≡◌, ◌≤◌, IfOk, filter, length, true};
ghost use Rattle.part_rules.specs.Tracks.{span_length};
ghost use Rattle.track_sizing.specs.Ordered.{AreFrom, AreRising, IsInOrder, IsRun, has};
ghost use Rattle.track_sizing.specs.Spans.{is_wide};

use lunit::{Item, NoMemory, Wide};
use std::alloc::Global;

/// How many tracks an item spans.
fn tracks_of(item: &Item) -> i64
    ensures { result ≡ span_length item.now }
{
    i64::from(item.span.end) - i64::from(item.span.start)
}

/// Whether an item spans two tracks or more.
pub fn is_wide(item: &Item) -> bool
    ensures { result ≡ is_wide item.now }
{
    1 < tracks_of(item)
}

#[tactic(auto, using(crate::proofs::Kept::filtered))]
/// The items that span two tracks or more.
pub fn wide_items(alloc: Global, items: &[Item]) -> Result<Vec<Item>, NoMemory>
    ensures { IfOk result (λ wide. wide.items ≡ filter is_wide items.now) }
{
    let mut wide = Vec::new(alloc);
    for item in items {
        if is_wide(item) {
            wide.push(*item)?;
        }
    }
    Ok(wide)
}

/// How many tracks an item spans, as a number without end.
fn tracks(item: &Item) -> Wide
    ensures { result ≡ span_length item.now }
{
    Wide::of(i128::from(tracks_of(item)))
}

#[tactic(auto, using(crate::proofs::Order::rising))]
/// Whether no item spans fewer tracks than one before it.
fn are_rising(items: &[Item]) -> bool
    ensures { result ≡ true → AreRising items.now }
{
    let mut least = Wide::of(0);
    for item in items {
        let next = tracks(item);
        if next < least {
            return false;
        }
        least = next;
    }
    true
}

#[tactic(auto, using(crate::proofs::Order::as_they_were))]
/// The items in the order of how many tracks they span; those that span as many stay in the order that they have.
pub fn by_tracks(alloc: Global, items: &[Item]) -> Result<Vec<Item>, NoMemory>
    ensures { IfOk result (λ sorted. IsInOrder items.now sorted.items) }
{
    let mut sorted = Vec::from_slice(alloc, items)?;
    if are_rising(&sorted) {
        return Ok(sorted);
    }
    sorted.sort_by_key(|item| tracks_of(item))?;
    Ok(sorted)
}

#[tactic(auto, using(crate::proofs::Order::runs))]
/// How many items stand first that span so many tracks, where none spans fewer.
pub fn run_length(number: Wide, items: &[Item]) -> usize
    requires rising { AreRising items.now }
    requires from { AreFrom number items.now }
    ensures fits { result ≤ length items.now }
    ensures run { IsRun number items.now result }
{
    let mut count = 0;
    while count < items.len() && has(number, &items[count]) {
        count += 1;
    }
    count
}

/// Whether an item spans so many tracks.
pub fn has(number: Wide, item: &Item) -> bool
    ensures { result ≡ has number item.now }
{
    tracks(item) == number
}
