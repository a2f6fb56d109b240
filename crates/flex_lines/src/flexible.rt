//! The items of a line that are not frozen yet, and the line as it begins.

ghost use Rattle.std.specs.Prelude.{◌≡◌, ◌<◌, ◌^◌, ◌||◌, ◌==◌, int_lt, length, map, pos, IfOk, if◌then◌else◌};
ghost use Rattle.part_rules.specs.FlexLines.{begin, factor_of, hypothetical, is_free, is_inflexible, outer_now, size_of};
ghost use Rattle.flex_lines.specs.Ranges.{IsOuter, IsRound};
ghost use Rattle.flex_lines.specs.Rounds.{flexible_from, held_by};

use crate::compare::{is_less, units};
use crate::limits::{hypothetical, outer_hypothetical};
use lunit::{Lu, NoMemory, Wide};
use part_rules::FlexItem;
use std::alloc::Global;

/// An item that is not frozen, and its place in the line.
#[derive(Clone, Copy)]
pub struct Flexible {
    pub place: usize,
    pub item: FlexItem,
}

/// The grow factor of an item where items grow, else its shrink factor.
pub fn factor_of(grow: bool, item: &FlexItem) -> u32
    ensures { result ≡ factor_of grow item.now }
{
    if grow { item.grow } else { item.shrink }
}

/// Whether the limits of an item hold it against the way in which sizes change.
fn is_held_back(grow: bool, item: &FlexItem) -> bool
    ensures { result ≡
        if grow then int_lt (hypothetical item.now) item.now.base else int_lt item.now.base
        (hypothetical item.now) }
{
    let size = hypothetical(item).wide();
    if grow {
        is_less(size, item.base.wide())
    } else {
        is_less(item.base.wide(), size)
    }
}

/// Whether an item is frozen from the start (CSS Flexbox 1, 9.7, step 2).
fn is_inflexible(grow: bool, item: &FlexItem) -> bool
    ensures { result ≡ is_inflexible grow item.now }
{
    factor_of(grow, item) == 0 || is_held_back(grow, item)
}

/// The items that are not frozen from the start.
pub fn first_flexible(
    alloc: Global,
    grow: bool,
    items: &[FlexItem],
) -> Result<Vec<Flexible>, NoMemory>
    ensures { IfOk result (λ all. all.items ≡ flexible_from 0 (map (begin grow) items.now)) }
{
    let mut all = Vec::with_capacity(alloc, items.len())?;
    for (place, item) in items.iter().enumerate() {
        if is_inflexible(grow, item) {
            continue;
        }
        all.push(Flexible { place, item: *item })?;
    }
    Ok(all)
}

#[tactic(auto, using(crate::proofs::Starts::size_frozen, crate::proofs::Starts::size_free))]
/// The size of an item as the line begins: its hypothetical size where it is frozen, else its base size.
fn first_size(grow: bool, item: &FlexItem) -> Lu
    ensures { result ≡ size_of (begin grow item.now) }
{
    if is_inflexible(grow, item) {
        hypothetical(item)
    } else {
        item.base
    }
}

/// The sizes of the items as the line begins.
pub fn first_sizes(alloc: Global, grow: bool, items: &[FlexItem]) -> Result<Vec<Lu>, NoMemory>
    ensures { IfOk result (λ sizes. sizes.items ≡ map size_of (map (begin grow) items.now)) }
{
    let mut sizes = Vec::with_capacity(alloc, items.len())?;
    for item in items {
        sizes.push(first_size(grow, item))?;
    }
    Ok(sizes)
}

#[tactic(auto, using(crate::proofs::Starts::held_frozen, crate::proofs::Starts::held_free))]
/// What an item takes that is frozen from the start; 0 for another.
fn held_at_first(grow: bool, item: &FlexItem) -> Wide
    ensures value { result ≡
        if is_free (begin grow item.now) then pos 0 else outer_now (begin grow item.now) }
    ensures range { IsOuter result }
{
    if is_inflexible(grow, item) {
        outer_hypothetical(item)
    } else {
        units(0)
    }
}

/// What the items take that are frozen from the start.
pub fn first_held(grow: bool, items: &[FlexItem]) -> Wide
    requires { length items.now < 2 ^ 32 }
    ensures value { result ≡ held_by (map (begin grow) items.now) }
    ensures range { IsRound result }
{
    let mut held = units(0);
    for item in items {
        held = held + held_at_first(grow, item);
    }
    held
}
