//! The main sizes of the items of the lines.

ghost use Rattle.std.specs.Prelude.{◌≡◌, ◌↔◌, ◌++◌, [], true, IsTrue, OnOk, ◌<◌, ◌^◌, ◌+◌, ◌≤ℤ◌, int_lt, length, map, pos, slice_range, IfOk};
ghost use Rattle.std.specs.List.{All};
ghost use Rattle.part_rules.specs.FlexLines.{begin, free_space, grows, line_length, line_sizes, main_sizes, outer_hypothetical, outer_now};
ghost use Rattle.part_rules.specs.Lists.{sum_of};
ghost use Rattle.flex_lines.specs.Filling.{AreSized};
ghost use Rattle.flex_lines.specs.Lines.{AreRanges, IsRange};
ghost use Rattle.flex_lines.specs.Ranges.{ArePlaced, IsSize, IsSum, IsTaken};
ghost use Rattle.flex_lines.specs.Rounds.{pieces, round_sizes, space_left, IsKeptOf, IsRoundOf};

use crate::compare::{is_less, is_same, units};
use crate::flexible::{Flexible, first_flexible, first_held, first_sizes};
use crate::full::{are_sized, bases_of};
use crate::limits::outer_hypothetical;
use crate::round::{change_of, left, newly_held, settle, try_sizes};
use crate::space::{gaps, space_given, space_left, sums_of};
use lunit::{Along, Lu, NoMemory, Steps, Wide};
use part_rules::FlexItem;
use std::alloc::Global;
use std::sync::ledger::Ledger;

/// How the items of a line change their sizes.
#[derive(Clone, Copy)]
struct Line {
    grow: bool,
    main: Wide,
    initial: Lu,
}

/// What is kept of a line while it is resolved: its items that are not frozen, what the gaps and the frozen items take of the
/// main size, and the sizes so far.
#[derive(Drop)]
struct Kept {
    flexible: Vec<Flexible>,
    taken: Wide,
    sizes: Vec<Lu>,
}

/// The outer hypothetical sizes of a line and the gaps between them.
fn line_length(gap: Lu, items: &[FlexItem]) -> Wide
    ensures { result ≡ line_length gap items.now }
{
    let mut sum = units(0);
    for item in items {
        sum = sum + outer_hypothetical(item);
    }
    sum + gaps(gap, items.len())
}

/// Whether the items of a line grow, else they shrink (CSS Flexbox 1, 9.7, step 1).
fn grows(main: Wide, gap: Lu, items: &[FlexItem]) -> bool
    ensures { result ≡ grows main gap items.now }
{
    is_less(line_length(gap, items), main)
}

/// Whether the items of a line fill it just as they are, and their limits leave their base sizes so.
fn is_full(main: Wide, gap: Lu, items: &[FlexItem]) -> bool
    ensures main { result ≡ true → line_length gap items.now ≡ main }
    ensures sized { result ≡ true → AreSized items.now }
{
    if !is_same(line_length(gap, items), main) {
        return false;
    }
    are_sized(items)
}

/// A line as it begins.
fn begin(alloc: Global, grow: bool, gap: Lu, items: &[FlexItem]) -> Result<Kept, NoMemory>
    requires { length items.now < 2 ^ 32 }
    ensures kept { IfOk result
        (λ kept. IsKeptOf gap (map (begin grow) items.now) kept.flexible.items kept.taken
        kept.sizes.items) }
    ensures range { IfOk result (λ kept. IsTaken 0 kept.taken) }
{
    let flexible = first_flexible(alloc, grow, items)?;
    let sizes = first_sizes(alloc, grow, items)?;
    Ok(Kept {
        flexible,
        taken: gaps(gap, items.len()) + first_held(grow, items),
        sizes,
    })
}

/// The space that a line has at first.
fn initial_space(grow: bool, main: Wide, kept: &Kept) -> Lu
    requires few { length kept.now.flexible.items < 2 ^ 32 }
    requires main { IsSum main }
    requires taken { IsSum kept.now.taken }
    ensures value { result ≡
        space_left grow main kept.now.taken
        (sum_of (map outer_now (pieces kept.now.flexible.items))) }
    ensures some { pos 0 ≤ℤ result }
{
    let sums = sums_of(grow, &kept.flexible);
    space_left(grow, main, kept.taken, sums.outer)
}

/// The sizes that the items which are not frozen have with the space that they are given.
fn trials(
    alloc: Global,
    line: &Line,
    taken: Wide,
    flexible: &[Flexible],
) -> Result<Vec<Wide>, NoMemory>
    requires few { length flexible.now < 2 ^ 32 }
    requires main { IsSum line.now.main }
    requires initial { pos 0 ≤ℤ line.now.initial }
    requires taken { IsSum taken }
    ensures value { IfOk result
        (λ sizes. sizes.items ≡
        round_sizes line.now.grow line.now.main line.now.initial taken flexible.now) }
    ensures length { IfOk result (λ sizes. length sizes.items ≡ length flexible.now) }
    ensures range { IfOk result (λ sizes. All IsSize sizes.items) }
{
    let sums = sums_of(line.grow, flexible);
    let whole = space_left(line.grow, line.main, taken, sums.outer);
    let space = space_given(line.initial, whole, sums.factors);
    try_sizes(alloc, line.grow, space, sums.weights, flexible)
}

/// A line after one round more, in which sizes are tried and those items are frozen whose limits change them as they change most
/// of the line (CSS Flexbox 1, 9.7, step 4).
fn resolve_round(alloc: Global, line: &Line, kept: Kept) -> Result<Kept, NoMemory>
    requires few { length kept.flexible.items < 2 ^ 32 }
    requires places { ArePlaced (length kept.sizes.items) kept.flexible.items }
    requires main { IsSum line.now.main }
    requires initial { pos 0 ≤ℤ line.now.initial }
    requires taken { IsSum kept.taken }
    ensures { IfOk result
        (λ next. IsRoundOf line.now.grow line.now.main line.now.initial kept.flexible.items
        kept.taken kept.sizes.items next.flexible.items next.taken next.sizes.items) }
{
    let Kept {
        flexible,
        taken,
        mut sizes,
    } = kept;
    let trials = trials(alloc, line, taken, &flexible)?;
    let change = change_of(&flexible, &trials);
    settle(change, &flexible, &trials, &mut sizes);
    let held = newly_held(change, &flexible, &trials);
    let rest = left(alloc, change, &flexible, &trials)?;
    Ok(Kept {
        flexible: rest,
        taken: taken + held,
        sizes,
    })
}

/// Whether all items are frozen.
fn is_frozen(kept: &Kept) -> bool
    ensures { IsTrue result ↔ (kept.now.flexible.items ≡ []) }
{
    kept.flexible.as_slice().is_empty()
}

/// The sizes so far.
fn sizes_of(kept: Kept) -> Vec<Lu>
    ensures { result.items ≡ kept.sizes.items }
{
    let Kept { sizes, .. } = kept;
    sizes
}

/// The main sizes of the items of one line (CSS Flexbox 1, 9.7).
///
/// Each round freezes an item, so that there are no more rounds than items; a round goes over the items alone that are not
/// frozen before it. Items that fill the line just as they are keep their base sizes.
fn line_sizes(alloc: Global, main: Wide, gap: Lu, items: &[FlexItem]) -> Result<Vec<Lu>, NoMemory>
    requires few { length items.now < 2 ^ 32 }
    requires main { IsSum main }
    ensures { IfOk result (λ sizes. sizes.items ≡ line_sizes main gap items.now) }
{
    if is_full(main, gap, items) {
        return bases_of(alloc, items);
    }
    let grow = grows(main, gap, items);
    let mut kept = begin(alloc, grow, gap, items)?;
    let initial = initial_space(grow, main, &kept);
    let line = Line {
        grow,
        main,
        initial,
    };
    for _round in 0..items.len() {
        if is_frozen(&kept) {
            return Ok(sizes_of(kept));
        }
        kept = resolve_round(alloc, &line, kept)?;
    }
    Ok(sizes_of(kept))
}

/// The items of a line.
fn items_of<'a>(items: &'a [FlexItem], line: &(usize, usize)) -> &'a [FlexItem]
    requires { IsRange (length items.now) line.now }
    ensures { result.now ≡ slice_range items.now line.now.0 line.now.1 }
{
    &items[line.0..line.1]
}

/// Puts the sizes of a line after those of the lines before it.
fn append(all: &mut Vec<Lu>, more: &[Lu]) -> Result<(), NoMemory>
    ensures { OnOk result (all.new.items ≡ all.old.items ++ more.now) }
{
    all.extend_from_slice(more)?;
    Ok(())
}

/// The main sizes of the items of all lines.
fn all_sizes(
    alloc: Global,
    main: Wide,
    gap: Lu,
    items: &[FlexItem],
    lines: &[(usize, usize)],
) -> Result<Vec<Lu>, NoMemory>
    requires few { length items.now < 2 ^ 32 }
    requires main { IsSum main }
    requires ranges { AreRanges (length items.now) lines.now }
    ensures { IfOk result (λ sizes. sizes.items ≡ main_sizes main gap items.now lines.now) }
{
    let mut all = Vec::with_capacity(alloc, items.len())?;
    for line in lines {
        let sizes = line_sizes(alloc, main, gap, items_of(items, line))?;
        append(&mut all, &sizes)?;
    }
    Ok(all)
}

/// The main sizes of the items of all lines, line after line (CSS Flexbox 1, 9.7). `lines` are ranges of the items, `main` is the
/// main size of the container and `gap` the gap between two items of a line.
///
/// The items grow where their outer hypothetical sizes and the gaps sum to less than the main size, else they shrink. Those whose
/// factor is 0, and those whose limits hold them back, keep their hypothetical sizes. What the line leaves, or what it lacks, is
/// shared by the grow factors, or by the shrink factors times the inner base sizes, in rounds: the items whose limits change the
/// sizes that are tried, in the way in which those of all items together are changed, are frozen at their limits, and the others
/// share anew. Where the factors sum to less than 1, no more than that part of the initial space is shared.
///
/// All lines are resolved in one call, which is one step of `passes`, also where it answers want of memory. `NoMemory` where memory
/// is wanting.
pub fn resolve_lengths<const AXIS: u8, L: Ledger>(
    alloc: Global,
    items: &[FlexItem],
    lines: &[(usize, usize)],
    main: Along<AXIS>,
    gap: Lu,
    passes: &mut Steps<L>,
) -> Result<Vec<Lu>, NoMemory>
    requires few { length items.now < 2 ^ 32 }
    requires ranges { AreRanges (length items.now) lines.now }
    ensures sizes { IfOk result
        (λ sizes. sizes.items ≡ main_sizes main.entry gap items.now lines.now) }
    ensures step { passes.new ≡ passes.old + 1 }
{
    passes.tick();
    all_sizes(alloc, units(main.units()), gap, items, lines)
}
