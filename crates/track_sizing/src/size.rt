//! The sizes of the tracks of one axis (CSS Grid 2, 12.3).

ghost use Rattle.std.specs.Prelude.{◌≡◌, ◌<◌, ◌+◌, ◌^◌, ◌≤ℤ◌, IfOk, OnOk, length, map, pos, true};
ghost use Rattle.part_rules.specs.Tracks.{Track, counted_rule, initialised, track_sizes};
ghost use Rattle.track_sizing.specs.Again.{AreToLast, DoLast};
ghost use Rattle.track_sizing.specs.Fits.{HaveFixed, IsFixed, IsKnownSpace, IsStart, collapsed_rule};
ghost use Rattle.track_sizing.specs.Placed.{AreIn, AreSet};
ghost use Rattle.track_sizing.specs.Whole.{rest_given, sizes_from};

use crate::content::size_content;
use crate::flex::flex;
use crate::lasting::{Lasting, are_ordered, is_unbound};
use crate::rest::{maximise, stretch};
use crate::row::Row;
use lunit::{Item, Lu, NoMemory, Steps, Wide};
use part_rules::{Fit, Least, Most, Rule, Share};
use std::alloc::Global;
use std::sync::ledger::Ledger;

#[tactic(auto, unfolding(lunit::specs::Units::clamp))]
/// How a collapsed track is sized: as one of the fixed size 0 (CSS Grid 2, 7.2.3.2).
fn collapsed_rule() -> Rule
    ensures { result ≡ collapsed_rule }
{
    Rule {
        least: Least::Fixed(Lu::of(0)),
        most: Most::Fixed(Lu::of(0)),
        collapsed: true,
    }
}

#[tactic(auto, using(crate::proofs::Initial::counting))]
/// How a track is sized, given how a collapsed one is.
fn counted_rule<'a>(rule: &'a Rule, collapsed: &'a Rule) -> &'a Rule
    requires fixed { IsFixed rule.now }
    requires collapsed { collapsed.now ≡ collapsed_rule }
    ensures value { result.now ≡ counted_rule rule.now }
    ensures fixed { IsFixed result.now }
{
    if rule.collapsed { collapsed } else { rule }
}

#[tactic(auto, using(crate::proofs::Initial::started))]
/// The tracks before they are sized (CSS Grid 2, 12.4).
fn initialise(alloc: Global, first: Wide, rules: &[Rule]) -> Result<Vec<Row>, NoMemory>
    requires few { length rules.now < 2 ^ 32 }
    requires first { IsStart first }
    requires fixed { HaveFixed rules.now }
    ensures { IfOk result (λ rows. rows.items ≡ initialised first rules.now) }
{
    let mut rows = Vec::with_capacity(alloc, rules.len())?;
    let collapsed = collapsed_rule();
    let mut at = first;
    for rule in rules {
        rows.push(Row::initial(at, counted_rule(rule, &collapsed)))?;
        at = at + Wide::of(1);
    }
    Ok(rows)
}

/// A row for each track, to hand a space out.
fn takers_for(alloc: Global, rows: &[Row]) -> Result<Vec<Share>, NoMemory>
    ensures { IfOk result (λ takers. length takers.items ≡ length rows.now) }
{
    let none = Share {
        room: None,
        got: Lu::of(0),
    };
    Ok(vec![in alloc; none; rows.len()]?)
}

#[tactic(auto, using(crate::proofs::Loops::filling))]
/// Writes the base sizes.
fn write_bases(rows: &[Row], sizes: &mut [Lu])
    requires { length sizes.old ≡ length rows.now }
    ensures { sizes.new ≡ map (λ (t : Track). t.base) rows.now }
{
    for (place, size) in sizes.iter_mut().enumerate() {
        *size = rows[place].base();
    }
}

/// The base sizes.
fn base_sizes(alloc: Global, rows: &[Row]) -> Result<Vec<Lu>, NoMemory>
    ensures { IfOk result (λ sizes. sizes.items ≡ map (λ (t : Track). t.base) rows.now) }
{
    let mut sizes = vec![in alloc; Lu::of(0); rows.len()]?;
    write_bases(rows, &mut sizes);
    Ok(sizes)
}

#[tactic(auto, using(crate::proofs::Sized::rest_is))]
/// Gives the rest of the space, once the tracks are sized for their items (CSS Grid 2, 12.6 to 12.8).
fn give_rest<const AXIS: u8>(
    alloc: Global,
    fit: &Fit<AXIS>,
    first: Wide,
    items: &[Item],
    rows: &mut [Row],
    takers: &mut [Share],
) -> Result<(), NoMemory>
    requires few { length rows.old < 2 ^ 32 }
    requires length { length takers.old ≡ length rows.old }
    requires gap { pos 0 ≤ℤ fit.now.gap }
    requires space { IsKnownSpace fit.now.space }
    requires set { AreSet first rows.old }
    requires items { AreIn first (length rows.old) items.now }
    ensures { OnOk result (rows.new ≡ rest_given fit.now items.now rows.old) }
{
    maximise(&fit.space, fit.max, fit.gap, rows, takers);
    flex(alloc, fit, first, items, rows)?;
    stretch(fit, rows, takers);
    Ok(())
}

/// The sizes of tracks that are initialised, once they are sized.
fn sizes_from<const AXIS: u8>(
    alloc: Global,
    fit: &Fit<AXIS>,
    first: Wide,
    items: &[Item],
    rows: &mut [Row],
) -> Result<Vec<Lu>, NoMemory>
    requires few { length rows.old < 2 ^ 32 }
    requires gap { pos 0 ≤ℤ fit.now.gap }
    requires space { IsKnownSpace fit.now.space }
    requires set { AreSet first rows.old }
    requires items { AreIn first (length rows.old) items.now }
    ensures { IfOk result (λ sizes. sizes.items ≡ sizes_from fit.now items.now rows.old) }
{
    let mut takers = takers_for(alloc, rows)?;
    size_content(alloc, &fit.space, fit.gap, first, items, rows, &mut takers)?;
    give_rest(alloc, fit, first, items, rows, &mut takers)?;
    base_sizes(alloc, rows)
}

/// The sizes of tracks that are initialised, once they are sized, and whether they last.
fn lasting_from<const AXIS: u8>(
    alloc: Global,
    fit: &Fit<AXIS>,
    first: Wide,
    items: &[Item],
    rows: &mut [Row],
) -> Result<Lasting, NoMemory>
    requires few { length rows.old < 2 ^ 32 }
    requires gap { pos 0 ≤ℤ fit.now.gap }
    requires space { IsKnownSpace fit.now.space }
    requires set { AreSet first rows.old }
    requires items { AreIn first (length rows.old) items.now }
    ensures sizes { IfOk result (λ made. made.sizes.items ≡ sizes_from fit.now items.now rows.old) }
    ensures lasting { IfOk result
        (λ made. made.lasting ≡ true → AreToLast fit.now items.now rows.old) }
{
    let mut takers = takers_for(alloc, rows)?;
    let untouched = size_content(alloc, &fit.space, fit.gap, first, items, rows, &mut takers)?;
    let lasting = untouched && is_unbound(fit, rows) && are_ordered(items);
    give_rest(alloc, fit, first, items, rows, &mut takers)?;
    Ok(Lasting {
        sizes: base_sizes(alloc, rows)?,
        lasting,
    })
}

/// The sizes of the tracks of one axis, in their order (CSS Grid 2, 12.3). `first` is the coordinate of the first track. The
/// lengths are in units of 1/64 px. `NoMemory` where memory is wanting. Each call makes one step.
///
/// There are fewer than 2^32 tracks, each item spans some of them and no others, the gap and each fixed min function are at least
/// 0, and a definite space has a magnitude of at most 2^30.
pub fn size_axis<const AXIS: u8, L: Ledger>(
    alloc: Global,
    rules: &[Rule],
    first: i32,
    items: &[Item],
    fit: &Fit<AXIS>,
    passes: &mut Steps<L>,
) -> Result<Vec<Lu>, NoMemory>
    requires few { length rules.now < 2 ^ 32 }
    requires fixed { HaveFixed rules.now }
    requires gap { pos 0 ≤ℤ fit.now.gap }
    requires space { IsKnownSpace fit.now.space }
    requires items { AreIn first (length rules.now) items.now }
    ensures sizes { IfOk result
        (λ sizes. sizes.items ≡ track_sizes rules.now first items.now fit.now) }
    ensures step { passes.new ≡ passes.old + 1 }
{
    passes.tick();
    let first = Wide::of(i128::from(first));
    let mut rows = initialise(alloc, first, rules)?;
    sizes_from(alloc, fit, first, items, &mut rows)
}

/// The sizes of the tracks of one axis, as `size_axis` gives them, and whether they last: whether
/// the tracks surely have these sizes for their own total as a definite space too, where that total
/// is a length. They last where the space is max-content, declared lengths do not bind the total,
/// no track is flexible, no min-content contribution is above the max-content contribution, and
/// items of two tracks or more ask for nothing.
pub fn size_axis_lasting<const AXIS: u8, L: Ledger>(
    alloc: Global,
    rules: &[Rule],
    first: i32,
    items: &[Item],
    fit: &Fit<AXIS>,
    passes: &mut Steps<L>,
) -> Result<Lasting, NoMemory>
    requires few { length rules.now < 2 ^ 32 }
    requires fixed { HaveFixed rules.now }
    requires gap { pos 0 ≤ℤ fit.now.gap }
    requires space { IsKnownSpace fit.now.space }
    requires items { AreIn first (length rules.now) items.now }
    ensures sizes { IfOk result
        (λ made. made.sizes.items ≡ track_sizes rules.now first items.now fit.now) }
    ensures step { passes.new ≡ passes.old + 1 }
    ensures lasting { IfOk result
        (λ made. made.lasting ≡ true → DoLast rules.now first items.now fit.now made.sizes.items) }
{
    passes.tick();
    let first = Wide::of(i128::from(first));
    let mut rows = initialise(alloc, first, rules)?;
    lasting_from(alloc, fit, first, items, &mut rows)
}
