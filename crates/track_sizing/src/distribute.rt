//! Steps of distribution for a group of items (modelled after CSS Grid 2, 12.5.1; own rule as a whole).

ghost use Rattle.std.specs.Prelude.{◌≡◌, ◌<◌, ◌^◌, ◌≤◌, ◌+ℤ◌, ◌≤ℤ◌, length, map, pos, true};
ghost use Rattle.part_rules.specs.Lists.{zipped};
ghost use Rattle.part_rules.specs.Tracks.{base_distributed, base_planned_by, base_planned_by_all, high_limits, limit_planned_by, limit_planned_by_all, low_limits, raise_limit, raised_base, raised_limit_by};
ghost use Rattle.track_sizing.specs.Groups.{AreAtBase};
ghost use Rattle.track_sizing.specs.Here.{HaveLengths};
ghost use Rattle.track_sizing.specs.Kinds.{affected_of};
ghost use Rattle.track_sizing.specs.Placed.{AreIn, AreSet, IsIn, base_step_of, limit_step_in, marked_limit_by};
ghost use Rattle.track_sizing.specs.Reached.{AllRaised, AllStay, marked_where, raised_where};

use crate::item::{is_idle, span_length};
use crate::kinds::{Affected, Kind, some_affected};
use crate::reach::{is_noted, note_reached};
use crate::row::Row;
use crate::step::{BaseStep, plan_base, plan_limit};
use lunit::{Item, Lu, Wide};
use part_rules::Share;

/// The place of the first track of an item.
pub fn place_of(first: Wide, item: &Item) -> usize
    requires after { first ≤ℤ item.now.span.start }
    requires near { item.now.span.start ≤ℤ (first +ℤ pos (2 ^ 32)) }
    ensures { item.now.span.start ≡ first +ℤ pos result }
{
    (i64::from(item.span.start) - first.units()) as usize
}

#[tactic(auto, using(crate::proofs::Still::lengths))]
/// Reads the lengths of the tracks once: none of them is below 0, so an item that asks for nothing needs no space.
fn read_lengths(rows: &[Row])
    ensures { HaveLengths rows.now }
{
    for row in rows {
        let _base = row.base();
        let _limit = row.limit_or_base();
    }
}

#[tactic(auto, using(crate::proofs::Groups::mine))]
/// Plans what an item gives the base sizes of its tracks, which are some of these. Where it asks for nothing, they stay as they are.
fn plan_base_at(
    step: &BaseStep,
    definite: bool,
    gap: Lu,
    first: Wide,
    item: &Item,
    rows: &mut [Row],
    takers: &mut [Share],
)
    requires few { length rows.old < 2 ^ 32 }
    requires length { length takers.old ≡ length rows.old }
    requires set { AreSet first rows.old }
    requires item { IsIn first (length rows.old) item.now }
    requires lengths { HaveLengths rows.old }
    ensures rows { rows.new ≡
        base_planned_by
        (base_step_of step.now.affected step.now.receives definite gap step.now.asks) gap
        rows.old item.now }
    ensures set { AreSet first rows.new }
    ensures lengths { HaveLengths rows.new }
{
    if is_idle(gap, item) {
        return;
    }
    let start = place_of(first, item);
    let tracks = span_length(item) as usize;
    let (_before, rest) = rows.split_at_mut(start);
    let (mine, _behind) = rest.split_at_mut(tracks);
    let (takers, _others) = takers.split_at_mut(tracks);
    plan_base(step, definite, gap, item, mine, takers);
}

#[tactic(auto, using(crate::proofs::Idle::unplanned))]
/// Plans what each item of the group gives base sizes.
fn plan_bases(
    step: &BaseStep,
    definite: bool,
    gap: Lu,
    first: Wide,
    items: &[Item],
    rows: &mut [Row],
    takers: &mut [Share],
)
    requires few { length rows.old < 2 ^ 32 }
    requires length { length takers.old ≡ length rows.old }
    requires set { AreSet first rows.old }
    requires items { AreIn first (length rows.old) items.now }
    ensures rows { rows.new ≡
        base_planned_by_all
        (base_step_of step.now.affected step.now.receives definite gap step.now.asks) gap
        items.now rows.old }
    ensures set { AreSet first rows.new }
{
    if !some_affected(&step.affected, rows) {
        return;
    }
    read_lengths(rows);
    for item in items {
        plan_base_at(step, definite, gap, first, item, rows, takers);
    }
}

#[tactic(auto, using(crate::proofs::Loops::changing))]
/// Raises each base size by its planned increase.
fn raise_bases(rows: &mut [Row])
    ensures { rows.new ≡ map raised_base rows.old }
{
    for row in rows.iter_mut() {
        *row = row.raised_base();
    }
}

#[tactic(auto, using(crate::proofs::Loops::changing))]
/// Raises growth limits below base sizes to them.
fn raise_each_limit(rows: &mut [Row])
    ensures { rows.new ≡ map raise_limit rows.old }
{
    for row in rows.iter_mut() {
        *row = row.raise_limit();
    }
}

/// Raises growth limits below base sizes to them.
pub fn raise_limits_to_bases(first: Wide, rows: &mut [Row])
    requires { AreSet first rows.old }
    ensures rows { rows.new ≡ map raise_limit rows.old }
    ensures set { AreSet first rows.new }
{
    raise_each_limit(rows);
}

/// One step on base sizes.
pub fn distribute_bases(
    step: &BaseStep,
    definite: bool,
    gap: Lu,
    first: Wide,
    items: &[Item],
    rows: &mut [Row],
    takers: &mut [Share],
)
    requires few { length rows.old < 2 ^ 32 }
    requires length { length takers.old ≡ length rows.old }
    requires set { AreSet first rows.old }
    requires items { AreIn first (length rows.old) items.now }
    ensures rows { rows.new ≡
        base_distributed
        (base_step_of step.now.affected step.now.receives definite gap step.now.asks) gap
        items.now rows.old }
    ensures set { AreSet first rows.new }
    ensures raised { AreAtBase rows.new }
{
    plan_bases(step, definite, gap, first, items, rows, takers);
    raise_bases(rows);
}

/// One step more on base sizes, which raises none where it affects no track.
pub fn distribute_more_bases(
    step: &BaseStep,
    definite: bool,
    gap: Lu,
    first: Wide,
    items: &[Item],
    rows: &mut [Row],
    takers: &mut [Share],
)
    requires few { length rows.old < 2 ^ 32 }
    requires length { length takers.old ≡ length rows.old }
    requires set { AreSet first rows.old }
    requires raised { AreAtBase rows.old }
    requires items { AreIn first (length rows.old) items.now }
    ensures rows { rows.new ≡
        base_distributed
        (base_step_of step.now.affected step.now.receives definite gap step.now.asks) gap
        items.now rows.old }
    ensures set { AreSet first rows.new }
    ensures raised { AreAtBase rows.new }
{
    if !some_affected(&step.affected, rows) {
        return;
    }
    distribute_bases(step, definite, gap, first, items, rows, takers);
}

#[tactic(auto, using(crate::proofs::Groups::mine))]
/// Plans what an item gives the growth limits of its tracks, which are some of these. Where it asks for nothing, they stay as they
/// are.
fn plan_limit_at(
    affected: &Affected,
    second: bool,
    gap: Lu,
    first: Wide,
    item: &Item,
    rows: &mut [Row],
    takers: &mut [Share],
)
    requires few { length rows.old < 2 ^ 32 }
    requires length { length takers.old ≡ length rows.old }
    requires set { AreSet first rows.old }
    requires item { IsIn first (length rows.old) item.now }
    requires lengths { HaveLengths rows.old }
    ensures rows { rows.new ≡
        limit_planned_by (limit_step_in affected.now second) gap rows.old item.now }
    ensures set { AreSet first rows.new }
    ensures lengths { HaveLengths rows.new }
{
    if is_idle(gap, item) {
        return;
    }
    let start = place_of(first, item);
    let tracks = span_length(item) as usize;
    let (_before, rest) = rows.split_at_mut(start);
    let (mine, _behind) = rest.split_at_mut(tracks);
    let (takers, _others) = takers.split_at_mut(tracks);
    plan_limit(affected, second, gap, item, mine, takers);
}

#[tactic(auto, using(crate::proofs::Idle::unplanned))]
/// Plans what each item of the group gives growth limits.
fn plan_limits(
    affected: &Affected,
    second: bool,
    gap: Lu,
    first: Wide,
    items: &[Item],
    rows: &mut [Row],
    takers: &mut [Share],
)
    requires few { length rows.old < 2 ^ 32 }
    requires length { length takers.old ≡ length rows.old }
    requires set { AreSet first rows.old }
    requires items { AreIn first (length rows.old) items.now }
    ensures rows { rows.new ≡
        limit_planned_by_all (limit_step_in affected.now second) gap items.now rows.old }
    ensures set { AreSet first rows.new }
{
    if !some_affected(affected, rows) {
        return;
    }
    read_lengths(rows);
    for item in items {
        plan_limit_at(affected, second, gap, first, item, rows, takers);
    }
}

/// Raises the growth limit in place, where it is noted.
fn raise_where(row: &mut Row, note: &Share)
    ensures { row.new ≡ raised_where row.old note.now }
{
    if is_noted(note) {
        row.raise_planned();
    }
}

/// Raises the growth limit in place, where it is noted, and sets the mark for the next step:
/// infinitely growable where the growth limit had no end and has one now.
fn mark_where(row: &mut Row, note: &Share)
    ensures { row.new ≡ marked_where row.old note.now }
{
    let had_none = row.limit().is_none();
    raise_where(row, note);
    row.mark(had_none && row.limit().is_some());
}

#[tactic(auto, using(crate::proofs::Loops::zipping))]
/// Raises the growth limits that are noted.
fn raise_noted(rows: &mut [Row], notes: &[Share])
    requires { length notes.now ≡ length rows.old }
    ensures { rows.new ≡ zipped raised_where rows.old notes.now }
{
    for (place, row) in rows.iter_mut().enumerate() {
        raise_where(row, &notes[place]);
    }
}

#[tactic(auto, using(crate::proofs::Loops::zipping))]
/// Raises the growth limits that are noted, with the marks for the next step.
fn raise_and_mark_noted(rows: &mut [Row], notes: &[Share])
    requires { length notes.now ≡ length rows.old }
    ensures { rows.new ≡ zipped marked_where rows.old notes.now }
{
    for (place, row) in rows.iter_mut().enumerate() {
        mark_where(row, &notes[place]);
    }
}

#[tactic(auto, using(crate::proofs::Staying::rows_stay))]
/// Whether all tracks surely stay as they are where growth limits are raised and marked.
fn all_stay(rows: &[Row]) -> bool
    ensures { result ≡ true → AllStay rows.now }
{
    for row in rows {
        if !row.stays() {
            return false;
        }
    }
    true
}

#[tactic(auto, using(crate::proofs::Staying::rows_raised))]
/// Whether all tracks surely stay as they are where growth limits are raised.
fn all_raised(rows: &[Row]) -> bool
    ensures { result ≡ true → AllRaised rows.now }
{
    for row in rows {
        if !row.is_raised() {
            return false;
        }
    }
    true
}

#[tactic(auto, using(crate::proofs::Noted::reaches, crate::proofs::Staying::limits_stay))]
/// Raises the growth limits that some item reaches, with the marks for the next step.
fn raise_marked_limits(
    affected: &Affected,
    first: Wide,
    items: &[Item],
    rows: &mut [Row],
    notes: &mut [Share],
)
    requires few { length rows.old < 2 ^ 32 }
    requires length { length notes.old ≡ length rows.old }
    requires set { AreSet first rows.old }
    requires items { AreIn first (length rows.old) items.now }
    ensures { rows.new ≡ map (marked_limit_by (affected_of affected.now) items.now) rows.old }
{
    if all_stay(rows) {
        return;
    }
    note_reached(affected, first, items, rows, notes);
    raise_and_mark_noted(rows, notes);
}

#[tactic(auto, using(crate::proofs::Noted::reaches, crate::proofs::Staying::limits_raised))]
/// Raises the growth limits that some item reaches.
fn raise_limits(
    affected: &Affected,
    first: Wide,
    items: &[Item],
    rows: &mut [Row],
    notes: &mut [Share],
)
    requires few { length rows.old < 2 ^ 32 }
    requires length { length notes.old ≡ length rows.old }
    requires set { AreSet first rows.old }
    requires items { AreIn first (length rows.old) items.now }
    ensures { rows.new ≡ map (raised_limit_by (affected_of affected.now) items.now) rows.old }
{
    if all_raised(rows) {
        return;
    }
    note_reached(affected, first, items, rows, notes);
    raise_noted(rows, notes);
}

#[tactic(auto, using(crate::proofs::Limits::limits))]
/// The step on growth limits for min-content contributions.
pub fn distribute_low_limits(
    crossing: bool,
    gap: Lu,
    first: Wide,
    items: &[Item],
    rows: &mut [Row],
    takers: &mut [Share],
)
    requires few { length rows.old < 2 ^ 32 }
    requires length { length takers.old ≡ length rows.old }
    requires set { AreSet first rows.old }
    requires items { AreIn first (length rows.old) items.now }
    ensures rows { rows.new ≡ low_limits crossing gap items.now rows.old }
    ensures set { AreSet first rows.new }
{
    let affected = Affected {
        kind: Kind::IntrinsicMost,
        crossing,
    };
    plan_limits(&affected, false, gap, first, items, rows, takers);
    raise_marked_limits(&affected, first, items, rows, takers);
}

#[tactic(auto, using(crate::proofs::Limits::limits))]
/// The step on growth limits for max-content contributions.
pub fn distribute_high_limits(
    crossing: bool,
    gap: Lu,
    first: Wide,
    items: &[Item],
    rows: &mut [Row],
    takers: &mut [Share],
)
    requires few { length rows.old < 2 ^ 32 }
    requires length { length takers.old ≡ length rows.old }
    requires set { AreSet first rows.old }
    requires items { AreIn first (length rows.old) items.now }
    ensures rows { rows.new ≡ high_limits crossing gap items.now rows.old }
    ensures set { AreSet first rows.new }
{
    let affected = Affected {
        kind: Kind::MaxContentMost,
        crossing,
    };
    plan_limits(&affected, true, gap, first, items, rows, takers);
    raise_limits(&affected, first, items, rows, takers);
}
