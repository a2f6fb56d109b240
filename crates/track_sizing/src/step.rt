//! What one item gives its tracks in one step of distribution (modelled after CSS Grid 2, 12.5.1; own rule as a whole).

ghost use Rattle.std.specs.Prelude.{◌≡◌, ◌<◌, ◌^◌, ◌≤ℤ◌, ◌<ℤ◌, length, map, pos};
ghost use Rattle.std.specs.List.{list_any};
ghost use Rattle.lunit.specs.Units.{top};
ghost use Rattle.part_rules.specs.Tracks.{plan};
ghost use Rattle.track_sizing.specs.Here.{AreQuiet, base_given_of, base_planned_of, last_of, limit_given_of, limit_planned_of, open_of};
ghost use Rattle.track_sizing.specs.Placed.{AreReady};

use crate::factors::give_by_factors;
use crate::item::{Asks, asked, base_sum, limit_sum, needed};
use crate::kinds::{Affected, Kind, some_affected};
use crate::numbers::is_nothing;
use crate::rooms::{Rooms, is_open};
use crate::row::Row;
use crate::turn::hand_out_to;
use lunit::{Item, Lu};
use part_rules::Share;

/// A step on base sizes.
#[derive(Clone, Copy)]
pub struct BaseStep {
    pub affected: Affected,
    /// Which of them receive beyond their limits.
    pub receives: Kind,
    pub asks: Asks,
}

/// Whether some track receives without end.
fn some_open(affected: &Affected, receives: &Kind, rows: &[Row]) -> bool
    ensures { result ≡ list_any (open_of affected.now receives.now) rows.now }
{
    for row in rows {
        if is_open(affected, receives, row) {
            return true;
        }
    }
    false
}

/// The last turn of base sizes.
fn last_rooms(affected: &Affected, receives: &Kind, rows: &[Row]) -> Rooms
    ensures { result ≡ last_of affected.now receives.now rows.now }
{
    if some_open(affected, receives, rows) {
        Rooms::Open(*affected, *receives)
    } else {
        Rooms::All(*affected)
    }
}

#[tactic(auto, using(crate::proofs::Loops::changing))]
/// Plans what the item at hand has given: the greatest that one of the items gave.
fn plan_all(rows: &mut [Row])
    ensures { rows.new ≡ map plan rows.old }
{
    for row in rows.iter_mut() {
        *row = row.plan();
    }
}

#[tactic(auto, using(crate::proofs::Given::given))]
/// Gives the space to base sizes: to the affected tracks up to limits, to the other tracks, to the receivers, and last without
/// limit.
fn give_base(step: &BaseStep, space: Lu, rows: &mut [Row], takers: &mut [Share])
    requires few { length rows.old < 2 ^ 32 }
    requires length { length takers.old ≡ length rows.old }
    requires some { pos 0 ≤ℤ space }
    requires most { space ≤ℤ top }
    requires quiet { AreQuiet rows.old }
    ensures { rows.new ≡ base_given_of step.now.affected step.now.receives space rows.old }
{
    if step.affected.crossing {
        give_by_factors(&step.affected, space, rows, takers);
        return;
    }
    let last = last_rooms(&step.affected, &step.receives, rows);
    let second = hand_out_to(&Rooms::ToLimit(step.affected), space, rows, takers);
    let third = hand_out_to(&Rooms::Others(step.affected), second, rows, takers);
    let fourth = hand_out_to(
        &Rooms::ToArgument(step.affected, step.receives),
        third,
        rows,
        takers,
    );
    let _left = hand_out_to(&last, fourth, rows, takers);
}

#[tactic(auto, using(crate::proofs::Given::given))]
/// Gives the space to growth limits: to the affected tracks up to limits, and then to all of them.
fn give_limit(affected: &Affected, second: bool, space: Lu, rows: &mut [Row], takers: &mut [Share])
    requires few { length rows.old < 2 ^ 32 }
    requires length { length takers.old ≡ length rows.old }
    requires some { pos 0 ≤ℤ space }
    requires most { space ≤ℤ top }
    requires quiet { AreQuiet rows.old }
    ensures { rows.new ≡ limit_given_of affected.now second space rows.old }
{
    if affected.crossing {
        give_by_factors(affected, space, rows, takers);
        return;
    }
    let rest = hand_out_to(&Rooms::Rising(*affected, second), space, rows, takers);
    let _left = hand_out_to(&Rooms::ToEnd(*affected, second), rest, rows, takers);
}

#[tactic(auto, using(crate::proofs::Idle::idle))]
/// Plans what the item gives the base sizes of its tracks. Where it needs no space, they stay as they are.
pub fn plan_base(
    step: &BaseStep,
    definite: bool,
    gap: Lu,
    item: &Item,
    rows: &mut [Row],
    takers: &mut [Share],
)
    requires span { item.now.span.start <ℤ item.now.span.end }
    requires few { length rows.old < 2 ^ 32 }
    requires length { length takers.old ≡ length rows.old }
    requires quiet { AreQuiet rows.old }
    requires ready { AreReady rows.old }
    ensures { rows.new ≡
        base_planned_of step.now.affected step.now.receives definite gap step.now.asks item.now
        rows.old }
{
    if !some_affected(&step.affected, rows) {
        return;
    }
    let asked = asked(definite, gap, &step.asks, rows, item);
    let space = needed(gap, asked, base_sum(rows), item);
    if is_nothing(space) {
        return;
    }
    give_base(step, space, rows, takers);
    plan_all(rows);
}

#[tactic(auto, using(crate::proofs::Idle::idle))]
/// Plans what the item gives the growth limits of its tracks. Where it needs no space, they stay as they are.
pub fn plan_limit(
    affected: &Affected,
    second: bool,
    gap: Lu,
    item: &Item,
    rows: &mut [Row],
    takers: &mut [Share],
)
    requires span { item.now.span.start <ℤ item.now.span.end }
    requires few { length rows.old < 2 ^ 32 }
    requires length { length takers.old ≡ length rows.old }
    requires quiet { AreQuiet rows.old }
    requires ready { AreReady rows.old }
    ensures { rows.new ≡ limit_planned_of affected.now second gap item.now rows.old }
{
    if !some_affected(affected, rows) {
        return;
    }
    let asked = if second { item.high } else { item.low };
    let space = needed(gap, asked.wide(), limit_sum(rows), item);
    if is_nothing(space) {
        return;
    }
    give_limit(affected, second, space, rows, takers);
    plan_all(rows);
}
