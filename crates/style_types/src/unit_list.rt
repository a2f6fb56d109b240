//! The units of the lengths of a value.

ghost use Rattle.std.specs.Prelude.{◌≡◌, ◌+◌, ◌++◌, ◌∷◌, [], slice_get, IfOk, IfSome, OnErr, OnOk};
ghost use Rattle.std.specs.List.{list_all};
ghost use Rattle.style_types.specs.Computed.{are_px, next_length};
ghost use Rattle.style_types.specs.UnitLists.{part_is_px, units_in};
ghost use Rattle.style_types.specs.Units.{is_px};

use crate::unit::Unit;
use lunit::{Copied, Lu, NoMemory, Sequence};
use runs::Runs;
use std::alloc::Global;
use std::marker::Model;

/// The units of the lengths of a value, in their order. Contracts see the list. Those of px at its front are counted, and
/// take no memory; those of parts that stand many times are held once.
#[derive(Drop)]
pub struct UnitList {
    px: u32,
    parts: Runs<Unit>,
    others: Sequence<Unit>,
}

impl Model for UnitList {
    ghost use Rattle.std.specs.Prelude.{List, ◌++◌};
    ghost use Rattle.std.specs.Coded.{coded_list};
    ghost use Rattle.style_types.specs.declared.unit.Unit.{Unit};
    ghost use Rattle.style_types.specs.contracts.unit.Unit as unit;

    ghost Value = { List Unit };

    ghost coded = { coded_list unit.the_row.coded };

    ghost use Rattle.style_types.specs.UnitLists.{units_in};

    ghost view = { λ a. units_in a.px (a.parts ++ a.others) };
}

fn is_px(unit: Unit) -> bool
    ensures { result ≡ is_px unit }
{
    matches!(unit, Unit::Px)
}

fn all_px(units: &[Unit]) -> bool
    ensures { result ≡ are_px units.now }
{
    units.iter().all(|unit| is_px(*unit))
}

/// Whether each unit that a part stands for is px.
fn part_is_px(part: &(u32, Sequence<Unit>)) -> bool
    ensures { result ≡ part_is_px part.now }
{
    part.0 == 0 || all_px(part.1.as_slice())
}

/// Whether each unit of these parts is px.
fn parts_are_px(parts: &[(u32, Sequence<Unit>)]) -> bool
    ensures { result ≡ list_all part_is_px parts.now }
{
    parts.iter().all(|part| part_is_px(part))
}

#[tactic(auto, using(crate::proofs::UnitLists::px_parts))]
/// Whether each unit of a list is px, by its parts.
fn runs_are_px(units: &Runs<Unit>) -> bool
    ensures { result ≡ are_px units.now }
{
    parts_are_px(units.parts())
}

#[tactic(auto, using(crate::proofs::UnitLists::px_written))]
/// So many units of px.
fn px_alone(alloc: Global, count: u32) -> Result<Sequence<Unit>, NoMemory>
    ensures { IfOk result (λ units. units ≡ units_in count []) }
{
    let mut units = Sequence::new(alloc);
    for _unit in 0..count {
        units.push(Unit::Px)?;
    }
    Ok(units)
}

/// These units, and others behind them.
pub(crate) fn with_others(
    units: Sequence<Unit>,
    others: &[Unit],
) -> Result<Sequence<Unit>, NoMemory>
    ensures { IfOk result (λ all. all ≡ units ++ others.now) }
{
    let mut all = units;
    for unit in others {
        all.push(*unit)?;
    }
    Ok(all)
}

/// How many there are in both, where that has room in 32 bits.
fn count_of(parts: usize, others: usize) -> Option<u32>
    ensures { IfSome result (λ count. count ≡ parts + others) }
{
    let all = parts as u128 + others as u128;
    if all > u32::MAX as u128 {
        return None;
    }
    Some(all as u32)
}

impl UnitList {
    /// No units. Takes no memory.
    pub fn new(alloc: Global) -> UnitList
        ensures { result ≡ [] }
    {
        UnitList {
            px: 0,
            parts: Runs::new(alloc),
            others: Sequence::new(alloc),
        }
    }

    /// This unit alone. Takes no memory for px.
    pub fn one(alloc: Global, unit: Unit) -> Result<UnitList, NoMemory>
        ensures { IfOk result (λ units. units ≡ unit ∷ []) }
    {
        let mut units = UnitList::new(alloc);
        units.push(unit)?;
        Ok(units)
    }

    #[tactic(auto, using(crate::proofs::UnitLists::all_counted))]
    /// The units of parts, and others behind them. Where each is px they are counted.
    pub fn listed(alloc: Global, parts: Runs<Unit>, others: Sequence<Unit>) -> UnitList
        ensures { result ≡ parts ++ others }
    {
        if runs_are_px(&parts) && all_px(others.as_slice()) {
            if let Some(px) = count_of(parts.len(), others.len()) {
                return UnitList {
                    px,
                    parts: Runs::new(alloc),
                    others: Sequence::new(alloc),
                };
            }
        }
        UnitList {
            px: 0,
            parts,
            others,
        }
    }

    /// The list of these units.
    pub fn of(alloc: Global, units: Sequence<Unit>) -> UnitList
        ensures { result ≡ units }
    {
        UnitList::listed(alloc, Runs::new(alloc), units)
    }

    #[tactic(auto, using(crate::proofs::UnitLists::adding))]
    /// Adds a unit at the end. Where memory is wanting the units are unchanged.
    pub fn push(&mut self, unit: Unit) -> Result<(), NoMemory>
        ensures ok { OnOk result (self.new ≡ self.old ++ unit ∷ []) }
        ensures err { OnErr result (self.new ≡ self.old) }
    {
        match unit {
            Unit::Px if self.parts.is_empty() && self.others.is_empty() && self.px < u32::MAX => {
                self.px += 1
            }
            other => self.others.push(other)?,
        }
        Ok(())
    }

    #[tactic(auto, using(crate::proofs::UnitLists::px_found))]
    /// Whether each unit is px.
    pub fn are_px(&self) -> bool
        ensures { result ≡ are_px self.now }
    {
        runs_are_px(&self.parts) && all_px(self.others.as_slice())
    }

    /// The parts and the units behind them, where no units of px are counted.
    pub(crate) fn in_parts(&self) -> Option<(&Runs<Unit>, &[Unit])>
        ensures { IfSome result (λ halves. halves.0.now ++ halves.1.now ≡ self.now) }
    {
        if self.px > 0 {
            return None;
        }
        Some((&self.parts, self.others.as_slice()))
    }

    #[tactic(auto, using(crate::proofs::UnitLists::px_written))]
    /// The units, each written out.
    pub fn written(&self, alloc: Global) -> Result<Sequence<Unit>, NoMemory>
        ensures { IfOk result (λ units. units ≡ self.now) }
    {
        let parts = self.parts.written(alloc)?;
        let front = with_others(px_alone(alloc, self.px)?, parts.as_slice())?;
        with_others(front, self.others.as_slice())
    }

    #[tactic(auto, using(crate::proofs::UnitLists::reading))]
    /// The first unit.
    fn first(&self) -> Option<Unit>
        ensures { result ≡ slice_get self.now 0 }
    {
        if self.px > 0 {
            return Some(Unit::Px);
        }
        match self.parts.get(0) {
            Some(unit) => Some(*unit),
            None => self.others.as_slice().first().copied(),
        }
    }

    #[tactic(auto, using(crate::proofs::UnitLists::first_read))]
    /// The length that stands as px with the first unit.
    pub(crate) fn first_length(&self, em: Lu, rem: Lu, px: Lu) -> Lu
        ensures { result ≡ (next_length em rem px self.now).0 }
    {
        match self.first() {
            Some(unit) => unit.length_of(em, rem, px),
            None => px,
        }
    }
}

impl Copied for UnitList {
    fn copy(&self, alloc: Global) -> Result<UnitList, NoMemory> {
        Ok(UnitList {
            px: self.px,
            parts: self.parts.copy(alloc)?,
            others: Sequence::from_slice(alloc, self.others.as_slice())?,
        })
    }
}

/// The units of the lengths of a value that are left. Contracts see the list.
pub(crate) struct Units<'a> {
    left: &'a [Unit],
}

impl<'a> Model for Units<'a> {
    ghost use Rattle.std.specs.Prelude.{List};
    ghost use Rattle.style_types.specs.declared.unit.Unit.{Unit};

    ghost Value = { List Unit };

    ghost view = { λ a. a.left.now };
}

impl<'a> Drop for Units<'a> {
    fn drop(self) {
        let Units { left: _ } = self;
    }
}

impl<'a> Units<'a> {
    pub(crate) fn new(units: &'a [Unit]) -> Units<'a>
        ensures { result ≡ units.now }
    {
        Units { left: units }
    }

    /// The length that stands as px with the next unit.
    pub(crate) fn next_length(&mut self, em: Lu, rem: Lu, px: Lu) -> Lu
        ensures { (result, self.new) ≡ next_length em rem px self.old }
    {
        match self.left.split_first() {
            None => px,
            Some((unit, left)) => {
                self.left = left;
                unit.length_of(em, rem, px)
            }
        }
    }
}
