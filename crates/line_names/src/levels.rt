//! The names that a grid gives to its lines, and those that subgrids below it share.

ghost use Rattle.std.specs.Prelude.{◌≡◌, ◌≤◌, ◌+◌, ◌+ℤ◌, ◌∷◌, ◌≤ℤ◌, ◌||◌, Bool, List, ℕ, length, pos, neg_ℤ, OnOk, IfOk};
ghost use Rattle.std.specs.Str.{bytes_eq};
ghost use Rattle.part_rules.specs.LineNames.{holds_name};
ghost use Rattle.line_names.specs.Indexes.{IsPart};
ghost use Rattle.line_names.specs.LineLists.{listed};
ghost use Rattle.line_names.specs.Levels.{either, found, joined_in, seen_in, told, told_from, within, HoldsLines, IsBelow};
ghost use Rattle.line_names.specs.Passing.{passing};
ghost use Rattle.line_names.specs.SetLists.{sets_of};

use crate::counting::{Base, NamedLines, lines_from, lines_up_to};
use crate::index::NameIndex;
use crate::line_list::{LineList, LinesIn};
use crate::set_list::SetList;
use lunit::{Name, NoMemory, Sequence, Span};
use std::alloc::Global;
use std::marker::Model;
use std::rc::Rc;

/// What one grid has of its own along an axis: of a grid that is no subgrid the sets of its lines have the names by its areas too,
/// of a subgrid they have not, and its index has only the names of its own lines.
#[derive(Drop)]
pub(crate) struct Level {
    pub(crate) sets: SetList,
    pub(crate) areas: Sequence<(Name, Span)>,
    /// The lines of the grid above over which it lies.
    pub(crate) over: Span,
    pub(crate) tracks: u32,
    /// The lines of names, as lines of the topmost grid.
    pub(crate) index: NameIndex,
}

/// A level that is made once, and that all tables below share.
#[derive(Drop)]
pub(crate) struct SharedLevel {
    level: Rc<Level>,
}

impl Model for SharedLevel {
    ghost use Rattle.line_names.specs.declared.levels.Level.{Level};
    ghost use Rattle.line_names.specs.contracts.levels.Level as own_level;

    ghost Value = { Level };

    ghost coded = { own_level.the_row.coded };

    ghost view = { λ a. a.level.value };
}

impl SharedLevel {
    /// This level; `NoMemory` where memory is wanting.
    pub(crate) fn new(alloc: Global, level: Level) -> Result<SharedLevel, NoMemory>
        ensures { IfOk result (λ made. made ≡ level) }
    {
        Ok(SharedLevel {
            level: Rc::new(alloc, level)?,
        })
    }

    /// This level once more. Takes no memory; `NoMemory` only where it is shared more often than can be counted.
    pub(crate) fn again(&self) -> Result<SharedLevel, NoMemory>
        ensures { IfOk result (λ other. other ≡ self.now) }
    {
        Ok(SharedLevel {
            level: self.level.clone()?,
        })
    }

    /// The level.
    pub(crate) fn level(&self) -> &Level
        ensures { result.now ≡ self.now }
    {
        self.level.as_ref()
    }
}

/// These levels, and one before them.
pub(crate) fn with_level(
    alloc: Global,
    level: &SharedLevel,
    levels: &[SharedLevel],
) -> Result<Sequence<SharedLevel>, NoMemory>
    ensures { IfOk result (λ all. all ≡ level.now ∷ levels.now) }
{
    let mut all = Sequence::new(alloc);
    all.push(level.again()?)?;
    for other in levels {
        all.push(other.again()?)?;
    }
    Ok(all)
}

/// The lines of a name in the lowest of these levels that has some.
fn found<'a>(levels: &'a [SharedLevel], name: &Name) -> LinesIn<'a>
    ensures { listed result ≡ found levels.now name.now }
{
    for level in levels {
        let lines = level.level().index.lines_of(name);
        if !lines.is_empty() {
            return lines;
        }
    }
    LinesIn::none()
}

/// Those of these lines that lie in a limit.
fn cut_to<'a>(lines: NamedLines<'a>, limit: Span) -> NamedLines<'a>
    ensures value { told result ≡ within limit.start limit.end (told lines.entry) }
    ensures base { result.base ≡ lines.entry.base }
{
    lines_up_to(
        lines_from(lines, i64::from(limit.start)),
        i64::from(limit.end),
    )
}

/// The lines of a name in the levels above a subgrid that lie in its limit.
fn above_in<'a>(above: &'a [SharedLevel], base: Base, limit: Span, name: &Name) -> NamedLines<'a>
    ensures value { told result ≡
        within limit.start limit.end (told_from base.line (found above.now name.now)) }
    ensures base { result.base ≡ base }
{
    let lines = found(above, name);
    cut_to(NamedLines { lines, base }, limit)
}

/// The lines of a name: those that the index has, or else those of the levels above that lie in the limit.
pub(crate) fn seen<'a>(
    index: &'a NameIndex,
    above: &'a [SharedLevel],
    base: Base,
    limit: Span,
    name: &Name,
) -> NamedLines<'a>
    ensures { told result ≡ seen_in index.now above.now base.line limit.start limit.end name.now }
{
    let lines = index.lines_of(name);
    if lines.is_empty() {
        return above_in(above, base, limit, name);
    }
    NamedLines { lines, base }
}

/// The lines of a subgrid.
pub(crate) fn all_lines(tracks: u32) -> Span
    requires { tracks ≤ 20000 }
    ensures { result ≡ record { start = pos 0; end = pos tracks } }
{
    Span {
        start: 0,
        end: tracks as i32,
    }
}

/// The line of the topmost grid that is line 0 of a subgrid over these lines.
pub(crate) fn base_of(base: Base, span: Span) -> Base
    requires low { neg_ℤ (pos 10000) ≤ℤ (base.line +ℤ span.start) }
    requires high { (base.line +ℤ span.start) ≤ℤ pos 10000 }
    ensures { result.line ≡ base.line +ℤ span.start }
{
    Base {
        line: base.line + span.start,
    }
}

/// A line as one of the topmost grid.
fn line_of(base: Base, line: u32) -> i32
    requires low { neg_ℤ (pos 10000) ≤ℤ base.line }
    requires high { base.line ≤ℤ pos 10000 }
    requires few { line ≤ 20000 }
    ensures { result ≡ base.line +ℤ pos line }
{
    base.line + line as i32
}

/// Whether a line of a subgrid is among these lines of its own, or among those of the levels above.
fn is_either(own: LinesIn, above: LinesIn, base: Base, line: u32) -> bool
    requires low { neg_ℤ (pos 10000) ≤ℤ base.line }
    requires high { base.line ≤ℤ pos 10000 }
    requires few { line ≤ 20000 }
    ensures { result ≡
        either (listed own.entry) (listed above.entry) base.line (base.line +ℤ pos line) }
{
    if own.has(i64::from(line)) {
        return true;
    }
    above.has(i64::from(line_of(base, line)))
}

/// The lines of a subgrid, as lines of the topmost grid, that have a name in its own sets or in the levels above.
fn joined(
    alloc: Global,
    own: LinesIn,
    above: LinesIn,
    base: Base,
    tracks: u32,
) -> Result<LineList, NoMemory>
    requires few { tracks ≤ 20000 }
    requires low { neg_ℤ (pos 10000) ≤ℤ base.line }
    requires high { base.line ≤ℤ pos 10000 }
    ensures { IfOk result
        (λ lines. lines ≡
        passing (either (listed own.entry) (listed above.entry) base.line) base.line (tracks + 1)) }
{
    let mut lines = LineList::new(alloc);
    for at in 0..tracks + 1 {
        let line = line_of(base, at);
        lines.push_if(is_either(own, above, base, at), line)?;
    }
    Ok(lines)
}

/// Puts the lines of a name of a subgrid's own lines, unless it has lines already.
fn add(
    index: &mut NameIndex,
    alloc: Global,
    own: &NameIndex,
    above: &[SharedLevel],
    base: Base,
    tracks: u32,
    name: &Name,
) -> Result<(), NoMemory>
    requires { IsBelow base.line tracks }
    ensures { OnOk result
        ((done : List ℕ → Bool) →
        IsPart index.old.lines done (joined_in own.now above.now base.line tracks) →
        IsPart index.new.lines (λ other. done other || bytes_eq name.now other)
        (joined_in own.now above.now base.line tracks)) }
{
    if index.lines_of(name).is_empty() {
        let lines = joined(alloc, own.lines_of(name), found(above, name), base, tracks)?;
        index.put(name, lines)?;
    }
    Ok(())
}

/// Puts the lines of each of these names.
fn add_all(
    index: &mut NameIndex,
    alloc: Global,
    own: &NameIndex,
    above: &[SharedLevel],
    base: Base,
    tracks: u32,
    names: &[Name],
) -> Result<(), NoMemory>
    requires { IsBelow base.line tracks }
    ensures { OnOk result
        ((done : List ℕ → Bool) →
        IsPart index.old.lines done (joined_in own.now above.now base.line tracks) →
        IsPart index.new.lines (λ other. done other || holds_name other names.now)
        (joined_in own.now above.now base.line tracks)) }
{
    for name in names {
        add(index, alloc, own, above, base, tracks, name)?;
    }
    Ok(())
}

/// The index of a subgrid of so many tracks, whose line 0 is this one of the topmost grid, and whose lines have these names beside
/// those of the levels above.
pub(crate) fn index_below(
    alloc: Global,
    above: &[SharedLevel],
    base: Base,
    tracks: u32,
    lines: &SetList,
) -> Result<NameIndex, NoMemory>
    requires below { IsBelow base.line tracks }
    requires lines { length lines.now.kinds ≡ tracks + 1 }
    requires sets { length lines.now.sets ≤ tracks + 1 }
    ensures { IfOk result
        (λ index. HoldsLines index above.now base.line tracks
        (sets_of lines.now.sets lines.now.kinds)) }
{
    let own = NameIndex::of(alloc, lines)?;
    let mut index = NameIndex::new(alloc);
    for names in lines.sets.as_slice() {
        add_all(
            &mut index,
            alloc,
            &own,
            above,
            base,
            tracks,
            names.as_slice(),
        )?;
    }
    Ok(index)
}
