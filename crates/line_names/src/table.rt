ghost use Rattle.std.specs.Prelude.{◌≡◌, ◌+◌, ◌≤◌, ◌++◌, [], get_or, length, ℕ, pos, neg_ℤ, ◌+ℤ◌, ◌≤ℤ◌, ◌<ℤ◌, IsTrue, IfOk};
ghost use Rattle.lunit.specs.declared.geometry.Span.{Span};
ghost use Rattle.lunit.specs.declared.geometry.Spot.TheVariants.{Free};
ghost use Rattle.part_rules.specs.LineNames.{cut_areas, cut_spot, lines_by, named_lines, names_by_areas, own_table, resolved, subgrid_table};
ghost use Rattle.line_names.specs.Levels.{told, HoldsLines, IsBelow};
ghost use Rattle.line_names.specs.Parts.{cut_parts};
ghost use Rattle.line_names.specs.SetLists.{sets_of};
ghost use Rattle.line_names.specs.Sides.{has_edges};
ghost use Rattle.line_names.specs.Tables.{are_areas, AreLines};

use crate::counting::{Base, NamedLines};
use crate::cutting::{cut_all, cut_parts, tracks_within};
use crate::index::NameIndex;
use crate::levels::{Level, SharedLevel, all_lines, base_of, index_below, seen, with_level};
use crate::naming::{add_areas, own_lines};
use crate::places::{free, place};
use crate::set_list::SetList;
use crate::side::side_of;
use lunit::{LineValue, Name, NameSet, NoMemory, Sequence, Span, Spot};
use std::alloc::Global;
use std::marker::Model;

/// The explicit lines of an axis with their names, the areas that give names to subgrids too, and the limit in which all items
/// lie. Contracts see the table of the definitions. A subgrid's table shares the names of the tables above it.
#[derive(Drop)]
pub struct LineTable {
    limit: Span,
    /// Line 0 as a line of the topmost grid.
    base: Base,
    level: SharedLevel,
    /// The levels above, the nearest first.
    above: Sequence<SharedLevel>,
}

impl Model for LineTable {
    ghost use Rattle.part_rules.specs.LineNames.{Table};

    ghost Value = { Table };

    ghost use Rattle.line_names.specs.Tables.{table_of, IsTable};

    ghost view = { table_of };

    ghost invariant = { IsTable };
}

/// The sets of the lines of a subgrid; spare ones are left out.
fn kept_sets(alloc: Global, sets: &[NameSet], tracks: u32) -> Result<SetList, NoMemory>
    requires { tracks ≤ 20000 }
    ensures { IfOk result
        (λ kept. (line : ℕ) → line ≤ tracks →
        get_or (sets_of kept.sets kept.kinds) line [] ≡ get_or sets.now line []) }
{
    SetList::of(alloc, sets, sets.len().min(tracks as usize + 1))
}

/// The sets of so many lines of their own, with the names by these areas.
fn all_sets(
    alloc: Global,
    sets: &[NameSet],
    tracks: u32,
    areas: &[(Name, Span)],
) -> Result<SetList, NoMemory>
    requires few { tracks ≤ 65536 }
    requires areas { IsTrue (are_areas tracks areas.now) }
    ensures lines { IfOk result
        (λ list. AreLines (λ line. get_or sets.now line [] ++ names_by_areas (pos line) areas.now)
        (tracks + 1) (sets_of list.sets list.kinds)) }
    ensures few { IfOk result (λ list. length list.sets ≤ tracks + 1) }
{
    let count = tracks as usize + 1;
    if areas.is_empty() {
        return SetList::of(alloc, sets, count);
    }
    let mut lines = own_lines(alloc, sets, count)?;
    add_areas(&mut lines, areas)?;
    SetList::of(alloc, lines.as_slice(), count)
}

/// The index of a subgrid with these sets and areas.
fn index_with(
    alloc: Global,
    above: &[SharedLevel],
    base: Base,
    tracks: u32,
    sets: &[NameSet],
    areas: &[(Name, Span)],
) -> Result<NameIndex, NoMemory>
    requires below { IsBelow base.line tracks }
    requires areas { IsTrue (are_areas tracks areas.now) }
    ensures { IfOk result
        (λ index. HoldsLines index above.now base.line tracks
        (lines_by (λ line. get_or sets.now line [] ++ names_by_areas (pos line) areas.now)
        (tracks + 1) 0)) }
{
    if sets.is_empty() && areas.is_empty() {
        return Ok(NameIndex::new(alloc));
    }
    let lines = all_sets(alloc, sets, tracks, areas)?;
    index_below(alloc, above, base, tracks, &lines)
}

impl LineTable {
    ghost use Rattle.line_names.specs.Tables.{table_by, IsLimit, IsTableBy, IsWithinLines};

    /// The table of these levels.
    fn of(
        alloc: Global,
        limit: Span,
        base: Base,
        level: Level,
        above: Sequence<SharedLevel>,
    ) -> Result<LineTable, NoMemory>
        requires { IsTableBy limit base.line level above }
        ensures { IfOk result (λ table. table ≡ table_by limit level above) }
    {
        let level = SharedLevel::new(alloc, level)?;
        Ok(LineTable {
            limit,
            base,
            level,
            above,
        })
    }

    /// The lines of a grid that is no subgrid in this axis (CSS Grid 2, 7.2 and 7.3.2): from 0 to `tracks`, with the sets of its
    /// template in order and the names by its areas. The limit is the lines -10,000 to 10,000 (own rule). `NoMemory` where
    /// memory is wanting.
    pub fn new(
        alloc: Global,
        sets: &[NameSet],
        tracks: u32,
        areas: &[(Name, Span)],
    ) -> Result<LineTable, NoMemory>
        requires tracks { tracks ≤ 65536 }
        requires areas { IsTrue (are_areas tracks areas.now) }
        ensures { IfOk result (λ table. table ≡ own_table sets.now tracks areas.now) }
    {
        let lines = all_sets(alloc, sets, tracks, areas)?;
        let areas = Sequence::from_slice(alloc, areas)?;
        let index = NameIndex::of(alloc, &lines)?;
        let limit = Span {
            start: -10_000,
            end: 10_000,
        };
        let level = Level {
            sets: lines,
            areas,
            over: Span { start: 0, end: 0 },
            tracks,
            index,
        };
        LineTable::of(alloc, limit, Base { line: 0 }, level, Sequence::new(alloc))
    }

    /// The lines of a subgrid over a span of its parent's lines (CSS Grid 2, section 9): its own sets, the names by its own
    /// areas, and all names of the parent's lines. Areas of the parent that have a track in common with the span are taken over,
    /// cut to it (own rule: only this axis counts). The limit is the subgrid's own lines. The names of the parent's lines are
    /// shared with it, not copied. `NoMemory` where memory is wanting.
    pub fn inherit(
        alloc: Global,
        parent: &LineTable,
        span: Span,
        sets: &[NameSet],
        areas: &[(Name, Span)],
    ) -> Result<LineTable, NoMemory>
        requires low { parent.now.low ≤ℤ span.start }
        requires some { span.start <ℤ span.end }
        requires high { span.end ≤ℤ parent.now.high }
        requires areas { IsTrue (are_areas 65536 areas.now) }
        ensures { IfOk result (λ table. table ≡ subgrid_table parent.now span sets.now areas.now) }
    {
        let tracks = tracks_within(parent.limit, span);
        let added = parent.added(alloc, span, tracks, areas)?;
        let areas = parent.taken_over(alloc, span, tracks, areas)?;
        let above = with_level(alloc, &parent.level, parent.above.as_slice())?;
        let base = base_of(parent.base, span);
        let index = index_with(
            alloc,
            above.as_slice(),
            base,
            tracks,
            sets,
            added.as_slice(),
        )?;
        let own = kept_sets(alloc, sets, tracks)?;
        let level = Level {
            sets: own,
            areas,
            over: span,
            tracks,
            index,
        };
        LineTable::of(alloc, all_lines(tracks), base, level, above)
    }

    /// The areas that a subgrid over this span has.
    fn taken_over(
        &self,
        alloc: Global,
        span: Span,
        tracks: u32,
        areas: &[(Name, Span)],
    ) -> Result<Sequence<(Name, Span)>, NoMemory>
        requires few { tracks ≤ 20000 }
        requires lines { IsWithinLines span }
        ensures { IfOk result
            (λ all. all ≡
            cut_areas (record { start = pos 0; end = pos tracks }) areas.now ++
            cut_areas span self.now.areas) }
    {
        let mut all = Sequence::new(alloc);
        cut_all(&mut all, all_lines(tracks), areas)?;
        cut_all(&mut all, span, self.level.level().areas.as_slice())?;
        Ok(all)
    }

    /// Those areas of a subgrid over this span whose names the lines of this table may not have: its own, and those of which it has
    /// a part.
    fn added(
        &self,
        alloc: Global,
        span: Span,
        tracks: u32,
        areas: &[(Name, Span)],
    ) -> Result<Sequence<(Name, Span)>, NoMemory>
        requires few { tracks ≤ 20000 }
        requires lines { IsWithinLines span }
        ensures { IfOk result
            (λ all. all ≡
            cut_areas (record { start = pos 0; end = pos tracks }) areas.now ++
            cut_parts span self.now.areas) }
    {
        let mut all = Sequence::new(alloc);
        cut_all(&mut all, all_lines(tracks), areas)?;
        cut_parts(&mut all, span, self.level.level().areas.as_slice())?;
        Ok(all)
    }

    /// How many explicit tracks there are, at most 65,536.
    pub fn tracks(&self) -> u32
        ensures value { result ≡ self.now.tracks }
        ensures few { result ≤ 65536 }
    {
        self.level.level().tracks
    }

    /// The lines between which all items lie: some at least, not after line 0 at their start, and at most 20,000 tracks.
    pub fn limit(&self) -> Span
        ensures value { result ≡ record { start = self.now.low; end = self.now.high } }
        ensures fits { IsLimit result }
    {
        self.limit
    }

    /// The lines of a name, in order.
    pub(crate) fn lines_of<'a>(&'a self, name: &Name) -> NamedLines<'a>
        ensures { told result ≡ named_lines self.now name.now }
    {
        seen(
            &self.level.level().index,
            self.above.as_slice(),
            self.base,
            self.limit,
            name,
        )
    }

    /// The place of an item in this axis of which no line is told, for the tracks that it spans (CSS Grid 2, 8.3), cut to the limit.
    /// Takes no memory.
    pub fn free_place(&self, tracks: u32) -> Spot
        ensures { result ≡ cut_spot self.now.low self.now.high (Free tracks) }
    {
        free(self.limit, tracks)
    }

    /// The place of an item in this axis, by the two line values of its placement properties and the span of an item that has
    /// none (CSS Grid 2, 8.3 and 8.3.1), cut to the limit. Takes no memory.
    pub fn resolve(&self, start: &LineValue, end: &LineValue, automatic: u32) -> Spot
        requires start { IsTrue (has_edges start.now) }
        requires end { IsTrue (has_edges end.now) }
        ensures { result ≡ resolved self.now start.now end.now automatic }
    {
        place(
            self,
            automatic,
            side_of(self, false, start),
            side_of(self, true, end),
        )
    }
}
