//! The children of a grid are asked in its columns: what each tells is put in the order of the areas. A grid that keeps what its
//! children told asks the stale ones alone.

ghost use Rattle.std.specs.Prelude.{◌≡◌, ◌++◌, ◌-ℤ◌, ◌≤ℤ◌, true, false, length, pos, IfOk, IfSome, OnOk, OnErr};
ghost use Rattle.lunit.specs.Units.{IsUnits};
ghost use Rattle.placing.specs.Nodes.{kid_at, level_at, sight_at, IsLive};
ghost use Rattle.placing.specs.Told.{AreRowsFor, Each};
ghost use Rattle.placing.specs.Walks.{Stopped, Walked, WalkedBelow};
ghost use Rattle.tree_rules.specs.AskedQueries.{block_query};
ghost use Rattle.tree_rules.specs.GridSizes.{shares_rows};
ghost use Rattle.tree_rules.specs.Queries.{needs_inline, sees_columns, outer_context, Fits, IsGivenFor};
ghost use Rattle.tree_rules.specs.declared.kind.NodeKind.TheVariants as kind;
ghost use Rattle.tree_rules.specs.declared.query.Query.{Query};
ghost use Rattle.walker.specs.Walkers.{nodes, seen, HasSeat, SameParts, Stands};
ghost use Rattle.inline_sizes.specs.Grids.{IsGrid, IsLaid, pairs_seen};
ghost use Rattle.placing.specs.Spread.{AreSpread, IsSpread};
ghost use Rattle.block_sizes.specs.Wides.{IsChildIn, IsWide, LeadsDown, asked_of, block_seen, farthest, items_seen, wide_in};
ghost use Rattle.block_sizes.specs.Told.{AreIn, AreLaid, ArePastIn, IsToldWide};
ghost use Rattle.placing.specs.Wides.{child_of};

use crate::again::ToldWide;
use crate::begun::{BegunWide, add_child, begin_wide, lists_for};
use crate::queries::kept_rows;
use crate::walk::{block_in, lend_rows_at};
use crate::wide::{append, child_in, row_item, shares, sizes_at, wide_child};
use layout_cache::Given;
use lunit::{Item, Lu, NoMemory, Sequence};
use node_arena::NodeId;
use outside::Ruler;
use part_rules::View;
use placing::style::items;
use placing::{
    Above, ChildArea, GridBase, GridParts, GridWide, PastRows, RowsAt, ToldColumns, ToldRows,
    WideChild, has_subgrid, node_at, put_items, root,
};
use std::sync::ledger::Ledger;
use walker::{Seat, Walker};

#[cycle(walk)]
/// The items that a child that is a subgrid in the rows lends, put after others.
fn ask_lent<R: Ruler, L: Ledger>(
    walk: &mut Walker<R, L>,
    id: NodeId,
    base: &GridBase,
    entry: ChildArea,
    width: &Given,
    items: &mut Sequence<Item>,
) -> Result<(), NoMemory>
    requires stands { Stands walk.old }
    requires live { IsLive (nodes walk.old) id }
    requires entry { IsChildIn (nodes walk.old) id base.now entry }
    requires shared { shares_rows (kid_at (nodes walk.old) entry.child) ≡ true }
    requires fits { Fits (sight_at (nodes walk.old) entry.child)
        (block_query true (pairs_seen (nodes walk.old) base.now entry) width.now) }
    requires spread { IsSpread (farthest (level_at (nodes walk.old) entry.child)) width.now }
    ensures items { OnOk result
        (items.new ≡
        items.old ++
        ((kid_at (nodes walk.old) entry.child).answers.down (pairs_seen (nodes walk.old) base.now entry) width.now).lend_rows) }
    ensures stands { Stands walk.new }
    ensures parts { SameParts walk.old walk.new }
    ensures walked { OnOk result
        (Walked entry.child
        (block_query true (pairs_seen (nodes walk.old) base.now entry) width.now)
        (seen R.log walk.old) (seen R.log walk.new)) }
    ensures stopped { OnErr result
        (Stopped entry.child
        (block_query true (pairs_seen (nodes walk.old) base.now entry) width.now)
        (seen R.log walk.old) (seen R.log walk.new)) }
{
    let reps = base.pairs.as_slice();
    if let Some(kept) = kept_rows(walk.tree, entry.child, reps, width) {
        return append(walk.alloc, items, kept.as_slice());
    }
    let seat = Seat {
        reps,
        above: &base.above,
        area: entry.area,
    };
    let lent = lend_rows_at(walk, entry.child, &seat, width)?;
    append(walk.alloc, items, lent.as_slice())?;
    Ok(())
}

#[cycle(walk)]
/// The block size of the content of a child that sizes its own rows or has none.
fn ask_block<R: Ruler, L: Ledger>(
    walk: &mut Walker<R, L>,
    id: NodeId,
    base: &GridBase,
    entry: ChildArea,
    width: &Given,
) -> Result<Lu, NoMemory>
    requires stands { Stands walk.old }
    requires live { IsLive (nodes walk.old) id }
    requires entry { IsChildIn (nodes walk.old) id base.now entry }
    requires own { shares_rows (kid_at (nodes walk.old) entry.child) ≡ false }
    requires fits { Fits (sight_at (nodes walk.old) entry.child)
        (block_query false (pairs_seen (nodes walk.old) base.now entry) width.now) }
    requires spread { IsSpread (farthest (level_at (nodes walk.old) entry.child)) width.now }
    ensures value { IfOk result
        (λ size. size ≡
        ((kid_at (nodes walk.old) entry.child).answers.down (pairs_seen (nodes walk.old) base.now entry) width.now).block) }
    ensures stands { Stands walk.new }
    ensures parts { SameParts walk.old walk.new }
    ensures walked { OnOk result
        (Walked entry.child
        (block_query false (pairs_seen (nodes walk.old) base.now entry) width.now)
        (seen R.log walk.old) (seen R.log walk.new)) }
    ensures stopped { OnErr result
        (Stopped entry.child
        (block_query false (pairs_seen (nodes walk.old) base.now entry) width.now)
        (seen R.log walk.old) (seen R.log walk.new)) }
{
    if has_subgrid(node_at(walk.tree, entry.child)) {
        let reps = base.pairs.as_slice();
        let seat = Seat {
            reps,
            above: &base.above,
            area: entry.area,
        };
        let size = block_in(walk, entry.child, &seat, width)?;
        return Ok(size);
    }
    let seat = Seat {
        reps: &[],
        above: &Above::Nothing,
        area: entry.area,
    };
    let alone = block_in(walk, entry.child, &seat, width)?;
    Ok(alone)
}

#[cycle(walk)]
/// The block size of the content of a child of a grid that is given this, 0 for a subgrid in the rows; its items along the rows are
/// put after others.
fn ask_rows<R: Ruler, L: Ledger>(
    walk: &mut Walker<R, L>,
    id: NodeId,
    base: &GridBase,
    entry: ChildArea,
    width: &Given,
    items: &mut Sequence<Item>,
) -> Result<Lu, NoMemory>
    requires stands { Stands walk.old }
    requires live { IsLive (nodes walk.old) id }
    requires laid { IsLaid (nodes walk.old) id base.now }
    requires entry { IsChildIn (nodes walk.old) id base.now entry }
    requires fits { Fits (sight_at (nodes walk.old) entry.child)
        (asked_of (nodes walk.old) base.now entry width.now) }
    requires spread { IsSpread (farthest (level_at (nodes walk.old) entry.child)) width.now }
    ensures value { IfOk result
        (λ size. size ≡ block_seen (nodes walk.old) base.now entry width.now) }
    ensures items { OnOk result
        (items.new ≡ items.old ++ items_seen (nodes walk.old) id base.now entry width.now) }
    ensures stands { Stands walk.new }
    ensures parts { SameParts walk.old walk.new }
    ensures walked { OnOk result
        (Walked entry.child (asked_of (nodes walk.old) base.now entry width.now)
        (seen R.log walk.old) (seen R.log walk.new)) }
    ensures stopped { OnErr result
        (Stopped entry.child (asked_of (nodes walk.old) base.now entry width.now)
        (seen R.log walk.old) (seen R.log walk.new)) }
{
    if shares::<1>(walk.tree, entry.child) {
        ask_lent(walk, id, base, entry, width, items)?;
        return Ok(Lu::default());
    }
    let block = ask_block(walk, id, base, entry, width)?;
    let item = row_item(walk.tree, base, entry, block);
    items.push(item)?;
    Ok(block)
}

#[cycle(walk)]
/// A child of a grid in its columns; its items along the rows are put after others.
fn ask_child<R: Ruler, L: Ledger>(
    walk: &mut Walker<R, L>,
    id: NodeId,
    base: &GridBase,
    columns: &View<0>,
    entry: ChildArea,
    sizes: (Lu, Lu),
    items: &mut Sequence<Item>,
) -> Result<WideChild, NoMemory>
    requires stands { Stands walk.old }
    requires live { IsLive (nodes walk.old) id }
    requires laid { IsLaid (nodes walk.old) id base.now }
    requires entry { IsChildIn (nodes walk.old) id base.now entry }
    requires counted { pos (length columns.now.edges) ≡
        (base.now.placed.columns.end -ℤ base.now.placed.columns.start) }
    requires gap { pos 0 ≤ℤ columns.now.gap }
    requires range { IsUnits columns.now.gap }
    requires spread { AreSpread (farthest (level_at (nodes walk.old) id)) columns.now.edges }
    ensures value { IfOk result
        (λ child. child ≡
        child_of (wide_in (nodes walk.old) id base.now columns.now entry sizes)) }
    ensures items { OnOk result
        (items.new ≡
        items.old ++
        items_seen (nodes walk.old) id base.now entry
        (wide_in (nodes walk.old) id base.now columns.now entry sizes).inline) }
    ensures stands { Stands walk.new }
    ensures parts { SameParts walk.old walk.new }
    ensures walked { OnOk result
        (Walked entry.child
        (asked_of (nodes walk.old) base.now entry
        (wide_in (nodes walk.old) id base.now columns.now entry sizes).inline)
        (seen R.log walk.old) (seen R.log walk.new)) }
    ensures stopped { OnErr result
        (Stopped entry.child
        (asked_of (nodes walk.old) base.now entry
        (wide_in (nodes walk.old) id base.now columns.now entry sizes).inline)
        (seen R.log walk.old) (seen R.log walk.new)) }
{
    let (size, inline) = wide_child(walk.alloc, walk.tree, id, base, columns, entry, sizes)?;
    let block = ask_rows(walk, id, base, entry, &inline, items)?;
    Ok(WideChild {
        box_: size,
        inline,
        block,
    })
}

#[cycle(walk)]
/// Each child of a grid asked in its columns, in the order of the areas.
fn ask_children<R: Ruler, L: Ledger>(
    walk: &mut Walker<R, L>,
    id: NodeId,
    reps: &[(u32, u32)],
    width: &Given,
    parts: &GridParts,
    columns: View<0>,
) -> Result<ToldRows, NoMemory>
    requires stands { Stands walk.old }
    requires live { IsLive (nodes walk.old) id }
    requires kind { (sight_at (nodes walk.old) id).label.kind ≡ kind.Grid }
    requires grid { IsGrid (nodes walk.old) id reps.now width.now parts.now }
    requires columns { AreLaid (nodes walk.old) id reps.now width.now parts.now.base columns }
    ensures told { IfOk result (AreIn (nodes walk.old) id parts.now.base columns Each) }
    ensures stands { Stands walk.new }
    ensures parts { SameParts walk.old walk.new }
    ensures below { OnOk result
        ((q : Query) → LeadsDown (nodes walk.old) id reps.now width.now q →
        WalkedBelow id q 0 (seen R.log walk.old) (seen R.log walk.new)) }
    ensures stopped { OnErr result
        ((q : Query) → LeadsDown (nodes walk.old) id reps.now width.now q →
        Stopped id q (seen R.log walk.old) (seen R.log walk.new)) }
{
    root(walk.tree);
    let align = items::<0>(&node_at(walk.tree, id).style);
    let base = parts.base.grid();
    let count = base.placed.areas.len();
    let (mut children, mut items, mut ends) = lists_for(
        walk.alloc, walk.tree, id, reps, width, parts,
    )?;
    for index in 0..count {
        let entry = child_in(walk.tree, id, reps, width, parts, index);
        let sizes = sizes_at(parts, index);
        let child = ask_child(walk, id, base, &columns, entry, sizes, &mut items)?;
        add_child(&mut children, &mut ends, child, items.len())?;
    }
    Ok(ToldRows {
        columns,
        align,
        children,
        items,
        ends,
    })
}

#[cycle(walk)]
/// The children of a grid in its columns as they told it, where those are asked again whose answers went, and its rows, where these
/// are known still: they are where none of those lends other items than before.
fn ask_stale<R: Ruler, L: Ledger>(
    walk: &mut Walker<R, L>,
    id: NodeId,
    reps: &[(u32, u32)],
    width: &Given,
    parts: &GridParts,
    columns: &View<0>,
    past: PastRows,
) -> Result<(ToldRows, Option<RowsAt>), NoMemory>
    requires stands { Stands walk.old }
    requires live { IsLive (nodes walk.old) id }
    requires kind { (sight_at (nodes walk.old) id).label.kind ≡ kind.Grid }
    requires grid { IsGrid (nodes walk.old) id reps.now width.now parts.now }
    requires columns { AreLaid (nodes walk.old) id reps.now width.now parts.now.base
        columns.now }
    requires past { ArePastIn (nodes walk.old) id parts.now.base columns.now past }
    ensures told { IfOk result
        (λ told. AreIn (nodes walk.old) id parts.now.base columns.now Each told.0) }
    ensures rows { IfOk result
        (λ told. IfSome told.1
        (AreRowsFor (sight_at (nodes walk.old) id) parts.now.base told.0.items)) }
    ensures stands { Stands walk.new }
    ensures parts { SameParts walk.old walk.new }
    ensures below { OnOk result
        ((q : Query) → LeadsDown (nodes walk.old) id reps.now width.now q →
        WalkedBelow id q 0 (seen R.log walk.old) (seen R.log walk.new)) }
    ensures stopped { OnErr result
        ((q : Query) → LeadsDown (nodes walk.old) id reps.now width.now q →
        Stopped id q (seen R.log walk.old) (seen R.log walk.new)) }
{
    root(walk.tree);
    let base = parts.base.grid();
    let PastRows {
        base: _,
        told,
        rows,
        stale,
    } = past;
    let mut rows = rows;
    let ToldRows {
        columns: same,
        align,
        mut children,
        mut items,
        mut ends,
    } = told;
    for index in stale.as_slice() {
        let entry = child_in(walk.tree, id, reps, width, parts, *index);
        let sizes = sizes_at(parts, *index);
        let mut own = Sequence::new(walk.alloc);
        let child = ask_child(walk, id, base, columns, entry, sizes, &mut own)?;
        if put_items(walk.alloc, &mut items, &mut ends, *index, own.as_slice())? {
            rows = None;
        }
        children.set(*index, child);
    }
    let told = ToldRows {
        columns: same,
        align,
        children,
        items,
        ends,
    };
    Ok((told, rows))
}

#[cycle(walk)]
/// The children of a grid in its columns: those are asked whose answers went since they told it last, or all of them where it is
/// not known what they told there. Its rows come with them, where they are known still.
fn told_rows<R: Ruler, L: Ledger>(
    walk: &mut Walker<R, L>,
    id: NodeId,
    reps: &[(u32, u32)],
    width: &Given,
    parts: &GridParts,
    columns: View<0>,
    past: Option<PastRows>,
) -> Result<(ToldRows, Option<RowsAt>), NoMemory>
    requires stands { Stands walk.old }
    requires live { IsLive (nodes walk.old) id }
    requires kind { (sight_at (nodes walk.old) id).label.kind ≡ kind.Grid }
    requires grid { IsGrid (nodes walk.old) id reps.now width.now parts.now }
    requires columns { AreLaid (nodes walk.old) id reps.now width.now parts.now.base columns }
    requires past { IfSome past (ArePastIn (nodes walk.old) id parts.now.base columns) }
    ensures told { IfOk result
        (λ told. AreIn (nodes walk.old) id parts.now.base columns Each told.0) }
    ensures rows { IfOk result
        (λ told. IfSome told.1
        (AreRowsFor (sight_at (nodes walk.old) id) parts.now.base told.0.items)) }
    ensures stands { Stands walk.new }
    ensures parts { SameParts walk.old walk.new }
    ensures below { OnOk result
        ((q : Query) → LeadsDown (nodes walk.old) id reps.now width.now q →
        WalkedBelow id q 0 (seen R.log walk.old) (seen R.log walk.new)) }
    ensures stopped { OnErr result
        ((q : Query) → LeadsDown (nodes walk.old) id reps.now width.now q →
        Stopped id q (seen R.log walk.old) (seen R.log walk.new)) }
{
    if let Some(past) = past {
        return ask_stale(walk, id, reps, width, parts, &columns, past);
    }
    let told = ask_children(walk, id, reps, width, parts, columns)?;
    Ok((told, None))
}

#[cycle(walk)]
/// A grid in its seat as `wide_at` tells it, with where the items of each child end. What its children told last is taken from it.
pub(crate) fn told_wide_at<R: Ruler, L: Ledger>(
    walk: &mut Walker<R, L>,
    id: NodeId,
    seat: &Seat,
    width: &Given,
) -> Result<ToldWide, NoMemory>
    requires stands { Stands walk.old }
    requires live { IsLive (nodes walk.old) id }
    requires grid { (sight_at (nodes walk.old) id).label.kind ≡ kind.Grid }
    requires reps { length seat.now.reps.now ≡ length (sight_at (nodes walk.old) id).chain }
    requires seat { HasSeat (sight_at (nodes walk.old) id) seat.now }
    requires inline { IsGivenFor true (sees_columns (sight_at (nodes walk.old) id))
        (outer_context (sight_at (nodes walk.old) id) seat.now.reps.now).columns.table.tracks
        width.now }
    requires spread { IsSpread (farthest (level_at (nodes walk.old) id)) width.now }
    ensures value { IfOk result (IsToldWide (nodes walk.old) id seat.now.reps.now width.now) }
    ensures stands { Stands walk.new }
    ensures parts { SameParts walk.old walk.new }
    ensures below { OnOk result
        ((q : Query) → q.reps ≡ seat.now.reps.now → q.inline ≡ width.now →
        needs_inline q.ask ≡ true →
        WalkedBelow id q 1 (seen R.log walk.old) (seen R.log walk.new)) }
    ensures stopped { OnErr result
        ((q : Query) → q.reps ≡ seat.now.reps.now → q.inline ≡ width.now →
        needs_inline q.ask ≡ true →
        Stopped id q (seen R.log walk.old) (seen R.log walk.new)) }
{
    root(walk.tree);
    let begun = begin_wide(walk, id, seat, width)?;
    let BegunWide {
        told: ToldColumns { parts, ends },
        columns,
        past,
    } = begun;
    let (asked, rows) = told_rows(walk, id, seat.reps, width, &parts, columns, past)?;
    let ToldRows {
        columns,
        align: _,
        children,
        items,
        ends: row_ends,
    } = asked;
    let wide = GridWide {
        parts,
        columns,
        children,
        items,
        rows,
    };
    Ok(ToldWide {
        wide,
        column_ends: ends,
        row_ends,
    })
}

/// A grid in its seat, by the counts of the repetitions above it and what it is given in the inline axis, with its columns placed:
/// each child has its inline size or the columns as it sees them, and is asked for its block size or its lent rows there (CSS Grid
/// 2, 12.1). Nothing is kept for the grid itself. It makes one step, or none where it is given its columns. The edges of tracks
/// that it is given differ from 0 and from each other by at most 2^54, and 2^33 more for each level.
/// `NoMemory` where memory is wanting.
pub fn wide_at<R: Ruler, L: Ledger>(
    walk: &mut Walker<R, L>,
    id: NodeId,
    seat: &Seat,
    width: &Given,
) -> Result<GridWide, NoMemory>
    requires stands { Stands walk.old }
    requires live { IsLive (nodes walk.old) id }
    requires grid { (sight_at (nodes walk.old) id).label.kind ≡ kind.Grid }
    requires reps { length seat.now.reps.now ≡ length (sight_at (nodes walk.old) id).chain }
    requires seat { HasSeat (sight_at (nodes walk.old) id) seat.now }
    requires inline { IsGivenFor true (sees_columns (sight_at (nodes walk.old) id))
        (outer_context (sight_at (nodes walk.old) id) seat.now.reps.now).columns.table.tracks
        width.now }
    requires spread { IsSpread (farthest (level_at (nodes walk.old) id)) width.now }
    ensures value { IfOk result (IsWide (nodes walk.old) id seat.now.reps.now width.now) }
    ensures stands { Stands walk.new }
    ensures parts { SameParts walk.old walk.new }
    ensures below { OnOk result
        ((q : Query) → q.reps ≡ seat.now.reps.now → q.inline ≡ width.now →
        needs_inline q.ask ≡ true →
        WalkedBelow id q 1 (seen R.log walk.old) (seen R.log walk.new)) }
    ensures stopped { OnErr result
        ((q : Query) → q.reps ≡ seat.now.reps.now → q.inline ≡ width.now →
        needs_inline q.ask ≡ true →
        Stopped id q (seen R.log walk.old) (seen R.log walk.new)) }
{
    let told = told_wide_at(walk, id, seat, width)?;
    let ToldWide { wide, .. } = told;
    Ok(wide)
}
