//! The children of a grid are asked for its columns, in the order of their areas. Of the children of a grid that keeps what they told
//! it, only those are asked whose answers went since. The seat of a node is handed down, so that a context is made once for each
//! grid.

ghost use Rattle.std.specs.Prelude.{◌≡◌, ◌++◌, ◌<◌, [], true, false, length, IfOk, IfSome, OnOk, OnErr};
ghost use Rattle.std.specs.List.{All};
ghost use Rattle.placing.specs.Bases.{HoldsPlaces};
ghost use Rattle.placing.specs.Counted.{IsGivenSize};
ghost use Rattle.placing.specs.Nodes.{children_at, kid_at, sight_at, IsLive};
ghost use Rattle.placing.specs.Seats.{IsSeat};
ghost use Rattle.placing.specs.Told.{AllBut, AreColumns, Each, IsPastColumns};
ghost use Rattle.placing.specs.Walks.{Stopped, Walked, WalkedBelow};
ghost use Rattle.placing.specs.declared.contexts.Above.TheVariants as over;
ghost use Rattle.tree_rules.specs.AskedQueries.{inline_query};
ghost use Rattle.tree_rules.specs.GridSizes.{shares_columns};
ghost use Rattle.tree_rules.specs.Queries.{answer_of, inline_sizes, Fits};
ghost use Rattle.tree_rules.specs.declared.kind.NodeKind.TheVariants as kind;
ghost use Rattle.tree_rules.specs.declared.query.Query.{Query};
ghost use Rattle.walker.specs.Walkers.{nodes, seen, HasSeat, SameParts, Stands};
ghost use Rattle.inline_sizes.specs.Grids.{HaveTold, IsEntry, IsGrid, IsLaid, LeadsOn, asked_of, items_seen, sizes_seen};

use crate::children::{add_entry, no_entries, own_item, shares_columns};
use crate::columns::append;
use crate::grid::shared_base;
use crate::laws::items_lie_in_their_tracks;
use crate::queries::kept_sizes;
use crate::walk::{inline_at, lend_columns_at};
use layout_cache::{Given, same_counts};
use lunit::{Area, Item, Lu, NoMemory, Sequence};
use node_arena::NodeId;
use outside::Ruler;
use placing::{
    Above, ChildArea, GridBase, GridParts, PastColumns, ToldColumns, entry, has_subgrid, node_at,
    put_items, root,
};
use std::sync::ledger::Ledger;
use walker::{Seat, Walker};

#[cycle(walk)]
/// The items that a child that is a subgrid in the columns lends, put after others.
fn ask_shared<R: Ruler, L: Ledger>(
    walk: &mut Walker<R, L>,
    id: NodeId,
    base: &GridBase,
    entry: ChildArea,
    items: &mut Sequence<Item>,
) -> Result<(), NoMemory>
    requires stands { Stands walk.old }
    requires live { IsLive (nodes walk.old) id }
    requires laid { IsLaid (nodes walk.old) id base.now }
    requires entry { IsEntry (nodes walk.old) id base.now entry }
    requires shared { shares_columns (kid_at (nodes walk.old) entry.child) ≡ true }
    ensures items { OnOk result
        (items.new ≡ items.old ++ items_seen (nodes walk.old) id base.now entry) }
    ensures stands { Stands walk.new }
    ensures parts { SameParts walk.old walk.new }
    ensures walked { OnOk result
        (Walked entry.child (asked_of (nodes walk.old) base.now entry)
        (seen R.log walk.old) (seen R.log walk.new)) }
    ensures stopped { OnErr result
        (Stopped entry.child (asked_of (nodes walk.old) base.now entry)
        (seen R.log walk.old) (seen R.log walk.new)) }
{
    let reps = base.pairs.as_slice();
    let seat = Seat {
        reps,
        above: &base.above,
        area: entry.area,
    };
    let lent = lend_columns_at(walk, entry.child, &seat)?;
    append(items, lent.as_slice())
}

#[cycle(walk)]
/// The two inline sizes of a node that sees no counts above it. What it hands down is large, and is made here alone: it would be
/// cleared for each child of a grid.
pub(crate) fn ask_alone<R: Ruler, L: Ledger>(
    walk: &mut Walker<R, L>,
    id: NodeId,
    area: Area,
) -> Result<(Lu, Lu), NoMemory>
    requires stands { Stands walk.old }
    requires live { IsLive (nodes walk.old) id }
    requires fits { Fits (sight_at (nodes walk.old) id) (inline_query false []) }
    requires seat { IsSeat (sight_at (nodes walk.old) id) [] over.Nothing area }
    ensures value { IfOk result
        (λ sizes. inline_sizes sizes ≡
        answer_of (sight_at (nodes walk.old) id) (inline_query false [])) }
    ensures stands { Stands walk.new }
    ensures parts { SameParts walk.old walk.new }
    ensures walked { OnOk result
        (Walked id (inline_query false []) (seen R.log walk.old) (seen R.log walk.new)) }
    ensures stopped { OnErr result
        (Stopped id (inline_query false []) (seen R.log walk.old) (seen R.log walk.new)) }
{
    let above = Above::Nothing;
    let seat = Seat {
        reps: &[],
        above: &above,
        area,
    };
    inline_at(walk, id, &seat)
}

#[cycle(walk)]
/// The two inline sizes of a child that sizes its own columns or has none.
fn ask_sizes<R: Ruler, L: Ledger>(
    walk: &mut Walker<R, L>,
    id: NodeId,
    base: &GridBase,
    entry: ChildArea,
) -> Result<(Lu, Lu), NoMemory>
    requires stands { Stands walk.old }
    requires live { IsLive (nodes walk.old) id }
    requires laid { IsLaid (nodes walk.old) id base.now }
    requires entry { IsEntry (nodes walk.old) id base.now entry }
    requires own { shares_columns (kid_at (nodes walk.old) entry.child) ≡ false }
    ensures sizes { IfOk result (λ sizes. sizes ≡ sizes_seen (nodes walk.old) base.now entry) }
    ensures stands { Stands walk.new }
    ensures parts { SameParts walk.old walk.new }
    ensures walked { OnOk result
        (Walked entry.child (asked_of (nodes walk.old) base.now entry)
        (seen R.log walk.old) (seen R.log walk.new)) }
    ensures stopped { OnErr result
        (Stopped entry.child (asked_of (nodes walk.old) base.now entry)
        (seen R.log walk.old) (seen R.log walk.new)) }
{
    let id = entry.child;
    if has_subgrid(node_at(walk.tree, id)) {
        let reps = base.pairs.as_slice();
        if let Some(sizes) = kept_sizes(walk.tree, id, reps) {
            return Ok(sizes);
        }
        let seat = Seat {
            reps,
            above: &base.above,
            area: entry.area,
        };
        return inline_at(walk, id, &seat);
    }
    ask_alone(walk, id, entry.area)
}

#[cycle(walk)]
/// The two inline sizes of a child of a grid, 0 for a subgrid in the columns; its items along the columns are put after others.
fn ask_child<R: Ruler, L: Ledger>(
    walk: &mut Walker<R, L>,
    id: NodeId,
    base: &GridBase,
    entry: ChildArea,
    items: &mut Sequence<Item>,
) -> Result<(Lu, Lu), NoMemory>
    requires stands { Stands walk.old }
    requires live { IsLive (nodes walk.old) id }
    requires grid { (sight_at (nodes walk.old) id).label.kind ≡ kind.Grid }
    requires laid { IsLaid (nodes walk.old) id base.now }
    requires entry { IsEntry (nodes walk.old) id base.now entry }
    ensures sizes { IfOk result (λ sizes. sizes ≡ sizes_seen (nodes walk.old) base.now entry) }
    ensures items { OnOk result
        (items.new ≡ items.old ++ items_seen (nodes walk.old) id base.now entry) }
    ensures stands { Stands walk.new }
    ensures parts { SameParts walk.old walk.new }
    ensures walked { OnOk result
        (Walked entry.child (asked_of (nodes walk.old) base.now entry)
        (seen R.log walk.old) (seen R.log walk.new)) }
    ensures stopped { OnErr result
        (Stopped entry.child (asked_of (nodes walk.old) base.now entry)
        (seen R.log walk.old) (seen R.log walk.new)) }
{
    if shares_columns(walk.tree, entry.child) {
        ask_shared(walk, id, base, entry, items)?;
        return Ok((Lu::default(), Lu::default()));
    }
    let (low, high) = ask_sizes(walk, id, base, entry)?;
    items.push(own_item(walk.tree, base, entry, low, high))?;
    Ok((low, high))
}

#[cycle(walk)]
/// What each child of a grid tells for its columns: its two inline sizes, its items, and where these end, in the order of the areas.
fn ask_children<R: Ruler, L: Ledger>(
    walk: &mut Walker<R, L>,
    id: NodeId,
    base: &GridBase,
) -> Result<(Sequence<(Lu, Lu)>, Sequence<Item>, Sequence<usize>), NoMemory>
    requires stands { Stands walk.old }
    requires live { IsLive (nodes walk.old) id }
    requires grid { (sight_at (nodes walk.old) id).label.kind ≡ kind.Grid }
    requires laid { IsLaid (nodes walk.old) id base.now }
    ensures told { IfOk result
        (λ told. HaveTold (nodes walk.old) id base.now Each told.0 told.1 told.2) }
    ensures stands { Stands walk.new }
    ensures parts { SameParts walk.old walk.new }
    ensures below { OnOk result
        ((q : Query) → LeadsOn (nodes walk.old) id base.now q →
        WalkedBelow id q 0 (seen R.log walk.old) (seen R.log walk.new)) }
    ensures stopped { OnErr result
        ((q : Query) → LeadsOn (nodes walk.old) id base.now q →
        Stopped id q (seen R.log walk.old) (seen R.log walk.new)) }
{
    root(walk.tree);
    items_lie_in_their_tracks(walk.tree, id);
    let count = base.placed.areas.len();
    let (mut inlines, mut items, mut ends) = no_entries(walk.alloc, count)?;
    for index in 0..count {
        let entry = entry(walk.tree, id, &base.placed, index);
        let sizes = ask_child(walk, id, base, entry, &mut items)?;
        add_entry(&mut inlines, &mut ends, sizes, items.len())?;
    }
    Ok((inlines, items, ends))
}

#[cycle(walk)]
/// Asks the children of a grid at these indices again: what they tell for its columns takes the place of what they told.
fn ask_stale<R: Ruler, L: Ledger>(
    walk: &mut Walker<R, L>,
    id: NodeId,
    base: &GridBase,
    inlines: &mut Sequence<(Lu, Lu)>,
    items: &mut Sequence<Item>,
    ends: &mut Sequence<usize>,
    stale: &[usize],
) -> Result<(), NoMemory>
    requires stands { Stands walk.old }
    requires live { IsLive (nodes walk.old) id }
    requires grid { (sight_at (nodes walk.old) id).label.kind ≡ kind.Grid }
    requires laid { IsLaid (nodes walk.old) id base.now }
    requires stale { All (λ k. k < length base.now.placed.areas) stale.now }
    requires told { HaveTold (nodes walk.old) id base.now (AllBut stale.now) inlines.old
        items.old ends.old }
    ensures told { OnOk result
        (HaveTold (nodes walk.old) id base.now Each inlines.new items.new ends.new) }
    ensures stands { Stands walk.new }
    ensures parts { SameParts walk.old walk.new }
    ensures below { OnOk result
        ((q : Query) → LeadsOn (nodes walk.old) id base.now q →
        WalkedBelow id q 0 (seen R.log walk.old) (seen R.log walk.new)) }
    ensures stopped { OnErr result
        ((q : Query) → LeadsOn (nodes walk.old) id base.now q →
        Stopped id q (seen R.log walk.old) (seen R.log walk.new)) }
{
    root(walk.tree);
    items_lie_in_their_tracks(walk.tree, id);
    for index in stale {
        let entry = entry(walk.tree, id, &base.placed, *index);
        let mut own = Sequence::new(walk.alloc);
        let sizes = ask_child(walk, id, base, entry, &mut own)?;
        put_items(walk.alloc, items, ends, *index, own.as_slice())?;
        inlines.set(*index, sizes);
    }
    Ok(())
}

#[cycle(walk)]
/// What the children of a grid tell for its columns, where it is known what they told by the same counts: only those are asked whose
/// answers went.
fn ask_again<R: Ruler, L: Ledger>(
    walk: &mut Walker<R, L>,
    id: NodeId,
    base: &GridBase,
    past: PastColumns,
) -> Result<(Sequence<(Lu, Lu)>, Sequence<Item>, Sequence<usize>), NoMemory>
    requires stands { Stands walk.old }
    requires live { IsLive (nodes walk.old) id }
    requires grid { (sight_at (nodes walk.old) id).label.kind ≡ kind.Grid }
    requires laid { IsLaid (nodes walk.old) id base.now }
    requires stale { All (λ k. k < length base.now.placed.areas) past.stale }
    requires told { HaveTold (nodes walk.old) id base.now (AllBut past.stale)
        past.told.parts.inlines past.told.parts.items past.told.ends }
    ensures told { IfOk result
        (λ told. HaveTold (nodes walk.old) id base.now Each told.0 told.1 told.2) }
    ensures stands { Stands walk.new }
    ensures parts { SameParts walk.old walk.new }
    ensures below { OnOk result
        ((q : Query) → LeadsOn (nodes walk.old) id base.now q →
        WalkedBelow id q 0 (seen R.log walk.old) (seen R.log walk.new)) }
    ensures stopped { OnErr result
        ((q : Query) → LeadsOn (nodes walk.old) id base.now q →
        Stopped id q (seen R.log walk.old) (seen R.log walk.new)) }
{
    let PastColumns { told, stale } = past;
    let ToldColumns { parts, ends } = told;
    let GridParts {
        base: _,
        inlines,
        items,
    } = parts;
    let mut inlines = inlines;
    let mut items = items;
    let mut ends = ends;
    ask_stale(
        walk,
        id,
        base,
        &mut inlines,
        &mut items,
        &mut ends,
        stale.as_slice(),
    )?;
    Ok((inlines, items, ends))
}

#[cycle(walk)]
/// What the children of a grid tell for its columns: where what they told by the same counts is known, only those are asked whose
/// answers went, else each of them.
fn ask_needed<R: Ruler, L: Ledger>(
    walk: &mut Walker<R, L>,
    id: NodeId,
    base: &GridBase,
    past: Option<PastColumns>,
) -> Result<(Sequence<(Lu, Lu)>, Sequence<Item>, Sequence<usize>), NoMemory>
    requires stands { Stands walk.old }
    requires live { IsLive (nodes walk.old) id }
    requires grid { (sight_at (nodes walk.old) id).label.kind ≡ kind.Grid }
    requires laid { IsLaid (nodes walk.old) id base.now }
    requires places { HoldsPlaces (sight_at (nodes walk.old) id)
        (children_at (nodes walk.old) id) base.now }
    requires past { IfSome past (IsPastColumns (nodes walk.old) id) }
    ensures told { IfOk result
        (λ told. HaveTold (nodes walk.old) id base.now Each told.0 told.1 told.2) }
    ensures stands { Stands walk.new }
    ensures parts { SameParts walk.old walk.new }
    ensures below { OnOk result
        ((q : Query) → LeadsOn (nodes walk.old) id base.now q →
        WalkedBelow id q 0 (seen R.log walk.old) (seen R.log walk.new)) }
    ensures stopped { OnErr result
        ((q : Query) → LeadsOn (nodes walk.old) id base.now q →
        Stopped id q (seen R.log walk.old) (seen R.log walk.new)) }
{
    let Some(past) = past else {
        return ask_children(walk, id, base);
    };
    let counts = past.told.parts.base.grid().pairs.as_slice();
    if !same_counts(counts, base.pairs.as_slice()) {
        return ask_children(walk, id, base);
    }
    ask_again(walk, id, base, past)
}

#[cycle(walk)]
/// A grid in its seat, by the counts of the repetitions above it and what it is given in the inline axis, with what its children
/// answer for the columns: each child is asked once, or, where it is known what the children told last, each whose answers went
/// since (CSS Grid 2, sections 7 to 9 and 12.5). Nothing is kept for the grid itself. `NoMemory` where memory is wanting.
pub fn grid_in<R: Ruler, L: Ledger>(
    walk: &mut Walker<R, L>,
    id: NodeId,
    seat: &Seat,
    width: &Given,
    past: Option<PastColumns>,
) -> Result<ToldColumns, NoMemory>
    requires stands { Stands walk.old }
    requires live { IsLive (nodes walk.old) id }
    requires grid { (sight_at (nodes walk.old) id).label.kind ≡ kind.Grid }
    requires reps { length seat.now.reps.now ≡ length (sight_at (nodes walk.old) id).chain }
    requires seat { HasSeat (sight_at (nodes walk.old) id) seat.now }
    requires width { IsGivenSize width.now }
    requires past { IfSome past (IsPastColumns (nodes walk.old) id) }
    ensures value { IfOk result
        (λ told. IsGrid (nodes walk.old) id seat.now.reps.now width.now told.parts) }
    ensures told { IfOk result
        (AreColumns (sight_at (nodes walk.old) id) (kid_at (nodes walk.old)) Each) }
    ensures stands { Stands walk.new }
    ensures parts { SameParts walk.old walk.new }
    ensures below { OnOk result
        ((q : Query) → q.reps ≡ seat.now.reps.now → q.inline ≡ width.now →
        WalkedBelow id q 0 (seen R.log walk.old) (seen R.log walk.new)) }
    ensures stopped { OnErr result
        ((q : Query) → q.reps ≡ seat.now.reps.now → q.inline ≡ width.now →
        Stopped id q (seen R.log walk.old) (seen R.log walk.new)) }
{
    root(walk.tree);
    let base = shared_base(walk, id, seat, width)?;
    let (inlines, items, ends) = ask_needed(walk, id, base.grid(), past)?;
    let parts = GridParts {
        base,
        inlines,
        items,
    };
    Ok(ToldColumns { parts, ends })
}
