//! What the children of a grid told: how it is kept, and taken where some of them must be asked again.

ghost use Rattle.std.specs.Prelude.{◌≡◌, ◌<◌, ◌≤◌, ◌+◌, ◌-◌, ◌^◌, ◌++◌, ℕ, None, Some, true, false, IfOk, IfSome, OnOk, List, drop, length, map, slice_set, take};
ghost use Rattle.std.specs.List.{All};
ghost use Rattle.lunit.specs.declared.geometry.Area.{Area};
ghost use Rattle.lunit.specs.declared.item.Item.{Item};
ghost use Rattle.node_arena.specs.declared.number.NodeId.{NodeId};
ghost use Rattle.part_rules.specs.Lists.{joined};
ghost use Rattle.placing.specs.Bases.{HoldsPlaces};
ghost use Rattle.placing.specs.Keeping.{ChangesPast};
ghost use Rattle.placing.specs.Kept.{past_at, turn_at, IsRight};
ghost use Rattle.placing.specs.Nodes.{bare, children_at, kid_at, sight_at, IsLive};
ghost use Rattle.placing.specs.Told.{ends_from, is_fresh, is_listed, AreColumns, AreRows, AreMovable, AreRowsFor, AreTurns, Each, HasParts, IsPastColumns, IsPastOf, IsPastWide};
ghost use Rattle.placing.specs.Walks.{IsAlike};

use crate::node::Node;
use crate::same::same_item;
use crate::shared::SharedWide;
use crate::told::{
    KeptColumns, KeptWide, PastColumns, PastRows, PastWide, SharedColumns, SharedTold, ToldColumns,
    ToldRows,
};
use crate::wide::GridWide;
use lunit::{Area, Item, NoMemory, Sequence};
use node_arena::{Arena, NodeId};
use std::alloc::Global;
use style_types::Align;

/// How many children a grid must have for what they tell to be kept: it is not worth the while for fewer.
pub const MANY: usize = 16;

/// The turn of a node; 0 where the number names none.
pub fn turn_of(tree: &Arena<Node>, id: NodeId) -> u64
    ensures { result ≡ turn_at tree.now.tree id }
{
    match tree.get(id) {
        Some(node) => node.turn,
        None => 0,
    }
}

/// The turns of the children of a grid.
pub(crate) fn turns_of(
    alloc: Global,
    tree: &Arena<Node>,
    areas: &[(NodeId, Area)],
) -> Result<Sequence<u64>, NoMemory>
    ensures { IfOk result
        (λ turns. turns ≡ map (λ (e : NodeId × Area). turn_at tree.now.tree e.0) areas.now) }
{
    let mut turns = Vec::with_capacity(alloc, areas.len())?;
    for (child, _) in areas {
        turns.push(turn_of(tree, *child))?;
    }
    Ok(Sequence::from_vec(turns))
}

/// The indices of the children of a grid whose answers went since they had these turns.
fn stale_children(
    alloc: Global,
    tree: &Arena<Node>,
    areas: &[(NodeId, Area)],
    turns: &[u64],
) -> Result<Sequence<usize>, NoMemory>
    requires { AreTurns (turn_at tree.now.tree) areas.now turns.now }
    ensures fresh { IfOk result
        (λ stale. (k : ℕ) → k < length areas.now → is_listed k stale ≡ false →
        is_fresh (turn_at tree.now.tree) areas.now turns.now k ≡ true) }
    ensures within { IfOk result (All (λ k. k < length areas.now)) }
{
    let mut stale = Sequence::new(alloc);
    for index in 0..areas.len() {
        let (child, _) = areas[index];
        let turn = turn_of(tree, child);
        if turns[index] != turn || turn == u64::MAX {
            stale.push(index)?;
        }
    }
    Ok(stale)
}

/// Takes what a node keeps of what its children told for its columns.
fn lose_columns(tree: &mut Arena<Node>, id: NodeId) -> Option<SharedColumns>
    requires { IsLive (bare tree.old.tree) id }
    ensures lost { ChangesPast tree.old tree.new id
        (record (past_at tree.old.tree id) { columns = None }) }
    ensures kept { result ≡ (past_at tree.old.tree id).columns }
{
    let node = tree.get_mut(id).unwrap();
    node.past.columns.take()
}

/// Keeps what the children of a node told for its columns in place of what it kept of that.
fn gain_columns(tree: &mut Arena<Node>, id: NodeId, kept: SharedColumns)
    requires { IsLive (bare tree.old.tree) id }
    ensures { ChangesPast tree.old tree.new id
        (record (past_at tree.old.tree id) { columns = Some kept }) }
{
    let node = tree.get_mut(id).unwrap();
    node.past.columns = Some(kept);
}

/// Takes what a node keeps of what its children told for its rows.
fn lose_wide(tree: &mut Arena<Node>, id: NodeId) -> Option<SharedTold>
    requires { IsLive (bare tree.old.tree) id }
    ensures lost { ChangesPast tree.old tree.new id
        (record (past_at tree.old.tree id) { wide = None }) }
    ensures kept { result ≡ (past_at tree.old.tree id).wide }
{
    let node = tree.get_mut(id).unwrap();
    node.past.wide.take()
}

/// Keeps what the children of a node told for its rows in place of what it kept of that.
fn gain_wide(tree: &mut Arena<Node>, id: NodeId, kept: SharedTold)
    requires { IsLive (bare tree.old.tree) id }
    ensures { ChangesPast tree.old tree.new id
        (record (past_at tree.old.tree id) { wide = Some kept }) }
{
    let node = tree.get_mut(id).unwrap();
    node.past.wide = Some(kept);
}

/// Takes what the children of a grid told last for its inline sizes, with those among them that must be asked again, since their
/// answers went; `None` where it keeps none. A walk goes on after it as before it. `NoMemory` where memory is wanting; it is lost then.
pub fn take_columns(
    alloc: Global,
    tree: &mut Arena<Node>,
    id: NodeId,
) -> Result<Option<PastColumns>, NoMemory>
    requires live { IsLive (bare tree.old.tree) id }
    requires right { IsRight tree.old.tree }
    ensures told { IfOk result (λ past. IfSome past (IsPastColumns (bare tree.old.tree) id)) }
    ensures right { IsRight tree.new.tree }
    ensures alike { IsAlike tree.old tree.new }
{
    let Some(shared) = lose_columns(tree, id) else {
        return Ok(None);
    };
    let Some(kept) = shared.into_inner() else {
        return Ok(None);
    };
    let KeptColumns { told, turns } = kept;
    let areas = told.parts.base.grid().placed.areas.as_slice();
    let stale = stale_children(alloc, tree, areas, turns.as_slice())?;
    Ok(Some(PastColumns { told, stale }))
}

/// Keeps what the children of a grid told for its inline sizes. A walk goes on after it as before it. `NoMemory` where memory is
/// wanting; nothing has changed then.
pub fn keep_columns(
    alloc: Global,
    tree: &mut Arena<Node>,
    id: NodeId,
    told: ToldColumns,
) -> Result<(), NoMemory>
    requires live { IsLive (bare tree.old.tree) id }
    requires right { IsRight tree.old.tree }
    requires places { HoldsPlaces (sight_at (bare tree.old.tree) id)
        (children_at (bare tree.old.tree) id) told.parts.base }
    requires told { AreColumns (sight_at (bare tree.old.tree) id) (kid_at (bare tree.old.tree)) Each
        told }
    ensures right { IsRight tree.new.tree }
    ensures alike { IsAlike tree.old tree.new }
{
    let areas = told.parts.base.grid().placed.areas.as_slice();
    let turns = turns_of(alloc, tree, areas)?;
    let shared = SharedColumns::new(alloc, KeptColumns { told, turns })?;
    gain_columns(tree, id, shared);
    Ok(())
}

/// Takes what the children of a grid told last for its block size, with those among them that must be asked again, since their
/// answers went; `None` where it keeps none. A walk goes on after it as before it. `NoMemory` where memory is wanting; it is lost then.
pub fn take_wide(
    alloc: Global,
    tree: &mut Arena<Node>,
    id: NodeId,
) -> Result<Option<PastWide>, NoMemory>
    requires live { IsLive (bare tree.old.tree) id }
    requires right { IsRight tree.old.tree }
    ensures told { IfOk result (λ past. IfSome past (IsPastWide (bare tree.old.tree) id)) }
    ensures right { IsRight tree.new.tree }
    ensures alike { IsAlike tree.old tree.new }
{
    let Some(shared) = lose_wide(tree, id) else {
        return Ok(None);
    };
    let Some(kept) = shared.into_inner() else {
        return Ok(None);
    };
    past_of(alloc, tree, kept)
}

/// What a grid kept of what its children told, with those among them that must be asked again; `None` where others read it too.
fn past_of(alloc: Global, tree: &Arena<Node>, kept: KeptWide) -> Result<Option<PastWide>, NoMemory>
    requires { AreTurns (turn_at tree.now.tree) kept.wide.parts.base.placed.areas kept.turns }
    ensures { IfOk result (λ past. IfSome past (IsPastOf (turn_at tree.now.tree) kept)) }
{
    let KeptWide {
        wide,
        align,
        column_ends,
        row_ends,
        turns,
    } = kept;
    let areas = wide.grid().parts.base.grid().placed.areas.as_slice();
    let stale = stale_children(alloc, tree, areas, turns.as_slice())?;
    let again = Sequence::from_slice(alloc, stale.as_slice())?;
    let base = wide.grid().parts.base.again()?;
    let Some(wide) = wide.into_inner() else {
        return Ok(None);
    };
    let GridWide {
        parts,
        columns,
        children,
        items,
        rows,
    } = wide;
    Ok(Some(PastWide {
        columns: PastColumns {
            told: ToldColumns {
                parts,
                ends: column_ends,
            },
            stale,
        },
        rows: PastRows {
            base,
            told: ToldRows {
                columns,
                align,
                children,
                items,
                ends: row_ends,
            },
            rows,
            stale: again,
        },
    }))
}

/// Keeps what the children of a grid told for its block size, with the grid in its columns. A walk goes on after it as before it.
/// `NoMemory` where memory is wanting; nothing has changed then.
pub fn keep_wide(
    alloc: Global,
    tree: &mut Arena<Node>,
    id: NodeId,
    wide: SharedWide,
    align: Align,
    column_ends: Sequence<usize>,
    row_ends: Sequence<usize>,
) -> Result<(), NoMemory>
    requires live { IsLive (bare tree.old.tree) id }
    requires right { IsRight tree.old.tree }
    requires places { HoldsPlaces (sight_at (bare tree.old.tree) id)
        (children_at (bare tree.old.tree) id) wide.parts.base }
    requires columns { AreColumns (sight_at (bare tree.old.tree) id) (kid_at (bare tree.old.tree))
        Each (record { parts = wide.parts; ends = column_ends }) }
    requires rows { AreRows (sight_at (bare tree.old.tree) id) (kid_at (bare tree.old.tree))
        wide.parts.base Each
        (record {
          columns = wide.columns;
          align = align;
          children = wide.children;
          items = wide.items;
          ends = row_ends;
        }) }
    requires laid { IfSome wide.rows
        (AreRowsFor (sight_at (bare tree.old.tree) id) wide.parts.base wide.items) }
    ensures right { IsRight tree.new.tree }
    ensures alike { IsAlike tree.old tree.new }
{
    let areas = wide.grid().parts.base.grid().placed.areas.as_slice();
    let turns = turns_of(alloc, tree, areas)?;
    let kept = KeptWide {
        wide,
        align,
        column_ends,
        row_ends,
        turns,
    };
    let shared = SharedTold::new(alloc, kept)?;
    gain_wide(tree, id, shared);
    Ok(())
}

/// Where the items of the child of this index begin among those of all.
fn start_of(ends: &[usize], index: usize) -> usize
    requires { index < length ends.now }
    ensures { (parts : List (List Item)) → ends.now ≡ ends_from 0 parts →
        result ≡ length (joined (take index parts)) }
{
    if index == 0 { 0 } else { ends[index - 1] }
}

/// Puts other items in the place of as many from an index on, and tells whether any is another one than that before.
fn write_items(items: &mut Sequence<Item>, start: usize, own: &[Item]) -> bool
    requires within { start + length own.now ≤ length items.old }
    requires room { start + length own.now < 2 ^ 64 }
    ensures items { items.new ≡
        take start items.old ++ own.now ++ drop (start + length own.now) items.old }
    ensures same { result ≡ false → items.new ≡ items.old }
{
    let mut other = false;
    for at in 0..own.len() {
        if !same_item(&items.as_slice()[start + at], &own[at]) {
            other = true;
        }
        items.set(start + at, own[at]);
    }
    other
}

/// Puts other items in the place of those between two indices. `NoMemory` where memory is wanting.
fn splice_items(
    alloc: Global,
    items: &mut Sequence<Item>,
    start: usize,
    end: usize,
    own: &[Item],
) -> Result<(), NoMemory>
    requires { (start ≤ end) × (end ≤ length items.old) }
    ensures items { OnOk result
        (items.new ≡ take start items.old ++ own.now ++ drop end items.old) }
    ensures room { OnOk result (length items.new < 2 ^ 64) }
{
    let mut all = Vec::new(alloc);
    all.extend_from_slice(&items.as_slice()[..start])?;
    all.extend_from_slice(own)?;
    all.extend_from_slice(&items.as_slice()[end..])?;
    *items = Sequence::from_vec(all);
    Ok(())
}

/// From an index on each end lies so much further: it is no more below that of the first than `less`.
fn move_ends(ends: &mut Sequence<usize>, index: usize, less: usize, more: usize)
    requires { AreMovable (drop index ends.old) less more }
    ensures { ends.new ≡
        take index ends.old ++ map (λ (end : ℕ). end - less + more) (drop index ends.old) }
{
    for at in index..ends.len() {
        if let Some(end) = ends.get(at) {
            let moved = *end - less + more;
            ends.set(at, moved);
        }
    }
}

/// Puts other items in the place of those of the child of this index, and tells whether any is another one than before. `NoMemory`
/// where memory is wanting.
pub fn put_items(
    alloc: Global,
    items: &mut Sequence<Item>,
    ends: &mut Sequence<usize>,
    index: usize,
    own: &[Item],
) -> Result<bool, NoMemory>
    requires parts { HasParts items.old ends.old }
    requires index { index < length ends.old }
    ensures items { OnOk result
        ((parts : List (List Item)) → items.old ≡ joined parts → ends.old ≡ ends_from 0 parts →
        items.new ≡ joined (slice_set parts index own.now)) }
    ensures ends { OnOk result
        ((parts : List (List Item)) → items.old ≡ joined parts → ends.old ≡ ends_from 0 parts →
        ends.new ≡ ends_from 0 (slice_set parts index own.now)) }
    ensures same { IfOk result (λ other. other ≡ false → items.new ≡ items.old) }
{
    let start = start_of(ends.as_slice(), index);
    let end = ends.as_slice()[index];
    if end - start == own.len() {
        return Ok(write_items(items, start, own));
    }
    splice_items(alloc, items, start, end, own)?;
    move_ends(ends, index, end - start, own.len());
    Ok(true)
}
