//! What a container does in the block axis before its children are asked for their block sizes: what they answer in the inline axis is
//! asked, and it is found what each of them is given. Also the lists that what they tell is put in.

ghost use Rattle.std.specs.Prelude.{◌≡◌, ◌++◌, ◌∷◌, [], false, length, true, IfOk, OnErr, OnOk};
ghost use Rattle.flex_lines.specs.Lines.{AreRanges};
ghost use Rattle.placing.specs.Nodes.{bare, level_at, sight_at, IsLive};
ghost use Rattle.placing.specs.Ranges.{AreReadable};
ghost use Rattle.placing.specs.Spread.{IsSpread};
ghost use Rattle.placing.specs.Walks.{Stopped, WalkedBelow};
ghost use Rattle.tree_rules.specs.FlexSizes as rules;
ghost use Rattle.tree_rules.specs.Queries.{outer_context, sees_columns, IsGivenFor};
ghost use Rattle.tree_rules.specs.declared.kind.NodeKind.TheVariants as kind;
ghost use Rattle.tree_rules.specs.declared.query.Query.{Query};
ghost use Rattle.walker.specs.Walkers.{nodes, seen, HasSeat, SameParts, Stands};
ghost use Rattle.inline_sizes.specs.Flexes.{AreMembers, flex_seen};
ghost use Rattle.inline_sizes.specs.Grids.{IsGrid};
ghost use Rattle.block_sizes.specs.Flexes.{lines_of};
ghost use Rattle.block_sizes.specs.Settling.{column_boxes_seen, row_items_seen, AreKnown, AreRoomy};
ghost use Rattle.block_sizes.specs.Told.{IsBegun};
ghost use Rattle.block_sizes.specs.Wides.{farthest};

use crate::again::{past_for, take_past};
use crate::flex::{boxes_in_column, items_in_row};
use crate::flexes::row_lines;
use crate::wide::{columns_of, items_room};
use inline_sizes::{flex_in, grid_in, with_room};
use layout_cache::Given;
use lunit::{Item, Lu, NoMemory, Sequence};
use node_arena::{Arena, NodeId};
use outside::Ruler;
use part_rules::{FlexItem, View};
use placing::{
    GridParts, Lines, Member, Node, PastRows, ToldAlong, ToldColumns, WideChild, node_at,
};
use std::alloc::Global;
use std::sync::ledger::Ledger;
use walker::{Seat, Walker};

/// A grid in its seat with its columns placed, before its children are asked in them.
#[derive(Drop)]
pub struct BegunWide {
    /// The grid with what its children told for its columns.
    pub told: ToldColumns,
    /// Where its columns lie.
    pub columns: View<0>,
    /// What its children told in these columns last, if that is known.
    pub past: Option<PastRows>,
}

/// A grid in its seat with its columns placed (CSS Grid 2, 12.1). What its children told last is taken from it. It makes one step, or
/// none where it is given its columns. `NoMemory` where memory is wanting.
pub(crate) fn begin_wide<R: Ruler, L: Ledger>(
    walk: &mut Walker<R, L>,
    id: NodeId,
    seat: &Seat,
    width: &Given,
) -> Result<BegunWide, NoMemory>
    requires stands { Stands walk.old }
    requires live { IsLive (nodes walk.old) id }
    requires grid { (sight_at (nodes walk.old) id).label.kind ≡ kind.Grid }
    requires reps { length seat.now.reps.now ≡ length (sight_at (nodes walk.old) id).chain }
    requires seat { HasSeat (sight_at (nodes walk.old) id) seat.now }
    requires inline { IsGivenFor true (sees_columns (sight_at (nodes walk.old) id))
        (outer_context (sight_at (nodes walk.old) id) seat.now.reps.now).columns.table.tracks
        width.now }
    requires spread { IsSpread (farthest (level_at (nodes walk.old) id)) width.now }
    ensures value { IfOk result (IsBegun (nodes walk.old) id seat.now.reps.now width.now) }
    ensures stands { Stands walk.new }
    ensures parts { SameParts walk.old walk.new }
    ensures same { OnOk result (nodes walk.new ≡ nodes walk.old) }
    ensures below { OnOk result
        ((q : Query) → q.reps ≡ seat.now.reps.now → q.inline ≡ width.now →
        WalkedBelow id q 1 (seen R.log walk.old) (seen R.log walk.new)) }
    ensures stopped { OnErr result
        ((q : Query) → q.reps ≡ seat.now.reps.now → q.inline ≡ width.now →
        Stopped id q (seen R.log walk.old) (seen R.log walk.new)) }
{
    let (before, rows) = take_past(walk, id)?;
    let told = grid_in(walk, id, seat, width, before)?;
    let columns = columns_of(
        walk.alloc,
        walk.tree,
        id,
        seat.reps,
        width,
        &told.parts,
        walk.passes,
    )?;
    let past = past_for(walk.tree, id, seat.reps, width, &told.parts, &columns, rows);
    Ok(BegunWide {
        told,
        columns,
        past,
    })
}

/// The children of a column of this inline size, and the inline size of each as a border-box size (CSS Flexbox 1, 9.2). What they told
/// last is `past`. `NoMemory` where memory is wanting.
pub(crate) fn begin_column<R: Ruler, L: Ledger>(
    walk: &mut Walker<R, L>,
    id: NodeId,
    width: Lu,
    past: &[ToldAlong],
) -> Result<(Sequence<Member>, Sequence<Lu>), NoMemory>
    requires stands { Stands walk.old }
    requires live { IsLive (nodes walk.old) id }
    requires flex { (sight_at (nodes walk.old) id).label.kind ≡ kind.Flex }
    requires direction { (sight_at (nodes walk.old) id).label.content.column ≡ true }
    requires past { AreKnown (nodes walk.old) id width past.now }
    ensures members { IfOk result (λ begun. AreMembers (nodes walk.old) id begun.0) }
    ensures boxes { IfOk result (λ begun. begun.1 ≡ column_boxes_seen (nodes walk.old) id width) }
    ensures roomy { IfOk result
        (λ begun. AreRoomy (flex_seen (nodes walk.old) id).members begun.1) }
    ensures stands { Stands walk.new }
    ensures parts { SameParts walk.old walk.new }
    ensures same { OnOk result (nodes walk.new ≡ nodes walk.old) }
    ensures below { OnOk result
        ((q : Query) → WalkedBelow id q 0 (seen R.log walk.old) (seen R.log walk.new)) }
    ensures stopped { OnErr result
        ((q : Query) → Stopped id q (seen R.log walk.old) (seen R.log walk.new)) }
{
    let parts = flex_in(walk, id)?;
    let members = parts.members;
    let boxes = boxes_in_column(walk.alloc, walk.tree, id, width, members.as_slice(), past)?;
    Ok((members, boxes))
}

/// The children of a row of this inline size, as they are and as items along the inline axis, and its lines (CSS Flexbox 1, 9.3 and
/// 9.7). What they told last is `past`. It makes one step. `NoMemory` where memory is wanting.
pub(crate) fn begin_row<R: Ruler, L: Ledger>(
    walk: &mut Walker<R, L>,
    id: NodeId,
    width: Lu,
    past: &[ToldAlong],
) -> Result<(Sequence<Member>, Vec<FlexItem>, Lines), NoMemory>
    requires stands { Stands walk.old }
    requires live { IsLive (nodes walk.old) id }
    requires flex { (sight_at (nodes walk.old) id).label.kind ≡ kind.Flex }
    requires direction { (sight_at (nodes walk.old) id).label.content.column ≡ false }
    requires past { AreKnown (nodes walk.old) id width past.now }
    ensures members { IfOk result (λ begun. AreMembers (nodes walk.old) id begun.0) }
    ensures items { IfOk result
        (λ begun. begun.1.items ≡ row_items_seen (nodes walk.old) id width) }
    ensures lines { IfOk result
        (λ begun. lines_of begun.2 ≡ rules.row_lines (flex_seen (nodes walk.old) id) width) }
    ensures ranges { IfOk result (λ begun. AreRanges (length begun.0) begun.2.ranges) }
    ensures roomy { IfOk result
        (λ begun. AreRoomy (flex_seen (nodes walk.old) id).members begun.2.mains) }
    ensures stands { Stands walk.new }
    ensures parts { SameParts walk.old walk.new }
    ensures same { OnOk result (nodes walk.new ≡ nodes walk.old) }
    ensures below { OnOk result
        ((q : Query) → WalkedBelow id q 1 (seen R.log walk.old) (seen R.log walk.new)) }
    ensures stopped { OnErr result
        ((q : Query) → Stopped id q (seen R.log walk.old) (seen R.log walk.new)) }
{
    let parts = flex_in(walk, id)?;
    let members = parts.members;
    let items = items_in_row(walk.alloc, walk.tree, id, width, members.as_slice(), past)?;
    let style = &node_at(walk.tree, id).style;
    let lines = row_lines(walk.alloc, style, width, &items, walk.passes)?;
    Ok((members, items, lines))
}

/// The lists that the children of a grid are put in, with their items along the rows and where those of each end, with room for them.
/// `NoMemory` where memory is wanting.
pub(crate) fn lists_for(
    alloc: Global,
    tree: &Arena<Node>,
    id: NodeId,
    reps: &[(u32, u32)],
    width: &Given,
    parts: &GridParts,
) -> Result<(Sequence<WideChild>, Sequence<Item>, Sequence<usize>), NoMemory>
    requires live { IsLive (bare tree.now.tree) id }
    requires readable { AreReadable (bare tree.now.tree) }
    requires kind { (sight_at (bare tree.now.tree) id).label.kind ≡ kind.Grid }
    requires grid { IsGrid (bare tree.now.tree) id reps.now width.now parts.now }
    ensures children { IfOk result (λ lists. lists.0 ≡ []) }
    ensures items { IfOk result (λ lists. lists.1 ≡ []) }
    ensures ends { IfOk result (λ lists. lists.2 ≡ []) }
{
    let count = parts.base.grid().placed.areas.len();
    let children = with_room(alloc, count)?;
    let room = items_room(tree, id, reps, width, parts);
    let items = with_room(alloc, room)?;
    let ends = with_room(alloc, count)?;
    Ok((children, items, ends))
}

/// Puts one more child of a grid, and where its items along the rows end, after the children before it. `NoMemory` where memory is
/// wanting.
pub(crate) fn add_child(
    children: &mut Sequence<WideChild>,
    ends: &mut Sequence<usize>,
    child: WideChild,
    end: usize,
) -> Result<(), NoMemory>
    ensures children { OnOk result (children.new ≡ children.old ++ child ∷ []) }
    ensures ends { OnOk result (ends.new ≡ ends.old ++ end ∷ []) }
{
    children.push(child)?;
    ends.push(end)?;
    Ok(())
}
