//! A grid once its columns lie where they lie: its columns, and each child as wide as it is there (CSS Grid 2, 12.1 and 6.2).

ghost use Rattle.std.specs.Prelude.{◌≡◌, ◌+◌, ◌^◌, ◌-ℤ◌, ◌&&◌, ℕ, ◌<◌, ◌≤◌, ◌≤ℤ◌, ◌∷◌, [], ◌++◌, List, drop, false, length, map, pos, slice_get, true, IfOk, OnOk, Some};
ghost use Rattle.lunit.specs.declared.geometry.Area.{Area};
ghost use Rattle.lunit.specs.Units.{IsUnits};
ghost use Rattle.node_arena.specs.declared.number.NodeId.{NodeId};
ghost use Rattle.placing.specs.Areas.{entries_at, entry_by};
ghost use Rattle.placing.specs.Nodes.{bare, kid_at, level_at, sight_at, IsLive};
ghost use Rattle.placing.specs.Ranges.{AreReadable};
ghost use Rattle.tree_rules.specs.Answers.{Pair};
ghost use Rattle.tree_rules.specs.AskedQueries.{block_query};
ghost use Rattle.tree_rules.specs.GridSizes.{from_first, grid_lends_rows, shares_columns, shares_rows};
ghost use Rattle.tree_rules.specs.Chains.{is_subgrid};
ghost use Rattle.placing.specs.Axes.{grid_axis};
ghost use Rattle.tree_rules.specs.LentItems.{child_item, empty_item};
ghost use Rattle.tree_rules.specs.Queries.{Fits, IsGivenFor, outer_context, sees_columns};
ghost use Rattle.tree_rules.specs.declared.kind.NodeKind.TheVariants as kind;
ghost use Rattle.tree_rules.specs.declared.query.Given.{Given};
ghost use Rattle.inline_sizes.specs.GridsSeen.{grid_seen};
ghost use Rattle.inline_sizes.specs.Grids.{IsEntry, IsGrid, IsLaid, has_subgrid_kind, pairs_seen};
ghost use Rattle.inline_sizes.specs.Lifted.{IsLifted, IsSelfLifted};
ghost use Rattle.block_sizes.specs.Children.{inline_of_child};
ghost use Rattle.block_sizes.specs.Spans.{HasZero, tracks_to};
ghost use Rattle.placing.specs.Spread.{AreSpread, IsSpread};
ghost use Rattle.block_sizes.specs.Wides.{IsChildIn, IsWide, columns_seen, farthest, row_levels, rows_seen};

use crate::children::{child_inline, from_first};
use crate::views::view_by;
use crate::walk::is_grid;
use inline_sizes::{TrackInput, child_item, empty_item, items_lie_in_their_tracks};
use layout_cache::Given;
use lunit::{Area, Item, Lu, NoMemory, Sequence, Span, Steps};
use node_arena::{Arena, NodeId};
use part_rules::{Level, View};
use placing::style::{is_subgrid, items};
use placing::{Above, ChildArea, GridBase, GridParts, GridWide, Node, entry, node_at, root};
use std::alloc::Global;
use std::mem;
use std::sync::ledger::Ledger;

/// The subgrids from a grid up to the grid that sizes its rows, itself first.
pub(crate) fn row_levels(above: &Above) -> &[Level]
    ensures { result.now ≡ row_levels above.now }
{
    match above {
        Above::Nothing => &[],
        Above::Grid(context) => context.rows.levels.as_slice(),
    }
}

/// The spans of the children of a grid along the columns.
fn column_spans(alloc: Global, areas: &[(NodeId, Area)]) -> Result<Vec<Span>, NoMemory>
    ensures { IfOk result
        (λ spans. spans.items ≡ map (λ (e : NodeId × Area). e.1.columns) areas.now) }
{
    let mut spans = Vec::with_capacity(alloc, areas.len())?;
    for (_, area) in areas {
        spans.push(area.columns)?;
    }
    Ok(spans)
}

/// The spans of the children of a grid along the rows.
pub(crate) fn row_spans(alloc: Global, areas: &[(NodeId, Area)]) -> Result<Vec<Span>, NoMemory>
    ensures { IfOk result (λ spans. spans.items ≡ map (λ (e : NodeId × Area). e.1.rows) areas.now) }
{
    let mut spans = Vec::with_capacity(alloc, areas.len())?;
    for (_, area) in areas {
        spans.push(area.rows)?;
    }
    Ok(spans)
}

/// Items put after others.
pub(crate) fn append(
    alloc: Global,
    items: &mut Sequence<Item>,
    more: &[Item],
) -> Result<(), NoMemory>
    ensures { OnOk result (items.new ≡ items.old ++ more.now) }
{
    let mut all = mem::replace(items, Sequence::new(alloc)).into_vec();
    all.extend_from_slice(more)?;
    *items = Sequence::from_vec(all);
    Ok(())
}

/// Whether a child of a grid is a subgrid in an axis.
pub(crate) fn shares<const AXIS: u8>(tree: &Arena<Node>, id: NodeId) -> bool
    requires { IsLive (bare tree.now.tree) id }
    ensures { result ≡
        (has_subgrid_kind (sight_at (bare tree.now.tree) id).label &&
        is_subgrid (grid_axis AXIS (sight_at (bare tree.now.tree) id).label.grid).template) }
{
    let node = node_at(tree, id);
    is_grid(&node.kind) && is_subgrid::<AXIS>(&node.style)
}

/// The child of a grid whose area is told at an index, with its seat in both axes.
pub(crate) fn child_in(
    tree: &Arena<Node>,
    id: NodeId,
    reps: &[(u32, u32)],
    width: &Given,
    parts: &GridParts,
    index: usize,
) -> ChildArea
    requires live { IsLive (bare tree.now.tree) id }
    requires readable { AreReadable (bare tree.now.tree) }
    requires kind { (sight_at (bare tree.now.tree) id).label.kind ≡ kind.Grid }
    requires grid { IsGrid (bare tree.now.tree) id reps.now width.now parts.now }
    requires index { index < length parts.now.base.placed.areas }
    ensures child { IsChildIn (bare tree.now.tree) id parts.now.base result }
    ensures told { slice_get parts.now.base.placed.areas index ≡ Some (result.child, result.area) }
    ensures next { drop index (entries_at (bare tree.now.tree) id parts.now.base.placed) ≡
        entry_by (bare tree.now.tree) result ∷
        drop (index + 1) (entries_at (bare tree.now.tree) id parts.now.base.placed) }
{
    root(tree);
    items_lie_in_their_tracks(tree, id);
    let base = parts.base.grid();
    entry(tree, id, &base.placed, index)
}

/// How many items along the rows to make room for at once: one for each child, or, where the first child is a subgrid in the rows,
/// one for each row that it spans and one that stands for itself, nine at most, for each. Any number is right here, since a longer
/// list grows.
pub(crate) fn items_room(
    tree: &Arena<Node>,
    id: NodeId,
    reps: &[(u32, u32)],
    width: &Given,
    parts: &GridParts,
) -> usize
    requires live { IsLive (bare tree.now.tree) id }
    requires readable { AreReadable (bare tree.now.tree) }
    requires kind { (sight_at (bare tree.now.tree) id).label.kind ≡ kind.Grid }
    requires grid { IsGrid (bare tree.now.tree) id reps.now width.now parts.now }
{
    let count = parts.base.grid().placed.areas.len();
    if count == 0 {
        return 0;
    }
    let first = child_in(tree, id, reps, width, parts, 0);
    if !shares::<1>(tree, first.child) {
        return count;
    }
    let span = first.area.rows;
    let lent = span.end.saturating_sub(span.start).saturating_add(1);
    count.saturating_mul(lent.max(1).min(9) as usize)
}

#[tactic(auto, using(crate::proofs::Widths::sizes_next))]
/// The two intrinsic inline sizes of the child at an index.
pub(crate) fn sizes_at(parts: &GridParts, index: usize) -> (Lu, Lu)
    requires { index < length parts.now.inlines }
    ensures { drop index parts.now.inlines ≡ result ∷ drop (index + 1) parts.now.inlines }
{
    let sizes = parts.inlines.as_slice();
    sizes[index]
}

/// The columns of a subgrid in the columns are the tracks that it spans, and line 0 lies in the columns of every grid. The function
/// does next to nothing: the law is its contract.
fn columns_reach(tree: &Arena<Node>, id: NodeId)
    requires { AreReadable (bare tree.now.tree) }
    ensures shared { (outer : List Pair) (width : Given) →
        sees_columns (sight_at (bare tree.now.tree) id) ≡ true →
        (grid_seen (bare tree.now.tree) id outer width).placed.columns ≡
        tracks_to (outer_context (sight_at (bare tree.now.tree) id) outer).columns.table.tracks }
    ensures zero { (outer : List Pair) (width : Given) →
        HasZero (grid_seen (bare tree.now.tree) id outer width).placed.columns }
{
    tree.root();
}

/// The columns of a grid by what it is given in the inline axis: they are sized for a size and distributed in it, in one step, or
/// they are the tracks that it is given. `NoMemory` where memory is wanting.
pub(crate) fn columns_of<L: Ledger>(
    alloc: Global,
    tree: &Arena<Node>,
    id: NodeId,
    reps: &[(u32, u32)],
    width: &Given,
    parts: &GridParts,
    passes: &mut Steps<L>,
) -> Result<View<0>, NoMemory>
    requires live { IsLive (bare tree.now.tree) id }
    requires readable { AreReadable (bare tree.now.tree) }
    requires kind { (sight_at (bare tree.now.tree) id).label.kind ≡ kind.Grid }
    requires grid { IsGrid (bare tree.now.tree) id reps.now width.now parts.now }
    requires inline { IsGivenFor true (sees_columns (sight_at (bare tree.now.tree) id))
        (outer_context (sight_at (bare tree.now.tree) id) reps.now).columns.table.tracks width.now }
    requires spread { IsSpread (farthest (level_at (bare tree.now.tree) id)) width.now }
    ensures value { IfOk result
        (λ view. view ≡ columns_seen (bare tree.now.tree) id reps.now width.now) }
    ensures counted { IfOk result
        (λ view. pos (length view.edges) ≡
        (parts.now.base.placed.columns.end -ℤ parts.now.base.placed.columns.start)) }
    ensures gap { IfOk result (λ view. pos 0 ≤ℤ view.gap) }
    ensures range { IfOk result (λ view. IsUnits view.gap) }
    ensures spread { IfOk result
        (λ view. AreSpread (farthest (level_at (bare tree.now.tree) id)) view.edges) }
    ensures far { IfOk result
        (λ view. (by : ℕ) → 2 ^ 51 ≤ by → IsSpread by width.now → AreSpread by view.edges) }
    ensures kept { passes.old ≤ passes.new }
    ensures ticks { passes.new ≤ passes.old + 1 }
{
    items_lie_in_their_tracks(tree, id);
    columns_reach(tree, id);
    let base = parts.base.grid();
    let spans = column_spans(alloc, base.placed.areas.as_slice())?;
    let (count, _) = base.pair;
    let input = TrackInput {
        style: &node_at(tree, id).style,
        count,
        spans: spans.as_slice(),
        tracks: base.placed.columns,
        items: parts.items.as_slice(),
    };
    let view = view_by::<0, L>(alloc, &input, width, passes)?;
    Ok(view)
}

/// The inline size of a child of a grid as a border-box size, and what it is given there. `NoMemory` where memory is wanting.
pub(crate) fn wide_child(
    alloc: Global,
    tree: &Arena<Node>,
    id: NodeId,
    base: &GridBase,
    columns: &View<0>,
    entry: ChildArea,
    sizes: (Lu, Lu),
) -> Result<(Lu, Given), NoMemory>
    requires live { IsLive (bare tree.now.tree) id }
    requires readable { AreReadable (bare tree.now.tree) }
    requires laid { IsLaid (bare tree.now.tree) id base.now }
    requires entry { IsChildIn (bare tree.now.tree) id base.now entry }
    requires counted { pos (length columns.now.edges) ≡
        (base.now.placed.columns.end -ℤ base.now.placed.columns.start) }
    requires gap { pos 0 ≤ℤ columns.now.gap }
    requires range { IsUnits columns.now.gap }
    requires spread { AreSpread (farthest (level_at (bare tree.now.tree) id)) columns.now.edges }
    ensures value { IfOk result
        (λ inline. inline ≡
        inline_of_child (sight_at (bare tree.now.tree) id).label.content.inline.items
        columns.now (from_first base.now.placed.columns entry.area.columns)
        (kid_at (bare tree.now.tree) entry.child).label
        (shares_columns (kid_at (bare tree.now.tree) entry.child)) sizes) }
    ensures fits { IfOk result
        (λ inline. Fits (sight_at (bare tree.now.tree) entry.child)
        (block_query (shares_rows (kid_at (bare tree.now.tree) entry.child))
        (pairs_seen (bare tree.now.tree) base.now entry) inline.1)) }
    ensures spread { IfOk result
        (λ inline. IsSpread (farthest (level_at (bare tree.now.tree) entry.child)) inline.1) }
{
    let align = items::<0>(&node_at(tree, id).style);
    let span = from_first(base.placed.columns, entry.area.columns);
    let shared = shares::<0>(tree, entry.child);
    let style = &node_at(tree, entry.child).style;
    root(tree);
    let inline = child_inline(alloc, align, columns, span, style, shared, sizes)?;
    Ok(inline)
}

/// A child of a grid that is no subgrid in the rows as an item along the rows, by the block size of its content.
pub(crate) fn row_item(tree: &Arena<Node>, base: &GridBase, entry: ChildArea, block: Lu) -> Item
    requires live { IsLive (bare tree.now.tree) entry.child }
    requires readable { AreReadable (bare tree.now.tree) }
    requires lifted { IsLifted (row_levels base.now.above) entry.area.rows }
    ensures { result ≡
        child_item (row_levels base.now.above)
        (kid_at (bare tree.now.tree) entry.child).label.content.border_box
        (kid_at (bare tree.now.tree) entry.child).label.content.scrolls
        (kid_at (bare tree.now.tree) entry.child).label.grid.rows
        (kid_at (bare tree.now.tree) entry.child).label.content.block entry.area.rows
        (block, block) }
{
    let style = &node_at(tree, entry.child).style;
    child_item::<1>(
        row_levels(&base.above),
        style,
        entry.area.rows,
        (block, block),
    )
}

/// The item that stands for a subgrid under these levels, and other items after it.
fn with_standing_item(
    alloc: Global,
    levels: &[Level],
    others: &[Item],
) -> Result<Sequence<Item>, NoMemory>
    requires { IsSelfLifted levels.now }
    ensures { IfOk result (λ items. items ≡ empty_item levels.now ++ others.now) }
{
    let mut items = Sequence::new(alloc);
    if let Some(item) = empty_item(levels) {
        items.push(item)?;
    }
    append(alloc, &mut items, others)?;
    Ok(items)
}

/// The items that a subgrid in the rows lends: one that stands for itself, and those of its children (CSS Grid 2, section 9).
/// `NoMemory` where memory is wanting.
fn lent_rows(
    alloc: Global,
    tree: &Arena<Node>,
    id: NodeId,
    reps: &[(u32, u32)],
    width: &Given,
    wide: &GridWide,
) -> Result<Sequence<Item>, NoMemory>
    requires live { IsLive (bare tree.now.tree) id }
    requires readable { AreReadable (bare tree.now.tree) }
    requires kind { (sight_at (bare tree.now.tree) id).label.kind ≡ kind.Grid }
    requires wide { IsWide (bare tree.now.tree) id reps.now width.now wide.now }
    ensures { IfOk result
        (λ items. items ≡
        grid_lends_rows (grid_seen (bare tree.now.tree) id reps.now width.now)
        (rows_seen (bare tree.now.tree) id reps.now width.now)) }
{
    items_lie_in_their_tracks(tree, id);
    let base = wide.parts.base.grid();
    let levels = row_levels(&base.above);
    let items = with_standing_item(alloc, levels, wide.items.as_slice())?;
    Ok(items)
}

/// The items that a subgrid in the rows lends, as `lent_rows` finds them. The grid in its columns is let go here, in one place.
pub(crate) fn lent_of(
    alloc: Global,
    tree: &Arena<Node>,
    id: NodeId,
    reps: &[(u32, u32)],
    width: &Given,
    wide: GridWide,
) -> Result<Sequence<Item>, NoMemory>
    requires live { IsLive (bare tree.now.tree) id }
    requires readable { AreReadable (bare tree.now.tree) }
    requires kind { (sight_at (bare tree.now.tree) id).label.kind ≡ kind.Grid }
    requires wide { IsWide (bare tree.now.tree) id reps.now width.now wide }
    ensures { IfOk result
        (λ items. items ≡
        grid_lends_rows (grid_seen (bare tree.now.tree) id reps.now width.now)
        (rows_seen (bare tree.now.tree) id reps.now width.now)) }
{
    lent_rows(alloc, tree, id, reps, width, &wide)
}
