//! The frames of the children of a grid, once its columns lie where they lie and each child is as wide as it is there (CSS Grid 2,
//! sections 6 and 11).

ghost use Rattle.std.specs.Prelude.{◌≡◌, ◌+◌, ◌&&◌, ◌<◌, ◌≤ℤ◌, ◌∷◌, drop, get_or, length, map, pos, true, IfOk, IfSome, OnOk};
ghost use Rattle.placing.specs.Areas.{entries_at, entry_by};
ghost use Rattle.placing.specs.Nodes.{bare, children_at, kid_at, sight_at, IsLive};
ghost use Rattle.placing.specs.Kept.{frame_of};
ghost use Rattle.placing.specs.Ranges.{AreReadable};
ghost use Rattle.placing.specs.Told.{AreFrames, ArePastFrames, Each, Marked};
ghost use Rattle.placing.specs.Turns.{turns};
ghost use Rattle.placing.specs.declared.node.Frame.{Frame as NodeFrame};
ghost use Rattle.tree_rules.specs.Chains.{is_subgrid};
ghost use Rattle.tree_rules.specs.NodeSizes.{inner_start};
ghost use Rattle.tree_rules.specs.declared.kind.NodeKind.TheVariants as kind;
ghost use Rattle.inline_sizes.specs.Grids.{IsEntry, has_subgrid_kind};
ghost use Rattle.block_sizes.specs.Sharing.{IsLastIn};
ghost use Rattle.block_sizes.specs.Spans.{LiesIn};
ghost use Rattle.block_sizes.specs.Wides.{IsWide};
ghost use Rattle.box_layout.specs.GridFrames.{AreAgain, AreFramesAt, AreIndices, AreTracks, IsFrameOf, IsLastOf, framed_in, no_frame};
ghost use Rattle.box_layout.specs.Tracked.{IsTracked, frames_by, nodes_in};

use crate::frames::origin_of;
use crate::framing::is_grid;
use crate::grids::{OverTracks, frame_over_from};
use crate::turns::turns;
use block_sizes::{LastTracks, from_first, same_view};
use inline_sizes::items_lie_in_their_tracks;
use layout_cache::{Given, same_counts};
use lunit::{Lu, NoMemory, Sequence};
use node_arena::{Arena, NodeId};
use part_rules::View;
use placing::style::is_subgrid;
use placing::{
    ChildArea, Frame, GridWide, Node, PastFrames, WideChild, count, entry, node_at, root,
};
use std::alloc::Global;

/// A grid whose tracks lie where they lie, with what is known of its children.
#[derive(Clone, Copy)]
pub(crate) struct TrackedGrid<'a> {
    /// The tree in which it stands.
    pub(crate) tree: &'a Arena<Node>,
    /// Its number.
    pub(crate) id: NodeId,
    /// The counts of the automatic repeats of the grids above it that it sees, columns first, the topmost grid first.
    pub(crate) reps: &'a [(u32, u32)],
    /// What it is given in the inline axis.
    pub(crate) width: &'a Given,
    /// It in its columns, with its children.
    pub(crate) wide: &'a GridWide,
    /// Its rows.
    pub(crate) rows: &'a View<1>,
}

/// Whether a child of a grid is a subgrid in the columns, and in the rows.
fn shares(tree: &Arena<Node>, id: NodeId) -> (bool, bool)
    requires { IsLive (bare tree.now.tree) id }
    ensures columns { result.0 ≡
        (has_subgrid_kind (sight_at (bare tree.now.tree) id).label &&
        is_subgrid (sight_at (bare tree.now.tree) id).label.grid.columns.template) }
    ensures rows { result.1 ≡
        (has_subgrid_kind (sight_at (bare tree.now.tree) id).label &&
        is_subgrid (sight_at (bare tree.now.tree) id).label.grid.rows.template) }
{
    let node = node_at(tree, id);
    let lower = is_grid(&node.kind);
    let in_columns = lower && is_subgrid::<0>(&node.style);
    let in_rows = lower && is_subgrid::<1>(&node.style);
    (in_columns, in_rows)
}

/// The child of a grid whose area is told at an index: it lies in the tracks of the grid.
fn child_over(
    tree: &Arena<Node>,
    id: NodeId,
    reps: &[(u32, u32)],
    width: &Given,
    wide: &GridWide,
    index: usize,
) -> ChildArea
    requires live { IsLive (bare tree.now.tree) id }
    requires readable { AreReadable (bare tree.now.tree) }
    requires kind { (sight_at (bare tree.now.tree) id).label.kind ≡ kind.Grid }
    requires wide { IsWide (bare tree.now.tree) id reps.now width.now wide.now }
    requires index { index < length wide.now.parts.base.placed.areas }
    ensures entry { IsEntry (bare tree.now.tree) id wide.now.parts.base result }
    ensures next { drop index (entries_at (bare tree.now.tree) id wide.now.parts.base.placed) ≡
        entry_by (bare tree.now.tree) result ∷
        drop (index + 1) (entries_at (bare tree.now.tree) id wide.now.parts.base.placed) }
    ensures columns { LiesIn wide.now.parts.base.placed.columns result.area.columns }
    ensures rows { LiesIn wide.now.parts.base.placed.rows result.area.rows }
    ensures there { index < length wide.now.children }
{
    root(tree);
    items_lie_in_their_tracks(tree, id);
    let base = wide.parts.base.grid();
    entry(tree, id, &base.placed, index)
}

/// What is known of the child of an index.
fn wide_child_at(wide: &GridWide, index: usize) -> &WideChild
    requires { index < length wide.now.children }
    ensures { result.now ≡ get_or wide.now.children index result.now }
{
    let children = wide.children.as_slice();
    &children[index]
}

/// The frame of the child of a grid whose area is told at an index, in these rows, where the content box of the grid starts here in
/// its border box. `NoMemory` where memory is wanting.
fn framed_child(
    alloc: Global,
    grid: &TrackedGrid<'_>,
    origin: (Lu, Lu),
    index: usize,
    last: &mut Option<LastTracks>,
) -> Result<Frame, NoMemory>
    requires grid { IsTracked grid.now }
    requires x { origin.0 ≡
        inner_start (sight_at (nodes_in grid.now) grid.now.id).label.grid.columns }
    requires y { origin.1 ≡ inner_start (sight_at (nodes_in grid.now) grid.now.id).label.grid.rows }
    requires index { index < length grid.now.wide.now.parts.base.placed.areas }
    requires last { IsLastIn grid.now.rows.now last.old }
    ensures frame { IfOk result
        (IsFrameOf (nodes_in grid.now) grid.now.id (get_or (frames_by grid.now) index no_frame)) }
    ensures last { OnOk result (IsLastIn grid.now.rows.now last.new) }
{
    let tree = grid.tree;
    let wide = grid.wide;
    let rows = grid.rows;
    let entry = child_over(tree, grid.id, grid.reps, grid.width, wide, index);
    let base = wide.parts.base.grid();
    let child = wide_child_at(wide, index);
    let container = node_at(tree, grid.id);
    let node = node_at(tree, entry.child);
    let shared = shares(tree, entry.child);
    let columns = from_first(base.placed.columns, entry.area.columns);
    let across = from_first(base.placed.rows, entry.area.rows);
    let over = OverTracks {
        child: entry.child,
        style: &node.style,
        shares: shared,
        columns,
        rows: across,
        width: child.box_,
        inline: &child.inline,
        content: child.block,
    };
    frame_over_from(
        alloc,
        &container.style,
        origin,
        &wide.columns,
        rows,
        &over,
        last,
    )
}

/// The frames of the children of a grid, in these rows, at these places among the areas.
fn framed_children(
    alloc: Global,
    grid: &TrackedGrid<'_>,
    places: &[(usize, i64)],
) -> Result<Sequence<Frame>, NoMemory>
    requires grid { IsTracked grid.now }
    requires places { AreIndices (length grid.now.wide.now.parts.base.placed.areas) places.now }
    ensures { IfOk result
        (AreFramesAt (nodes_in grid.now) grid.now.id (frames_by grid.now) places.now) }
{
    let origin = origin_of(&node_at(grid.tree, grid.id).style);
    let mut frames = Sequence::from_vec(Vec::with_capacity(alloc, places.len())?);
    let mut last = None;
    for place in places {
        let frame = framed_child(alloc, grid, origin, place.0, &mut last)?;
        frames.push(frame)?;
    }
    Ok(frames)
}

/// Whether the frames that a grid gave its children last were made under the same counts of the repetitions, and in the same columns and
/// rows.
fn serves(wide: &GridWide, rows: &View<1>, past: &PastFrames) -> bool
    ensures pairs { result ≡ true → past.now.base.pairs ≡ wide.now.parts.base.pairs }
    ensures columns { result ≡ true → past.now.columns ≡ wide.now.columns }
    ensures rows { result ≡ true → past.now.rows ≡ rows.now }
{
    let before = past.base.grid().pairs.as_slice();
    if !same_counts(before, wide.parts.base.grid().pairs.as_slice()) {
        return false;
    }
    if !same_view(&past.columns, &wide.columns) {
        return false;
    }
    same_view(&past.rows, rows)
}

/// Whether the child of an index is marked.
fn is_marked(fresh: &[bool], index: usize) -> bool
    requires { index < length fresh.now }
    ensures { result ≡ true → Marked fresh.now index }
{
    fresh[index]
}

/// Makes the frame of the child at one of these places among the areas again, where the child is not marked.
fn frame_again(
    alloc: Global,
    grid: &TrackedGrid<'_>,
    places: &[(usize, i64)],
    fresh: &[bool],
    at: usize,
    frames: &mut Sequence<Frame>,
    last: &mut Option<LastTracks>,
) -> Result<(), NoMemory>
    requires grid { IsTracked grid.now }
    requires places { AreIndices (length grid.now.wide.now.parts.base.placed.areas) places.now }
    requires fresh { length fresh.now ≡ length grid.now.wide.now.parts.base.placed.areas }
    requires at { at < length places.now }
    requires frames { AreAgain (nodes_in grid.now) grid.now.id (frames_by grid.now) places.now
        fresh.now at frames.old }
    requires last { IsLastIn grid.now.rows.now last.old }
    ensures frames { OnOk result
        (AreAgain (nodes_in grid.now) grid.now.id (frames_by grid.now) places.now fresh.now (at + 1)
        frames.new) }
    ensures last { OnOk result (IsLastIn grid.now.rows.now last.new) }
{
    let index = places[at].0;
    if is_marked(fresh, index) {
        return Ok(());
    }
    let origin = origin_of(&node_at(grid.tree, grid.id).style);
    let frame = framed_child(alloc, grid, origin, index, last)?;
    frames.set(at, frame);
    Ok(())
}

/// The frames of the children of a grid that it gave them last in these columns and rows, where those of children that are not marked are
/// made again, at these places among the areas.
fn framed_again(
    alloc: Global,
    grid: &TrackedGrid<'_>,
    places: &[(usize, i64)],
    fresh: &[bool],
    frames: Sequence<Frame>,
) -> Result<Sequence<Frame>, NoMemory>
    requires grid { IsTracked grid.now }
    requires places { places.now ≡ turns grid.now.wide.now.parts.base.placed.numbers }
    requires fresh { length fresh.now ≡ length grid.now.wide.now.parts.base.placed.areas }
    requires frames { AreFrames (sight_at (nodes_in grid.now) grid.now.id)
        (kid_at (nodes_in grid.now)) grid.now.wide.now.parts.base grid.now.wide.now.columns
        grid.now.rows.now (Marked fresh.now) frames }
    ensures { IfOk result
        (AreFramesAt (nodes_in grid.now) grid.now.id (frames_by grid.now) places.now) }
{
    root(grid.tree);
    let mut frames = frames;
    let mut last = None;
    for at in 0..places.len() {
        frame_again(alloc, grid, places, fresh, at, &mut frames, &mut last)?;
    }
    Ok(frames)
}

/// What a grid gave its children last, where it serves in these columns and rows.
fn last_for(
    tree: &Arena<Node>,
    id: NodeId,
    reps: &[(u32, u32)],
    width: &Given,
    wide: &GridWide,
    rows: &View<1>,
    past: Option<PastFrames>,
) -> Option<PastFrames>
    requires live { IsLive (bare tree.now.tree) id }
    requires wide { IsWide (bare tree.now.tree) id reps.now width.now wide.now }
    requires past { IfSome past (ArePastFrames (bare tree.now.tree) id) }
    ensures { IfSome result
        (IsLastOf (bare tree.now.tree) id wide.now.parts.base wide.now.columns rows.now) }
{
    let past = past?;
    if !serves(wide, rows, &past) {
        return None;
    }
    Some(past)
}

/// The frames of the children of a grid, in document order, in these rows (CSS Grid 2, sections 6 and 11): those that it gave them last serve
/// again, where they were made in the same columns and rows and the answers of their children did not go since. `NoMemory` where memory is
/// wanting.
pub(crate) fn grid_frames(
    alloc: Global,
    tree: &Arena<Node>,
    id: NodeId,
    reps: &[(u32, u32)],
    width: &Given,
    wide: &GridWide,
    rows: &View<1>,
    past: Option<PastFrames>,
) -> Result<Sequence<Frame>, NoMemory>
    requires live { IsLive (bare tree.now.tree) id }
    requires readable { AreReadable (bare tree.now.tree) }
    requires kind { (sight_at (bare tree.now.tree) id).label.kind ≡ kind.Grid }
    requires wide { IsWide (bare tree.now.tree) id reps.now width.now wide.now }
    requires columns { AreTracks wide.now.parts.base.placed.columns wide.now.columns.edges }
    requires rows { AreTracks wide.now.parts.base.placed.rows rows.now.edges }
    requires gap { pos 0 ≤ℤ rows.now.gap }
    requires past { IfSome past (ArePastFrames (bare tree.now.tree) id) }
    ensures value { IfOk result
        (λ frames. map frame_of frames ≡
        framed_in (bare tree.now.tree) id reps.now width.now rows.now) }
    ensures children { IfOk result
        (λ frames. map (λ (f : NodeFrame). f.child) frames ≡ children_at (bare tree.now.tree) id) }
    ensures frames { IfOk result
        (AreFrames (sight_at (bare tree.now.tree) id) (kid_at (bare tree.now.tree))
        wide.now.parts.base wide.now.columns rows.now Each) }
{
    root(tree);
    count(tree, id);
    let base = wide.parts.base.grid();
    let places = turns(alloc, base.placed.numbers.as_slice())?;
    let grid = TrackedGrid {
        tree,
        id,
        reps,
        width,
        wide,
        rows,
    };
    if let Some(past) = last_for(tree, id, reps, width, wide, rows, past) {
        let PastFrames { frames, fresh, .. } = past;
        let marks = fresh.as_slice();
        return framed_again(alloc, &grid, &places, marks, frames);
    }
    framed_children(alloc, &grid, &places)
}
