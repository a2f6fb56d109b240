//! The frames of the children of a grid whose tracks lie where they lie (CSS Grid 2, sections 6, 9 and 11).

ghost use Rattle.std.specs.Prelude.{◌≡◌, ◌≤ℤ◌, ◌+◌, ◌^◌, if◌then◌else◌, ℕ, length, pos, IfOk, OnOk};
ghost use Rattle.lunit.specs.Units.{IsUnits};
ghost use Rattle.part_rules.specs.Views.{area_size, first_start};
ghost use Rattle.placing.specs.Kept.{frame_of};
ghost use Rattle.placing.specs.Ranges.{IsGridStyle};
ghost use Rattle.tree_rules.specs.Labels.{grid_of};
ghost use Rattle.tree_rules.specs.NodeSizes.{inner_start};
ghost use Rattle.tree_rules.specs.Queries.{IsGivenFor};
ghost use Rattle.placing.specs.Spread.{AreSpread, IsSpread};
ghost use Rattle.box_layout.specs.GridFrames.{IsOver, block_over, frame_over, place_over};
ghost use Rattle.box_layout.specs.Ranges.{IsPlace, IsWithin};
ghost use Rattle.inline_sizes.specs.Styled.{grid_at};
ghost use Rattle.inline_sizes.specs.Sums.{IsTotal};
ghost use Rattle.block_sizes.specs.Sharing.{IsLastIn};

use crate::frames::{frame_from, origin_of};
use crate::items::place_in_area;
use block_sizes::{LastTracks, child_block};
use inline_sizes::{area_size, tracks_over};
use lunit::{Copied, Lu, NoMemory, Span, Wide};
use node_arena::NodeId;
use part_rules::View;
use placing::Frame;
use placing::style::items;
use std::alloc::Global;
use style_types::Style;
use tree_rules::Given;

/// A child of a grid over its tracks, counted from the first one.
#[derive(Clone, Copy)]
pub struct OverTracks<'a> {
    /// Its number.
    pub child: NodeId,
    /// Its computed values.
    pub style: &'a Style,
    /// Whether it is a subgrid in the columns, and in the rows.
    pub shares: (bool, bool),
    /// The columns that it spans.
    pub columns: Span,
    /// The rows that it spans.
    pub rows: Span,
    /// The inline size of its border box, in units of 1/64 px.
    pub width: Lu,
    /// What it is given in the inline axis.
    pub inline: &'a Given,
    /// The block size of its content, in units of 1/64 px, which is read where it is no subgrid in the rows.
    pub content: Lu,
}

/// The start of the first of some tracks; 0 where there is none.
fn start_of(tracks: &[(i64, i64)]) -> Wide
    ensures value { result ≡ first_start tracks.now }
    ensures range { IsTotal result }
{
    match tracks.first() {
        Some(track) => Wide::of(track.0 as i128),
        None => Wide::of(0),
    }
}

/// The size of an area over some tracks, which is not read where a child `shares` them: 0 there.
fn room_over(shares: bool, tracks: &[(i64, i64)]) -> Lu
    ensures { result ≡ (if shares then pos 0 else area_size tracks.now) }
{
    if shares {
        return Lu::default();
    }
    area_size(tracks)
}

/// Where the border box of a child of this size starts over these tracks of its parent, counted from the first one.
fn place_over<const AXIS: u8>(
    shares: bool,
    container: &Style,
    style: &Style,
    edges: &[(i64, i64)],
    span: Span,
    size: Lu,
) -> Wide
    requires { IsOver edges.now span }
    ensures value { result ≡ place_over AXIS shares container.now style.now edges.now span size }
    ensures range { IsPlace result }
    ensures near { (by : ℕ) → AreSpread by edges.now → IsWithin (by + 2 ^ 36) result }
{
    let tracks = tracks_over(edges, span);
    let start = start_of(tracks);
    let room = room_over(shares, tracks);
    place_in_area::<AXIS>(shares, container, style, start, room, size)
}

/// The block size of the border box of a child over these rows of its parent, and what it is given there, shared with the last child that
/// was given tracks where it is the same. `NoMemory` where memory is wanting.
fn block_over(
    alloc: Global,
    container: &Style,
    rows: &View<1>,
    child: &OverTracks<'_>,
    last: &mut Option<LastTracks>,
) -> Result<(Lu, Given), NoMemory>
    requires style { IsGridStyle (grid_of child.now.style.now) }
    requires over { IsOver rows.now.edges child.now.rows }
    requires gap { pos 0 ≤ℤ rows.now.gap }
    requires last { IsLastIn rows.now last.old }
    ensures value { IfOk result
        (λ block. block ≡
        block_over child.now.shares.1 container.now child.now.style.now rows.now child.now.rows
        child.now.content) }
    ensures last { OnOk result (IsLastIn rows.now last.new) }
{
    let align = items::<1>(container);
    let (_, shares) = child.shares;
    child_block(
        alloc,
        align,
        rows,
        child.rows,
        child.style,
        shares,
        child.content,
        last,
    )
}

/// The frame of a child of a grid over its columns and rows, from the border box of the grid, in which its content box
/// starts here (CSS Grid 2, sections 6, 9 and 11). `last` is what the last child that is a subgrid in these rows was
/// given, which this one shares where it is the same. `NoMemory` where memory is wanting.
pub(crate) fn frame_over_from(
    alloc: Global,
    container: &Style,
    origin: (Lu, Lu),
    columns: &View<0>,
    rows: &View<1>,
    child: &OverTracks<'_>,
    last: &mut Option<LastTracks>,
) -> Result<Frame, NoMemory>
    requires container { IsGridStyle (grid_of container.now) }
    requires style { IsGridStyle (grid_of child.now.style.now) }
    requires columns { IsOver columns.now.edges child.now.columns }
    requires rows { IsOver rows.now.edges child.now.rows }
    requires gap { pos 0 ≤ℤ rows.now.gap }
    requires x { origin.0 ≡ inner_start (grid_at 0 container.now) }
    requires y { origin.1 ≡ inner_start (grid_at 1 container.now) }
    requires last { IsLastIn rows.now last.old }
    ensures child { IfOk result (λ frame. frame.child ≡ child.now.child) }
    ensures value { IfOk result
        (λ frame. frame_of frame ≡
        frame_over container.now child.now.style.now child.now.shares.0 child.now.shares.1
        columns.now child.now.columns rows.now child.now.rows child.now.width
        child.now.inline.now child.now.content) }
    ensures last { OnOk result (IsLastIn rows.now last.new) }
{
    let (size, given) = block_over(alloc, container, rows, child, last)?;
    let (in_columns, in_rows) = child.shares;
    let style = child.style;
    let edges = columns.edges.as_slice();
    let x = place_over::<0>(
        in_columns,
        container,
        style,
        edges,
        child.columns,
        child.width,
    );
    let edges = rows.edges.as_slice();
    let y = place_over::<1>(in_rows, container, style, edges, child.rows, size);
    let inline = child.inline.copy(alloc)?;
    Ok(frame_from(
        origin,
        child.child,
        (x, y),
        (child.width, size),
        inline,
        given,
    ))
}
