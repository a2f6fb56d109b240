//! The children of a grid once its tracks along an axis lie where they lie: their border boxes along the axis, and what each is given there (CSS
//! Grid 2, 6.2 and section 9).

ghost use Rattle.std.specs.Prelude.{◌≡◌, ◌+◌, ◌^◌, ◌-ℤ◌, ◌≤ℤ◌, ℕ, false, length, pos, true, IfOk, OnOk};
ghost use Rattle.lunit.specs.Units.{IsUnits};
ghost use Rattle.part_rules.specs.Lists.{above_zero};
ghost use Rattle.placing.specs.Ranges.{IsGridAxis, IsGridStyle};
ghost use Rattle.subgrid_view.specs.Ranges.{AreNear};
ghost use Rattle.tree_rules.specs.Distribution.{given_view, view_in};
ghost use Rattle.tree_rules.specs.Frames.{given_box};
ghost use Rattle.tree_rules.specs.GridSizes.{from_first};
ghost use Rattle.tree_rules.specs.Labels.{content_of, grid_of};
ghost use Rattle.tree_rules.specs.NodeSizes.{inner, self_align, stretches};
ghost use Rattle.tree_rules.specs.Queries.{IsGivenFor};
ghost use Rattle.inline_sizes.specs.Styled.{content_at, grid_at, styled};
ghost use Rattle.inline_sizes.specs.Plains.{IsPlain};
ghost use Rattle.block_sizes.specs.Children.{block_of_child, inline_of_child, own_block, own_inline};
ghost use Rattle.block_sizes.specs.Sharing.{IsLastIn};
ghost use Rattle.block_sizes.specs.Spans.{LiesIn};
ghost use Rattle.placing.specs.Spread.{AreSpread, IsSpread};

use crate::last_tracks::{LastTracks, box_after};
use inline_sizes::{
    area_size, block_used, bounds_of, content_of_box, inline_used, inner, is_plain, is_stretched,
    margins, plain_block, plain_inline, self_align, stretches, subgrid_box, tracks_over, view_in,
};
use lunit::{Lu, NoMemory, Span, Wide};
use part_rules::View;
use placing::style::own;
use std::alloc::Global;
use style_types::{Align, Style};
use tree_rules::{Given, SharedTracks};

/// The number of a line.
fn line_number(line: i32) -> Wide
    ensures { result ≡ line }
{
    Wide::of(line as i128)
}

/// A line, counted from the first line of some tracks.
fn line_from(first: i32, line: i32) -> i32
    requires order { first ≤ℤ line }
    requires few { (line -ℤ first) ≤ℤ pos 131072 }
    ensures { result ≡ line -ℤ first }
{
    (line_number(line) - line_number(first)).units() as i32
}

/// A span of lines, counted from the first line of the tracks that it lies in.
pub fn from_first(tracks: Span, span: Span) -> Span
    requires { LiesIn tracks span }
    ensures value { result ≡ from_first tracks span }
    ensures start { pos 0 ≤ℤ result.start }
    ensures order { result.start ≤ℤ result.end }
    ensures end { result.end ≤ℤ (tracks.end -ℤ tracks.start) }
{
    Span {
        start: line_from(tracks.start, span.start),
        end: line_from(tracks.start, span.end),
    }
}

#[inline(always)]
#[tactic(auto, using(inline_sizes::proofs::Limits::content_some))]
/// What a child is given that has a border box of this size along an axis: the size of its content box, which is at least 0 where
/// the border box is at least as great as borders and paddings.
pub fn given_box<const AXIS: u8>(style: &Style, size: Lu) -> Given
    requires { IsGridAxis (grid_at AXIS style.now) }
    ensures value { result ≡ given_box (grid_at AXIS style.now) size }
    ensures fits { inner (grid_at AXIS style.now) ≤ℤ size → IsGivenFor true false 0 result }
{
    Given::Size(content_of_box(inner::<AXIS>(style), size))
}

#[tactic(auto, using(crate::proofs::Seen::view_counted, crate::proofs::Seen::view_gap, crate::proofs::Seen::view_spread))]
/// What a subgrid is given that spans these tracks of its parent's view, counted from the first one: the tracks as it sees them
/// (CSS Grid 2, section 9). Where the edges of the parent's tracks differ by at most so much, its own differ by little more.
///
/// `NoMemory` where memory is wanting.
pub fn given_view<const AXIS: u8>(
    alloc: Global,
    outer: &View<AXIS>,
    span: Span,
    style: &Style,
) -> Result<Given, NoMemory>
    requires axis { IsGridAxis (grid_at AXIS style.now) }
    requires start { pos 0 ≤ℤ span.start }
    requires order { span.start ≤ℤ span.end }
    requires end { span.end ≤ℤ pos (length outer.now.edges) }
    requires near { AreNear outer.now.edges }
    requires gap { pos 0 ≤ℤ outer.now.gap }
    ensures value { IfOk result
        (λ given. given ≡ given_view (view_in outer.now span (grid_at AXIS style.now))) }
    ensures fits { IfOk result (IsGivenFor true true (above_zero (span.end -ℤ span.start))) }
    ensures spread { (by : ℕ) → IsUnits outer.now.gap → AreSpread by outer.now.edges →
        IfOk result (IsSpread (by + 2 ^ 33)) }
{
    let View { edges, gap } = view_in::<AXIS>(alloc, outer, span, style)?;
    let tracks = SharedTracks::new(alloc, edges)?;
    Ok(Given::Tracks(tracks, gap))
}

/// The inline size of a child that is no subgrid in the columns, in an area of this width, as a border-box size: its declared
/// size, of which percentages are of the width; else, where it is stretched, the width less its margins; else fit to its two
/// content sizes; within its limits (CSS Grid 2, 6.2). `items` is how its parent aligns its items.
pub fn own_inline(items: Align, style: &Style, room: Lu, sizes: (Lu, Lu)) -> Lu
    requires { IsGridStyle (grid_of style.now) }
    ensures value { result ≡ own_inline items (styled style.now) room sizes }
    ensures least { inner (grid_of style.now).columns ≤ℤ result }
{
    let bounds = bounds_of::<0>(style, Some(room));
    let align = self_align(own::<0>(style), items);
    let stretched = is_stretched::<0>(&align, style);
    inline_used(&bounds, stretched, margins::<0>(style), room, sizes)
}

/// The block size of a child that is no subgrid in the rows, in an area of this height, as a border-box size: its declared size,
/// of which percentages are of the height; else, where it is stretched, the height less its margins; else that of its content;
/// within its limits (CSS Grid 2, 6.2). `items` is how its parent aligns its items.
pub fn own_block(items: Align, style: &Style, room: Lu, content: Lu) -> Lu
    requires { IsGridStyle (grid_of style.now) }
    ensures value { result ≡ own_block items (styled style.now) room content }
    ensures least { inner (grid_of style.now).rows ≤ℤ result }
{
    let bounds = bounds_of::<1>(style, Some(room));
    let align = self_align(own::<1>(style), items);
    let stretched = is_stretched::<1>(&align, style);
    block_used(&bounds, stretched, margins::<1>(style), room, content)
}

/// Whether a child is stretched along an axis where its own size and margins let it be.
fn fills<const AXIS: u8>(items: Align, style: &Style) -> bool
    ensures { result ≡ stretches (self_align (content_at AXIS style.now).own items).mode }
{
    let align = self_align(own::<AXIS>(style), items);
    stretches(&align.mode)
}

/// The inline size of a plain child that is no subgrid in the columns, as `own_inline` tells it.
fn plain_own_inline(items: Align, style: &Style, room: Lu, sizes: (Lu, Lu)) -> Lu
    requires { IsPlain (grid_of style.now).columns (content_of style.now).inline }
    ensures value { result ≡ own_inline items (styled style.now) room sizes }
    ensures some { pos 0 ≤ℤ result }
{
    plain_inline(fills::<0>(items, style), room, sizes)
}

/// The block size of a plain child that is no subgrid in the rows, as `own_block` tells it.
fn plain_own_block(items: Align, style: &Style, room: Lu, content: Lu) -> Lu
    requires { IsPlain (grid_of style.now).rows (content_of style.now).block }
    ensures value { result ≡ own_block items (styled style.now) room content }
    ensures some { pos 0 ≤ℤ result }
{
    plain_block(fills::<1>(items, style), room, content)
}

/// What a plain child is given that has a border box of this size along an axis: this size.
fn plain_given<const AXIS: u8>(style: &Style, size: Lu) -> Given
    requires plain { IsPlain (grid_at AXIS style.now) (content_at AXIS style.now) }
    requires some { pos 0 ≤ℤ size }
    ensures value { result ≡ given_box (grid_at AXIS style.now) size }
    ensures fits { IsGivenFor true false 0 result }
{
    Given::Size(size)
}

/// The inline size of a child that is no subgrid in the columns as `own_inline` tells it, with what the child is given there, in few
/// steps for a plain one.
fn sized_inline(items: Align, style: &Style, room: Lu, sizes: (Lu, Lu)) -> (Lu, Given)
    requires { IsGridStyle (grid_of style.now) }
    ensures value { result ≡ (
      own_inline items (styled style.now) room sizes,
      given_box (grid_of style.now).columns
          (own_inline items (styled style.now) room sizes),
    ) }
    ensures fits { IsGivenFor true false 0 result.1 }
{
    if is_plain::<0>(style) {
        let size = plain_own_inline(items, style, room, sizes);
        return (size, plain_given::<0>(style, size));
    }
    let size = own_inline(items, style, room, sizes);
    (size, given_box::<0>(style, size))
}

/// The block size of a child that is no subgrid in the rows as `own_block` tells it, with what the child is given there, in few
/// steps for a plain one.
fn sized_block(items: Align, style: &Style, room: Lu, content: Lu) -> (Lu, Given)
    requires { IsGridStyle (grid_of style.now) }
    ensures value { result ≡ (
      own_block items (styled style.now) room content,
      given_box (grid_of style.now).rows
          (own_block items (styled style.now) room content),
    ) }
    ensures fits { IsGivenFor true false 0 result.1 }
{
    if is_plain::<1>(style) {
        let size = plain_own_block(items, style, room, content);
        return (size, plain_given::<1>(style, size));
    }
    let size = own_block(items, style, room, content);
    (size, given_box::<1>(style, size))
}

/// The inline size of a child of a grid as a border-box size, and what it is given: over these tracks of its parent's columns,
/// counted from the first one, where its parent aligns its items so. `shares` says whether it is a subgrid in the columns: then
/// it has the area less its margins and is given the columns as it sees them; else it is given the size of its content box
/// (CSS Grid 2, 6.2 and section 9). `sizes` are its two intrinsic sizes, which are read where it is no subgrid.
///
/// `NoMemory` where memory is wanting.
pub fn child_inline(
    alloc: Global,
    items: Align,
    columns: &View<0>,
    span: Span,
    style: &Style,
    shares: bool,
    sizes: (Lu, Lu),
) -> Result<(Lu, Given), NoMemory>
    requires style { IsGridStyle (grid_of style.now) }
    requires start { pos 0 ≤ℤ span.start }
    requires order { span.start ≤ℤ span.end }
    requires end { span.end ≤ℤ pos (length columns.now.edges) }
    requires near { AreNear columns.now.edges }
    requires gap { pos 0 ≤ℤ columns.now.gap }
    ensures value { IfOk result
        (λ inline. inline ≡ inline_of_child items columns.now span (styled style.now) shares sizes) }
    ensures fits { IfOk result
        (λ inline. IsGivenFor true shares (above_zero (span.end -ℤ span.start)) inline.1) }
    ensures spread { (by : ℕ) → IsUnits columns.now.gap → AreSpread by columns.now.edges →
        IfOk result (λ inline. IsSpread (by + 2 ^ 33) inline.1) }
{
    let room = area_size(tracks_over(columns.edges.as_slice(), span));
    if shares {
        let given = given_view::<0>(alloc, columns, span, style)?;
        return Ok((subgrid_box::<0>(style, room), given));
    }
    Ok(sized_inline(items, style, room, sizes))
}

/// The block size of a child of a grid as a border-box size, and what it is given: over these tracks of its parent's rows, counted
/// from the first one, where its parent aligns its items so. `shares` says whether it is a subgrid in the rows: then it has the
/// area less its margins and is given the rows as it sees them; else it is given the size of its content box (CSS Grid 2, 6.2 and
/// section 9). `content` is the block size of its content, which is read where it is no subgrid. `last` is what the last child that
/// is a subgrid in the rows was given, which this one shares where it is the same.
///
/// `NoMemory` where memory is wanting.
pub fn child_block(
    alloc: Global,
    items: Align,
    rows: &View<1>,
    span: Span,
    style: &Style,
    shares: bool,
    content: Lu,
    last: &mut Option<LastTracks>,
) -> Result<(Lu, Given), NoMemory>
    requires style { IsGridStyle (grid_of style.now) }
    requires start { pos 0 ≤ℤ span.start }
    requires order { span.start ≤ℤ span.end }
    requires end { span.end ≤ℤ pos (length rows.now.edges) }
    requires near { AreNear rows.now.edges }
    requires gap { pos 0 ≤ℤ rows.now.gap }
    requires last { IsLastIn rows.now last.old }
    ensures value { IfOk result
        (λ block. block ≡ block_of_child items rows.now span (styled style.now) shares content) }
    ensures fits { IfOk result
        (λ block. IsGivenFor true shares (above_zero (span.end -ℤ span.start)) block.1) }
    ensures spread { (by : ℕ) → IsUnits rows.now.gap → AreSpread by rows.now.edges →
        IfOk result (λ block. IsSpread (by + 2 ^ 33) block.1) }
    ensures last { OnOk result (IsLastIn rows.now last.new) }
{
    if shares {
        return box_after::<1>(alloc, rows, span, style, last);
    }
    let room = area_size(tracks_over(rows.edges.as_slice(), span));
    Ok(sized_block(items, style, room, content))
}
