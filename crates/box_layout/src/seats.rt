//! Where a child of a flex container stands in its line (CSS Flexbox 1, 9.4, 9.5 and 9.6).

ghost use Rattle.std.specs.Prelude.{◌≡◌, ◌+ℤ◌, ◌&&◌, int_lt, pos, true, false, if◌then◌else◌};
ghost use Rattle.part_rules.specs.Alignment.{self_moved};
ghost use Rattle.tree_rules.specs.Distribution.{is_safe, mode_of};
ghost use Rattle.box_layout.specs.Ranges.{IsReach, IsRest, IsRoom, IsSpot};
ghost use Rattle.box_layout.specs.Seats.{frame_of_seat, has_auto, place_in, seat_by, seat_in, size_in};

use crate::aligned::{
    Margins, both_margins, is_auto_margin, margin, moved_in, placed, room_of, taken,
};
use crate::frames::along;
use crate::sitting::{Container, Sitting};
use inline_sizes::content_of_box;
use lunit::{Along, BLOCK, INLINE, Lu, Rect, Wide};
use node_arena::NodeId;
use placing::Frame;
use tree_rules::Given;

/// A child of a flex container with its rectangle in the border box of the container, and the sizes of its content box.
#[derive(Clone, Copy)]
pub struct Seat {
    /// Its place among the children in document order.
    pub number: i64,
    /// The child.
    pub child: NodeId,
    /// Its border box, from that of the container.
    pub rect: Rect,
    /// The inline size of its content box.
    pub inline: Lu,
    /// The block size of its content box.
    pub block: Lu,
}

/// The size of the border box of a child across a line of this size: its hypothetical one, or where it is stretched the line's within
/// its limits.
fn size_in(size: Lu, child: &Sitting) -> Lu
    ensures { result ≡ size_in size child.now }
{
    let room = (size.wide() - both_margins(&child.across)).clamp();
    child.least.max(child.most.min(room))
}

/// Whether a margin is `auto`.
pub(crate) fn has_auto(margins: &Margins) -> bool
    ensures { result ≡ has_auto margins.now }
{
    is_auto_margin(&margins.start) || is_auto_margin(&margins.end)
}

#[tactic(auto, using(crate::proofs::Compared::lt_is))]
/// Whether a number is below 0.
fn is_below_zero(number: Wide) -> bool
    ensures { result ≡ int_lt number (pos 0) }
{
    number < Wide::of(0)
}

/// What its self value moves a child by, of which `rest` is left beside its margins of a `room` in its line. With an `auto` margin
/// and a size beyond the line it is placed as start (CSS Flexbox 1, 9.6).
fn moved_by_self(child: &Sitting, room: Wide, rest: Wide) -> Wide
    requires { IsRest rest }
    ensures value { result ≡
        (if int_lt room (pos 0) &&
        has_auto child.now.across then pos 0 else self_moved (mode_of child.now.align.mode)
        (is_safe child.now.align) rest) }
    ensures range { IsRest result }
{
    if is_below_zero(room) && has_auto(&child.across) {
        Wide::of(0)
    } else {
        moved_in(&child.align, rest)
    }
}

#[tactic(auto, using(crate::proofs::Sums::rest_is, crate::proofs::Sums::spot_is))]
/// Where the border box of a child of this size starts across, in a line of this start and size: after its `auto` margins have taken
/// what is free, by its self value (CSS Flexbox 1, 9.6).
fn place_in(at: Wide, size: Lu, child: &Sitting, box_size: Lu) -> Wide
    requires { IsReach at }
    ensures value { result ≡ place_in (record { at = at; size = size }) child.now box_size }
    ensures range { IsSpot result }
{
    let room = room_of(&child.across, size, box_size);
    let (before, after) = taken(&child.across, room);
    let by = moved_by_self(child, room, room - before - after);
    placed(at, margin(&child.across.start), before, by)
}

/// A position in a border box, from one in the content box, whose border and padding lie before it.
fn moved<const AXIS: u8>(inner: Lu, place: Wide) -> Along<AXIS>
    requires { IsSpot place }
    ensures { result ≡ inner +ℤ place }
{
    Along::of((inner.wide() + place).units())
}

/// The seat of a child of a row.
fn row_seat(flex: &Container, start: Wide, across: Wide, size: Lu, child: &Sitting) -> Seat
    requires start { IsSpot start }
    requires across { IsSpot across }
    requires row { flex.now.column ≡ false }
    ensures { result ≡ seat_by flex.now start across size child.now }
{
    Seat {
        number: i64::from(child.number),
        child: child.child,
        rect: Rect {
            x: moved::<INLINE>(flex.inline_start, start),
            y: moved::<BLOCK>(flex.block_start, across),
            width: along::<INLINE>(child.main),
            height: along::<BLOCK>(size),
        },
        inline: content_of_box(child.inline_inner, child.main),
        block: content_of_box(child.block_inner, size),
    }
}

/// The seat of a child of a column.
fn column_seat(flex: &Container, start: Wide, across: Wide, size: Lu, child: &Sitting) -> Seat
    requires start { IsSpot start }
    requires across { IsSpot across }
    requires column { flex.now.column ≡ true }
    ensures { result ≡ seat_by flex.now start across size child.now }
{
    Seat {
        number: i64::from(child.number),
        child: child.child,
        rect: Rect {
            x: moved::<INLINE>(flex.inline_start, across),
            y: moved::<BLOCK>(flex.block_start, start),
            width: along::<INLINE>(size),
            height: along::<BLOCK>(child.main),
        },
        inline: content_of_box(child.inline_inner, size),
        block: content_of_box(child.block_inner, child.main),
    }
}

/// The seat of a child in a line of this start and size across, where its border box starts here along the line.
pub fn seat_in(flex: &Container, at: Wide, size: Lu, start: Wide, child: &Sitting) -> Seat
    requires line { IsReach at }
    requires start { IsSpot start }
    ensures { result ≡ seat_in flex.now (record { at = at; size = size }) start child.now }
{
    let box_size = size_in(size, child);
    let across = place_in(at, size, child, box_size);
    if flex.column {
        column_seat(flex, start, across, box_size, child)
    } else {
        row_seat(flex, start, across, box_size, child)
    }
}

/// The frame of a seat.
pub fn frame_of_seat(seat: &Seat) -> Frame
    ensures { result ≡ frame_of_seat seat.now }
{
    Frame {
        child: seat.child,
        rect: seat.rect,
        inline: Given::Size(seat.inline),
        block: Given::Size(seat.block),
    }
}
