//! Where an item stands along an axis (CSS Box Alignment 3, section 6; CSS Grid 2, 11.2).

ghost use Rattle.std.specs.Prelude.{◌≡◌, ◌≤◌, ◌^◌, ◌+ℤ◌, ◌-ℤ◌, ◌&&◌, pos, true, unsigned_abs};
ghost use Rattle.std.specs.Ordering.{int_eq};
ghost use Rattle.part_rules.specs.Alignment.{auto_taken, self_moved};
ghost use Rattle.tree_rules.specs.Distribution.{aligned_at, is_safe, mode_of};
ghost use Rattle.tree_rules.specs.Labels.{GridAxis};
ghost use Rattle.tree_rules.specs.NodeSizes.{is_auto_margin, margin};
ghost use Rattle.inline_sizes.specs.Styled.{grid_at};
ghost use Rattle.inline_sizes.specs.Sums.{IsPair, IsTotal};
ghost use Rattle.box_layout.specs.Ranges.{IsNearTo, IsRest, IsRoom};
ghost use Rattle.box_layout.specs.BothMargins.{both_margins};
ghost use Rattle.box_layout.specs.Filling.{IsAsLong, is_as_long};

use box_align::{auto_margins, self_offset};
use inline_sizes::{is_safe, mode_of};
use lunit::{Lu, Wide};
use placing::style::{margin_end, margin_start};
use style_types::{Align, Style};

/// The margins of a node along an axis, in units of 1/64 px; `None` is `auto`.
#[derive(Clone, Copy)]
pub struct Margins {
    /// Before it.
    pub start: Option<Lu>,
    /// After it.
    pub end: Option<Lu>,
}

/// The margins that a style has along an axis.
pub fn margins_of<const AXIS: u8>(style: &Style) -> Margins
    ensures { result ≡
        record {
          start = (grid_at AXIS style.now).margin_start;
          end =
              (grid_at AXIS style.now).margin_end;
        } }
{
    Margins {
        start: margin_start::<AXIS>(style),
        end: margin_end::<AXIS>(style),
    }
}

/// A margin, `auto` counting 0.
pub fn margin(length: &Option<Lu>) -> Lu
    ensures { result ≡ margin length.now }
{
    match length {
        Some(length) => *length,
        None => Lu::default(),
    }
}

/// Whether a margin is `auto`.
pub fn is_auto_margin(length: &Option<Lu>) -> bool
    ensures { result ≡ is_auto_margin length.now }
{
    match length {
        Some(_) => false,
        None => true,
    }
}

/// Whether two lengths are the same.
fn same_length(a: Lu, b: Lu) -> bool
    ensures { result ≡ int_eq a b }
{
    a.units() == b.units()
}

/// Whether a margin is 0 or `auto`.
fn is_no_margin(length: &Option<Lu>) -> bool
    ensures { result ≡ int_eq (margin length.now) (pos 0) }
{
    same_length(margin(length), Lu::default())
}

/// Whether each margin along an axis is 0 or `auto`.
fn has_no_margins<const AXIS: u8>(style: &Style) -> bool
    ensures { result ≡
        (int_eq (margin (grid_at AXIS style.now).margin_start) (pos 0) &&
        int_eq (margin (grid_at AXIS style.now).margin_end) (pos 0)) }
{
    is_no_margin(&margin_start::<AXIS>(style)) && is_no_margin(&margin_end::<AXIS>(style))
}

#[tactic(auto, using(crate::proofs::Filled::as_long))]
/// Whether a border box of this size is as long as its area, and has no margins there: then it starts where the area starts, however it is
/// aligned.
pub fn fills<const AXIS: u8>(style: &Style, size: Lu, box_size: Lu) -> bool
    ensures value { result ≡ is_as_long (grid_at AXIS style.now) size box_size }
    ensures long { result ≡ true → IsAsLong (grid_at AXIS style.now) size box_size }
{
    same_length(box_size, size) && has_no_margins::<AXIS>(style)
}

#[tactic(auto, using(inline_sizes::proofs::Limits::both_pair))]
/// The two margins together, `auto` counting 0.
pub fn both_margins(margins: &Margins) -> Wide
    ensures value { result ≡ both_margins margins.now }
    ensures range { IsPair result }
{
    margin(&margins.start).wide() + margin(&margins.end).wide()
}

#[tactic(auto, using(crate::proofs::Sums::room_is))]
/// What a border box of this size and its margins leave of a length.
pub fn room_of(margins: &Margins, size: Lu, box_size: Lu) -> Wide
    ensures value { result ≡ size -ℤ box_size -ℤ both_margins margins.now }
    ensures range { IsRoom result }
{
    size.wide() - box_size.wide() - both_margins(margins)
}

/// A number of units.
fn exact(units: i64) -> Wide
    ensures { result ≡ units }
{
    Wide::of(units as i128)
}

#[tactic(auto, using(crate::proofs::Rooms::room_near))]
/// What the margins before and after a node take of a room.
fn auto_taken(margins: &Margins, room: Wide) -> (Wide, Wide)
    requires { IsRoom room }
    ensures { result ≡
        auto_taken room (is_auto_margin margins.now.start) (is_auto_margin margins.now.end) }
{
    let (before, after) = auto_margins(
        room.units(),
        is_auto_margin(&margins.start),
        is_auto_margin(&margins.end),
    );
    (exact(before), exact(after))
}

/// What the margins before and after a node take of a room: where it is positive, the `auto` ones take it (CSS Grid 2, 11.2).
pub fn taken(margins: &Margins, room: Wide) -> (Wide, Wide)
    requires { IsRoom room }
    ensures value { result ≡
        auto_taken room (is_auto_margin margins.now.start) (is_auto_margin margins.now.end) }
    ensures before { IsRoom result.0 }
    ensures after { IsRoom result.1 }
{
    auto_taken(margins, room)
}

#[tactic(auto, using(crate::proofs::Rooms::rest_near))]
/// What a self value moves a node by.
fn self_moved(align: &Align, rest: Wide) -> Wide
    requires { IsRest rest }
    ensures { result ≡ self_moved (mode_of align.now.mode) (is_safe align.now) rest }
{
    exact(self_offset(mode_of(&align.mode), is_safe(align), rest.units()))
}

/// What a self value moves a node by, where so much is left beside its margins (CSS Box Alignment 3, section 6).
pub fn moved_in(align: &Align, rest: Wide) -> Wide
    requires { IsRest rest }
    ensures value { result ≡ self_moved (mode_of align.now.mode) (is_safe align.now) rest }
    ensures range { IsRest result }
{
    self_moved(align, rest)
}

/// Where a border box stands from the start of its area or line, by its margin there, what this takes, and what it is moved by.
pub fn placed(start: Wide, margin: Lu, taken: Wide, moved: Wide) -> Wide
    requires start { IsTotal start }
    requires taken { IsRoom taken }
    requires moved { IsRest moved }
    ensures value { result ≡ start +ℤ margin +ℤ taken +ℤ moved }
    ensures near { IsNearTo start result }
{
    start + margin.wide() + taken + moved
}

#[tactic(auto, using(crate::proofs::Sums::rest_is))]
/// Where a node of these margins stands, as `aligned_at` says.
fn aligned(align: &Align, margins: &Margins, start: Wide, size: Lu, box_size: Lu) -> Wide
    requires { IsTotal start }
    ensures value { (g : GridAxis) → g.margin_start ≡ margins.now.start →
        g.margin_end ≡ margins.now.end → result ≡ aligned_at align.now g start size box_size }
    ensures near { IsNearTo start result }
{
    let room = room_of(margins, size, box_size);
    let (before, after) = taken(margins, room);
    let by = moved_in(align, room - before - after);
    placed(start, margin(&margins.start), before, by)
}

#[inline(always)]
/// Where the border box of an item of this size starts, in an area of this start and size: its `auto` margins take the free space
/// first, and its self value places it in what is left (CSS Box Alignment 3, section 6; CSS Grid 2, 11.2). It is exact, and at most
/// 2^36 from the start of the area.
pub fn aligned_at<const AXIS: u8>(
    align: &Align,
    style: &Style,
    start: Wide,
    size: Lu,
    box_size: Lu,
) -> Wide
    requires { IsTotal start }
    ensures value { result ≡ aligned_at align.now (grid_at AXIS style.now) start size box_size }
    ensures near { IsNearTo start result }
{
    aligned(align, &margins_of::<AXIS>(style), start, size, box_size)
}
