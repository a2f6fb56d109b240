//! Nodes without margins, borders, paddings and declared sizes along an axis: most are such, and their sizes are told in few steps.

ghost use Rattle.std.specs.Prelude.{◌≡◌, ◌-ℤ◌, ◌≤ℤ◌, pos, true, false};
ghost use Rattle.std.specs.Int.{int_max, int_min};
ghost use Rattle.lunit.specs.Units.{clamp};
ghost use Rattle.style_types.specs.declared.value.Size.TheVariants as keyword;
ghost use Rattle.tree_rules.specs.NodeSizes.{block_used, contribution, fitted, floor_of, inline_used};
ghost use Rattle.inline_sizes.specs.Plains.{IsPlain, has_no_inner, has_no_margins, has_no_size, is_absent, is_no_margin, is_plain, is_zero, no_bounds, plain_item};
ghost use Rattle.inline_sizes.specs.Styled.{content_at, grid_at};

use crate::used::is_auto;
use lunit::{Floor, Item, Lu, Span};
use placing::style::{
    border_end, border_start, least, margin_end, margin_start, most, padding_end, padding_start,
    size,
};
use style_types::{Size, Style};

/// Whether a length is 0.
fn is_zero(length: Lu) -> bool
    ensures { result ≡ is_zero length }
{
    length.units() <= 0 && 0 <= length.units()
}

/// Whether a margin is 0 and not `auto`.
fn is_no_margin(margin: Option<Lu>) -> bool
    ensures { result ≡ is_no_margin margin }
{
    match margin {
        Some(length) => is_zero(length),
        None => false,
    }
}

/// Whether a size is `none`.
fn is_absent(size: &Size) -> bool
    ensures { result ≡ is_absent size.now }
{
    match size {
        Size::Absent => true,
        _ => false,
    }
}

/// Whether neither a size nor a minimum nor a maximum is declared along the axis.
fn has_no_size<const AXIS: u8>(style: &Style) -> bool
    ensures { result ≡ has_no_size (content_at AXIS style.now) }
{
    is_auto(&size::<AXIS>(style))
        && is_auto(&least::<AXIS>(style))
        && is_absent(&most::<AXIS>(style))
}

#[inline(always)]
/// Whether there are neither borders nor paddings along the axis.
fn has_no_inner<const AXIS: u8>(style: &Style) -> bool
    ensures { result ≡ has_no_inner (grid_at AXIS style.now) }
{
    is_zero(border_start::<AXIS>(style))
        && is_zero(border_end::<AXIS>(style))
        && is_zero(padding_start::<AXIS>(style))
        && is_zero(padding_end::<AXIS>(style))
}

/// Whether both margins along the axis are 0.
fn has_no_margins<const AXIS: u8>(style: &Style) -> bool
    ensures { result ≡ has_no_margins (grid_at AXIS style.now) }
{
    is_no_margin(margin_start::<AXIS>(style)) && is_no_margin(margin_end::<AXIS>(style))
}

#[inline(always)]
/// Whether none of a node's marks along an axis says more than that it is plain.
fn has_no_marks<const AXIS: u8>(style: &Style) -> bool
    ensures { result ≡ is_plain (grid_at AXIS style.now) (content_at AXIS style.now) }
{
    has_no_size::<AXIS>(style) && has_no_inner::<AXIS>(style) && has_no_margins::<AXIS>(style)
}

#[inline(always)]
/// Whether a node has neither margins, borders and paddings nor a declared size, minimum or maximum along an axis.
pub fn is_plain<const AXIS: u8>(style: &Style) -> bool
    ensures value { result ≡ is_plain (grid_at AXIS style.now) (content_at AXIS style.now) }
    ensures plain { result ≡ true → IsPlain (grid_at AXIS style.now) (content_at AXIS style.now) }
{
    has_no_marks::<AXIS>(style)
}

/// The greater of two lengths.
fn longer(one: Lu, other: Lu) -> Lu
    ensures { result ≡ int_max one other }
{
    if one < other { other } else { one }
}

/// The lesser of two lengths.
fn shorter(one: Lu, other: Lu) -> Lu
    ensures { result ≡ int_min one other }
{
    if other < one { other } else { one }
}

#[tactic(auto, using(crate::proofs::Limits::first_least))]
/// A length, but at least 0.
fn some_length(length: Lu) -> Lu
    ensures value { result ≡ int_max (pos 0) length }
    ensures some { pos 0 ≤ℤ result }
{
    longer(Lu::default(), length)
}

#[tactic(auto, using(crate::proofs::Plains::content_floor))]
/// The minimum contribution of such a node without a minimum, by its min-content size.
fn plain_floor(scrolls: bool, content: Lu) -> Floor
    ensures { result ≡ floor_of keyword.Auto scrolls no_bounds (pos 0) content }
{
    if scrolls {
        return Floor::Known(Lu::default());
    }
    Floor::Content {
        size: content,
        margins: Lu::default(),
        inner: Lu::default(),
    }
}

#[tactic(auto, using(crate::proofs::Plains::free_contribution))]
/// The contribution of such a node whose content has this size.
fn plain_contribution(content: Lu) -> Lu
    ensures { result ≡ contribution no_bounds (pos 0) content }
{
    some_length(content)
}

/// The contributions of such a node whose content has these two sizes.
pub(crate) fn plain_contributions(content: (Lu, Lu)) -> (Lu, Lu)
    ensures low { result.0 ≡ contribution no_bounds (pos 0) content.0 }
    ensures high { result.1 ≡ contribution no_bounds (pos 0) content.1 }
{
    let low = plain_contribution(content.0);
    let high = plain_contribution(content.1);
    (low, high)
}

/// Such a node as an item over this span of lines, with these two content sizes.
pub(crate) fn plain_item(scrolls: bool, span: Span, content: (Lu, Lu)) -> Item
    ensures { result ≡ plain_item scrolls span content }
{
    Item {
        span,
        low: plain_contribution(content.0),
        high: plain_contribution(content.1),
        floor: plain_floor(scrolls, content.0),
    }
}

#[tactic(auto, using(crate::proofs::Plains::fills_room))]
/// The size of such a node that is stretched in a room of this size.
fn filling(room: Lu) -> Lu
    ensures value { result ≡ clamp (fitted no_bounds (room -ℤ pos 0)) }
    ensures some { pos 0 ≤ℤ result }
{
    some_length(room)
}

#[tactic(auto, using(crate::proofs::Plains::fit_in_room))]
/// The size of such a node that is fit to a room of this size by its two content sizes.
fn fitting(room: Lu, content: (Lu, Lu)) -> Lu
    ensures value { result ≡ inline_used no_bounds false (pos 0) room content }
    ensures some { pos 0 ≤ℤ result }
{
    some_length(shorter(longer(content.0, room), content.1))
}

#[tactic(auto, using(crate::proofs::Plains::of_content))]
/// The size of such a node by its content alone.
fn enclosing(room: Lu, content: Lu) -> Lu
    ensures value { result ≡ block_used no_bounds false (pos 0) room content }
    ensures some { pos 0 ≤ℤ result }
{
    some_length(content)
}

/// The inline size of such a node in a room of this size, as a border-box size: the room where it is stretched, else fit to its two
/// content sizes (CSS Grid 2, 6.2).
pub fn plain_inline(stretched: bool, room: Lu, content: (Lu, Lu)) -> Lu
    ensures value { result ≡ inline_used no_bounds stretched (pos 0) room content }
    ensures some { pos 0 ≤ℤ result }
{
    if stretched {
        filling(room)
    } else {
        fitting(room, content)
    }
}

/// The block size of such a node in a room of this size, as a border-box size: the room where it is stretched, else that of its
/// content (CSS Grid 2, 6.2).
pub fn plain_block(stretched: bool, room: Lu, content: Lu) -> Lu
    ensures value { result ≡ block_used no_bounds stretched (pos 0) room content }
    ensures some { pos 0 ≤ℤ result }
{
    if stretched {
        filling(room)
    } else {
        enclosing(room, content)
    }
}
