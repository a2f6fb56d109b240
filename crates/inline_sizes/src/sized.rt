//! The sizes of a node by its style, and the node as an item of a grid (CSS Grid 2, 12.5).

ghost use Rattle.std.specs.Prelude.{◌≡◌, ◌&&◌, ◌+ℤ◌, ◌≤ℤ◌, [], is_some, pos};
ghost use Rattle.placing.specs.Ranges.{IsGridAxis};
ghost use Rattle.tree_rules.specs.Distribution.{subgrid_box};
ghost use Rattle.tree_rules.specs.Labels.{content_of};
ghost use Rattle.tree_rules.specs.LentItems.{child_item, extra_margins};
ghost use Rattle.tree_rules.specs.NodeSizes.{bounds_of, inner, is_auto, is_stretched, item_of, margins};
ghost use Rattle.inline_sizes.specs.Lifted.{IsLifted};
ghost use Rattle.inline_sizes.specs.Plains.{IsPlain};
ghost use Rattle.inline_sizes.specs.Styled.{content_at, grid_at};
ghost use Rattle.inline_sizes.specs.Sums.{IsSum};

use crate::bounds::Bounds;
use crate::contributions::{contribution, floor_of};
use crate::levels::{extra_margins, lifted};
use crate::plain::{is_plain, plain_item};
use crate::sides::{inner, margins};
use crate::used::{is_auto, stretches};
use lunit::{Item, Lu, Span, Wide};
use part_rules::Level;
use placing::style::{is_border_box, least, margin_end, margin_start, most, scrolls, size};
use style_types::{Align, Style};

#[inline(always)]
/// The declared sizes of a node along an axis, where percentages are of this size; without one they are none (own rule).
pub fn bounds_of<const AXIS: u8>(style: &Style, base: Option<Lu>) -> Bounds
    requires { IsGridAxis (grid_at AXIS style.now) }
    ensures { result ≡
        bounds_of base (content_of style.now).border_box (grid_at AXIS style.now)
        (content_at AXIS style.now) }
{
    Bounds::of(
        is_border_box(style),
        inner::<AXIS>(style),
        base,
        &size::<AXIS>(style),
        &least::<AXIS>(style),
        &most::<AXIS>(style),
    )
}

/// Whether neither margin is `auto`.
fn has_margins<const AXIS: u8>(style: &Style) -> bool
    ensures { result ≡
        is_some (grid_at AXIS style.now).margin_start &&
        is_some (grid_at AXIS style.now).margin_end }
{
    margin_start::<AXIS>(style).is_some() && margin_end::<AXIS>(style).is_some()
}

/// Whether the size is `auto`, and neither margin is.
fn is_open<const AXIS: u8>(style: &Style) -> bool
    ensures { result ≡
        is_auto (content_at AXIS style.now).size &&
        (is_some (grid_at AXIS style.now).margin_start &&
        is_some (grid_at AXIS style.now).margin_end) }
{
    is_auto(&size::<AXIS>(style)) && has_margins::<AXIS>(style)
}

#[inline(always)]
/// Whether a node with this self value is stretched along the axis: the value says so, its size is `auto`, and neither of its
/// margins is (CSS Box Alignment 3, section 6).
pub fn is_stretched<const AXIS: u8>(align: &Align, style: &Style) -> bool
    ensures { result ≡ is_stretched align.now (grid_at AXIS style.now) (content_at AXIS style.now) }
{
    stretches(&align.mode) && is_open::<AXIS>(style)
}

/// A node as an item over this span of lines, with these margins, extra margins included, and these two content sizes.
fn item_of<const AXIS: u8>(style: &Style, span: Span, margins: Wide, content: (Lu, Lu)) -> Item
    requires axis { IsGridAxis (grid_at AXIS style.now) }
    requires margins { IsSum margins }
    ensures { result ≡
        item_of (content_of style.now).border_box (content_of style.now).scrolls
        (grid_at AXIS style.now) (content_at AXIS style.now) span margins content }
{
    let bounds = bounds_of::<AXIS>(style, None);
    let least = least::<AXIS>(style);
    Item {
        span,
        low: contribution(&bounds, margins, content.0),
        high: contribution(&bounds, margins, content.1),
        floor: floor_of(&least, scrolls(style), &bounds, margins, content.0),
    }
}

#[tactic(auto, using(crate::proofs::Limits::with_pair))]
/// The margins of a child of a grid with these levels, extra margins included.
fn all_margins<const AXIS: u8>(levels: &[Level], style: &Style, span: Span) -> Wide
    requires { IsGridAxis (grid_at AXIS style.now) }
    ensures value { result ≡ margins (grid_at AXIS style.now) +ℤ extra_margins levels.now span }
    ensures range { IsSum result }
{
    margins::<AXIS>(style).wide() + extra_margins(levels, span)
}

#[tactic(auto, using(crate::proofs::Plains::plain_child))]
/// A plain child of a grid that sizes the tracks itself as an item of it.
fn plain_child<const AXIS: u8>(style: &Style, span: Span, content: (Lu, Lu)) -> Item
    requires { IsPlain (grid_at AXIS style.now) (content_at AXIS style.now) }
    ensures { result ≡
        child_item [] (content_of style.now).border_box (content_of style.now).scrolls
        (grid_at AXIS style.now) (content_at AXIS style.now) span content }
{
    plain_item(scrolls(style), span, content)
}

/// A child of a grid with these levels as an item of the grid that sizes the tracks (CSS Grid 2, 12.5 and section 9), by its span
/// in its parent's lines and its two content sizes.
pub fn child_item<const AXIS: u8>(
    levels: &[Level],
    style: &Style,
    span: Span,
    content: (Lu, Lu),
) -> Item
    requires axis { IsGridAxis (grid_at AXIS style.now) }
    requires lifted { IsLifted levels.now span }
    ensures { result ≡
        child_item levels.now (content_of style.now).border_box (content_of style.now).scrolls
        (grid_at AXIS style.now) (content_at AXIS style.now) span content }
{
    if levels.is_empty() && is_plain::<AXIS>(style) {
        return plain_child::<AXIS>(style, span, content);
    }
    let margins = all_margins::<AXIS>(levels, style, span);
    item_of::<AXIS>(style, lifted(levels, span), margins, content)
}

#[tactic(auto, using(crate::proofs::Limits::box_least))]
/// The size of the border box of a subgrid in an area of this size: less its margins, but at least its borders and paddings (the
/// least size and that `auto` margins count 0 are own rules).
pub fn subgrid_box<const AXIS: u8>(style: &Style, size: Lu) -> Lu
    requires { IsGridAxis (grid_at AXIS style.now) }
    ensures value { result ≡ subgrid_box (grid_at AXIS style.now) size }
    ensures least { inner (grid_at AXIS style.now) ≤ℤ result }
{
    let room = size.wide() - margins::<AXIS>(style).wide();
    inner::<AXIS>(style).wide().max(room).clamp()
}
