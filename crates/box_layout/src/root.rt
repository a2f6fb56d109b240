//! The root in the viewport (own rule).

ghost use Rattle.std.specs.Prelude.{◌≡◌, ◌^◌, ◌≤ℤ◌, pos};
ghost use Rattle.placing.specs.Ranges.{IsGridAxis, IsGridStyle};
ghost use Rattle.tree_rules.specs.Boxes.{root_align, root_height, root_justify, root_width};
ghost use Rattle.tree_rules.specs.Distribution.{aligned_at};
ghost use Rattle.tree_rules.specs.Frames.{given_box};
ghost use Rattle.tree_rules.specs.Labels.{grid_of};
ghost use Rattle.tree_rules.specs.NodeSizes.{inner};
ghost use Rattle.inline_sizes.specs.Styled.{grid_at};
ghost use Rattle.box_layout.specs.Ranges.{IsWithin};
ghost use Rattle.box_layout.specs.Roots.{root_by, root_rect, with_block};

use crate::aligned::aligned_at;
use crate::frames::along;
use inline_sizes::{
    block_used, bounds_of, content_of_box, inline_used, inner, is_stretched, margins,
};
use lunit::{Along, BLOCK, INLINE, Lu, Rect, Wide};
use style_types::{Align, AlignMode, Style};
use tree_rules::Given;

/// `justify-self` of the root, in place of its own: `stretch`.
fn root_justify() -> Align
    ensures { result ≡ root_justify }
{
    Align {
        mode: AlignMode::Stretch,
        safe: None,
    }
}

/// `align-self` of the root, in place of its own: `start`.
fn root_align() -> Align
    ensures { result ≡ root_align }
{
    Align {
        mode: AlignMode::Start,
        safe: None,
    }
}

/// The inline size of the border box of the root in a viewport of this width, by the two inline sizes of its content: it is
/// stretched, and with a size or an `auto` margin of its own it is as any item of the viewport (own rule). It is at least its
/// borders and paddings.
pub fn root_width(style: &Style, width: Lu, content: (Lu, Lu)) -> Lu
    requires { IsGridStyle (grid_of style.now) }
    ensures value { result ≡ root_width width (root_by style.now content (pos 0)) }
    ensures least { inner (grid_of style.now).columns ≤ℤ result }
{
    let bounds = bounds_of::<0>(style, Some(width));
    let stretched = is_stretched::<0>(&root_justify(), style);
    inline_used(&bounds, stretched, margins::<0>(style), width, content)
}

/// The block size of the border box of the root in a viewport of this height, by the block size of its content. It is at least its
/// borders and paddings.
pub fn root_height(style: &Style, height: Lu, content: Lu) -> Lu
    requires { IsGridStyle (grid_of style.now) }
    ensures value { result ≡
        root_height height (root_by style.now (pos 0, pos 0) content) (with_block content) }
    ensures least { inner (grid_of style.now).rows ≤ℤ result }
{
    let bounds = bounds_of::<1>(style, Some(height));
    block_used(&bounds, false, margins::<1>(style), height, content)
}

#[tactic(auto, using(crate::proofs::Rooms::from_zero))]
/// Where the border box of the root of this size starts along an axis, in a viewport of this size.
fn place_of_root<const AXIS: u8>(
    align: &Align,
    style: &Style,
    size: Lu,
    box_size: Lu,
) -> Along<AXIS>
    ensures value { result ≡ aligned_at align.now (grid_at AXIS style.now) (pos 0) size box_size }
    ensures near { IsWithin (2 ^ 36) result }
{
    let place = aligned_at::<AXIS>(align, style, Wide::of(0), size, box_size);
    Along::of(place.units())
}

/// The rectangle of the root in a viewport of this width and height, by the two sizes of its border box.
pub fn root_rect(style: &Style, viewport: (Lu, Lu), size: (Lu, Lu)) -> Rect
    ensures value { result ≡ root_rect style.now viewport size }
    ensures x { IsWithin (2 ^ 36) result.x }
    ensures y { IsWithin (2 ^ 36) result.y }
{
    Rect {
        x: place_of_root::<INLINE>(&root_justify(), style, viewport.0, size.0),
        y: place_of_root::<BLOCK>(&root_align(), style, viewport.1, size.1),
        width: along::<INLINE>(size.0),
        height: along::<BLOCK>(size.1),
    }
}

/// What a node is given along an axis where its border box has this size: the size of its content box.
pub fn given_box<const AXIS: u8>(style: &Style, box_size: Lu) -> Given
    requires { IsGridAxis (grid_at AXIS style.now) }
    ensures { result ≡ given_box (grid_at AXIS style.now) box_size }
{
    Given::Size(content_of_box(inner::<AXIS>(style), box_size))
}
