//! The frames of children and positions in the viewport.

ghost use Rattle.std.specs.Prelude.{◌≡◌, ◌+◌, ◌^◌, ◌+ℤ◌, ℕ};
ghost use Rattle.lunit.specs.Units.{IsLong};
ghost use Rattle.placing.specs.Kept.{frame_of};
ghost use Rattle.placing.specs.Ranges.{IsGridAxis, IsGridStyle};
ghost use Rattle.tree_rules.specs.Frames.{moved_by};
ghost use Rattle.tree_rules.specs.Labels.{grid_of};
ghost use Rattle.tree_rules.specs.NodeSizes.{inner_start};
ghost use Rattle.inline_sizes.specs.Styled.{grid_at};
ghost use Rattle.box_layout.specs.Places.{frame_from};
ghost use Rattle.box_layout.specs.Ranges.{IsEdges, IsPlace, IsWithin};

use inline_sizes::inner_start;
use lunit::{Along, BLOCK, INLINE, Lu, Rect, Wide};
use node_arena::NodeId;
use placing::Frame;
use style_types::Style;
use tree_rules::Given;

/// A length along an axis.
pub fn along<const AXIS: u8>(length: Lu) -> Along<AXIS>
    ensures { result ≡ length }
{
    Along::of(length.units())
}

/// A position in a border box, from one in the content box, whose border and padding lie before it.
pub fn offset<const AXIS: u8>(inner: Lu, place: Wide) -> Along<AXIS>
    requires place { IsPlace place }
    requires inner { IsEdges inner }
    ensures value { result ≡ inner +ℤ place }
    ensures near { (by : ℕ) → IsWithin by place → IsWithin (by + 2 ^ 28) result }
{
    Along::of((inner.wide() + place).units())
}

/// The border and the padding at the start along an axis.
fn edges_before<const AXIS: u8>(parent: &Style) -> Lu
    requires { IsGridAxis (grid_at AXIS parent.now) }
    ensures value { result ≡ inner_start (grid_at AXIS parent.now) }
    ensures range { IsEdges result }
{
    inner_start::<AXIS>(parent)
}

/// Where the content box of a parent starts in its border box, in the two axes, inline axis first.
pub(crate) fn origin_of(parent: &Style) -> (Lu, Lu)
    requires { IsGridStyle (grid_of parent.now) }
    ensures x { result.0 ≡ inner_start (grid_at 0 parent.now) }
    ensures y { result.1 ≡ inner_start (grid_at 1 parent.now) }
    ensures x_range { IsEdges result.0 }
    ensures y_range { IsEdges result.1 }
{
    (edges_before::<0>(parent), edges_before::<1>(parent))
}

/// The frame of a child that stands at these places in the content box of its parent, which starts here in the
/// parent's border box, with a border box of these sizes, inline axis first, and is given this in the two axes. Its
/// rectangle is told from the border box of the parent (CSS Grid 2, section 6).
pub(crate) fn frame_from(
    origin: (Lu, Lu),
    child: NodeId,
    place: (Wide, Wide),
    size: (Lu, Lu),
    inline: Given,
    block: Given,
) -> Frame
    requires before { IsEdges origin.0 }
    requires above { IsEdges origin.1 }
    requires columns { IsPlace place.0 }
    requires rows { IsPlace place.1 }
    ensures child { result.child ≡ child }
    ensures value { frame_of result ≡
        frame_from origin (record { at = place.0; size = size.0; given = inline })
        (record { at = place.1; size = size.1; given = block }) }
    ensures x { (by : ℕ) → IsWithin by place.0 → IsWithin (by + 2 ^ 28) result.rect.x }
    ensures y { (by : ℕ) → IsWithin by place.1 → IsWithin (by + 2 ^ 28) result.rect.y }
{
    Frame {
        child,
        rect: Rect {
            x: offset::<INLINE>(origin.0, place.0),
            y: offset::<BLOCK>(origin.1, place.1),
            width: along::<INLINE>(size.0),
            height: along::<BLOCK>(size.1),
        },
        inline,
        block,
    }
}

/// A rectangle in the border box of a parent, which stands at this position, as one in the viewport.
pub fn moved_by(x: Along<INLINE>, y: Along<BLOCK>, rect: &Rect) -> Rect
    requires x { IsLong (x +ℤ rect.now.x) }
    requires y { IsLong (y +ℤ rect.now.y) }
    ensures { result ≡ moved_by (x, y) rect.now }
{
    Rect {
        x: x + rect.x,
        y: y + rect.y,
        width: rect.width,
        height: rect.height,
    }
}
