//! The tracks of its parent as a subgrid sees them (CSS Grid 2, section 9).

ghost use Rattle.std.specs.Prelude.{◌≡◌, ◌≤ℤ◌, length, pos, IfOk, Some};
ghost use Rattle.part_rules.specs.Views.{content_size, tracks_over};
ghost use Rattle.placing.specs.Ranges.{IsGridAxis};
ghost use Rattle.subgrid_view.specs.Ranges.{AreNear};
ghost use Rattle.tree_rules.specs.Distribution.{view_in};
ghost use Rattle.tree_rules.specs.NodeSizes.{outer_end, outer_start};
ghost use Rattle.tree_rules.specs.Repetitions.{gap_by};
ghost use Rattle.inline_sizes.specs.Styled.{grid_at};

use crate::distribution::{content_size, gap_by, tracks_over};
use crate::sides::{outer_end, outer_start};
use lunit::{Lu, NoMemory, Span};
use part_rules::View;
use placing::style::gap;
use std::alloc::Global;
use style_types::Style;
use subgrid_view::view_of;

/// The gap of a subgrid over these tracks: a percentage is of its content size, and `normal` is the parent's gap.
fn gap_in<const AXIS: u8>(
    edges: &[(i64, i64)],
    outer_gap: Lu,
    span: Span,
    style: &Style,
    sides: (Lu, Lu),
) -> Lu
    requires start { pos 0 ≤ℤ span.start }
    requires order { span.start ≤ℤ span.end }
    requires end { span.end ≤ℤ pos (length edges.now) }
    ensures { result ≡
        gap_by (Some (content_size (tracks_over edges.now span) sides.0 sides.1)) outer_gap
        (grid_at AXIS style.now).gap }
{
    let content = content_size(tracks_over(edges, span), sides.0, sides.1);
    gap_by(&Some(content), outer_gap, &gap::<AXIS>(style))
}

/// The view that a subgrid with this style has of its parent's tracks (CSS Grid 2, section 9), over a span that is counted from
/// the first track. A percentage gap is of the size of its content box, and `normal` is the parent's gap.
///
/// `NoMemory` where memory is wanting.
pub fn view_in<const AXIS: u8>(
    alloc: Global,
    outer: &View<AXIS>,
    span: Span,
    style: &Style,
) -> Result<View<AXIS>, NoMemory>
    requires axis { IsGridAxis (grid_at AXIS style.now) }
    requires start { pos 0 ≤ℤ span.start }
    requires order { span.start ≤ℤ span.end }
    requires end { span.end ≤ℤ pos (length outer.now.edges) }
    requires near { AreNear outer.now.edges }
    ensures { IfOk result (λ view. view ≡ view_in outer.now span (grid_at AXIS style.now)) }
{
    let before = outer_start::<AXIS>(style);
    let after = outer_end::<AXIS>(style);
    let gap = gap_in::<AXIS>(
        outer.edges.as_slice(),
        outer.gap,
        span,
        style,
        (before, after),
    );
    view_of(alloc, outer, span, gap, before, after)
}
