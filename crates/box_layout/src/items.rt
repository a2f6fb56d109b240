//! The place and the size of a child of a grid in its area (CSS Grid 2, sections 6 and 9).

ghost use Rattle.std.specs.Prelude.{◌≡◌, ◌≤ℤ◌};
ghost use Rattle.placing.specs.Ranges.{IsGridAxis};
ghost use Rattle.tree_rules.specs.NodeSizes.{inner};
ghost use Rattle.inline_sizes.specs.Styled.{grid_at};
ghost use Rattle.inline_sizes.specs.Sums.{IsTotal};
ghost use Rattle.box_layout.specs.Places.{box_in_rows, place_in_area, self_value};
ghost use Rattle.box_layout.specs.Ranges.{IsNearTo};

use crate::aligned::{aligned_at, fills, margin};
use inline_sizes::{block_used, bounds_of, is_stretched, margins, self_align, subgrid_box};
use lunit::{Lu, Wide};
use placing::style::{items, margin_start, own};
use style_types::{Align, Style};

/// How a child of a grid is aligned along an axis.
fn self_value<const AXIS: u8>(container: &Style, style: &Style) -> Align
    ensures { result ≡ self_value AXIS container.now style.now }
{
    self_align(own::<AXIS>(style), items::<AXIS>(container))
}

#[tactic(auto, using(crate::proofs::Filled::fills_place, crate::proofs::Filled::near_itself))]
/// Where the border box of a child of this size starts along an axis, in an area of this start and size: a child that `shares` the
/// tracks of its parent stands after its margin, another one where its `auto` margins and its self value place it (CSS Grid 2,
/// section 9; CSS Box Alignment 3, section 6). It is exact, and at most 2^36 from the start of the area.
pub fn place_in_area<const AXIS: u8>(
    shares: bool,
    container: &Style,
    style: &Style,
    start: Wide,
    size: Lu,
    box_size: Lu,
) -> Wide
    requires { IsTotal start }
    ensures value { result ≡ place_in_area AXIS shares container.now style.now start size box_size }
    ensures near { IsNearTo start result }
{
    if shares {
        start + margin(&margin_start::<AXIS>(style)).wide()
    } else if fills::<AXIS>(style, size, box_size) {
        start
    } else {
        let align = self_value::<AXIS>(container, style);
        aligned_at::<AXIS>(&align, style, start, size, box_size)
    }
}

/// The block size of the border box of a child in an area of this size, by the block size of its content: that of a child that
/// `shares` the rows of its parent is the area less its margins, that of another one the size that is used, where percentages are of
/// the area (CSS Grid 2, 6.2 and section 9). It is at least its borders and paddings.
pub fn box_size(shares: bool, container: &Style, style: &Style, size: Lu, content: Lu) -> Lu
    requires { IsGridAxis (grid_at 1 style.now) }
    ensures value { result ≡ box_in_rows shares container.now style.now size content }
    ensures least { inner (grid_at 1 style.now) ≤ℤ result }
{
    if shares {
        subgrid_box::<1>(style, size)
    } else {
        let stretched = is_stretched::<1>(&self_value::<1>(container, style), style);
        let bounds = bounds_of::<1>(style, Some(size));
        block_used(&bounds, stretched, margins::<1>(style), size, content)
    }
}
