//! Margins, borders and paddings of a node along one axis (CSS 2, section 8).

ghost use Rattle.std.specs.Prelude.{◌≡◌, ◌≤ℤ◌, pos};
ghost use Rattle.placing.specs.Ranges.{IsGridAxis};
ghost use Rattle.tree_rules.specs.NodeSizes.{inner, inner_end, inner_start, margin, margins, outer_end, outer_start};
ghost use Rattle.inline_sizes.specs.Styled.{grid_at};

use crate::numbers::sum_of_two;
use lunit::Lu;
use placing::style::{
    border_end, border_start, margin_end, margin_start, padding_end, padding_start,
};
use style_types::Style;

/// A margin, `auto` counting 0.
fn margin(length: Option<Lu>) -> Lu
    ensures { result ≡ margin length }
{
    match length {
        Some(length) => length,
        None => Lu::default(),
    }
}

#[tactic(auto, using(crate::proofs::InRange::side_laws))]
/// The sum of the two margins, `auto` counting 0.
pub fn margins<const AXIS: u8>(style: &Style) -> Lu
    requires { IsGridAxis (grid_at AXIS style.now) }
    ensures { result ≡ margins (grid_at AXIS style.now) }
{
    sum_of_two(
        margin(margin_start::<AXIS>(style)),
        margin(margin_end::<AXIS>(style)),
    )
}

#[tactic(auto, using(crate::proofs::InRange::side_laws))]
/// Border and padding at the start.
pub fn inner_start<const AXIS: u8>(style: &Style) -> Lu
    requires { IsGridAxis (grid_at AXIS style.now) }
    ensures { result ≡ inner_start (grid_at AXIS style.now) }
{
    sum_of_two(border_start::<AXIS>(style), padding_start::<AXIS>(style))
}

#[tactic(auto, using(crate::proofs::InRange::side_laws))]
/// Border and padding at the end.
pub fn inner_end<const AXIS: u8>(style: &Style) -> Lu
    requires { IsGridAxis (grid_at AXIS style.now) }
    ensures { result ≡ inner_end (grid_at AXIS style.now) }
{
    sum_of_two(border_end::<AXIS>(style), padding_end::<AXIS>(style))
}

#[inline(always)]
#[tactic(auto, using(crate::proofs::InRange::side_laws))]
/// The sum of borders and paddings.
pub fn inner<const AXIS: u8>(style: &Style) -> Lu
    requires { IsGridAxis (grid_at AXIS style.now) }
    ensures value { result ≡ inner (grid_at AXIS style.now) }
    ensures some { pos 0 ≤ℤ result }
{
    sum_of_two(inner_start::<AXIS>(style), inner_end::<AXIS>(style))
}

#[tactic(auto, using(crate::proofs::InRange::side_laws))]
/// Margin, border and padding at the start.
pub fn outer_start<const AXIS: u8>(style: &Style) -> Lu
    requires { IsGridAxis (grid_at AXIS style.now) }
    ensures { result ≡ outer_start (grid_at AXIS style.now) }
{
    sum_of_two(
        margin(margin_start::<AXIS>(style)),
        inner_start::<AXIS>(style),
    )
}

#[tactic(auto, using(crate::proofs::InRange::side_laws))]
/// Margin, border and padding at the end.
pub fn outer_end<const AXIS: u8>(style: &Style) -> Lu
    requires { IsGridAxis (grid_at AXIS style.now) }
    ensures { result ≡ outer_end (grid_at AXIS style.now) }
{
    sum_of_two(margin(margin_end::<AXIS>(style)), inner_end::<AXIS>(style))
}
