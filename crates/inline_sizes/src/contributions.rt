//! The contributions of a node to the tracks of a grid, or to the content of a flex container (CSS Grid 2, 12.5; CSS Sizing 3,
//! section 5.2).

ghost use Rattle.std.specs.Prelude.{◌≡◌, ◌+ℤ◌, pos, unwrap_or};
ghost use Rattle.std.specs.Int.{int_max};
ghost use Rattle.lunit.specs.Units.{clamp};
ghost use Rattle.part_rules.specs.Lists.{at_most};
ghost use Rattle.tree_rules.specs.NodeSizes.{contribution, floor_by, floor_of};
ghost use Rattle.inline_sizes.specs.Sums.{IsSum};

use crate::bounds::{Bounds, at_most, or};
use lunit::{Floor, Lu, Wide};
use style_types::Size;

#[tactic(auto, using(crate::proofs::Limits::units_sum, crate::proofs::Limits::both_sum))]
/// A content size with borders and paddings.
pub(crate) fn with_inner(bounds: &Bounds, content: Lu) -> Wide
    ensures value { result ≡ content +ℤ bounds.now.inner }
    ensures range { IsSum result }
{
    content.wide() + bounds.inner().wide()
}

/// The contribution of a node with these margins whose content has this size: its declared size, else that of its content with
/// borders and paddings, within its limits, and limited to the range of lengths (CSS Sizing 3, section 5.2).
pub fn contribution(bounds: &Bounds, margins: Wide, content: Lu) -> Lu
    requires { IsSum margins }
    ensures { result ≡ contribution bounds.now margins content }
{
    let size = or(bounds.size(), with_inner(bounds, content));
    (margins + bounds.fitted(size)).clamp()
}

/// Margins with borders and paddings, as a minimum that depends on nothing else.
fn bare_floor(bounds: &Bounds, margins: Wide) -> Floor
    requires { IsSum margins }
    ensures { result ≡ Floor.Known (clamp (margins +ℤ bounds.now.inner)) }
{
    Floor::Known((margins + bounds.inner().wide()).clamp())
}

/// The minimum of a declared length.
fn declared_floor(bounds: &Bounds, margins: Wide) -> Floor
    requires { IsSum margins }
    ensures { result ≡
        Floor.Known
        (clamp (margins +ℤ int_max bounds.now.inner (unwrap_or bounds.now.least (pos 0)))) }
{
    let least = or(bounds.least(), Wide::of(0));
    Floor::Known((margins + bounds.inner().wide().max(least)).clamp())
}

/// The automatic minimum of a node that is no scroll container (CSS Grid 2, 6.6).
fn content_floor(bounds: &Bounds, margins: Wide, content: Lu) -> Floor
    requires { IsSum margins }
    ensures { result ≡
        Floor.Content (clamp (at_most bounds.now.most (content +ℤ bounds.now.inner)))
        (clamp margins) bounds.now.inner }
{
    Floor::Content {
        size: at_most(bounds.most(), with_inner(bounds, content)).clamp(),
        margins: margins.clamp(),
        inner: bounds.inner(),
    }
}

/// The minimum by a declared minimum (CSS Grid 2, 6.6).
fn floor_by(least: &Size, scrolls: bool, bounds: &Bounds, margins: Wide, content: Lu) -> Floor
    requires { IsSum margins }
    ensures { result ≡ floor_by least.now scrolls bounds.now margins content }
{
    match least {
        Size::Length(_) => declared_floor(bounds, margins),
        Size::Auto => {
            if scrolls {
                bare_floor(bounds, margins)
            } else {
                content_floor(bounds, margins, content)
            }
        }
        _ => bare_floor(bounds, margins),
    }
}

/// The minimum contribution (CSS Grid 2, 12.5): with a declared length the min-content contribution; else the minimum by the
/// declared minimum, of which a percentage counts 0 and `auto` is the automatic minimum, 0 for a scroll container.
pub fn floor_of(least: &Size, scrolls: bool, bounds: &Bounds, margins: Wide, content: Lu) -> Floor
    requires { IsSum margins }
    ensures { result ≡ floor_of least.now scrolls bounds.now margins content }
{
    if bounds.size().is_some() {
        Floor::Known(contribution(bounds, margins, content))
    } else {
        floor_by(least, scrolls, bounds, margins, content)
    }
}
