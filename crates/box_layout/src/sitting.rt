//! Flex containers and their children, as lines place them (CSS Flexbox 1, section 9).

ghost use Rattle.std.specs.Prelude.{◌≡◌, ◌<◌, ◌^◌, pos, Some, if◌then◌else◌};
ghost use Rattle.lunit.specs.Units.{top};
ghost use Rattle.placing.specs.Ranges.{IsGridAxis, IsGridStyle};
ghost use Rattle.tree_rules.specs.Repetitions.{gap_by};
ghost use Rattle.tree_rules.specs.FlexSizes.{cross_content, cross_grid};
ghost use Rattle.tree_rules.specs.Labels.{content_of, grid_of};
ghost use Rattle.tree_rules.specs.NodeSizes.{bounds_of};
ghost use Rattle.inline_sizes.specs.Plains.{IsPlain};
ghost use Rattle.inline_sizes.specs.Styled.{content_at, grid_at, styled};
ghost use Rattle.box_layout.specs.Sittings.{container_by, greatest_across, least_across, limits_across, margins_in, sitting_by};

use crate::aligned::{Margins, margins_of};
use inline_sizes::{
    Bounds, bounds_of, gap_by, inner, inner_start, is_plain, is_stretched_across, line_align,
};
use lunit::{Lu, Wide};
use node_arena::NodeId;
use placing::style::{distribution, gap};
use style_types::{Align, Style};

/// A flex container with the sizes of its content box, and what its style says of its lines.
#[derive(Clone, Copy)]
pub struct Container {
    /// Whether its main axis is the block axis, else it is the inline axis.
    pub column: bool,
    /// The size of its content box along the main axis, and across it.
    pub main: Lu,
    /// Across it.
    pub cross: Lu,
    /// The gap between two children of a line.
    pub gap: Lu,
    /// The gap between two lines.
    pub between: Lu,
    /// How the children of a line share what it leaves (`justify-content`).
    pub along: Align,
    /// How the lines share what they leave (`align-content`).
    pub across: Align,
    /// The border and the padding at its inline start.
    pub inline_start: Lu,
    /// The border and the padding at its block start.
    pub block_start: Lu,
}

/// A child of a flex container, as a line places it.
#[derive(Clone, Copy)]
pub struct Sitting {
    /// Its place among the children in document order, from 0.
    pub number: u32,
    /// The child.
    pub child: NodeId,
    /// The size of its border box along the main axis.
    pub main: Lu,
    /// Its margins along the main axis.
    pub along: Margins,
    /// Its margins across it.
    pub across: Margins,
    /// How it is aligned in its line.
    pub align: Align,
    /// The least size of its border box across the main axis: its hypothetical cross size, or where
    /// it is stretched its min cross size, but at least its borders and paddings.
    pub least: Lu,
    /// The greatest size of its border box across the main axis: its hypothetical cross size, or
    /// where it is stretched its max cross size.
    pub most: Lu,
    /// The sum of its borders and paddings in the inline axis.
    pub inline_inner: Lu,
    /// The sum of its borders and paddings in the block axis.
    pub block_inner: Lu,
}

/// The gap of a style along an axis, where percentages are of this size.
pub(crate) fn gap_in<const AXIS: u8>(style: &Style, size: Lu) -> Lu
    ensures { result ≡ gap_by (Some size) (pos 0) (grid_at AXIS style.now).gap }
{
    gap_by(&Some(size), Lu::default(), &gap::<AXIS>(style))
}

/// A flex container of this style, whose content box has these sizes along the main axis, which in a `column` is the block axis, and
/// across it. Percentages of its gaps are of these sizes.
pub fn container_of(column: bool, style: &Style, main: Lu, cross: Lu) -> Container
    requires { IsGridStyle (grid_of style.now) }
    ensures { result ≡ container_by column (styled style.now) main cross }
{
    let (gap, between) = if column {
        (gap_in::<1>(style, main), gap_in::<0>(style, cross))
    } else {
        (gap_in::<0>(style, main), gap_in::<1>(style, cross))
    };
    Container {
        column,
        main,
        cross,
        gap,
        between,
        along: distribution::<0>(style),
        across: distribution::<1>(style),
        inline_start: inner_start::<0>(style),
        block_start: inner_start::<1>(style),
    }
}

/// The least size that limits allow.
fn least_of(bounds: &Bounds) -> Lu
    ensures { result ≡ least_across bounds.now }
{
    let least = match bounds.least() {
        Some(least) => least,
        None => Wide::of(0),
    };
    bounds.inner().wide().max(least).clamp()
}

#[tactic(auto, unfolding(lunit::specs::Units::clamp))]
/// The greatest length.
fn longest() -> Lu
    ensures { result ≡ top }
{
    Lu::of(1 << 30)
}

/// The greatest size that limits allow.
fn most_of(bounds: &Bounds) -> Lu
    ensures { result ≡ greatest_across bounds.now }
{
    match bounds.most() {
        Some(most) => most.clamp(),
        None => longest(),
    }
}

/// The limits of a plain child along an axis, as `limits_of` tells them.
fn plain_limits<const AXIS: u8>(style: &Style, container: Lu) -> (Lu, Lu)
    requires { IsPlain (grid_at AXIS style.now) (content_at AXIS style.now) }
    ensures { result ≡ (
      least_across (bounds_of (Some container) (content_of style.now).border_box
          (grid_at AXIS style.now) (content_at AXIS style.now)),
      greatest_across (bounds_of (Some container) (content_of style.now).border_box
          (grid_at AXIS style.now) (content_at AXIS style.now)),
    ) }
{
    (Lu::default(), longest())
}

/// The limits of a child along an axis, of which percentages are of the container's size there; in few steps for a plain one.
fn limits_of<const AXIS: u8>(style: &Style, container: Lu) -> (Lu, Lu)
    requires { IsGridAxis (grid_at AXIS style.now) }
    ensures { result ≡ (
      least_across (bounds_of (Some container) (content_of style.now).border_box
          (grid_at AXIS style.now) (content_at AXIS style.now)),
      greatest_across (bounds_of (Some container) (content_of style.now).border_box
          (grid_at AXIS style.now) (content_at AXIS style.now)),
    ) }
{
    if is_plain::<AXIS>(style) {
        return plain_limits::<AXIS>(style, container);
    }
    let bounds = bounds_of::<AXIS>(style, Some(container));
    (least_of(&bounds), most_of(&bounds))
}

/// The least and the greatest size of a child along an axis that is the cross one: both its own size, or its limits where it is
/// stretched, of which percentages are of the container's size there.
fn limits<const AXIS: u8>(stretched: bool, style: &Style, container: Lu, own: Lu) -> (Lu, Lu)
    requires { IsGridAxis (grid_at AXIS style.now) }
    ensures { result ≡
        limits_across stretched
        (bounds_of (Some container) (content_of style.now).border_box (grid_at AXIS style.now)
        (content_at AXIS style.now)) own }
{
    if stretched {
        limits_of::<AXIS>(style, container)
    } else {
        (own, own)
    }
}

/// The least and the greatest size of a child across its line.
fn limits_across(flex: &Container, stretched: bool, style: &Style, own: Lu) -> (Lu, Lu)
    requires { IsGridStyle (grid_of style.now) }
    ensures { result ≡
        limits_across stretched
        (bounds_of (Some flex.now.cross) (content_of style.now).border_box
        (cross_grid flex.now.column (styled style.now))
        (cross_content flex.now.column (styled style.now))) own }
{
    if flex.column {
        limits::<0>(stretched, style, flex.cross, own)
    } else {
        limits::<1>(stretched, style, flex.cross, own)
    }
}

/// The margins of a style in the block axis, or in the inline axis.
fn margins_by(block: bool, style: &Style) -> Margins
    ensures { result ≡
        (if block then margins_in (grid_of style.now).rows else margins_in
        (grid_of style.now).columns) }
{
    if block {
        margins_of::<1>(style)
    } else {
        margins_of::<0>(style)
    }
}

/// A child with the style `style` and this place in document order, as a line of a flex container places it. `main` is the size of
/// its border box along the main axis, and `cross` its hypothetical size across it (CSS Flexbox 1, 9.4).
pub fn sitting_of(
    flex: &Container,
    container: &Style,
    style: &Style,
    number: usize,
    child: NodeId,
    main: Lu,
    cross: Lu,
) -> Sitting
    requires number { number < 2 ^ 32 }
    requires style { IsGridStyle (grid_of style.now) }
    ensures { result ≡
        sitting_by flex.now.column flex.now.cross (styled container.now) number child
        (styled style.now) main cross }
{
    let stretched = is_stretched_across(flex.column, container, style);
    let (least, most) = limits_across(flex, stretched, style, cross);
    Sitting {
        number: number as u32,
        child,
        main,
        along: margins_by(flex.column, style),
        across: margins_by(!flex.column, style),
        align: line_align(container, style),
        least,
        most,
        inline_inner: inner::<0>(style),
        block_inner: inner::<1>(style),
    }
}
