//! The children of a flex container (CSS Flexbox 1, section 9).

ghost use Rattle.std.specs.Prelude.{◌≡◌, ◌&&◌, ◌+ℤ◌, ◌≤ℤ◌, false, not, option_map, pos, true, unwrap_or, None, Some, if◌then◌else◌};
ghost use Rattle.std.specs.Int.{int_max};
ghost use Rattle.lunit.specs.Units.{clamp};
ghost use Rattle.placing.specs.Ranges.{IsGridStyle, IsGridAxis};
ghost use Rattle.tree_rules.specs.FlexSizes.{automatic_minimum, base_size, cross_grid, flex_item, is_stretched_across, line_align};
ghost use Rattle.tree_rules.specs.Labels.{content_of, grid_of};
ghost use Rattle.tree_rules.specs.NodeSizes.{block_used, border_size, bounds_of, contribution, inline_used, inner, margins, resolved};
ghost use Rattle.inline_sizes.specs.Plains.{IsPlain};
ghost use Rattle.inline_sizes.specs.Styled.{content_at, flex_item_at, grid_at, styled};
ghost use Rattle.inline_sizes.specs.Sums.{IsSum};

use crate::bounds::{Bounds, at_most, border_size, or, resolved};
use crate::contributions::{contribution, with_inner};
use crate::plain::{is_plain, plain_block, plain_contributions};
use crate::sides::margins;
use crate::sized::{bounds_of, is_stretched};
use crate::used::{block_used, inline_used, self_align};
use lunit::{Lu, Wide};
use part_rules::FlexItem;
use placing::style::{basis, grow, is_border_box, items, own, scrolls, shrink, wraps};
use style_types::{Align, Size, Style};

/// The base size by a basis that is not `content`.
fn base_by(main: &Option<Lu>, border_box: bool, basis: &Size, bounds: &Bounds, content: Lu) -> Wide
    ensures value { result ≡
        unwrap_or
        (option_map (border_size border_box bounds.now.inner) (resolved main.now basis.now))
        (unwrap_or bounds.now.size (content +ℤ bounds.now.inner)) }
    ensures range { IsSum result }
{
    match resolved(main, basis) {
        Some(length) => border_size(border_box, bounds.inner(), length),
        None => or(bounds.size(), with_inner(bounds, content)),
    }
}

/// The flex base size as a border-box size (CSS Flexbox 1, 9.2): the basis, where it is a length or a percentage of the main size;
/// else, unless it is `content`, the declared main size; else that of the content. It is exact.
pub fn base_size(
    main: &Option<Lu>,
    border_box: bool,
    basis: &Size,
    bounds: &Bounds,
    content: Lu,
) -> Wide
    ensures value { result ≡ base_size main.now border_box basis.now bounds.now content }
    ensures range { IsSum result }
{
    match basis {
        Size::Content => with_inner(bounds, content),
        _ => base_by(main, border_box, basis, bounds, content),
    }
}

/// The automatic minimum (CSS Flexbox 1, 4.5): the content size, but at most a declared main size and a declared maximum; 0 for a
/// scroll container. It is exact.
pub fn automatic_minimum(scrolls: bool, bounds: &Bounds, content: Lu) -> Wide
    ensures value { result ≡ automatic_minimum scrolls bounds.now content }
    ensures range { IsSum result }
{
    if scrolls {
        Wide::of(0)
    } else {
        at_most(
            bounds.size(),
            at_most(bounds.most(), with_inner(bounds, content)),
        )
    }
}

/// The number as a length, where there is one.
fn clamped(number: Option<Wide>) -> Option<Lu>
    ensures { result ≡ option_map clamp number }
{
    match number {
        Some(number) => Some(number.clamp()),
        None => None,
    }
}

/// A base size, but at least borders and paddings.
fn base_of(main: &Option<Lu>, style: &Style, bounds: &Bounds, content: Lu) -> Lu
    ensures { result ≡
        clamp
        (int_max bounds.now.inner
        (base_size main.now (content_of style.now).border_box (content_of style.now).basis
        bounds.now content)) }
{
    let base = base_size(main, is_border_box(style), &basis(style), bounds, content);
    bounds.inner().wide().max(base).clamp()
}

/// The least main size: a declared minimum, or the automatic one.
fn least_of(style: &Style, bounds: &Bounds, content: Lu) -> Lu
    ensures { result ≡
        clamp
        (unwrap_or bounds.now.least
        (automatic_minimum (content_of style.now).scrolls bounds.now content)) }
{
    or(
        bounds.least(),
        automatic_minimum(scrolls(style), bounds, content),
    )
    .clamp()
}

/// The declared sizes of a plain child, as `main_bounds` tells them.
fn plain_bounds<const AXIS: u8>(style: &Style, main: Option<Lu>) -> Bounds
    requires { IsPlain (grid_at AXIS style.now) (content_at AXIS style.now) }
    ensures { result ≡
        bounds_of main (content_of style.now).border_box (grid_at AXIS style.now)
        (content_at AXIS style.now) }
{
    Bounds::none()
}

/// The declared sizes of a child along the main axis, where percentages are of this size; in a row in few steps for a plain one.
fn main_bounds<const AXIS: u8>(style: &Style, main: Option<Lu>) -> Bounds
    requires { IsGridAxis (grid_at AXIS style.now) }
    ensures { result ≡
        bounds_of main (content_of style.now).border_box (grid_at AXIS style.now)
        (content_at AXIS style.now) }
{
    if AXIS == 0 && is_plain::<AXIS>(style) {
        return plain_bounds::<AXIS>(style, main);
    }
    bounds_of::<AXIS>(style, main)
}

/// A child along this axis as the main one.
fn flex_item_at<const AXIS: u8>(main: &Option<Lu>, style: &Style, content: (Lu, Lu)) -> FlexItem
    requires { IsGridAxis (grid_at AXIS style.now) }
    ensures { result ≡ flex_item_at AXIS main.now style.now content }
{
    let bounds = main_bounds::<AXIS>(style, *main);
    FlexItem {
        base: base_of(main, style, &bounds, content.1),
        min: least_of(style, &bounds, content.0),
        max: clamped(bounds.most()),
        margins: margins::<AXIS>(style),
        inner: bounds.inner(),
        grow: grow(style),
        shrink: shrink(style),
    }
}

/// A child of a flex container along the main axis, which in a column is the block axis, with its two content sizes there
/// (CSS Flexbox 1, section 9.2), where percentages are of this main size; where it is not known they are `auto`, and a percentage
/// maximum is `none`.
pub fn flex_item(column: bool, main: &Option<Lu>, style: &Style, content: (Lu, Lu)) -> FlexItem
    requires { IsGridStyle (grid_of style.now) }
    ensures { result ≡ flex_item column main.now (styled style.now) content }
{
    if column {
        flex_item_at::<1>(main, style, content)
    } else {
        flex_item_at::<0>(main, style, content)
    }
}

/// The inline contributions of a plain child, as `inline_contributions` tells them.
fn plain_contributed(style: &Style, content: (Lu, Lu)) -> (Lu, Lu)
    requires { IsPlain (grid_of style.now).columns (content_of style.now).inline }
    ensures low { result.0 ≡
        contribution
        (bounds_of None (content_of style.now).border_box (grid_of style.now).columns
        (content_of style.now).inline) (margins (grid_of style.now).columns) content.0 }
    ensures high { result.1 ≡
        contribution
        (bounds_of None (content_of style.now).border_box (grid_of style.now).columns
        (content_of style.now).inline) (margins (grid_of style.now).columns) content.1 }
{
    plain_contributions(content)
}

/// The inline contributions of a child of a flex container by its two content sizes (CSS Flexbox 1, 9.9; that the flex basis plays
/// no part is an own rule), in few steps for a plain one.
pub fn inline_contributions(style: &Style, content: (Lu, Lu)) -> (Lu, Lu)
    requires { IsGridStyle (grid_of style.now) }
    ensures low { result.0 ≡
        contribution
        (bounds_of None (content_of style.now).border_box (grid_of style.now).columns
        (content_of style.now).inline) (margins (grid_of style.now).columns) content.0 }
    ensures high { result.1 ≡
        contribution
        (bounds_of None (content_of style.now).border_box (grid_of style.now).columns
        (content_of style.now).inline) (margins (grid_of style.now).columns) content.1 }
{
    if is_plain::<0>(style) {
        return plain_contributed(style, content);
    }
    let bounds = bounds_of::<0>(style, None);
    let outside = margins::<0>(style);
    let low = contribution(&bounds, outside.wide(), content.0);
    let high = contribution(&bounds, outside.wide(), content.1);
    (low, high)
}

/// How a child of a flex container is aligned in its line: by `align-self`, whatever the axis (CSS Flexbox 1, 8.3).
pub fn line_align(container: &Style, style: &Style) -> Align
    ensures { result ≡ line_align (styled container.now) (styled style.now) }
{
    self_align(own::<1>(style), items::<1>(container))
}

/// Whether a child of a flex container is stretched across its line: its alignment says so, its size there is `auto`, and neither
/// of its margins there is (CSS Flexbox 1, 8.3).
pub fn is_stretched_across(column: bool, container: &Style, style: &Style) -> bool
    ensures { result ≡ is_stretched_across column (styled container.now) (styled style.now) }
{
    let align = line_align(container, style);
    if column {
        is_stretched::<0>(&align, style)
    } else {
        is_stretched::<1>(&align, style)
    }
}

/// Whether a child of a column takes its width: the column does not wrap, and the child is stretched.
fn fills_column(container: &Style, style: &Style) -> bool
    ensures { result ≡
        not (content_of container.now).wrap &&
        is_stretched_across true (styled container.now) (styled style.now) }
{
    !wraps(container) && is_stretched_across(true, container, style)
}

/// The inline size of a child of a column in a container of this width, before its line is known, as a border-box size: a declared
/// one; else the container's less the margins, where it does not wrap and the child is stretched; else fit to its two content
/// sizes (CSS Flexbox 1, 9.4, step 7). It is at least its borders and paddings.
pub fn column_box(container: &Style, style: &Style, width: Lu, content: (Lu, Lu)) -> Lu
    requires { IsGridStyle (grid_of style.now) }
    ensures value { result ≡
        inline_used
        (bounds_of (Some width) (content_of style.now).border_box (grid_of style.now).columns
        (content_of style.now).inline)
        (not (content_of container.now).wrap &&
        is_stretched_across true (styled container.now) (styled style.now))
        (margins (grid_of style.now).columns) width content }
    ensures least { inner (grid_of style.now).columns ≤ℤ result }
{
    let bounds = bounds_of::<0>(style, Some(width));
    let fills = fills_column(container, style);
    inline_used(&bounds, fills, margins::<0>(style), width, content)
}

/// The block size of a plain child of a row, as `block_box` tells it.
fn plain_block_box(cross: Option<Lu>, style: &Style, block: Lu) -> Lu
    requires { IsPlain (grid_of style.now).rows (content_of style.now).block }
    ensures { result ≡
        block_used
        (bounds_of cross (content_of style.now).border_box (grid_of style.now).rows
        (content_of style.now).block) false (pos 0) (pos 0) block }
{
    plain_block(false, Lu::default(), block)
}

/// The block size of a child of a row as a border-box size, whose content has this one, where percentages are of the container's cross
/// size, or of none; in few steps for a plain one.
fn block_box(cross: Option<Lu>, style: &Style, block: Lu) -> Lu
    requires { IsGridStyle (grid_of style.now) }
    ensures { result ≡
        block_used
        (bounds_of cross (content_of style.now).border_box (grid_of style.now).rows
        (content_of style.now).block) false (pos 0) (pos 0) block }
{
    if is_plain::<1>(style) {
        return plain_block_box(cross, style, block);
    }
    let bounds = bounds_of::<1>(style, cross);
    block_used(&bounds, false, Lu::default(), Lu::default(), block)
}

/// The hypothetical cross size of a child as a border-box size (CSS Flexbox 1, 9.4, step 7): in a row its block size, whose content
/// is given, where percentages are of the container's cross size, or of none; in a column its inline size, which is given.
pub fn cross_box(column: bool, cross: Option<Lu>, style: &Style, inline: Lu, block: Lu) -> Lu
    requires { IsGridStyle (grid_of style.now) }
    ensures { result ≡
        if column then inline else block_used
        (bounds_of cross (content_of style.now).border_box (grid_of style.now).rows
        (content_of style.now).block) false (pos 0) (pos 0) block }
{
    if column {
        inline
    } else {
        block_box(cross, style, block)
    }
}

/// The margins across the main axis.
fn cross_margins(column: bool, style: &Style) -> Lu
    requires { IsGridStyle (grid_of style.now) }
    ensures { result ≡ margins (cross_grid column (styled style.now)) }
{
    if column {
        margins::<0>(style)
    } else {
        margins::<1>(style)
    }
}

/// A hypothetical cross size with its margins, limited to the range of lengths.
pub fn outer_cross(column: bool, style: &Style, cross_box: Lu) -> Lu
    requires { IsGridStyle (grid_of style.now) }
    ensures { result ≡ clamp (cross_box +ℤ margins (cross_grid column (styled style.now))) }
{
    (cross_box.wide() + cross_margins(column, style).wide()).clamp()
}
