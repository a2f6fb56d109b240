//! The sizes that are used, as border-box sizes (CSS Grid 2, 6.2; CSS Sizing 3, section 5), and how a node is aligned in its
//! container (CSS Box Alignment 3, section 6).

ghost use Rattle.std.specs.Prelude.{◌≡◌, ◌-ℤ◌, ◌≤ℤ◌, pos, unwrap_or};
ghost use Rattle.tree_rules.specs.NodeSizes.{block_used, content_of_box, fit_to, fitted, inline_used, is_auto, is_auto_mode, self_align, stretches};
ghost use Rattle.lunit.specs.Units.{clamp};
ghost use Rattle.inline_sizes.specs.Sums.{IsSum};

use crate::bounds::{Bounds, or};
use crate::contributions::with_inner;
use lunit::{Lu, Wide};
use style_types::{Align, AlignMode, Size};

/// Whether a size is `auto`.
pub(crate) fn is_auto(size: &Size) -> bool
    ensures { result ≡ is_auto size.now }
{
    match size {
        Size::Auto => true,
        _ => false,
    }
}

/// Whether an alignment is `auto`.
fn is_auto_mode(mode: &AlignMode) -> bool
    ensures { result ≡ is_auto_mode mode.now }
{
    match mode {
        AlignMode::Auto => true,
        _ => false,
    }
}

/// Whether an alignment is `normal` or `stretch`.
pub fn stretches(mode: &AlignMode) -> bool
    ensures { result ≡ stretches mode.now }
{
    match mode {
        AlignMode::Normal | AlignMode::Stretch => true,
        _ => false,
    }
}

/// The self value of a node: `auto` takes the container's value for its items (CSS Box Alignment 3, section 6.1).
pub fn self_align(own: Align, items: Align) -> Align
    ensures { result ≡ self_align own items }
{
    if is_auto_mode(&own.mode) { items } else { own }
}

#[tactic(auto, using(crate::proofs::Limits::difference_sum))]
/// What a room leaves beside margins.
fn stretch(margins: Lu, room: Lu) -> Wide
    ensures value { result ≡ room -ℤ margins }
    ensures range { IsSum result }
{
    room.wide() - margins.wide()
}

#[tactic(auto, using(crate::proofs::Limits::min_sum, crate::proofs::Limits::max_sum))]
/// The size of a node that is fit to a room by its two content sizes (CSS Sizing 3, section 2.1).
fn fit_to(bounds: &Bounds, margins: Lu, room: Lu, content: (Lu, Lu)) -> Wide
    ensures value { result ≡ fit_to bounds.now margins room content }
    ensures range { IsSum result }
{
    let least = with_inner(bounds, content.0).max(stretch(margins, room));
    least.min(with_inner(bounds, content.1))
}

#[tactic(auto, using(crate::proofs::Limits::least_clamped))]
/// The declared size of a node, or another one where there is none, within its limits and those of lengths.
fn used(bounds: &Bounds, automatic: Wide) -> Lu
    requires { IsSum automatic }
    ensures value { result ≡ clamp (fitted bounds.now (unwrap_or bounds.now.size automatic)) }
    ensures least { bounds.now.inner ≤ℤ result }
{
    bounds.fitted(or(bounds.size(), automatic)).clamp()
}

/// The inline size of a node in a room of this size, as a border-box size: its declared size; else, where it is stretched, the
/// room less its margins; else fit to its two content sizes; within its limits (CSS Grid 2, 6.2). It is at least its borders and
/// paddings.
pub fn inline_used(bounds: &Bounds, stretched: bool, margins: Lu, room: Lu, content: (Lu, Lu)) -> Lu
    ensures value { result ≡ inline_used bounds.now stretched margins room content }
    ensures least { bounds.now.inner ≤ℤ result }
{
    let automatic = if stretched {
        stretch(margins, room)
    } else {
        fit_to(bounds, margins, room, content)
    };
    used(bounds, automatic)
}

/// The block size of a node in a room of this size, as a border-box size: its declared size; else, where it is stretched, the
/// room less its margins; else that of its content; within its limits (CSS Grid 2, 6.2). It is at least its borders and paddings.
pub fn block_used(bounds: &Bounds, stretched: bool, margins: Lu, room: Lu, content: Lu) -> Lu
    ensures value { result ≡ block_used bounds.now stretched margins room content }
    ensures least { bounds.now.inner ≤ℤ result }
{
    let automatic = if stretched {
        stretch(margins, room)
    } else {
        with_inner(bounds, content)
    };
    used(bounds, automatic)
}

#[tactic(auto, using(crate::proofs::Limits::content_some))]
/// The content size of a border-box size with these borders and paddings, limited to the range of lengths. It is at least 0 where
/// the border box is at least as great as these.
pub fn content_of_box(inner: Lu, size: Lu) -> Lu
    ensures value { result ≡ content_of_box inner size }
    ensures some { inner ≤ℤ size → pos 0 ≤ℤ result }
{
    (size.wide() - inner.wide()).clamp()
}
