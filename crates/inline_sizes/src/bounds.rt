//! The declared sizes of a node along one axis (CSS Sizing 3, sections 3 and 5).

ghost use Rattle.std.specs.Prelude.{◌≡◌, ◌||◌, ◌-ℤ◌, ◌≤ℤ◌, pos, is_some, option_map, unwrap_or, IfSome};
ghost use Rattle.std.specs.Int.{int_max};
ghost use Rattle.lunit.specs.Units.{IsUnits};
ghost use Rattle.part_rules.specs.Lists.{at_most};
ghost use Rattle.tree_rules.specs.NodeSizes.{border_size, fitted, resolved};
ghost use Rattle.inline_sizes.specs.Bounded.{IsBorderSize, IsBound};
ghost use Rattle.inline_sizes.specs.Plains.{no_bounds};
ghost use Rattle.inline_sizes.specs.Sums.{IsSum};

use crate::numbers::exact;
use lunit::{Lu, Wide};
use std::marker::Model;
use style_types::Size;

/// The declared sizes of a node along one axis as border-box sizes, and the sum of its borders and paddings. Contracts see the
/// sizes of the definitions.
#[derive(Clone, Copy)]
pub struct Bounds {
    inner: Lu,
    size: Option<Wide>,
    least: Option<Wide>,
    most: Option<Wide>,
}

impl Model for Bounds {
    ghost use Rattle.tree_rules.specs.NodeSizes as rules;

    ghost Value = { rules.Bounds };

    ghost use Rattle.inline_sizes.specs.Bounded.{AreBounds, bounds_in, inside_of};

    ghost view = { bounds_in };

    ghost invariant = { AreBounds };

    ghost inverse = { inside_of };
}

/// A declared length, or a percentage of a size where there is one; `None` for a keyword and for a percentage of nothing.
pub fn resolved(base: &Option<Lu>, size: &Size) -> Option<Lu>
    ensures { result ≡ resolved base.now size.now }
{
    match size {
        Size::Length(length) => Some(*length),
        Size::Percent(thousandths) => match base {
            Some(base) => Some(base.percent_of(*thousandths)),
            None => None,
        },
        _ => None,
    }
}

#[tactic(auto, using(crate::proofs::Limits::border_box_size, crate::proofs::Limits::content_box_size))]
/// The border-box size of a declared size, with this sum of borders and paddings (CSS Sizing 3, section 3.3). It is exact.
pub fn border_size(border_box: bool, inner: Lu, size: Lu) -> Wide
    requires { pos 0 ≤ℤ inner }
    ensures value { result ≡ border_size border_box inner size }
    ensures range { IsBorderSize inner result }
{
    if border_box {
        size.wide().max(inner.wide())
    } else {
        size.wide() + inner.wide()
    }
}

/// The border-box size of a size, where it is a length or a percentage of something.
fn bound(border_box: bool, inner: Lu, base: &Option<Lu>, size: &Size) -> Option<Wide>
    requires { pos 0 ≤ℤ inner }
    ensures value { result ≡
        option_map (border_size border_box inner) (resolved base.now size.now) }
    ensures range { IsBound inner result }
{
    match resolved(base, size) {
        Some(length) => Some(border_size(border_box, inner, length)),
        None => None,
    }
}

#[tactic(auto, using(crate::proofs::Limits::min_sum))]
/// The number, but at most a limit.
pub(crate) fn at_most(limit: Option<Wide>, number: Wide) -> Wide
    requires limit { IfSome limit IsSum }
    requires number { IsSum number }
    ensures value { result ≡ at_most limit number }
    ensures range { IsSum result }
{
    match limit {
        Some(limit) => limit.min(number),
        None => number,
    }
}

/// The number, or another one where there is none.
pub(crate) fn or(number: Option<Wide>, other: Wide) -> Wide
    requires number { IfSome number IsSum }
    requires other { IsSum other }
    ensures value { result ≡ unwrap_or number other }
    ensures range { IsSum result }
{
    match number {
        Some(number) => number,
        None => other,
    }
}

#[tactic(auto, using(crate::proofs::Limits::max_sum))]
/// A size limited by a maximum, and then by a minimum or 0.
fn limited(least: Option<Wide>, most: Option<Wide>, size: Wide) -> Wide
    requires least { IfSome least IsSum }
    requires most { IfSome most IsSum }
    requires size { IsSum size }
    ensures value { result ≡ int_max (unwrap_or least (pos 0)) (at_most most size) }
    ensures range { IsSum result }
{
    or(least, Wide::of(0)).max(at_most(most, size))
}

#[tactic(auto, using(crate::proofs::Limits::max_sum, crate::proofs::Limits::units_sum, crate::proofs::Limits::first_least))]
/// The size, but at least borders and paddings.
fn at_least(inner: Lu, size: Wide) -> Wide
    requires { IsSum size }
    ensures value { result ≡ int_max inner size }
    ensures range { IsSum result }
    ensures least { inner ≤ℤ result }
    ensures length { IsUnits inner }
{
    inner.wide().max(size)
}

/// The content size of a border-box size.
fn content(inner: Lu, size: Option<Wide>) -> Option<Lu>
    requires { IsBound inner size }
    ensures { result ≡ option_map (λ v. v -ℤ inner) size }
{
    match size {
        Some(size) => Some(exact(size - inner.wide())),
        None => None,
    }
}

impl Bounds {
    #[inline(always)]
    /// The border-box sizes of a declared size, minimum and maximum, where percentages are of this size, or of none.
    pub fn of(
        border_box: bool,
        inner: Lu,
        base: Option<Lu>,
        size: &Size,
        least: &Size,
        most: &Size,
    ) -> Bounds
        requires { pos 0 ≤ℤ inner }
        ensures { result ≡
            record {
              inner = inner;
              size = option_map (border_size border_box inner)
                  (resolved base size.now);
              least = option_map (border_size border_box inner)
                  (resolved base least.now);
              most = option_map (border_size border_box inner)
                  (resolved base most.now);
            } }
    {
        Bounds {
            inner,
            size: bound(border_box, inner, &base, size),
            least: bound(border_box, inner, &base, least),
            most: bound(border_box, inner, &base, most),
        }
    }

    /// No declared sizes, and no borders and paddings.
    pub(crate) fn none() -> Bounds
        ensures { result ≡ no_bounds }
    {
        Bounds {
            inner: Lu::default(),
            size: None,
            least: None,
            most: None,
        }
    }

    /// The sum of borders and paddings.
    pub fn inner(&self) -> Lu
        ensures value { result ≡ self.now.inner }
        ensures some { pos 0 ≤ℤ result }
    {
        self.inner
    }

    #[tactic(auto, using(crate::proofs::Limits::bound_sum))]
    /// The declared size; `None` where there is none.
    pub fn size(&self) -> Option<Wide>
        ensures value { result ≡ self.now.size }
        ensures range { IfSome result IsSum }
    {
        self.size
    }

    #[tactic(auto, using(crate::proofs::Limits::bound_sum))]
    /// The declared minimum; `None` where there is none.
    pub fn least(&self) -> Option<Wide>
        ensures value { result ≡ self.now.least }
        ensures range { IfSome result IsSum }
    {
        self.least
    }

    #[tactic(auto, using(crate::proofs::Limits::bound_sum))]
    /// The declared maximum; `None` where there is none.
    pub fn most(&self) -> Option<Wide>
        ensures value { result ≡ self.now.most }
        ensures range { IfSome result IsSum }
    {
        self.most
    }

    /// The declared minimum as a content size; `None` where there is none.
    pub fn content_least(&self) -> Option<Lu>
        ensures { result ≡ option_map (λ v. v -ℤ self.now.inner) self.now.least }
    {
        content(self.inner, self.least)
    }

    /// The declared maximum as a content size; `None` where there is none.
    pub fn content_most(&self) -> Option<Lu>
        ensures { result ≡ option_map (λ v. v -ℤ self.now.inner) self.now.most }
    {
        content(self.inner, self.most)
    }

    /// Whether there is a minimum or a maximum.
    fn is_limited(&self) -> bool
        ensures { result ≡ (is_some self.now.least || is_some self.now.most) }
    {
        self.least.is_some() || self.most.is_some()
    }

    #[tactic(auto, using(crate::proofs::Limits::free_fitted))]
    /// A border-box size limited by the maximum, then by the minimum, and by borders and paddings (CSS Sizing 3, section 5.2).
    pub fn fitted(&self, size: Wide) -> Wide
        requires { IsSum size }
        ensures value { result ≡ fitted self.now size }
        ensures range { IsSum result }
        ensures least { self.now.inner ≤ℤ result }
        ensures length { IsUnits self.now.inner }
    {
        if self.is_limited() {
            return at_least(self.inner, limited(self.least(), self.most(), size));
        }
        at_least(self.inner, size)
    }
}
