//! A track while it is sized (CSS Grid 2, 12.3).

ghost use Rattle.std.specs.Prelude.{◌≡◌, ◌≤ℤ◌, ◌+ℤ◌, pos, true, Some};
ghost use Rattle.std.specs.Int.{int_max};
ghost use Rattle.lunit.specs.Units.{IsLong, IsUnits, clamp};
ghost use Rattle.part_rules.specs.Tracks.{close_limit, fixed_least, fixed_most, full, grow_base, incur, initial, limit_of, plan, raise_limit, raised_base, raised_limit};
ghost use Rattle.track_sizing.specs.Calm.{IsSure};
ghost use Rattle.track_sizing.specs.Even.{lifted};
ghost use Rattle.track_sizing.specs.Reached.{Stays};
ghost use Rattle.track_sizing.specs.Rows.{IsLimit};

use crate::numbers::{is_nothing, longer, stays_with};
use lunit::{Lu, Wide};
use part_rules::{Least, Most, Rule};
use std::marker::Model;

/// A track while it is sized. No length in it is below 0.
#[derive(Clone, Copy)]
pub struct Row {
    /// The coordinate of its first line, by which contracts tell which items span the track.
    at: i64,
    /// Its min and its max track sizing function.
    rule: Rule,
    /// The base size.
    base: Lu,
    /// The growth limit; `None` is without end, infinite in the words of CSS.
    limit: Option<Lu>,
    /// Whether the growth limit is infinitely growable (CSS Grid 2, 12.5, step 3).
    endless: bool,
    /// The item-incurred increase: what the item at hand has given it (CSS Grid 2, 12.5.1).
    incurred: Lu,
    /// The planned increase: the greatest that one of the items gave it (CSS Grid 2, 12.5.1).
    planned: Lu,
}

impl Model for Row {
    ghost use Rattle.part_rules.specs.Tracks.{Track};

    ghost Value = { Track };

    ghost use Rattle.track_sizing.specs.Rows.{track_of, row_of, IsRow};

    ghost view = { track_of };

    ghost invariant = { IsRow };

    ghost inverse = { row_of };
}

/// The min track sizing function, where it is fixed.
pub fn fixed_least(least: &Least) -> Option<Lu>
    ensures { result ≡ fixed_least least.now }
{
    match least {
        Least::Fixed(size) => Some(*size),
        _ => None,
    }
}

/// The max track sizing function, where it is fixed.
pub fn fixed_most(most: &Most) -> Option<Lu>
    ensures { result ≡ fixed_most most.now }
{
    match most {
        Most::Fixed(size) => Some(*size),
        _ => None,
    }
}

impl Row {
    #[tactic(auto, unfolding(lunit::specs::Units::clamp))]
    /// A track before it is sized (CSS Grid 2, 12.4).
    pub fn initial(at: Wide, rule: &Rule) -> Row
        requires at { IsLong at }
        requires fixed { IsLimit (fixed_least rule.now.least) }
        ensures { result ≡ initial at rule.now }
    {
        let base = match fixed_least(&rule.least) {
            Some(size) => size,
            None => Lu::of(0),
        };
        let limit = match fixed_most(&rule.most) {
            Some(size) => Some(longer(base, size)),
            None => None,
        };
        Row {
            at: at.units(),
            rule: *rule,
            base,
            limit,
            endless: false,
            incurred: Lu::of(0),
            planned: Lu::of(0),
        }
    }

    /// How the track is sized.
    pub fn rule(&self) -> Rule
        ensures { result ≡ self.now.rule }
    {
        self.rule
    }

    /// The base size.
    pub fn base(&self) -> Lu
        ensures value { result ≡ self.now.base }
        ensures some { pos 0 ≤ℤ result }
    {
        self.base
    }

    /// The growth limit; `None` is without end.
    pub fn limit(&self) -> Option<Lu>
        ensures value { result ≡ self.now.limit }
        ensures some { IsLimit result }
    {
        self.limit
    }

    /// The growth limit, where one without end counts as the base size.
    pub fn limit_or_base(&self) -> Lu
        ensures value { result ≡ limit_of self.now }
        ensures some { pos 0 ≤ℤ result }
    {
        match self.limit {
            Some(limit) => limit,
            None => self.base,
        }
    }

    /// Whether the track is infinitely growable (CSS Grid 2, 12.5, step 3).
    pub fn endless(&self) -> bool
        ensures { result ≡ self.now.endless }
    {
        self.endless
    }

    /// What the item at hand has given it.
    pub fn incurred(&self) -> Lu
        ensures value { result ≡ self.now.incurred }
        ensures some { pos 0 ≤ℤ result }
    {
        self.incurred
    }

    /// Gives the track another base size and growth limit, in place.
    pub fn fit(&mut self, base: Lu, limit: Option<Lu>)
        requires base { pos 0 ≤ℤ base }
        requires limit { IsLimit limit }
        ensures { self.new ≡ record self.old { base = base; limit = limit } }
    {
        self.base = base;
        self.limit = limit;
    }

    /// The track with another base size.
    pub fn with_base(&self, base: Lu) -> Row
        requires { pos 0 ≤ℤ base }
        ensures { result ≡ record self.now { base = base } }
    {
        Row { base, ..*self }
    }

    /// The track, infinitely growable or not.
    pub fn with_endless(&self, endless: bool) -> Row
        ensures { result ≡ record self.now { endless = endless } }
    {
        Row { endless, ..*self }
    }

    /// Marks the track, in place: it is infinitely growable or not.
    pub fn mark(&mut self, endless: bool)
        ensures { self.new ≡ record self.old { endless = endless } }
    {
        self.endless = endless;
    }

    #[tactic(auto, unfolding(lunit::specs::Units::clamp))]
    /// The track with this share more from the item at hand.
    pub fn incur(&self, share: Lu) -> Row
        requires some { pos 0 ≤ℤ share }
        requires fits { IsUnits (self.now.incurred +ℤ share) }
        ensures { result ≡ incur self.now share }
    {
        Row {
            incurred: (self.incurred.wide() + share.wide()).clamp(),
            ..*self
        }
    }

    #[tactic(auto, unfolding(lunit::specs::Units::clamp))]
    /// The track with its planned increase: the greatest that one of the items gave (CSS Grid 2, 12.5.1).
    pub fn plan(&self) -> Row
        ensures { result ≡ plan self.now }
    {
        Row {
            planned: longer(self.planned, self.incurred),
            incurred: Lu::of(0),
            ..*self
        }
    }

    #[tactic(auto, unfolding(lunit::specs::Units::clamp))]
    /// The track with its base size raised by its planned increase.
    pub fn raised_base(&self) -> Row
        ensures { result ≡ raised_base self.now }
    {
        Row {
            base: (self.base.wide() + self.planned.wide()).clamp(),
            planned: Lu::of(0),
            ..*self
        }
    }

    #[tactic(auto, unfolding(lunit::specs::Units::clamp))]
    /// Raises the growth limit by its planned increase, in place; one without end becomes the base size and the increase.
    pub fn raise_planned(&mut self)
        ensures { self.new ≡ raised_limit self.old }
    {
        let limit = (self.limit_or_base().wide() + self.planned.wide()).clamp();
        self.limit = Some(limit);
        self.planned = Lu::of(0);
    }

    #[tactic(auto, unfolding(lunit::specs::Units::clamp))]
    /// Makes the base size greater by a share, in place.
    pub fn add_base(&mut self, share: Lu)
        requires { pos 0 ≤ℤ share }
        ensures { self.new ≡ grow_base self.old share }
    {
        self.base = (self.base.wide() + share.wide()).clamp();
    }

    #[tactic(auto, unfolding(lunit::specs::Units::clamp))]
    /// Makes the growth limit greater by a share, in place; one without end counts as the base size.
    pub fn lift(&mut self, share: Lu)
        requires { pos 0 ≤ℤ share }
        ensures { self.new ≡ lifted self.old share }
    {
        let limit = (self.limit_or_base().wide() + share.wide()).clamp();
        self.limit = Some(limit);
        self.planned = Lu::of(0);
    }

    /// Whether the track surely stays as it is where its growth limit is raised.
    pub fn is_raised(&self) -> bool
        ensures { result ≡ true → raised_limit self.now ≡ self.now }
    {
        if !is_nothing(self.planned) {
            return false;
        }
        match self.limit {
            Some(limit) => stays_with(limit, self.planned),
            None => false,
        }
    }

    /// Whether the track surely stays as it is where its growth limit is raised and marked.
    pub fn stays(&self) -> bool
        ensures { result ≡ true → Stays self.now }
    {
        if self.endless {
            return false;
        }
        if !is_nothing(self.planned) {
            return false;
        }
        match self.limit {
            Some(limit) => stays_with(limit, self.planned),
            None => false,
        }
    }

    /// Whether the track surely stays as it is in a step that gives it nothing.
    pub fn is_sure(&self) -> bool
        ensures { result ≡ true → IsSure self.now }
    {
        if self.endless {
            return false;
        }
        if !is_nothing(self.planned) {
            return false;
        }
        match self.limit {
            Some(limit) => self.base.units() <= limit.units(),
            None => false,
        }
    }

    /// Whether no increase is planned.
    pub fn is_unplanned(&self) -> bool
        ensures { result ≡ true → self.now.planned ≡ pos 0 }
    {
        is_nothing(self.planned)
    }

    /// The track with a growth limit of at least its base size.
    pub fn raise_limit(&self) -> Row
        ensures { result ≡ raise_limit self.now }
    {
        let limit = match self.limit {
            Some(limit) => Some(longer(self.base, limit)),
            None => None,
        };
        Row { limit, ..*self }
    }

    /// The track with its base size as its growth limit, where that has no end (CSS Grid 2, 12.5, step 5).
    pub fn close_limit(&self) -> Row
        ensures { result ≡ close_limit self.now }
    {
        Row {
            limit: Some(self.limit_or_base()),
            ..*self
        }
    }

    /// The track with its growth limit as its base size.
    pub fn full(&self) -> Row
        ensures { result ≡ full self.now }
    {
        Row {
            base: self.limit_or_base(),
            ..*self
        }
    }

    #[tactic(auto, unfolding(lunit::specs::Units::clamp))]
    /// The track with a base size that is greater by a share.
    pub fn grow_base(&self, share: Lu) -> Row
        requires { pos 0 ≤ℤ share }
        ensures { result ≡ grow_base self.now share }
    {
        Row {
            base: (self.base.wide() + share.wide()).clamp(),
            ..*self
        }
    }
}
