//! The tracks that a step names (CSS Grid 2, 12.5, step 3).

ghost use Rattle.std.specs.Prelude.{◌≡◌};
ghost use Rattle.std.specs.List.{list_any};
ghost use Rattle.part_rules.specs.Tracks.{counts_as_max_content, fit_argument, flexible, is_auto_least, is_flexible, is_min_content_most};
ghost use Rattle.track_sizing.specs.Kinds.{affected_of, kind_of};

use crate::row::Row;
use lunit::Lu;
use part_rules::{Least, Most};

/// Tracks with such a min or max function.
#[derive(Clone, Copy)]
pub enum Kind {
    /// An intrinsic min function: one that is not fixed.
    IntrinsicLeast,
    /// The min function `min-content` or `max-content`.
    ContentLeast,
    /// The min function `auto` or `max-content`.
    AutoOrMaxContentLeast,
    /// The min function `max-content`.
    MaxContentLeast,
    /// An intrinsic max function.
    IntrinsicMost,
    /// A max function that counts as `max-content`.
    MaxContentMost,
}

/// The tracks that a step affects: of this kind and, where the items cross flexible tracks, flexible.
#[derive(Clone, Copy)]
pub struct Affected {
    pub kind: Kind,
    pub crossing: bool,
}

/// Whether the min function is `auto`.
pub fn is_auto_least(least: &Least) -> bool
    ensures { result ≡ is_auto_least least.now }
{
    match least {
        Least::Auto => true,
        _ => false,
    }
}

/// Whether the max function is flexible.
pub fn is_flexible(most: &Most) -> bool
    ensures { result ≡ is_flexible most.now }
{
    match most {
        Most::Flex(_) => true,
        _ => false,
    }
}

/// The argument of `fit-content`.
pub fn fit_argument(most: &Most) -> Option<Lu>
    ensures { result ≡ fit_argument most.now }
{
    match most {
        Most::Fit(argument) => Some(*argument),
        _ => None,
    }
}

/// Whether the max function counts as `max-content`: `auto` and `fit-content` do.
pub fn counts_as_max_content(most: &Most) -> bool
    ensures { result ≡ counts_as_max_content most.now }
{
    match most {
        Most::Auto | Most::MaxContent | Most::Fit(_) => true,
        _ => false,
    }
}

/// Whether the max function is `min-content`.
pub fn is_min_content_most(most: &Most) -> bool
    ensures { result ≡ is_min_content_most most.now }
{
    match most {
        Most::MinContent => true,
        _ => false,
    }
}

/// Whether a track is flexible.
pub fn flexible(row: &Row) -> bool
    ensures { result ≡ flexible row.now }
{
    is_flexible(&row.rule().most)
}

/// Whether a track is of this kind.
pub fn is_of(kind: &Kind, row: &Row) -> bool
    ensures { result ≡ kind_of kind.now row.now }
{
    let rule = row.rule();
    match kind {
        Kind::IntrinsicLeast => match rule.least {
            Least::Fixed(_) => false,
            _ => true,
        },
        Kind::ContentLeast => match rule.least {
            Least::MinContent | Least::MaxContent => true,
            _ => false,
        },
        Kind::AutoOrMaxContentLeast => match rule.least {
            Least::Auto | Least::MaxContent => true,
            _ => false,
        },
        Kind::MaxContentLeast => match rule.least {
            Least::MaxContent => true,
            _ => false,
        },
        Kind::IntrinsicMost => {
            is_min_content_most(&rule.most) || counts_as_max_content(&rule.most)
        }
        Kind::MaxContentMost => counts_as_max_content(&rule.most),
    }
}

/// Whether a step affects a track.
pub fn affects(affected: &Affected, row: &Row) -> bool
    ensures { result ≡ affected_of affected.now row.now }
{
    is_of(&affected.kind, row) && (flexible(row) || !affected.crossing)
}

/// Whether the step affects some track.
pub fn some_affected(affected: &Affected, rows: &[Row]) -> bool
    ensures { result ≡ list_any (affected_of affected.now) rows.now }
{
    for row in rows {
        if affects(affected, row) {
            return true;
        }
    }
    false
}
