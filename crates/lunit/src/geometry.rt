ghost use Rattle.std.specs.Prelude.{◌≡◌};
ghost use Rattle.lunit.specs.Areas.{spans_overlap, areas_overlap};

use crate::{Along, BLOCK, INLINE};

/// From one grid line up to a later one. Line 0 is the first line of the explicit grid (CSS Grid 2, 5).
#[derive(Clone, Copy, Debug, PartialEq, Eq)]
pub struct Span {
    pub start: i32,
    pub end: i32,
}

/// A grid area: the cells in a span of columns and a span of rows (CSS Grid 2, 3.3).
#[derive(Clone, Copy, Debug, PartialEq, Eq)]
pub struct Area {
    pub columns: Span,
    pub rows: Span,
}

/// A rectangle, in units.
#[derive(Clone, Copy, Debug, PartialEq, Eq)]
pub struct Rect {
    pub x: Along<INLINE>,
    pub y: Along<BLOCK>,
    pub width: Along<INLINE>,
    pub height: Along<BLOCK>,
}

/// A place along one axis: a definite span of lines, or a free place for so many tracks (CSS Grid 2, 8.3).
#[derive(Clone, Copy, Debug, PartialEq, Eq)]
pub enum Spot {
    At(Span),
    Free(u32),
}

impl Span {
    /// Whether some track lies in both spans.
    pub fn overlaps(self, other: Span) -> bool
        ensures { result ≡ spans_overlap self other }
    {
        self.start.max(other.start) < self.end.min(other.end)
    }
}

impl Area {
    /// Whether some cell lies in both areas (CSS Grid 2, 8.5).
    pub fn overlaps(self, other: Area) -> bool
        ensures { result ≡ areas_overlap self other }
    {
        self.columns.overlaps(other.columns) && self.rows.overlaps(other.rows)
    }
}
