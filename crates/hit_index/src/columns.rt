//! Which columns of the page a box reaches.

ghost use Rattle.std.specs.Prelude.{◌≡◌, ◌<◌, ◌+ℤ◌, length, IfOk};
ghost use Rattle.std.specs.List.{All};
ghost use Rattle.hit_index.specs.Hits.{IsSmallRect};
ghost use Rattle.hit_index.specs.Columns.{column_of, reaches_column, AreRanges, IsRangeOf};

use lunit::{NoMemory, Rect};
use std::alloc::Global;

/// Up to 256 columns from the left of the page on, each 2^shift units wide.
#[derive(Clone, Copy, Debug)]
pub(crate) struct Grid {
    left: i64,
    shift: u32,
}

/// The column in which a box begins, and how many more it reaches.
#[derive(Clone, Copy, Debug)]
pub(crate) struct ColumnRange {
    first: u8,
    more: u8,
}

/// The x at which a box ends.
fn right_of(rect: &Rect) -> i64
    requires { IsSmallRect rect.now }
    ensures { result ≡ rect.now.x +ℤ rect.now.width }
{
    (rect.x + rect.width).units()
}

impl Grid {
    /// Columns as narrow as can be from the least x to the greatest x + width.
    pub(crate) fn over(rects: &[Rect]) -> Grid
        requires { All IsSmallRect rects.now }
        ensures { result.shift < 64 }
    {
        let mut left = i64::MAX;
        let mut right = i64::MIN;
        for rect in rects {
            left = left.min(rect.x.units());
            right = right.max(right_of(rect));
        }
        let bits = 64u32.saturating_sub(right.abs_diff(left).leading_zeros());
        Grid {
            left,
            shift: bits.saturating_sub(8),
        }
    }

    #[tactic(auto, unfolding(crate::specs::Columns::column_of))]
    /// The column of an x. What lies before the first column or after the last is counted to these.
    pub(crate) fn column(self, x: i64) -> u8
        requires { self.shift < 64 }
        ensures { result ≡ column_of self x }
    {
        (x.max(self.left).abs_diff(self.left) >> self.shift).min(255) as u8
    }

    #[tactic(auto, using(crate::proofs::Ranges::range_is))]
    /// The columns that a box reaches.
    fn range(self, rect: &Rect) -> ColumnRange
        requires shift { self.shift < 64 }
        requires small { IsSmallRect rect.now }
        ensures { IsRangeOf self rect.now result }
    {
        let first = self.column(rect.x.units());
        let last = self.column(right_of(rect));
        ColumnRange {
            first,
            more: last.saturating_sub(first),
        }
    }

    #[tactic(auto, using(crate::proofs::Ranges::ranges))]
    /// The columns that each box reaches.
    pub(crate) fn ranges(self, alloc: Global, rects: &[Rect]) -> Result<Vec<ColumnRange>, NoMemory>
        requires shift { self.shift < 64 }
        requires small { All IsSmallRect rects.now }
        ensures { IfOk result (λ ranges. AreRanges self rects.now (length rects.now) ranges.items) }
    {
        let mut ranges = Vec::with_capacity(alloc, rects.len())?;
        for rect in rects {
            ranges.push(self.range(rect))?;
        }
        Ok(ranges)
    }
}

impl ColumnRange {
    #[tactic(auto, unfolding(crate::specs::Columns::reaches_column))]
    /// Whether it has a column. One comparison in place of two: it is not known beforehand which of two would fail.
    pub(crate) fn has(self, column: u8) -> bool
        ensures { result ≡ reaches_column self column }
    {
        column.wrapping_sub(self.first) <= self.more
    }
}
