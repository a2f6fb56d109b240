//! The boxes of a page, and whether they contain a point.

ghost use Rattle.std.specs.Prelude.{◌≡◌, ◌<◌, ◌^◌, ◌+ℤ◌, None, filter, length, IfOk};
ghost use Rattle.std.specs.List.{All, last_or};
ghost use Rattle.lunit.specs.Units.{IsLong};
ghost use Rattle.hit_index.specs.Hits.{contains, hits, is_within, rects_of, IsSmallBox, IsSmallRect};
ghost use Rattle.hit_index.specs.Columns.{TellColumn};

use crate::columns::{ColumnRange, Grid};
use lunit::{Along, BLOCK, INLINE, Name, NoMemory, Rect};
use std::alloc::Global;
use std::marker::Model;

/// The rectangles of boxes in order, and which columns of the page each of them reaches. Contracts see the list of rectangles.
#[derive(Drop)]
pub(crate) struct Boxes {
    rects: Vec<Rect>,
    ranges: Vec<ColumnRange>,
    grid: Grid,
}

impl Model for Boxes {
    ghost use Rattle.std.specs.Prelude.{List};
    ghost use Rattle.lunit.specs.declared.geometry.Rect.{Rect};

    ghost Value = { List Rect };

    ghost use Rattle.hit_index.specs.BoxList.{AreBoxes};

    ghost view = { λ a. a.rects.items };

    ghost invariant = { AreBoxes };
}

/// Whether a place lies at a start or after it, and before the end.
fn is_within<const AXIS: u8>(start: Along<AXIS>, length: Along<AXIS>, place: Along<AXIS>) -> bool
    requires { IsLong (start +ℤ length) }
    ensures { result ≡ is_within start.entry length.entry place.entry }
{
    start <= place && place < start + length
}

/// Whether a box contains a point: x <= X < x + width, and y <= Y < y + height (own rule).
fn contains(rect: Rect, x: Along<INLINE>, y: Along<BLOCK>) -> bool
    requires { IsSmallRect rect }
    ensures { result ≡ contains x y rect }
{
    is_within(rect.x, rect.width, x) && is_within(rect.y, rect.height, y)
}

#[tactic(auto, using(crate::proofs::Contained::hits_at))]
/// Whether the box with a number contains a point whose x lies in this column. Most boxes are passed by for their columns.
fn hits(
    rects: &[Rect],
    ranges: &[ColumnRange],
    number: u32,
    column: u8,
    x: Along<INLINE>,
    y: Along<BLOCK>,
) -> bool
    requires within { number < length rects.now }
    requires small { All IsSmallRect rects.now }
    requires ranges { length ranges.now ≡ length rects.now }
    requires column { TellColumn x y rects.now ranges.now column }
    ensures { result ≡ hits rects.now x y number }
{
    if !ranges[number as usize].has(column) {
        return false;
    }
    contains(rects[number as usize], x, y)
}

#[tactic(auto, using(crate::proofs::Lasts::one_by_one))]
/// The last of these numbers whose box contains a point, whose x lies in this column.
fn last_hit_of(
    rects: &[Rect],
    ranges: &[ColumnRange],
    numbers: &[u32],
    column: u8,
    x: Along<INLINE>,
    y: Along<BLOCK>,
) -> Option<u32>
    requires within { All (λ number. number < length rects.now) numbers.now }
    requires small { All IsSmallRect rects.now }
    requires ranges { length ranges.now ≡ length rects.now }
    requires column { TellColumn x y rects.now ranges.now column }
    ensures { result ≡ last_or None (filter (hits rects.now x y) numbers.now) }
{
    let mut end = numbers.len();
    while end > 0 {
        end -= 1;
        let number = numbers[end];
        if hits(rects, ranges, number, column, x, y) {
            return Some(number);
        }
    }
    None
}

#[tactic(auto, using(crate::proofs::Found::building))]
/// The rectangles of boxes with names.
fn rects_of(alloc: Global, boxes: &[(Name, Rect)]) -> Result<Vec<Rect>, NoMemory>
    requires few { length boxes.now < 2 ^ 32 }
    requires small { All IsSmallBox boxes.now }
    ensures value { IfOk result (λ rects. rects.items ≡ rects_of boxes.now) }
    ensures few { IfOk result (λ rects. length rects.items < 2 ^ 32) }
    ensures small { IfOk result (λ rects. All IsSmallRect rects.items) }
{
    let mut rects = Vec::with_capacity(alloc, boxes.len())?;
    for (_, rect) in boxes {
        rects.push(*rect)?;
    }
    Ok(rects)
}

impl Boxes {
    /// The rectangles of these boxes.
    pub(crate) fn new(alloc: Global, boxes: &[(Name, Rect)]) -> Result<Boxes, NoMemory>
        requires few { length boxes.now < 2 ^ 32 }
        requires small { All IsSmallBox boxes.now }
        ensures { IfOk result (λ rects. rects ≡ rects_of boxes.now) }
    {
        let rects = rects_of(alloc, boxes)?;
        let grid = Grid::over(rects.as_slice());
        let ranges = grid.ranges(alloc, rects.as_slice())?;
        Ok(Boxes {
            rects,
            ranges,
            grid,
        })
    }

    /// The rectangles in order.
    pub(crate) fn rects(&self) -> &[Rect]
        ensures value { result.now ≡ self.now }
        ensures few { length self.now < 2 ^ 32 }
        ensures small { All IsSmallRect self.now }
    {
        self.rects.as_slice()
    }

    #[tactic(auto, using(crate::proofs::Ranges::column_tells))]
    /// The last of these numbers whose box contains a point.
    pub(crate) fn last_hit(&self, numbers: &[u32], x: Along<INLINE>, y: Along<BLOCK>) -> Option<u32>
        requires { All (λ number. number < length self.now) numbers.now }
        ensures { result ≡ last_or None (filter (hits self.now x y) numbers.now) }
    {
        last_hit_of(
            self.rects.as_slice(),
            self.ranges.as_slice(),
            numbers,
            self.grid.column(x.units()),
            x,
            y,
        )
    }
}
