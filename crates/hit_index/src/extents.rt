//! Rectangles around runs of boxes, by which a look-up passes by most of a long strip.

ghost use Rattle.std.specs.Prelude.{◌≡◌, ◌<◌, ◌≤◌, ◌*◌, ℤ, [], false, true, None, get_or, filter, take, drop, length, IfOk};
ghost use Rattle.std.specs.List.{All, last_or};
ghost use Rattle.hit_index.specs.Hits.{contains, hits, IsSmallRect};
ghost use Rattle.hit_index.specs.Extents.{is_between, lies_inside, AreAround, AreRuns, CountsRuns, IsAround};

use crate::boxes::Boxes;
use lunit::{Along, BLOCK, INLINE, NoMemory, Rect, Sequence};
use std::alloc::Global;

/// How many numbers of a strip lie in one run.
const RUN: usize = 64;

/// The edges of a rectangle around boxes, in units.
#[derive(Clone, Copy, Debug)]
pub(crate) struct Extent {
    left: i64,
    top: i64,
    right: i64,
    bottom: i64,
}

/// Whether a place lies at the first edge or after it, and before the last.
fn is_between(first: i64, last: i64, place: i64) -> bool
    ensures { result ≡ is_between first last place }
{
    first <= place && place < last
}

impl Extent {
    /// The edges around no box.
    fn around_none() -> Extent
        ensures { (x y : ℤ) → lies_inside result x y ≡ false }
    {
        Extent {
            left: i64::MAX,
            top: i64::MAX,
            right: i64::MIN,
            bottom: i64::MIN,
        }
    }

    /// The edges around a box too.
    fn with(self, rect: Rect) -> Extent
        requires { IsSmallRect rect }
        ensures wider { (x y : ℤ) → lies_inside self x y ≡ true → lies_inside result x y ≡ true }
        ensures around { (x y : ℤ) → contains x y rect ≡ true → lies_inside result x y ≡ true }
    {
        Extent {
            left: self.left.min(rect.x.units()),
            top: self.top.min(rect.y.units()),
            right: self.right.max((rect.x + rect.width).units()),
            bottom: self.bottom.max((rect.y + rect.height).units()),
        }
    }

    /// Whether a point lies between the edges.
    fn lies_inside(self, x: Along<INLINE>, y: Along<BLOCK>) -> bool
        ensures { result ≡ lies_inside self x y }
    {
        is_between(self.left, self.right, x.units()) && is_between(self.top, self.bottom, y.units())
    }
}

#[tactic(auto, using(crate::proofs::Runs::around))]
/// The edges around the boxes with these numbers.
fn extent_of(rects: &[Rect], numbers: &[u32]) -> Extent
    requires small { All IsSmallRect rects.now }
    requires within { All (λ number. number < length rects.now) numbers.now }
    ensures { IsAround rects.now numbers.now result }
{
    let mut extent = Extent::around_none();
    for number in numbers {
        extent = extent.with(rects[*number as usize]);
    }
    extent
}

#[tactic(auto, using(crate::proofs::Runs::run_is))]
/// The numbers of a run.
fn run_of(numbers: &[u32], run: usize) -> &[u32]
    requires { run * 64 ≤ length numbers.now }
    ensures { result.now ≡ take 64 (drop (run * 64) numbers.now) }
{
    let start = run * RUN;
    &numbers[start..numbers.len().min(start + RUN)]
}

#[tactic(auto, using(crate::proofs::Runs::runs))]
/// The edges around the boxes of each run of the numbers of a strip.
pub(crate) fn extents_of(
    alloc: Global,
    rects: &[Rect],
    numbers: &[u32],
) -> Result<Sequence<Extent>, NoMemory>
    requires small { All IsSmallRect rects.now }
    requires within { All (λ number. number < length rects.now) numbers.now }
    ensures count { IfOk result (CountsRuns numbers.now) }
    ensures around { IfOk result (AreAround rects.now numbers.now) }
{
    let runs = numbers.len().div_ceil(RUN);
    let mut extents = Vec::with_capacity(alloc, runs)?;
    for run in 0..runs {
        extents.push(extent_of(rects, run_of(numbers, run)))?;
    }
    Ok(Sequence::from_vec(extents))
}

#[tactic(auto, using(crate::proofs::Runs::all_runs))]
/// The edges around the boxes of each run of each strip.
pub(crate) fn all_extents(
    alloc: Global,
    rects: &[Rect],
    strips: &[Sequence<u32>],
) -> Result<Sequence<Sequence<Extent>>, NoMemory>
    requires small { All IsSmallRect rects.now }
    requires within { All (All (λ number. number < length rects.now)) strips.now }
    ensures { IfOk result (AreRuns rects.now strips.now (length strips.now)) }
{
    let mut extents = Sequence::new(alloc);
    for numbers in strips {
        extents.push(extents_of(alloc, rects, numbers.as_slice())?)?;
    }
    Ok(extents)
}

#[tactic(auto, using(crate::proofs::Lasts::run_by_run))]
/// The last of the numbers of a strip whose box contains a point. Looks at the boxes of a run only where the point lies
/// between the edges around them.
fn last_hit(
    boxes: &Boxes,
    numbers: &[u32],
    extents: &[Extent],
    x: Along<INLINE>,
    y: Along<BLOCK>,
) -> Option<u32>
    requires within { All (λ number. number < length boxes.now) numbers.now }
    requires count { CountsRuns numbers.now extents.now }
    requires around { AreAround boxes.now numbers.now extents.now }
    ensures { result ≡ last_or None (filter (hits boxes.now x y) numbers.now) }
{
    let mut run = extents.len();
    while run > 0 {
        run -= 1;
        if extents[run].lies_inside(x, y) {
            if let Some(number) = boxes.last_hit(run_of(numbers, run), x, y) {
                return Some(number);
            }
        }
    }
    None
}

/// The last of the numbers of one of the strips whose box contains a point.
pub(crate) fn last_in_strip(
    boxes: &Boxes,
    strips: &[Sequence<u32>],
    extents: &[Sequence<Extent>],
    strip: usize,
    x: Along<INLINE>,
    y: Along<BLOCK>,
) -> Option<u32>
    requires within { All (All (λ number. number < length boxes.now)) strips.now }
    requires runs { AreRuns boxes.now strips.now (length strips.now) extents.now }
    requires strip { strip < length strips.now }
    ensures { result ≡ last_or None (filter (hits boxes.now x y) (get_or strips.now strip [])) }
{
    let numbers = strips[strip].as_slice();
    last_hit(boxes, numbers, extents[strip].as_slice(), x, y)
}
