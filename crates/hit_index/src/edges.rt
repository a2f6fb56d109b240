//! Where the strips lie, and which of them a box reaches.

ghost use Rattle.std.specs.Prelude.{◌≡◌, ◌+◌, ◌<◌, ◌≤◌, ◌^◌, ◌+ℤ◌, ◌≤ℤ◌, ◌<ℤ◌, pos, fold, length, get_or, IfOk, unsigned_abs};
ghost use Rattle.std.specs.Int.{int_max, int_min};
ghost use Rattle.std.specs.List.{All};
ghost use Rattle.hit_index.specs.Hits.{IsSmallRect};
ghost use Rattle.hit_index.specs.Strips.{bottom_of, edge_between, reaches_strip, top_of, AreEdges};

use lunit::{NoMemory, Rect, Wide};
use std::alloc::Global;

/// How many strips there are.
pub const STRIPS: usize = 64;

/// The y at which a box ends.
pub(crate) fn end_of(rect: &Rect) -> i64
    requires { IsSmallRect rect.now }
    ensures { result ≡ rect.now.y +ℤ rect.now.height }
{
    (rect.y + rect.height).units()
}

/// The least of a number and the y of each box.
fn least_y(first: i64, rects: &[Rect]) -> i64
    ensures { result ≡ fold (λ top other. int_min top other.y) first rects.now }
{
    let mut top = first;
    for rect in rects {
        top = top.min(rect.y.units());
    }
    top
}

/// The greatest of a number and the y + height of each box.
fn greatest_end(first: i64, rects: &[Rect]) -> i64
    requires { All IsSmallRect rects.now }
    ensures { result ≡
        fold (λ bottom other. int_max bottom (other.y +ℤ other.height)) first rects.now }
{
    let mut bottom = first;
    for rect in rects {
        bottom = bottom.max(end_of(rect));
    }
    bottom
}

/// The least y; 0 where there are no boxes.
fn top_of(rects: &[Rect]) -> i64
    ensures { result ≡ top_of rects.now }
{
    match rects {
        [first, rest @ ..] => least_y(first.y.units(), rest),
        [] => 0,
    }
}

/// The greatest y + height; 0 where there are no boxes.
fn bottom_of(rects: &[Rect]) -> i64
    requires { All IsSmallRect rects.now }
    ensures { result ≡ bottom_of rects.now }
{
    match rects {
        [first, rest @ ..] => greatest_end(end_of(first), rest),
        [] => 0,
    }
}

/// The place so many sixty-fourths of the way from the top to the bottom, rounded down.
fn edge_between(top: i64, bottom: i64, strip: usize) -> i64
    requires top { unsigned_abs top ≤ 2 ^ 56 }
    requires bottom { unsigned_abs bottom ≤ 2 ^ 57 }
    requires strip { strip < 65 }
    ensures { result ≡ edge_between top bottom strip }
{
    let top = Wide::of(top as i128);
    let height = Wide::of(bottom as i128) - top;
    (top + height.times(strip as u64).floor_div(64)).units()
}

#[tactic(auto, using(crate::proofs::Bounds::edges))]
/// Where each strip begins, and after them where the last ends.
pub(crate) fn edges_of(alloc: Global, rects: &[Rect]) -> Result<Vec<i64>, NoMemory>
    requires { All IsSmallRect rects.now }
    ensures { IfOk result (λ edges. AreEdges rects.now 65 edges.items) }
{
    let top = top_of(rects);
    let bottom = bottom_of(rects);
    let mut edges = Vec::with_capacity(alloc, STRIPS + 1)?;
    for strip in 0..STRIPS + 1 {
        edges.push(edge_between(top, bottom, strip))?;
    }
    Ok(edges)
}

/// The strip in which a y lies, where it lies in one.
pub(crate) fn strip_at(edges: &[i64], y: i64) -> usize
    requires { length edges.now ≡ 65 }
    ensures within { result < 64 }
    ensures begins { 0 < result → get_or edges.now result (pos 0) ≤ℤ y }
    ensures ends { result < 63 → y <ℤ get_or edges.now (result + 1) (pos 0) }
{
    let mut low = 0;
    let mut high = STRIPS;
    while low + 1 < high {
        let middle = low + (high - low) / 2;
        if edges[middle] <= y {
            low = middle;
        } else {
            high = middle;
        }
    }
    low
}

/// Whether a box contains some point with a y of a strip.
pub(crate) fn reaches(edges: &[i64], strip: usize, rect: &Rect) -> bool
    requires edges { length edges.now ≡ 65 }
    requires within { strip < 64 }
    requires small { IsSmallRect rect.now }
    ensures { result ≡ reaches_strip edges.now rect.now strip }
{
    let first = edges[strip].max(rect.y.units());
    let end = edges[strip + 1].min(end_of(rect));
    rect.width.units() > 0 && first < end
}
