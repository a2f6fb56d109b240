//! Which tracks of an axis are covered by the areas of its items, and which collapse (CSS Grid 2, section 7.2.3.2): one pass over the areas and one over the
//! tracks.

ghost use Rattle.std.specs.Prelude.{◌≡◌, ◌<◌, ◌≤◌, ◌+◌, ◌^◌, ◌||◌, ◌&&◌, ℕ, pos, neg_ℤ, ◌+ℤ◌, ◌-ℤ◌, ◌≤ℤ◌, false, IfOk, IfSome, length, nat_lt, take, replicate, not, int_le, int_lt};
ghost use Rattle.std.specs.List.{list_any};
ghost use Rattle.part_rules.specs.Lists.{above_zero};
ghost use Rattle.part_rules.specs.Repetition.{covers};
ghost use Rattle.tree_rules.specs.TrackRules.{is_collapsed};
ghost use Rattle.placing.specs.Covered.{AreFlags, AreMarked, IsNear, is_covered, is_left, is_on, is_reached};

use lunit::{NoMemory, Sequence, Span};
use std::alloc::Global;

/// A whole number as a count: 0 where it is below 0.
fn above_zero(number: i64) -> usize
    ensures { result ≡ above_zero number }
{
    if number < 0 {
        return 0;
    }
    number as usize
}

/// The line before the first track.
pub(crate) fn first_line(tracks: &Span) -> i32
    ensures { result ≡ tracks.now.start }
{
    tracks.start
}

/// How far the last line lies from the first.
fn track_length(tracks: &Span) -> i64
    ensures { result ≡ tracks.now.end -ℤ tracks.now.start }
{
    tracks.end as i64 - tracks.start as i64
}

#[tactic(auto, using(crate::proofs::Tracks::few_tracks))]
/// How many tracks there are.
pub(crate) fn track_count(tracks: &Span) -> usize
    requires { IsNear tracks.now }
    ensures value { result ≡ above_zero (tracks.now.end -ℤ tracks.now.start) }
    ensures few { result ≤ 1073741824 }
{
    above_zero(track_length(tracks))
}

/// The line so many tracks after another.
pub(crate) fn line_after(first: i32, tracks: usize) -> i32
    requires low { neg_ℤ (pos 1073741824) ≤ℤ first }
    requires first { first ≤ℤ pos 536870912 }
    requires few { tracks ≤ 1073741824 }
    ensures { result ≡ first +ℤ pos tracks }
{
    first + tracks as i32
}

/// Marks how far the area reaches that begins at a track or before it.
fn mark(marks: &mut Sequence<usize>, start: usize, end: usize)
    ensures counted { length marks.new ≡ length marks.old }
    ensures told { (at : ℕ) → at < length marks.old →
        list_any (nat_lt at) (take (at + 1) marks.new) ≡
        (list_any (nat_lt at) (take (at + 1) marks.old) || is_on at start end) }
{
    if start < marks.len() {
        let reach = marks.as_slice()[start].max(end);
        marks.set(start, reach);
    }
}

/// A list of zeros, as long as `count` says.
fn zeros(alloc: Global, count: usize) -> Result<Sequence<usize>, NoMemory>
    ensures { IfOk result (λ zeros. zeros ≡ replicate count 0) }
{
    let mut zeros = Sequence::new(alloc);
    for at in 0..count {
        zeros.push(0)?;
    }
    Ok(zeros)
}

/// How far the start of an area lies from a line.
fn to_start(first: i32, area: &Span) -> i64
    ensures { result ≡ area.now.start -ℤ first }
{
    area.start as i64 - first as i64
}

/// How far the end of an area lies from a line.
fn to_end(first: i32, area: &Span) -> i64
    ensures { result ≡ area.now.end -ℤ first }
{
    area.end as i64 - first as i64
}

/// How many tracks the start of an area lies after a line.
fn start_after(first: i32, area: &Span) -> usize
    ensures { result ≡ above_zero (area.now.start -ℤ first) }
{
    above_zero(to_start(first, area))
}

/// How many tracks the end of an area lies after a line.
fn end_after(first: i32, area: &Span) -> usize
    ensures { result ≡ above_zero (area.now.end -ℤ first) }
{
    above_zero(to_end(first, area))
}

/// Marks how far an area reaches, told from a first track.
fn mark_area(marks: &mut Sequence<usize>, first: i32, area: &Span)
    ensures counted { length marks.new ≡ length marks.old }
    ensures told { (at : ℕ) → at < length marks.old →
        list_any (nat_lt at) (take (at + 1) marks.new) ≡
        (list_any (nat_lt at) (take (at + 1) marks.old) || covers (first +ℤ pos at) area.now) }
{
    let start = start_after(first, area);
    let end = end_after(first, area);
    mark(marks, start, end);
}

/// How far the areas reach that begin at each of so many tracks from the first on.
fn marks_of(
    alloc: Global,
    first: i32,
    count: usize,
    areas: &[Span],
) -> Result<Sequence<usize>, NoMemory>
    ensures { IfOk result (AreMarked first areas.now count) }
{
    let mut marks = zeros(alloc, count)?;
    for area in areas {
        mark_area(&mut marks, first, area);
    }
    Ok(marks)
}

/// Whether one of the marks up to each track reaches past it.
fn sweep(alloc: Global, marks: &[usize]) -> Result<Sequence<bool>, NoMemory>
    ensures { IfOk result (AreFlags (is_reached marks.now) (length marks.now)) }
{
    let mut farthest = 0;
    let mut flags = Sequence::new(alloc);
    for at in 0..marks.len() {
        farthest = farthest.max(marks[at]);
        flags.push(at < farthest)?;
    }
    Ok(flags)
}

#[tactic(auto, using(crate::proofs::Tracks::reached_covered))]
/// Whether some area covers each of so many tracks from the first on.
fn covered(
    alloc: Global,
    first: i32,
    count: usize,
    areas: &[Span],
) -> Result<Sequence<bool>, NoMemory>
    ensures { IfOk result (AreFlags (is_covered first areas.now) count) }
{
    let marks = marks_of(alloc, first, count, areas)?;
    sweep(alloc, marks.as_slice())
}

/// Whether a coordinate lies between two lines.
fn is_between(from: u64, to: u64, at: i32) -> bool
    requires from { from < 2 ^ 62 }
    requires to { to < 2 ^ 62 }
    ensures { result ≡ (int_le (pos from) at && int_lt at (pos to)) }
{
    from as i64 <= at as i64 && (at as i64) < to as i64
}

/// Whether a repeated track is left without an item.
fn is_left(repeated: bool, covered: bool) -> bool
    ensures { result ≡ (repeated && not covered) }
{
    repeated && !covered
}

/// Which of these tracks, from the first on, lie between two lines and are not covered.
fn left(
    alloc: Global,
    from: u64,
    to: u64,
    first: i32,
    covered: &[bool],
) -> Result<Sequence<bool>, NoMemory>
    requires few { length covered.now ≤ 1073741824 }
    requires low { neg_ℤ (pos 1073741824) ≤ℤ first }
    requires high { first ≤ℤ pos 536870912 }
    requires from { from < 2 ^ 62 }
    requires to { to < 2 ^ 62 }
    ensures { IfOk result (AreFlags (is_left from to first covered.now) (length covered.now)) }
{
    let mut flags = Sequence::new(alloc);
    for at in 0..covered.len() {
        let repeated = is_between(from, to, line_after(first, at));
        flags.push(is_left(repeated, covered[at]))?;
    }
    Ok(flags)
}

/// For each of so many tracks, that it does not collapse.
fn none(alloc: Global, count: usize) -> Result<Sequence<bool>, NoMemory>
    ensures { IfOk result (AreFlags (λ _. false) count) }
{
    let mut flags = Sequence::new(alloc);
    for at in 0..count {
        flags.push(false)?;
    }
    Ok(flags)
}

#[tactic(auto, using(crate::proofs::Tracks::left_collapsed))]
/// Whether each of so many tracks from the first on collapses: one that `auto-fit` repeats, and that no area covers.
pub(crate) fn collapsed(
    alloc: Global,
    fit: Option<(u64, u64)>,
    first: i32,
    count: usize,
    areas: &[Span],
) -> Result<Sequence<bool>, NoMemory>
    requires few { count ≤ 1073741824 }
    requires low { neg_ℤ (pos 1073741824) ≤ℤ first }
    requires high { first ≤ℤ pos 536870912 }
    requires fit { IfSome fit (λ f. (f.0 < 2 ^ 62) × (f.1 < 2 ^ 62)) }
    ensures { IfOk result (AreFlags (λ at. is_collapsed fit areas.now (first +ℤ pos at)) count) }
{
    match fit {
        Some((from, to)) => {
            let covered = covered(alloc, first, count, areas)?;
            left(alloc, from, to, first, covered.as_slice())
        }
        None => none(alloc, count),
    }
}
