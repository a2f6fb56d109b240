//! The tracks of a grid with their sizes, and what is seen of them (CSS Box Alignment 3; CSS Grid 2, 7.2.3.2 and section 9).

ghost use Rattle.std.specs.Prelude.{◌≡◌, ◌-ℤ◌, ◌+ℤ◌, ◌≤ℤ◌, ◌≤◌, ◌^◌, filter, length, not, pos};
ghost use Rattle.std.specs.Int.{int_max};
ghost use Rattle.lunit.specs.Units.{clamp};
ghost use Rattle.part_rules.specs.FlexLines.{gaps};
ghost use Rattle.part_rules.specs.Lists.{greatest_with, sum_of};
ghost use Rattle.part_rules.specs.Views.{area_size, content_size, first_start, last_end, tracks_over};
ghost use Rattle.tree_rules.specs.Distribution.{is_safe, mode_of, open_tracks, total_of_tracks};
ghost use Rattle.tree_rules.specs.FlexSizes.{greatest_of, in_a_row};
ghost use Rattle.tree_rules.specs.Repetitions.{gap_by};
ghost use Rattle.inline_sizes.specs.Sums.{IsTotal};

use crate::numbers::positive_part;
use lunit::{Lu, Span, Wide};
use part_rules::{Mode, Rule};
use style_types::{Align, AlignMode, Size};

/// The way in which a value of alignment places (CSS Box Alignment 3, sections 4 and 6). `flex-start` and `flex-end` are `start`
/// and `end` for all that is laid out here, and `auto`, `normal` and `stretch` place as `start`.
pub fn mode_of(mode: &AlignMode) -> Mode
    ensures { result ≡ mode_of mode.now }
{
    match mode {
        AlignMode::Auto | AlignMode::Normal | AlignMode::Stretch => Mode::Stretch,
        AlignMode::Start | AlignMode::FlexStart => Mode::Start,
        AlignMode::End | AlignMode::FlexEnd => Mode::End,
        AlignMode::Center => Mode::Center,
        AlignMode::Between => Mode::Between,
        AlignMode::Around => Mode::Around,
        AlignMode::Evenly => Mode::Evenly,
    }
}

/// Whether `safe` stands before the position; what says neither is unsafe (CSS Box Alignment 3, 4.4).
pub fn is_safe(align: &Align) -> bool
    ensures { result ≡ is_safe align.now }
{
    match align.safe {
        Some(safe) => safe,
        None => false,
    }
}

/// The gap between two tracks: `normal` is this length; a percentage is of this size, and 0 of none (CSS Box Alignment 3, section
/// 8).
pub fn gap_by(base: &Option<Lu>, normal: Lu, gap: &Size) -> Lu
    ensures { result ≡ gap_by base.now normal gap.now }
{
    match gap {
        Size::Normal => normal,
        Size::Length(length) => *length,
        Size::Percent(thousandths) => match base {
            Some(base) => base.percent_of(*thousandths),
            None => Lu::default(),
        },
        _ => Lu::default(),
    }
}

#[tactic(auto, using(crate::proofs::Edges::counting))]
/// The number of tracks that are not collapsed.
pub fn open_tracks(rules: &[Rule]) -> usize
    ensures { result ≡ open_tracks rules.now }
{
    let mut count = 0;
    for rule in rules {
        if !rule.collapsed {
            count += 1;
        }
    }
    count
}

/// The sum of some lengths. It is exact.
pub fn sum_of(sizes: &[Lu]) -> Wide
    ensures value { result ≡ sum_of sizes.now }
    ensures range { IsTotal result }
{
    let mut sum = Wide::of(0);
    for size in sizes {
        sum = sum + size.wide();
    }
    sum
}

/// The gaps between so many.
fn gaps(gap: Lu, count: usize) -> Wide
    ensures value { result ≡ gaps gap count }
    ensures range { IsTotal result }
{
    gap.wide().times(count.saturating_sub(1) as u64)
}

/// The sizes of all tracks and the gutters between those that are not collapsed (CSS Grid 2, 7.2.3.2). It is exact.
pub fn total_of_tracks(rules: &[Rule], sizes: &[Lu], gap: Lu) -> Wide
    ensures value { result ≡
        total_of_tracks (record { rules = rules.now; sizes = sizes.now; gap = gap }) }
{
    sum_of(sizes) + gaps(gap, open_tracks(rules))
}

/// Sizes after one another with gaps between them, at least 0, limited to the range of lengths.
pub fn in_a_row(gap: Lu, sizes: &[Lu]) -> Lu
    ensures value { result ≡ in_a_row gap sizes.now }
    ensures some { pos 0 ≤ℤ result }
{
    positive_part(sum_of(sizes) + gaps(gap, sizes.len()))
}

#[tactic(auto, using(crate::proofs::Edges::greatest_laws))]
/// The greatest of some sizes and 0.
pub fn greatest_of(sizes: &[Lu]) -> Lu
    ensures value { result ≡ greatest_of sizes.now }
    ensures some { pos 0 ≤ℤ result }
{
    let mut greatest = Lu::default();
    for size in sizes {
        greatest = greatest.max(*size);
    }
    greatest
}

/// An edge of a track.
fn edge(number: i64) -> Wide
    ensures value { result ≡ number }
    ensures range { IsTotal result }
{
    Wide::of(number as i128)
}

/// The start of a track.
fn start_of(track: &(i64, i64)) -> Wide
    ensures value { result ≡ track.now.0 }
    ensures range { IsTotal result }
{
    edge(track.0)
}

/// The end of a track.
fn end_of(track: &(i64, i64)) -> Wide
    ensures value { result ≡ track.now.1 }
    ensures range { IsTotal result }
{
    edge(track.1)
}

/// The start of the first track; 0 where there is none.
fn first_start(tracks: &[(i64, i64)]) -> Wide
    ensures value { result ≡ first_start tracks.now }
    ensures range { IsTotal result }
{
    match tracks.first() {
        Some(track) => start_of(track),
        None => edge(0),
    }
}

#[tactic(auto, using(crate::proofs::Edges::last_is))]
/// The end of the last track; 0 where there is none.
fn last_end(tracks: &[(i64, i64)]) -> Wide
    ensures value { result ≡ last_end tracks.now }
    ensures range { IsTotal result }
{
    match tracks.last() {
        Some(track) => end_of(track),
        None => edge(0),
    }
}

/// The tracks over a span that is counted from the first one.
pub fn tracks_over(edges: &[(i64, i64)], span: Span) -> &[(i64, i64)]
    requires start { pos 0 ≤ℤ span.start }
    requires order { span.start ≤ℤ span.end }
    requires end { span.end ≤ℤ pos (length edges.now) }
    ensures { result.now ≡ tracks_over edges.now span }
{
    &edges[span.start as usize..span.end as usize]
}

/// The size of the area of these tracks, at least 0, limited to the range of lengths.
pub fn area_size(tracks: &[(i64, i64)]) -> Lu
    ensures value { result ≡ area_size tracks.now }
    ensures some { pos 0 ≤ℤ result }
{
    positive_part(last_end(tracks) - first_start(tracks))
}

/// The size of the content box of a subgrid over these tracks: their area less the sums `before` and `after` of margin, border and
/// padding at its two sides, at least 0 (CSS Grid 2, section 9).
pub fn content_size(tracks: &[(i64, i64)], before: Lu, after: Lu) -> Lu
    ensures value { result ≡ content_size tracks.now before after }
    ensures some { pos 0 ≤ℤ result }
{
    positive_part(area_size(tracks).wide() - before.wide() - after.wide())
}
