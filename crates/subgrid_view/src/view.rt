//! The tracks of its parent as a subgrid sees them.

ghost use Rattle.std.specs.Prelude.{◌≡◌, neg_ℤ, ◌≤ℤ◌, ◌-ℤ◌, ◌+ℤ◌, pos, length, IfOk, ◌∷◌, []};
ghost use Rattle.std.specs.Int.{int_max};
ghost use Rattle.lunit.specs.Units.{clamp, IsLong};
ghost use Rattle.part_rules.specs.Views.{all_tracks, content_size, first_start, half_after, half_before, last_end, seen, track_between, tracks_over, view_of};
ghost use Rattle.subgrid_view.specs.Moves.{AreMoves, end_moved, moved_from, start_moved};
ghost use Rattle.subgrid_view.specs.Ranges.{AreNear, IsDifference, IsEdge, IsNearTrack, IsOrigin};

use crate::gaps::{difference, half_after, half_before, units};
use lunit::{Lu, NoMemory, Sequence, Span, Wide};
use part_rules::View;
use std::alloc::Global;

/// What the edges of tracks are moved by: each start but the first, and each end but the last, which is `last`.
#[derive(Clone, Copy)]
struct Moves {
    start: Wide,
    end: Wide,
    last: Lu,
}

/// The start of a track.
fn start_of(track: &(i64, i64)) -> Wide
    ensures value { result ≡ track.now.0 }
    ensures range { IsEdge result }
{
    units(track.0)
}

/// The end of a track.
fn end_of(track: &(i64, i64)) -> Wide
    ensures value { result ≡ track.now.1 }
    ensures range { IsEdge result }
{
    units(track.1)
}

/// The start of the first track.
fn first_start(tracks: &[(i64, i64)]) -> Wide
    ensures value { result ≡ first_start tracks.now }
    ensures range { IsEdge result }
{
    match tracks.first() {
        Some(track) => start_of(track),
        None => units(0),
    }
}

#[tactic(auto, using(crate::proofs::Tracks::last_is))]
/// The end of the last track.
fn last_end(tracks: &[(i64, i64)]) -> Wide
    ensures value { result ≡ last_end tracks.now }
    ensures range { IsEdge result }
{
    match tracks.last() {
        Some(track) => end_of(track),
        None => units(0),
    }
}

/// The number, but at least 0, as a length.
fn size(number: Wide) -> Lu
    ensures { result ≡ clamp (int_max (pos 0) number) }
{
    units(0).max(number).clamp()
}

/// The size of the content box of a subgrid over these tracks: their area less its margins, borders and paddings, at least 0.
fn content_size(tracks: &[(i64, i64)], before: Lu, after: Lu) -> Lu
    ensures { result ≡ content_size tracks.now before after }
{
    let area = size(last_end(tracks) - first_start(tracks));
    size(area.wide() - before.wide() - after.wide())
}

/// The moves of the edges for a content box that begins at `origin`.
fn moves_for(difference: Wide, origin: Wide, content: Lu) -> Moves
    requires difference { IsDifference difference }
    requires origin { IsOrigin origin }
    ensures start { result.start ≡ half_after difference -ℤ origin }
    ensures end { result.end ≡ neg_ℤ (origin +ℤ half_before difference) }
    ensures last { result.last ≡ content }
    ensures range { AreMoves result }
{
    Moves {
        start: half_after(difference) - origin,
        end: units(0) - origin - half_before(difference),
        last: content,
    }
}

/// Where a track begins that has so many before it.
fn moved_start(moves: &Moves, place: usize, track: &(i64, i64)) -> Wide
    requires moves { AreMoves moves.now }
    requires near { IsNearTrack track.now }
    ensures value { result ≡ start_moved moves.now place track.now.0 }
    ensures range { IsLong result }
{
    if place == 0 {
        units(0)
    } else {
        start_of(track) + moves.start
    }
}

/// Where a track ends that has these after it.
fn moved_end(moves: &Moves, track: &(i64, i64), rest: &[(i64, i64)]) -> Wide
    requires moves { AreMoves moves.now }
    requires near { IsNearTrack track.now }
    ensures value { result ≡ end_moved moves.now track.now.1 rest.now }
    ensures range { IsLong result }
{
    if rest.is_empty() {
        moves.last.wide()
    } else {
        end_of(track) + moves.end
    }
}

/// The track from one edge to the other; where it would end before it starts, it has size 0 at its start.
fn track_between(start: Wide, end: Wide) -> (i64, i64)
    requires start { IsLong start }
    requires end { IsLong end }
    ensures { result ≡ track_between start end }
{
    (start.units(), start.max(end).units())
}

/// The tracks with their edges moved.
fn moved(
    alloc: Global,
    moves: &Moves,
    tracks: &[(i64, i64)],
) -> Result<Sequence<(i64, i64)>, NoMemory>
    requires moves { AreMoves moves.now }
    requires near { AreNear tracks.now }
    ensures { IfOk result (λ edges. edges ≡ moved_from moves.now 0 tracks.now) }
{
    let mut edges = Sequence::from_vec(Vec::with_capacity(alloc, tracks.len())?);
    for (place, track) in tracks.iter().enumerate() {
        let start = moved_start(moves, place, track);
        let end = moved_end(moves, track, &tracks[place + 1..]);
        edges.push(track_between(start, end))?;
    }
    Ok(edges)
}

#[inline(always)]
/// The tracks as a subgrid over them sees them, with a gutter that differs by so much from theirs.
fn seen(
    alloc: Global,
    difference: Wide,
    before: Lu,
    after: Lu,
    tracks: &[(i64, i64)],
) -> Result<Sequence<(i64, i64)>, NoMemory>
    requires difference { IsDifference difference }
    requires near { AreNear tracks.now }
    ensures { IfOk result (λ edges. edges ≡ seen difference before after tracks.now) }
{
    let origin = first_start(tracks) + before.wide();
    let content = content_size(tracks, before, after);
    moved(alloc, &moves_for(difference, origin, content), tracks)
}

#[tactic(auto, using(crate::proofs::Tracks::over_near))]
/// The tracks over a span that is counted from the first one.
fn tracks_over(edges: &[(i64, i64)], span: Span) -> &[(i64, i64)]
    requires start { pos 0 ≤ℤ span.start }
    requires order { span.start ≤ℤ span.end }
    requires end { span.end ≤ℤ pos (length edges.now) }
    requires near { AreNear edges.now }
    ensures value { result.now ≡ tracks_over edges.now span }
    ensures near { AreNear result.now }
{
    &edges[span.start as usize..span.end as usize]
}

/// The view that a subgrid has of its parent's tracks (CSS Grid 2, section 9), for a subgrid over `span`, counted from the first
/// track of its parent's view `outer`, with the gutter `gap` and the sums `before` and `after` of margin, border and padding at
/// its two sides. Both gutters are those that are used at layout.
///
/// The edges are counted from the start of the subgrid's content box. The first track begins there, and the last one ends at the
/// end of the content box, whose size is that of the area less `before` and `after`, at least 0 and limited to the range of
/// lengths. Where the gutters differ, each inner end moves back by the half of the difference, rounded down, and each inner
/// start moves on by the rest. A track that would end before it starts has size 0 at its start. These moves and the size of the
/// content box are own rules.
///
/// `NoMemory` where memory is wanting.
pub fn view_of<const AXIS: u8>(
    alloc: Global,
    outer: &View<AXIS>,
    span: Span,
    gap: Lu,
    before: Lu,
    after: Lu,
) -> Result<View<AXIS>, NoMemory>
    requires start { pos 0 ≤ℤ span.start }
    requires order { span.start ≤ℤ span.end }
    requires end { span.end ≤ℤ pos (length outer.now.edges) }
    requires near { AreNear outer.now.edges }
    ensures { IfOk result (λ view. view ≡ view_of outer.now span gap before after) }
{
    let tracks = tracks_over(outer.edges.as_slice(), span);
    let edges = seen(alloc, difference(gap, outer.gap), before, after, tracks)?;
    Ok(View { edges, gap })
}
