//! The tracks that the subgrids of a grid are given: made once for all that stand beside each other, and for those over tracks that lie alike.

ghost use Rattle.std.specs.Prelude.{◌≡◌, ◌+◌, ◌^◌, ◌-ℤ◌, ◌≤ℤ◌, ◌&&◌, ℕ, length, pos, true, IfOk, IfSome, OnOk};
ghost use Rattle.std.specs.Ordering.{int_eq};
ghost use Rattle.lunit.specs.Units.{IsUnits};
ghost use Rattle.part_rules.specs.Lists.{above_zero};
ghost use Rattle.part_rules.specs.Views.{area_size, content_size, first_start, tracks_over};
ghost use Rattle.placing.specs.Ranges.{IsGridAxis};
ghost use Rattle.placing.specs.Spread.{AreSpread, IsSpread};
ghost use Rattle.subgrid_view.specs.Ranges.{AreNear};
ghost use Rattle.tree_rules.specs.Distribution.{given_view, subgrid_box, view_in};
ghost use Rattle.tree_rules.specs.NodeSizes.{outer_end, outer_start};
ghost use Rattle.tree_rules.specs.Queries.{IsGivenFor, same_items};
ghost use Rattle.inline_sizes.specs.Styled.{grid_at};
ghost use Rattle.block_sizes.specs.Sharing.{AreMadeIn, AreSeenAlike, AreTracksOf, HasNoSides, IsLastIn, IsSpanIn, is_moved, lie_alike, same_sides, view_made};

use inline_sizes::{
    area_size, content_size, gap_by, is_plain, outer_end, outer_start, subgrid_box, tracks_over,
};
use lunit::{Lu, NoMemory, Span, Wide};
use part_rules::View;
use placing::style::gap;
use std::alloc::Global;
use style_types::Style;
use subgrid_view::view_of;
use tree_rules::{Given, SharedTracks};

/// What the view of a subgrid is made of beside its parent's view.
#[derive(Clone, Copy)]
pub struct ViewParts {
    /// The tracks of its parent that it spans, counted from the first one.
    pub span: Span,
    /// The gap between two of its tracks, in units of 1/64 px.
    pub gap: Lu,
    /// The sum of its margin, border and padding at the start, in units of 1/64 px.
    pub before: Lu,
    /// The sum of them at the end, in units of 1/64 px.
    pub after: Lu,
}

/// The tracks that a subgrid was given, and what they were made of.
#[derive(Drop)]
pub struct LastTracks {
    /// What they were made of.
    pub parts: ViewParts,
    /// The tracks as it sees them.
    pub tracks: SharedTracks,
}

#[tactic(auto, using(crate::proofs::PlainSubgrids::view_is))]
/// What the view is made of that a subgrid with this style has over a span, which is counted from the first track, where these are the
/// size of its content box and the sums of margin, border and padding at its two sides.
fn parts_with<const AXIS: u8>(
    outer: &View<AXIS>,
    span: Span,
    style: &Style,
    content: Lu,
    before: Lu,
    after: Lu,
) -> ViewParts
    requires content { content ≡ content_size (tracks_over outer.now.edges span) before after }
    requires before { before ≡ outer_start (grid_at AXIS style.now) }
    requires after { after ≡ outer_end (grid_at AXIS style.now) }
    ensures view { view_made outer.now result ≡ view_in outer.now span (grid_at AXIS style.now) }
    ensures span { result.span ≡ span }
{
    let gap = gap_by(&Some(content), outer.gap, &gap::<AXIS>(style));
    ViewParts {
        span,
        gap,
        before,
        after,
    }
}

#[tactic(auto, using(crate::proofs::PlainSubgrids::box_is, crate::proofs::PlainSubgrids::content_is))]
/// The size of the border box of a subgrid without margins, borders and paddings over a span, and what its view is made of.
fn plain_box<const AXIS: u8>(
    outer: &View<AXIS>,
    span: Span,
    style: &Style,
    room: Lu,
) -> (Lu, ViewParts)
    requires room { room ≡ area_size (tracks_over outer.now.edges span) }
    requires some { pos 0 ≤ℤ room }
    requires plain { HasNoSides (grid_at AXIS style.now) }
    ensures size { result.0 ≡
        subgrid_box (grid_at AXIS style.now) (area_size (tracks_over outer.now.edges span)) }
    ensures view { view_made outer.now result.1 ≡ view_in outer.now span (grid_at AXIS style.now) }
    ensures span { result.1.span ≡ span }
{
    let none = Lu::default();
    (
        room,
        parts_with::<AXIS>(outer, span, style, room, none, none),
    )
}

/// Whether a subgrid is plain: then it has neither margins nor borders and paddings.
fn has_no_sides<const AXIS: u8>(style: &Style) -> bool
    ensures { result ≡ true → HasNoSides (grid_at AXIS style.now) }
{
    is_plain::<AXIS>(style)
}

/// The size of the border box of a subgrid with this style over a span, which is counted from the first track, and what its view is made
/// of. Most subgrids have no margins, borders and paddings: then both are told from the area alone.
fn box_over<const AXIS: u8>(outer: &View<AXIS>, span: Span, style: &Style) -> (Lu, ViewParts)
    requires axis { IsGridAxis (grid_at AXIS style.now) }
    requires span { IsSpanIn outer.now.edges span }
    ensures size { result.0 ≡
        subgrid_box (grid_at AXIS style.now) (area_size (tracks_over outer.now.edges span)) }
    ensures view { view_made outer.now result.1 ≡ view_in outer.now span (grid_at AXIS style.now) }
    ensures span { result.1.span ≡ span }
{
    let tracks = tracks_over(outer.edges.as_slice(), span);
    let room = area_size(tracks);
    if has_no_sides::<AXIS>(style) {
        return plain_box::<AXIS>(outer, span, style, room);
    }
    let before = outer_start::<AXIS>(style);
    let after = outer_end::<AXIS>(style);
    let content = content_size(tracks, before, after);
    let size = subgrid_box::<AXIS>(style, room);
    (
        size,
        parts_with::<AXIS>(outer, span, style, content, before, after),
    )
}

/// How far it is from one edge to another.
fn way(from: i64, to: i64) -> Wide
    ensures { result ≡ to -ℤ from }
{
    Wide::of(to as i128) - Wide::of(from as i128)
}

/// The start of the first of some tracks; 0 where there is none.
fn start_of(tracks: &[(i64, i64)]) -> i64
    ensures { result ≡ first_start tracks.now }
{
    match tracks.first() {
        Some(track) => track.0,
        None => 0,
    }
}

/// Whether a track lies where another one does, moved by so much.
fn is_moved(by: Wide, track: (i64, i64), other: (i64, i64)) -> bool
    ensures { result ≡ is_moved by track other }
{
    way(track.0, other.0) == by && way(track.1, other.1) == by
}

#[tactic(auto, using(layout_cache::proofs::Sames::item_laws))]
/// Whether some tracks lie where others do, moved by so much.
fn are_moved(by: Wide, tracks: &[(i64, i64)], others: &[(i64, i64)]) -> bool
    ensures { result ≡ same_items (is_moved by) tracks.now others.now }
{
    if tracks.len() != others.len() {
        return false;
    }
    for index in 0..tracks.len() {
        if !is_moved(by, tracks[index], others[index]) {
            return false;
        }
    }
    true
}

/// Whether some tracks lie as others do, from the start of the first of each.
fn lie_alike(tracks: &[(i64, i64)], others: &[(i64, i64)]) -> bool
    ensures { result ≡ lie_alike tracks.now others.now }
{
    let by = way(start_of(tracks), start_of(others));
    are_moved(by, tracks, others)
}

#[tactic(auto, using(crate::proofs::SeenAlike::alike_laws))]
/// Whether a subgrid sees the same over two spans of tracks: only where it is one span, or where the tracks lie alike.
fn seen_alike(edges: &[(i64, i64)], a: Span, b: Span) -> bool
    requires a { IsSpanIn edges.now a }
    requires b { IsSpanIn edges.now b }
    ensures { result ≡ true → AreSeenAlike (tracks_over edges.now a) (tracks_over edges.now b) }
{
    if a.start == b.start && a.end == b.end {
        return true;
    }
    lie_alike(tracks_over(edges, a), tracks_over(edges, b))
}

/// Whether two lengths are the same.
fn same_length(a: Lu, b: Lu) -> bool
    ensures { result ≡ int_eq a b }
{
    a.units() == b.units()
}

/// Whether the sums at the two sides are the same.
fn same_sums(a: &ViewParts, b: &ViewParts) -> bool
    ensures { result ≡ (int_eq a.now.before b.now.before && int_eq a.now.after b.now.after) }
{
    same_length(a.before, b.before) && same_length(a.after, b.after)
}

/// Whether the gaps and the sums at the two sides are the same.
fn same_sides(a: &ViewParts, b: &ViewParts) -> bool
    ensures { result ≡ same_sides a.now b.now }
{
    same_length(a.gap, b.gap) && same_sums(a, b)
}

/// These tracks once more, where those of the parts are the same: then they are those of the parts from then on. `NoMemory` where they
/// are shared more often than can be counted.
fn again_for<const AXIS: u8>(
    outer: &View<AXIS>,
    parts: &ViewParts,
    last: &mut LastTracks,
) -> Result<Option<SharedTracks>, NoMemory>
    requires span { IsSpanIn outer.now.edges parts.now.span }
    requires last { AreMadeIn outer.now last.old }
    ensures value { IfOk result (λ found. IfSome found (AreTracksOf outer.now parts.now)) }
    ensures last { AreMadeIn outer.now last.new }
{
    if !same_sides(&last.parts, parts) {
        return Ok(None);
    }
    if !seen_alike(outer.edges.as_slice(), last.parts.span, parts.span) {
        return Ok(None);
    }
    let tracks = last.tracks.again()?;
    last.parts = *parts;
    Ok(Some(tracks))
}

/// The tracks that the last subgrid was given, if any, once more, where those of the parts are the same. `NoMemory` where they are
/// shared more often than can be counted.
fn last_again<const AXIS: u8>(
    outer: &View<AXIS>,
    parts: &ViewParts,
    last: &mut Option<LastTracks>,
) -> Result<Option<SharedTracks>, NoMemory>
    requires span { IsSpanIn outer.now.edges parts.now.span }
    requires last { IsLastIn outer.now last.old }
    ensures value { IfOk result (λ found. IfSome found (AreTracksOf outer.now parts.now)) }
    ensures last { IsLastIn outer.now last.new }
{
    match last {
        Some(last) => again_for::<AXIS>(outer, parts, last),
        None => Ok(None),
    }
}

#[tactic(auto, using(crate::proofs::SeenAlike::made_anew))]
/// The tracks of the parts. `NoMemory` where memory is wanting.
fn tracks_anew<const AXIS: u8>(
    alloc: Global,
    outer: &View<AXIS>,
    parts: &ViewParts,
) -> Result<SharedTracks, NoMemory>
    requires span { IsSpanIn outer.now.edges parts.now.span }
    requires near { AreNear outer.now.edges }
    ensures { IfOk result (AreTracksOf outer.now parts.now) }
{
    let ViewParts {
        span,
        gap,
        before,
        after,
    } = *parts;
    let view = view_of::<AXIS>(alloc, outer, span, gap, before, after)?;
    let tracks = SharedTracks::new(alloc, view.edges)?;
    Ok(tracks)
}

#[tactic(auto, using(crate::proofs::SeenAlike::last_made))]
/// The tracks of the parts: those that the last subgrid was given where they are the same, else made anew. They are the last ones from
/// then on. `NoMemory` where memory is wanting.
fn tracks_after<const AXIS: u8>(
    alloc: Global,
    outer: &View<AXIS>,
    parts: &ViewParts,
    last: &mut Option<LastTracks>,
) -> Result<SharedTracks, NoMemory>
    requires span { IsSpanIn outer.now.edges parts.now.span }
    requires near { AreNear outer.now.edges }
    requires last { IsLastIn outer.now last.old }
    ensures value { IfOk result (AreTracksOf outer.now parts.now) }
    ensures last { OnOk result (IsLastIn outer.now last.new) }
{
    if let Some(tracks) = last_again::<AXIS>(outer, parts, last)? {
        return Ok(tracks);
    }
    let tracks = tracks_anew::<AXIS>(alloc, outer, parts)?;
    let again = tracks.again()?;
    *last = Some(LastTracks {
        parts: *parts,
        tracks: again,
    });
    Ok(tracks)
}

#[tactic(auto, using(crate::proofs::Seen::view_counted, crate::proofs::Seen::view_gap, crate::proofs::Seen::view_spread))]
/// The size of the border box of a subgrid that spans these tracks of its parent's view, counted from the first one: the area less its
/// margins; and what it is given, as `given_view` tells it. Where this is the same that the last one was given, it is shared with it; what
/// is given is the last from then on.
///
/// `NoMemory` where memory is wanting.
pub fn box_after<const AXIS: u8>(
    alloc: Global,
    outer: &View<AXIS>,
    span: Span,
    style: &Style,
    last: &mut Option<LastTracks>,
) -> Result<(Lu, Given), NoMemory>
    requires axis { IsGridAxis (grid_at AXIS style.now) }
    requires start { pos 0 ≤ℤ span.start }
    requires order { span.start ≤ℤ span.end }
    requires end { span.end ≤ℤ pos (length outer.now.edges) }
    requires near { AreNear outer.now.edges }
    requires gap { pos 0 ≤ℤ outer.now.gap }
    requires last { IsLastIn outer.now last.old }
    ensures value { IfOk result
        (λ shared. shared ≡ (
          subgrid_box (grid_at AXIS style.now) (area_size (tracks_over outer.now.edges span)),
          given_view (view_in outer.now span (grid_at AXIS style.now)),
        )) }
    ensures fits { IfOk result
        (λ shared. IsGivenFor true true (above_zero (span.end -ℤ span.start)) shared.1) }
    ensures spread { (by : ℕ) → IsUnits outer.now.gap → AreSpread by outer.now.edges →
        IfOk result (λ shared. IsSpread (by + 2 ^ 33) shared.1) }
    ensures last { OnOk result (IsLastIn outer.now last.new) }
{
    let (size, parts) = box_over::<AXIS>(outer, span, style);
    let tracks = tracks_after::<AXIS>(alloc, outer, &parts, last)?;
    Ok((size, Given::Tracks(tracks, parts.gap)))
}
