//! How often the automatic repeats of a grid stand (CSS Grid 2, section 7.2.3.2), by its declared sizes or a given one.

ghost use Rattle.std.specs.Prelude.{◌≡◌, ◌<◌, ◌+ℤ◌, ◌-ℤ◌, ◌≤ℤ◌, [], pos, Some, None, IfOk, length, map, option_map};
ghost use Rattle.std.specs.Int.{int_max};
ghost use Rattle.std.specs.Option.{unwrap_or};
ghost use Rattle.part_rules.specs.Lists.{at_most};
ghost use Rattle.part_rules.specs.Repetition.{counted, repetitions_by_division};
ghost use Rattle.tree_rules.specs.Labels.{content_of, grid_of, label_of};
ghost use Rattle.tree_rules.specs.NodeSizes.{border_size, fitted, inner, inner_end, inner_start, resolved};
ghost use Rattle.tree_rules.specs.Repetitions.{columns_space, counted_breadth, counted_track, declared_space, gap_by, list_count, own_pair, size_of_space, space_of, template_count};
ghost use Rattle.tree_rules.specs.declared.kind.NodeKind.TheVariants as kind;
ghost use Rattle.placing.specs.Axes.{content_axis, grid_axis};
ghost use Rattle.placing.specs.Counted.{IsAround, IsGivenSize, IsInner, IsTwoEdges, bounds_by};
ghost use Rattle.placing.specs.Ranges.{IsContentStyle, IsContentAxis, IsEdge, IsGridAxis, IsGridStyle, IsSize, IsTrackList};

use crate::lengths::{length, longer, shorter, zero};
use crate::rules::gap_by;
use crate::style::{
    border_end, border_start, gap, is_border_box, least, most, padding_end, padding_start, size,
    track_list,
};
use line_names::repetitions;
use lunit::{Lu, NoMemory, Sequence};
use part_rules::RepeatSpace;
use std::alloc::Global;
use style_types::{Breadth, Size, Style, TrackFn, TrackList};
use tree_rules::Given;

// ---- borders and paddings (CSS 2, section 8)

#[tactic(auto, using(crate::proofs::Counted::edge_sums))]
/// A border and a padding.
fn two_edges(border: Lu, padding: Lu) -> Lu
    requires border { IsEdge border }
    requires padding { IsEdge padding }
    ensures value { result ≡ border +ℤ padding }
    ensures range { IsTwoEdges result }
{
    length(border.wide() + padding.wide())
}

#[tactic(auto, using(crate::proofs::Counted::edges))]
/// The border and the padding at the start, in units of 1/64 px (CSS 2, section 8).
pub fn inner_start<const AXIS: u8>(style: &Style) -> Lu
    requires { IsGridAxis (grid_axis AXIS (grid_of style.now)) }
    ensures value { result ≡ inner_start (grid_axis AXIS (grid_of style.now)) }
    ensures range { IsTwoEdges result }
{
    two_edges(border_start::<AXIS>(style), padding_start::<AXIS>(style))
}

#[tactic(auto, using(crate::proofs::Counted::edges))]
/// The border and the padding at the end, in units of 1/64 px (CSS 2, section 8).
pub fn inner_end<const AXIS: u8>(style: &Style) -> Lu
    requires { IsGridAxis (grid_axis AXIS (grid_of style.now)) }
    ensures value { result ≡ inner_end (grid_axis AXIS (grid_of style.now)) }
    ensures range { IsTwoEdges result }
{
    two_edges(border_end::<AXIS>(style), padding_end::<AXIS>(style))
}

#[tactic(auto, using(crate::proofs::Counted::inner_sums))]
/// All borders and paddings of an axis, in units of 1/64 px (CSS 2, section 8).
pub fn inner<const AXIS: u8>(style: &Style) -> Lu
    requires { IsGridAxis (grid_axis AXIS (grid_of style.now)) }
    ensures value { result ≡ inner (grid_axis AXIS (grid_of style.now)) }
    ensures range { IsInner result }
{
    let start = inner_start::<AXIS>(style);
    let end = inner_end::<AXIS>(style);
    length(start.wide() + end.wide())
}

// ---- declared sizes (CSS Sizing 3, sections 3 and 5)

#[tactic(auto, using(crate::proofs::Counted::border_sums))]
/// The border-box size of a declared length.
fn border_size(border_box: bool, inner: Lu, size: Lu) -> Lu
    requires inner { IsInner inner }
    requires size { IsEdge size }
    ensures value { result ≡ border_size border_box inner size }
    ensures around { inner ≤ℤ result }
{
    if border_box {
        longer(size, inner)
    } else {
        length(size.wide() + inner.wide())
    }
}

/// The border-box size of a declared size, where that is a length.
fn border_size_of(border_box: bool, inner: Lu, size: &Size) -> Option<Lu>
    requires inner { IsInner inner }
    requires size { IsSize size.now }
    ensures value { result ≡ option_map (border_size border_box inner) (resolved None size.now) }
    ensures around { IsAround inner result }
{
    match size {
        Size::Length(length) => Some(border_size(border_box, inner, *length)),
        _ => None,
    }
}

/// The length, but at most a limit, where there is one.
fn limited(limit: &Option<Lu>, length: Lu) -> Lu
    ensures { result ≡ at_most limit.now length }
{
    match limit {
        Some(limit) => shorter(*limit, length),
        None => length,
    }
}

/// The length, or 0.
fn or_zero(length: &Option<Lu>) -> Lu
    ensures { result ≡ unwrap_or length.now (pos 0) }
{
    match length {
        Some(length) => *length,
        None => zero(),
    }
}

/// What a border-box size leaves within borders and paddings.
fn room(inner: Lu, size: Lu) -> Lu
    requires some { pos 0 ≤ℤ inner }
    requires fits { inner ≤ℤ size }
    ensures value { result ≡ size -ℤ inner }
    ensures low { pos 0 ≤ℤ result }
{
    length(size.wide() - inner.wide())
}

#[tactic(auto, using(crate::proofs::Counted::rooms))]
/// The content size of a declared size within its limits.
fn fitted_room(inner: Lu, size: Lu, least: &Option<Lu>, most: &Option<Lu>) -> Lu
    requires { pos 0 ≤ℤ inner }
    ensures value { result ≡ fitted (bounds_by inner (Some size) least.now most.now) size -ℤ inner }
    ensures low { pos 0 ≤ℤ result }
{
    let used = longer(inner, longer(or_zero(least), limited(most, size)));
    room(inner, used)
}

#[tactic(auto, using(crate::proofs::Counted::rooms))]
/// The content size of a maximum, raised to the minimum.
fn greatest_room(inner: Lu, least: &Option<Lu>, most: Lu) -> Lu
    requires some { pos 0 ≤ℤ inner }
    requires fits { inner ≤ℤ most }
    ensures value { result ≡ int_max most (unwrap_or least.now (pos 0)) -ℤ inner }
    ensures low { pos 0 ≤ℤ result }
{
    room(inner, longer(most, or_zero(least)))
}

/// The size that these border-box sizes give to count against, as a content size.
fn space_within(inner: Lu, size: &Option<Lu>, least: &Option<Lu>, most: &Option<Lu>) -> RepeatSpace
    requires inner { pos 0 ≤ℤ inner }
    requires least { IsAround inner least.now }
    requires most { IsAround inner most.now }
    ensures value { result ≡ declared_space (bounds_by inner size.now least.now most.now) }
    ensures low { pos 0 ≤ℤ size_of_space result }
{
    if let Some(size) = size {
        return RepeatSpace::Fits(fitted_room(inner, *size, least, most));
    }
    if let Some(most) = most {
        return RepeatSpace::Fits(greatest_room(inner, least, *most));
    }
    match least {
        Some(least) => RepeatSpace::Fills(room(inner, *least)),
        None => RepeatSpace::Endless,
    }
}

/// The size that the declared sizes of an axis give to count against.
fn space_of<const AXIS: u8>(style: &Style) -> RepeatSpace
    requires edges { IsGridAxis (grid_axis AXIS (grid_of style.now)) }
    requires sizes { IsContentAxis (content_axis AXIS (content_of style.now)) }
    ensures value { result ≡
        space_of (content_of style.now).border_box (grid_axis AXIS (grid_of style.now))
        (content_axis AXIS (content_of style.now)) }
    ensures low { pos 0 ≤ℤ size_of_space result }
{
    let border_box = is_border_box(style);
    let inner = inner::<AXIS>(style);
    space_within(
        inner,
        &border_size_of(border_box, inner, &size::<AXIS>(style)),
        &border_size_of(border_box, inner, &least::<AXIS>(style)),
        &border_size_of(border_box, inner, &most::<AXIS>(style)),
    )
}

/// The size that the columns are counted against: the content width that is given, else one by the declared sizes.
fn columns_space(style: &Style, width: &Given) -> RepeatSpace
    requires edges { IsGridAxis (grid_of style.now).columns }
    requires sizes { IsContentAxis (content_of style.now).inline }
    requires width { IsGivenSize width.now }
    ensures value { result ≡ columns_space (label_of [] kind.Grid style.now) width.now }
    ensures low { pos 0 ≤ℤ size_of_space result }
{
    match width {
        Given::Size(width) => RepeatSpace::Fits(*width),
        Given::Tracks(_, _) => RepeatSpace::Endless,
        Given::None => space_of::<0>(style),
    }
}

// ---- counting (CSS Grid 2, section 7.2.3.2)

/// The size itself, of which percentages are.
fn size_of_space(space: &RepeatSpace) -> Lu
    ensures { result ≡ size_of_space space.now }
{
    match space {
        RepeatSpace::Fits(size) => *size,
        RepeatSpace::Fills(size) => *size,
        RepeatSpace::Endless => zero(),
    }
}

/// The length of one side of a track size, a percentage being of this size.
fn counted_breadth(size: Lu, breadth: &Breadth) -> Option<Lu>
    ensures { result ≡ counted_breadth size breadth.now }
{
    match breadth {
        Breadth::Length(length) => Some(*length),
        Breadth::Percent(percent) => Some(size.percent_of(*percent)),
        _ => None,
    }
}

#[tactic(auto, unfolding(lunit::specs::Units::clamp))]
/// One pixel.
fn pixel() -> Lu
    ensures { result ≡ pos 64 }
{
    Lu::of(64)
}

/// The length as which a track counts, by its sides where these are lengths.
fn counted(least: &Option<Lu>, most: &Option<Lu>) -> Lu
    ensures { result ≡ counted least.now most.now }
{
    match most {
        Some(most) => match least {
            Some(least) => longer(pixel(), longer(*least, *most)),
            None => longer(pixel(), longer(*most, *most)),
        },
        None => longer(pixel(), or_zero(least)),
    }
}

/// The length as which a track counts.
fn counted_track(size: Lu, track: &TrackFn) -> Lu
    ensures { result ≡ counted_track size track.now }
{
    counted(
        &counted_breadth(size, &track.least),
        &counted_breadth(size, &track.most),
    )
}

/// The lengths as which these tracks count.
fn counted_tracks(alloc: Global, size: &Lu, tracks: &[TrackFn]) -> Result<Sequence<Lu>, NoMemory>
    ensures { IfOk result (λ lengths. lengths ≡ map (counted_track size.now) tracks.now) }
{
    let mut lengths = Sequence::new(alloc);
    for track in tracks {
        lengths.push(counted_track(*size, track))?;
    }
    Ok(lengths)
}

/// How often the tracks of a repeat stand beside others.
fn repeat_count(
    alloc: Global,
    gap: Size,
    tracks: &[TrackFn],
    repeated: &[TrackFn],
    space: RepeatSpace,
) -> Result<u32, NoMemory>
    requires gap { IsSize gap }
    requires some { 0 < length repeated.now }
    requires low { pos 0 ≤ℤ size_of_space space }
    ensures { IfOk result
        (λ count. count ≡
        repetitions_by_division (map (counted_track (size_of_space space)) tracks.now)
        (map (counted_track (size_of_space space)) repeated.now)
        (gap_by (Some (size_of_space space)) (pos 0) gap) space) }
{
    let size = size_of_space(&space);
    let fixed = counted_tracks(alloc, &size, tracks)?;
    let repeated = counted_tracks(alloc, &size, repeated)?;
    let gap = gap_by(Some(size), zero(), gap);
    Ok(repetitions(fixed.as_slice(), repeated.as_slice(), gap, space))
}

/// How often the repeat of a list stands; once where it has none.
fn list_count<const AXIS: u8>(
    alloc: Global,
    style: &Style,
    list: &TrackList,
    space: RepeatSpace,
) -> Result<u32, NoMemory>
    requires gap { IsSize (grid_axis AXIS (grid_of style.now)).gap }
    requires list { IsTrackList list.now }
    requires low { pos 0 ≤ℤ size_of_space space }
    ensures { IfOk result
        (λ count. count ≡
        list_count (grid_axis AXIS (grid_of style.now)) list.now.sizes list.now.repeat space) }
{
    match &list.repeat {
        Some(repeat) => {
            let tracks = list.sizes.written(alloc)?;
            repeat_count(
                alloc,
                gap::<AXIS>(style),
                tracks.as_slice(),
                repeat.sizes.as_slice(),
                space,
            )
        }
        None => Ok(1),
    }
}

#[tactic(auto, using(crate::proofs::Counted::counted_templates, crate::proofs::Written::list_is))]
/// How often the automatic repeat of the template of an axis stands, counted against this size; once where it has none.
fn template_count<const AXIS: u8>(
    alloc: Global,
    style: &Style,
    space: RepeatSpace,
) -> Result<u32, NoMemory>
    requires grid { IsGridAxis (grid_axis AXIS (grid_of style.now)) }
    requires low { pos 0 ≤ℤ size_of_space space }
    ensures { IfOk result
        (λ count. count ≡
        template_count (grid_axis AXIS (grid_of style.now))
        (grid_axis AXIS (grid_of style.now)).template space) }
{
    match track_list::<AXIS>(style) {
        Some(list) => list_count::<AXIS>(alloc, style, list, space),
        None => Ok(1),
    }
}

/// How often the automatic repeats of a grid stand, columns first, where this is given in the inline axis: columns are counted against a content width that is
/// given, and else by the declared sizes; rows always by the declared sizes (own rule). Each count is at most 10,000 (own rule). `NoMemory` where memory is
/// wanting.
pub fn own_pair(alloc: Global, style: &Style, width: &Given) -> Result<(u32, u32), NoMemory>
    requires grid { IsGridStyle (grid_of style.now) }
    requires content { IsContentStyle (content_of style.now) }
    requires width { IsGivenSize width.now }
    ensures { IfOk result (λ pair. pair ≡ own_pair (label_of [] kind.Grid style.now) width.now) }
{
    let columns = template_count::<0>(alloc, style, columns_space(style, width))?;
    let rows = template_count::<1>(alloc, style, space_of::<1>(style))?;
    Ok((columns, rows))
}
