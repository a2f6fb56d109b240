//! How the tracks of an axis are sized (CSS Grid 2, sections 7.2 and 7.6).

ghost use Rattle.std.specs.Prelude.{◌≡◌, ◌<◌, ◌≤◌, ◌^◌, List, ℤ, pos, neg_ℤ, ◌+ℤ◌, ◌≤ℤ◌, IfOk, IfSome, length, unsigned_abs};
ghost use Rattle.std.specs.Option.{unwrap_or};
ghost use Rattle.part_rules.specs.Repetition.{cycled, cycled_back, size_at};
ghost use Rattle.style_types.specs.Table.{auto_track};
ghost use Rattle.tree_rules.specs.Labels.{grid_of};
ghost use Rattle.tree_rules.specs.Repetitions.{gap_by};
ghost use Rattle.tree_rules.specs.Templates.{written};
ghost use Rattle.tree_rules.specs.TrackRules.{axis_rules, capped_of, fit_of, fixed_above, least_of, least_percent, most_of, most_percent, rule_of, tracks_of};
ghost use Rattle.placing.specs.Axes.{grid_axis};
ghost use Rattle.placing.specs.Covered.{IsNear, rules_by};
ghost use Rattle.placing.specs.Ranges.{IsTemplate, IsTrackList};
ghost use Rattle.placing.specs.Written.{list_written};

use crate::covered::{collapsed, first_line, line_after, track_count};
use crate::lengths::{longer, zero};
use crate::style::{autos, track_list};
use crate::template::{TrackSizes, place_in, track};
use lunit::{Lu, NoMemory, Sequence, Span};
use part_rules::{Least, Most, Rule};
use std::alloc::Global;
use style_types::{Breadth, Size, Style, TrackFn, TrackList};

// ---- gaps

/// The gap between two tracks, in units of 1/64 px (CSS Box Alignment 3, section 8): `normal` is this length, and a percentage is of the base, and 0 where there
/// is none.
pub fn gap_by(base: Option<Lu>, normal: Lu, gap: Size) -> Lu
    ensures { result ≡ gap_by base normal gap }
{
    match gap {
        Size::Normal => normal,
        Size::Length(length) => length,
        Size::Percent(percent) => match base {
            Some(base) => base.percent_of(percent),
            None => zero(),
        },
        _ => zero(),
    }
}

// ---- one track (CSS Grid 2, section 7.2.1)

/// A percentage as a min function.
fn least_percent(base: &Option<Lu>, percent: u32) -> Least
    ensures { result ≡ least_percent base.now percent }
{
    match base {
        Some(base) => Least::Fixed(base.percent_of(percent)),
        None => Least::Auto,
    }
}

/// The min function.
fn least_of(base: &Option<Lu>, breadth: &Breadth) -> Least
    ensures { result ≡ least_of base.now breadth.now }
{
    match breadth {
        Breadth::Length(length) => Least::Fixed(*length),
        Breadth::Percent(percent) => least_percent(base, *percent),
        Breadth::Auto => Least::Auto,
        Breadth::MinContent => Least::MinContent,
        Breadth::MaxContent => Least::MaxContent,
        Breadth::Flex(_) => Least::Auto,
    }
}

/// A fixed max function, which is at least a fixed min function.
fn fixed_above(least: &Least, length: Lu) -> Most
    ensures { result ≡ fixed_above least.now length }
{
    match least {
        Least::Fixed(floor) => Most::Fixed(longer(*floor, length)),
        Least::Auto => Most::Fixed(length),
        Least::MinContent => Most::Fixed(length),
        Least::MaxContent => Most::Fixed(length),
    }
}

/// A percentage as a max function.
fn most_percent(base: &Option<Lu>, least: &Least, percent: u32) -> Most
    ensures { result ≡ most_percent base.now least.now percent }
{
    match base {
        Some(base) => fixed_above(least, base.percent_of(percent)),
        None => Most::Auto,
    }
}

/// The max function beside a min function.
fn most_of(base: &Option<Lu>, least: &Least, breadth: &Breadth) -> Most
    ensures { result ≡ most_of base.now least.now breadth.now }
{
    match breadth {
        Breadth::Length(length) => fixed_above(least, *length),
        Breadth::Percent(percent) => most_percent(base, least, *percent),
        Breadth::Auto => Most::Auto,
        Breadth::MinContent => Most::MinContent,
        Breadth::MaxContent => Most::MaxContent,
        Breadth::Flex(factor) => Most::Flex(*factor),
    }
}

/// The max function that the argument of `fit-content` makes of another.
fn fit_of(base: &Option<Lu>, other: Most, argument: &Breadth) -> Most
    ensures { result ≡ fit_of base.now other argument.now }
{
    match argument {
        Breadth::Length(length) => Most::Fit(*length),
        Breadth::Percent(percent) => match base {
            Some(base) => Most::Fit(base.percent_of(*percent)),
            None => other,
        },
        _ => other,
    }
}

/// The max function that an argument of `fit-content` makes of another, if there is one.
fn capped_of(base: &Option<Lu>, most: Most, fit: &Option<Breadth>) -> Most
    ensures { result ≡ capped_of base.now most fit.now }
{
    match fit {
        Some(argument) => fit_of(base, most, argument),
        None => most,
    }
}

/// How a track of this size is sized.
fn rule_of(base: &Option<Lu>, size: &TrackFn, collapsed: bool) -> Rule
    ensures { result ≡ rule_of base.now size.now collapsed }
{
    let least = least_of(base, &size.least);
    let most = most_of(base, &least, &size.most);
    Rule {
        least,
        most: capped_of(base, most, &size.fit),
        collapsed,
    }
}

// ---- the sizes of tracks (CSS Grid 2, section 7.6)

/// This size, or `auto`.
fn or_auto(size: Option<TrackFn>) -> TrackFn
    ensures { result ≡ unwrap_or size auto_track }
{
    match size {
        Some(size) => size,
        None => TrackFn {
            least: Breadth::Auto,
            most: Breadth::Auto,
            fit: None,
        },
    }
}

#[tactic(auto, using(crate::proofs::Tracks::cycling))]
/// The automatic size of the so-manyth track after the template's.
fn auto_after(autos: &[TrackFn], at: usize) -> TrackFn
    ensures { result ≡ unwrap_or (cycled autos.now at) auto_track }
{
    if autos.is_empty() {
        return or_auto(None);
    }
    or_auto(track(autos, place_in(autos.len(), at)))
}

#[tactic(auto, using(crate::proofs::Tracks::cycling))]
/// The automatic size of the so-manyth track before the one before coordinate 0.
fn auto_before(autos: &[TrackFn], at: usize) -> TrackFn
    ensures { result ≡ unwrap_or (cycled_back autos.now at) auto_track }
{
    if autos.is_empty() {
        return or_auto(None);
    }
    or_auto(track(autos, autos.len() - 1 - place_in(autos.len(), at)))
}

/// How far a coordinate lies from 0.
fn distance(at: i32) -> usize
    ensures { result ≡ unsigned_abs at }
{
    at.unsigned_abs() as usize
}

#[tactic(auto, using(crate::proofs::Tracks::reading))]
/// The size of the track at a coordinate.
fn size_of(sizes: &TrackSizes, autos: &[TrackFn], at: i32) -> TrackFn
    ensures { result ≡ unwrap_or (size_at sizes.now autos.now at) auto_track }
{
    let place = distance(at);
    if at < 0 {
        return auto_before(autos, place - 1);
    }
    if place < sizes.len() {
        return or_auto(sizes.get(place));
    }
    auto_after(autos, place - sizes.len())
}

#[tactic(auto, using(crate::proofs::Tracks::one_auto))]
/// The automatic sizes of a style, as far as they are set: without them each is `auto`.
fn autos_of<const AXIS: u8>(style: &Style) -> &[TrackFn]
    ensures { (sizes : List TrackFn) (at : ℤ) →
        unwrap_or (size_at sizes result.now at) auto_track ≡
        unwrap_or (size_at sizes (grid_axis AXIS (grid_of style.now)).autos at) auto_track }
{
    match autos::<AXIS>(style) {
        Some(autos) => autos,
        None => &[],
    }
}

// ---- all tracks

/// The most tracks of a template that are kept (own rule).
const MOST_REPEATED: u64 = 10_000;

/// The repeated tracks of `auto-fit` in a track list: the first of them and the one after the last;
/// `None` for a list without them.
fn fit_of_list(list: &TrackList, count: u32) -> Option<(u64, u64)>
    requires { IsTrackList list.now }
    ensures value { result ≡ (list_written list.now count).fit }
    ensures few { IfSome result (λ f. (f.0 < 2 ^ 62) × (f.1 < 2 ^ 62)) }
{
    match &list.repeat {
        Some(repeat) if repeat.auto_fit => {
            let first = repeat.before as u64;
            let after = first + count as u64 * repeat.sizes.len() as u64;
            Some((first.min(MOST_REPEATED), after.min(MOST_REPEATED)))
        }
        _ => None,
    }
}

#[tactic(auto, using(crate::proofs::Written::fit_list, crate::proofs::Written::written_none))]
/// The repeated tracks of `auto-fit`: the first of them and the one after the last; `None` for another template.
fn fit_range<const AXIS: u8>(style: &Style, count: u32) -> Option<(u64, u64)>
    requires { IsTemplate (grid_axis AXIS (grid_of style.now)).template }
    ensures value { result ≡ (written (grid_axis AXIS (grid_of style.now)).template count).fit }
    ensures few { IfSome result (λ f. (f.0 < 2 ^ 62) × (f.1 < 2 ^ 62)) }
{
    match track_list::<AXIS>(style) {
        Some(list) => fit_of_list(list, count),
        None => None,
    }
}

/// How the track is sized that lies so many tracks after another.
fn rule_after(
    base: &Option<Lu>,
    sizes: &TrackSizes,
    autos: &[TrackFn],
    first: i32,
    tracks: usize,
    collapsed: bool,
) -> Rule
    requires low { neg_ℤ (pos 1073741824) ≤ℤ first }
    requires first { first ≤ℤ pos 536870912 }
    requires few { tracks ≤ 1073741824 }
    ensures { result ≡
        rule_of base.now (unwrap_or (size_at sizes.now autos.now (first +ℤ pos tracks)) auto_track)
        collapsed }
{
    let size = size_of(sizes, autos, line_after(first, tracks));
    rule_of(base, &size, collapsed)
}

/// How the tracks from this one on are sized, where these say whether each collapses.
fn rules_of(
    alloc: Global,
    base: &Option<Lu>,
    sizes: &TrackSizes,
    autos: &[TrackFn],
    first: i32,
    collapsed: &[bool],
) -> Result<Sequence<Rule>, NoMemory>
    requires few { length collapsed.now ≤ 1073741824 }
    requires low { neg_ℤ (pos 1073741824) ≤ℤ first }
    requires high { first ≤ℤ pos 536870912 }
    ensures { IfOk result
        (λ rules. rules ≡ rules_by base.now sizes.now autos.now first collapsed.now) }
{
    let mut rules = Vec::with_capacity(alloc, collapsed.len())?;
    for at in 0..collapsed.len() {
        let rule = rule_after(base, sizes, autos, first, at, collapsed[at]);
        rules.extend_from_slice(&[rule])?;
    }
    Ok(Sequence::from_vec(rules))
}

/// How the tracks of an axis are sized, where the automatic repeat of the template stands so often, the children have these spans, and percentages are of the
/// base: one pass over the spans and one over the tracks. `NoMemory` where memory is wanting.
pub fn axis_rules<const AXIS: u8>(
    alloc: Global,
    style: &Style,
    count: u32,
    base: Option<Lu>,
    areas: &[Span],
    tracks: Span,
) -> Result<Sequence<Rule>, NoMemory>
    requires template { IsTemplate (grid_axis AXIS (grid_of style.now)).template }
    requires near { IsNear tracks }
    ensures { IfOk result
        (λ rules. rules ≡
        axis_rules base (grid_axis AXIS (grid_of style.now))
        (written (grid_axis AXIS (grid_of style.now)).template count) areas.now
        (tracks_of tracks)) }
{
    let first = first_line(&tracks);
    let number = track_count(&tracks);
    let fit = fit_range::<AXIS>(style, count);
    let collapsed = collapsed(alloc, fit, first, number, areas)?;
    let sizes = TrackSizes::of::<AXIS>(style, count);
    rules_of(
        alloc,
        &base,
        &sizes,
        autos_of::<AXIS>(style),
        first,
        collapsed.as_slice(),
    )
}
