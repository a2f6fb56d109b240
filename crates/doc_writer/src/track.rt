//! Track sizes and the two templates (CSS Grid 2, sections 7.2 and 9).
#![tactic(auto, using(crate::proofs::Kept::adding, crate::proofs::Runs::turns))]

ghost use Rattle.std.specs.Prelude.{◌≡◌, ◌∷◌, ◌+◌, ◌<◌, [], List, Some, pos, drop, take, codes, OnOk, IfOk};
ghost use Rattle.track_text.specs.declared.side.Side.TheVariants as sides;
ghost use Rattle.track_text.specs.declared.side.Track.{Track};
ghost use Rattle.doc_writer.specs.Numbers.{integer};
ghost use Rattle.doc_writer.specs.Runs.{IsRun};
ghost use Rattle.doc_writer.specs.Spaces.{put};
ghost use Rattle.doc_writer.specs.Tracks.{side_word, same_unit, same_side, same_fit, same_track, is_alone, minmax_words, fit_words, track_words, set_words, shown_set, repeat_words, repeated, is_empty, first_set, goes_on, run_words, tracks_words, plain_words, filling_word, automatic_words, list_words, set_runs, sets_words, template_words, sizes_words, tracks_with};

use crate::line::LineText;
use crate::units::Units;
use lunit::{Lu, NameSet, NoMemory};
use std::alloc::Global;
use style_types::{Repeat, Template, TrackFn, TrackList, Unit};
use track_text::{Side, Track};

/// How often a repeat stands at most (own rule).
const MOST_TIMES: u32 = 10_000;

fn write_side(line: &mut LineText, side: Side) -> Result<(), NoMemory>
    ensures { OnOk result (line.new ≡ put line.old (side_word side ∷ [])) }
{
    match side {
        Side::Length(px, unit) => line.length(px, unit),
        Side::Percent(thousandths) => line.percentage(thousandths),
        Side::Auto => line.word(b"auto"),
        Side::MinContent => line.word(b"min-content"),
        Side::MaxContent => line.word(b"max-content"),
        Side::Flex(thousandths) => line.flex(thousandths),
    }
}

fn same_unit(a: Unit, b: Unit) -> bool
    ensures { result ≡ same_unit a b }
{
    match (a, b) {
        (Unit::Px, Unit::Px) => true,
        (Unit::Em(a), Unit::Em(b)) | (Unit::Rem(a), Unit::Rem(b)) => a == b,
        _ => false,
    }
}

/// Whether the side is this length.
fn is_length(side: Side, px: Lu, unit: Unit) -> bool
    ensures { result ≡ same_side (sides.Length px unit) side }
{
    match side {
        Side::Length(other, of_other) => {
            px.units() == other.units() && same_unit(unit, of_other)
        }
        _ => false,
    }
}

/// Whether the side is this percentage.
fn is_percent(side: Side, thousandths: u32) -> bool
    ensures { result ≡ same_side (sides.Percent thousandths) side }
{
    match side {
        Side::Percent(other) => thousandths == other,
        _ => false,
    }
}

/// Whether the side is this factor.
fn is_flex(side: Side, thousandths: u32) -> bool
    ensures { result ≡ same_side (sides.Flex thousandths) side }
{
    match side {
        Side::Flex(other) => thousandths == other,
        _ => false,
    }
}

fn same_side(a: Side, b: Side) -> bool
    ensures { result ≡ same_side a b }
{
    match a {
        Side::Length(px, unit) => is_length(b, px, unit),
        Side::Percent(thousandths) => is_percent(b, thousandths),
        Side::Auto => matches!(b, Side::Auto),
        Side::MinContent => matches!(b, Side::MinContent),
        Side::MaxContent => matches!(b, Side::MaxContent),
        Side::Flex(thousandths) => is_flex(b, thousandths),
    }
}

fn same_fit(a: Option<Side>, b: Option<Side>) -> bool
    ensures { result ≡ same_fit a b }
{
    match (a, b) {
        (None, None) => true,
        (Some(a), Some(b)) => same_side(a, b),
        _ => false,
    }
}

fn same_track(a: &Track, b: &Track) -> bool
    ensures { result ≡ same_track a.now b.now }
{
    same_side(a.least, b.least) && (same_side(a.most, b.most) && same_fit(a.fit, b.fit))
}

/// Whether the two functions are written as the second of them alone.
fn is_alone(least: Side, most: Side) -> bool
    ensures { result ≡ is_alone least most }
{
    match (least, most) {
        (Side::Auto, Side::Flex(_)) => true,
        _ => same_side(least, most),
    }
}

fn write_minmax(line: &mut LineText, least: Side, most: Side) -> Result<(), NoMemory>
    ensures { OnOk result (line.new ≡ put line.old (minmax_words least most)) }
{
    line.word(b"minmax")?;
    line.word(b"(")?;
    write_side(line, least)?;
    line.word(b",")?;
    write_side(line, most)?;
    line.word(b")")
}

fn write_fit(line: &mut LineText, argument: Side) -> Result<(), NoMemory>
    ensures { OnOk result (line.new ≡ put line.old (fit_words argument)) }
{
    line.word(b"fit-content")?;
    line.word(b"(")?;
    write_side(line, argument)?;
    line.word(b")")
}

fn write_track(line: &mut LineText, track: &Track) -> Result<(), NoMemory>
    ensures { OnOk result (line.new ≡ put line.old (track_words track.now)) }
{
    match track.fit {
        Some(argument) => write_fit(line, argument),
        None if is_alone(track.least, track.most) => write_side(line, track.most),
        None => write_minmax(line, track.least, track.most),
    }
}

// ---- sets of names

#[tactic(auto, using(crate::proofs::Kept::one_by_one))]
fn write_names(line: &mut LineText, names: &NameSet) -> Result<(), NoMemory>
    ensures { OnOk result (line.new ≡ put line.old names.now) }
{
    for name in names.as_slice() {
        line.word(name.bytes())?;
    }
    Ok(())
}

fn write_set(line: &mut LineText, names: &NameSet) -> Result<(), NoMemory>
    ensures { OnOk result (line.new ≡ put line.old (set_words names.now)) }
{
    line.word(b"[")?;
    write_names(line, names)?;
    line.word(b"]")
}

/// Adds the first of the sets, unless it is empty.
fn write_first_set(line: &mut LineText, lines: &[NameSet]) -> Result<(), NoMemory>
    ensures { OnOk result (line.new ≡ put line.old (shown_set (first_set lines.now))) }
{
    match lines.first() {
        Some(names) if !names.is_empty() => write_set(line, names),
        _ => Ok(()),
    }
}

/// The sets after the first.
fn without_first(lines: &[NameSet]) -> &[NameSet]
    ensures { result.now ≡ drop 1 lines.now }
{
    match lines.split_first() {
        Some((_, rest)) => rest,
        None => lines,
    }
}

// ---- repeats

fn open_repeat(line: &mut LineText) -> Result<(), NoMemory>
    ensures { OnOk result (line.new ≡ put line.old (codes "repeat" ∷ codes "(" ∷ [])) }
{
    line.word(b"repeat")?;
    line.word(b"(")
}

/// Adds what stands before the body of a repeat of so many times.
fn open_times(line: &mut LineText, count: u32) -> Result<(), NoMemory>
    ensures { OnOk result (line.new ≡ put line.old (repeat_words (integer (pos count)))) }
{
    open_repeat(line)?;
    line.integer(count as i64)?;
    line.word(b",")
}

/// Adds a track that stands so often, one time after another.
fn write_run(line: &mut LineText, track: &Track, count: u32) -> Result<(), NoMemory>
    ensures { OnOk result (line.new ≡ put line.old (repeated count (track_words track.now))) }
{
    if count == 1 {
        return write_track(line, track);
    }
    open_times(line, count)?;
    write_track(line, track)?;
    line.word(b")")
}

/// Whether no name stands in the first of the sets.
fn is_bare(lines: &[NameSet]) -> bool
    ensures { result ≡ is_empty (first_set lines.now) }
{
    match lines.first() {
        Some(names) => names.is_empty(),
        None => true,
    }
}

/// Whether the next track goes on with a run of so many.
fn goes_on(track: &Track, count: u32, lines: &[NameSet], next: &Track) -> bool
    ensures { result ≡ goes_on track.now count (first_set lines.now) next.now }
{
    count < MOST_TIMES && (is_bare(lines) && same_track(track, next))
}

#[tactic(auto, using(crate::proofs::Runs::running))]
/// How many of the tracks after this one go on with it, and the units that are left after them. The
/// first set is that of the line after the track.
fn run_from<'a>(
    track: &Track,
    lines: &[NameSet],
    sizes: &[TrackFn],
    units: &Units<'a>,
) -> (u32, Units<'a>)
    ensures { IsRun track.now lines.now sizes.now units.now result.0 result.1 }
{
    let mut more = 0;
    let mut lines = lines;
    let mut sizes = sizes;
    let mut left = units.same();
    while let Some((size, rest)) = sizes.split_first() {
        let mut after = left.same();
        if !goes_on(track, more + 1, lines, &after.track(*size)) {
            return (more, left);
        }
        more += 1;
        lines = without_first(lines);
        sizes = rest;
        left = after;
    }
    (more, left)
}

/// The list from an index on.
fn skip<T>(list: &[T], count: u32) -> &[T]
    ensures { result.now ≡ drop count list.now }
{
    let (_, rest) = list.split_at(list.len().min(count as usize));
    rest
}

#[tactic(auto, using(crate::proofs::Kept::adding, crate::proofs::Runs::writing))]
/// Adds tracks with the sets of their lines, the first of which stands before the first track.
/// Gives the units that are left.
fn write_tracks<'a>(
    line: &mut LineText,
    lines: &[NameSet],
    sizes: &[TrackFn],
    units: &Units<'a>,
) -> Result<Units<'a>, NoMemory>
    ensures text { OnOk result
        (line.new ≡ put line.old (tracks_words lines.now (tracks_with sizes.now units.now).0)) }
    ensures units { IfOk result (λ left. left ≡ (tracks_with sizes.now units.now).1) }
{
    let mut lines = lines;
    let mut sizes = sizes;
    let mut left = units.same();
    while let Some((size, rest)) = sizes.split_first() {
        write_first_set(line, lines)?;
        let track = left.track(*size);
        let (more, after) = run_from(&track, without_first(lines), rest, &left);
        write_run(line, &track, more + 1)?;
        lines = skip(lines, more + 1);
        sizes = skip(rest, more);
        left = after;
    }
    write_first_set(line, lines)?;
    Ok(left)
}

/// Adds tracks with the sets of their lines, each written out.
fn write_plain(
    line: &mut LineText,
    lines: &[NameSet],
    sizes: &[TrackFn],
    units: &mut Units,
) -> Result<(), NoMemory>
    ensures { OnOk result
        (line.new ≡ put line.old (plain_words lines.now (tracks_with sizes.now units.old).0)) }
{
    let mut lines = lines;
    for size in sizes {
        write_first_set(line, lines)?;
        write_track(line, &units.track(*size))?;
        lines = without_first(lines);
    }
    write_first_set(line, lines)
}

// ---- templates

fn filling_word(auto_fit: bool) -> &'static [u8]
    ensures { result.now ≡ filling_word auto_fit }
{
    if auto_fit { b"auto-fit" } else { b"auto-fill" }
}

/// Adds an automatic repeat, whose lengths have these units.
fn write_automatic(line: &mut LineText, repeat: &Repeat, units: &mut Units) -> Result<(), NoMemory>
    ensures { OnOk result
        (line.new ≡
        put line.old (automatic_words repeat.now (tracks_with repeat.now.sizes units.old).0)) }
{
    open_repeat(line)?;
    line.word(filling_word(repeat.auto_fit))?;
    line.word(b",")?;
    write_plain(
        line,
        repeat.names.as_slice(),
        repeat.sizes.as_slice(),
        units,
    )?;
    line.word(b")")
}

/// The units that are left after those of tracks.
fn units_after<'a>(sizes: &[TrackFn], units: &Units<'a>) -> Units<'a>
    ensures { result ≡ (tracks_with sizes.now units.now).1 }
{
    let mut left = units.same();
    for size in sizes {
        let _ = left.track(*size);
    }
    left
}

/// The list up to an index, and from there on.
fn cut<T>(list: &[T], at: usize) -> (&[T], &[T])
    ensures front { result.0.now ≡ take at list.now }
    ensures back { result.1.now ≡ drop at list.now }
{
    list.split_at(at.min(list.len()))
}

#[tactic(auto, using(crate::proofs::Kept::adding, crate::proofs::Runs::cut_tracks))]
/// Adds the tracks before an automatic repeat, the repeat, and the tracks after it.
fn write_around(
    line: &mut LineText,
    alloc: Global,
    list: &TrackList,
    repeat: &Repeat,
    units: &Units,
) -> Result<(), NoMemory>
    ensures { OnOk result
        (line.new ≡
        put line.old
        (list_words list.now.names (Some repeat.now) (tracks_with list.now.sizes units.now))) }
{
    let lines = list.names.written(alloc)?;
    let tracks = list.sizes.written(alloc)?;
    let (names, names_after) = cut(lines.as_slice(), repeat.before as usize + 1);
    let (sizes, sizes_after) = cut(tracks.as_slice(), repeat.before as usize);
    let left = write_tracks(line, names, sizes, units)?;
    write_automatic(line, repeat, &mut units_after(sizes_after, &left))?;
    let _ = write_tracks(line, names_after, sizes_after, &left)?;
    Ok(())
}

/// Adds a list without an automatic repeat.
fn write_whole(
    line: &mut LineText,
    alloc: Global,
    list: &TrackList,
    units: &Units,
) -> Result<(), NoMemory>
    ensures { OnOk result
        (line.new ≡
        put line.old (tracks_words list.now.names (tracks_with list.now.sizes units.now).0)) }
{
    let names = list.names.written(alloc)?;
    let sizes = list.sizes.written(alloc)?;
    let _ = write_tracks(line, names.as_slice(), sizes.as_slice(), units)?;
    Ok(())
}

fn write_list(
    line: &mut LineText,
    alloc: Global,
    list: &TrackList,
    units: &Units,
) -> Result<(), NoMemory>
    ensures { OnOk result
        (line.new ≡
        put line.old
        (list_words list.now.names list.now.repeat (tracks_with list.now.sizes units.now))) }
{
    match &list.repeat {
        Some(repeat) => write_around(line, alloc, list, repeat, units),
        None => write_whole(line, alloc, list, units),
    }
}

/// Adds the set of a line that stands so often.
fn write_set_run(line: &mut LineText, names: &NameSet, count: u32) -> Result<(), NoMemory>
    ensures { OnOk result (line.new ≡ put line.old (repeated count (set_words names.now))) }
{
    if count == 1 {
        return write_set(line, names);
    }
    open_times(line, count)?;
    write_set(line, names)?;
    line.word(b")")
}

#[tactic(auto, using(crate::proofs::Kept::adding, crate::proofs::Lists::sets))]
/// Adds a set that stands so often already, and the sets after it.
fn write_set_runs(line: &mut LineText, first: &NameSet, lines: &[NameSet]) -> Result<(), NoMemory>
    ensures { OnOk result (line.new ≡ put line.old (set_runs first.now 1 lines.now)) }
{
    let mut names = first;
    let mut count = 1;
    for next in lines {
        if count < MOST_TIMES && names == next {
            count += 1;
        } else {
            write_set_run(line, names, count)?;
            names = next;
            count = 1;
        }
    }
    write_set_run(line, names, count)
}

fn write_subgrid(line: &mut LineText, lines: &[NameSet]) -> Result<(), NoMemory>
    ensures { OnOk result (line.new ≡ put line.old (sets_words lines.now)) }
{
    match lines.split_first() {
        Some((first, rest)) => write_set_runs(line, first, rest),
        None => Ok(()),
    }
}

/// Adds a template, whose lengths have these units.
pub(crate) fn write_template(
    line: &mut LineText,
    alloc: Global,
    template: &Template,
    units: &[Unit],
) -> Result<(), NoMemory>
    ensures { OnOk result (line.new ≡ put line.old (template_words template.now units.now)) }
{
    match template {
        Template::Absent => line.word(b"none"),
        Template::Tracks(list) => write_list(line, alloc, list, &Units::new(units)),
        Template::Subgrid(lines) => {
            let sets = lines.written(alloc)?;
            line.word(b"subgrid")?;
            write_subgrid(line, sets.as_slice())
        }
    }
}

/// Adds track sizes, each written out, whose lengths have these units.
pub(crate) fn write_sizes(
    line: &mut LineText,
    sizes: &[TrackFn],
    units: &[Unit],
) -> Result<(), NoMemory>
    ensures { OnOk result (line.new ≡ put line.old (sizes_words sizes.now units.now)) }
{
    let mut left = Units::new(units);
    for size in sizes {
        write_track(line, &left.track(*size))?;
    }
    Ok(())
}
