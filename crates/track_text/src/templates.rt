//! Templates and lists of track sizes, as styles have them, with the units of their lengths.

ghost use Rattle.std.specs.Prelude.{◌≡◌, ◌++◌, ◌∷◌, [], IfOk, OnOk};
ghost use Rattle.std.specs.Option.{option_map};
ghost use Rattle.track_text.specs.Words.{all_from};
ghost use Rattle.track_text.specs.TrackSizes.{track_first};
ghost use Rattle.track_text.specs.Sides.{side_units, fit_units, track_units, units_before, list_value, list_units, repeat_value, repeat_units};
ghost use Rattle.track_text.specs.Templates.{template_of, auto_tracks, tracks_value, sizes_value};
ghost use Rattle.track_text.specs.Gives.{Gives};
ghost use Rattle.runs.specs.Times.{times};

use crate::errors::Stop;
use crate::lists::track_list;
use crate::side::{ReadList, ReadRepeat, Side, Track, listed_sizes, sizes_of};
use crate::subgrids::subgrid_of;
use crate::track_sizes::track_from;
use crate::words::Words;
use lunit::{NoMemory, Sequence};
use runs::Runs;
use std::alloc::Global;
use style_types::{Repeat, Template, TrackFn, TrackList, Unit, UnitList};

/// Puts the unit of the side, where it is a length, behind the others.
fn push_side(units: &mut Sequence<Unit>, side: Side) -> Result<(), NoMemory>
    ensures { OnOk result (units.new ≡ units.old ++ side_units side []) }
{
    if let Side::Length(_, unit) = side {
        units.push(unit)?;
    }
    Ok(())
}

fn push_fit(units: &mut Sequence<Unit>, fit: Option<Side>) -> Result<(), NoMemory>
    ensures { OnOk result (units.new ≡ units.old ++ fit_units fit []) }
{
    if let Some(side) = fit {
        push_side(units, side)?;
    }
    Ok(())
}

#[tactic(auto, using(crate::proofs::Units::track_behind))]
/// Puts the units of the size behind the others.
fn push_track(units: &mut Sequence<Unit>, track: Track) -> Result<(), NoMemory>
    ensures { OnOk result (units.new ≡ units.old ++ track_units track []) }
{
    push_side(units, track.least)?;
    push_side(units, track.most)?;
    push_fit(units, track.fit)
}

#[tactic(auto, using(crate::proofs::Units::units_next))]
/// Puts the units of the sizes behind the others.
fn push_units(units: &mut Sequence<Unit>, tracks: &[Track]) -> Result<(), NoMemory>
    ensures { OnOk result (units.new ≡ units.old ++ units_before tracks.now []) }
{
    for track in tracks {
        push_track(units, *track)?;
    }
    Ok(())
}

/// These units, and others behind them that stand so many times. `NoMemory` too where there were more than 2^32.
fn with_units(units: Runs<Unit>, count: u32, more: Sequence<Unit>) -> Result<Runs<Unit>, NoMemory>
    ensures { IfOk result (λ all. all ≡ units ++ times count more) }
{
    if units.len() as u128 + count as u128 * more.len() as u128 > 4_294_967_296 {
        return Err(NoMemory);
    }
    units.with(count, more)
}

#[tactic(auto, using(crate::proofs::Listed::units))]
/// The units of the sizes of a list. Those of sizes that stand many times stand once.
fn listed_units(alloc: Global, tracks: &Runs<Track>) -> Result<Runs<Unit>, NoMemory>
    ensures { IfOk result (λ units. units ≡ units_before tracks.now []) }
{
    let mut units = Runs::new(alloc);
    for (count, body) in tracks.parts() {
        let mut more = Sequence::new(alloc);
        push_units(&mut more, body.as_slice())?;
        units = with_units(units, *count, more)?;
    }
    Ok(units)
}

fn push_repeat(units: &mut Sequence<Unit>, repeat: &Option<ReadRepeat>) -> Result<(), NoMemory>
    ensures { OnOk result (units.new ≡ units.old ++ repeat_units repeat.now) }
{
    match repeat {
        Some(repeat) => push_units(units, repeat.sizes.as_slice()),
        None => Ok(()),
    }
}

#[tactic(auto, using(crate::proofs::Units::list_behind))]
/// The units of a list, in the order of its lengths.
fn list_units(alloc: Global, list: &ReadList) -> Result<UnitList, NoMemory>
    ensures { IfOk result (λ units. units ≡ list_units list.now) }
{
    let parts = listed_units(alloc, &list.sizes)?;
    let mut others = Sequence::new(alloc);
    push_repeat(&mut others, &list.repeat)?;
    Ok(UnitList::listed(alloc, parts, others))
}

fn repeat_value(alloc: Global, repeat: ReadRepeat) -> Result<Repeat, NoMemory>
    ensures { IfOk result (λ value. value ≡ repeat_value repeat) }
{
    Ok(Repeat {
        before: repeat.before,
        auto_fit: repeat.auto_fit,
        sizes: sizes_of(alloc, repeat.sizes.as_slice())?,
        names: repeat.names,
    })
}

fn optional_repeat(alloc: Global, repeat: Option<ReadRepeat>) -> Result<Option<Repeat>, NoMemory>
    ensures { IfOk result (λ value. value ≡ option_map repeat_value repeat) }
{
    match repeat {
        Some(repeat) => Ok(Some(repeat_value(alloc, repeat)?)),
        None => Ok(None),
    }
}

/// The list without its units.
fn list_value(alloc: Global, list: ReadList) -> Result<TrackList, NoMemory>
    ensures { IfOk result (λ value. value ≡ list_value list) }
{
    let ReadList {
        sizes,
        names,
        repeat,
    } = list;
    Ok(TrackList {
        sizes: listed_sizes(alloc, &sizes)?,
        names,
        repeat: optional_repeat(alloc, repeat)?,
    })
}

/// The list as a template, and its units.
fn tracks_value(alloc: Global, list: ReadList) -> Result<(Template, UnitList), NoMemory>
    ensures { IfOk result (λ value. value ≡ tracks_value list) }
{
    let units = list_units(alloc, &list)?;
    Ok((Template::Tracks(list_value(alloc, list)?), units))
}

/// The template that the words are, with the units of its lengths: `none`, `subgrid` with sets of names, or a track
/// list (CSS Grid 2, sections 7.2 and 9).
pub fn template_of(
    alloc: Global,
    relative: bool,
    words: Words,
) -> Result<(Template, UnitList), Stop>
    ensures { Gives result (template_of relative words.entry) }
{
    if words.are(b"none") {
        return Ok((Template::Absent, UnitList::new(alloc)));
    }
    if words.begin_with(b"subgrid") {
        let (_, words) = words.first().ok_or(Stop::Bad)?;
        let names = subgrid_of(alloc, words)?;
        return Ok((Template::Subgrid(names), UnitList::new(alloc)));
    }
    let list = track_list(alloc, relative, words)?;
    Ok(tracks_value(alloc, list)?)
}

#[tactic(auto, using(crate::proofs::Joins::all_at_end))]
/// The track sizes that the words are, one after another.
fn tracks_of(alloc: Global, relative: bool, words: Words) -> Result<Sequence<Track>, Stop>
    ensures { Gives result (all_from (track_first relative) words.entry) }
{
    let mut tracks = Sequence::new(alloc);
    let mut words = words;
    while let Some((word, rest)) = words.first() {
        let (track, rest) = track_from(relative, word, rest).ok_or(Stop::Bad)?;
        tracks.push(track)?;
        words = rest;
    }
    Ok(tracks)
}

fn sizes_value(alloc: Global, tracks: &[Track]) -> Result<(Sequence<TrackFn>, UnitList), NoMemory>
    ensures { IfOk result (λ value. value ≡ sizes_value tracks.now) }
{
    let mut units = Sequence::new(alloc);
    push_units(&mut units, tracks)?;
    Ok((sizes_of(alloc, tracks)?, UnitList::of(alloc, units)))
}

/// The track sizes that the words are, one at least, with the units of their lengths: the value of `grid-auto-columns`
/// and `grid-auto-rows` (CSS Grid 2, section 7.6).
pub fn auto_tracks(
    alloc: Global,
    relative: bool,
    words: Words,
) -> Result<(Sequence<TrackFn>, UnitList), Stop>
    ensures { Gives result (auto_tracks relative words.entry) }
{
    let tracks = tracks_of(alloc, relative, words)?;
    if tracks.is_empty() {
        return Err(Stop::Bad);
    }
    Ok(sizes_value(alloc, tracks.as_slice())?)
}
