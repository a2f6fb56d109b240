//! Tracks computed part by part: what a part stands for many times is computed once.

ghost use Rattle.std.specs.Prelude.{◌≡◌, ◌≤◌, ◌++◌, length, IfOk, IfSome, IsTrue};
ghost use Rattle.runs.specs.Times.{items_of};
ghost use Rattle.style_types.specs.Computed.{computed_list, computed_with};
ghost use Rattle.style_types.specs.Parts.{breadth_lengths, fit_lengths, track_lengths, tracks_lengths, IsPartBy};

use crate::track::{Breadth, Template, TrackFn, TrackList};
use crate::unit::Unit;
use crate::unit_list::{Units, with_others};
use crate::value::Value;
use lunit::{Copied, Lu, NoMemory, Sequence};
use runs::Runs;
use std::alloc::Global;

/// How many lengths a side is.
fn breadth_lengths(breadth: Breadth) -> usize
    ensures value { result ≡ breadth_lengths breadth }
    ensures few { result ≤ 1 }
{
    match breadth {
        Breadth::Length(_) => 1,
        _ => 0,
    }
}

fn fit_lengths(fit: Option<Breadth>) -> usize
    ensures value { result ≡ fit_lengths fit }
    ensures few { result ≤ 1 }
{
    match fit {
        Some(breadth) => breadth_lengths(breadth),
        None => 0,
    }
}

/// How many lengths a track size has.
fn track_lengths(track: TrackFn) -> usize
    ensures { result ≡ track_lengths track }
{
    breadth_lengths(track.least) + breadth_lengths(track.most) + fit_lengths(track.fit)
}

#[tactic(auto, using(crate::proofs::Parts::fitting))]
/// Whether there are just so many units as tracks have lengths.
fn fits(tracks: &[TrackFn], units: usize) -> bool
    ensures { IsTrue result → (units ≡ tracks_lengths tracks.now) }
{
    let mut left = units;
    for track in tracks {
        let lengths = track_lengths(*track);
        if lengths > left {
            return false;
        }
        left -= lengths;
    }
    left == 0
}

/// The tracks of a part, once, where there are just the units of its lengths.
fn part_by(
    alloc: Global,
    em: Lu,
    rem: Lu,
    tracks: &(u32, Sequence<TrackFn>),
    units: &(u32, Sequence<Unit>),
) -> Result<Option<Sequence<TrackFn>>, NoMemory>
    ensures { IfOk result
        (λ found. IfSome found (λ made. IsPartBy em rem tracks.now units.now made)) }
{
    if tracks.0 != units.0 || !fits(tracks.1.as_slice(), units.1.len()) {
        return Ok(None);
    }
    let mut own = Units::new(units.1.as_slice());
    Ok(Some(own.tracks(alloc, em, rem, tracks.1.as_slice())?))
}

#[tactic(auto, using(crate::proofs::Parts::reading))]
/// The tracks of parts with the units of parts, where each part has just its own.
fn parts_by(
    alloc: Global,
    em: Lu,
    rem: Lu,
    tracks: &[(u32, Sequence<TrackFn>)],
    units: &[(u32, Sequence<Unit>)],
) -> Result<Option<Runs<TrackFn>>, NoMemory>
    requires { length (items_of tracks.now) ≤ 4294967296 }
    ensures { IfOk result
        (λ found. IfSome found
        (λ made. IsPartBy em rem (1, items_of tracks.now) (1, items_of units.now) made)) }
{
    if tracks.len() != units.len() {
        return Ok(None);
    }
    let mut made = Runs::new(alloc);
    for at in 0..tracks.len() {
        match part_by(alloc, em, rem, &tracks[at], &units[at])? {
            Some(body) => made = made.with(tracks[at].0, body)?,
            None => return Ok(None),
        }
    }
    Ok(Some(made))
}

#[tactic(auto, using(crate::proofs::Parts::exact))]
/// A list whose tracks outside of the automatic repeat have the units of parts, and the repeat those behind them, where each part has just its own.
fn list_by(
    alloc: Global,
    em: Lu,
    rem: Lu,
    list: &TrackList,
    parts: &Runs<Unit>,
    others: &[Unit],
) -> Result<Option<TrackList>, NoMemory>
    ensures { IfOk result
        (λ found. IfSome found
        (λ made. made ≡ computed_list em rem list.now (parts.now ++ others.now))) }
{
    let _ = list.sizes.len();
    match parts_by(alloc, em, rem, list.sizes.parts(), parts.parts())? {
        Some(sizes) => {
            let mut left = Units::new(others);
            Ok(Some(TrackList {
                sizes,
                names: list.names.copy(alloc)?,
                repeat: left.repeat(alloc, em, rem, &list.repeat)?,
            }))
        }
        None => Ok(None),
    }
}

/// A value that is a list, by its parts.
fn value_by(
    alloc: Global,
    em: Lu,
    rem: Lu,
    value: &Value,
    parts: &Runs<Unit>,
    others: &[Unit],
) -> Result<Option<Value>, NoMemory>
    ensures { IfOk result
        (λ found. IfSome found
        (λ made. made ≡ computed_with em rem value.now (parts.now ++ others.now))) }
{
    if let Value::Template(Template::Tracks(list)) = value {
        if let Some(made) = list_by(alloc, em, rem, list, parts, others)? {
            return Ok(Some(Value::Template(Template::Tracks(made))));
        }
    }
    Ok(None)
}

/// A value with the units of parts, and others behind them.
pub(crate) fn value_in_parts(
    alloc: Global,
    em: Lu,
    rem: Lu,
    value: &Value,
    parts: &Runs<Unit>,
    others: &[Unit],
) -> Result<Value, NoMemory>
    ensures { IfOk result
        (λ made. made ≡ computed_with em rem value.now (parts.now ++ others.now)) }
{
    if parts.is_empty() {
        return Units::new(others).value(alloc, em, rem, value);
    }
    if let Some(made) = value_by(alloc, em, rem, value, parts, others)? {
        return Ok(made);
    }
    let units = with_others(parts.written(alloc)?, others)?;
    Units::new(units.as_slice()).value(alloc, em, rem, value)
}
