//! The template of an axis with its automatic repeat written out (CSS Grid 2, section 7.2.3). At most 10,000 tracks of it are kept, and the lines of these
//! (own rule).

ghost use Rattle.std.specs.Prelude.{◌≡◌, ◌≤◌, ◌<◌, ◌+◌, ◌%◌, ◌++◌, ◌∷◌, [], List, length, take, drop, slice_get, IfOk, OnOk};
ghost use Rattle.tree_rules.specs.Labels.{grid_of};
ghost use Rattle.tree_rules.specs.Templates.{Names, repeated_names, repeated_sizes, seamed, written};
ghost use Rattle.placing.specs.Axes.{grid_axis};
ghost use Rattle.placing.specs.Ranges.{IsTemplate, IsTrackList};
ghost use Rattle.placing.specs.Written.{around, list_written, names_by, sizes_by};
ghost use Rattle.std.specs.Option.{option_copied, unwrap_or};

use crate::style::track_list;
use lunit::{Copied, NameSet, NoMemory, Sequence};
use runs::Runs;
use std::alloc::Global;
use std::marker::Model;
use style_types::{Repeat, Style, TrackFn, TrackList};

/// The most tracks of a template that are kept (own rule).
const MOST_TRACKS: usize = 10_000;

// ---- lines

/// Adds these names to those of a line.
fn add_names(line: &mut NameSet, names: &NameSet) -> Result<(), NoMemory>
    ensures { OnOk result (line.new ≡ line.old ++ names.now) }
{
    for name in names.as_slice() {
        line.push(*name)?;
    }
    Ok(())
}

#[tactic(auto, using(crate::proofs::Seams::meeting))]
/// The line joins the last of these, or is the first of them.
fn meet(alloc: Global, lines: &mut Sequence<NameSet>, line: &NameSet) -> Result<(), NoMemory>
    ensures { OnOk result (lines.new ≡ seamed lines.old (line.now ∷ [])) }
{
    match lines.pop() {
        Some(mut last) => {
            add_names(&mut last, line)?;
            lines.push(last)?;
        }
        None => lines.push(line.copy(alloc)?)?,
    }
    Ok(())
}

/// Adds lines at the end.
fn add_lines(alloc: Global, lines: &mut Sequence<NameSet>, more: &[NameSet]) -> Result<(), NoMemory>
    ensures { OnOk result (lines.new ≡ lines.old ++ more.now) }
{
    for line in more {
        lines.push(line.copy(alloc)?)?;
    }
    Ok(())
}

#[tactic(auto, using(crate::proofs::Seams::joining))]
/// Joins lines to these, the first of which is the last of these.
fn join(alloc: Global, lines: &mut Sequence<NameSet>, more: &[NameSet]) -> Result<(), NoMemory>
    ensures { OnOk result (lines.new ≡ seamed lines.old more.now) }
{
    match more.split_first() {
        Some((first, rest)) => {
            meet(alloc, lines, first)?;
            add_lines(alloc, lines, rest)
        }
        None => Ok(()),
    }
}

#[tactic(auto, using(crate::proofs::Seams::repeating))]
/// Joins the lines of so many repetitions, as far as they are kept.
fn join_repeated(
    alloc: Global,
    lines: &mut Sequence<NameSet>,
    names: &[NameSet],
    count: u32,
) -> Result<(), NoMemory>
    ensures { OnOk result
        ((more : List Names) →
        take 10001 (seamed lines.new more) ≡
        take 10001 (seamed (seamed lines.old (repeated_names count names.now)) more)) }
{
    let mut left = count;
    while left > 0 {
        if lines.len() > MOST_TRACKS + 1 {
            return Ok(());
        }
        join(alloc, lines, names)?;
        left -= 1;
    }
    Ok(())
}

/// The lines that are kept.
fn kept_lines(lines: Sequence<NameSet>) -> Sequence<NameSet>
    ensures { result ≡ take 10001 lines }
{
    let mut lines = lines.into_vec();
    lines.truncate(MOST_TRACKS + 1);
    Sequence::from_vec(lines)
}

#[tactic(auto, using(crate::proofs::Seams::names_joined))]
/// The lines of so many repetitions between others.
fn lines_around(
    alloc: Global,
    before: &[NameSet],
    repeated: &[NameSet],
    count: u32,
    after: &[NameSet],
) -> Result<Sequence<NameSet>, NoMemory>
    ensures { IfOk result (λ lines. lines ≡ names_by before.now repeated.now count after.now) }
{
    let mut lines = Sequence::new(alloc);
    join(alloc, &mut lines, before)?;
    join_repeated(alloc, &mut lines, repeated, count)?;
    join(alloc, &mut lines, after)?;
    Ok(kept_lines(lines))
}

#[tactic(auto, using(std::proofs::lemmas::List::take_min, std::proofs::lemmas::List::drop_min))]
/// The first so many items, as far as there are, and those after them.
fn split<T>(items: &[T], at: usize) -> (&[T], &[T])
    ensures first { result.0.now ≡ take at items.now }
    ensures rest { result.1.now ≡ drop at items.now }
{
    items.split_at(at.min(items.len()))
}

/// The lines of a list in which an automatic repeat stands so often.
fn listed_lines(alloc: Global, list: &TrackList, count: u32) -> Result<Sequence<NameSet>, NoMemory>
    ensures { IfOk result (λ lines. lines ≡ (list_written list.now count).names) }
{
    match &list.repeat {
        Some(repeat) => {
            let names = list.names.written(alloc)?;
            let (before, after) = split(names.as_slice(), repeat.before as usize + 1);
            lines_around(alloc, before, repeat.names.as_slice(), count, after)
        }
        None => Ok(kept_lines(list.names.written(alloc)?)),
    }
}

#[tactic(auto, using(crate::proofs::Written::written_list, crate::proofs::Written::written_none))]
/// The names of the lines of a template in which the automatic repeat stands so often, from the line before its first track to the one after its last. A
/// template without a track list has no lines. `NoMemory` where memory is wanting.
pub fn lines<const AXIS: u8>(
    alloc: Global,
    style: &Style,
    count: u32,
) -> Result<Sequence<NameSet>, NoMemory>
    ensures { IfOk result
        (λ lines. lines ≡ (written (grid_axis AXIS (grid_of style.now)).template count).names) }
{
    match track_list::<AXIS>(style) {
        Some(list) => listed_lines(alloc, list, count),
        None => Ok(Sequence::new(alloc)),
    }
}

// ---- tracks

/// The sizes of the tracks of a template in which the automatic repeat stands so often. Contracts see the list. It lends the values of a style, and takes no
/// memory.
pub struct TrackSizes<'a> {
    /// The tracks outside of the repeat, where the template is a list.
    listed: Option<&'a Runs<TrackFn>>,
    /// How many of these stand before the repeat.
    before: usize,
    repeated: &'a [TrackFn],
    count: u32,
}

impl<'a> Model for TrackSizes<'a> {
    ghost use Rattle.std.specs.Prelude.{List};
    ghost use Rattle.style_types.specs.declared.track.TrackFn.{TrackFn as Size};

    ghost Value = { List Size };

    ghost use Rattle.placing.specs.Written.{sizes_of, AreFew};

    ghost view = { sizes_of };

    ghost invariant = { AreFew };
}

impl<'a> Drop for TrackSizes<'a> {
    fn drop(self) {
        let TrackSizes {
            listed: _,
            before: _,
            repeated: _,
            count: _,
        } = self;
    }
}

/// The track of this place, if there are so many.
pub(crate) fn track(tracks: &[TrackFn], at: usize) -> Option<TrackFn>
    ensures { result ≡ slice_get tracks.now at }
{
    if at < tracks.len() {
        Some(tracks[at])
    } else {
        None
    }
}

/// The place in one repetition.
pub(crate) fn place_in(length: usize, at: usize) -> usize
    requires { 0 < length }
    ensures { result ≡ at % length }
{
    at % length
}

/// The track of this place in a list.
fn track_in(list: &Runs<TrackFn>, at: usize) -> Option<TrackFn>
    ensures { result ≡ slice_get list.now at }
{
    match list.get(at) {
        Some(track) => Some(*track),
        None => None,
    }
}

/// The track of this place in a list, if there is one with so many.
fn listed_track(listed: Option<&Runs<TrackFn>>, at: usize) -> Option<TrackFn>
    ensures { result ≡ slice_get (unwrap_or (option_copied listed.entry) []) at }
{
    match listed {
        Some(list) => track_in(list, at),
        None => None,
    }
}

/// How many tracks a list has.
fn listed_count(listed: Option<&Runs<TrackFn>>) -> usize
    ensures value { result ≡ length (unwrap_or (option_copied listed.entry) []) }
    ensures few { result ≤ 4294967296 }
{
    match listed {
        Some(list) => list.len(),
        None => 0,
    }
}

#[tactic(auto, using(crate::proofs::Written::reading))]
/// The track of this place, where one repetition after another stands after so many tracks of a list.
fn written_track(
    listed: Option<&Runs<TrackFn>>,
    before: usize,
    repeated: &[TrackFn],
    count: u32,
    at: usize,
) -> Option<TrackFn>
    requires before { before ≤ length (unwrap_or (option_copied listed) []) }
    requires few { length repeated.now ≤ 10000 }
    ensures { result ≡
        slice_get
        (around before (unwrap_or (option_copied listed.entry) [])
        (repeated_sizes count repeated.now)) at }
{
    if at < before {
        return listed_track(listed, at);
    }
    let left = at - before;
    let all = count as usize * repeated.len();
    if left < all {
        return track(repeated, place_in(repeated.len(), left));
    }
    listed_track(listed, at - all)
}

/// The track of this place, where one repetition after another stands after so many tracks of a list, if it is among
/// the tracks that are kept.
fn kept_track(
    listed: Option<&Runs<TrackFn>>,
    before: usize,
    repeated: &[TrackFn],
    count: u32,
    at: usize,
) -> Option<TrackFn>
    requires before { before ≤ length (unwrap_or (option_copied listed) []) }
    requires few { length repeated.now ≤ 10000 }
    ensures { result ≡
        slice_get
        (sizes_by before (unwrap_or (option_copied listed.entry) []) count repeated.now) at }
{
    if at < MOST_TRACKS {
        written_track(listed, before, repeated, count, at)
    } else {
        None
    }
}

impl<'a> TrackSizes<'a> {
    /// No tracks.
    fn none() -> TrackSizes<'a>
        ensures { result ≡ [] }
    {
        TrackSizes {
            listed: None,
            before: 0,
            repeated: &[],
            count: 0,
        }
    }

    #[tactic(auto, using(crate::proofs::Written::listing))]
    /// The tracks of a list in which an automatic repeat stands so often.
    fn listed(list: &'a TrackList, count: u32) -> TrackSizes<'a>
        requires { IsTrackList list.now }
        ensures { result ≡ (list_written list.now count).sizes }
    {
        match &list.repeat {
            Some(repeat) => TrackSizes {
                listed: Some(&list.sizes),
                before: (repeat.before as usize).min(list.sizes.len()),
                repeated: repeat.sizes.as_slice(),
                count,
            },
            None => TrackSizes {
                listed: Some(&list.sizes),
                before: 0,
                repeated: &[],
                count: 0,
            },
        }
    }

    #[tactic(auto, using(crate::proofs::Written::written_list, crate::proofs::Written::written_none, crate::proofs::Written::list_is))]
    /// The tracks of the template of a style in which the automatic repeat stands so often.
    pub fn of<const AXIS: u8>(style: &'a Style, count: u32) -> TrackSizes<'a>
        requires { IsTemplate (grid_axis AXIS (grid_of style.now)).template }
        ensures { result ≡ (written (grid_axis AXIS (grid_of style.now)).template count).sizes }
    {
        match track_list::<AXIS>(style) {
            Some(list) => TrackSizes::listed(list, count),
            None => TrackSizes::none(),
        }
    }

    #[tactic(auto, using(crate::proofs::Written::count_kept))]
    /// How many tracks there are.
    pub fn len(&self) -> usize
        ensures value { result ≡ length self.now }
        ensures few { result ≤ 10000 }
    {
        (listed_count(self.listed) + self.count as usize * self.repeated.len()).min(MOST_TRACKS)
    }

    /// The size of the track of this place, from 0; `None` exactly where there are not so many.
    pub fn get(&self, at: usize) -> Option<TrackFn>
        ensures { result ≡ slice_get self.now at }
    {
        kept_track(self.listed, self.before, self.repeated, self.count, at)
    }
}
