//! The tracks and the names of lines that are kept of a list: at most 10,000 tracks, with the names of their lines
//! (own rule).

ghost use Rattle.std.specs.Prelude.{◌≡◌, ◌≤◌, ◌<◌, ◌++◌, [], length, take, true, IfOk};
ghost use Rattle.track_text.specs.NameSets.{distinct};
ghost use Rattle.track_text.specs.Lines.{closed_by, open_after};
ghost use Rattle.track_text.specs.Repeats.{has_track, times};
ghost use Rattle.track_text.specs.Templates.{tracks_of, lines_of, kept_tracks, kept_names};
ghost use Rattle.track_text.specs.Kept.{trim, thin, entries_of};

use crate::entry::{Entry, Part};
use crate::parts::{has_track, is_track};
use crate::side::Track;
use lunit::{Name, NameSet, NoMemory, Sequence};
use runs::Runs;
use std::alloc::Global;
use std::collections::BTreeSet;

/// How many tracks are kept.
const MOST: usize = 10_000;

#[tactic(auto, using(crate::proofs::Holding::thinning))]
/// The entries without the names that stand before on the same line.
fn thinned(alloc: Global, entries: &[Entry]) -> Result<Sequence<Entry>, NoMemory>
    ensures { IfOk result (λ thinned. thinned ≡ thin [] entries.now) }
{
    let mut seen = BTreeSet::new(alloc);
    let mut thinned = Sequence::new(alloc);
    for entry in entries {
        match entry {
            Entry::Track(_) => {
                seen = BTreeSet::new(alloc);
                thinned.push(*entry)?;
            }
            Entry::Named(name) => {
                if seen.insert(*name)? {
                    thinned.push(*entry)?;
                }
            }
        }
    }
    Ok(thinned)
}

#[tactic(auto, using(crate::proofs::Holding::different))]
/// The names, each where it first stands.
pub(crate) fn distinct(alloc: Global, names: &[Name]) -> Result<NameSet, NoMemory>
    ensures { IfOk result (λ set. set ≡ distinct names.now) }
{
    let mut seen = BTreeSet::new(alloc);
    let mut set = NameSet::new(alloc);
    for name in names {
        if seen.insert(*name)? {
            set.push(*name)?;
        }
    }
    Ok(set)
}

/// The entries before the first track that is not kept.
fn trimmed(entries: &[Entry]) -> &[Entry]
    ensures { result.now ≡ trim 10000 entries.now }
{
    let mut left = MOST;
    let mut at = 0;
    while at < entries.len() {
        if is_track(entries[at]) {
            if left == 0 {
                return &entries[..at];
            }
            left -= 1;
        }
        at += 1;
    }
    entries
}

/// The tracks among entries.
fn tracks_of(alloc: Global, entries: &[Entry]) -> Result<Sequence<Track>, NoMemory>
    ensures { IfOk result (λ tracks. tracks ≡ tracks_of entries.now) }
{
    let mut tracks = Sequence::new(alloc);
    for entry in entries {
        if let Entry::Track(size) = entry {
            tracks.push(*size)?;
        }
    }
    Ok(tracks)
}

#[tactic(auto, using(crate::proofs::Holding::lines))]
/// The names of the lines between tracks.
fn lines_of(alloc: Global, entries: &[Entry]) -> Result<Sequence<NameSet>, NoMemory>
    ensures { IfOk result (λ lines. lines ≡ lines_of entries.now) }
{
    let mut lines = Sequence::new(alloc);
    let mut line = NameSet::new(alloc);
    for entry in entries {
        match entry {
            Entry::Track(_) => {
                lines.push(line)?;
                line = NameSet::new(alloc);
            }
            Entry::Named(name) => line.push(*name)?,
        }
    }
    lines.push(line)?;
    Ok(lines)
}

/// The kept tracks of the body of an automatic repeat, and the names of their lines.
#[derive(Drop)]
pub(crate) struct Kept {
    pub(crate) sizes: Sequence<Track>,
    pub(crate) names: Sequence<NameSet>,
}

/// What is kept of entries.
pub(crate) fn kept_of(alloc: Global, entries: &[Entry]) -> Result<Kept, NoMemory>
    ensures sizes { IfOk result (λ kept. kept.sizes ≡ kept_tracks entries.now) }
    ensures names { IfOk result (λ kept. kept.names ≡ kept_names entries.now) }
{
    let entries = thinned(alloc, trimmed(entries))?;
    Ok(Kept {
        sizes: tracks_of(alloc, entries.as_slice())?,
        names: lines_of(alloc, entries.as_slice())?,
    })
}

// ---- parts

#[tactic(auto, using(crate::proofs::Listing::tracks))]
/// The kept tracks of parts, without those of automatic repeats.
fn part_tracks(alloc: Global, parts: &[Part]) -> Result<Runs<Track>, NoMemory>
    ensures few { IfOk result (λ tracks. length tracks ≤ 10000) }
    ensures tracks { IfOk result (λ tracks. tracks ≡ kept_tracks (entries_of parts.now)) }
{
    let mut tracks = Runs::new(alloc);
    for part in parts {
        if let Part::Written(count, body) = part {
            let body = tracks_of(alloc, body.as_slice())?;
            tracks = tracks.with_times(alloc, MOST, *count, body)?;
        }
    }
    Ok(tracks)
}

#[tactic(auto, using(crate::proofs::Listing::closing))]
/// The names of the lines that entries close, and those of the line that is open after them, where these stand on the
/// line that is open before them.
fn lines_after(
    alloc: Global,
    last: Sequence<Name>,
    entries: &[Entry],
) -> Result<(Sequence<NameSet>, Sequence<Name>), NoMemory>
    ensures closed { IfOk result (λ lines. lines.0 ≡ closed_by last entries.now) }
    ensures last { IfOk result (λ lines. lines.1 ≡ open_after last entries.now) }
{
    let mut closed = Sequence::new(alloc);
    let mut line = last;
    for entry in entries {
        match entry {
            Entry::Track(_) => {
                closed.push(distinct(alloc, line.as_slice())?)?;
                line = Sequence::new(alloc);
            }
            Entry::Named(name) => line.push(*name)?,
        }
    }
    Ok((closed, line))
}

/// The kept lines that the entries so far close, and the names of the line that is open after them.
#[derive(Drop)]
struct Lines {
    closed: Runs<NameSet>,
    last: Sequence<Name>,
}

#[tactic(auto, using(crate::proofs::Listing::once))]
/// The lines after entries that stand once.
fn lines_once(alloc: Global, lines: Lines, entries: &[Entry]) -> Result<Lines, NoMemory>
    requires { length lines.closed ≤ 10001 }
    ensures few { IfOk result (λ made. length made.closed ≤ 10001) }
    ensures closed { IfOk result
        (λ made. made.closed ≡ take 10001 (lines.closed ++ closed_by lines.last entries.now)) }
    ensures last { IfOk result (λ made. made.last ≡ open_after lines.last entries.now) }
{
    let Lines { closed, last } = lines;
    let (more, last) = lines_after(alloc, last, entries)?;
    Ok(Lines {
        closed: closed.with_times(alloc, MOST + 1, 1, more)?,
        last,
    })
}

#[tactic(auto, using(crate::proofs::Listing::repeating))]
/// The lines after entries with a track that stand so many times. From the second time on each closes the same lines.
fn lines_repeated(
    alloc: Global,
    lines: Lines,
    count: u32,
    entries: &[Entry],
) -> Result<Lines, NoMemory>
    requires few { length lines.closed ≤ 10001 }
    requires some { 0 < count }
    requires track { has_track entries.now ≡ true }
    ensures few { IfOk result (λ made. length made.closed ≤ 10001) }
    ensures closed { IfOk result
        (λ made. made.closed ≡
        take 10001 (lines.closed ++ closed_by lines.last (times count entries.now))) }
    ensures last { IfOk result (λ made. made.last ≡ open_after lines.last (times count entries.now)) }
{
    let Lines { closed, last } = lines_once(alloc, lines, entries)?;
    let (more, last) = lines_after(alloc, last, entries)?;
    Ok(Lines {
        closed: closed.with_times(alloc, MOST + 1, count - 1, more)?,
        last,
    })
}

#[tactic(auto, using(crate::proofs::Listing::one_by_one))]
/// The lines after entries that stand so many times, one time after another.
fn lines_times(
    alloc: Global,
    lines: Lines,
    count: u32,
    entries: &[Entry],
) -> Result<Lines, NoMemory>
    requires { length lines.closed ≤ 10001 }
    ensures few { IfOk result (λ made. length made.closed ≤ 10001) }
    ensures closed { IfOk result
        (λ made. made.closed ≡
        take 10001 (lines.closed ++ closed_by lines.last (times count entries.now))) }
    ensures last { IfOk result (λ made. made.last ≡ open_after lines.last (times count entries.now)) }
{
    let mut lines = lines;
    let mut left = count;
    while left > 0 {
        lines = lines_once(alloc, lines, entries)?;
        left -= 1;
    }
    Ok(lines)
}

/// The lines after a part that stands so many times. A repeat has a track; what has none stands once.
fn lines_with(alloc: Global, lines: Lines, count: u32, entries: &[Entry]) -> Result<Lines, NoMemory>
    requires { length lines.closed ≤ 10001 }
    ensures few { IfOk result (λ made. length made.closed ≤ 10001) }
    ensures closed { IfOk result
        (λ made. made.closed ≡
        take 10001 (lines.closed ++ closed_by lines.last (times count entries.now))) }
    ensures last { IfOk result (λ made. made.last ≡ open_after lines.last (times count entries.now)) }
{
    if count > 1 && has_track(entries) {
        return lines_repeated(alloc, lines, count, entries);
    }
    lines_times(alloc, lines, count, entries)
}

#[tactic(auto, using(crate::proofs::Listing::lines))]
/// The lines that parts close, without those of automatic repeats, and the one that is open after them.
fn part_lines(alloc: Global, parts: &[Part]) -> Result<Lines, NoMemory>
    ensures few { IfOk result (λ made. length made.closed ≤ 10001) }
    ensures closed { IfOk result
        (λ made. made.closed ≡ take 10001 (closed_by [] (entries_of parts.now))) }
    ensures last { IfOk result (λ made. made.last ≡ open_after [] (entries_of parts.now)) }
{
    let mut lines = Lines {
        closed: Runs::new(alloc),
        last: Sequence::new(alloc),
    };
    for part in parts {
        if let Part::Written(count, body) = part {
            lines = lines_with(alloc, lines, *count, body.as_slice())?;
        }
    }
    Ok(lines)
}

#[tactic(auto, using(crate::proofs::Listing::names))]
/// The names of the kept lines of parts, without those of automatic repeats.
fn part_names(alloc: Global, parts: &[Part]) -> Result<Runs<NameSet>, NoMemory>
    ensures few { IfOk result (λ names. length names ≤ 10001) }
    ensures names { IfOk result (λ names. names ≡ kept_names (entries_of parts.now)) }
{
    let Lines { closed, last } = part_lines(alloc, parts)?;
    let mut line = Sequence::new(alloc);
    line.push(distinct(alloc, last.as_slice())?)?;
    closed.with_times(alloc, MOST + 1, 1, line)
}

/// The kept tracks of parts, and the names of their lines.
#[derive(Drop)]
pub(crate) struct KeptParts {
    pub(crate) sizes: Runs<Track>,
    pub(crate) names: Runs<NameSet>,
}

/// What is kept of the entries of parts, without those of automatic repeats. What stands many times is held once.
pub(crate) fn kept_of_parts(alloc: Global, parts: &[Part]) -> Result<KeptParts, NoMemory>
    ensures few_sizes { IfOk result (λ kept. length kept.sizes ≤ 10000) }
    ensures few_names { IfOk result (λ kept. length kept.names ≤ 10001) }
    ensures sizes { IfOk result (λ kept. kept.sizes ≡ kept_tracks (entries_of parts.now)) }
    ensures names { IfOk result (λ kept. kept.names ≡ kept_names (entries_of parts.now)) }
{
    Ok(KeptParts {
        sizes: part_tracks(alloc, parts)?,
        names: part_names(alloc, parts)?,
    })
}
