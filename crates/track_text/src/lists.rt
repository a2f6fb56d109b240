//! Track lists: tracks and names, with one automatic repeat at most (CSS Grid 2, section 7.2).

ghost use Rattle.std.specs.Prelude.{◌≡◌, ◌&&◌, ◌++◌, ◌∷◌, [], true, MatchOption};
ghost use Rattle.std.specs.List.{list_all};
ghost use Rattle.track_text.specs.declared.entry.Part.TheVariants.{Automatic};
ghost use Rattle.track_text.specs.Words.{bind};
ghost use Rattle.track_text.specs.Repeats.{is_track};
ghost use Rattle.track_text.specs.Templates.{entry_is_fixed, all_fixed, written_out, plain_list, is_fit, automatic_list, list_of, track_list};
ghost use Rattle.track_text.specs.Kept.{is_written, entries_of, is_never, part_is_fixed};
ghost use Rattle.track_text.specs.Gives.{Gives};

use crate::entry::{Entry, Filling, Part};
use crate::errors::Stop;
use crate::kept::{kept_of, kept_of_parts};
use crate::parts::parts_of;
use crate::side::{ReadList, ReadRepeat};
use crate::track_sizes::is_fixed;
use crate::words::Words;
use std::alloc::Global;

/// An automatic repeat, between the parts before it and those after it.
#[derive(Drop)]
struct Around<'a> {
    front: &'a [Part],
    filling: Filling,
    body: &'a [Entry],
    back: &'a [Part],
}

/// The first automatic repeat among the parts; `None` exactly where there is none.
fn first_repeat(parts: &[Part]) -> Option<Around<'_>>
    ensures { MatchOption result (list_all is_written parts.now ≡ true)
        (λ s. (list_all is_written s.front.now ≡ true) ×
        (parts.now ≡ s.front.now ++ Automatic s.filling s.body.now ∷ s.back.now)) }
{
    let mut at = 0;
    while at < parts.len() {
        if let Part::Automatic(filling, body) = &parts[at] {
            return Some(Around {
                front: &parts[..at],
                filling: *filling,
                body: body.as_slice(),
                back: &parts[at + 1..],
            });
        }
        at += 1;
    }
    None
}

fn entry_is_fixed(entry: Entry) -> bool
    ensures { result ≡ entry_is_fixed entry }
{
    match entry {
        Entry::Track(size) => is_fixed(size),
        Entry::Named(_) => true,
    }
}

/// Whether each track among the entries may stand beside an automatic repeat.
fn entries_are_fixed(entries: &[Entry]) -> bool
    ensures { result ≡ all_fixed entries.now }
{
    entries.iter().all(|entry| entry_is_fixed(*entry))
}

#[tactic(auto, using(crate::proofs::TrackLists::never))]
fn is_never(count: u32) -> bool
    ensures { result ≡ is_never count }
{
    match count {
        0 => true,
        _ => false,
    }
}

fn part_is_fixed(part: &Part) -> bool
    ensures { result ≡ part_is_fixed part.now }
{
    match part {
        Part::Written(count, body) => is_never(*count) || entries_are_fixed(body.as_slice()),
        Part::Automatic(_, _) => true,
    }
}

/// Whether each track of the parts, without those of automatic repeats, may stand beside an automatic repeat.
fn parts_are_fixed(parts: &[Part]) -> bool
    ensures { result ≡ list_all part_is_fixed parts.now }
{
    parts.iter().all(|part| part_is_fixed(part))
}

fn all_written(parts: &[Part]) -> bool
    ensures { result ≡ list_all is_written parts.now }
{
    parts.iter().all(|part| matches!(part, Part::Written(_, _)))
}

/// The list of parts without an automatic repeat.
fn plain_list(alloc: Global, parts: &[Part]) -> Result<ReadList, Stop>
    ensures { Gives result (plain_list (entries_of parts.now)) }
{
    let kept = kept_of_parts(alloc, parts)?;
    if kept.sizes.is_empty() {
        return Err(Stop::Bad);
    }
    Ok(ReadList {
        sizes: kept.sizes,
        names: kept.names,
        repeat: None,
    })
}

/// Whether each track may stand beside an automatic repeat.
fn is_fixed_around(around: &Around) -> bool
    ensures { result ≡
        (list_all part_is_fixed around.now.front.now &&
        (all_fixed around.now.body.now && list_all part_is_fixed around.now.back.now)) }
{
    parts_are_fixed(around.front) && entries_are_fixed(around.body) && parts_are_fixed(around.back)
}

fn is_fit(filling: Filling) -> bool
    ensures { result ≡ is_fit filling }
{
    matches!(filling, Filling::Fit)
}

#[tactic(auto, using(crate::proofs::TrackLists::around))]
/// The list of parts around an automatic repeat.
fn automatic_list(alloc: Global, around: &Around) -> Result<ReadList, Stop>
    ensures { Gives result
        (automatic_list (entries_of around.now.front.now) around.now.filling around.now.body.now
        (entries_of around.now.back.now)) }
{
    if !is_fixed_around(around) {
        return Err(Stop::Bad);
    }
    let front = kept_of_parts(alloc, around.front)?;
    let body = kept_of(alloc, around.body)?;
    let back = kept_of_parts(alloc, around.back)?;
    let before = front.sizes.len() as u32;
    Ok(ReadList {
        sizes: front.sizes.joined(back.sizes)?,
        names: front.names.joined(back.names)?,
        repeat: Some(ReadRepeat {
            before,
            auto_fit: is_fit(around.filling),
            sizes: body.sizes,
            names: body.names,
        }),
    })
}

/// The list of parts, of which one at most may be an automatic repeat.
fn list_of(alloc: Global, parts: &[Part]) -> Result<ReadList, Stop>
    ensures { Gives result (list_of [] parts.now) }
{
    match first_repeat(parts) {
        None => plain_list(alloc, parts),
        Some(around) => {
            if !all_written(around.back) {
                return Err(Stop::Bad);
            }
            automatic_list(alloc, &around)
        }
    }
}

/// The track list that the words are.
pub(crate) fn track_list(alloc: Global, relative: bool, words: Words) -> Result<ReadList, Stop>
    ensures { Gives result (track_list relative words.entry) }
{
    let parts = parts_of(alloc, relative, words)?;
    list_of(alloc, parts.as_slice())
}
