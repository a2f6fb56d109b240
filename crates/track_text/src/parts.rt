//! What stands in a track list: tracks, names of lines, and repeats of these (CSS Grid 2, section 7.2.3).

ghost use Rattle.std.specs.Prelude.{◌≡◌, ◌++◌, ◌∷◌, map, codes, IfOk, OnOk};
ghost use Rattle.std.specs.Option.{option_map};
ghost use Rattle.track_text.specs.declared.entry.Entry.TheVariants.{Named};
ghost use Rattle.track_text.specs.Words.{bind, past, front, rest_up_to, all_from};
ghost use Rattle.track_text.specs.NameSets.{name_first};
ghost use Rattle.track_text.specs.Repeats.{is_track, has_track, named, entry_first, joined_read, body_or_none, body_after, count_of, often_of, part_of, repeat_after, part_first};
ghost use Rattle.track_text.specs.Gives.{Gives};

use crate::entry::{Entry, Filling, Often, Part};
use crate::errors::Stop;
use crate::name_sets::names_after;
use crate::track_sizes::track_from;
use crate::values::integer_of;
use crate::words::Words;
use lunit::{Name, NoMemory, Sequence};
use std::alloc::Global;

fn entry_named(name: Name) -> Entry
    ensures { result ≡ Named name }
{
    Entry::Named(name)
}

/// The entries of these names.
fn entries_named(alloc: Global, names: &[Name]) -> Result<Sequence<Entry>, NoMemory>
    ensures { IfOk result (λ entries. entries ≡ map Named names.now) }
{
    let mut entries = Sequence::new(alloc);
    for name in names {
        let entry = entry_named(*name);
        push_all(&mut entries, &[entry])?;
    }
    Ok(entries)
}

/// Puts entries behind the entries.
fn push_all(entries: &mut Sequence<Entry>, more: &[Entry]) -> Result<(), NoMemory>
    ensures { OnOk result (entries.new ≡ entries.old ++ more.now) }
{
    for entry in more {
        entries.push(*entry)?;
    }
    Ok(())
}

/// The names of a set after `[`, and the words after the set.
fn set_from<'a>(alloc: Global, words: Words<'a>) -> Result<(Sequence<Entry>, Words<'a>), Stop>
    ensures { Gives result (option_map named (rest_up_to (codes "]") name_first words.entry)) }
{
    let (names, words) = names_after(alloc, words)?;
    let entries = entries_named(alloc, names.as_slice())?;
    Ok((entries, words))
}

/// The track size or the names of the set that a word and those after it begin with, and the words after that.
fn entry_from<'a>(
    alloc: Global,
    relative: bool,
    word: &[u8],
    words: Words<'a>,
) -> Result<(Sequence<Entry>, Words<'a>), Stop>
    ensures { Gives result (front (entry_first relative) (word.now ∷ words.entry)) }
{
    if word == b"[".as_slice() {
        return set_from(alloc, words);
    }
    let (track, words) = track_from(relative, word, words).ok_or(Stop::Bad)?;
    let mut entries = Sequence::new(alloc);
    entries.push(Entry::Track(track))?;
    Ok((entries, words))
}

/// The entries up to the bracket that closes a repeat, and the words after it.
fn entries_up_to<'a>(
    alloc: Global,
    relative: bool,
    words: Words<'a>,
) -> Result<(Sequence<Entry>, Words<'a>), Stop>
    ensures { Gives result
        (option_map joined_read (rest_up_to (codes ")") (entry_first relative) words.entry)) }
{
    let mut entries = Sequence::new(alloc);
    let mut words = words;
    loop {
        let (word, rest) = words.first().ok_or(Stop::Bad)?;
        if word == b")".as_slice() {
            return Ok((entries, rest));
        }
        let (more, rest) = entry_from(alloc, relative, word, rest)?;
        push_all(&mut entries, more.as_slice())?;
        words = rest;
    }
}

/// Whether a track size is among the entries.
pub(crate) fn has_track(entries: &[Entry]) -> bool
    ensures { result ≡ has_track entries.now }
{
    entries.iter().any(|entry| is_track(*entry))
}

pub(crate) fn is_track(entry: Entry) -> bool
    ensures { result ≡ is_track entry }
{
    matches!(entry, Entry::Track(_))
}

/// The body of a repeat, and the words after the bracket that closes it.
fn body_from<'a>(
    alloc: Global,
    relative: bool,
    words: Words<'a>,
) -> Result<(Sequence<Entry>, Words<'a>), Stop>
    ensures { Gives result (option_map (past words.entry) (body_after relative words.entry)) }
{
    let (entries, words) = entries_up_to(alloc, relative, words)?;
    if has_track(entries.as_slice()) {
        Ok((entries, words))
    } else {
        Err(Stop::Bad)
    }
}

/// How often a repeat with a number stands.
pub(crate) fn count_of(word: &[u8]) -> Option<u32>
    ensures { result ≡ count_of word.now }
{
    let number = integer_of(word)?;
    if number >= 1 && number <= 10_000 {
        Some(number as u32)
    } else {
        None
    }
}

/// How often a repeat with this first argument stands.
fn often_of(word: &[u8]) -> Option<Often>
    ensures { result ≡ often_of word.now }
{
    if word == b"auto-fill".as_slice() {
        return Some(Often::Automatic(Filling::Fill));
    }
    if word == b"auto-fit".as_slice() {
        return Some(Often::Automatic(Filling::Fit));
    }
    Some(Often::Times(count_of(word)?))
}

/// The body so often.
fn part_of(often: Often, body: Sequence<Entry>) -> Part
    ensures { result ≡ part_of often body }
{
    match often {
        Often::Times(count) => Part::Written(count, body),
        Often::Automatic(filling) => Part::Automatic(filling, body),
    }
}

/// The arguments of `repeat` in their brackets, and the words after them.
fn repeat_from<'a>(
    alloc: Global,
    relative: bool,
    words: Words<'a>,
) -> Result<(Part, Words<'a>), Stop>
    ensures { Gives result (option_map (past words.entry) (repeat_after relative words.entry)) }
{
    let (opening, words) = words.first().ok_or(Stop::Bad)?;
    let (word, words) = words.first().ok_or(Stop::Bad)?;
    let (comma, words) = words.first().ok_or(Stop::Bad)?;
    if opening != b"(".as_slice() || comma != b",".as_slice() {
        return Err(Stop::Bad);
    }
    let often = often_of(word).ok_or(Stop::Bad)?;
    let (body, words) = body_from(alloc, relative, words)?;
    Ok((part_of(often, body), words))
}

/// The part of a track list that a word and those after it begin with, and the words after that.
fn part_from<'a>(
    alloc: Global,
    relative: bool,
    word: &[u8],
    words: Words<'a>,
) -> Result<(Part, Words<'a>), Stop>
    ensures { Gives result (front (part_first relative) (word.now ∷ words.entry)) }
{
    if word == b"repeat".as_slice() {
        return repeat_from(alloc, relative, words);
    }
    let (entries, words) = entry_from(alloc, relative, word, words)?;
    Ok((Part::Written(1, entries), words))
}

/// The parts of a track list.
pub(crate) fn parts_of(alloc: Global, relative: bool, words: Words) -> Result<Sequence<Part>, Stop>
    ensures { Gives result (all_from (part_first relative) words.entry) }
{
    let mut parts = Sequence::new(alloc);
    let mut words = words;
    while let Some((word, rest)) = words.first() {
        let (part, rest) = part_from(alloc, relative, word, rest)?;
        parts.push(part)?;
        words = rest;
    }
    Ok(parts)
}
