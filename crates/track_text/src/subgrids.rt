//! Sets of names after `subgrid` (CSS Grid 2, section 9).

ghost use Rattle.std.specs.Prelude.{◌≡◌, ◌∷◌, codes, take, IfOk};
ghost use Rattle.std.specs.Option.{option_map};
ghost use Rattle.track_text.specs.Words.{past, front, rest_up_to, all_from};
ghost use Rattle.track_text.specs.Templates.{set_first, sets_after, set_repeat_after, sets_first, sets_of, subgrid_of};
ghost use Rattle.track_text.specs.Gives.{Gives};

use crate::entry::Sets;
use crate::errors::Stop;
use crate::kept::distinct;
use crate::name_sets::names_after;
use crate::parts::count_of;
use crate::words::Words;
use lunit::{Copied, NameSet, NoMemory, Sequence};
use runs::Runs;
use std::alloc::Global;

/// How many sets are kept.
const MOST_SETS: usize = 20_001;

/// The set of names that a word and those after it begin with, and the words after it.
fn set_from<'a>(alloc: Global, word: &[u8], words: Words<'a>) -> Result<(NameSet, Words<'a>), Stop>
    ensures { Gives result (front set_first (word.now ∷ words.entry)) }
{
    if word != b"[".as_slice() {
        return Err(Stop::Bad);
    }
    let (names, words) = names_after(alloc, words)?;
    let set = distinct(alloc, names.as_slice())?;
    Ok((set, words))
}

/// The sets up to the bracket that closes a repeat, and the words after it.
fn sets_up_to<'a>(alloc: Global, words: Words<'a>) -> Result<(Sequence<NameSet>, Words<'a>), Stop>
    ensures { Gives result (rest_up_to (codes ")") set_first words.entry) }
{
    let mut sets = Sequence::new(alloc);
    let mut words = words;
    loop {
        let (word, rest) = words.first().ok_or(Stop::Bad)?;
        if word == b")".as_slice() {
            return Ok((sets, rest));
        }
        let (set, rest) = set_from(alloc, word, rest)?;
        sets.push(set)?;
        words = rest;
    }
}

/// One set or more up to the bracket that closes a repeat, and the words after it.
fn some_sets<'a>(alloc: Global, words: Words<'a>) -> Result<(Sequence<NameSet>, Words<'a>), Stop>
    ensures { Gives result (option_map (past words.entry) (sets_after words.entry)) }
{
    let (sets, words) = sets_up_to(alloc, words)?;
    if sets.is_empty() {
        return Err(Stop::Bad);
    }
    Ok((sets, words))
}

/// The arguments of `repeat` in their brackets, and the words after them.
fn repeat_from<'a>(alloc: Global, words: Words<'a>) -> Result<(Sets, Words<'a>), Stop>
    ensures { Gives result (option_map (past words.entry) (set_repeat_after words.entry)) }
{
    let (opening, words) = words.first().ok_or(Stop::Bad)?;
    let (word, words) = words.first().ok_or(Stop::Bad)?;
    let (comma, words) = words.first().ok_or(Stop::Bad)?;
    if opening != b"(".as_slice() || comma != b",".as_slice() {
        return Err(Stop::Bad);
    }
    let count = count_of(word).ok_or(Stop::Bad)?;
    let (sets, words) = some_sets(alloc, words)?;
    Ok((Sets { count, sets }, words))
}

/// The set or the repeat of sets that a word and those after it begin with, and the words after it.
fn part_from<'a>(alloc: Global, word: &[u8], words: Words<'a>) -> Result<(Sets, Words<'a>), Stop>
    ensures { Gives result (front sets_first (word.now ∷ words.entry)) }
{
    if word == b"repeat".as_slice() {
        return repeat_from(alloc, words);
    }
    let (set, words) = set_from(alloc, word, words)?;
    let mut sets = Sequence::new(alloc);
    sets.push(set)?;
    Ok((Sets { count: 1, sets }, words))
}

/// All sets and repeats of sets.
fn parts_of(alloc: Global, words: Words) -> Result<Sequence<Sets>, Stop>
    ensures { Gives result (all_from sets_first words.entry) }
{
    let mut parts = Sequence::new(alloc);
    let mut words = words;
    while let Some((word, rest)) = words.first() {
        let (part, rest) = part_from(alloc, word, rest)?;
        parts.push(part)?;
        words = rest;
    }
    Ok(parts)
}

/// The kept sets. What stands many times is held once.
fn sets_of(alloc: Global, parts: &[Sets]) -> Result<Runs<NameSet>, NoMemory>
    ensures { IfOk result (λ held. held ≡ take 20001 (sets_of parts.now)) }
{
    let mut held = Runs::new(alloc);
    for part in parts {
        if held.len() >= MOST_SETS {
            return Ok(held);
        }
        held = held.with_times(alloc, MOST_SETS, part.count, part.sets.copy(alloc)?)?;
    }
    Ok(held)
}

/// The sets of names that the words after `subgrid` are.
pub(crate) fn subgrid_of(alloc: Global, words: Words) -> Result<Runs<NameSet>, Stop>
    ensures { Gives result (subgrid_of words.entry) }
{
    let parts = parts_of(alloc, words)?;
    let held = sets_of(alloc, parts.as_slice())?;
    Ok(held)
}
