ghost use Rattle.std.specs.Prelude.{◌≡◌, ◌∷◌, drop};
ghost use Rattle.std.specs.Option.{option_map};
ghost use Rattle.track_text.specs.Words.{front};
ghost use Rattle.track_text.specs.TrackSizes.{length_side, length_or_percentage, breadth_of, track_alone, minmax, minmax_after, fit_after, fit_to, track_first, is_fixed_side, is_fixed};

use crate::side::{Side, Track};
use crate::values::{flex_of, has_unit, length_in, percentage_of};
use crate::words::Words;
use lunit::Lu;
use style_types::Unit;

fn length_side(length: (Lu, Unit)) -> Side
    ensures { result ≡ length_side length }
{
    let (px, unit) = length;
    Side::Length(px, unit)
}

/// The percentage that the word is, or the length, which may be relative and may be below zero where these say so.
pub fn length_or_percentage(relative: bool, below_zero: bool, word: &[u8]) -> Option<Side>
    ensures { result ≡ length_or_percentage relative below_zero word.now }
{
    if has_unit(b"%", word) {
        Some(Side::Percent(percentage_of(word)?))
    } else {
        Some(length_side(length_in(relative, below_zero, word)?))
    }
}

/// The breadth that the word is.
fn breadth_of(relative: bool, word: &[u8]) -> Option<Side>
    ensures { result ≡ breadth_of relative word.now }
{
    if word == b"auto".as_slice() {
        return Some(Side::Auto);
    }
    if word == b"min-content".as_slice() {
        return Some(Side::MinContent);
    }
    if word == b"max-content".as_slice() {
        return Some(Side::MaxContent);
    }
    if has_unit(b"fr", word) {
        return Some(Side::Flex(flex_of(word)?));
    }
    length_or_percentage(relative, false, word)
}

/// The size of a track of one breadth.
fn track_alone(breadth: Side) -> Track
    ensures { result ≡ track_alone breadth }
{
    let least = match breadth {
        Side::Flex(_) => Side::Auto,
        other => other,
    };
    Track {
        least,
        most: breadth,
        fit: None,
    }
}

/// The size of a track of two sides, of which the least is no factor.
fn minmax(least: Side, most: Side) -> Option<Track>
    ensures { result ≡ minmax least most }
{
    match least {
        Side::Flex(_) => None,
        least => Some(Track {
            least,
            most,
            fit: None,
        }),
    }
}

/// The two sides after `minmax`, and the words after them.
fn minmax_after(relative: bool, words: Words) -> Option<(Track, Words)>
    ensures { result ≡
        option_map (λ track. (track, drop 5 words.entry)) (minmax_after relative words.entry) }
{
    let (opening, words) = words.first()?;
    let (least, words) = words.first()?;
    let (comma, words) = words.first()?;
    let (most, words) = words.first()?;
    let (close, words) = words.first()?;
    if opening != b"(".as_slice() || comma != b",".as_slice() || close != b")".as_slice() {
        return None;
    }
    let track = minmax(breadth_of(relative, least)?, breadth_of(relative, most)?)?;
    Some((track, words))
}

/// The size of a track that is fit to its content up to a breadth.
fn fit_to(breadth: Side) -> Track
    ensures { result ≡ fit_to breadth }
{
    Track {
        least: Side::Auto,
        most: Side::MaxContent,
        fit: Some(breadth),
    }
}

/// The argument after `fit-content`, and the words after it.
fn fit_after(relative: bool, words: Words) -> Option<(Track, Words)>
    ensures { result ≡
        option_map (λ track. (track, drop 3 words.entry)) (fit_after relative words.entry) }
{
    let (opening, words) = words.first()?;
    let (argument, words) = words.first()?;
    let (close, words) = words.first()?;
    if opening != b"(".as_slice() || close != b")".as_slice() {
        return None;
    }
    let breadth = length_or_percentage(relative, true, argument)?;
    Some((fit_to(breadth), words))
}

#[tactic(auto, using(crate::proofs::Fronts::sizes))]
/// The track size that a word and those after it begin with, and the words after it.
pub fn track_from<'a>(relative: bool, word: &[u8], words: Words<'a>) -> Option<(Track, Words<'a>)>
    ensures { result ≡ front (track_first relative) (word.now ∷ words.entry) }
{
    if word == b"minmax".as_slice() {
        return minmax_after(relative, words);
    }
    if word == b"fit-content".as_slice() {
        return fit_after(relative, words);
    }
    let breadth = breadth_of(relative, word)?;
    Some((track_alone(breadth), words))
}

fn is_fixed_side(breadth: Side) -> bool
    ensures { result ≡ is_fixed_side breadth }
{
    matches!(breadth, Side::Length(_, _) | Side::Percent(_))
}

/// Whether the track may stand in a list with an automatic repeat.
pub(crate) fn is_fixed(track: Track) -> bool
    ensures { result ≡ is_fixed track }
{
    is_fixed_side(track.least) || is_fixed_side(track.most)
}
