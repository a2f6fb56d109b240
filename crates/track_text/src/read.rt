//! The values of the two templates (CSS Grid 2, sections 7.2 and 9).

ghost use Rattle.std.specs.Prelude.{◌≡◌, ◌||◌, ◌&&◌};
ghost use Rattle.track_text.specs.declared.errors.ReadError.TheVariants as error;
ghost use Rattle.track_text.specs.Values.{is_relative};
ghost use Rattle.track_text.specs.Words.{words_of};
ghost use Rattle.track_text.specs.Unsupported.{is_unsupported, is_unsupported_before, is_masonry, is_one_of, automatic_counts};
ghost use Rattle.track_text.specs.Gives.{Reads, reading_of, fault_at};

use crate::errors::{ReadError, Stop};
use crate::templates::template_of;
use crate::unsupported::is_unsupported_before;
use crate::words::Words;
use std::alloc::Global;
use style_types::{Template, UnitList};
use text_scan::{Fault, Place, tokens_in};

/// The number of the fault of a value that has none of the forms.
pub const BAD_VALUE: u8 = 9;

/// The number of the fault of a value that holds a word that is unsupported.
pub const UNSUPPORTED: u8 = 11;

/// Whether the word, before these and perhaps after `subgrid`, is one that no template has.
fn is_unsupported_at(relative: bool, after_subgrid: bool, word: &[u8], words: &Words) -> bool
    ensures { result ≡
        (is_unsupported_before relative word.now words.now ||
        (is_masonry word.now || (after_subgrid && is_one_of automatic_counts word.now))) }
{
    if is_unsupported_before(relative, word, words) || word == b"masonry".as_slice() {
        return true;
    }
    after_subgrid && is_automatic_count(word)
}

fn is_automatic_count(word: &[u8]) -> bool
    ensures { result ≡ is_one_of automatic_counts word.now }
{
    word == b"auto-fill".as_slice() || word == b"auto-fit".as_slice()
}

/// Whether the words hold, outside square brackets, one that no template has.
pub fn is_unsupported_template(relative: bool, words: Words) -> bool
    ensures { result ≡ is_unsupported relative words.entry }
{
    let mut words = words;
    let mut within = false;
    let mut after_subgrid = false;
    while let Some((word, rest)) = words.first() {
        if within {
            within = word != b"]".as_slice();
        } else if is_unsupported_at(relative, after_subgrid, word, &rest) {
            return true;
        } else {
            within = word == b"[".as_slice();
            after_subgrid = after_subgrid || word == b"subgrid".as_slice();
        }
        words = rest;
    }
    false
}

/// Reads the value of `grid-template-columns` or `grid-template-rows` in a version of the language, 1 or 2: `none`, a
/// track list, or `subgrid` with sets of names (CSS Grid 2, sections 7.2 and 9), with the units of its lengths. `at` is
/// the place of its first byte.
///
/// A repeat with a number is written out. Before, in and after an automatic repeat at most 10,000 tracks each are
/// kept, with the names of their lines, and after `subgrid` 20,001 sets (own rule). In version 2 lengths may have the
/// units `em` and `rem`.
///
/// Fault 11 at `at` comes exactly where the value holds a word that is unsupported in a template, outside square
/// brackets; fault 9 at `at` exactly where it holds none and is no template; `NoMemory` where memory is wanting.
pub fn read_tracks(
    alloc: Global,
    text: &[u8],
    at: Place,
    version: u8,
) -> Result<(Template, UnitList), ReadError>
    ensures { Reads result (reading_of version at (words_of text.now)) }
{
    let tokens = tokens_in(alloc, text)?;
    let tokens = tokens.as_slice();
    let relative = is_relative(version);
    if is_unsupported_template(relative, Words::new(text, tokens)) {
        return Err(fault(UNSUPPORTED, at));
    }
    match template_of(alloc, relative, Words::new(text, tokens)) {
        Ok(template) => Ok(template),
        Err(Stop::Bad) => Err(fault(BAD_VALUE, at)),
        Err(Stop::NoMemory) => Err(ReadError::NoMemory),
    }
}

/// Whether lengths may be relative to a font size: in version 2 of the language.
pub fn is_relative(version: u8) -> bool
    ensures { result ≡ is_relative version }
{
    version == 2
}

fn fault(number: u8, place: Place) -> ReadError
    ensures { result ≡ error.Fault (fault_at number place) }
{
    ReadError::Fault(Fault { number, place })
}
