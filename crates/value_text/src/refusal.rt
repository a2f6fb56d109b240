//! Words that make a value unsupported.

ghost use Rattle.std.specs.Prelude.{◌≡◌, false};
ghost use Rattle.track_text.specs.Unsupported.{is_one_of};
ghost use Rattle.value_text.specs.Refusals.{baselines, contents, reversed, is_percentage, refuses, refused_before, holds_refused, is_refused};

use crate::form::Refused;
use track_text::{Words, is_unsupported_before, is_unsupported_template, percentage_of};

fn is_baseline(word: &[u8]) -> bool
    ensures { result ≡ is_one_of baselines word.now }
{
    word == b"baseline".as_slice() || word == b"left".as_slice() || word == b"right".as_slice()
}

fn is_content(word: &[u8]) -> bool
    ensures { result ≡ is_one_of contents word.now }
{
    word == b"min-content".as_slice()
        || word == b"max-content".as_slice()
        || word == b"fit-content".as_slice()
}

fn is_reversed(word: &[u8]) -> bool
    ensures { result ≡ is_one_of reversed word.now }
{
    word == b"row-reverse".as_slice()
        || word == b"column-reverse".as_slice()
        || word == b"wrap-reverse".as_slice()
}

fn is_percentage(word: &[u8]) -> bool
    ensures { result ≡ is_percentage word.now }
{
    percentage_of(word).is_some()
}

/// Whether the word is one that the property refuses beside those that every property does.
fn refuses(refused: Refused, word: &[u8]) -> bool
    ensures { result ≡ refuses refused word.now }
{
    match refused {
        Refused::Nothing | Refused::Template => false,
        Refused::Baselines => is_baseline(word),
        Refused::Contents => is_content(word),
        Refused::Percentages => is_percentage(word),
        Refused::Reversed => is_reversed(word),
    }
}

/// Whether the word, before these, makes the value unsupported.
fn refused_before(relative: bool, refused: Refused, word: &[u8], words: &Words) -> bool
    ensures { result ≡ refused_before relative refused word.now words.now }
{
    is_unsupported_before(relative, word, words) || refuses(refused, word)
}

/// Whether the words hold, outside square brackets, one that makes the value unsupported.
fn holds_refused(relative: bool, refused: Refused, words: Words) -> bool
    ensures { result ≡ holds_refused false relative refused words.entry }
{
    let mut words = words;
    let mut within = false;
    while let Some((word, rest)) = words.first() {
        if within {
            within = word != b"]".as_slice();
        } else if refused_before(relative, refused, word, &rest) {
            return true;
        } else {
            within = word == b"[".as_slice();
        }
        words = rest;
    }
    false
}

/// Whether the value is unsupported.
pub(crate) fn is_refused(relative: bool, refused: Refused, words: Words) -> bool
    ensures { result ≡ is_refused relative refused words.entry }
{
    match refused {
        Refused::Template => is_unsupported_template(relative, words),
        other => holds_refused(relative, other, words),
    }
}
