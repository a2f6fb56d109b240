//! Words that a value may not hold because what they ask for is not supported.

ghost use Rattle.std.specs.Prelude.{◌≡◌, codes};
ghost use Rattle.std.specs.List.{list_any};
ghost use Rattle.lunit.specs.Decimals.{is_sign};
ghost use Rattle.track_text.specs.Values.{ends_in};
ghost use Rattle.track_text.specs.Unsupported.{is_one_of, wide_keywords, functions, has_unit, other_units, in_number, begins_number, is_measured, is_unsupported_before};

use crate::values::{before, has_unit};
use crate::words::Words;
use lunit::is_number;

/// Whether the word is one of the keywords that every property has.
fn is_wide(word: &[u8]) -> bool
    ensures { result ≡ is_one_of wide_keywords word.now }
{
    word == b"inherit".as_slice()
        || word == b"initial".as_slice()
        || word == b"unset".as_slice()
        || word == b"revert".as_slice()
}

fn is_function(word: &[u8]) -> bool
    ensures { result ≡ is_one_of functions word.now }
{
    word == b"calc".as_slice()
        || word == b"min".as_slice()
        || word == b"max".as_slice()
        || word == b"clamp".as_slice()
}

/// Whether the word is a number with this unit.
fn is_in(word: &[u8], unit: &[u8]) -> bool
    ensures { result ≡ has_unit word.now unit.now }
{
    match before(unit, word) {
        Some(number) => is_number(number),
        None => false,
    }
}

/// Whether the word is a number with one of the units that no version has.
fn has_other_unit(word: &[u8]) -> bool
    ensures { result ≡ list_any (has_unit word.now) other_units }
{
    is_in(word, b"ex")
        || is_in(word, b"ch")
        || is_in(word, b"vw")
        || is_in(word, b"vh")
        || is_in(word, b"vmin")
        || is_in(word, b"vmax")
        || is_in(word, b"cm")
        || is_in(word, b"mm")
        || is_in(word, b"in")
        || is_in(word, b"pt")
        || is_in(word, b"pc")
}

fn is_sign(byte: u8) -> bool
    ensures { result ≡ is_sign byte }
{
    byte == b'+' || byte == b'-'
}

fn in_number(byte: u8) -> bool
    ensures { result ≡ in_number byte }
{
    is_sign(byte) || byte.is_ascii_digit() || byte == b'.'
}

/// Whether the word begins as numbers do.
fn begins_number(word: &[u8]) -> bool
    ensures { result ≡ begins_number word.now }
{
    match word.first() {
        Some(byte) => in_number(*byte),
        None => false,
    }
}

fn is_in_px(word: &[u8]) -> bool
    ensures { result ≡ ends_in (codes "px") word.now }
{
    has_unit(b"px", word)
}

#[tactic(auto, using(crate::proofs::Suffixes::unmeasured))]
/// Whether the word is a number with one of the units that are not supported. Most words are not, by their first byte
/// or their last two.
fn is_measured(relative: bool, word: &[u8]) -> bool
    ensures { result ≡ is_measured relative word.now }
{
    if !begins_number(word) {
        return false;
    }
    if is_in_px(word) {
        return false;
    }
    if relative {
        return has_other_unit(word);
    }
    is_in(word, b"em") || is_in(word, b"rem") || has_other_unit(word)
}

/// Whether the word, before these, is one that no property has; `em` and `rem` are units where lengths may be relative.
pub fn is_unsupported_before(relative: bool, word: &[u8], words: &Words) -> bool
    ensures { result ≡ is_unsupported_before relative word.now words.now }
{
    is_wide(word) || is_measured(relative, word) || is_function(word) && words.begin_with(b"(")
}
