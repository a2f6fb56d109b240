//! The names and numbers of a line.

ghost use Rattle.std.specs.Prelude.{◌≡◌, ◌*◌, ◌≤◌, IfSome, ◌≤ℤ◌, pos};
ghost use Rattle.lunit.specs.Decimals.{read_number, IsScale};
ghost use Rattle.track_text.specs.Gives.{Reads};
ghost use Rattle.doc_text.specs.Texts.{due_at};
ghost use Rattle.doc_text.specs.Tokens.{name_of, px_of_word, size_of_word, position_of_word, index_of};
ghost use Rattle.doc_text.specs.Tokens.{times_of, name_first, size_first, position_first};
ghost use Rattle.doc_text.specs.Tokens.{index_first, times_first};

use crate::text::{Text, fault};
use lunit::{Lu, Name, NumberForm};
use text_scan::Place;
use track_text::{BAD_VALUE, ReadError, before, integer_of};

/// The number of the fault of a name of a node that is missing or is no name.
pub(crate) const BAD_NAME: u8 = 5;

fn name_of(word: &[u8]) -> Option<Name>
    ensures { result ≡ name_of word.now }
{
    Name::read(word).ok()
}

#[tactic(auto, using(track_text::proofs::Limits::within_limits))]
/// The number of px of this form that the text is.
fn units_of(form: NumberForm, text: &[u8]) -> Option<Lu>
    requires scale { IsScale form.scale }
    requires most { form.most * form.scale ≤ 67108864 }
    ensures { result ≡ read_number form text.now }
{
    let units = form.read(text)?;
    Some(Lu::of(units))
}

/// The number of px of this form that the word is, with or without `px`.
fn px_of_word(form: NumberForm, word: &[u8]) -> Option<Lu>
    requires scale { IsScale form.scale }
    requires most { form.most * form.scale ≤ 67108864 }
    ensures { result ≡ px_of_word form word.now }
{
    match before(b"px", word) {
        Some(number) => units_of(form, number),
        None => units_of(form, word),
    }
}

#[tactic(auto, unfolding(crate::specs::Tokens::size_of_word))]
/// The size of a viewport or a leaf that the word is: a number from 0 to 1,048,576 with or without
/// `px`.
pub(crate) fn size_of_word(word: &[u8]) -> Option<Lu>
    ensures { result ≡ size_of_word word.now }
{
    px_of_word(NumberForm::SIZES, word)
}

#[tactic(auto, unfolding(crate::specs::Tokens::position_of_word))]
/// The position along an axis that the word is: a number of a magnitude of at most 1,048,576 with
/// or without `px`.
fn position_of_word(word: &[u8]) -> Option<Lu>
    ensures { result ≡ position_of_word word.now }
{
    px_of_word(NumberForm::LENGTHS, word)
}

/// The index that the word is: an integer from 0 to 1,000,000.
fn index_of(word: &[u8]) -> Option<u32>
    ensures { result ≡ index_of word.now }
{
    let number = integer_of(word)?;
    if number >= 0 {
        Some(number.unsigned_abs())
    } else {
        None
    }
}

/// How many edits the word says: an integer from 1 to 1,000,000.
fn times_of(word: &[u8]) -> Option<u32>
    ensures { result ≡ times_of word.now }
{
    let number = integer_of(word)?;
    if number >= 1 {
        Some(number.unsigned_abs())
    } else {
        None
    }
}

/// The name that a word at this place is, and the text after it; fault 5 where it is none.
pub(crate) fn name_at<'a>(
    word: &[u8],
    at: Place,
    rest: Text<'a>,
) -> Result<(Name, Text<'a>), ReadError>
    ensures { Reads result (due_at 5 at rest.entry (name_of word.now)) }
{
    match name_of(word) {
        Some(name) => Ok((name, rest)),
        None => Err(fault(BAD_NAME, at)),
    }
}

/// The name that comes first, and the text after it; fault 5 where none does.
pub(crate) fn name_first<'a>(text: &Text<'a>) -> Result<(Name, Text<'a>), ReadError>
    ensures { Reads result (name_first text.now) }
{
    let (word, at, rest) = text.first();
    name_at(word, at, rest)
}

/// The size that comes first, and the text after it; fault 9 where none does.
pub(crate) fn size_first<'a>(text: &Text<'a>) -> Result<(Lu, Text<'a>), ReadError>
    ensures { Reads result (size_first text.now) }
{
    let (word, at, rest) = text.first();
    match size_of_word(word) {
        Some(size) => Ok((size, rest)),
        None => Err(fault(BAD_VALUE, at)),
    }
}

/// The position that comes first, and the text after it; fault 9 where none does.
pub(crate) fn position_first<'a>(text: &Text<'a>) -> Result<(Lu, Text<'a>), ReadError>
    ensures { Reads result (position_first text.now) }
{
    let (word, at, rest) = text.first();
    match position_of_word(word) {
        Some(position) => Ok((position, rest)),
        None => Err(fault(BAD_VALUE, at)),
    }
}

/// The index that comes first, and the text after it; fault 9 where none does.
pub(crate) fn index_first<'a>(text: &Text<'a>) -> Result<(u32, Text<'a>), ReadError>
    ensures { Reads result (index_first text.now) }
{
    let (word, at, rest) = text.first();
    match index_of(word) {
        Some(index) => Ok((index, rest)),
        None => Err(fault(BAD_VALUE, at)),
    }
}

/// The number of edits that comes first, and the text after it; fault 9 where none does.
pub(crate) fn times_first<'a>(text: &Text<'a>) -> Result<(u32, Text<'a>), ReadError>
    ensures { Reads result (times_first text.now) }
{
    let (word, at, rest) = text.first();
    match times_of(word) {
        Some(times) => Ok((times, rest)),
        None => Err(fault(BAD_VALUE, at)),
    }
}
