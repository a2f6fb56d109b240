//! The text of a line, word by word from its left end.

ghost use Rattle.std.specs.Prelude.{◌≡◌, ◌+◌, ◌<◌, ◌≤◌, ◌&&◌, ◌||◌, not, length, take, drop, position};
ghost use Rattle.std.specs.List.{list_all, list_any, position_or_len};
ghost use Rattle.lunit.specs.Names.{between};
ghost use Rattle.text_scan.specs.Tokens.{is_space, is_mark, is_separator, is_comment_mark, before_comment, front_length};
ghost use Rattle.track_text.specs.declared.errors.ReadError.TheVariants as error;
ghost use Rattle.track_text.specs.Gives.{Reads, fault_at};
ghost use Rattle.value_text.specs.Declarations.{place_after};
ghost use Rattle.doc_text.specs.Texts.{text_at, past, up_to, spaces_of, unindented, first_word, word_place, after_word, is_word, is_ended, trimmed, text_of, end_of};

use std::marker::Model;
use text_scan::{Fault, Line, Place};
use track_text::{BAD_VALUE, ReadError};

/// The place of so many bytes after a place; a column ends at 2^32 - 1.
pub(crate) fn place_after(at: Place, bytes: usize) -> Place
    ensures { result ≡ place_after at bytes }
{
    let column = (at.column as usize)
        .saturating_add(bytes)
        .min(4_294_967_295);
    Place {
        line: at.line,
        column: column as u32,
    }
}

pub(crate) fn fault(number: u8, place: Place) -> ReadError
    ensures { result ≡ error.Fault (fault_at number place) }
{
    ReadError::Fault(Fault { number, place })
}

fn is_mark(byte: u8) -> bool
    ensures { result ≡ is_mark byte }
{
    matches!(
        byte,
        b'{' | b'}' | b'(' | b')' | b'[' | b']' | b':' | b';' | b',' | b'/'
    )
}

/// Whether the byte is a small letter or a digit, as most bytes of words are.
fn is_plain(byte: u8) -> bool
    ensures { result ≡ (between 97 122 byte || between 48 57 byte) }
{
    byte.is_ascii_lowercase() || byte.is_ascii_digit()
}

#[tactic(auto, using(text_scan::proofs::Plain::plain_bytes))]
/// Whether the byte ends a word. Most bytes do not, and are known by two tests.
fn is_separator(byte: u8) -> bool
    ensures { result ≡ is_separator byte }
{
    if is_plain(byte) {
        return false;
    }
    byte == b' ' || is_mark(byte)
}

fn first_separator(bytes: &[u8]) -> Option<usize>
    ensures { result ≡ position is_separator bytes.now }
{
    bytes.iter().position(|byte| is_separator(*byte))
}

#[tactic(auto, using(lunit::proofs::Numerals::found_or_length))]
/// How many bytes stand before the first space or mark.
fn word_length(bytes: &[u8]) -> usize
    ensures length { result ≡ position_or_len is_separator bytes.now }
    ensures within { result ≤ length bytes.now }
{
    first_separator(bytes).unwrap_or(bytes.len())
}

#[tactic(auto, using(crate::proofs::Fronts::words))]
/// The length of the token that the bytes begin with; 0 where they begin with a space, or there are
/// none.
fn front_length(bytes: &[u8]) -> usize
    ensures length { result ≡ front_length bytes.now }
    ensures within { result ≤ length bytes.now }
{
    let length = word_length(bytes);
    if length > 0 {
        return length;
    }
    match bytes.first() {
        None => 0,
        Some(byte) if is_mark(*byte) => 1,
        Some(_) => length,
    }
}

fn first_other_than_space(bytes: &[u8]) -> Option<usize>
    ensures { result ≡ position (λ byte. not (is_space byte)) bytes.now }
{
    bytes.iter().position(|byte| *byte != b' ')
}

#[tactic(auto, using(lunit::proofs::Numerals::found_or_length))]
/// How many spaces the bytes begin with.
pub(crate) fn spaces_of(bytes: &[u8]) -> usize
    ensures spaces { result ≡ spaces_of bytes.now }
    ensures within { result ≤ length bytes.now }
{
    first_other_than_space(bytes).unwrap_or(bytes.len())
}

fn has_comment(bytes: &[u8]) -> bool
    ensures { result ≡ list_any is_comment_mark bytes.now }
{
    bytes.contains(&b'#')
}

fn first_comment_mark(bytes: &[u8]) -> Option<usize>
    ensures { result ≡ position is_comment_mark bytes.now }
{
    bytes.iter().position(|byte| *byte == b'#')
}

#[tactic(auto, using(crate::proofs::Fronts::comments))]
/// The bytes before the first `#`, or all where there is none, as in most lines.
fn before_comment(bytes: &[u8]) -> &[u8]
    ensures { result.now ≡ before_comment bytes.now }
{
    if !has_comment(bytes) {
        return bytes;
    }
    match first_comment_mark(bytes) {
        Some(at) => {
            let (front, _) = bytes.split_at(at);
            front
        }
        None => bytes,
    }
}

#[tactic(auto, using(crate::proofs::Fronts::trimming))]
/// The bytes without the spaces at their end.
fn trimmed(bytes: &[u8]) -> &[u8]
    ensures { result.now ≡ trimmed bytes.now }
{
    let mut left = bytes;
    while let Some((last, front)) = left.split_last() {
        if *last != b' ' {
            break;
        }
        left = front;
    }
    left
}

/// What is left of a line: its bytes, and the place of the first of them.
#[derive(Drop)]
pub(crate) struct Text<'a> {
    at: Place,
    bytes: &'a [u8],
}

impl<'a> Model for Text<'a> {
    ghost use Rattle.doc_text.specs.Texts.{Text, text_at};

    ghost Value = { Text };

    ghost view = { λ a. text_at a.at a.bytes.now };
}

impl<'a> Text<'a> {
    /// These bytes, of which the first stands at the place.
    pub(crate) fn new(at: Place, bytes: &'a [u8]) -> Text<'a>
        ensures { result ≡ text_at at bytes.now }
    {
        Text { at, bytes }
    }

    #[tactic(auto, unfolding(crate::specs::Texts::text_of))]
    /// The text of a line: its comment is left out, and the spaces at its end count for nothing.
    pub(crate) fn of(line: &'a Line) -> Text<'a>
        ensures { result ≡ text_of line.now }
    {
        Text {
            at: Place {
                line: line.number,
                column: 1,
            },
            bytes: trimmed(before_comment(line.bytes.as_slice())),
        }
    }

    /// This text once more.
    pub(crate) fn same(&self) -> Text<'a>
        ensures { result ≡ self.now }
    {
        Text {
            at: self.at,
            bytes: self.bytes,
        }
    }

    /// The place of the first byte.
    pub(crate) fn at(&self) -> Place
        ensures { result ≡ self.now.at }
    {
        self.at
    }

    /// The bytes.
    pub(crate) fn bytes(&self) -> &'a [u8]
        ensures { result.now ≡ self.now.bytes }
    {
        self.bytes
    }

    #[tactic(auto, unfolding(crate::specs::Texts::past))]
    /// The text up to so many of its bytes, and the text after them.
    pub(crate) fn split_at(&self, count: usize) -> (Text<'a>, Text<'a>)
        requires { count ≤ length self.now.bytes }
        ensures front { result.0 ≡ up_to count self.now }
        ensures back { result.1 ≡ past count self.now }
    {
        let (front, back) = self.bytes.split_at(count);
        let front = Text {
            at: self.at,
            bytes: front,
        };
        let back = Text {
            at: place_after(self.at, count),
            bytes: back,
        };
        (front, back)
    }

    #[tactic(auto, unfolding(crate::specs::Texts::past))]
    /// The text after its first byte, or at its end where it has none.
    pub(crate) fn without_first(&self) -> Text<'a>
        ensures { result ≡ past 1 self.now }
    {
        let (_, back) = self.bytes.split_at(self.bytes.len().min(1));
        Text {
            at: place_after(self.at, 1),
            bytes: back,
        }
    }

    /// The text without the spaces that it begins with.
    fn unindented(&self) -> Text<'a>
        ensures { result ≡ unindented self.now }
    {
        let spaces = spaces_of(self.bytes);
        let (_, back) = self.split_at(spaces);
        back
    }

    #[tactic(auto, unfolding(crate::specs::Texts::first_word, crate::specs::Texts::word_place, crate::specs::Texts::after_word))]
    /// The first token, its place, and the text after it. Where no token is left the word is empty
    /// and stands at the end.
    pub(crate) fn first(&self) -> (&'a [u8], Place, Text<'a>)
        ensures word { result.0.now ≡ first_word self.now }
        ensures place { result.1 ≡ word_place self.now }
        ensures after { result.2 ≡ after_word self.now }
    {
        let text = self.unindented();
        let at = text.at;
        let count = front_length(text.bytes);
        let (front, back) = text.split_at(count);
        (front.bytes, at, back)
    }

    /// Whether no token is left.
    pub(crate) fn is_ended(&self) -> bool
        ensures { result ≡ is_ended self.now }
    {
        let (word, _, _) = self.first();
        word.is_empty()
    }
}

/// Nothing is left, or fault 9 at what is.
pub(crate) fn end_of(text: &Text) -> Result<(), ReadError>
    ensures { Reads result (end_of text.now) }
{
    let (word, at, _) = text.first();
    if word.is_empty() {
        Ok(())
    } else {
        Err(fault(BAD_VALUE, at))
    }
}
