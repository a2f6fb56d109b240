ghost use Rattle.std.specs.Prelude.{◌≡◌, ◌+◌, ◌<◌, ◌≤◌, ◌↔◌, ◌||◌, [], true, length, drop, None, IfOk, position};
ghost use Rattle.std.specs.List.{list_all, position_or_len};
ghost use Rattle.lunit.specs.Names.{between};
ghost use Rattle.text_scan.specs.Tokens.{is_space, is_mark, is_separator, is_comment_mark, before_comment, front_length, tokens_from, tokens_of, is_skipped, AreTokens};

use crate::line::Line;
use crate::slices::from_index;
use lunit::NoMemory;
use std::alloc::Global;

/// The span of a token in its line's bytes: from index `start` up to, not including, `end`.
#[derive(Clone, Copy, Debug, PartialEq, Eq)]
pub struct Token {
    pub start: usize,
    pub end: usize,
}

/// The tokens of a line without a fault, in order: each mark of `{ } ( ) [ ] : ; , /`, and each longest run of bytes
/// that are neither spaces nor marks. The comment is left out first: it goes from the first `#` to the end of the
/// line, also inside quotes (own rule). Answers `NoMemory` where memory is wanting.
pub fn tokens(alloc: Global, line: &Line) -> Result<Vec<Token>, NoMemory>
    requires { line.now.fault ≡ None }
    ensures tokens { IfOk result (λ tokens. tokens.items ≡ tokens_of line.now.bytes) }
    ensures all { IfOk result (λ tokens. AreTokens (before_comment line.now.bytes) tokens.items) }
    ensures none { IfOk result (λ tokens. (tokens.items ≡ []) ↔ (is_skipped line.now ≡ true)) }
{
    let tokens = tokens_in(alloc, before_comment(line.bytes.as_slice()))?;
    Ok(tokens)
}

/// The tokens of bytes that have no comment, in order, as spans in these bytes. Answers `NoMemory` where memory is
/// wanting.
pub fn tokens_in(alloc: Global, bytes: &[u8]) -> Result<Vec<Token>, NoMemory>
    ensures { IfOk result (λ tokens. tokens.items ≡ tokens_from 0 bytes.now) }
{
    // Most tokens have two bytes or more, and a space behind them.
    let mut tokens = Vec::with_capacity(alloc, bytes.len() / 3 + 1)?;
    let mut at = 0;
    while at < bytes.len() {
        let length = front_length(bytes, at);
        if length == 0 {
            at += 1;
        } else {
            tokens.push(Token {
                start: at,
                end: at + length,
            })?;
            at += length;
        }
    }
    Ok(tokens)
}

impl Line {
    /// Whether the line is skipped: it has no fault and holds nothing but spaces and, perhaps, a comment (own rule).
    /// Takes no memory.
    pub fn is_skipped(&self) -> bool
        ensures { result ≡ is_skipped self.now }
    {
        self.fault.is_none() && is_blank(self.bytes.as_slice())
    }
}

/// The length of the token at an index, or 0 where a space stands.
fn front_length(bytes: &[u8], at: usize) -> usize
    requires { at < length bytes.now }
    ensures length { result ≡ front_length (drop at bytes.now) }
    ensures within { at + result ≤ length bytes.now }
{
    if is_mark(bytes[at]) {
        return 1;
    }
    word_length(from_index(bytes, at))
}

/// How many bytes stand before the first space or mark.
fn word_length(bytes: &[u8]) -> usize
    ensures { result ≡ position_or_len is_separator bytes.now }
{
    match first_separator(bytes) {
        Some(at) => at,
        None => bytes.len(),
    }
}

fn first_separator(bytes: &[u8]) -> Option<usize>
    ensures { result ≡ position is_separator bytes.now }
{
    bytes.iter().position(|byte| is_separator(*byte))
}

/// Whether the byte is a small letter or a digit, as most bytes of words are.
fn is_plain(byte: u8) -> bool
    ensures { result ≡ (between 97 122 byte || between 48 57 byte) }
{
    byte.is_ascii_lowercase() || byte.is_ascii_digit()
}

#[tactic(auto, using(crate::proofs::Plain::plain_bytes))]
/// Whether the byte ends a word. Most bytes do not, and are known by two tests.
fn is_separator(byte: u8) -> bool
    ensures { result ≡ is_separator byte }
{
    if is_plain(byte) {
        return false;
    }
    byte == b' ' || is_mark(byte)
}

fn is_mark(byte: u8) -> bool
    ensures { result ≡ is_mark byte }
{
    matches!(
        byte,
        b'{' | b'}' | b'(' | b')' | b'[' | b']' | b':' | b';' | b',' | b'/'
    )
}

/// The bytes before the first `#`, or all where there is none.
fn before_comment(bytes: &[u8]) -> &[u8]
    ensures { result.now ≡ before_comment bytes.now }
{
    match comment_start(bytes) {
        Some(at) => {
            let (front, _) = bytes.split_at(at);
            front
        }
        None => bytes,
    }
}

fn comment_start(bytes: &[u8]) -> Option<usize>
    ensures { result ≡ position is_comment_mark bytes.now }
{
    bytes.iter().position(|byte| *byte == b'#')
}

fn is_comment_mark(byte: u8) -> bool
    ensures { result ≡ is_comment_mark byte }
{
    byte == b'#'
}

#[tactic(auto, using(crate::proofs::Blank::blank_fronts))]
/// Whether the bytes hold nothing but spaces and, perhaps, a comment. None is looked at after the first that is no
/// space.
fn is_blank(bytes: &[u8]) -> bool
    ensures { result ≡ list_all is_space (before_comment bytes.now) }
{
    let mut left = bytes;
    while let Some((byte, rest)) = left.split_first() {
        if *byte != b' ' {
            return is_comment_mark(*byte);
        }
        left = rest;
    }
    true
}
