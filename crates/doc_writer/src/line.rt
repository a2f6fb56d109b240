//! The text of a line while it is written, word by word.

ghost use Rattle.std.specs.Prelude.{◌≡◌, ◌≤◌, ◌++◌, ◌∷◌, ◌*◌, [], length, take, min, OnOk};
ghost use Rattle.doc_writer.specs.Documents.{indent};
ghost use Rattle.doc_writer.specs.Spaces.{ends_joined, begins_joined, gap, last_or, put};

use lunit::NoMemory;
use std::alloc::Global;
use std::marker::Model;

/// How many bytes of a line are kept: one more than a line may have, so that a longer line is
/// known.
const KEPT: usize = 65_537;

/// The bytes of a line that are kept. Contracts see them.
#[derive(Drop)]
pub(crate) struct LineText {
    bytes: Vec<u8>,
}

impl Model for LineText {
    ghost use Rattle.std.specs.Prelude.{ℕ, List};

    ghost Value = { List ℕ };

    ghost use Rattle.std.specs.Prelude.{◌≤◌, length};

    ghost view = { λ a. a.bytes.items };

    ghost invariant = { λ a. length a.bytes.items ≤ 65537 };
}

/// Whether no space stands after the byte.
fn ends_joined(byte: u8) -> bool
    ensures { result ≡ ends_joined byte }
{
    matches!(byte, b' ' | b'(' | b'[')
}

/// Whether no space stands before the byte.
fn begins_joined(byte: u8) -> bool
    ensures { result ≡ begins_joined byte }
{
    matches!(byte, b'(' | b')' | b']' | b',' | b':' | b';')
}

/// What stands between a text that ends with this byte and the word.
fn gap(last: u8, word: &[u8]) -> &'static [u8]
    ensures { result.now ≡ gap last word.now }
{
    match word.first() {
        None => b"",
        Some(first) => {
            if ends_joined(last) || begins_joined(*first) {
                b""
            } else {
                b" "
            }
        }
    }
}

/// The first bytes, so many at most.
fn front(bytes: &[u8], most: usize) -> &[u8]
    ensures { result.now ≡ take most bytes.now }
{
    let (front, _) = bytes.split_at(bytes.len().min(most));
    front
}

#[tactic(auto, using(crate::proofs::Kept::ends))]
/// The last byte, or a space where there is none.
fn last_or_space(bytes: &[u8]) -> u8
    ensures { result ≡ last_or 32 bytes.now }
{
    match bytes.last() {
        Some(last) => *last,
        None => b' ',
    }
}

impl LineText {
    /// An empty line. Takes no memory.
    pub(crate) fn new(alloc: Global) -> LineText
        ensures { result ≡ [] }
    {
        LineText {
            bytes: Vec::new(alloc),
        }
    }

    /// The bytes that are kept.
    pub(crate) fn as_slice(&self) -> &[u8]
        ensures { result.now ≡ self.now }
    {
        self.bytes.as_slice()
    }

    #[tactic(auto, using(crate::proofs::Kept::cut_before))]
    /// Adds bytes at the end.
    fn push(&mut self, bytes: &[u8]) -> Result<(), NoMemory>
        ensures { OnOk result (self.new ≡ take 65537 (self.old ++ bytes.now)) }
    {
        let room = KEPT - self.bytes.len();
        self.bytes.extend_from_slice(front(bytes, room))?;
        Ok(())
    }

    /// Begins a line on a level, counted from 0: with two spaces for each level above.
    pub(crate) fn start(&mut self, level: usize) -> Result<(), NoMemory>
        requires { level ≤ 64 }
        ensures { OnOk result (self.new ≡ indent level) }
    {
        self.bytes.clear();
        self.bytes.resize(2 * level, b' ')?;
        Ok(())
    }

    #[tactic(auto, unfolding(crate::specs::Spaces::put), using(crate::proofs::Kept::word_put))]
    /// Adds a word, after a space where one is due.
    pub(crate) fn word(&mut self, word: &[u8]) -> Result<(), NoMemory>
        ensures { OnOk result (self.new ≡ put self.old (word.now ∷ [])) }
    {
        let gap = gap(last_or_space(&self.bytes), word);
        self.push(gap)?;
        self.push(word)
    }
}
