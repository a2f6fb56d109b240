ghost use Rattle.std.specs.Prelude.{◌≡◌, ◌+◌, ◌-◌, ◌<◌, ◌≤◌, ◌↔◌, ◌++◌, ℕ, List, [], if◌then◌else◌, ◌&&◌, not, true, false, option_to_list, length, drop, Some, None, Ok, position, vec_len, IfOk, OnOk, OnErr, OnSome};
ghost use Rattle.std.specs.List.{position_or_len};
ghost use Rattle.text_scan.specs.Lines.{is_line_feed, line_of, lines_from};
ghost use Rattle.text_scan.specs.Stream.{empty_stream, fed_with, is_empty, due_length, next_line, after_next, is_line_due, lines_ahead, HasRead, Takes};
ghost use Rattle.text_scan.specs.declared.line.Line.{Line};

use crate::line::{Line, read_line};
use crate::slices::from_index;
use lunit::NoMemory;
use std::alloc::Global;
use std::marker::Model;

/// How many bytes may be fed to one [`Lines`] in all (own rule).
pub const MAX_FED: usize = 134_217_728;

/// Reads a text line by line, from pieces of any size. A line ends at a line feed or at the end of the text (own
/// rule), and however the text is cut, the lines are those of the whole text.
///
/// Contracts see it as a `Stream`: the number of the next line, the count of all bytes fed, and the bytes that are held,
/// which are those fed and not yet taken. Time is linear in the bytes: none is searched twice for a line feed, and a
/// byte is moved only when more bytes have been taken before it than are held.
#[derive(Drop)]
pub struct Lines {
    // The bytes fed, but for those that were taken and moved out.
    held: Vec<u8>,
    // The bytes before this index are taken.
    start: usize,
    // How many bytes from `start` on are known to hold no line feed.
    searched: usize,
    // The number of the next line.
    number: u32,
    // The count of all bytes fed.
    fed: usize,
}

impl Model for Lines {
    ghost use Rattle.std.specs.Prelude.{ℕ};
    ghost use Rattle.text_scan.specs.Stream.{Stream};

    ghost Value = { Stream };

    ghost use Rattle.text_scan.specs.Kept.{stream_of, IsKept};

    ghost view = { stream_of };

    ghost invariant = { IsKept };
}

impl Lines {
    /// Nothing fed yet; lines are counted from 1. Takes no memory.
    pub fn new(alloc: Global) -> Lines
        ensures empty { result ≡ empty_stream }
        ensures reads { HasRead [] [] result }
    {
        Lines {
            held: Vec::new(alloc),
            start: 0,
            searched: 0,
            number: 1,
            fed: 0,
        }
    }

    /// Adds a piece of the text behind what is held. All pieces fed to one `Lines` have at most [`MAX_FED`] bytes
    /// together. `NoMemory`, where memory is wanting, changes nothing.
    pub fn feed(&mut self, piece: &[u8]) -> Result<(), NoMemory>
        requires { self.old.fed + length piece.now ≤ 134217728 }
        ensures ok { OnOk result (self.new ≡ fed_with piece.now self.old) }
        ensures err { OnErr result (self.new ≡ self.old) }
        // The lines ahead are then those of the piece and of what comes after it.
        ensures ahead { (more : List ℕ) →
            OnOk result (lines_ahead self.new more ≡ lines_ahead self.old (piece.now ++ more)) }
        ensures reads { (fed : List ℕ) (taken : List Line) → HasRead fed taken self.old →
            OnOk result (HasRead (fed ++ piece.now) taken self.new) }
    {
        self.compact();
        self.held.extend_from_slice(piece)?;
        self.fed += piece.len();
        Ok(())
    }

    // Moves the held bytes to the front once more than half of all are taken.
    fn compact(&mut self)
        ensures { self.new ≡ self.old }
    {
        if self.start > self.held.len() - self.start {
            remove_front(&mut self.held, self.start);
            self.start = 0;
        }
    }

    /// Takes the next line out. `ended` says that the whole text was fed: then what is held is a last line, also
    /// without a line feed. `None` comes exactly where no line feed is held and, where `ended`, nothing is held.
    /// `NoMemory`, where memory is wanting, changes nothing.
    pub fn take(&mut self, ended: bool) -> Result<Option<Line>, NoMemory>
        ensures none { (result ≡ Ok None) ↔ (is_line_due ended self.old.held ≡ false) }
        ensures line { IfOk result (λ found. found ≡ next_line ended self.old) }
        ensures ok { OnOk result (self.new ≡ after_next ended self.old) }
        ensures err { OnErr result (self.new ≡ self.old) }
        // A line that is given, and then the lines ahead, are the lines that were ahead.
        ensures ahead { (more : List ℕ) → (ended ≡ true → more ≡ []) →
            IfOk result
            (λ found. option_to_list found ++ lines_ahead self.new more ≡
            lines_ahead self.old more) }
        ensures reads { (fed : List ℕ) (taken : List Line) → HasRead fed taken self.old →
            IfOk result (λ found. Takes ended fed taken found self.new) }
        ensures drained { ended ≡ true → result ≡ Ok None → self.new.held ≡ [] }
        // A line that is given leaves fewer bytes, so a loop that takes lines until none is due
        // ends.
        ensures falls { IfOk result
            (λ found. OnSome found (length self.new.held < length self.old.held)) }
    {
        self.take_due(ended)
    }

    // `take`, without the laws that follow from these clauses.
    fn take_due(&mut self, ended: bool) -> Result<Option<Line>, NoMemory>
        ensures none { (result ≡ Ok None) ↔ (is_line_due ended self.old.held ≡ false) }
        ensures line { IfOk result (λ found. found ≡ next_line ended self.old) }
        ensures ok { OnOk result (self.new ≡ after_next ended self.old) }
        ensures err { OnErr result (self.new ≡ self.old) }
    {
        let held = from_index(&self.held, self.start);
        let end = match due_length(held, self.searched, ended) {
            Some(end) => end,
            None => {
                self.searched = held.len();
                return Ok(None);
            }
        };
        self.searched = end;
        let line = read_line(*self.held.allocator(), self.number, held, end)?;
        self.start = (self.start + end + 1).min(self.held.len());
        self.searched = 0;
        self.number += 1;
        Ok(Some(line))
    }
}

/// The length of the first line of the held bytes, where one is due. The first line feed does not stand before
/// `searched`.
fn due_length(held: &[u8], searched: usize, ended: bool) -> Option<usize>
    requires { searched ≤ position_or_len is_line_feed held.now }
    ensures { result ≡ due_length ended held.now }
{
    match line_end(held, searched) {
        Some(at) => Some(at),
        None => last_length(held, ended),
    }
}

/// The length of a last line that no line feed ends.
fn last_length(held: &[u8], ended: bool) -> Option<usize>
    ensures { result ≡ (if ended && not (is_empty held.now) then Some (length held.now) else None) }
{
    if ended && !held.is_empty() {
        Some(held.len())
    } else {
        None
    }
}

/// Where the first line feed stands, which is not before `searched`.
fn line_end(bytes: &[u8], searched: usize) -> Option<usize>
    requires { searched ≤ position_or_len is_line_feed bytes.now }
    ensures { result ≡ position is_line_feed bytes.now }
{
    match first_line_feed(from_index(bytes, searched)) {
        Some(at) => Some(searched + at),
        None => None,
    }
}

fn first_line_feed(bytes: &[u8]) -> Option<usize>
    ensures { result ≡ position is_line_feed bytes.now }
{
    bytes.iter().position(|byte| *byte == b'\n')
}

/// Takes the front out, and moves each byte behind it once.
fn remove_front(bytes: &mut Vec<u8>, count: usize)
    requires { count ≤ vec_len bytes.old }
    ensures { bytes.new.items ≡ drop count bytes.old.items }
{
    let left = bytes.len() - count;
    bytes.copy_within(count.., 0);
    bytes.truncate(left);
}
