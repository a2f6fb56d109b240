//! The lines of one name.

ghost use Rattle.std.specs.Prelude.{◌≡◌, ◌<◌, ◌≤◌, ◌+◌, ◌-◌, ◌^◌, ◌++◌, ◌∷◌, ◌↔◌, ◌||◌, ◌==◌, [], ℕ, pos, neg_ℤ, ◌+ℤ◌, ◌-ℤ◌, ◌≤ℤ◌, ◌<ℤ◌, int_le, filter, get_or, max, length, slice_get, IfOk, IfSome, IsTrue, OnErr, OnOk};
ghost use Rattle.line_names.specs.Counting.{IsWide};
ghost use Rattle.line_names.specs.Indexes.{ends_before};
ghost use Rattle.line_names.specs.LineLists.{has_bit, listed};
ghost use Rattle.line_names.specs.Passing.{among, picked};

use lunit::{NoMemory, Sequence};
use std::alloc::Global;
use std::marker::Model;

// ---- bits

/// Whether the bit at a place is set.
fn has_bit(words: &[u64], place: usize) -> bool
    ensures { result ≡ has_bit words.now place }
{
    match words.get(place / 64) {
        Some(word) => (*word >> (place % 64)) & 1 == 1,
        None => false,
    }
}

/// Adds words of no bits until there are more than so many.
fn grow(words: &mut Sequence<u64>, at: usize) -> Result<(), NoMemory>
    ensures same { (place : ℕ) → has_bit words.new place ≡ has_bit words.old place }
    ensures enough { OnOk result (at < length words.new) }
{
    while words.len() <= at {
        words.push(0)?;
    }
    Ok(())
}

/// Sets the bit at a place.
fn set_bit(words: &mut Sequence<u64>, place: usize) -> Result<(), NoMemory>
    ensures set { OnOk result
        ((other : ℕ) → has_bit words.new other ≡ (has_bit words.old other || (other == place))) }
    ensures same { OnErr result ((other : ℕ) → has_bit words.new other ≡ has_bit words.old other) }
{
    grow(words, place / 64)?;
    match words.get_mut(place / 64) {
        Some(word) => *word |= 1u64 << (place % 64),
        None => {}
    }
    Ok(())
}

// ---- places

/// The line at a place, where the first bit is that of this line.
fn place_line(first: i32, place: u32) -> i64
    ensures { result ≡ first +ℤ pos place }
{
    first as i64 + place as i64
}

/// The place of a line that does not come before the first one.
fn place_at(first: i32, line: i32) -> u32
    requires { first ≤ℤ line }
    ensures { pos result ≡ line -ℤ first }
{
    (line as i64 - first as i64) as u32
}

/// The later one of two places.
fn later(one: u32, other: u32) -> u32
    ensures { result ≡ max one other }
{
    one.max(other)
}

/// A number of a line.
pub(crate) fn line_number(line: usize) -> i32
    requires { line < 2 ^ 31 }
    ensures { result ≡ pos line }
{
    line as i32
}

// ---- a part of the lines

/// Those lines of a name whose bits are set, from one place to before another one.
#[derive(Clone, Copy)]
pub(crate) struct LinesIn<'a> {
    /// The line of the first bit.
    first: i32,
    words: &'a [u64],
    start: u32,
    end: u32,
}

impl<'a> LinesIn<'a> {
    /// No lines.
    pub(crate) fn none() -> LinesIn<'a>
        ensures { listed result ≡ [] }
    {
        LinesIn {
            first: 0,
            words: &[],
            start: 0,
            end: 0,
        }
    }

    /// How many lines there are.
    pub(crate) fn len(self) -> usize
        ensures { result ≡ length (listed self.entry) }
    {
        let mut count = 0;
        for place in self.start..self.end {
            if has_bit(self.words, place as usize) {
                count += 1;
            }
        }
        count
    }

    /// The line at an index.
    pub(crate) fn at(self, index: usize) -> i64
        requires { index < length (listed self) }
        ensures value { result ≡ get_or (listed self.entry) index (pos 0) }
        ensures low { neg_ℤ (pos 2147483648) ≤ℤ result }
        ensures high { result ≤ℤ pos 8589934592 }
    {
        let mut left = index;
        for place in self.start..self.end {
            if has_bit(self.words, place as usize) {
                if left == 0 {
                    return place_line(self.first, place);
                }
                left -= 1;
            }
        }
        place_line(self.first, self.end)
    }

    /// Whether there are none.
    pub(crate) fn is_empty(self) -> bool
        ensures { IsTrue result ↔ (listed self.entry ≡ []) }
    {
        for place in self.start..self.end {
            if has_bit(self.words, place as usize) {
                return false;
            }
        }
        true
    }

    /// The number of the line that is here alone.
    pub(crate) fn only(self) -> Option<u32>
        ensures { IfSome result (λ line. listed self.entry ≡ pos line ∷ []) }
    {
        if self.len() != 1 {
            return None;
        }
        let line = self.at(0);
        if line < 0 || line > 4294967295 {
            return None;
        }
        Some(line as u32)
    }

    /// Whether a line is one of these.
    pub(crate) fn has(self, line: i64) -> bool
        requires { IsWide line }
        ensures { result ≡ among (listed self.entry) line }
    {
        let place = self.place_of(line);
        if place < self.start || place >= self.end || place_line(self.first, place) != line {
            return false;
        }
        has_bit(self.words, place as usize)
    }

    /// The place of a line: 0 for one before the first bit, and the end for one past these lines.
    fn place_of(self, line: i64) -> u32
        requires low { neg_ℤ (pos 1099511627776) ≤ℤ line }
        requires high { line ≤ℤ pos 1099511627777 }
        ensures within { result ≤ self.entry.end }
        ensures not_after { 0 < result → pos result ≤ℤ (line -ℤ self.entry.first) }
        ensures not_before { result < self.entry.end → (line -ℤ self.entry.first) ≤ℤ pos result }
    {
        let place = line - self.first as i64;
        if place <= 0 {
            return 0;
        }
        if place >= self.end as i64 {
            return self.end;
        }
        place as u32
    }

    /// Those of these lines that do not come before this one.
    pub(crate) fn from(self, low: i64) -> LinesIn<'a>
        requires { IsWide low }
        ensures { listed result ≡ filter (λ line. int_le low line) (listed self.entry) }
    {
        LinesIn {
            first: self.first,
            words: self.words,
            start: later(self.start, self.place_of(low)),
            end: self.end,
        }
    }

    /// Those of these lines that do not come after this one.
    pub(crate) fn up_to(self, high: i64) -> LinesIn<'a>
        requires { IsWide high }
        ensures { listed result ≡ filter (λ line. int_le line high) (listed self.entry) }
    {
        LinesIn {
            first: self.first,
            words: self.words,
            start: self.start,
            end: self.place_of(high + 1),
        }
    }
}

// ---- lists of lines

/// The first line of so many, or this one where there are none.
fn first_line(first: i32, count: u32, line: i32) -> i32
    ensures none { count ≡ 0 → result ≡ line }
    ensures some { 0 < count → result ≡ first }
{
    if count == 0 {
        return line;
    }
    first
}

/// The lines of a name, ascending. Contracts see the list. In memory each line from the first to the last one has a bit.
#[derive(Drop)]
pub(crate) struct LineList {
    first: i32,
    /// How many lines lie from the first to the last one; 0 where there are none.
    count: u32,
    words: Sequence<u64>,
}

impl Model for LineList {
    ghost use Rattle.std.specs.Prelude.{List, ℤ};

    ghost Value = { List ℤ };

    ghost use Rattle.line_names.specs.LineLists.{bits_in, IsLineList};

    ghost view = { λ a. bits_in a.words a.first a.count };

    ghost invariant = { λ a. IsLineList a.words a.count };
}

impl LineList {
    /// No lines.
    pub(crate) fn new(alloc: Global) -> LineList
        ensures { result ≡ [] }
    {
        LineList {
            first: 0,
            count: 0,
            words: Sequence::new(alloc),
        }
    }

    /// The list once more.
    pub(crate) fn again(&self, alloc: Global) -> Result<LineList, NoMemory>
        ensures { IfOk result (λ other. other ≡ self.now) }
    {
        Ok(LineList {
            first: self.first,
            count: self.count,
            words: Sequence::from_slice(alloc, self.words.as_slice())?,
        })
    }

    /// The lines, to be read.
    pub(crate) fn seen(&self) -> LinesIn<'_>
        ensures { listed result ≡ self.now }
    {
        LinesIn {
            first: self.first,
            words: self.words.as_slice(),
            start: 0,
            end: self.count,
        }
    }

    /// The last line.
    pub(crate) fn last(&self) -> Option<i64>
        ensures { result ≡ slice_get self.now (length self.now - 1) }
    {
        if self.count == 0 {
            return None;
        }
        Some(place_line(self.first, self.count - 1))
    }

    /// Adds a line after all others.
    pub(crate) fn push(&mut self, line: i32) -> Result<(), NoMemory>
        requires near { line <ℤ pos 2147483647 }
        requires last { IsTrue (ends_before self.old line) }
        ensures { OnOk result (self.new ≡ self.old ++ line ∷ []) }
    {
        self.first = first_line(self.first, self.count, line);
        let place = place_at(self.first, line);
        set_bit(&mut self.words, place as usize)?;
        self.count = place + 1;
        Ok(())
    }

    /// Adds a line after all others, if it is held.
    pub(crate) fn push_if(&mut self, held: bool, line: i32) -> Result<(), NoMemory>
        requires near { line <ℤ pos 2147483647 }
        requires last { IsTrue (ends_before self.old line) }
        ensures { OnOk result (self.new ≡ self.old ++ picked held line []) }
    {
        if held {
            self.push(line)?;
        }
        Ok(())
    }
}
