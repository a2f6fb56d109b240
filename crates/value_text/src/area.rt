//! The strings of `grid-template-areas` (CSS Grid 2, section 7.3).

ghost use Rattle.std.specs.Prelude.{◌≡◌, MatchOption, Some, None, IfOk, map};
ghost use Rattle.std.specs.List.{list_all};
ghost use Rattle.track_text.specs.Gives.{Gives};
ghost use Rattle.value_text.specs.AreaText.{piece_of, opened, piece, is_points, is_filled, start, going_on, cell, next_row, close, close_if, step, steps, add_cell, span_of, area_of, areas, is_whole, finish, strings_of, areas_of};

use crate::found::{Found, FoundList};
use lunit::{Area, Name, NoMemory, Sequence, Span};
use std::alloc::Global;
use style_types::Areas;
use track_text::{Stop, Words, before, line_name};

/// The strings as far as they are read.
#[derive(Drop)]
pub(crate) struct Reading {
    /// Whether a string is open.
    pub(crate) within: bool,
    /// The cells of the string so far.
    pub(crate) column: u32,
    /// The cells of the first string.
    pub(crate) columns: u32,
    /// The strings before.
    pub(crate) rows: u32,
    /// The names so far.
    pub(crate) found: FoundList,
}

/// The text of a word in a string, and whether the string ends there.
fn piece_of(text: &[u8]) -> (&[u8], bool)
    ensures { (result.0.now, result.1) ≡ piece_of text.now }
{
    match before(b"\"", text) {
        Some(front) => (front, true),
        None => (text, false),
    }
}

/// The text of a word that begins a string.
fn opened(word: &[u8]) -> Option<&[u8]>
    ensures { MatchOption result (opened word.now ≡ None)
        (λ text. opened word.now ≡ Some text.now) }
{
    match word.split_first() {
        Some((34, text)) => Some(text),
        _ => None,
    }
}

fn piece(within: bool, word: &[u8]) -> Option<(&[u8], bool)>
    ensures { MatchOption result (piece within word.now ≡ None)
        (λ p. piece within word.now ≡ Some (p.0.now, p.1)) }
{
    if within {
        return Some(piece_of(word));
    }
    let text = opened(word)?;
    Some(piece_of(text))
}

fn is_points(word: &[u8]) -> bool
    ensures { result ≡ is_points word.now }
{
    word.iter().all(|byte| *byte == b'.')
}

fn going_on(reading: Reading, column: u32) -> Reading
    ensures { result ≡ going_on reading column reading.found }
{
    Reading {
        within: true,
        column,
        columns: reading.columns,
        rows: reading.rows,
        found: reading.found,
    }
}

/// A cell of this name.
fn named_cell(reading: Reading, name: Name, column: u32) -> Result<Reading, NoMemory>
    ensures { IfOk result
        (λ next. next ≡
        going_on reading column (add_cell reading.found name reading.rows reading.column)) }
{
    let Reading {
        within: _,
        column: before,
        columns,
        rows,
        found,
    } = reading;
    Ok(Reading {
        within: true,
        column,
        columns,
        rows,
        found: found.add(name, rows, before)?,
    })
}

/// A cell with this text, or none where it is empty.
fn cell(reading: Reading, text: &[u8]) -> Result<Reading, Stop>
    ensures { Gives result (cell reading text.now) }
{
    if text.is_empty() {
        let column = reading.column;
        return Ok(going_on(reading, column));
    }
    let column = reading.column.checked_add(1).ok_or(Stop::NoMemory)?;
    if is_points(text) {
        return Ok(going_on(reading, column));
    }
    let name = line_name(text).ok_or(Stop::Bad)?;
    Ok(named_cell(reading, name, column)?)
}

fn next_row(reading: Reading, columns: u32) -> Result<Reading, NoMemory>
    ensures { IfOk result (λ next. next ≡ next_row reading columns) }
{
    let rows = reading.rows.checked_add(1).ok_or(NoMemory)?;
    Ok(Reading {
        within: false,
        column: 0,
        columns,
        rows,
        found: reading.found,
    })
}

/// The end of a string.
fn close(reading: Reading) -> Result<Reading, Stop>
    ensures { Gives result (close reading) }
{
    let column = reading.column;
    if reading.rows == 0 || column == reading.columns {
        return Ok(next_row(reading, column)?);
    }
    Err(Stop::Bad)
}

fn close_if(closes: bool, reading: Reading) -> Result<Reading, Stop>
    ensures { Gives result (close_if closes reading) }
{
    if closes { close(reading) } else { Ok(reading) }
}

fn step(reading: Reading, word: &[u8]) -> Result<Reading, Stop>
    ensures { Gives result (step reading word.now) }
{
    let (text, closes) = piece(reading.within, word).ok_or(Stop::Bad)?;
    let reading = cell(reading, text)?;
    close_if(closes, reading)
}

/// The reading after the words.
fn steps(reading: Reading, words: Words) -> Result<Reading, Stop>
    ensures { Gives result (steps reading words.entry) }
{
    let mut reading = reading;
    let mut words = words;
    while let Some((word, rest)) = words.first() {
        reading = step(reading, word)?;
        words = rest;
    }
    Ok(reading)
}

fn start(alloc: Global) -> Reading
    ensures { result ≡ start }
{
    Reading {
        within: false,
        column: 0,
        columns: 0,
        rows: 0,
        found: FoundList::new(alloc),
    }
}

/// The lines before the first and after the last of these.
fn span_of(first: u32, last: u32) -> Result<Span, NoMemory>
    ensures { IfOk result (λ span. span ≡ span_of first last) }
{
    if first >= 1 << 30 || last >= 1 << 30 {
        return Err(NoMemory);
    }
    Ok(Span {
        start: first as i32,
        end: last as i32 + 1,
    })
}

fn area_of(found: Found) -> Result<(Name, Area), NoMemory>
    ensures { IfOk result (λ area. area ≡ area_of found) }
{
    Ok((
        found.name,
        Area {
            columns: span_of(found.left, found.right)?,
            rows: span_of(found.top, found.bottom)?,
        },
    ))
}

fn named_areas(alloc: Global, found: &[Found]) -> Result<Sequence<(Name, Area)>, NoMemory>
    ensures { IfOk result (λ named. named ≡ map area_of found.now) }
{
    let mut named = Sequence::new(alloc);
    for one in found {
        named.push(area_of(*one)?)?;
    }
    Ok(named)
}

fn all_filled(found: &[Found]) -> bool
    ensures { result ≡ list_all is_filled found.now }
{
    found.iter().all(|one| one.is_filled())
}

/// Whether there is a string, none is open, and each name fills its rectangle.
fn is_whole(reading: &Reading) -> bool
    ensures { result ≡ is_whole reading.now }
{
    !reading.within && reading.rows > 0 && all_filled(reading.found.as_slice())
}

fn finish(alloc: Global, reading: &Reading) -> Result<Areas, Stop>
    ensures { Gives result (finish reading.now) }
{
    if !is_whole(reading) {
        return Err(Stop::Bad);
    }
    Ok(Areas {
        columns: reading.columns,
        rows: reading.rows,
        named: named_areas(alloc, reading.found.as_slice())?,
    })
}

fn strings_of(alloc: Global, words: Words) -> Result<Areas, Stop>
    ensures { Gives result (strings_of words.entry) }
{
    let reading = steps(start(alloc), words)?;
    finish(alloc, &reading)
}

/// The value of `grid-template-areas`: `none`, or the areas of strings.
pub(crate) fn areas_of(alloc: Global, words: Words) -> Result<Option<Areas>, Stop>
    ensures { Gives result (areas_of words.entry) }
{
    if words.are(b"none") {
        return Ok(None);
    }
    let areas = strings_of(alloc, words)?;
    Ok(Some(areas))
}
