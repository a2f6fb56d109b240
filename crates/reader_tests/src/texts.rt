//! Texts of documents and of edit lines, and what is told of them.

ghost use Rattle.std.specs.Prelude.{◌≡◌, flat_map, IfOk};

use doc_text::{Doc, Edit, ReadError, read_doc, read_edit};
use lunit::{NoMemory, Sequence};
use std::alloc::Global;
use std::test::Fail;
use text_scan::{Fault, Line, MAX_FED, Place, read_lines};

/// What is told of a text: the number of its fault with the line and the column, or [`READS`].
pub(crate) type Told = (u8, u32, u32);

/// No fault is told.
pub(crate) const READS: Told = (0, 0, 0);

/// The two header lines of version 1.
pub(crate) const HEAD: &[u8] = b"gridlay 1\nviewport 100 50\n";

/// The two header lines of version 2.
pub(crate) const HEAD_2: &[u8] = b"gridlay 2\nviewport 100 50\n";

fn one_piece(alloc: Global, text: Vec<u8>) -> Result<Vec<Sequence<u8>>, NoMemory>
    ensures { IfOk result (λ pieces. flat_map (λ piece. piece) pieces.items ≡ text.items) }
{
    let mut pieces = Vec::new(alloc);
    pieces.push(Sequence::from_vec(text))?;
    Ok(pieces)
}

/// The lines of a text.
fn lines_of(alloc: Global, text: Vec<u8>) -> Result<Sequence<Line>, Fail> {
    if text.len() > MAX_FED {
        return Err(Fail::new("a text of too many bytes"));
    }
    let pieces = one_piece(alloc, text)?;
    Ok(read_lines(alloc, &pieces)?)
}

/// Column 1 of the line after the last.
fn end_of(lines: &[Line]) -> Place {
    let line = match lines.last() {
        Some(last) => last.number.saturating_add(1),
        None => 1,
    };
    Place { line, column: 1 }
}

/// What is told of a text that is not read.
fn told(error: ReadError) -> Result<Told, Fail> {
    match error {
        ReadError::Fault(Fault { number, place }) => Ok((number, place.line, place.column)),
        ReadError::NoMemory => Err(Fail::new("want of memory")),
    }
}

fn told_of_document(read: Result<Doc, ReadError>) -> Result<Told, Fail> {
    match read {
        Ok(_) => Ok(READS),
        Err(error) => told(error),
    }
}

fn told_of_edit(read: Result<Edit, ReadError>) -> Result<Told, Fail> {
    match read {
        Ok(_) => Ok(READS),
        Err(error) => told(error),
    }
}

/// What is told of the text of a document.
pub(crate) fn document_told(alloc: Global, text: Vec<u8>) -> Result<Told, Fail> {
    let lines = lines_of(alloc, text)?;
    let end = end_of(lines.as_slice());
    told_of_document(read_doc(alloc, lines.as_slice(), end))
}

/// What is told of the text of an edit line.
pub(crate) fn edit_told(alloc: Global, version: u8, text: Vec<u8>) -> Result<Told, Fail> {
    let lines = lines_of(alloc, text)?;
    match lines.as_slice().first() {
        Some(line) => told_of_edit(read_edit(alloc, line, version)),
        None => Err(Fail::new("no line")),
    }
}
