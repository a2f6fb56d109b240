//! What the calls do with an open document.
ghost use Rattle.std.specs.Prelude.{◌≡◌, Ok, Err, Some, IfErr, IfOk};
ghost use Rattle.open_document.specs.Calls.{IsOpened, Opens};
ghost use Rattle.gridlay_c.specs.Answers.{HasEdited, HasLaidOut, TellsBoxes, TellsBoxOf, TellsChanged, TellsCount, TellsHit, TellsName, TellsPrint, TellsWritten, edit_answer, edit_fault, open_answer, open_fault};

use crate::answers::{LIMIT, LONG, MEMORY, NONE, OK, REFUSED, STALE};
use crate::rooms::{fill, fill_boxes};
use crate::told::{BoxRect, Counts, FaultAt};
use lunit::NoMemory;
use open_document::{EditError, OpenDocument, OpenError, WriteError};
use std::alloc::Global;

/// The document that a text is, in a block of its own.
pub(crate) fn open(alloc: Global, text: &[u8]) -> Result<Box<OpenDocument>, OpenError>
    ensures document { IfOk result (λ document. IsOpened text.now document.value) }
    ensures error { IfErr result (λ error. Opens text.now (Err error)) }
{
    let document = OpenDocument::open(alloc, text)?;
    match Box::new(alloc, document) {
        Ok(document) => Ok(document),
        Err(_) => Err(OpenError::NoMemory),
    }
}

/// What is answered and told where no document was opened.
pub(crate) fn not_opened(error: OpenError, fault: &mut FaultAt) -> u8
    ensures answer { result ≡ open_answer (Err error) }
    ensures fault { fault.new ≡ open_fault (Err error) }
{
    *fault = FaultAt::none();
    match error {
        OpenError::Refused(why) => {
            *fault = FaultAt::of(why);
            REFUSED
        }
        OpenError::TooLong => LIMIT,
        OpenError::NoMemory => MEMORY,
    }
}

/// Makes the edit that the line tells.
pub(crate) fn edit(document: &mut OpenDocument, line: &[u8], fault: &mut FaultAt) -> u8
    ensures { HasEdited line.now document.old document.new fault.new result }
{
    *fault = FaultAt::none();
    match document.edit(line) {
        Ok(()) => OK,
        Err(EditError::Refused(why)) => {
            *fault = FaultAt::of(why);
            REFUSED
        }
        Err(EditError::NoMemory) => MEMORY,
    }
}

/// Lays the document out, and tells what it took.
pub(crate) fn lay_out(document: &mut OpenDocument, counts: &mut Counts) -> u8
    ensures { HasLaidOut document.old document.new result }
{
    match document.layout() {
        Ok(counted) => {
            *counts = Counts {
                measured: counted.measured,
                added: counted.added,
            };
            OK
        }
        Err(NoMemory) => MEMORY,
    }
}

/// Counts the boxes.
pub(crate) fn count(document: &OpenDocument, count: &mut usize) -> u8
    ensures { TellsCount (Some document.now) count.new result }
{
    match document.boxes() {
        Some(boxes) => {
            *count = boxes.len();
            OK
        }
        None => STALE,
    }
}

/// Tells the rectangles of the boxes.
pub(crate) fn boxes(document: &OpenDocument, room: &mut [BoxRect], count: &mut usize) -> u8
    ensures { TellsBoxes (Some document.now) room.old room.new count.new result }
{
    match document.boxes() {
        Some(boxes) => fill_boxes(boxes, room, count),
        None => STALE,
    }
}

/// Tells the rectangle of the node of a name.
pub(crate) fn box_of(document: &OpenDocument, name: &[u8], found: &mut BoxRect) -> u8
    ensures { TellsBoxOf (Some document.now) name.now found.new result }
{
    if document.boxes().is_none() {
        return STALE;
    }
    match document.box_of(name) {
        Some(rect) => {
            *found = BoxRect::of(rect);
            OK
        }
        None => NONE,
    }
}

/// Tells the name of the node of the box of an index.
pub(crate) fn name(document: &OpenDocument, index: usize, room: &mut [u8], length: &mut usize) -> u8
    ensures { TellsName (Some document.now) index room.old room.new length.new result }
{
    match document.boxes() {
        Some(boxes) => match boxes.get(index) {
            Some((name, _)) => fill(name.bytes(), room, length),
            None => NONE,
        },
        None => STALE,
    }
}

/// Tells which boxes changed.
pub(crate) fn changed(document: &OpenDocument, room: &mut [usize], count: &mut usize) -> u8
    ensures { TellsChanged (Some document.now) room.old room.new count.new result }
{
    match document.changed() {
        Some(indices) => fill(indices, room, count),
        None => STALE,
    }
}

/// Tells which box is at a point.
pub(crate) fn hit(document: &mut OpenDocument, x: i64, y: i64, index: &mut usize) -> u8
    ensures same { document.new ≡ document.old }
    ensures told { TellsHit (Some document.old) x y index.new result }
{
    if document.boxes().is_none() {
        return STALE;
    }
    match document.hit(x, y) {
        Ok(Some(found)) => {
            *index = found;
            OK
        }
        Ok(None) => NONE,
        Err(NoMemory) => MEMORY,
    }
}

/// Tells the boxes as text.
pub(crate) fn print(document: &OpenDocument, room: &mut [u8], length: &mut usize) -> u8
    ensures { TellsPrint (Some document.now) room.old room.new length.new result }
{
    match document.print() {
        Ok(Some(text)) => fill(&text, room, length),
        Ok(None) => STALE,
        Err(NoMemory) => MEMORY,
    }
}

/// Tells the document as text.
pub(crate) fn write(document: &OpenDocument, room: &mut [u8], length: &mut usize) -> u8
    ensures { TellsWritten (Some document.now) room.old room.new length.new result }
{
    match document.write() {
        Ok(text) => fill(&text, room, length),
        Err(WriteError::TooLong(_)) => LONG,
        Err(WriteError::NoMemory) => MEMORY,
    }
}
