//! The engine for C: a document is kept behind a struct that C holds between the calls.
//!
//! Each call takes the document out of the struct, works on it and puts it back. The mark of the
//! struct says whether there is a document; it tells the truth before and after each call.
#![tactic(auto)]

ghost use Rattle.std.specs.Prelude.{◌≡◌, None};
ghost use Rattle.gridlay_c.specs.Answers.{EditsHeld, HasOpened, LaysHeld, TellsBoxes, TellsBoxOf, TellsChanged, TellsCount, TellsHit, TellsName, TellsPrint, TellsWritten};
ghost use Rattle.gridlay_c.specs.Program.{HasAnswered};
ghost use Rattle.gridlay_c.specs.Slots.{IsTrue};

mod answer;
mod answers;
mod calls;
mod handle;
mod parts;
mod rooms;
mod slot;
mod told;

use crate::answers::{CLOSED, OK};
use crate::calls::not_opened;
use crate::slot::Slot;
use crate::told::{BoxRect, Counts, FaultAt};
use std::alloc::Global;

/// Opens the document that a text is. The document that was open is let go, but where the text is
/// refused or memory is wanting it stays.
#[unsafe(no_mangle)]
pub extern "C" fn gridlay_open(
    alloc: Global,
    slot: &mut Slot,
    text: &[u8],
    fault: &mut FaultAt,
) -> u8
    requires { IsTrue slot.old }
    ensures mark { IsTrue slot.new }
    ensures opened { HasOpened text.now slot.old.handle.held slot.new.handle.held fault.new result }
{
    match calls::open(alloc, text) {
        Ok(document) => {
            drop(slot.take(alloc));
            slot.put(document);
            *fault = FaultAt::none();
            OK
        }
        Err(error) => not_opened(error, fault),
    }
}

/// Makes the edit that a line tells.
#[unsafe(no_mangle)]
pub extern "C" fn gridlay_edit(
    alloc: Global,
    slot: &mut Slot,
    line: &[u8],
    fault: &mut FaultAt,
) -> u8
    requires { IsTrue slot.old }
    ensures mark { IsTrue slot.new }
    ensures edited { EditsHeld line.now slot.old.handle.held slot.new.handle.held fault.new result }
{
    match slot.take(alloc) {
        Some(mut document) => {
            let answer = calls::edit(&mut document, line, fault);
            slot.put(document);
            answer
        }
        None => {
            *fault = FaultAt::none();
            CLOSED
        }
    }
}

/// Lays out what the edits since the last layout reach.
#[unsafe(no_mangle)]
pub extern "C" fn gridlay_layout(alloc: Global, slot: &mut Slot, counts: &mut Counts) -> u8
    requires { IsTrue slot.old }
    ensures mark { IsTrue slot.new }
    ensures laid { LaysHeld slot.old.handle.held slot.new.handle.held result }
{
    match slot.take(alloc) {
        Some(mut document) => {
            let answer = calls::lay_out(&mut document, counts);
            slot.put(document);
            answer
        }
        None => CLOSED,
    }
}

/// How many boxes there are.
#[unsafe(no_mangle)]
pub extern "C" fn gridlay_count(alloc: Global, slot: &mut Slot, count: &mut usize) -> u8
    requires { IsTrue slot.old }
    ensures mark { IsTrue slot.new }
    ensures same { slot.new.handle.held ≡ slot.old.handle.held }
    ensures told { TellsCount slot.old.handle.held count.new result }
{
    match slot.take(alloc) {
        Some(document) => {
            let answer = calls::count(&document, count);
            slot.put(document);
            answer
        }
        None => CLOSED,
    }
}

/// The rectangles of all boxes, in document order.
#[unsafe(no_mangle)]
pub extern "C" fn gridlay_boxes(
    alloc: Global,
    slot: &mut Slot,
    room: &mut [BoxRect],
    count: &mut usize,
) -> u8
    requires { IsTrue slot.old }
    ensures mark { IsTrue slot.new }
    ensures same { slot.new.handle.held ≡ slot.old.handle.held }
    ensures told { TellsBoxes slot.old.handle.held room.old room.new count.new result }
{
    match slot.take(alloc) {
        Some(document) => {
            let answer = calls::boxes(&document, room, count);
            slot.put(document);
            answer
        }
        None => CLOSED,
    }
}

/// The rectangle of the node of a name.
#[unsafe(no_mangle)]
pub extern "C" fn gridlay_box_of(
    alloc: Global,
    slot: &mut Slot,
    name: &[u8],
    found: &mut BoxRect,
) -> u8
    requires { IsTrue slot.old }
    ensures mark { IsTrue slot.new }
    ensures same { slot.new.handle.held ≡ slot.old.handle.held }
    ensures told { TellsBoxOf slot.old.handle.held name.now found.new result }
{
    match slot.take(alloc) {
        Some(document) => {
            let answer = calls::box_of(&document, name, found);
            slot.put(document);
            answer
        }
        None => CLOSED,
    }
}

/// The name of the node of the box of an index.
#[unsafe(no_mangle)]
pub extern "C" fn gridlay_name(
    alloc: Global,
    slot: &mut Slot,
    index: usize,
    room: &mut [u8],
    length: &mut usize,
) -> u8
    requires { IsTrue slot.old }
    ensures mark { IsTrue slot.new }
    ensures same { slot.new.handle.held ≡ slot.old.handle.held }
    ensures told { TellsName slot.old.handle.held index room.old room.new length.new result }
{
    match slot.take(alloc) {
        Some(document) => {
            let answer = calls::name(&document, index, room, length);
            slot.put(document);
            answer
        }
        None => CLOSED,
    }
}

/// The indices of the boxes that the layout before the last one does not have.
#[unsafe(no_mangle)]
pub extern "C" fn gridlay_changed(
    alloc: Global,
    slot: &mut Slot,
    room: &mut [usize],
    count: &mut usize,
) -> u8
    requires { IsTrue slot.old }
    ensures mark { IsTrue slot.new }
    ensures same { slot.new.handle.held ≡ slot.old.handle.held }
    ensures told { TellsChanged slot.old.handle.held room.old room.new count.new result }
{
    match slot.take(alloc) {
        Some(document) => {
            let answer = calls::changed(&document, room, count);
            slot.put(document);
            answer
        }
        None => CLOSED,
    }
}

/// The index of the last box that contains a point, in units of 1/64 px.
#[unsafe(no_mangle)]
pub extern "C" fn gridlay_hit(
    alloc: Global,
    slot: &mut Slot,
    x: i64,
    y: i64,
    index: &mut usize,
) -> u8
    requires { IsTrue slot.old }
    ensures mark { IsTrue slot.new }
    ensures same { slot.new.handle.held ≡ slot.old.handle.held }
    ensures told { TellsHit slot.old.handle.held x y index.new result }
{
    match slot.take(alloc) {
        Some(mut document) => {
            let answer = calls::hit(&mut document, x, y, index);
            slot.put(document);
            answer
        }
        None => CLOSED,
    }
}

/// What `gridlay layout` prints of the boxes.
#[unsafe(no_mangle)]
pub extern "C" fn gridlay_print(
    alloc: Global,
    slot: &mut Slot,
    room: &mut [u8],
    length: &mut usize,
) -> u8
    requires { IsTrue slot.old }
    ensures mark { IsTrue slot.new }
    ensures same { slot.new.handle.held ≡ slot.old.handle.held }
    ensures told { TellsPrint slot.old.handle.held room.old room.new length.new result }
{
    match slot.take(alloc) {
        Some(document) => {
            let answer = calls::print(&document, room, length);
            slot.put(document);
            answer
        }
        None => CLOSED,
    }
}

/// The canonical text of the document.
#[unsafe(no_mangle)]
pub extern "C" fn gridlay_write(
    alloc: Global,
    slot: &mut Slot,
    room: &mut [u8],
    length: &mut usize,
) -> u8
    requires { IsTrue slot.old }
    ensures mark { IsTrue slot.new }
    ensures same { slot.new.handle.held ≡ slot.old.handle.held }
    ensures told { TellsWritten slot.old.handle.held room.old room.new length.new result }
{
    match slot.take(alloc) {
        Some(document) => {
            let answer = calls::write(&document, room, length);
            slot.put(document);
            answer
        }
        None => CLOSED,
    }
}

/// Lets the document go, if there is one.
#[unsafe(no_mangle)]
pub extern "C" fn gridlay_close(alloc: Global, slot: &mut Slot)
    requires { IsTrue slot.old }
    ensures mark { IsTrue slot.new }
    ensures gone { slot.new.handle.held ≡ None }
{
    drop(slot.take(alloc));
}

/// What `gridlay layout` writes for an input, a document and its script. The answer is its status,
/// or that the room is too short.
#[unsafe(no_mangle)]
pub extern "C" fn gridlay_answer(
    alloc: Global,
    input: &[u8],
    room: &mut [u8],
    length: &mut usize,
) -> u8
    ensures { HasAnswered input.now room.old room.new length.new result }
{
    answer::answer(alloc, input, room, length)
}
