//! What is written into the rooms that C lends.
ghost use Rattle.std.specs.Prelude.{map};
ghost use Rattle.gridlay_c.specs.Rooms.{Fills, FillsAs};
ghost use Rattle.gridlay_c.specs.Told.{box_told};

use crate::answers::{OK, ROOM};
use crate::told::BoxRect;
use lunit::{Name, Rect};

/// Writes the front of a list that fits into the room, and counts all of it.
pub(crate) fn fill<T: Copy>(all: &[T], room: &mut [T], count: &mut usize) -> u8
    ensures { Fills all.now room.old room.new count.new result }
{
    fill_as(OK, all, room, count)
}

/// The same with what is answered where all of the list fits.
pub(crate) fn fill_as<T: Copy>(done: u8, all: &[T], room: &mut [T], count: &mut usize) -> u8
    ensures { FillsAs done all.now room.old room.new count.new result }
{
    *count = all.len();
    let front = all.len().min(room.len());
    room[..front].copy_from_slice(&all[..front]);
    if all.len() <= room.len() { done } else { ROOM }
}

/// Writes the rectangles of the first boxes that fit into the room, and counts all of them.
pub(crate) fn fill_boxes(boxes: &[(Name, Rect)], room: &mut [BoxRect], count: &mut usize) -> u8
    ensures { Fills (map (λ box. box_told box.1) boxes.now) room.old room.new count.new result }
{
    *count = boxes.len();
    let front = boxes.len().min(room.len());
    for index in 0..front {
        room[index] = BoxRect::of(boxes[index].1);
    }
    if boxes.len() <= room.len() { OK } else { ROOM }
}
