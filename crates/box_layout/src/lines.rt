//! The lines of a flex container, one after another across, and its children back in document order (CSS Flexbox 1, 9.4 and 9.6).

ghost use Rattle.std.specs.Prelude.{◌≡◌, ◌≤◌, ◌+ℤ◌, ℕ, ℤ, Bool, List, length, map, slice_range, IfOk, OnOk};
ghost use Rattle.flex_lines.specs.Lines.{AreRanges, IsRange};
ghost use Rattle.node_arena.specs.declared.number.NodeId.{NodeId};
ghost use Rattle.tree_rules.specs.Frames as rules;
ghost use Rattle.tree_rules.specs.Labels.{Label};
ghost use Rattle.box_layout.specs.Ranges.{IsFree, IsReach, IsRow, IsRows};
ghost use Rattle.box_layout.specs.Seats.{all_seats, cross_left, frame_of_seat, ordered_seats};
ghost use Rattle.box_layout.specs.Sittings.{AreGiven, container_by, flex_numbered, flex_ordered, sitting_of};

use crate::line::{gaps, moved_by_rest, seat_line, total};
use crate::seats::{Seat, frame_of_seat};
use crate::sitting::{Container, Sitting};
use inline_sizes::with_room;
use lunit::{Lu, NoMemory, Sequence, Wide};
use placing::Frame;
use std::alloc::Global;

/// What the lines leave of the cross size beside the gaps between them.
fn cross_left(flex: &Container, sizes: &[Lu]) -> Wide
    requires { length sizes.now ≤ 65536 }
    ensures value { result ≡ cross_left flex.now sizes.now }
    ensures range { IsFree result }
{
    flex.cross.wide() - gaps(flex.between, sizes.len()) - total(sizes)
}

/// Where a line starts across, by the lines before it and what it is moved by.
fn line_start(at: Wide, moved: Wide) -> Wide
    requires at { IsRows at }
    requires moved { IsFree moved }
    ensures value { result ≡ at +ℤ moved }
    ensures range { IsReach result }
{
    at + moved
}

/// What a line takes across, with the gap after it.
fn line_step(size: Lu, between: Lu) -> Wide
    ensures value { result ≡ size +ℤ between }
    ensures range { IsRow result }
{
    size.wide() + between.wide()
}

/// The children of a line.
fn line_of<'a>(children: &'a [Sitting], range: &(usize, usize)) -> &'a [Sitting]
    requires { IsRange (length children.now) range.now }
    ensures { result.now ≡ slice_range children.now range.now.0 range.now.1 }
{
    &children[range.0..range.1]
}

/// The seats of all children, line by line.
fn all_seats(
    alloc: Global,
    flex: &Container,
    sizes: &[Lu],
    ranges: &[(usize, usize)],
    children: &[Sitting],
) -> Result<Sequence<Seat>, NoMemory>
    requires few { length children.now ≤ 65536 }
    requires lines { length sizes.now ≤ 65536 }
    requires same { length sizes.now ≡ length ranges.now }
    requires ranges { AreRanges (length children.now) ranges.now }
    ensures { IfOk result (λ seats. seats ≡ all_seats flex.now sizes.now ranges.now children.now) }
{
    let free = cross_left(flex, sizes);
    let mut seats = with_room(alloc, children.len())?;
    let mut at = Wide::of(0);
    for (k, size) in sizes.iter().enumerate() {
        let moved = moved_by_rest(&flex.across, free, k, sizes.len());
        let start = line_start(at, moved);
        let line = line_of(children, &ranges[k]);
        seats = seat_line(alloc, flex, start, *size, line, seats)?;
        at = at + line_step(*size, flex.between);
    }
    Ok(seats)
}

/// Sorts seats by their numbers.
fn sort(seats: &mut Vec<Seat>) -> Result<(), NoMemory>
    ensures { OnOk result (seats.new.items ≡ ordered_seats seats.old.items) }
{
    seats.sort_by_key(|seat| seat.number)?;
    Ok(())
}

/// The frames of seats.
fn frames_of_seats(alloc: Global, seats: &[Seat]) -> Result<Sequence<Frame>, NoMemory>
    ensures { IfOk result (λ frames. frames ≡ map frame_of_seat seats.now) }
{
    let mut frames = with_room(alloc, seats.len())?;
    for seat in seats {
        frames.push(frame_of_seat(seat))?;
    }
    Ok(frames)
}

/// The frames of all children, in document order.
fn ordered_frames(
    alloc: Global,
    flex: &Container,
    sizes: &[Lu],
    ranges: &[(usize, usize)],
    children: &[Sitting],
) -> Result<Sequence<Frame>, NoMemory>
    requires few { length children.now ≤ 65536 }
    requires lines { length sizes.now ≤ 65536 }
    requires same { length sizes.now ≡ length ranges.now }
    requires ranges { AreRanges (length children.now) ranges.now }
    ensures { IfOk result
        (λ frames. frames ≡
        map frame_of_seat (ordered_seats (all_seats flex.now sizes.now ranges.now children.now))) }
{
    let mut seats = all_seats(alloc, flex, sizes, ranges, children)?.into_vec();
    sort(&mut seats)?;
    frames_of_seats(alloc, &seats)
}

/// The frames of the children of a flex container, in document order (CSS Flexbox 1, 9.4 to 9.6). `sizes` are the cross sizes of its
/// lines, and `ranges` are its lines as ranges of `children`, which stand in order-modified document order.
///
/// Where the container is that of a node, and the children those of the definition with what each is given in the inline axis, the
/// frames are the defined ones. `NoMemory` where memory is wanting.
pub fn flex_frames(
    alloc: Global,
    flex: &Container,
    sizes: &[Lu],
    ranges: &[(usize, usize)],
    children: &[Sitting],
) -> Result<Sequence<Frame>, NoMemory>
    requires few { length children.now ≤ 65536 }
    requires lines { length sizes.now ≤ 65536 }
    requires same { length sizes.now ≡ length ranges.now }
    requires ranges { AreRanges (length children.now) ranges.now }
    ensures { (column : Bool) (x : Label) (main cross : ℤ) (child : ℕ → NodeId)
        (all : List rules.Sitting) → flex.now ≡ container_by column x main cross →
        children.now ≡ map (sitting_of column cross x child) all → AreGiven column all →
        IfOk result
        (λ frames. frames ≡
        flex_ordered child (flex_numbered column x main cross sizes.now ranges.now all)) }
{
    ordered_frames(alloc, flex, sizes, ranges, children)
}
