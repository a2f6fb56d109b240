//! The walk down the tree on the way of the boxes: each container is asked once for its frames, and the seat of each child is handed
//! down, so that a context is made at most once a grid, and only where a child is a subgrid of it.

ghost use Rattle.std.specs.Prelude.{◌≡◌, ◌≤◌, ◌<◌, false, true, length, map, Contains, IfSome, OnOk, OnErr, OnSome};
ghost use Rattle.node_arena.specs.Numbers.{IsDistinct};
ghost use Rattle.placing.specs.Children.{IsNext, IsTree};
ghost use Rattle.placing.specs.Kept.{frame_of};
ghost use Rattle.placing.specs.Nodes.{bare, children_at, level_at, sight_at, IsLive};
ghost use Rattle.placing.specs.declared.contexts.Above.TheVariants as over;
ghost use Rattle.placing.specs.declared.node.Frame.{Frame as NodeFrame};
ghost use Rattle.tree_rules.specs.Queries.{is_container, Fits};
ghost use Rattle.walker.specs.Walkers.{nodes, seen, HasSeat, SameParts, Stands};
ghost use Rattle.box_layout.specs.Asking.{frames_asked};
ghost use Rattle.box_layout.specs.Beneath.{IsSeatTo, pairs_to};
ghost use Rattle.box_layout.specs.Boxed.{FitsFrames, IsBoxed, IsChildBoxed, IsNearSpot, IsQuietBelow, IsQuietChild, SameSinks, StillFound, asked_in, asked_to, boxes_at, boxes_in, boxes_to};
ghost use Rattle.box_layout.specs.BoxesSeen.{AreNear, reach};
ghost use Rattle.box_layout.specs.LastBoxes.{AddsFew, AreClose, IsClose};
ghost use Rattle.box_layout.specs.Paths.{IsChildPart, IsLaidPart};
ghost use Rattle.box_layout.specs.Ranges.{IsWithin};
ghost use Rattle.box_layout.specs.Stands.{IsGivenNear};

use crate::child_seats::{ChildSeats, above_for, area_for, is_lower, pairs_for, seats_below};
use crate::frames::moved_by;
use crate::framing::frames_at;
use crate::last_boxes::{Few, LastBoxes, hand_over, is_close, tell};
use crate::laws::{frames_fit_below, frames_stand_near, frames_tell_subgrids};
use crate::spot::{Boxes, Spot};
use crate::told::BoxSink;
use lunit::{Name, NoMemory, Rect};
use node_arena::{Arena, NodeId};
use outside::{Ruler, Tally};
use placing::{Above, Frame, Node, NodeKind, node_at, root};
use std::sync::ledger::Ledger;
use tree_rules::boxes_move_along;
use walker::{Seat, Walker};

/// Whether a node can have children.
fn is_container(kind: &NodeKind) -> bool
    ensures { result ≡ is_container kind.now }
{
    match kind {
        NodeKind::Grid => true,
        NodeKind::Flex => true,
        NodeKind::Leaf(_) => false,
    }
}

/// The child of a node that the frame of an index among its children's frames is of.
fn child_of_frame(tree: &Arena<Node>, id: NodeId, frames: &[Frame], index: usize) -> NodeId
    requires tree { IsTree (bare tree.now.tree) }
    requires children { map (λ (f : NodeFrame). f.child) frames.now ≡
        children_at (bare tree.now.tree) id }
    requires index { index < length frames.now }
    ensures { IsNext (bare tree.now.tree) id index result }
{
    frames[index].child
}

/// No two nodes of an arena have one number.
fn differ(tree: &Arena<Node>) -> NodeId
    ensures { IsDistinct (bare tree.now.tree) }
{
    tree.root()
}

/// The boxes of the container that has this frame and this border box, as they were found last by the same question, its own first;
/// `None` where they are not kept, or may no longer hold.
fn found_boxes<'a>(
    last: &'a LastBoxes,
    tally: &Tally,
    id: NodeId,
    reps: &[(u32, u32)],
    frame: &Frame,
    rect: &Rect,
) -> Option<&'a [(Name, Rect)]>
    ensures found { IfSome result
        (λ boxes. Contains last.now
        (record {
          id = id;
          query = frames_asked reps.now frame.now.inline frame.now.block;
          boxes =
              boxes.now;
        })) }
    ensures close { IfSome result (λ boxes. AreClose boxes.now) }
    ensures own { OnSome result (IsClose rect.now) }
    ensures lasts { OnSome result (tally.now.lost ≡ false) }
{
    if tally.lost || !is_close(rect) {
        return None;
    }
    last.find(id, reps, &frame.inline, &frame.block)
}

#[cycle(boxes)]
/// The box of the child of an index at this spot, and the boxes below it, are put after others, as `boxes_of` says. Those of a
/// container that were found last are handed over as they were, where they still hold; else they are kept, where they are few. Where it
/// stands below a grid that it is a subgrid of is looked at where it is a container alone. It is called in one place, so that it is put
/// in line there: a leaf costs no call.
fn child_boxes<T: BoxSink, R: Ruler, L: Ledger>(
    walk: &mut Walker<R, L>,
    id: NodeId,
    seats: &ChildSeats,
    index: usize,
    nothing: &Above,
    spot: &Spot<'_>,
    few: &mut Few,
    out: &mut Boxes<'_, T>,
) -> Result<(), NoMemory>
    requires stands { Stands walk.old }
    requires live { IsLive (nodes walk.old) id }
    requires reps { length (pairs_to seats.now (frame_of spot.now.frame.now)) ≡
        length (sight_at (nodes walk.old) id).chain }
    requires seat { IsSeatTo (nodes walk.old) id seats.now index (frame_of spot.now.frame.now) }
    requires nothing { nothing.now ≡ over.Nothing }
    requires fits { FitsFrames (nodes walk.old) id (asked_to seats.now spot.now.frame.now) }
    requires level { 1 ≤ level_at (nodes walk.old) id }
    requires near { IsNearSpot (level_at (nodes walk.old) id) spot.now }
    requires last { StillFound (nodes walk.old) walk.old out.old }
    ensures value { OnOk result
        (T.adds out.old.told.now out.new.told.now
        (boxes_to (nodes walk.old) id seats.now spot.now)) }
    ensures near { OnOk result (AreNear (boxes_to (nodes walk.old) id seats.now spot.now)) }
    ensures few { OnOk result
        (AddsFew (boxes_to (nodes walk.old) id seats.now spot.now) few.old few.new) }
    ensures last { StillFound (nodes walk.old) walk.new out.new }
    ensures stands { Stands walk.new }
    ensures parts { SameParts walk.old walk.new }
    ensures sinks { SameSinks out.old out.new }
    ensures boxed { OnOk result
        (IsChildBoxed (nodes walk.old) id (asked_to seats.now spot.now.frame.now)
        (seen R.log walk.old) (seen R.log walk.new)) }
    ensures part { OnErr result
        (IsChildPart (nodes walk.old) id (asked_to seats.now spot.now.frame.now)
        (seen R.log walk.old) (seen R.log walk.new)) }
    ensures quiet { IsQuietChild (nodes walk.old) id (asked_to seats.now spot.now.frame.now)
        (seen R.log walk.old) (seen R.log walk.new) }
{
    boxes_move_along();
    let frame = spot.frame;
    let rect = moved_by(spot.x, spot.y, &frame.rect);
    let lower = is_lower(frame);
    let reps = pairs_for(seats, lower);
    if let Some(boxes) = found_boxes(out.last, walk.tally, id, reps, frame, &rect) {
        return hand_over(boxes, rect, out.told, few);
    }
    root(walk.tree);
    let node = node_at(walk.tree, id);
    let container = is_container(&node.kind);
    let name = node.name;
    tell(&name, &rect, out.told, few)?;
    if !container {
        return Ok(());
    }
    let mut own = Few::new(walk.alloc);
    let seat = Seat {
        reps,
        above: above_for(seats, nothing, lower),
        area: area_for(seats, index),
    };
    let here = Spot {
        frame,
        x: rect.x,
        y: rect.y,
    };
    boxes_below(walk, id, &seat, nothing, &here, &mut own, out)?;
    few.add(&own);
    out.last
        .keep(id, reps, &frame.inline, &frame.block, &name, rect, &own);
    Ok(())
}

#[cycle(boxes)]
/// The boxes below a container in its seat that has the frame of this spot and whose border box starts there, in document order, are
/// put after others.
fn boxes_below<T: BoxSink, R: Ruler, L: Ledger>(
    walk: &mut Walker<R, L>,
    id: NodeId,
    seat: &Seat,
    nothing: &Above,
    spot: &Spot<'_>,
    few: &mut Few,
    out: &mut Boxes<'_, T>,
) -> Result<(), NoMemory>
    requires stands { Stands walk.old }
    requires live { IsLive (nodes walk.old) id }
    requires fits { Fits (sight_at (nodes walk.old) id) (asked_in seat.now spot.now.frame.now) }
    requires seat { HasSeat (sight_at (nodes walk.old) id) seat.now }
    requires nothing { nothing.now ≡ over.Nothing }
    requires level { 1 ≤ level_at (nodes walk.old) id }
    requires columns { IsGivenNear (level_at (nodes walk.old) id) spot.now.frame.now.inline }
    requires rows { IsGivenNear (level_at (nodes walk.old) id) spot.now.frame.now.block }
    requires x { IsWithin (reach (level_at (nodes walk.old) id)) spot.now.x }
    requires y { IsWithin (reach (level_at (nodes walk.old) id)) spot.now.y }
    requires last { StillFound (nodes walk.old) walk.old out.old }
    ensures value { OnOk result
        (T.adds out.old.told.now out.new.told.now
        (boxes_in (nodes walk.old) id seat.now spot.now)) }
    ensures near { OnOk result (AreNear (boxes_in (nodes walk.old) id seat.now spot.now)) }
    ensures few { OnOk result
        (AddsFew (boxes_in (nodes walk.old) id seat.now spot.now) few.old few.new) }
    ensures last { StillFound (nodes walk.old) walk.new out.new }
    ensures stands { Stands walk.new }
    ensures parts { SameParts walk.old walk.new }
    ensures sinks { SameSinks out.old out.new }
    ensures boxed { OnOk result
        (IsBoxed (nodes walk.old) id (asked_in seat.now spot.now.frame.now) (seen R.log walk.old)
        (seen R.log walk.new)) }
    ensures part { OnErr result
        (IsLaidPart id (asked_in seat.now spot.now.frame.now) (seen R.log walk.old)
        (seen R.log walk.new)) }
    ensures quiet { IsQuietBelow (nodes walk.old) id (asked_in seat.now spot.now.frame.now)
        (seen R.log walk.old) (seen R.log walk.new) }
{
    root(walk.tree);
    differ(walk.tree);
    frames_stand_near(walk.tree, id);
    frames_fit_below(walk.tree, id);
    frames_tell_subgrids(walk.tree, id);
    let frame = spot.frame;
    let frames = frames_at(walk, id, seat, &frame.inline, &frame.block)?;
    let listed = frames.as_slice();
    let seats = seats_below(
        walk.alloc,
        walk.tree,
        id,
        seat.reps,
        seat.above,
        seat.area,
        &frame.inline,
        listed,
    )?;
    for index in 0..listed.len() {
        let child = child_of_frame(walk.tree, id, listed, index);
        let below = &listed[index];
        let there = Spot {
            frame: below,
            x: spot.x,
            y: spot.y,
        };
        child_boxes(walk, child, &seats, index, nothing, &there, few, out)?;
    }
    Ok(())
}

/// The box of a node in its seat at this spot, and the boxes below it, are put after others. What a node sees that is no subgrid is
/// handed down.
pub(crate) fn boxes_of<T: BoxSink, R: Ruler, L: Ledger>(
    walk: &mut Walker<R, L>,
    id: NodeId,
    seat: &Seat,
    nothing: &Above,
    spot: &Spot<'_>,
    out: &mut Boxes<'_, T>,
) -> Result<(), NoMemory>
    requires stands { Stands walk.old }
    requires live { IsLive (nodes walk.old) id }
    requires reps { length seat.now.reps.now ≡ length (sight_at (nodes walk.old) id).chain }
    requires seat { HasSeat (sight_at (nodes walk.old) id) seat.now }
    requires nothing { nothing.now ≡ over.Nothing }
    requires fits { FitsFrames (nodes walk.old) id (asked_in seat.now spot.now.frame.now) }
    requires level { 1 ≤ level_at (nodes walk.old) id }
    requires near { IsNearSpot (level_at (nodes walk.old) id) spot.now }
    requires last { StillFound (nodes walk.old) walk.old out.old }
    ensures value { OnOk result
        (T.adds out.old.told.now out.new.told.now
        (boxes_at (nodes walk.old) id seat.now spot.now)) }
    ensures near { OnOk result (AreNear (boxes_at (nodes walk.old) id seat.now spot.now)) }
    ensures last { StillFound (nodes walk.old) walk.new out.new }
    ensures stands { Stands walk.new }
    ensures parts { SameParts walk.old walk.new }
    ensures sinks { SameSinks out.old out.new }
    ensures boxed { OnOk result
        (IsChildBoxed (nodes walk.old) id (asked_in seat.now spot.now.frame.now)
        (seen R.log walk.old) (seen R.log walk.new)) }
    ensures part { OnErr result
        (IsChildPart (nodes walk.old) id (asked_in seat.now spot.now.frame.now)
        (seen R.log walk.old) (seen R.log walk.new)) }
    ensures quiet { IsQuietChild (nodes walk.old) id (asked_in seat.now spot.now.frame.now)
        (seen R.log walk.old) (seen R.log walk.new) }
{
    root(walk.tree);
    let frame = spot.frame;
    let rect = moved_by(spot.x, spot.y, &frame.rect);
    let x = rect.x;
    let y = rect.y;
    let node = node_at(walk.tree, id);
    let container = is_container(&node.kind);
    let name = node.name;
    out.told.take(&name, rect)?;
    if !container {
        return Ok(());
    }
    let mut few = Few::too_many(walk.alloc);
    let here = Spot { frame, x, y };
    boxes_below(walk, id, seat, nothing, &here, &mut few, out)
}
