//! The boxes of containers as they were found last (own rule): where nothing below a container was reached by an edit since, and it is
//! given the same, its boxes are handed over as they were, moved with it.

ghost use Rattle.std.specs.Prelude.{◌≡◌, ◌<◌, ◌≤◌, ◌^◌, ◌⊎◌, ◌++◌, ◌∷◌, ℕ, [], None, Some, false, true, Contains, List, IfSome, IsSome, OnOk, length, slice_get, slice_set, take};
ghost use Rattle.node_arena.specs.Numbers.{same};
ghost use Rattle.tree_rules.specs.Answers.{Box};
ghost use Rattle.box_layout.specs.Asking.{frames_asked};
ghost use Rattle.box_layout.specs.BoxesSeen.{AreNear};
ghost use Rattle.box_layout.specs.LastBoxes.{AddsFew, AreClose, Found, IsClose, IsFoundOf, IsListed, IsPut, KeepsSlots, boxes_now};
ghost use Rattle.box_layout.specs.Ranges.{IsWithin};
ghost use Rattle.tree_rules.specs.Frames.{moved_boxes};

use crate::frames::moved_by;
use crate::queries::frames_query;
use crate::told::BoxSink;
use layout_cache::{Ask, Given, Query, same_query};
use lunit::{Along, BLOCK, INLINE, Name, NoMemory, Rect};
use node_arena::NodeId;
use std::alloc::Global;
use std::marker::Model;

/// How many boxes below a container are kept at most.
const MOST: usize = 64;

/// How many boxes below a container are kept at least: fewer are found as fast.
const LEAST: usize = 4;

/// How far from the origin boxes are at most that are kept, in units of 1/64 px: 2^50. Where both the kept ones and the container are no
/// further away, the moved ones are within 2^56.
const FAR: i64 = 1 << 50;

/// The boxes below a container, while they are at most [`MOST`]. Contracts see the list, and `None` where they are more, or memory was
/// wanting.
#[derive(Drop)]
pub(crate) struct Few {
    boxes: Vec<(Name, Rect)>,
    whole: bool,
}

impl Model for Few {
    ghost use Rattle.std.specs.Prelude.{List, Option, Some, None, if◌then◌else◌};
    ghost use Rattle.tree_rules.specs.Answers.{Box};

    ghost Value = { Option (List Box) };

    ghost view = { λ a. if a.whole then Some a.boxes.items else None };
}

impl Few {
    /// None yet. Takes no memory.
    pub(crate) fn new(alloc: Global) -> Few
        ensures { result ≡ Some [] }
    {
        Few {
            boxes: Vec::new(alloc),
            whole: true,
        }
    }

    /// Too many. Takes no memory.
    pub(crate) fn too_many(alloc: Global) -> Few
        ensures { result ≡ None }
    {
        Few {
            boxes: Vec::new(alloc),
            whole: false,
        }
    }

    /// One box more.
    pub(crate) fn take(&mut self, name: &Name, rect: Rect)
        ensures { AddsFew ((name.now, rect) ∷ []) self.old self.new }
    {
        if !self.whole {
            return;
        }
        if MOST <= self.boxes.len() || self.boxes.reserve(1).is_err() {
            self.whole = false;
            return;
        }
        self.boxes.push_reserved((*name, rect));
    }

    /// Those of a container among the children more.
    pub(crate) fn add(&mut self, other: &Few)
        ensures { (more : List Box) → AddsFew more (Some []) other.now →
            AddsFew more self.old self.new }
    {
        if !other.whole {
            self.whole = false;
        }
        if !self.whole {
            return;
        }
        for index in 0..other.boxes.len() {
            let (name, rect) = &other.boxes[index];
            self.take(name, *rect);
        }
    }
}

/// A container, the question for its frames, and where its boxes stand in the list of all: its own first.
#[derive(Drop)]
pub(crate) struct Below {
    pub(crate) id: NodeId,
    pub(crate) query: Query,
    pub(crate) start: usize,
    pub(crate) end: usize,
}

/// The boxes of containers that have few below them, as they were found last. Contracts see the list of these; each container stands in
/// it at most once, and each of their boxes is at most 2^50 units from the origin.
#[derive(Drop)]
pub struct LastBoxes {
    alloc: Global,
    // For each slot of the arena, which of the containers stands there; any other number where none does.
    slots: Vec<u32>,
    containers: Vec<Option<Below>>,
    // One list of them all, so that they are read one after the other. It only grows, until all is let go.
    boxes: Vec<(Name, Rect)>,
}

impl Model for LastBoxes {
    ghost use Rattle.std.specs.Prelude.{List};
    ghost use Rattle.box_layout.specs.LastBoxes.{AreListed, Found, all_found};

    ghost Value = { List Found };

    ghost view = { λ a. all_found a.boxes.items a.containers.items };

    ghost invariant = { λ a. AreListed a.slots.items a.containers.items a.boxes.items };
}

impl LastBoxes {
    /// None yet. Takes no memory.
    pub fn new(alloc: Global) -> LastBoxes
        ensures { result ≡ [] }
    {
        LastBoxes {
            alloc,
            slots: Vec::new(alloc),
            containers: Vec::new(alloc),
            boxes: Vec::new(alloc),
        }
    }

    /// The boxes of a container that were found by this question for its frames, its own first; `None` where they are not kept.
    pub(crate) fn find(
        &self,
        id: NodeId,
        reps: &[(u32, u32)],
        inline: &Given,
        block: &Given,
    ) -> Option<&[(Name, Rect)]>
        ensures found { IfSome result
            (λ boxes. Contains self.now
            (record {
              id = id;
              query = frames_asked reps.now inline.now block.now;
              boxes =
                  boxes.now;
            })) }
        ensures close { IfSome result (λ boxes. AreClose boxes.now) }
    {
        let number = number_at(self.slots.as_slice(), id.slot());
        let below = below_at(self.containers.as_slice(), number)?;
        if below.id.is(id) && same_query(&below.query, Ask::Frames, reps, inline, block) {
            return Some(&self.boxes.as_slice()[below.start..below.end]);
        }
        None
    }

    /// Keeps the box of a container and those below it, where they are few and close, in place of what is kept of it. Where memory is
    /// wanting they are not kept.
    pub(crate) fn keep(
        &mut self,
        id: NodeId,
        reps: &[(u32, u32)],
        inline: &Given,
        block: &Given,
        name: &Name,
        rect: Rect,
        few: &Few,
    )
        ensures { (f : Found) → Contains self.new f →
            Contains self.old f ⊎
            IsFoundOf id (frames_asked reps.now inline.now block.now) (name.now, rect) few.now f }
    {
        if !is_worth(&rect, few) {
            return;
        }
        let Ok(query) = frames_query(self.alloc, reps, inline, block) else {
            return;
        };
        put(
            &mut self.slots,
            &mut self.containers,
            &mut self.boxes,
            id,
            query,
            name,
            rect,
            few,
        );
    }

    /// Keeps nothing of a container any more. Takes no memory.
    pub fn forget(&mut self, id: NodeId)
        ensures { (f : Found) → Contains self.new f → Contains self.old f × (same f.id id ≡ false) }
    {
        let number = number_at(self.slots.as_slice(), id.slot());
        if number < self.containers.len() {
            put_at(&mut self.containers, number, None);
        }
    }

    /// Keeps nothing any more. Takes no memory.
    pub fn clear(&mut self)
        ensures { self.new ≡ [] }
    {
        self.slots.clear();
        self.containers.clear();
        self.boxes.clear();
    }

    /// Keeps nothing any more where more boxes are listed than four for each of so many nodes, and some. Takes no memory.
    pub(crate) fn trim(&mut self, nodes: usize)
        ensures { (f : Found) → Contains self.new f → Contains self.old f }
    {
        if nodes.saturating_mul(4).saturating_add(4096) < self.boxes.len() {
            self.clear();
        }
    }
}

/// Whether each number of a rectangle has a magnitude of at most [`FAR`].
pub(crate) fn is_close(rect: &Rect) -> bool
    ensures { result ≡ true → IsClose rect.now }
{
    are_within(rect.x, rect.width) && are_within(rect.y, rect.height)
}

/// Whether a start and a size along an axis have a magnitude of at most [`FAR`].
fn are_within<const AXIS: u8>(start: Along<AXIS>, size: Along<AXIS>) -> bool
    ensures start { result ≡ true → IsWithin (2 ^ 50) start.entry }
    ensures size { result ≡ true → IsWithin (2 ^ 50) size.entry }
{
    is_within(start.units()) && is_within(size.units())
}

/// Whether a number has a magnitude of at most [`FAR`].
fn is_within(units: i64) -> bool
    ensures { result ≡ true → IsWithin (2 ^ 50) units }
{
    -FAR <= units && units <= FAR
}

/// Whether these boxes are close.
fn are_close(boxes: &[(Name, Rect)]) -> bool
    ensures { result ≡ true → AreClose boxes.now }
{
    for index in 0..boxes.len() {
        if !is_close(&boxes[index].1) {
            return false;
        }
    }
    true
}

/// Whether the box of a container and those below it are worth keeping: these are few, and yet some, and all are close.
fn is_worth(rect: &Rect, few: &Few) -> bool
    ensures own { result ≡ true → IsClose rect.now }
    ensures below { result ≡ true → (boxes : List Box) → few.now ≡ Some boxes → AreClose boxes }
{
    if !few.whole || few.boxes.len() < LEAST {
        return false;
    }
    if !is_close(rect) {
        return false;
    }
    are_close(few.boxes.as_slice())
}

/// Lists a container with its box and those below it, where they are few, in place of what is listed of it. Where memory is wanting it
/// is not listed.
fn put(
    slots: &mut Vec<u32>,
    containers: &mut Vec<Option<Below>>,
    boxes: &mut Vec<(Name, Rect)>,
    id: NodeId,
    query: Query,
    name: &Name,
    rect: Rect,
    few: &Few,
)
    requires own { IsClose rect }
    requires below { (boxes : List Box) → few.now ≡ Some boxes → AreClose boxes }
    ensures { IsPut id query (name.now, rect) few.now slots.old.items containers.old.items
        boxes.old.items slots.new.items containers.new.items boxes.new.items }
{
    let start = boxes.len();
    if append(boxes, name, rect, few) {
        let end = boxes.len();
        let below = Below {
            id,
            query,
            start,
            end,
        };
        list(slots, containers, below);
    }
}

/// Puts the box of a container and those below it at the end of a list, where they are few; tells whether they all stand there. What is
/// listed before stays.
fn append(boxes: &mut Vec<(Name, Rect)>, name: &Name, rect: Rect, few: &Few) -> bool
    ensures before { take (length boxes.old.items) boxes.new.items ≡ boxes.old.items }
    ensures put { result ≡ true →
        IfSome few.now (λ below. boxes.new.items ≡ boxes.old.items ++ (name.now, rect) ∷ below) }
    ensures few { result ≡ true → IsSome few.now }
{
    if !few.whole {
        return false;
    }
    if boxes.push((*name, rect)).is_err() {
        return false;
    }
    boxes.extend_from_slice(few.boxes.as_slice()).is_ok()
}

#[tactic(auto, using(crate::proofs::FoundBoxes::number_laws))]
/// Which of the containers stands in a slot; any other number where none does.
fn number_at(slots: &[u32], slot: usize) -> usize
    ensures { (i : ℕ) → slice_get slots.now slot ≡ Some i → result ≡ i }
{
    if slot < slots.len() {
        return slots[slot] as usize;
    }
    usize::MAX
}

#[tactic(auto, using(crate::proofs::FoundBoxes::below_laws))]
/// The container that is listed at a place, if one is.
fn below_at(containers: &[Option<Below>], number: usize) -> Option<&Below>
    ensures { IfSome result (λ below. slice_get containers.now number ≡ Some (Some below.now)) }
{
    containers.get(number)?.as_ref()
}

/// Puts this at a place of a list.
fn put_at(containers: &mut Vec<Option<Below>>, number: usize, entry: Option<Below>)
    requires { number < length containers.old.items }
    ensures { containers.new.items ≡ slice_set containers.old.items number entry }
{
    containers[number] = entry;
}

/// Makes a list of slots as long as it takes for this slot to be in it; tells whether it is. What is listed before stays.
fn make_slots(slots: &mut Vec<u32>, slot: usize) -> bool
    ensures kept { KeepsSlots slots.old.items slots.new.items }
    ensures there { result ≡ true → slot < length slots.new.items }
{
    while slots.len() <= slot {
        if slots.push(u32::MAX).is_err() {
            return false;
        }
    }
    true
}

/// Lists a container at the end, and its place in its slot. Where memory is wanting it is not listed.
fn list_last(slots: &mut Vec<u32>, containers: &mut Vec<Option<Below>>, below: Below)
    requires slot { below.id.slot < length slots.old.items }
    requires free { (i : ℕ) → slice_get slots.old.items below.id.slot ≡ Some i →
        length containers.old.items ≤ i }
    ensures { IsListed below slots.old.items containers.old.items slots.new.items
        containers.new.items }
{
    let slot = below.id.slot();
    let Ok(next) = u32::try_from(containers.len()) else {
        return;
    };
    if containers.push(Some(below)).is_ok() {
        slots[slot] = next;
    }
}

/// Lists a container in place of what is listed in its slot. Where memory is wanting it is not listed.
fn list(slots: &mut Vec<u32>, containers: &mut Vec<Option<Below>>, below: Below)
    ensures { IsListed below slots.old.items containers.old.items slots.new.items
        containers.new.items }
{
    let slot = below.id.slot();
    if !make_slots(slots, slot) {
        return;
    }
    let number = slots[slot] as usize;
    if number < containers.len() {
        put_at(containers, number, Some(below));
    } else {
        list_last(slots, containers, below);
    }
}

/// Hands over the boxes of a container whose border box is this rectangle now: its own, and those below it, moved with it. `NoMemory`
/// where memory is wanting.
pub(crate) fn hand_over<T: BoxSink>(
    boxes: &[(Name, Rect)],
    rect: Rect,
    told: &mut T,
    few: &mut Few,
) -> Result<(), NoMemory>
    requires close { AreClose boxes.now }
    requires own { IsClose rect }
    ensures value { OnOk result (T.adds told.old told.new (boxes_now boxes.now rect)) }
    ensures near { OnOk result (AreNear (boxes_now boxes.now rect)) }
    ensures few { OnOk result (AddsFew (boxes_now boxes.now rect) few.old few.new) }
{
    if boxes.is_empty() {
        return Ok(());
    }
    let (name, own) = &boxes[0];
    tell(name, &rect, told, few)?;
    hand_moved(&boxes[1..], rect.x - own.x, rect.y - own.y, told, few)
}

/// Hands over a box.
pub(crate) fn tell<T: BoxSink>(
    name: &Name,
    rect: &Rect,
    told: &mut T,
    few: &mut Few,
) -> Result<(), NoMemory>
    ensures value { OnOk result (T.adds told.old told.new ((name.now, rect.now) ∷ [])) }
    ensures few { OnOk result (AddsFew ((name.now, rect.now) ∷ []) few.old few.new) }
{
    told.take(name, *rect)?;
    few.take(name, *rect);
    Ok(())
}

/// Hands these boxes over, moved by this along each axis.
fn hand_moved<T: BoxSink>(
    boxes: &[(Name, Rect)],
    x: Along<INLINE>,
    y: Along<BLOCK>,
    told: &mut T,
    few: &mut Few,
) -> Result<(), NoMemory>
    requires close { AreClose boxes.now }
    requires x { IsWithin (2 ^ 51) x }
    requires y { IsWithin (2 ^ 51) y }
    ensures value { OnOk result (T.adds told.old told.new (moved_boxes (x, y) boxes.now)) }
    ensures near { OnOk result (AreNear (moved_boxes (x, y) boxes.now)) }
    ensures few { OnOk result (AddsFew (moved_boxes (x, y) boxes.now) few.old few.new) }
{
    for index in 0..boxes.len() {
        let (name, rect) = &boxes[index];
        let moved = moved_by(x, y, rect);
        tell(name, &moved, told, few)?;
    }
    Ok(())
}
