ghost use Rattle.std.specs.Prelude.{◌≡◌, ◌≤◌, ℕ, None, IfSome, OnOk, length, max, slice_get, slice_index_or, vec_len, vec_capacity};
ghost use Rattle.std.specs.Option.{option_copied};
ghost use Rattle.plain_tree.specs.Trees.{height_of};
ghost use Rattle.node_arena.specs.Inside.{held, shown, grown, unlisted, listed, below_parent, Reshows, Alike, HasRoom, swept};
ghost use Rattle.node_arena.specs.Numbers.{dropped};

use crate::number::NodeId;
use slab::Slab;
use std::alloc::AllocError;

/// A node in its slot.
#[derive(Drop)]
pub(crate) struct Slot<T> {
    pub(crate) turn: u64,
    pub(crate) value: T,
    pub(crate) parent: Option<NodeId>,
    pub(crate) children: Vec<NodeId>,
}

/// The slot that a number names.
pub(crate) fn find<T>(slots: &Slab<Slot<T>>, id: NodeId) -> Option<&Slot<T>>
    ensures { option_copied result ≡ held slots.now.slots id }
{
    match slots.get(id.slot) {
        Some(slot) if slot.turn == id.turn => Some(slot),
        _ => None,
    }
}

/// The number at an index.
pub(crate) fn nth(numbers: &[NodeId], index: usize) -> Option<NodeId>
    ensures { result ≡ slice_get numbers.now index }
{
    if index < numbers.len() {
        return Some(numbers[index]);
    }
    None
}

#[tactic(auto, using(crate::proofs::Loops::list_laws))]
/// How many numbers there are without one of them.
pub(crate) fn count_others(numbers: &[NodeId], id: NodeId) -> usize
    ensures { result ≡ length (dropped id numbers.now) }
{
    for number in numbers {
        if number.is(id) {
            return numbers.len() - 1;
        }
    }
    numbers.len()
}

#[tactic(auto, using(crate::proofs::Loops::list_laws))]
/// Takes a number out of a list, where it stands first.
pub(crate) fn drop_number(numbers: &mut Vec<NodeId>, id: NodeId)
    ensures items { numbers.new.items ≡ dropped id numbers.old.items }
    ensures len { vec_len numbers.new ≤ vec_len numbers.old }
    ensures capacity { vec_capacity numbers.new ≡ vec_capacity numbers.old }
{
    for index in 0..numbers.len() {
        if numbers[index].is(id) {
            numbers.remove(index);
            return;
        }
    }
}

/// Makes room for one more child of a node.
pub(crate) fn make_room<T>(slots: &mut Slab<Slot<T>>, parent: NodeId) -> Result<(), AllocError>
    ensures alike { Alike slots.old.slots slots.new.slots }
    ensures room { OnOk result (HasRoom (slice_index_or slots.new.slots parent.slot None)) }
{
    match slots.get_mut(parent.slot) {
        Some(slot) => slot.children.reserve(1),
        None => Ok(()),
    }
}

/// Takes a number out of its parent's children.
pub(crate) fn unlink<T>(slots: &mut Slab<Slot<T>>, parent: NodeId, id: NodeId)
    ensures slots { Reshows slots.old.slots slots.new.slots parent.slot
        (unlisted id (shown slots.old.slots parent.slot)) }
    ensures room { (k : ℕ) → HasRoom (slice_index_or slots.old.slots k None) →
        HasRoom (slice_index_or slots.new.slots k None) }
{
    if let Some(slot) = slots.get_mut(parent.slot) {
        drop_number(&mut slot.children, id);
    }
}

/// Gives a node another parent, but does not list it there.
pub(crate) fn set_parent<T>(slots: &mut Slab<Slot<T>>, id: NodeId, parent: NodeId)
    ensures slots { Reshows slots.old.slots slots.new.slots id.slot
        (below_parent parent (shown slots.old.slots id.slot)) }
    ensures room { (k : ℕ) → HasRoom (slice_index_or slots.old.slots k None) →
        HasRoom (slice_index_or slots.new.slots k None) }
{
    if let Some(slot) = slots.get_mut(id.slot) {
        slot.parent = Some(parent);
    }
}

/// Lists a number among a node's children, at an index.
pub(crate) fn link<T>(slots: &mut Slab<Slot<T>>, parent: NodeId, index: usize, id: NodeId)
    requires room { HasRoom (slice_index_or slots.old.slots parent.slot None) }
    requires index { IfSome (shown slots.old.slots parent.slot) (λ s. index ≤ length s.children) }
    ensures { Reshows slots.old.slots slots.new.slots parent.slot
        (listed index id (shown slots.old.slots parent.slot)) }
{
    if let Some(slot) = slots.get_mut(parent.slot) {
        let _ = slot.children.insert(index, id);
    }
}

fn larger(a: usize, b: usize) -> usize
    ensures { result ≡ max a b }
{
    if a < b { b } else { a }
}

#[tactic(auto, using(crate::proofs::Loops::height_laws))]
/// How many levels these numbers and all below them have, where they are at most so many.
pub(crate) fn height<T>(slots: &Slab<Slot<T>>, numbers: &[NodeId], levels: u32) -> usize
    ensures value { result ≡ height_of (grown levels (shown slots.now.slots) numbers.now) }
    ensures most { result ≤ levels }
{
    if levels == 0 {
        return 0;
    }
    let mut highest = 0;
    for number in numbers {
        let Some(slot) = slots.get(number.slot) else {
            continue;
        };
        highest = larger(highest, height(slots, &slot.children, levels - 1) + 1);
    }
    highest
}

#[tactic(auto, using(crate::proofs::Loops::sweep_laws))]
/// Takes out these numbers and all below them, where the levels are at most so many.
pub(crate) fn sweep<T: Drop>(slots: &mut Slab<Slot<T>>, numbers: &[NodeId], levels: u32)
    ensures { slots.new.slots ≡ swept levels numbers.now slots.old.slots }
{
    if levels == 0 {
        return;
    }
    for number in numbers {
        if let Some(slot) = slots.try_remove(number.slot) {
            sweep(slots, &slot.children, levels - 1);
        }
    }
}
