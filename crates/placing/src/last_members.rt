//! What the children of a flex container told last for its inline sizes: how it is kept longer than its answers, and taken where some
//! of them must be asked again (own rule).

ghost use Rattle.std.specs.Prelude.{◌≡◌, ◌<◌, None, Some, IfOk, IfSome, length, map};
ghost use Rattle.placing.specs.Keeping.{ChangesPast};
ghost use Rattle.placing.specs.Kept.{past_at, turn_at, IsRight};
ghost use Rattle.placing.specs.Members.{place_of, IsPlace};
ghost use Rattle.placing.specs.Nodes.{bare, children_at, kids_at, IsLive};
ghost use Rattle.placing.specs.Told.{last_turn, marked_at, marked_turn, turned_at, ArePastMembers, AreToldMembers};
ghost use Rattle.placing.specs.Walks.{IsAlike};

use crate::lined::{Member, ToldMember};
use crate::node::Node;
use crate::placement::ordered;
use crate::sight::child;
use crate::telling::turn_of;
use crate::told::SharedMembers;
use lunit::{Lu, NoMemory, Sequence};
use node_arena::{Arena, NodeId};
use std::alloc::Global;

/// A child of a flex container of this number that is not asked yet.
fn unasked_child(tree: &Arena<Node>, id: NodeId, number: usize) -> ToldMember
    requires { number < length (kids_at (bare tree.now.tree) id) }
    ensures number { result.member.number ≡ number }
    ensures child { IsPlace (children_at (bare tree.now.tree) id) (place_of result) }
    ensures turn { result.turn ≡ last_turn }
{
    let child = child(tree, id, number);
    let none = Lu::default();
    let member = Member {
        child,
        number,
        inline: (none, none),
    };
    ToldMember {
        member,
        low: none,
        high: none,
        turn: u64::MAX,
    }
}

/// The children of a flex container in order-modified document order, none of which is asked yet. `NoMemory` where memory is wanting.
pub fn unasked(
    alloc: Global,
    tree: &Arena<Node>,
    id: NodeId,
) -> Result<Sequence<ToldMember>, NoMemory>
    requires { IsLive (bare tree.now.tree) id }
    ensures { IfOk result (ArePastMembers (bare tree.now.tree) id) }
{
    let numbers = ordered(alloc, tree, id)?;
    let mut told = Vec::with_capacity(alloc, numbers.len())?;
    for number in numbers.as_slice() {
        told.push(unasked_child(tree, id, *number))?;
    }
    Ok(Sequence::from_vec(told))
}

/// The turn of a child when it told, or the last one where it has another one now.
pub(crate) fn marked_turn(last: u64, turn: u64) -> u64
    ensures { result ≡ marked_turn last turn }
{
    if last == turn { last } else { u64::MAX }
}

/// A child with what it told, to be asked again where its answers went since.
fn marked(tree: &Arena<Node>, told: &ToldMember) -> ToldMember
    ensures { result ≡ marked_at (turn_at tree.now.tree) told.now }
{
    let turn = turn_of(tree, told.member.child);
    ToldMember {
        member: told.member,
        low: told.low,
        high: told.high,
        turn: marked_turn(told.turn, turn),
    }
}

/// Such children.
fn all_marked(
    alloc: Global,
    tree: &Arena<Node>,
    told: &[ToldMember],
) -> Result<Sequence<ToldMember>, NoMemory>
    ensures { IfOk result (λ made. made ≡ map (marked_at (turn_at tree.now.tree)) told.now) }
{
    let mut made = Vec::with_capacity(alloc, told.len())?;
    for child in told {
        made.push(marked(tree, child))?;
    }
    Ok(Sequence::from_vec(made))
}

/// A child with what it tells, and its turn.
fn turned(tree: &Arena<Node>, told: &ToldMember) -> ToldMember
    ensures { result ≡ turned_at (turn_at tree.now.tree) told.now }
{
    ToldMember {
        member: told.member,
        low: told.low,
        high: told.high,
        turn: turn_of(tree, told.member.child),
    }
}

/// Such children.
fn all_turned(
    alloc: Global,
    tree: &Arena<Node>,
    told: &[ToldMember],
) -> Result<Sequence<ToldMember>, NoMemory>
    ensures { IfOk result (λ made. made ≡ map (turned_at (turn_at tree.now.tree)) told.now) }
{
    let mut made = Vec::with_capacity(alloc, told.len())?;
    for child in told {
        made.push(turned(tree, child))?;
    }
    Ok(Sequence::from_vec(made))
}

/// Takes what a node keeps of what its children told for its inline sizes.
fn lose_members(tree: &mut Arena<Node>, id: NodeId) -> Option<SharedMembers>
    requires { IsLive (bare tree.old.tree) id }
    ensures lost { ChangesPast tree.old tree.new id
        (record (past_at tree.old.tree id) { members = None }) }
    ensures kept { result ≡ (past_at tree.old.tree id).members }
{
    let node = tree.get_mut(id).unwrap();
    node.past.members.take()
}

/// Keeps what the children of a node told for its inline sizes in place of what it kept of that.
fn gain_members(tree: &mut Arena<Node>, id: NodeId, kept: SharedMembers)
    requires { IsLive (bare tree.old.tree) id }
    ensures { ChangesPast tree.old tree.new id
        (record (past_at tree.old.tree id) { members = Some kept }) }
{
    let node = tree.get_mut(id).unwrap();
    node.past.members = Some(kept);
}

/// Takes what the children of a flex container told last for its inline sizes, where those have the last turn that must be asked again,
/// since their answers went; `None` where it keeps none. A walk goes on after it as before it. `NoMemory` where memory is wanting; it is
/// lost then.
pub fn take_members(
    alloc: Global,
    tree: &mut Arena<Node>,
    id: NodeId,
) -> Result<Option<Sequence<ToldMember>>, NoMemory>
    requires live { IsLive (bare tree.old.tree) id }
    requires right { IsRight tree.old.tree }
    ensures told { IfOk result (λ past. IfSome past (ArePastMembers (bare tree.old.tree) id)) }
    ensures right { IsRight tree.new.tree }
    ensures alike { IsAlike tree.old tree.new }
{
    let Some(shared) = lose_members(tree, id) else {
        return Ok(None);
    };
    let Some(kept) = shared.into_inner() else {
        return Ok(None);
    };
    let told = all_marked(alloc, tree, kept.as_slice())?;
    Ok(Some(told))
}

/// Keeps what the children of a flex container tell for its inline sizes. A walk goes on after it as before it. `NoMemory` where memory
/// is wanting; nothing has changed then.
pub fn keep_members(
    alloc: Global,
    tree: &mut Arena<Node>,
    id: NodeId,
    told: &[ToldMember],
) -> Result<(), NoMemory>
    requires live { IsLive (bare tree.old.tree) id }
    requires right { IsRight tree.old.tree }
    requires told { AreToldMembers (bare tree.old.tree) id told.now }
    ensures right { IsRight tree.new.tree }
    ensures alike { IsAlike tree.old tree.new }
{
    let turned = all_turned(alloc, tree, told)?;
    let shared = SharedMembers::new(alloc, turned)?;
    gain_members(tree, id, shared);
    Ok(())
}
