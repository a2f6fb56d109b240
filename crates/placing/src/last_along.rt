//! What the children of a flex container told last for its block size: how it is kept longer than its answers, and taken where some of
//! them must be asked again (own rule).

ghost use Rattle.std.specs.Prelude.{◌≡◌, None, Some, IfOk, IfSome, map};
ghost use Rattle.placing.specs.Keeping.{ChangesPast};
ghost use Rattle.placing.specs.Kept.{past_at, turn_at, IsRight};
ghost use Rattle.placing.specs.Nodes.{bare, IsLive};
ghost use Rattle.placing.specs.Told.{along_marked, along_turned, AreToldAlong, IsPastAlong};
ghost use Rattle.placing.specs.Walks.{IsAlike};

use crate::last_members::marked_turn;
use crate::lined::{KeptAlong, ToldAlong};
use crate::node::Node;
use crate::telling::turn_of;
use crate::told::SharedAlong;
use lunit::{Lu, NoMemory, Sequence};
use node_arena::{Arena, NodeId};
use std::alloc::Global;

/// A child with what it told, to be asked again where its answers went since.
fn marked(tree: &Arena<Node>, told: &ToldAlong) -> ToldAlong
    ensures { result ≡ along_marked (turn_at tree.now.tree) told.now }
{
    let turn = turn_of(tree, told.child);
    ToldAlong {
        child: told.child,
        number: told.number,
        size: told.size,
        block: told.block,
        item: told.item,
        turn: marked_turn(told.turn, turn),
    }
}

/// Such children.
fn all_marked(
    alloc: Global,
    tree: &Arena<Node>,
    told: &[ToldAlong],
) -> Result<Sequence<ToldAlong>, NoMemory>
    ensures { IfOk result (λ made. made ≡ map (along_marked (turn_at tree.now.tree)) told.now) }
{
    let mut made = Vec::with_capacity(alloc, told.len())?;
    for child in told {
        made.push(marked(tree, child))?;
    }
    Ok(Sequence::from_vec(made))
}

/// A child with what it tells, and its turn.
fn turned(tree: &Arena<Node>, told: &ToldAlong) -> ToldAlong
    ensures { result ≡ along_turned (turn_at tree.now.tree) told.now }
{
    ToldAlong {
        child: told.child,
        number: told.number,
        size: told.size,
        block: told.block,
        item: told.item,
        turn: turn_of(tree, told.child),
    }
}

/// Such children.
fn all_turned(
    alloc: Global,
    tree: &Arena<Node>,
    told: &[ToldAlong],
) -> Result<Sequence<ToldAlong>, NoMemory>
    ensures { IfOk result (λ made. made ≡ map (along_turned (turn_at tree.now.tree)) told.now) }
{
    let mut made = Vec::with_capacity(alloc, told.len())?;
    for child in told {
        made.push(turned(tree, child))?;
    }
    Ok(Sequence::from_vec(made))
}

/// Takes what a node keeps of what its children told for its block size.
fn lose_along(tree: &mut Arena<Node>, id: NodeId) -> Option<SharedAlong>
    requires { IsLive (bare tree.old.tree) id }
    ensures lost { ChangesPast tree.old tree.new id
        (record (past_at tree.old.tree id) { along = None }) }
    ensures kept { result ≡ (past_at tree.old.tree id).along }
{
    let node = tree.get_mut(id).unwrap();
    node.past.along.take()
}

/// Keeps what the children of a node told for its block size in place of what it kept of that.
fn gain_along(tree: &mut Arena<Node>, id: NodeId, kept: SharedAlong)
    requires { IsLive (bare tree.old.tree) id }
    ensures { ChangesPast tree.old tree.new id
        (record (past_at tree.old.tree id) { along = Some kept }) }
{
    let node = tree.get_mut(id).unwrap();
    node.past.along = Some(kept);
}

/// Takes what the children of a flex container told last for its block size, where those have the last turn that must be asked again,
/// since their answers went; `None` where it keeps none. A walk goes on after it as before it. `NoMemory` where memory is wanting; it is
/// lost then.
pub fn take_along(
    alloc: Global,
    tree: &mut Arena<Node>,
    id: NodeId,
) -> Result<Option<KeptAlong>, NoMemory>
    requires live { IsLive (bare tree.old.tree) id }
    requires right { IsRight tree.old.tree }
    ensures told { IfOk result (λ past. IfSome past (IsPastAlong (bare tree.old.tree) id)) }
    ensures right { IsRight tree.new.tree }
    ensures alike { IsAlike tree.old tree.new }
{
    let Some(shared) = lose_along(tree, id) else {
        return Ok(None);
    };
    let Some(kept) = shared.into_inner() else {
        return Ok(None);
    };
    let told = all_marked(alloc, tree, kept.told.as_slice())?;
    let width = kept.width;
    Ok(Some(KeptAlong { width, told }))
}

/// Keeps what the children of a flex container of this inline size tell for its block size. A walk goes on after it as before it.
/// `NoMemory` where memory is wanting; nothing has changed then.
pub fn keep_along(
    alloc: Global,
    tree: &mut Arena<Node>,
    id: NodeId,
    width: Lu,
    told: &[ToldAlong],
) -> Result<(), NoMemory>
    requires live { IsLive (bare tree.old.tree) id }
    requires right { IsRight tree.old.tree }
    requires told { AreToldAlong (bare tree.old.tree) id width told.now }
    ensures right { IsRight tree.new.tree }
    ensures alike { IsAlike tree.old tree.new }
{
    let turned = all_turned(alloc, tree, told)?;
    let kept = KeptAlong {
        width,
        told: turned,
    };
    let shared = SharedAlong::new(alloc, kept)?;
    gain_along(tree, id, shared);
    Ok(())
}
