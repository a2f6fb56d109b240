//! The frames that a grid gave its children last: how they are kept longer than its answers, and taken where some of them must be made
//! again (own rule).

ghost use Rattle.std.specs.Prelude.{◌≡◌, ℕ, None, Some, true, IfOk, IfSome, length, slice_get};
ghost use Rattle.placing.specs.Bases.{HoldsPlaces};
ghost use Rattle.placing.specs.Keeping.{ChangesPast};
ghost use Rattle.placing.specs.Kept.{past_at, turn_at, IsRight};
ghost use Rattle.placing.specs.Nodes.{bare, children_at, kid_at, sight_at, IsLive};
ghost use Rattle.placing.specs.Told.{is_fresh, AreFrames, ArePastFrames, AreTurns, Each};
ghost use Rattle.placing.specs.Walks.{IsAlike};

use crate::node::Node;
use crate::shared::{SharedBase, SharedFrames};
use crate::telling::{turn_of, turns_of};
use crate::told::{KeptFrames, PastFrames, SharedLast};
use lunit::{Area, NoMemory, Sequence};
use node_arena::{Arena, NodeId};
use part_rules::View;
use std::alloc::Global;

/// Whether the answers of each child of a grid did not go since it had this turn.
fn fresh_children(
    alloc: Global,
    tree: &Arena<Node>,
    areas: &[(NodeId, Area)],
    turns: &[u64],
) -> Result<Sequence<bool>, NoMemory>
    requires { AreTurns (turn_at tree.now.tree) areas.now turns.now }
    ensures counted { IfOk result (λ fresh. length fresh ≡ length areas.now) }
    ensures fresh { IfOk result
        (λ fresh. (k : ℕ) → slice_get fresh k ≡ Some true →
        is_fresh (turn_at tree.now.tree) areas.now turns.now k ≡ true) }
{
    let mut fresh = Vec::with_capacity(alloc, areas.len())?;
    for index in 0..areas.len() {
        let (child, _) = areas[index];
        let turn = turn_of(tree, child);
        fresh.push(turns[index] == turn && turn != u64::MAX)?;
    }
    Ok(Sequence::from_vec(fresh))
}

/// Takes what a node keeps of the frames that it gave its children.
fn lose_frames(tree: &mut Arena<Node>, id: NodeId) -> Option<SharedLast>
    requires { IsLive (bare tree.old.tree) id }
    ensures lost { ChangesPast tree.old tree.new id
        (record (past_at tree.old.tree id) { frames = None }) }
    ensures kept { result ≡ (past_at tree.old.tree id).frames }
{
    let node = tree.get_mut(id).unwrap();
    node.past.frames.take()
}

/// Keeps the frames of the children of a node in place of what it kept of that.
fn gain_frames(tree: &mut Arena<Node>, id: NodeId, kept: SharedLast)
    requires { IsLive (bare tree.old.tree) id }
    ensures { ChangesPast tree.old tree.new id
        (record (past_at tree.old.tree id) { frames = Some kept }) }
{
    let node = tree.get_mut(id).unwrap();
    node.past.frames = Some(kept);
}

/// What a grid kept of the frames of its children, with those among these whose answers did not go since; `None` where others read the
/// frames too.
fn frames_of(
    alloc: Global,
    tree: &Arena<Node>,
    kept: KeptFrames,
) -> Result<Option<PastFrames>, NoMemory>
    requires { AreTurns (turn_at tree.now.tree) kept.base.placed.areas kept.turns }
    ensures parts { IfOk result
        (λ past. IfSome past
        (λ p. p ≡
        record {
          base = kept.base;
          columns = kept.columns;
          rows = kept.rows;
          frames =
              kept.frames;
          fresh = p.fresh;
        })) }
    ensures counted { IfOk result
        (λ past. IfSome past (λ p. length p.fresh ≡ length kept.base.placed.areas)) }
    ensures fresh { IfOk result
        (λ past. IfSome past
        (λ p. (k : ℕ) → slice_get p.fresh k ≡ Some true →
        is_fresh (turn_at tree.now.tree) kept.base.placed.areas kept.turns k ≡ true)) }
{
    let KeptFrames {
        base,
        columns,
        rows,
        frames,
        turns,
    } = kept;
    let areas = base.grid().placed.areas.as_slice();
    let fresh = fresh_children(alloc, tree, areas, turns.as_slice())?;
    let Some(frames) = frames.into_inner() else {
        return Ok(None);
    };
    Ok(Some(PastFrames {
        base,
        columns,
        rows,
        frames,
        fresh,
    }))
}

/// Takes the frames that a grid gave its children last, with those among these whose answers did not go since; `None` where it keeps
/// none, or others read them too. A walk goes on after it as before it. `NoMemory` where memory is wanting; they are lost then.
pub fn take_frames(
    alloc: Global,
    tree: &mut Arena<Node>,
    id: NodeId,
) -> Result<Option<PastFrames>, NoMemory>
    requires live { IsLive (bare tree.old.tree) id }
    requires right { IsRight tree.old.tree }
    ensures frames { IfOk result (λ past. IfSome past (ArePastFrames (bare tree.old.tree) id)) }
    ensures right { IsRight tree.new.tree }
    ensures alike { IsAlike tree.old tree.new }
{
    let Some(shared) = lose_frames(tree, id) else {
        return Ok(None);
    };
    let Some(kept) = shared.into_inner() else {
        return Ok(None);
    };
    frames_of(alloc, tree, kept)
}

/// Keeps the frames that a grid gives its children in these columns and rows. A walk goes on after it as before it. `NoMemory` where
/// memory is wanting; nothing has changed then.
pub fn keep_frames(
    alloc: Global,
    tree: &mut Arena<Node>,
    id: NodeId,
    base: SharedBase,
    columns: View<0>,
    rows: View<1>,
    frames: SharedFrames,
) -> Result<(), NoMemory>
    requires live { IsLive (bare tree.old.tree) id }
    requires right { IsRight tree.old.tree }
    requires places { HoldsPlaces (sight_at (bare tree.old.tree) id)
        (children_at (bare tree.old.tree) id) base }
    requires frames { AreFrames (sight_at (bare tree.old.tree) id) (kid_at (bare tree.old.tree))
        base columns rows Each frames }
    ensures right { IsRight tree.new.tree }
    ensures alike { IsAlike tree.old tree.new }
{
    let areas = base.grid().placed.areas.as_slice();
    let turns = turns_of(alloc, tree, areas)?;
    let kept = KeptFrames {
        base,
        columns,
        rows,
        frames,
        turns,
    };
    let shared = SharedLast::new(alloc, kept)?;
    gain_frames(tree, id, shared);
    Ok(())
}
