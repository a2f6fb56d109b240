//! The question for the frames of a container, and its answer where a node keeps it.

ghost use Rattle.std.specs.Prelude.{◌≡◌, map, Some, None, IfOk, IfSome, IfNone, MatchOption};
ghost use Rattle.layout_cache.specs.Kept.{answer_to};
ghost use Rattle.placing.specs.Kept.{frame_of, kept_at, IsRight};
ghost use Rattle.placing.specs.Nodes.{bare, children_at, sight_at, IsLive};
ghost use Rattle.placing.specs.Walks.{State, Walked, WalkedBelow};
ghost use Rattle.placing.specs.declared.node.Answer.TheVariants as answer;
ghost use Rattle.placing.specs.declared.node.Frame.{Frame as NodeFrame};
ghost use Rattle.tree_rules.specs.KeptAnswers.{IsAbsent};
ghost use Rattle.tree_rules.specs.Queries.{answer_of, child_frames};
ghost use Rattle.box_layout.specs.Asking.{frames_asked};

use layout_cache::{Ask, Counts, Given, Query};
use lunit::{Copied, NoMemory};
use node_arena::{Arena, NodeId};
use placing::{Answer, Node, SharedFrames, find_by};
use std::alloc::Global;

#[inline(never)]
/// The question for the frames of the children of a container that sees these counts above it and is given this along each axis.
/// Counts and tracks are copied; where there are none it takes no memory.
pub fn frames_query(
    alloc: Global,
    reps: &[(u32, u32)],
    inline: &Given,
    block: &Given,
) -> Result<Query, NoMemory>
    ensures { IfOk result (λ query. query ≡ frames_asked reps.now inline.now block.now) }
{
    Ok(Query {
        ask: Ask::Frames,
        reps: Counts::from_slice(alloc, reps)?,
        inline: inline.copy(alloc)?,
        block: block.copy(alloc)?,
    })
}

/// The frames that a container keeps that sees these counts above it and is given this along each axis; `None` exactly where it keeps
/// none.
pub(crate) fn kept_frames<'a>(
    tree: &'a Arena<Node>,
    id: NodeId,
    reps: &[(u32, u32)],
    inline: &Given,
    block: &Given,
) -> Option<&'a SharedFrames>
    requires live { IsLive (bare tree.now.tree) id }
    requires right { IsRight tree.now.tree }
    ensures kept { MatchOption result
        (answer_to (frames_asked reps.now inline.now block.now) (kept_at tree.now.tree id) ≡ None)
        (λ frames. answer_to (frames_asked reps.now inline.now block.now) (kept_at tree.now.tree id)
        ≡ Some (answer.Frames frames.now)) }
    ensures value { IfSome result
        (λ frames. child_frames (map frame_of frames.now) ≡
        answer_of (sight_at (bare tree.now.tree) id)
        (frames_asked reps.now inline.now block.now)) }
    ensures children { IfSome result
        (λ frames. map (λ (f : NodeFrame). f.child) frames.now ≡
        children_at (bare tree.now.tree) id) }
    ensures absent { IfNone result
        (IsAbsent (frames_asked reps.now inline.now block.now) (kept_at tree.now.tree id)) }
    ensures start { (s : State) → s.arena ≡ tree.now →
        WalkedBelow id (frames_asked reps.now inline.now block.now) 0 s s }
    ensures found { (s : State) → s.arena ≡ tree.now →
        Walked id (frames_asked reps.now inline.now block.now) s s }
{
    match find_by(tree, id, Ask::Frames, reps, inline, block) {
        Some(Answer::Frames(frames)) => Some(frames),
        _ => None,
    }
}
