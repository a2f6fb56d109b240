//! What a container does once its children have answered: a grid makes their frames, and the frames are kept beside it.

ghost use Rattle.std.specs.Prelude.{◌≡◌, ◌≤◌, ◌≤ℤ◌, ◌∷◌, [], ℕ, map, pos, IfOk, OnErr, OnOk};
ghost use Rattle.node_arena.specs.declared.number.NodeId.{NodeId};
ghost use Rattle.placing.specs.Bases.{HoldsPlaces};
ghost use Rattle.placing.specs.Kept.{frame_of};
ghost use Rattle.placing.specs.Nodes.{children_at, kid_at, sight_at, IsLive};
ghost use Rattle.placing.specs.Told.{AreFrames, Each};
ghost use Rattle.placing.specs.Walks.{events_at, kept_with, State, Stopped, Walked, WalkedBelow};
ghost use Rattle.placing.specs.declared.node.Answer.TheVariants as answer;
ghost use Rattle.tree_rules.specs.KeptAnswers.{IsAbsent};
ghost use Rattle.tree_rules.specs.Queries.{Fits};
ghost use Rattle.tree_rules.specs.declared.kind.NodeKind.TheVariants as kind;
ghost use Rattle.tree_rules.specs.declared.query.Query.{Query};
ghost use Rattle.block_sizes.specs.Wides.{IsWide};
ghost use Rattle.walker.specs.Walkers.{kept, nodes, seen, SameParts, Stands};
ghost use Rattle.box_layout.specs.Boxed.{AnswerFrames, AreOfChildren};
ghost use Rattle.box_layout.specs.GridFrames.{AreTracks, framed_in};

use crate::gridded::grid_frames;
use layout_cache::{Given, Query};
use lunit::{NoMemory, Sequence};
use node_arena::NodeId;
use outside::Ruler;
use part_rules::View;
use placing::{Answer, GridWide, MANY, SharedFrames};
use std::alloc::Global;
use std::sync::ledger::Ledger;
use walker::Walker;

/// A view once more; `NoMemory` where memory is wanting.
fn copied_view(alloc: Global, view: &View<0>) -> Result<View<0>, NoMemory>
    ensures { IfOk result (λ other. other ≡ view.now) }
{
    let edges = Sequence::from_slice(alloc, view.edges.as_slice())?;
    let gap = view.gap;
    Ok(View { edges, gap })
}

/// Keeps the frames that a grid gives its children, where they are many. A walk goes on after it as before it. `NoMemory` where memory is
/// wanting; nothing has changed then.
fn keep_last<R: Ruler, L: Ledger>(
    walk: &mut Walker<R, L>,
    id: NodeId,
    wide: &GridWide,
    rows: View<1>,
    frames: &SharedFrames,
) -> Result<(), NoMemory>
    requires stands { Stands walk.old }
    requires live { IsLive (nodes walk.old) id }
    requires places { HoldsPlaces (sight_at (nodes walk.old) id) (children_at (nodes walk.old) id)
        wide.now.parts.base }
    requires frames { AreFrames (sight_at (nodes walk.old) id) (kid_at (nodes walk.old))
        wide.now.parts.base wide.now.columns rows Each frames.now }
    ensures stands { Stands walk.new }
    ensures parts { SameParts walk.old walk.new }
    ensures bare { nodes walk.new ≡ nodes walk.old }
    ensures kept { (n : NodeId) → kept walk.new n ≡ kept walk.old n }
    ensures below { (q : Query) (more : ℕ) (old : State) →
        WalkedBelow id q more old (seen R.log walk.old) →
        WalkedBelow id q more old (seen R.log walk.new) }
{
    if frames.as_slice().len() < MANY {
        return Ok(());
    }
    let base = wide.parts.base.again()?;
    let columns = copied_view(walk.alloc, &wide.columns)?;
    let shared = frames.again()?;
    walk.keep_frames(id, base, columns, rows, shared)
}

/// The frames of the children of a grid, in document order, once its columns and its rows lie where they lie: those that it gave its
/// children last serve again, where they still hold. They are kept, where they are many, and a walk goes on after it as before it.
/// `NoMemory` where memory is wanting.
pub(crate) fn grid_framed<R: Ruler, L: Ledger>(
    walk: &mut Walker<R, L>,
    id: NodeId,
    reps: &[(u32, u32)],
    width: &Given,
    wide: &GridWide,
    rows: View<1>,
) -> Result<SharedFrames, NoMemory>
    requires stands { Stands walk.old }
    requires live { IsLive (nodes walk.old) id }
    requires kind { (sight_at (nodes walk.old) id).label.kind ≡ kind.Grid }
    requires wide { IsWide (nodes walk.old) id reps.now width.now wide.now }
    requires columns { AreTracks wide.now.parts.base.placed.columns wide.now.columns.edges }
    requires rows { AreTracks wide.now.parts.base.placed.rows rows.edges }
    requires gap { pos 0 ≤ℤ rows.gap }
    ensures value { IfOk result
        (λ frames. map frame_of frames ≡ framed_in (nodes walk.old) id reps.now width.now rows) }
    ensures children { IfOk result (λ frames. AreOfChildren (nodes walk.old) id frames) }
    ensures stands { Stands walk.new }
    ensures parts { SameParts walk.old walk.new }
    ensures bare { nodes walk.new ≡ nodes walk.old }
    ensures kept { (n : NodeId) → kept walk.new n ≡ kept walk.old n }
    ensures below { (q : Query) (more : ℕ) (old : State) →
        WalkedBelow id q more old (seen R.log walk.old) →
        WalkedBelow id q more old (seen R.log walk.new) }
{
    let past = walk.take_frames(id)?;
    let frames = grid_frames(walk.alloc, walk.tree, id, reps, width, wide, &rows, past)?;
    let shared = SharedFrames::new(walk.alloc, frames)?;
    keep_last(walk, id, wide, rows, &shared)?;
    Ok(shared)
}

/// Keeps the frames of the children of a container beside it as the answer to the question for them, and hands them back. `NoMemory`
/// where memory is wanting; the answer is not kept then.
pub(crate) fn frames_kept<R: Ruler, L: Ledger>(
    walk: &mut Walker<R, L>,
    id: NodeId,
    query: Query,
    frames: SharedFrames,
) -> Result<SharedFrames, NoMemory>
    requires stands { Stands walk.old }
    requires live { IsLive (nodes walk.old) id }
    requires fits { Fits (sight_at (nodes walk.old) id) query }
    requires absent { IsAbsent query (kept walk.old id) }
    requires quiet { events_at (nodes walk.old) id query ≡ [] }
    requires value { AnswerFrames (nodes walk.old) id query frames }
    requires children { AreOfChildren (nodes walk.old) id frames }
    ensures same { IfOk result (λ told. told ≡ frames) }
    ensures stands { Stands walk.new }
    ensures parts { SameParts walk.old walk.new }
    ensures walked { OnOk result
        ((old : State) (more : ℕ) → more ≤ 4 → WalkedBelow id query more old (seen R.log walk.old) →
        Walked id query old (seen R.log walk.new)) }
    ensures stopped { OnErr result
        ((old : State) (more : ℕ) → WalkedBelow id query more old (seen R.log walk.old) →
        Stopped id query old (seen R.log walk.new)) }
    ensures own { IfOk result
        (λ told. kept walk.new id ≡
        kept_with (kept walk.old id) ((query, answer.Frames told) ∷ [])) }
{
    let told = frames.again()?;
    walk.put(id, query, Answer::Frames(frames))?;
    Ok(told)
}
