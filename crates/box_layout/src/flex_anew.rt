//! The frames of the children of a flex container, found and kept.

ghost use Rattle.std.specs.Prelude.{◌≡◌, ◌∷◌, [], false, true, IfOk, OnErr, OnOk};
ghost use Rattle.placing.specs.Nodes.{sight_at, IsLive};
ghost use Rattle.placing.specs.Walks.{kept_with, Stopped, Walked, WalkedBelow};
ghost use Rattle.placing.specs.declared.node.Answer.TheVariants as answer;
ghost use Rattle.tree_rules.specs.Frames.{given_size};
ghost use Rattle.tree_rules.specs.KeptAnswers.{IsAbsent};
ghost use Rattle.tree_rules.specs.Queries.{Fits};
ghost use Rattle.tree_rules.specs.declared.kind.NodeKind.TheVariants as kind;
ghost use Rattle.tree_rules.specs.declared.query.Ask.TheVariants as ask;
ghost use Rattle.walker.specs.Walkers.{kept, nodes, seen, SameParts, Stands};
ghost use Rattle.box_layout.specs.Boxed.{AnswerFrames, AreOfChildren};

use crate::answered::frames_kept;
use crate::flexed::{column_frames, row_frames};
use layout_cache::{Given, Query};
use lunit::{Lu, NoMemory, Sequence};
use node_arena::NodeId;
use outside::Ruler;
use placing::style::is_column;
use placing::{Frame, SharedFrames, node_at};
use std::sync::ledger::Ledger;
use walker::Walker;

/// The size that a question gives along an axis; 0 where it gives none.
fn size_given(given: &Given) -> Lu
    ensures { result ≡ given_size given.now }
{
    match given {
        Given::Size(size) => *size,
        _ => Lu::default(),
    }
}

/// The frames of the children of a row that this question asks for. It makes one step.
fn row_found<R: Ruler, L: Ledger>(
    walk: &mut Walker<R, L>,
    id: NodeId,
    query: &Query,
) -> Result<Sequence<Frame>, NoMemory>
    requires stands { Stands walk.old }
    requires live { IsLive (nodes walk.old) id }
    requires flex { (sight_at (nodes walk.old) id).label.kind ≡ kind.Flex }
    requires direction { (sight_at (nodes walk.old) id).label.content.column ≡ false }
    requires ask { query.now.ask ≡ ask.Frames }
    ensures value { IfOk result
        (λ frames. AnswerFrames (nodes walk.old) id query.now frames) }
    ensures children { IfOk result (λ frames. AreOfChildren (nodes walk.old) id frames) }
    ensures stands { Stands walk.new }
    ensures parts { SameParts walk.old walk.new }
    ensures below { OnOk result
        (WalkedBelow id query.now 1 (seen R.log walk.old) (seen R.log walk.new)) }
    ensures stopped { OnErr result
        (Stopped id query.now (seen R.log walk.old) (seen R.log walk.new)) }
{
    let width = size_given(&query.inline);
    let height = size_given(&query.block);
    let frames = row_frames(walk, id, width, height)?;
    Ok(frames)
}

/// The frames of the children of a column that this question asks for. It makes one step.
fn column_found<R: Ruler, L: Ledger>(
    walk: &mut Walker<R, L>,
    id: NodeId,
    query: &Query,
) -> Result<Sequence<Frame>, NoMemory>
    requires stands { Stands walk.old }
    requires live { IsLive (nodes walk.old) id }
    requires flex { (sight_at (nodes walk.old) id).label.kind ≡ kind.Flex }
    requires direction { (sight_at (nodes walk.old) id).label.content.column ≡ true }
    requires ask { query.now.ask ≡ ask.Frames }
    ensures value { IfOk result
        (λ frames. AnswerFrames (nodes walk.old) id query.now frames) }
    ensures children { IfOk result (λ frames. AreOfChildren (nodes walk.old) id frames) }
    ensures stands { Stands walk.new }
    ensures parts { SameParts walk.old walk.new }
    ensures below { OnOk result
        (WalkedBelow id query.now 1 (seen R.log walk.old) (seen R.log walk.new)) }
    ensures stopped { OnErr result
        (Stopped id query.now (seen R.log walk.old) (seen R.log walk.new)) }
{
    let width = size_given(&query.inline);
    let height = size_given(&query.block);
    let frames = column_frames(walk, id, width, height)?;
    Ok(frames)
}

/// The frames of the children of a flex container that this question asks for. It makes one step.
fn flex_found<R: Ruler, L: Ledger>(
    walk: &mut Walker<R, L>,
    id: NodeId,
    query: &Query,
) -> Result<Sequence<Frame>, NoMemory>
    requires stands { Stands walk.old }
    requires live { IsLive (nodes walk.old) id }
    requires flex { (sight_at (nodes walk.old) id).label.kind ≡ kind.Flex }
    requires ask { query.now.ask ≡ ask.Frames }
    ensures value { IfOk result
        (λ frames. AnswerFrames (nodes walk.old) id query.now frames) }
    ensures children { IfOk result (λ frames. AreOfChildren (nodes walk.old) id frames) }
    ensures stands { Stands walk.new }
    ensures parts { SameParts walk.old walk.new }
    ensures below { OnOk result
        (WalkedBelow id query.now 1 (seen R.log walk.old) (seen R.log walk.new)) }
    ensures stopped { OnErr result
        (Stopped id query.now (seen R.log walk.old) (seen R.log walk.new)) }
{
    if is_column(&node_at(walk.tree, id).style) {
        return column_found(walk, id, query);
    }
    row_found(walk, id, query)
}

/// The frames of the children of a flex container that keeps none for this question: they are found, and kept last. `NoMemory` where
/// memory is wanting.
pub(crate) fn flex_frames_anew<R: Ruler, L: Ledger>(
    walk: &mut Walker<R, L>,
    id: NodeId,
    query: Query,
) -> Result<SharedFrames, NoMemory>
    requires stands { Stands walk.old }
    requires live { IsLive (nodes walk.old) id }
    requires flex { (sight_at (nodes walk.old) id).label.kind ≡ kind.Flex }
    requires ask { query.ask ≡ ask.Frames }
    requires fits { Fits (sight_at (nodes walk.old) id) query }
    requires absent { IsAbsent query (kept walk.old id) }
    ensures value { IfOk result (λ frames. AnswerFrames (nodes walk.old) id query frames) }
    ensures children { IfOk result (λ frames. AreOfChildren (nodes walk.old) id frames) }
    ensures stands { Stands walk.new }
    ensures parts { SameParts walk.old walk.new }
    ensures walked { OnOk result
        (Walked id query (seen R.log walk.old) (seen R.log walk.new)) }
    ensures stopped { OnErr result
        (Stopped id query (seen R.log walk.old) (seen R.log walk.new)) }
    ensures own { IfOk result
        (λ frames. kept walk.new id ≡
        kept_with (kept walk.old id) ((query, answer.Frames frames) ∷ [])) }
{
    let frames = flex_found(walk, id, &query)?;
    let shared = SharedFrames::new(walk.alloc, frames)?;
    let told = frames_kept(walk, id, query, shared)?;
    Ok(told)
}
