//! The frames of the children of a container, as its list of answers keeps them.

ghost use Rattle.std.specs.Prelude.{◌≡◌, ◌∷◌, [], IfOk, OnErr, OnOk};
ghost use Rattle.node_arena.specs.declared.number.NodeId.{NodeId};
ghost use Rattle.placing.specs.Nodes.{level_at, sight_at, IsLive};
ghost use Rattle.placing.specs.Seats.{IsSeat};
ghost use Rattle.placing.specs.Spread.{IsSpread};
ghost use Rattle.placing.specs.Walks.{kept_with, Stopped, Walked};
ghost use Rattle.placing.specs.declared.node.Answer.TheVariants as answer;
ghost use Rattle.tree_rules.specs.Chains.{is_grid_kind};
ghost use Rattle.tree_rules.specs.KeptAnswers.{IsAbsent};
ghost use Rattle.tree_rules.specs.Queries.{Fits};
ghost use Rattle.tree_rules.specs.declared.kind.NodeKind.TheVariants as kind;
ghost use Rattle.tree_rules.specs.declared.query.Query.{Query};
ghost use Rattle.inline_sizes.specs.Calls.{Found, Keeps};
ghost use Rattle.block_sizes.specs.Wides.{farthest};
ghost use Rattle.walker.specs.Walkers.{kept, nodes, seen, HasSeat, SameParts, Stands};
ghost use Rattle.box_layout.specs.Asking.{frames_asked};
ghost use Rattle.box_layout.specs.Boxed.{AnswerFrames, AreOfChildren};
ghost use Rattle.box_layout.specs.LeafHeights.{AreLeavesKept, MeasuresLeaves};

use crate::answered::{frames_kept, grid_framed};
use crate::flex_anew::flex_frames_anew;
use crate::leaves::{ask_leaves, stands};
use crate::queries::{frames_query, kept_frames};
use crate::row_views::rows_of;
use block_sizes::wide_for;
use layout_cache::{Given, Query};
use lunit::{Area, NoMemory};
use node_arena::NodeId;
use outside::Ruler;
use placing::{Above, NodeKind, SharedFrames, node_at, root, seat};
use std::sync::ledger::Ledger;
use walker::{Seat, Walker};

/// Whether a node is a grid.
pub(crate) fn is_grid(kind: &NodeKind) -> bool
    ensures { result ≡ is_grid_kind kind.now }
{
    match kind {
        NodeKind::Grid => true,
        NodeKind::Flex => false,
        NodeKind::Leaf(_) => false,
    }
}

/// The frames of a grid in its seat that keeps none for this question: it makes two steps at most. They are kept last.
fn grid_frames_anew<R: Ruler, L: Ledger>(
    walk: &mut Walker<R, L>,
    id: NodeId,
    query: Query,
    seat: &Seat,
) -> Result<SharedFrames, NoMemory>
    requires stands { Stands walk.old }
    requires live { IsLive (nodes walk.old) id }
    requires grid { (sight_at (nodes walk.old) id).label.kind ≡ kind.Grid }
    requires query { query ≡ frames_asked seat.now.reps.now query.inline query.block }
    requires fits { Fits (sight_at (nodes walk.old) id) query }
    requires absent { IsAbsent query (kept walk.old id) }
    requires seat { HasSeat (sight_at (nodes walk.old) id) seat.now }
    requires columns { IsSpread (farthest (level_at (nodes walk.old) id)) query.inline }
    requires rows { IsSpread (farthest (level_at (nodes walk.old) id)) query.block }
    ensures value { IfOk result (λ frames. AnswerFrames (nodes walk.old) id query frames) }
    ensures children { IfOk result (λ frames. AreOfChildren (nodes walk.old) id frames) }
    ensures stands { Stands walk.new }
    ensures parts { SameParts walk.old walk.new }
    ensures walked { OnOk result
        (Walked id query (seen R.log walk.old) (seen R.log walk.new)) }
    ensures stopped { OnErr result
        (Stopped id query (seen R.log walk.old) (seen R.log walk.new)) }
    ensures own { IfOk result
        (λ frames. kept walk.new id ≡
        kept_with (kept walk.old id) ((query, answer.Frames frames) ∷ [])) }
{
    root(walk.tree);
    let width = &query.inline;
    let height = &query.block;
    let wide = wide_for(walk, id, seat, width)?;
    let held = wide.grid();
    let rows = rows_of(
        walk.alloc,
        walk.tree,
        id,
        seat.reps,
        width,
        held,
        height,
        walk.passes,
    )?;
    let frames = grid_framed(walk, id, seat.reps, width, held, rows)?;
    let told = frames_kept(walk, id, query, frames)?;
    Ok(told)
}

/// The frames of a grid in its seat that keeps none for this question: they are found, and kept last. Then each leaf among its children
/// keeps its block size at the content width of its rectangle.
fn grid_frames_kept<R: Ruler, L: Ledger>(
    walk: &mut Walker<R, L>,
    id: NodeId,
    query: Query,
    seat: &Seat,
) -> Result<SharedFrames, NoMemory>
    requires stands { Stands walk.old }
    requires live { IsLive (nodes walk.old) id }
    requires grid { (sight_at (nodes walk.old) id).label.kind ≡ kind.Grid }
    requires query { query ≡ frames_asked seat.now.reps.now query.inline query.block }
    requires fits { Fits (sight_at (nodes walk.old) id) query }
    requires absent { IsAbsent query (kept walk.old id) }
    requires seat { HasSeat (sight_at (nodes walk.old) id) seat.now }
    requires columns { IsSpread (farthest (level_at (nodes walk.old) id)) query.inline }
    requires rows { IsSpread (farthest (level_at (nodes walk.old) id)) query.block }
    ensures value { IfOk result (λ frames. AnswerFrames (nodes walk.old) id query frames) }
    ensures children { IfOk result (λ frames. AreOfChildren (nodes walk.old) id frames) }
    ensures stands { Stands walk.new }
    ensures parts { SameParts walk.old walk.new }
    ensures walked { OnOk result
        (Walked id query (seen R.log walk.old) (seen R.log walk.new)) }
    ensures stopped { OnErr result
        (Stopped id query (seen R.log walk.old) (seen R.log walk.new)) }
    ensures own { IfOk result
        (λ frames. kept walk.new id ≡
        kept_with (kept walk.old id) ((query, answer.Frames frames) ∷ [])) }
    ensures leaves { OnOk result
        ((sight_at (nodes walk.old) id).label.kind ≡ kind.Grid →
        AreLeavesKept (nodes walk.old) id query
        (seen R.log walk.new)) }
{
    root(walk.tree);
    stands(walk.tree);
    let frames = grid_frames_anew(walk, id, query, seat)?;
    let listed = frames.as_slice();
    ask_leaves(walk, id, listed)?;
    Ok(frames)
}

/// The frames of a container in its seat that keeps none for this question: they are found, and kept last.
fn frames_anew<R: Ruler, L: Ledger>(
    walk: &mut Walker<R, L>,
    id: NodeId,
    query: Query,
    seat: &Seat,
) -> Result<SharedFrames, NoMemory>
    requires stands { Stands walk.old }
    requires live { IsLive (nodes walk.old) id }
    requires query { query ≡ frames_asked seat.now.reps.now query.inline query.block }
    requires fits { Fits (sight_at (nodes walk.old) id) query }
    requires absent { IsAbsent query (kept walk.old id) }
    requires seat { HasSeat (sight_at (nodes walk.old) id) seat.now }
    requires columns { IsSpread (farthest (level_at (nodes walk.old) id)) query.inline }
    requires rows { IsSpread (farthest (level_at (nodes walk.old) id)) query.block }
    ensures value { IfOk result (λ frames. AnswerFrames (nodes walk.old) id query frames) }
    ensures children { IfOk result (λ frames. AreOfChildren (nodes walk.old) id frames) }
    ensures stands { Stands walk.new }
    ensures parts { SameParts walk.old walk.new }
    ensures walked { OnOk result
        (Walked id query (seen R.log walk.old) (seen R.log walk.new)) }
    ensures stopped { OnErr result
        (Stopped id query (seen R.log walk.old) (seen R.log walk.new)) }
    ensures own { IfOk result
        (λ frames. kept walk.new id ≡
        kept_with (kept walk.old id) ((query, answer.Frames frames) ∷ [])) }
    ensures leaves { OnOk result
        ((sight_at (nodes walk.old) id).label.kind ≡ kind.Grid →
        AreLeavesKept (nodes walk.old) id query
        (seen R.log walk.new)) }
{
    if is_grid(&node_at(walk.tree, id).kind) {
        return grid_frames_kept(walk, id, query, seat);
    }
    flex_frames_anew(walk, id, query)
}

#[inline(always)]
/// The frames of the children of a container in its seat, by the counts of the repetitions above it and what it is given along each
/// axis, in document order: `frames_of` says more.
pub fn frames_at<R: Ruler, L: Ledger>(
    walk: &mut Walker<R, L>,
    id: NodeId,
    seat: &Seat,
    inline: &Given,
    block: &Given,
) -> Result<SharedFrames, NoMemory>
    requires stands { Stands walk.old }
    requires live { IsLive (nodes walk.old) id }
    requires fits { Fits (sight_at (nodes walk.old) id)
        (frames_asked seat.now.reps.now inline.now block.now) }
    requires seat { HasSeat (sight_at (nodes walk.old) id) seat.now }
    requires columns { IsSpread (farthest (level_at (nodes walk.old) id)) inline.now }
    requires rows { IsSpread (farthest (level_at (nodes walk.old) id)) block.now }
    ensures value { IfOk result
        (λ frames. AnswerFrames (nodes walk.old) id
        (frames_asked seat.now.reps.now inline.now block.now) frames) }
    ensures children { IfOk result (λ frames. AreOfChildren (nodes walk.old) id frames) }
    ensures stands { Stands walk.new }
    ensures parts { SameParts walk.old walk.new }
    ensures walked { OnOk result
        (Walked id (frames_asked seat.now.reps.now inline.now block.now)
        (seen R.log walk.old) (seen R.log walk.new)) }
    ensures stopped { OnErr result
        (Stopped id (frames_asked seat.now.reps.now inline.now block.now)
        (seen R.log walk.old) (seen R.log walk.new)) }
    ensures found { Found id (frames_asked seat.now.reps.now inline.now block.now)
        (seen R.log walk.old) (seen R.log walk.new) }
    ensures own { IfOk result
        (λ frames. Keeps id (frames_asked seat.now.reps.now inline.now block.now)
        (seen R.log walk.old) (seen R.log walk.new) (answer.Frames frames)) }
    ensures leaves { OnOk result
        (MeasuresLeaves (nodes walk.old) id (frames_asked seat.now.reps.now inline.now block.now)
        (seen R.log walk.old) (seen R.log walk.new)) }
{
    if let Some(frames) = kept_frames(walk.tree, id, seat.reps, inline, block) {
        return frames.again();
    }
    let query = frames_query(walk.alloc, seat.reps, inline, block)?;
    frames_anew(walk, id, query, seat)
}

/// The frames of a container under this context, of which it keeps none for this question.
fn frames_under<R: Ruler, L: Ledger>(
    walk: &mut Walker<R, L>,
    id: NodeId,
    query: Query,
    reps: &[(u32, u32)],
    above: Above,
    area: Area,
) -> Result<SharedFrames, NoMemory>
    requires stands { Stands walk.old }
    requires live { IsLive (nodes walk.old) id }
    requires query { query ≡ frames_asked reps.now query.inline query.block }
    requires fits { Fits (sight_at (nodes walk.old) id) query }
    requires absent { IsAbsent query (kept walk.old id) }
    requires seat { IsSeat (sight_at (nodes walk.old) id) reps.now above area }
    requires columns { IsSpread (farthest (level_at (nodes walk.old) id)) query.inline }
    requires rows { IsSpread (farthest (level_at (nodes walk.old) id)) query.block }
    ensures value { IfOk result (λ frames. AnswerFrames (nodes walk.old) id query frames) }
    ensures children { IfOk result (λ frames. AreOfChildren (nodes walk.old) id frames) }
    ensures stands { Stands walk.new }
    ensures parts { SameParts walk.old walk.new }
    ensures walked { OnOk result
        (Walked id query (seen R.log walk.old) (seen R.log walk.new)) }
    ensures stopped { OnErr result
        (Stopped id query (seen R.log walk.old) (seen R.log walk.new)) }
    ensures own { IfOk result
        (λ frames. kept walk.new id ≡
        kept_with (kept walk.old id) ((query, answer.Frames frames) ∷ [])) }
    ensures leaves { OnOk result
        ((sight_at (nodes walk.old) id).label.kind ≡ kind.Grid →
        AreLeavesKept (nodes walk.old) id query
        (seen R.log walk.new)) }
{
    let seat = Seat {
        reps,
        above: &above,
        area,
    };
    frames_anew(walk, id, query, &seat)
}

/// The frames of the children of a container, in document order, once it is given this along each axis (CSS Grid 2, sections 6 and
/// 11; CSS Flexbox 1, section 9): the border box of each child from the container's border box, in units of 1/64 px, and what the
/// child is given. `reps` holds the counts of the automatic repeats of the grids above it that it sees, columns first, the topmost
/// grid first. The edges of given tracks differ from 0 and from each other by at most 2^54, and 2^33 more for each level.
///
/// Kept frames are taken as they are, and then nothing changes; else they are found, and kept last, and each leaf among the children of
/// a grid then keeps its block size at the content width of its rectangle. `NoMemory` where memory is wanting; what was kept by then is
/// right.
pub fn frames_of<R: Ruler, L: Ledger>(
    walk: &mut Walker<R, L>,
    id: NodeId,
    reps: &[(u32, u32)],
    inline: &Given,
    block: &Given,
) -> Result<SharedFrames, NoMemory>
    requires stands { Stands walk.old }
    requires live { IsLive (nodes walk.old) id }
    requires fits { Fits (sight_at (nodes walk.old) id)
        (frames_asked reps.now inline.now block.now) }
    requires columns { IsSpread (farthest (level_at (nodes walk.old) id)) inline.now }
    requires rows { IsSpread (farthest (level_at (nodes walk.old) id)) block.now }
    ensures value { IfOk result
        (λ frames. AnswerFrames (nodes walk.old) id
        (frames_asked reps.now inline.now block.now) frames) }
    ensures children { IfOk result (λ frames. AreOfChildren (nodes walk.old) id frames) }
    ensures stands { Stands walk.new }
    ensures parts { SameParts walk.old walk.new }
    ensures walked { OnOk result
        (Walked id (frames_asked reps.now inline.now block.now)
        (seen R.log walk.old) (seen R.log walk.new)) }
    ensures stopped { OnErr result
        (Stopped id (frames_asked reps.now inline.now block.now)
        (seen R.log walk.old) (seen R.log walk.new)) }
    ensures found { Found id (frames_asked reps.now inline.now block.now)
        (seen R.log walk.old) (seen R.log walk.new) }
    ensures own { IfOk result
        (λ frames. Keeps id (frames_asked reps.now inline.now block.now)
        (seen R.log walk.old) (seen R.log walk.new) (answer.Frames frames)) }
    ensures leaves { OnOk result
        (MeasuresLeaves (nodes walk.old) id (frames_asked reps.now inline.now block.now)
        (seen R.log walk.old) (seen R.log walk.new)) }
{
    if let Some(frames) = kept_frames(walk.tree, id, reps, inline, block) {
        return frames.again();
    }
    let query = frames_query(walk.alloc, reps, inline, block)?;
    let (above, area) = seat(walk.alloc, walk.tree, id, reps)?;
    frames_under(walk, id, query, reps, above, area)
}
