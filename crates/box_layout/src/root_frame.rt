//! The frame of the root of a tree in the viewport, by what the root answers.

ghost use Rattle.std.specs.Prelude.{◌≡◌, ◌∷◌, ◌^◌, ◌≤◌, ◌≤ℤ◌, [], ℕ, None, false, pos, true, IfOk, OnErr, OnOk, IsSome};
ghost use Rattle.layout_cache.specs.Kept.{answer_to};
ghost use Rattle.node_arena.specs.Numbers.{top_numbers};
ghost use Rattle.node_arena.specs.declared.number.NodeId.{NodeId};
ghost use Rattle.placing.specs.Kept.{frame_of};
ghost use Rattle.placing.specs.Nodes.{bare, sight_at, IsLive};
ghost use Rattle.placing.specs.Ranges.{AreReadable};
ghost use Rattle.placing.specs.Walks.{Walk};
ghost use Rattle.tree_rules.specs.AskedQueries.{inline_query};
ghost use Rattle.tree_rules.specs.Frames.{given_box};
ghost use Rattle.tree_rules.specs.NodeSizes.{inner};
ghost use Rattle.tree_rules.specs.Queries.{is_container, Fits, IsGivenFor};
ghost use Rattle.tree_rules.specs.declared.query.Ask.TheVariants as ask;
ghost use Rattle.tree_rules.specs.declared.query.Query.{Query};
ghost use Rattle.walker.specs.Walkers.{kept, nodes, seen, SameParts, Stands};
ghost use Rattle.box_layout.specs.Asking.{frames_asked};
ghost use Rattle.box_layout.specs.BoxesSeen.{IsNearAt};
ghost use Rattle.box_layout.specs.Paths.{IsAsked, IsCutShort};
ghost use Rattle.box_layout.specs.Ranges.{IsWithin};
ghost use Rattle.box_layout.specs.RootFrames.{root_block_in, root_frame_by, root_frame_in, width_by};

use crate::root::{given_box, root_height, root_rect, root_width};
use crate::sizes::{height_alone, widths_alone};
use layout_cache::Given;
use lunit::{Lu, NoMemory};
use node_arena::{Arena, NodeId};
use outside::Ruler;
use placing::{Frame, Node, node_at};
use std::sync::ledger::Ledger;
use walker::Walker;

/// The inline size of the border box of the root in a viewport of this width, by the two inline sizes of its content.
fn root_box(tree: &Arena<Node>, id: NodeId, width: Lu, sizes: (Lu, Lu)) -> Lu
    requires live { IsLive (bare tree.now.tree) id }
    requires readable { AreReadable (bare tree.now.tree) }
    ensures value { result ≡ width_by width (sight_at (bare tree.now.tree) id).label sizes }
    ensures least { inner (sight_at (bare tree.now.tree) id).label.grid.columns ≤ℤ result }
{
    root_width(&node_at(tree, id).style, width, sizes)
}

/// What the root is given in the inline axis, by the inline size of its border box.
fn root_given(tree: &Arena<Node>, id: NodeId, across: Lu) -> Given
    requires live { IsLive (bare tree.now.tree) id }
    requires readable { AreReadable (bare tree.now.tree) }
    ensures { result ≡ given_box (sight_at (bare tree.now.tree) id).label.grid.columns across }
{
    given_box::<0>(&node_at(tree, id).style, across)
}

/// The frame of the root, by the inline size of its border box, what it is given for that, and the block size of its content.
fn root_placed(
    tree: &Arena<Node>,
    id: NodeId,
    viewport: (Lu, Lu),
    across: Lu,
    inline: Given,
    content: Lu,
) -> Frame
    requires live { IsLive (bare tree.now.tree) id }
    requires readable { AreReadable (bare tree.now.tree) }
    ensures child { result.child ≡ id }
    ensures value { frame_of result ≡
        root_frame_by viewport (sight_at (bare tree.now.tree) id).label across inline content }
    ensures some { IsGivenFor true false 0 result.block }
    ensures x { IsWithin (2 ^ 36) result.rect.x }
    ensures y { IsWithin (2 ^ 36) result.rect.y }
{
    let style = &node_at(tree, id).style;
    let size = root_height(style, viewport.1, content);
    Frame {
        child: id,
        rect: root_rect(style, viewport, (across, size)),
        inline,
        block: given_box::<1>(style, size),
    }
}

/// The frame of the root in a viewport of this width and height. It is asked for its inline sizes, and for its block size at its
/// width. `NoMemory` where memory is wanting; what was kept by then is right.
pub(crate) fn root_frame<R: Ruler, L: Ledger>(
    walk: &mut Walker<R, L>,
    id: NodeId,
    width: Lu,
    height: Lu,
) -> Result<Frame, NoMemory>
    requires stands { Stands walk.old }
    requires top { top_numbers (nodes walk.old) ≡ id ∷ [] }
    requires live { IsLive (nodes walk.old) id }
    requires alone { (sight_at (nodes walk.old) id).chain ≡ [] }
    ensures child { IfOk result (λ frame. frame.child ≡ id) }
    ensures value { IfOk result
        (λ frame. frame_of frame ≡ root_frame_in (nodes walk.old) id width height) }
    ensures fits { is_container (sight_at (nodes walk.old) id).label.kind ≡ true →
        IfOk result
        (λ frame. Fits (sight_at (nodes walk.old) id)
        (frames_asked [] frame.inline frame.block)) }
    ensures near { (level : ℕ) → 1 ≤ level →
        IfOk result (λ frame. IsNearAt level (pos 0) (pos 0) (frame_of frame)) }
    ensures stands { Stands walk.new }
    ensures parts { SameParts walk.old walk.new }
    ensures bare { nodes walk.new ≡ nodes walk.old }
    ensures laid { OnOk result
        (Walk (IsAsked (nodes walk.old) width height) 0 [] (seen R.log walk.old)
        (seen R.log walk.new)) }
    ensures cut { OnErr result
        (IsCutShort (nodes walk.old) width height (seen R.log walk.old) (seen R.log walk.new)) }
    ensures frames { OnOk result
        ((m : NodeId) (p : Query) → p.ask ≡ ask.Frames →
        answer_to p (kept walk.old m) ≡ None → answer_to p (kept walk.new m) ≡ None) }
    ensures quiet { IsSome (answer_to (inline_query false []) (kept walk.old id)) →
        IsSome (answer_to (root_block_in (nodes walk.old) id width) (kept walk.old id)) →
        seen R.log walk.new ≡ seen R.log walk.old }
{
    let sizes = widths_alone(walk, id)?;
    let across = root_box(walk.tree, id, width, sizes);
    let inline = root_given(walk.tree, id, across);
    let content = height_alone(walk, id, &inline)?;
    let viewport = (width, height);
    Ok(root_placed(walk.tree, id, viewport, across, inline, content))
}
