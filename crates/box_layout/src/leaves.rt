//! The block sizes of the leaves among the children of a grid, at the content widths of their frames.

ghost use Rattle.std.specs.Prelude.{◌≡◌, [], false, length, true, IsSome, OnErr, OnOk};
ghost use Rattle.layout_cache.specs.Kept.{answer_to};
ghost use Rattle.node_arena.specs.Plain.{IsSound};
ghost use Rattle.placing.specs.Keeping.{is_leaf};
ghost use Rattle.placing.specs.Nodes.{sight_at, IsLive};
ghost use Rattle.placing.specs.Walks.{bare_in, State, Stopped, Walked};
ghost use Rattle.tree_rules.specs.AskedQueries.{block_query};
ghost use Rattle.tree_rules.specs.Queries.{IsGivenFor};
ghost use Rattle.tree_rules.specs.declared.query.Query.{Query};
ghost use Rattle.walker.specs.Walkers.{kept, nodes, seen, SameParts, Stands};
ghost use Rattle.box_layout.specs.LeafHeights.{AreLeafFrames, HoldLeaves, IsLeafAsked, IsLeafStopped, UsesLeaves};

use crate::sizes::height_alone;
use lunit::NoMemory;
use node_arena::{Arena, NodeId};
use outside::Ruler;
use placing::{Frame, Node, NodeKind, node_at, root};
use std::sync::ledger::Ledger;
use walker::Walker;

/// What holds of every arena.
pub(crate) fn stands(tree: &Arena<Node>) -> NodeId
    ensures { IsSound tree.now }
{
    tree.root()
}

/// Whether a node is a leaf.
fn is_leaf(kind: &NodeKind) -> bool
    ensures { result ≡ is_leaf kind.now }
{
    match kind {
        NodeKind::Grid => false,
        NodeKind::Flex => false,
        NodeKind::Leaf(_) => true,
    }
}

/// A child that is a leaf is asked for its block size at the width that its frame gives it, and keeps it; nothing is asked of another.
fn ask_leaf<R: Ruler, L: Ledger>(walk: &mut Walker<R, L>, frame: &Frame) -> Result<(), NoMemory>
    requires stands { Stands walk.old }
    requires live { IsLive (nodes walk.old) frame.now.child }
    requires alone { is_leaf (sight_at (nodes walk.old) frame.now.child).label.kind ≡ true →
        (sight_at (nodes walk.old) frame.now.child).chain ≡ [] }
    requires given { is_leaf (sight_at (nodes walk.old) frame.now.child).label.kind ≡ true →
        IsGivenFor true false 0 frame.now.inline }
    ensures stands { Stands walk.new }
    ensures parts { SameParts walk.old walk.new }
    ensures asked { OnOk result
        (IsLeafAsked (nodes walk.old) frame.now
        (seen R.log walk.old) (seen R.log walk.new)) }
    ensures stopped { OnErr result
        (IsLeafStopped (nodes walk.old) frame.now
        (seen R.log walk.old) (seen R.log walk.new)) }
    ensures held { OnOk result
        (is_leaf (sight_at (nodes walk.old) frame.now.child).label.kind ≡ true →
        IsSome
        (answer_to (block_query false [] frame.now.inline)
        (kept walk.new frame.now.child))) }
{
    if !is_leaf(&node_at(walk.tree, frame.child).kind) {
        return Ok(());
    }
    height_alone(walk, frame.child, &frame.inline)?;
    Ok(())
}

/// Each leaf among the children of a grid with these frames keeps its block size at the width that its frame gives it: where the
/// grid has just answered, it is found there.
pub(crate) fn ask_leaves<R: Ruler, L: Ledger>(
    walk: &mut Walker<R, L>,
    id: NodeId,
    frames: &[Frame],
) -> Result<(), NoMemory>
    requires stands { Stands walk.old }
    requires frames { AreLeafFrames (nodes walk.old) id frames.now }
    ensures stands { Stands walk.new }
    ensures parts { SameParts walk.old walk.new }
    ensures walked { OnOk result
        ((q : Query) (s : State) → UsesLeaves (nodes walk.old) id q frames.now →
        bare_in s ≡ nodes walk.old →
        Walked id q s (seen R.log walk.old) →
        Walked id q s (seen R.log walk.new)) }
    ensures stopped { OnErr result
        ((q : Query) (s : State) → UsesLeaves (nodes walk.old) id q frames.now →
        bare_in s ≡ nodes walk.old →
        Walked id q s (seen R.log walk.old) →
        Stopped id q s (seen R.log walk.new)) }
    ensures own { OnOk result (kept walk.new id ≡ kept walk.old id) }
    ensures held { OnOk result
        (HoldLeaves (nodes walk.old) (length frames.now) frames.now
        (seen R.log walk.new)) }
{
    root(walk.tree);
    stands(walk.tree);
    for index in 0..frames.len() {
        ask_leaf(walk, &frames[index])?;
    }
    Ok(())
}
