//! What holds of the definitions. The law is the contract of a function that does nothing.

ghost use Rattle.std.specs.Prelude.{◌≡◌, ◌≤◌, ◌∷◌, ℕ, ℤ, Bool, List, Some, drop, length, true};
ghost use Rattle.lunit.specs.Units.{IsUnits};
ghost use Rattle.node_arena.specs.Numbers.{child_at};
ghost use Rattle.node_arena.specs.Plain.{IsSound};
ghost use Rattle.node_arena.specs.declared.number.NodeId.{NodeId};
ghost use Rattle.placing.specs.Nodes.{bare, kid_at, kids_at, sight_at, IsLive};
ghost use Rattle.placing.specs.Ranges.{AreReadable, IsGridStyle};
ghost use Rattle.tree_rules.specs.Answers.{Frame, Pair};
ghost use Rattle.tree_rules.specs.AskedQueries.{pairs_below};
ghost use Rattle.tree_rules.specs.Frames as rules;
ghost use Rattle.tree_rules.specs.GridSizes.{pairs_for};
ghost use Rattle.tree_rules.specs.Labels.{Label};
ghost use Rattle.tree_rules.specs.Places.{answers_of};
ghost use Rattle.tree_rules.specs.Queries.{is_container, Fits};
ghost use Rattle.tree_rules.specs.declared.query.Given.{Given};
ghost use Rattle.box_layout.specs.Asking.{frames_asked};
ghost use Rattle.box_layout.specs.Beneath.{AreTelling};
ghost use Rattle.box_layout.specs.Near.{AreSized, AreUnits, StandNear};
ghost use Rattle.box_layout.specs.Sittings.{flex_numbered};
ghost use Rattle.box_layout.specs.Stands.{IsGivenNear, StandBelow};

use node_arena::{Arena, NodeId};
use placing::{Node, root};

#[tactic(auto, using(crate::proofs::Near::flex_near))]
/// The children of a flex container stand at a magnitude of at most 2^50 units from its border box along each axis, where there are at
/// most 65,536 of them and as many lines, their values are ones that a text reads as, and all sizes are lengths. So the positions of 64
/// levels sum to no more than 2^56.
pub fn flex_children_stand_near()
    ensures { (column : Bool) (x : Label) (main cross : ℤ) (sizes : List ℤ) (ranges : List (ℕ × ℕ))
        (all : List rules.Sitting) → IsGridStyle x.grid → IsUnits main → IsUnits cross →
        AreUnits sizes → length sizes ≤ 65536 → AreSized all → length all ≤ 65536 →
        StandNear (flex_numbered column x main cross sizes ranges all) }
{}

/// What holds of every arena.
fn sound(tree: &Arena<Node>) -> NodeId
    ensures { IsSound tree.now }
{
    tree.root()
}

#[tactic(auto, using(crate::proofs::BoxesNear::frames_near))]
/// In a tree whose values a text reads as, the children of a node stand no further from its border box along each axis than a little
/// more than 2^50 units, so that the positions of 64 levels sum to no more than 2^56; their sizes are lengths, and the tracks that they
/// are given lie little further from each other than those that the node is given. `level` counts the levels above the node. The
/// function does next to nothing: the law is its contract.
pub fn frames_stand_near(tree: &Arena<Node>, id: NodeId)
    requires live { IsLive (bare tree.now.tree) id }
    requires readable { AreReadable (bare tree.now.tree) }
    ensures { (level : ℕ) (reps : List Pair) (inline block : Given) → level ≤ 64 →
        IsGivenNear level inline → IsGivenNear level block →
        StandBelow level
        (((answers_of (sight_at (bare tree.now.tree) id)).down reps inline).frames block) }
{
    sound(tree);
}

#[tactic(auto, using(crate::proofs::BoxesFit::frames_fit))]
/// In a tree whose values a text reads as, the question for its frames fits each child that is a container, where it is given what its
/// frame gives it: as many tracks as it spans where it is a subgrid, else a size of at least 0, and no gap below 0. The function does
/// next to nothing: the law is its contract.
pub fn frames_fit_below(tree: &Arena<Node>, id: NodeId)
    requires { AreReadable (bare tree.now.tree) }
    ensures { (reps : List Pair) (inline block : Given) →
        Fits (sight_at (bare tree.now.tree) id) (frames_asked reps inline block) →
        (index : ℕ) (c : NodeId) (f : Frame) (rest : List Frame) →
        child_at (bare tree.now.tree) id index ≡ Some c →
        drop index (((answers_of (sight_at (bare tree.now.tree) id)).down reps inline).frames block)
        ≡ f ∷ rest → is_container (sight_at (bare tree.now.tree) c).label.kind ≡ true →
        Fits (sight_at (bare tree.now.tree) c)
        (frames_asked
        (pairs_for (kid_at (bare tree.now.tree) c)
        (pairs_below (sight_at (bare tree.now.tree) id).label.kind
        (sight_at (bare tree.now.tree) id).label
        (sight_at (bare tree.now.tree) id).chain (kids_at (bare tree.now.tree) id)
        (frames_asked reps inline block))) f.inline f.block) }
{
    root(tree);
    sound(tree);
}

#[tactic(auto, using(crate::proofs::Lower::frames_tell))]
/// In a tree whose values a text reads as, the frames of the children of a node tell which of them are subgrids of it: those that are
/// given tracks. The function does next to nothing: the law is its contract.
pub(crate) fn frames_tell_subgrids(tree: &Arena<Node>, id: NodeId)
    requires { AreReadable (bare tree.now.tree) }
    ensures { (reps : List Pair) (inline block : Given) →
        Fits (sight_at (bare tree.now.tree) id) (frames_asked reps inline block) →
        AreTelling (bare tree.now.tree) id
        (((answers_of (sight_at (bare tree.now.tree) id)).down reps inline).frames block) }
{
    root(tree);
    sound(tree);
}
