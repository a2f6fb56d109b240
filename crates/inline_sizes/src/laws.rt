//! What holds of the definitions. The law is the contract of a function that does nothing.

ghost use Rattle.std.specs.Prelude.{◌∷◌, List};
ghost use Rattle.tree_rules.specs.LentItems.{lifted};
ghost use Rattle.node_arena.specs.Plain.{IsSound};
ghost use Rattle.placing.specs.Nodes.{bare, sight_at};
ghost use Rattle.placing.specs.Ranges.{AreReadable};
ghost use Rattle.placing.specs.Seats.{context_at};
ghost use Rattle.tree_rules.specs.Answers.{Pair};
ghost use Rattle.tree_rules.specs.declared.query.Given.{Given};
ghost use Rattle.inline_sizes.specs.GridsSeen.{HasItemsInTracks, HasLines, grid_seen};
ghost use Rattle.inline_sizes.specs.Lifted.{IsCovered, IsInside, IsLifted};

use lunit::Span;
use node_arena::{Arena, NodeId};
use part_rules::Level;
use placing::Node;

#[tactic(auto, using(crate::proofs::Nested::inside_covered, crate::proofs::Nested::inside_lifted))]
/// What lies within the lines of a subgrid lies, in the lines of the grid that sizes the tracks, within what the subgrid spans
/// there; so items that are lent through any number of levels stay within the tracks of the topmost subgrid.
pub fn lent_items_stay_inside(level: &Level, outer: &[Level], span: Span)
    requires lifted { IsLifted outer.now level.now.span }
    requires inside { IsInside level.now span }
    ensures covered { IsCovered (lifted outer.now level.now.span)
        (lifted (level.now ∷ outer.now) span) }
    ensures lifted { IsLifted (level.now ∷ outer.now) span }
{}

/// What holds of every arena.
fn stands(tree: &Arena<Node>) -> NodeId
    ensures { IsSound tree.now }
{
    tree.root()
}

#[tactic(auto, using(crate::proofs::FineSights::items_in_tracks, crate::proofs::FineSights::lines_in_tracks))]
/// In a tree whose values a text reads as, each item of a grid that sizes its tracks itself spans some of them and no others, also
/// where a subgrid lends it through any number of levels; and the lines of all areas have numbers in the grid that sizes the
/// tracks. The function does next to nothing: the law is its contract.
pub fn items_lie_in_their_tracks(tree: &Arena<Node>, id: NodeId)
    requires { AreReadable (bare tree.now.tree) }
    ensures items { (outer : List Pair) (width : Given) →
        HasItemsInTracks (sight_at (bare tree.now.tree) id)
        (grid_seen (bare tree.now.tree) id outer width) }
    ensures lines { (reps : List Pair) →
        HasLines (context_at (sight_at (bare tree.now.tree) id) reps) }
{
    stands(tree);
}
