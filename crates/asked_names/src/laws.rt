//! What holds of every layout. Each law is the contract of a function that does next to nothing.

ghost use Rattle.std.specs.Prelude.{◌≡◌, ◌≤◌, [], ℤ, length, map, Bool, Contains, List};
ghost use Rattle.box_layout.specs.BoxesSeen.{bare_boxes};
ghost use Rattle.box_layout.specs.LeafHeights.{AreMeasured};
ghost use Rattle.box_layout.specs.Paths.{IsAsked, IsOnPath, IsPathKept};
ghost use Rattle.node_arena.specs.Plain.{IsSound};
ghost use Rattle.node_arena.specs.declared.number.NodeId.{NodeId};
ghost use Rattle.placing.specs.Kept.{IsRight};
ghost use Rattle.placing.specs.Nodes.{bare, Bare, BareTrees};
ghost use Rattle.placing.specs.Walks.{bare_in, entries_of, events_of, kept_in, kept_with, AreAsked, AreFresh, Entry, State};
ghost use Rattle.placing.specs.declared.node.Answer.{Answer};
ghost use Rattle.tree_rules.specs.Answers.{Box};
ghost use Rattle.tree_rules.specs.AskedQueries.{ToNode};
ghost use Rattle.tree_rules.specs.declared.query.Query.{Query};
ghost use Rattle.asked_names.specs.Asked.{asked_in, chosen, measured_at, name_in, path_in, told_of, AllDiffer, AreEmpty, AreFew, AreNamed, IsAskedOf, IsListed, IsNewLeaf, IsOnPathOf, LeavesAreBare};

use node_arena::{Arena, NodeId};
use placing::{Node, root};

/// What holds of every arena.
fn stands(tree: &Arena<Node>) -> NodeId
    ensures { IsSound tree.now }
{
    tree.root()
}

/// In any viewport each question that laying out a tree may ask goes to one of its nodes, and stands with the name of that node among all
/// that the definitions ask of the tree; and each one on the path of the boxes stands on their path (own rule).
pub fn layouts_ask_what_is_listed(tree: &Arena<Node>)
    ensures asked { (width height : ℤ) (m : NodeId) (q : Query) →
        IsAsked (bare tree.now.tree) width height m q →
        IsListed (bare tree.now.tree) (asked_in width height (bare tree.now.tree)) m q }
    ensures path { (width height : ℤ) (m : NodeId) (q : Query) →
        IsOnPath (bare tree.now.tree) width height m q →
        Contains (path_in width height (bare tree.now.tree)) (name_in (bare tree.now.tree) m, q) }
{
    stands(tree);
}

/// Each question that the definitions list for a tree is asked of a node of its name, and each one
/// that they list for the path of the boxes stands on that path: the lists hold nothing else.
pub fn what_is_listed_is_asked(tree: &Arena<Node>)
    ensures asked { (width height : ℤ) (t : ToNode) →
        Contains (asked_in width height (bare tree.now.tree)) t →
        IsAskedOf (bare tree.now.tree) width height t }
    ensures path { (width height : ℤ) (t : ToNode) →
        Contains (path_in width height (bare tree.now.tree)) t →
        IsOnPathOf (bare tree.now.tree) width height t }
{
    root(tree);
    stands(tree);
}

#[tactic(auto, using(crate::proofs::Once::differ_all, crate::proofs::Once::few_all))]
/// Where no two nodes have one name and a list has for no node more questions than the sixteen whose answers it keeps, answers to
/// these questions, each of which its node lacked where it was put, are all to different questions, and so no more than there are questions.
pub fn answers_are_put_once()
    ensures once { (b : BareTrees) (all : List ToNode) (kept : NodeId → List (Query × Answer))
        (entries : List Entry) → AreNamed b → AreFew all → AreAsked (IsListed b all) entries →
        AreFresh kept [] entries → AllDiffer (map (told_of b) entries) }
    ensures few { (b : BareTrees) (all : List ToNode) (kept : NodeId → List (Query × Answer))
        (entries : List Entry) → AreNamed b → AreFew all → AreAsked (IsListed b all) entries →
        AreFresh kept [] entries → length entries ≤ length all }
{}

/// Where a layout keeps the question of the path for each container, it kept at least as many answers as there are containers that kept
/// nothing before: so many as pass a test that only such containers pass.
pub fn each_container_is_answered(tree: &Arena<Node>)
    ensures { (test : NodeId × Bare → Bool) (width height : ℤ) (old new : State)
        (added : List Entry) → LeavesAreBare (bare tree.now.tree) → IsRight new.arena.tree →
        bare_in new ≡ bare tree.now.tree → IsPathKept (bare tree.now.tree) width height new →
        ((m : NodeId) → kept_in new m ≡ kept_with (kept_in old m) (entries_of m added)) →
        AreEmpty test (bare tree.now.tree) old →
        length (chosen test (bare tree.now.tree)) ≤ length added }
{
    root(tree);
    stands(tree);
}

/// Where a layout leaves the leaves of new grids their heights, as `walk_boxes` does, each leaf that is a child of a grid and kept nothing
/// before, as the grid did, was measured at the content width of its box. Names differ.
pub fn new_leaves_are_measured(tree: &Arena<Node>)
    ensures { (width height : ℤ) (old new : State) (added : List Entry) →
        AreNamed (bare tree.now.tree) →
        ((m : NodeId) → kept_in new m ≡ kept_with (kept_in old m) (entries_of m added)) →
        AreMeasured (bare tree.now.tree) width height old new → (c : NodeId) →
        IsNewLeaf (bare tree.now.tree) old c → (box : Box) →
        Contains (bare_boxes width height (bare tree.now.tree)) box →
        box.0 ≡ name_in (bare tree.now.tree) c →
        Contains (events_of (bare tree.now.tree) added)
        (measured_at (bare tree.now.tree) c box.1.width) }
{
    root(tree);
    stands(tree);
}
