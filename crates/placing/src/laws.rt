//! What holds of trees that keep answers. Each law is the contract of a function that does nothing.

ghost use Rattle.std.specs.Prelude.{◌≡◌, ◌&&◌, [], Bool, Some, List, if◌then◌else◌};
ghost use Rattle.layout_cache.specs.Kept.{answer_to};
ghost use Rattle.layout_cache.specs.Reach.{forgets};
ghost use Rattle.node_arena.specs.declared.number.NodeId.{NodeId};
ghost use Rattle.node_arena.specs.Numbers.{is_among, EachNode, IsNarrow};
ghost use Rattle.tree_rules.specs.Queries.{answer_of};
ghost use Rattle.tree_rules.specs.declared.query.Query.{Query};
ghost use Rattle.placing.specs.declared.node.Answer.{Answer};
ghost use Rattle.placing.specs.Kept.{kept_at, past_at, plain_answer, turn_at, IsRight, IsOfNode};
ghost use Rattle.placing.specs.Keeping.{goes_at, without_answers, without_past_of, HasTurn, HoldsNone, HoldsOn, IsTurned, KeepsOn, KeepsNone};
ghost use Rattle.placing.specs.Nodes.{bare, children_at, label_of_bare, sight_at, BareTrees, IsLive, NodeTrees};
ghost use Rattle.placing.specs.Ranges.{AreReadable, IsReadable};
ghost use Rattle.placing.specs.Told.{no_past};

#[tactic(auto, using(crate::proofs::KeptTrees::read_value, crate::proofs::KeptTrees::read_children))]
/// A kept answer is the one of the definitions, and its frames are those of the node's children, in document order.
pub fn kept_answers_are_defined()
    ensures value { (t : NodeTrees) (n : NodeId) (q : Query) (a : Answer) → IsRight t →
        answer_to q (kept_at t n) ≡ Some a → plain_answer a ≡ answer_of (sight_at (bare t) n) q }
    ensures children { (t : NodeTrees) (n : NodeId) (q : Query) (a : Answer) → IsRight t →
        answer_to q (kept_at t n) ≡ Some a →
        IsOfNode (sight_at (bare t) n) (children_at (bare t) n) q a }
{}

#[tactic(auto, using(crate::proofs::KeptTrees::none_right, crate::proofs::KeptTrees::still_right))]
/// Where nothing is kept all is right. A tree is right where each node keeps no answer, or keeps what it kept in a right tree in which the rules saw the same
/// of it and it had the same children; keeps nothing longer than its answers, or what it so kept there, where it stood and its children stood in the same
/// lines; and has a later turn than there or the last one, or the same one, where the rules see the same of it.
pub fn right_where_seen_the_same()
    ensures none { (t : NodeTrees) → KeepsNone t → HoldsNone t → IsRight t }
    ensures same { (t u : NodeTrees) → IsRight t → ((n : NodeId) → KeepsOn t u n) →
        ((n : NodeId) → HoldsOn t u n) → ((n : NodeId) → IsLive (bare u) n → IsTurned t u n) →
        IsRight u }
{}

#[tactic(auto, using(crate::proofs::KeptTrees::forgets_bare, crate::proofs::KeptTrees::forgets_kept, crate::proofs::KeptTrees::forgets_past, crate::proofs::KeptTrees::forgets_turn, crate::proofs::KeptTrees::forgets_right))]
/// Letting answers go changes nothing but the lists of these nodes and their turns, and what is right stays right.
pub fn forgetting_keeps_the_rest()
    ensures same { (ns : List NodeId) (t : NodeTrees) →
        bare (forgets without_answers ns t) ≡ bare t }
    ensures kept { (ns : List NodeId) (t : NodeTrees) (n : NodeId) →
        kept_at (forgets without_answers ns t) n ≡ (if is_among n ns then [] else kept_at t n) }
    ensures past { (ns : List NodeId) (t : NodeTrees) (n : NodeId) →
        past_at (forgets without_answers ns t) n ≡ past_at t n }
    ensures turn { (ns : List NodeId) (t : NodeTrees) (n : NodeId) → IsLive (bare t) n →
        HasTurn (is_among n ns) (turn_at t n) (turn_at (forgets without_answers ns t) n) }
    ensures right { (ns : List NodeId) (t : NodeTrees) → IsRight t →
        IsRight (forgets without_answers ns t) }
{}

#[tactic(auto, using(crate::proofs::KeptTrees::drops_bare, crate::proofs::KeptTrees::drops_kept, crate::proofs::KeptTrees::drops_past, crate::proofs::KeptTrees::drops_turn, crate::proofs::KeptTrees::drops_right))]
/// Letting go what nodes keep longer than their answers, of all or of those alone that may be subgrids, changes nothing else, and what is right stays right.
pub fn dropping_keeps_the_rest()
    ensures same { (all : Bool) (ns : List NodeId) (t : NodeTrees) →
        bare (forgets (without_past_of all) ns t) ≡ bare t }
    ensures kept { (all : Bool) (ns : List NodeId) (t : NodeTrees) (n : NodeId) →
        kept_at (forgets (without_past_of all) ns t) n ≡ kept_at t n }
    ensures past { (all : Bool) (ns : List NodeId) (t : NodeTrees) (n : NodeId) →
        past_at (forgets (without_past_of all) ns t) n ≡
        (if is_among n ns && goes_at all t n then no_past else past_at t n) }
    ensures turn { (all : Bool) (ns : List NodeId) (t : NodeTrees) (n : NodeId) →
        turn_at (forgets (without_past_of all) ns t) n ≡ turn_at t n }
    ensures right { (all : Bool) (ns : List NodeId) (t : NodeTrees) → IsRight t →
        IsRight (forgets (without_past_of all) ns t) }
{}

#[tactic(auto, using(crate::proofs::Readable::by_nodes))]
/// A tree of nodes whose kinds and values a text reads as, none of which has more than 65,536 children, is such a tree by the numbers of its nodes.
pub fn readable_node_by_node()
    ensures { (b : BareTrees) → EachNode (λ x. IsReadable (label_of_bare x.1)) b →
        IsNarrow 65536 b → AreReadable b }
{}
