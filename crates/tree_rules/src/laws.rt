//! What holds of the definitions. Each law is the contract of a function that does nothing.

ghost use Rattle.std.specs.Prelude.{◌≡◌, ℕ, ℤ, ◌+ℤ◌, List, ◌∷◌, [], ◌++◌};
ghost use Rattle.std.specs.List.Sorted.{IsSortedByKey, IsStableByKey};
ghost use Rattle.std.specs.Ordering.{int_cmp};
ghost use Rattle.plain_tree.specs.Trees.{Trees, leafless, tree};
ghost use Rattle.tree_rules.specs.declared.query.Given.{Given};
ghost use Rattle.tree_rules.specs.declared.query.Query.{Query};
ghost use Rattle.tree_rules.specs.Answers.{Pair};
ghost use Rattle.tree_rules.specs.Frames.{moved_boxes};
ghost use Rattle.tree_rules.specs.Boxes.{AreLimited, LeavesAreBare, boxes, names_of, names_told};
ghost use Rattle.tree_rules.specs.Chains.{Link, above_of, chain_of, sibling_of, siblings_of};
ghost use Rattle.tree_rules.specs.KeptAnswers.{AreRight, IsAbsent, IsRightPair, last_of, most_kept};
ghost use Rattle.tree_rules.specs.Labels.{Label};
ghost use Rattle.tree_rules.specs.Orders.{in_document_order, in_order, sorted_by};
ghost use Rattle.tree_rules.specs.Places.{Seen, answers_of};
ghost use Rattle.tree_rules.specs.Queries.{Answer, answer_of};

#[tactic(auto, using(crate::proofs::SameTrees::same_answers, crate::proofs::SameTrees::same_answer))]
/// The answers of a node depend on its label, the links upwards and what stands below it, and on nothing else of its tree.
pub fn equal_nodes_answer_equally()
    ensures all { (s t : Seen) → s.label ≡ t.label → s.chain ≡ t.chain → s.below ≡ t.below →
        answers_of s ≡ answers_of t }
    ensures each { (s t : Seen) (q : Query) → s.label ≡ t.label → s.chain ≡ t.chain →
        s.below ≡ t.below → answer_of s q ≡ answer_of t q }
{}

#[tactic(auto, using(crate::proofs::SameTrees::same_chain))]
/// The chain of a child depends on names, on which nodes are grids, and on grid-class values, of its parent and of the parent's children, and
/// on the links above: neither on content-class values nor on what stands below the children.
pub fn chains_are_of_grid_values()
    ensures { (x y a b : Label) (chain : List Link) (below under : Trees Label) (n : ℕ) →
        sibling_of x ≡ sibling_of y → siblings_of below ≡ siblings_of under →
        sibling_of a ≡ sibling_of b →
        chain_of (above_of x chain below) n a ≡ chain_of (above_of y chain under) n b }
{}

#[tactic(auto, using(crate::proofs::KeptLists::none_right, crate::proofs::KeptLists::right_put))]
/// A node that keeps nothing is right, and a list of kept answers that is right stays so where a right answer to a question that it lacks is put and the oldest of
/// seventeen goes.
pub fn right_answers_stay_right<A>()
    ensures none { (s : Seen) (plain : A → Answer) → AreRight {A = A} s plain [] }
    ensures put { (s : Seen) (plain : A → Answer) (kept : List (Query × A)) (q : Query) (a : A) →
        AreRight s plain kept → IsAbsent q kept → IsRightPair s plain q a →
        AreRight s plain (last_of most_kept (kept ++ (q, a) ∷ [])) }
{}

/// The boxes of a tree in which only containers have children name each node once, in document order, and the size of each is
/// within the range of lengths.
pub fn boxes_are_of_all_nodes()
    ensures names { (width height : ℤ) (x : Label) (below : Trees Label) →
        LeavesAreBare (tree x below leafless) →
        names_told (boxes width height x below) ≡ names_of (tree x below leafless) }
    ensures sizes { (width height : ℤ) (x : Label) (below : Trees Label) →
        LeavesAreBare (tree x below leafless) → AreLimited (boxes width height x below) }
{}

#[tactic(auto, using(crate::proofs::Moved::boxes_move))]
/// The boxes below a node stand to its border box in the same way wherever that is.
pub fn boxes_move_along()
    ensures { (s : Seen) (reps : List Pair) (inline block : Given) (x y right down : ℤ) →
        ((answers_of s).down reps inline).boxes block (right +ℤ x, down +ℤ y) ≡
        moved_boxes (right, down) (((answers_of s).down reps inline).boxes block (x, y)) }
{}

/// A list that a stable sort by a key makes of another is the sorted one of the definitions, and items in order-modified document
/// order that are brought back in document order are the items as they were.
pub fn stable_sorts_are_the_order<T>()
    ensures sort { (key : T → ℤ) (xs ys : List T) → IsSortedByKey key int_cmp ys →
        IsStableByKey key int_cmp xs ys → ys ≡ sorted_by key xs }
    ensures back { (order : T → ℤ) (xs : List T) → in_document_order (in_order order xs) ≡ xs }
{}
