//! The frame theorem in two halves, over the definitions alone. Each law is the contract of a
//! function that does nothing.

ghost use Rattle.std.specs.Prelude.{◌≡◌, false, true, List, Ok, ℕ};
ghost use Rattle.asked_pages.specs.AskedOf.{labels_of};
ghost use Rattle.doc_text.specs.declared.document.Doc.{Doc};
ghost use Rattle.doc_text.specs.declared.edit.Edit.{Edit};
ghost use Rattle.doc_text.specs.Edits.{edited, tree_of};
ghost use Rattle.doc_text.specs.Growth.{holds};
ghost use Rattle.doc_text.specs.Laws.{IsChange, NamesItsNode};
ghost use Rattle.edit_journal.specs.declared.change.Change.{Change};
ghost use Rattle.edit_journal.specs.Changes.{turned, CanTurn, IsSound};
ghost use Rattle.frame_laws.specs.Agreement.{answer_at, context_at, AgreeAt};
ghost use Rattle.page_tree.specs.Reach.{is_touched, touches};
ghost use Rattle.plain_tree.specs.Trees.{Trees};
ghost use Rattle.tree_rules.specs.Answers.{Pair};
ghost use Rattle.tree_rules.specs.Labels.{Label};
ghost use Rattle.tree_rules.specs.declared.query.Query.{Query};

#[tactic(auto, using(crate::proofs::Agreeing::alike))]
/// Trees that agree at a node give it equal contexts, whatever the counts of automatic repeats, and
/// equal answers to every question.
pub fn agreeing_trees_answer_alike()
    ensures contexts { (name : List ℕ) (t u : Trees Label) (counts : List Pair) →
        AgreeAt name t u → context_at name u counts ≡ context_at name t counts }
    ensures answers { (name : List ℕ) (t u : Trees Label) (q : Query) →
        AgreeAt name t u → answer_at name u q ≡ answer_at name t q }
{}

#[tactic(auto, using(crate::proofs::Untouched::untouched))]
/// The documents before and after an edit that is accepted, of which the first is sound as every
/// valid document is, agree at each node that both hold and that the edit does not touch; so do
/// those before and after a change, as `undo` and `redo` make them.
pub fn untouched_nodes_agree()
    ensures edits { (e : Edit) (doc made : Doc) (name : List ℕ) →
        IsSound doc → IsChange e → NamesItsNode e → edited e doc ≡ Ok made →
        is_touched e doc made name ≡ false →
        holds (tree_of doc) name ≡ true → holds (tree_of made) name ≡ true →
        AgreeAt name (labels_of doc) (labels_of made) }
    ensures changes { (c : Change) (doc : Doc) (name : List ℕ) →
        IsSound doc → CanTurn c doc → touches c doc (turned c doc) name ≡ false →
        holds (tree_of doc) name ≡ true → holds (tree_of (turned c doc)) name ≡ true →
        AgreeAt name (labels_of doc) (labels_of (turned c doc)) }
{}
