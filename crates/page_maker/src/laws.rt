//! Laws of generated documents, each as the clause of a function that does nothing.

ghost use Rattle.std.specs.Prelude.{◌≡◌, ℕ, ◌<◌, ◌≤◌};
ghost use Rattle.plain_tree.specs.Trees.{size_of};
ghost use Rattle.doc_text.specs.declared.document.Doc.{Doc};
ghost use Rattle.doc_text.specs.Edits.{tree_of};
ghost use Rattle.doc_text.specs.Valid.{IsValid};
ghost use Rattle.page_maker.specs.Making.{made_document};
ghost use Rattle.page_maker.specs.Scripts.{edit_from};
ghost use Rattle.page_maker.specs.Standing.{IsMade, StaysMade, IsToldChange};

#[tactic(auto, using(crate::proofs::Made::valid_made))]
/// A generated document is valid.
pub fn made_documents_are_valid()
    ensures { (seed nodes : ℕ) → 0 < nodes → nodes ≤ 20000 → IsValid (made_document seed nodes) }
{}

#[tactic(auto, using(crate::proofs::Made::size_made))]
/// A generated document has as many nodes as were asked for.
pub fn made_documents_are_whole()
    ensures { (seed nodes : ℕ) → 0 < nodes → nodes ≤ 20000 →
        size_of (tree_of (made_document seed nodes)) ≡ nodes }
{}

/// The edits of a generated document are not refused, and all nodes are there after each.
pub fn made_edits_are_accepted()
    ensures { (nodes x : ℕ) (doc : Doc) → 0 < nodes → IsMade nodes doc →
        StaysMade nodes (edit_from nodes x).0 doc }
{}

#[tactic(auto, using(crate::proofs::Edited::edit_told))]
/// The edits of a generated document set properties or change a content, and a text of version 1 can tell their values.
pub fn made_edits_are_told()
    ensures { (nodes x : ℕ) → IsToldChange (edit_from nodes x).0 }
{}
