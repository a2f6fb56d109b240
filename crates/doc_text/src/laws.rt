//! Laws of edits, each as the clause of a function that does nothing.

ghost use Rattle.std.specs.Prelude.{◌≡◌, ℕ, List, length, Ok, Err};
ghost use Rattle.text_scan.specs.declared.line.Fault.{Fault};
ghost use Rattle.text_scan.specs.declared.line.Place.{Place};
ghost use Rattle.doc_text.specs.declared.document.Doc.{Doc};
ghost use Rattle.doc_text.specs.declared.document.Plain.{Plain};
ghost use Rattle.doc_text.specs.declared.edit.Edit.{Edit};
ghost use Rattle.doc_text.specs.declared.edit.Edit.TheVariants as edit;
ghost use Rattle.doc_text.specs.declared.edit.Named.{Named};
ghost use Rattle.doc_text.specs.Named.{IsDistinct, StandsAt};
ghost use Rattle.doc_text.specs.Edits.{tree_of, refusals, applied, edited};
ghost use Rattle.doc_text.specs.Valid.{IsShaped};
ghost use Rattle.doc_text.specs.Histories.{History, edited_history, history_after};
ghost use Rattle.doc_text.specs.Laws.{AreChanges, IsBack, IsFirst, NamesItsNode};

/// An edit that is not refused leaves a document valid: its names differ, only containers have
/// children, and levels, nodes and children of one node are within the limits of its version.
pub fn edits_keep_documents_valid()
    ensures { (e : Edit) (doc made : Doc) → IsShaped doc.version (tree_of doc) → NamesItsNode e →
        edited e doc ≡ Ok made → IsShaped made.version (tree_of made) }
{}

#[tactic(auto, using(crate::proofs::Kept::refused_first))]
/// A refused edit has the fault of the first row of its refusals that comes.
pub fn refusals_come_in_order()
    ensures { (e : Edit) (doc : Doc) (fault : Fault) → edited e doc ≡ Err fault →
        IsFirst (refusals doc e) fault }
{}

/// What was inserted and is removed leaves the document as it was.
pub fn remove_undoes_insert()
    ensures { (parent named other : Named) (index : ℕ) (at : Place) (node : Plain) (doc made : Doc)
        → node.name ≡ named.name → other.name ≡ named.name →
        edited (edit.Insert parent index at named node) doc ≡ Ok made →
        edited (edit.Remove other) made ≡ Ok doc }
{}

/// A node that was moved and is moved back, under the parent and to the index that it had, leaves
/// the document as it was.
pub fn move_undoes_move()
    ensures { (named parent old : Named) (i index : ℕ) (at back : Place) (doc made : Doc) →
        IsDistinct (tree_of doc) → StandsAt named.name old.name index (tree_of doc) →
        edited (edit.Move named parent i at) doc ≡ Ok made →
        applied (edit.Move named old index back) made ≡ doc }
{}

#[tactic(auto, using(crate::proofs::TakenBack::undo_undoes))]
/// After as many edits are taken back as were made, the document, and those that stood before it,
/// are as before these edits.
pub fn undo_undoes_edits()
    ensures { (es : List Edit) (at : Place) (h made : History) → AreChanges es →
        history_after es h ≡ Ok made → IsBack h (edited_history (edit.Undo (length es) at) made) }
{}

#[tactic(auto, using(crate::proofs::TakenBack::redo_undoes))]
/// Edits that are taken back and then are made again, as many, leave the history as it was.
pub fn redo_undoes_undo()
    ensures { (n : ℕ) (at other : Place) (h made : History) →
        edited_history (edit.Undo n at) h ≡ Ok made →
        edited_history (edit.Redo n other) made ≡ Ok h }
{}
