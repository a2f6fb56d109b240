//! Laws of steps, each as the clause of a function that does nothing.

ghost use Rattle.std.specs.Prelude.{◌≡◌, Ok};
ghost use Rattle.doc_text.specs.declared.document.Doc.{Doc};
ghost use Rattle.doc_text.specs.declared.edit.Edit.{Edit};
ghost use Rattle.doc_text.specs.Edits.{applied, edited};
ghost use Rattle.doc_text.specs.Laws.{IsChange, NamesItsNode};
ghost use Rattle.edit_journal.specs.Changes.{turned, IsSound};
ghost use Rattle.edit_journal.specs.Steps.{forward_of, step_for};
ghost use Rattle.edit_journal.specs.Laws.{Leads};

#[tactic(auto, using(crate::proofs::Stepping::step_leads))]
/// The step of an edit that a valid document accepts leads to the edited document and back: each of
/// its two changes can be applied where it is due, the first gives the edited document, and the
/// second, after it, the document as it was. The edit is none of `Undo`, `Redo` and `Hit`, which
/// have no step.
pub fn steps_lead_back()
    ensures { (e : Edit) (doc made : Doc) → IsSound doc → IsChange e → NamesItsNode e →
        edited e doc ≡ Ok made → Leads (step_for doc e) doc made }
{}

#[tactic(auto, using(crate::proofs::Stepping::forward_is))]
/// The change that an edit makes gives what the edit makes of the document: what `Undo`, `Redo` and
/// `Hit` make of it by themselves is the document as it is.
pub fn changes_are_edits()
    ensures { (e : Edit) (doc : Doc) → turned (forward_of e) doc ≡ applied e doc }
{}
