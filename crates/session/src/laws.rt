//! What holds of the calls of an engine and of the edits that lines read as. Each law is the
//! contract of a function that does nothing.

ghost use Rattle.std.specs.Prelude.{◌≡◌, ◌≤◌, ◌+◌, ◌*◌, ℕ, Bool, false, List, Ok, Option, Result};
ghost use Rattle.text_scan.specs.declared.line.Line.{Line};
ghost use Rattle.doc_text.specs.declared.document.Doc.{Doc};
ghost use Rattle.doc_text.specs.declared.edit.Edit.{Edit};
ghost use Rattle.doc_text.specs.EditText.{edit_of};
ghost use Rattle.doc_text.specs.Laws.{NamesItsNode};
ghost use Rattle.doc_text.specs.Valid.{IsShort};
ghost use Rattle.outside.specs.declared.event.Event.{Event};
ghost use Rattle.placing.specs.Keeping.{KeepsNone};
ghost use Rattle.sparing.specs.Sparing.{Touches};
ghost use Rattle.session.specs.Calls.{log_after, AreCalls, Call};
ghost use Rattle.session.specs.Engine.{IsToldEdit};
ghost use Rattle.session.specs.Replies.{questions_in, AreAllFew, Replies};
ghost use Rattle.session.specs.Spares.{Spares};
ghost use Rattle.session.specs.Standing.{Standing};
ghost use Rattle.session.specs.declared.said.Said.{Said};

/// After calls of [`crate::Engine::apply`] and [`crate::Engine::layout`] in any order, on an engine
/// that kept nothing at first, as [`crate::Engine::new`] makes it: no leaf was measured again at a
/// width unless an edit reached it or sixteen other widths followed. Each call is as its contract
/// says, `touches` says of the number of each layout what was touched since the layout before it,
/// and no layout but the last one wanted memory.
pub fn layouts_spare_leaves()
    ensures { (touches : Touches) (s : Standing) (log : Option (List Event)) (calls : List Call) →
        KeepsNone s.page.nodes.tree → AreCalls touches (λ name. false) s log calls →
        Spares touches log (log_after log calls) }
{}

/// The passes of the layouts of replies, with their counts or without: they rise by at most four
/// for each question that the definitions ask of the nodes of the documents that were laid out,
/// where no node of these has more than sixteen questions.
pub fn passes_are_few()
    ensures { (stats : Bool) (held held' : Option (List ℕ)) (events events' : Option (List Event))
        (passes passes' : ℕ) (touches : Touches) (k : ℕ) (made : List (Result Doc Said)) →
        Replies stats held held' events events' passes passes' touches k made →
        AreAllFew made → passes' ≤ passes + 4 * questions_in made }
{}

#[tactic(auto, using(crate::proofs::ToldEdits::reading_edits))]
/// What a line of at most 65,536 bytes reads as, can be applied: an inserted node has the name that
/// the edit gives it, and the values, contents and sizes are ones that a text of the version tells.
pub fn edits_that_are_read_are_told()
    ensures named { (version : ℕ) (line : Line) (e : Edit) →
        IsShort line → edit_of version line ≡ Ok e → NamesItsNode e }
    ensures told { (version : ℕ) (line : Line) (e : Edit) →
        IsShort line → edit_of version line ≡ Ok e → IsToldEdit version e }
{}
