//! What holds of pages. Each law is the contract of a function that does nothing.

ghost use Rattle.std.specs.Prelude.{◌≡◌, Ok};
ghost use Rattle.doc_text.specs.declared.document.Doc.{Doc};
ghost use Rattle.doc_text.specs.declared.edit.Edit.{Edit};
ghost use Rattle.doc_text.specs.Edits.{edited};
ghost use Rattle.doc_text.specs.Laws.{IsChange, NamesItsNode};
ghost use Rattle.doc_text.specs.Valid.{IsValid};
ghost use Rattle.edit_journal.specs.declared.change.Change.{Change};
ghost use Rattle.edit_journal.specs.Changes.{CanTurn, IsSound};
ghost use Rattle.edit_journal.specs.Steps.{step_for};
ghost use Rattle.placing.specs.Nodes.{bare};
ghost use Rattle.placing.specs.Ranges.{AreReadable};
ghost use Rattle.page_tree.specs.Fits.{Fits, FitsBothWays};
ghost use Rattle.page_tree.specs.Pages.{document_of, Stands};

use crate::page::Page;

#[tactic(auto, using(crate::proofs::ToldTrees::page_readable))]
/// Where the document of a page is valid, layout can be asked of each of its nodes: every value
/// that a text tells, and every computed value of it, is in the range that layout asks, and no node
/// has more than 65,536 children.
pub fn valid_documents_are_readable(page: &Page)
    ensures { IsValid (document_of page.now) → AreReadable (bare page.now.nodes.tree) }
{
    let _ = page.stands();
}

/// What holds of every page: it has one root and at most 64 levels, each node has its computed
/// style, and each name and each number is that of one node.
pub fn pages_stand(page: &Page)
    ensures { Stands page.now.nodes.tree }
{
    let _ = page.stands();
}

#[tactic(auto, using(crate::proofs::Fitting::turning_fits))]
/// A change that can be applied to a document fits it.
pub fn changes_fit()
    ensures { (c : Change) (doc : Doc) → CanTurn c doc → Fits c doc }
{}

#[tactic(auto, using(crate::proofs::Fitting::step_fits))]
/// Where a valid document accepts an edit, the change that the edit makes fits it, and the change
/// that takes the edit back fits the edited document.
pub fn steps_fit()
    ensures { (e : Edit) (doc made : Doc) → IsSound doc → IsChange e → NamesItsNode e →
        edited e doc ≡ Ok made → FitsBothWays (step_for doc e) doc made }
{}
