//! Edits of a document, each as the definition of the edited document has it.

ghost use Rattle.std.specs.Prelude.{OnOk};
ghost use Rattle.box_layout.specs.LastBoxes.{AreFound};
ghost use Rattle.doc_text.specs.Edits.{edited};
ghost use Rattle.doc_text.specs.Laws.{IsChange, NamesItsNode};
ghost use Rattle.placing.specs.Kept.{kept_at, IsRight};
ghost use Rattle.placing.specs.Nodes.{bare};
ghost use Rattle.page_tree.specs.Answered.{Applies};
ghost use Rattle.page_tree.specs.Pages.{document_of};
ghost use Rattle.page_tree.specs.Reach.{KeepsOthers};

use crate::error::EditError;
use crate::page::Page;
use box_layout::LastBoxes;
use doc_text::Edit;

impl Page {
    #[tactic(auto, using(crate::proofs::Turned::applying))]
    /// The document after an edit: its step, of which the change is made. The kept answers of the
    /// nodes that the change reaches go, and no others; where all were right all are right after
    /// it.
    ///
    /// `Refused` exactly where the definition of the edited document refuses the edit, with its
    /// fault, the first in the order of refusals. `NoMemory` where memory is wanting. After either
    /// nothing is changed, and no kept answer is lost.
    ///
    /// Of the boxes that were found last those of reached containers are forgotten, so that the
    /// others still hold.
    pub fn apply(&mut self, edit: Edit, last: &mut LastBoxes) -> Result<(), EditError>
        requires change { IsChange edit }
        requires named { NamesItsNode edit }
        requires last { AreFound (bare self.old.nodes.tree) (kept_at self.old.nodes.tree) last.old }
        ensures applies { Applies result (edited edit (document_of self.old)) self.old self.new }
        ensures right { IsRight self.old.nodes.tree → IsRight self.new.nodes.tree }
        ensures kept { OnOk result (KeepsOthers edit self.old self.new) }
        ensures last { AreFound (bare self.new.nodes.tree) (kept_at self.new.nodes.tree) last.new }
    {
        let step = self.step(&edit)?;
        self.turn(&step.forward, last)?;
        Ok(())
    }
}
