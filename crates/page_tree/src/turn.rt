//! Changes of a document, each as the definition of the changed document has it.

ghost use Rattle.std.specs.Prelude.{◌≡◌, IfOk, OnErr, OnOk, Some};
ghost use Rattle.box_layout.specs.LastBoxes.{AreFound};
ghost use Rattle.doc_text.specs.Edits.{with_kind};
ghost use Rattle.edit_journal.specs.declared.change.Change.TheVariants as change;
ghost use Rattle.edit_journal.specs.Changes.{tree_of_node, turned, with_style, IsThere};
ghost use Rattle.placing.specs.Kept.{kept_at, IsRight};
ghost use Rattle.placing.specs.Nodes.{bare};
ghost use Rattle.page_tree.specs.Answered.{IsTurnedAround, IsUndone};
ghost use Rattle.page_tree.specs.Fits.{Fits};
ghost use Rattle.page_tree.specs.Forgotten.{is_brought, Forgets};
ghost use Rattle.page_tree.specs.Left.{all_left};
ghost use Rattle.page_tree.specs.Marking.{IsReach};
ghost use Rattle.page_tree.specs.Pages.{document_of, trees_in, IsAround};
ghost use Rattle.page_tree.specs.Reach.{is_felt, LeavesOthers};
ghost use Rattle.page_tree.specs.Registers.{Finds};
ghost use Rattle.page_tree.specs.Shapes.{Brings, IsChanged, Relabels, Removes, Shifts};

use crate::forget::{forget_all, forget_brought};
use crate::node::{node_kind, node_of};
use crate::page::{Page, fill};
use crate::touched::{is_placing, marks_of};
use box_layout::LastBoxes;
use doc_text::{Kind, Plain};
use edit_journal::{Change, with_values};
use layout_cache::reach;
use lunit::{Copied, Name, NoMemory, Sequence};
use node_arena::NodeId;
use style_types::{DeclaredValue, Prop};

/// What a change reaches: the numbers of the nodes, and whether subgrids feel it.
#[derive(Drop)]
struct Reached {
    nodes: Sequence<NodeId>,
    felt: bool,
}

impl Page {
    #[tactic(auto, using(crate::proofs::Turned::undoing))]
    /// The document after a change. The kept answers of the nodes that the change reaches go, and
    /// no others; where all were right all are right after it. What these nodes keep longer than
    /// their answers goes only where subgrids can feel the change: of all of them where areas may
    /// change, and else of those alone that may be subgrids; but for that of a node with new
    /// values, which is made anew. Nodes that are brought keep nothing.
    ///
    /// What the change names is in the document, and the names that it brings are not. `NoMemory`
    /// where memory is wanting: then the document and all that is kept are as before.
    ///
    /// Of the boxes that were found last those of reached containers are forgotten, so that the
    /// others still hold.
    pub fn turn(&mut self, change: &Change, last: &mut LastBoxes) -> Result<(), NoMemory>
        requires fits { Fits change.now (document_of self.old) }
        requires last { AreFound (bare self.old.nodes.tree) (kept_at self.old.nodes.tree) last.old }
        ensures document { OnOk result
            (document_of self.new ≡ turned change.now (document_of self.old)) }
        ensures kept { OnOk result (LeavesOthers change.now self.old self.new) }
        ensures err { OnErr result (IsUndone change.now self.old self.new) }
        ensures right { IsRight self.old.nodes.tree → IsRight self.new.nodes.tree }
        ensures last { AreFound (bare self.new.nodes.tree) (kept_at self.new.nodes.tree) last.new }
    {
        let _ = self.stands();
        let reached = self.reached(change)?;
        self.change(change)?;
        let _ = self.stands();
        self.let_reached_go(&reached, is_placing(change));
        self.forget_new(change, last);
        forget_all(reached.nodes.as_slice(), last);
        Ok(())
    }

    /// Forgets what may be kept for the numbers of nodes that a change brought. Takes no memory.
    fn forget_new(&self, change: &Change, last: &mut LastBoxes)
        ensures { Forgets (is_brought change.now self.now.nodes.tree) last.old last.new }
    {
        match change {
            Change::Bring(_, _, node) => forget_brought(self, node, last),
            _ => {}
        }
    }

    /// Lets go what may no longer be right: the answers of the reached nodes, and, where subgrids
    /// feel the change, what they keep longer: all of them where areas may change (`placing`), and
    /// else those alone that may be subgrids. Takes no memory.
    fn let_reached_go(&mut self, reached: &Reached, placing: bool)
        ensures document { document_of self.new ≡ document_of self.old }
        ensures nodes { self.new.nodes ≡
            all_left reached.now.felt placing reached.now.nodes self.old.nodes }
    {
        let nodes = reached.nodes.as_slice();
        self.let_go(nodes);
        if reached.felt {
            self.let_past_go(nodes, placing);
        }
    }

    /// What a change reaches.
    fn reached(&self, change: &Change) -> Result<Reached, NoMemory>
        requires { Fits change.now (document_of self.now) }
        ensures nodes { IfOk result
            (λ reached. IsReach change.now (trees_in self.now) self.now.nodes.tree reached.nodes) }
        ensures felt { IfOk result
            (λ reached. reached.felt ≡ is_felt change.now (trees_in self.now)) }
    {
        let marked = marks_of(self, change)?;
        let tree = self.tree();
        let numbers = marked.numbers.as_slice();
        let list = reach(self.alloc(), tree, numbers, marked.felt)?;
        Ok(Reached {
            nodes: Sequence::from_vec(list),
            felt: marked.felt,
        })
    }

    #[tactic(auto, using(crate::proofs::Turned::undoing))]
    /// The document after a change, with what the nodes keep, which may no longer be right.
    fn change(&mut self, change: &Change) -> Result<(), NoMemory>
        requires { Fits change.now (document_of self.old) }
        ensures changes { OnOk result
            (IsChanged change.now self.old.nodes.tree self.new.nodes.tree) }
        ensures around { OnOk result (IsTurnedAround change.now self.old self.new) }
        ensures err { OnErr result (IsUndone change.now self.old self.new) }
    {
        match change {
            Change::Style(name, values) => self.style(name, values.as_slice()),
            Change::Take(name) => {
                self.take(name);
                Ok(())
            }
            Change::Bring(parent, index, node) => self.bring(parent, *index, node),
            Change::Shift(name, parent, index) => self.shift(name, parent, *index),
            Change::Kind(name, kind) => self.replace_kind(name, kind),
            Change::View(width, height) => {
                self.set_viewport(*width, *height);
                Ok(())
            }
        }
    }

    #[tactic(auto, using(crate::proofs::Turned::not_missing))]
    /// The number of the node of a name that is there.
    pub(crate) fn known(&self, name: &Name) -> NodeId
        requires { IsThere name.now (document_of self.now) }
        ensures { Finds self.now.nodes.tree name.now (Some result) }
    {
        let _ = self.stands();
        match self.find(name) {
            Some(id) => id,
            None => unreachable!(),
        }
    }

    /// The node has these properties, set or no longer set one after another. It takes all its
    /// memory first.
    fn style(
        &mut self,
        name: &Name,
        values: &[(Prop, Option<DeclaredValue>)],
    ) -> Result<(), NoMemory>
        requires { Fits (change.Style name.now values.now) (document_of self.old) }
        ensures changes { OnOk result
            (Relabels name.now (with_style values.now) self.old.nodes.tree self.new.nodes.tree) }
        ensures around { OnOk result (IsAround self.old self.new) }
        ensures err { OnErr result (self.new ≡ self.old) }
    {
        let _ = self.stands();
        let id = self.known(name);
        let node = node_of(self.tree(), id);
        let declared = with_values(self.alloc(), &node.declared, values)?;
        let kind = node.kind.copy(self.alloc())?;
        self.relabel(name, id, kind, declared)
    }

    /// The node has this kind. It takes all its memory first.
    fn replace_kind(&mut self, name: &Name, kind: &Kind) -> Result<(), NoMemory>
        requires { Fits (change.Kind name.now kind.now) (document_of self.old) }
        ensures changes { OnOk result
            (Relabels name.now (with_kind kind.now) self.old.nodes.tree self.new.nodes.tree) }
        ensures around { OnOk result (IsAround self.old self.new) }
        ensures err { OnErr result (self.new ≡ self.old) }
    {
        let _ = self.stands();
        let id = self.known(name);
        let node = node_of(self.tree(), id);
        let declared = node.declared.copy(self.alloc())?;
        let kind = node_kind(self.alloc(), kind)?;
        self.relabel(name, id, kind, declared)
    }

    /// The node, which is not the root, goes with all below it. Takes no memory.
    fn take(&mut self, name: &Name)
        requires { Fits (change.Take name.now) (document_of self.old) }
        ensures changes { Removes name.now self.old.nodes.tree self.new.nodes.tree }
        ensures around { IsAround self.old self.new }
    {
        let _ = self.stands();
        let id = self.known(name);
        self.take_out(id, name);
    }

    /// New nodes stand under a parent. Where memory is wanting those that were made by then are
    /// taken out again.
    fn bring(&mut self, parent: &Name, index: u32, node: &Plain) -> Result<(), NoMemory>
        requires { Fits (change.Bring parent.now index node.now) (document_of self.old) }
        ensures changes { OnOk result
            (Brings parent.now index (tree_of_node node.now) self.old.nodes.tree
            self.new.nodes.tree) }
        ensures around { IsAround self.old self.new }
        ensures err { OnErr result
            (IsUndone (change.Bring parent.now index node.now) self.old self.new) }
    {
        let _ = self.stands();
        let upper = self.known(parent);
        let id = self.add(upper, index as usize, node)?;
        match fill(self, id, node) {
            Ok(()) => Ok(()),
            Err(error) => {
                let _ = self.stands();
                self.take_out(id, &node.name);
                Err(error)
            }
        }
    }

    /// The node, which is not the root, stands with all below it under a parent that is not below
    /// it. It takes all its memory first.
    fn shift(&mut self, name: &Name, parent: &Name, index: u32) -> Result<(), NoMemory>
        requires { Fits (change.Shift name.now parent.now index) (document_of self.old) }
        ensures changes { OnOk result
            (Shifts name.now parent.now index self.old.nodes.tree self.new.nodes.tree) }
        ensures around { OnOk result (IsAround self.old self.new) }
        ensures err { OnErr result (self.new ≡ self.old) }
    {
        let _ = self.stands();
        let id = self.known(name);
        let to = self.known(parent);
        self.move_under(name, parent, id, to, index as usize)
    }
}
