//! The step of an edit: the change that it makes, and the change that takes it back.

ghost use Rattle.std.specs.Prelude.{◌≡◌, IfOk};
ghost use Rattle.doc_text.specs.Laws.{IsChange, NamesItsNode};
ghost use Rattle.edit_journal.specs.declared.change.Change.TheVariants as change;
ghost use Rattle.edit_journal.specs.Changes.{IsBelowRoot, IsFound, IsThere};
ghost use Rattle.edit_journal.specs.Steps.{back_of, bring_back, forward_of, node_at, position_of, values_in};
ghost use Rattle.page_tree.specs.Answered.{Judges};
ghost use Rattle.page_tree.specs.Pages.{document_of};
ghost use Rattle.page_tree.specs.Places.{place_of};

use crate::error::EditError;
use crate::node::node_of;
use crate::page::Page;
use crate::plain::{plain_at, plain_kind};
use crate::refusal;
use doc_text::Edit;
use edit_journal::{Change, Step, forward_of, props_of, values_in};
use lunit::{Copied, Name, NoMemory};
use node_arena::NodeId;
use style_types::Prop;

impl Page {
    /// The step of an edit: the change that it makes of the document, and the one that takes it
    /// back.
    ///
    /// `Refused` exactly where the definition of the edited document refuses the edit, with its
    /// fault, the first in the order of refusals: 21 where a name names no node, 22 where the root
    /// is removed or moved, 23 where a node is moved below itself, 24 where an index is past the
    /// last child, 6 where a name is there, 12 where a node would stand on level 65, 13 where there
    /// would be too many nodes, 14 where a leaf would have children. `NoMemory` where memory is
    /// wanting.
    pub fn step(&self, edit: &Edit) -> Result<Step, EditError>
        requires change { IsChange edit.now }
        requires named { NamesItsNode edit.now }
        ensures { Judges result edit.now (document_of self.now) }
    {
        let _ = self.stands();
        if let Some(fault) = refusal::of_edit(self, edit) {
            return Err(EditError::Refused(fault));
        }
        let forward = forward_of(self.alloc(), edit)?;
        let back = self.back_of(edit)?;
        Ok(Step { forward, back })
    }

    /// The change that takes back an edit that is not refused.
    fn back_of(&self, edit: &Edit) -> Result<Change, NoMemory>
        requires change { IsChange edit.now }
        requires found { IsFound (forward_of edit.now) (document_of self.now) }
        ensures { IfOk result (λ made. made ≡ back_of (document_of self.now) edit.now) }
    {
        match edit {
            Edit::Set(named, settings) => {
                let props = props_of(self.alloc(), settings.as_slice())?;
                self.values_back(&named.name, props.as_slice())
            }
            Edit::Unset(named, props) => self.values_back(&named.name, props.as_slice()),
            Edit::Insert(_, _, _, named, _) => Ok(Change::Take(named.name)),
            Edit::Remove(named) => self.bring_back(&named.name),
            Edit::Move(named, _, _, _) => {
                let (parent, index) = self.position(&named.name)?;
                Ok(Change::Shift(named.name, parent, index))
            }
            Edit::Content(named, _) => self.kind_back(&named.name),
            Edit::Viewport(_, _) => Ok(Change::View(self.width(), self.height())),
            Edit::Undo(_, _) | Edit::Redo(_, _) | Edit::Hit(_, _) => unreachable!(),
        }
    }

    /// The properties of a node as they are set now.
    fn values_back(&self, name: &Name, props: &[Prop]) -> Result<Change, NoMemory>
        requires { IsThere name.now (document_of self.now) }
        ensures { IfOk result
            (λ made. made ≡
            change.Style name.now
            (values_in (node_at name.now (document_of self.now)).style props.now)) }
    {
        let _ = self.stands();
        let node = node_of(self.tree(), self.known(name));
        let values = values_in(self.alloc(), &node.declared, props)?;
        Ok(Change::Style(*name, values))
    }

    /// The kind of a node as it is now.
    fn kind_back(&self, name: &Name) -> Result<Change, NoMemory>
        requires { IsThere name.now (document_of self.now) }
        ensures { IfOk result
            (λ made. made ≡ change.Kind name.now (node_at name.now (document_of self.now)).kind) }
    {
        let _ = self.stands();
        let node = node_of(self.tree(), self.known(name));
        let kind = plain_kind(self.alloc(), &node.kind)?;
        Ok(Change::Kind(*name, kind))
    }

    /// A node with all below it, brought where it stands now.
    fn bring_back(&self, name: &Name) -> Result<Change, NoMemory>
        requires { IsBelowRoot name.now (document_of self.now) }
        ensures { IfOk result
            (λ made. made ≡
            bring_back (position_of name.now (document_of self.now))
            (node_at name.now (document_of self.now))) }
    {
        let _ = self.stands();
        let (parent, index) = self.position(name)?;
        let node = plain_at(self.alloc(), self.tree(), self.known(name))?;
        Ok(Change::Bring(parent, index, node))
    }

    /// The name of the parent of a node that is not the root, and the index of the node among its
    /// children. `NoMemory` where it has no room in 32 bits.
    fn position(&self, name: &Name) -> Result<(Name, u32), NoMemory>
        requires { IsBelowRoot name.now (document_of self.now) }
        ensures { IfOk result (λ position. position ≡ position_of name.now (document_of self.now)) }
    {
        let _ = self.stands();
        let tree = self.tree();
        let id = self.known(name);
        let parent = match tree.parent(id) {
            Some(parent) => parent,
            None => unreachable!(),
        };
        let place = place_of(tree.children(parent), id);
        if place > u32::MAX as usize {
            return Err(NoMemory);
        }
        Ok((node_of(tree, parent).name, place as u32))
    }
}

/// The place of a number in a list; how many there are where it is not among them.
fn place_of(numbers: &[NodeId], id: NodeId) -> usize
    ensures { result ≡ place_of id numbers.now }
{
    for index in 0..numbers.len() {
        if numbers[index].is(id) {
            return index;
        }
    }
    numbers.len()
}
