//! The step of an edit.

ghost use Rattle.std.specs.Prelude.{◌≡◌, IfOk, Ok};
ghost use Rattle.doc_text.specs.Edits.{applied, edited};
ghost use Rattle.doc_text.specs.Laws.{IsChange, NamesItsNode};
ghost use Rattle.edit_journal.specs.Changes.{IsSound};
ghost use Rattle.edit_journal.specs.Steps.{bare, no_change, forward_of, back_of, step_for};
ghost use Rattle.edit_journal.specs.Laws.{Leads};

use crate::change::{Change, Step};
use crate::find::{node_at, position_of};
use crate::values::{props_of, values_in, values_set, values_unset};
use doc_text::{Children, Doc, Edit, Plain};
use lunit::{Copied, Name, NoMemory, Sequence};
use std::alloc::Global;

/// A copy of a node without what is below it.
fn bare(alloc: Global, node: &Plain) -> Result<Plain, NoMemory>
    ensures { IfOk result (λ copy. copy ≡ bare node.now) }
{
    Ok(Plain {
        name: node.name,
        kind: node.kind.copy(alloc)?,
        style: node.style.copy(alloc)?,
        children: Children::new(alloc),
    })
}

/// A change that changes nothing: it sets no property of a node, and no node has the empty name.
/// Takes no memory.
pub fn no_change(alloc: Global) -> Change
    ensures { result ≡ no_change }
{
    Change::Style(Name::default(), Sequence::new(alloc))
}

/// The change that an edit makes. For `Undo`, `Redo` and `Hit`, which make none by themselves, it
/// is one that changes nothing. `NoMemory` where memory is wanting.
pub fn forward_of(alloc: Global, edit: &Edit) -> Result<Change, NoMemory>
    ensures { IfOk result (λ change. change ≡ forward_of edit.now) }
{
    match edit {
        Edit::Set(named, settings) => {
            let values = values_set(alloc, settings.as_slice())?;
            Ok(Change::Style(named.name, values))
        }
        Edit::Unset(named, props) => {
            let values = values_unset(alloc, props.as_slice())?;
            Ok(Change::Style(named.name, values))
        }
        Edit::Insert(parent, index, _, _, node) => {
            Ok(Change::Bring(parent.name, *index, bare(alloc, node)?))
        }
        Edit::Remove(named) => Ok(Change::Take(named.name)),
        Edit::Move(named, parent, index, _) => Ok(Change::Shift(named.name, parent.name, *index)),
        Edit::Content(named, kind) => Ok(Change::Kind(named.name, kind.copy(alloc)?)),
        Edit::Viewport(width, height) => Ok(Change::View(*width, *height)),
        Edit::Undo(_, _) | Edit::Redo(_, _) | Edit::Hit(_, _) => Ok(no_change(alloc)),
    }
}

/// The change that takes an edit of a document back. `NoMemory` where memory is wanting.
fn back_of(alloc: Global, doc: &Doc, edit: &Edit) -> Result<Change, NoMemory>
    requires { IsSound doc.now }
    ensures { IfOk result (λ change. change ≡ back_of doc.now edit.now) }
{
    match edit {
        Edit::Set(named, settings) => {
            let props = props_of(alloc, settings.as_slice())?;
            let before = &node_at(doc, &named.name).style;
            let values = values_in(alloc, before, props.as_slice())?;
            Ok(Change::Style(named.name, values))
        }
        Edit::Unset(named, props) => {
            let before = &node_at(doc, &named.name).style;
            let values = values_in(alloc, before, props.as_slice())?;
            Ok(Change::Style(named.name, values))
        }
        Edit::Insert(_, _, _, named, _) => Ok(Change::Take(named.name)),
        Edit::Remove(named) => {
            let (parent, index) = position_of(doc, &named.name);
            let node = node_at(doc, &named.name).copy(alloc)?;
            Ok(Change::Bring(parent, index, node))
        }
        Edit::Move(named, _, _, _) => {
            let (parent, index) = position_of(doc, &named.name);
            Ok(Change::Shift(named.name, parent, index))
        }
        Edit::Content(named, _) => {
            let kind = node_at(doc, &named.name).kind.copy(alloc)?;
            Ok(Change::Kind(named.name, kind))
        }
        Edit::Viewport(_, _) => Ok(Change::View(doc.width, doc.height)),
        Edit::Undo(_, _) | Edit::Redo(_, _) | Edit::Hit(_, _) => Ok(no_change(alloc)),
    }
}

#[tactic(auto, using(crate::proofs::Stepping::step_leads))]
/// The step of an edit of a document that accepts it: the change that the edit makes, and the
/// change that takes it back. The edit is none of `Undo`, `Redo` and `Hit`, which have no step.
///
/// It takes memory for what it changes: the values that are set and those that they had, and a
/// subtree that is removed. `NoMemory` where memory is wanting.
pub fn step_of(alloc: Global, doc: &Doc, edit: &Edit) -> Result<Step, NoMemory>
    requires sound { IsSound doc.now }
    requires change { IsChange edit.now }
    requires named { NamesItsNode edit.now }
    requires accepted { edited edit.now doc.now ≡ Ok (applied edit.now doc.now) }
    ensures step { IfOk result (λ step. step ≡ step_for doc.now edit.now) }
    ensures leads { IfOk result (λ step. Leads step doc.now (applied edit.now doc.now)) }
{
    Ok(Step {
        forward: forward_of(alloc, edit)?,
        back: back_of(alloc, doc, edit)?,
    })
}
