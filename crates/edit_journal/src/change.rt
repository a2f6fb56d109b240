use crate::values::copy_values;
use doc_text::{Kind, Plain};
use lunit::{Copied, Lu, Name, NoMemory, Sequence};
use std::alloc::Global;
use style_types::{DeclaredValue, Prop};

/// A change of a document. Nodes are named, not numbered.
#[derive(Drop)]
pub enum Change {
    /// The node has these properties, set one after another to the value that stands beside each,
    /// or no longer set where none does.
    Style(Name, Sequence<(Prop, Option<DeclaredValue>)>),
    /// The node goes, with all below it.
    Take(Name),
    /// A new node stands, with all below it, under the parent as child of this index, from 0.
    Bring(Name, u32, Plain),
    /// The first node stands, with all below it, under the second as child of this index, from 0,
    /// which is counted after it was taken out.
    Shift(Name, Name, u32),
    /// The node has this kind.
    Kind(Name, Kind),
    /// The viewport has this width and height.
    View(Lu, Lu),
}

/// A change, and the one that takes it back.
#[derive(Drop)]
pub struct Step {
    pub forward: Change,
    pub back: Change,
}

impl Copied for Change {
    fn copy(&self, alloc: Global) -> Result<Change, NoMemory> {
        match self {
            Change::Style(name, values) => {
                Ok(Change::Style(*name, copy_values(alloc, values.as_slice())?))
            }
            Change::Take(name) => Ok(Change::Take(*name)),
            Change::Bring(parent, index, node) => {
                Ok(Change::Bring(*parent, *index, node.copy(alloc)?))
            }
            Change::Shift(name, parent, index) => Ok(Change::Shift(*name, *parent, *index)),
            Change::Kind(name, kind) => Ok(Change::Kind(*name, kind.copy(alloc)?)),
            Change::View(width, height) => Ok(Change::View(*width, *height)),
        }
    }
}
