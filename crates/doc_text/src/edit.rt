use crate::document::Plain;
use crate::kind::Kind;
use lunit::{Lu, Name, Sequence};
use style_types::{DeclaredValue, Prop};
use text_scan::Place;

/// A name in an edit, and the place of its first byte.
#[derive(Clone, Copy, Debug, PartialEq, Eq)]
pub struct Named {
    pub name: Name,
    pub at: Place,
}

/// What a line of the script of a document tells: an edit, with nodes that are named, not numbered;
/// or a question.
#[derive(Drop)]
pub enum Edit {
    /// The node has these properties, set one after another.
    Set(Named, Sequence<(Prop, DeclaredValue)>),
    /// These properties of the node are no longer set.
    Unset(Named, Sequence<Prop>),
    /// A new node without children stands under the parent as child of this index, from 0. After
    /// the parent come the index, its place, the name of the new node, which is also the node's
    /// own, and the node.
    Insert(Named, u32, Place, Named, Plain),
    /// The node goes, with all below it.
    Remove(Named),
    /// The first node stands, with all below it, under the second as child of this index, from 0,
    /// which is counted after it was taken out; the place is that of the index.
    Move(Named, Named, u32, Place),
    /// The node has this kind, which is a leaf.
    Content(Named, Kind),
    /// The viewport has this width and height.
    Viewport(Lu, Lu),
    /// The last so many edits are taken back, where there are as many; the place is that of their
    /// number.
    Undo(u32, Place),
    /// The last so many edits that were taken back are made again, where there are as many; the
    /// place is that of their number.
    Redo(u32, Place),
    /// No change: which box lies under the point with this x and y, which may be below zero.
    Hit(Lu, Lu),
}
