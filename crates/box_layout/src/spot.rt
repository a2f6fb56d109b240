//! Where a node stands on the way of the boxes, and what the boxes are handed to.

use crate::last_boxes::LastBoxes;
use crate::told::BoxSink;
use lunit::{Along, BLOCK, INLINE};
use placing::Frame;

/// The frame of a node, with where a border box starts, from the origin of the viewport: that of its parent, or its own.
#[derive(Clone, Copy)]
pub(crate) struct Spot<'a> {
    /// The frame, from the border box of the parent.
    pub(crate) frame: &'a Frame,
    /// Where the border box starts along the inline axis.
    pub(crate) x: Along<INLINE>,
    /// Where it starts along the block axis.
    pub(crate) y: Along<BLOCK>,
}

/// What the boxes are handed to, and the boxes of containers as they were found last: both are borrowed.
#[derive(Drop)]
pub(crate) struct Boxes<'a, T: BoxSink> {
    /// What takes the boxes.
    pub(crate) told: &'a mut T,
    /// The boxes that were found last.
    pub(crate) last: &'a mut LastBoxes,
}
