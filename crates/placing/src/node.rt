use crate::shared::{SharedColumnParts, SharedFrames, SharedRowParts, SharedWide};
use crate::told::Past;
use layout_cache::Kept;
use lunit::{Item, Lu, Name, Rect, Sequence};
use node_arena::NodeId;
use style_types::{Declared, Style};
use tree_rules::{Given, NodeKind};

/// What the arena holds of a node.
#[derive(Drop)]
pub struct Node {
    /// How often its answers went, and one; it stands still at 2^64 - 1. It stands first, next to what the arena looks at.
    pub turn: u64,
    /// The answers that it keeps.
    pub kept: Kept<Answer>,
    /// A grid, a flex container, or a leaf with its content.
    pub kind: NodeKind,
    /// The name, of at most 58 bytes.
    pub name: Name,
    /// The computed values (CSS Values 4, section 6.1).
    pub style: Style,
    /// What a container keeps longer than its answers.
    pub past: Past,
    /// The values as they are declared. They stand last, since no layout reads them.
    pub declared: Declared,
}

/// A child as its parent lays it out.
#[derive(Drop)]
pub struct Frame {
    /// The number of the child.
    pub child: NodeId,
    /// Its border box, from the parent's border box, in units of 1/64 px.
    pub rect: Rect,
    /// What it is given in the inline axis.
    pub inline: Given,
    /// What it is given in the block axis.
    pub block: Given,
}

/// What a question to a node is answered by.
#[derive(Drop)]
pub enum Answer {
    /// The two intrinsic inline sizes of the content: the min-content size and the max-content size.
    Sizes(Lu, Lu),
    /// The items that a subgrid lends.
    Lent(Sequence<Item>),
    /// The block size of the content.
    Block(Lu),
    /// The block size of the content of a grid, and the grid in its columns.
    Laid(Lu, SharedWide),
    /// The block size of the content of a row, and its children in their lines.
    Row(Lu, SharedRowParts),
    /// The block size of the content of a column, and its children as wide as they are in it.
    Column(Lu, SharedColumnParts),
    /// The children, in document order.
    Frames(SharedFrames),
}
