//! A flex container once its inline size is known (CSS Flexbox 1, 9.2 to 9.4): what its answer for the block size holds beside the
//! size, so that its frames begin with it.

use lunit::{Lu, Sequence};
use node_arena::NodeId;
use part_rules::FlexItem;

/// A child of a flex container with its two intrinsic inline sizes.
#[derive(Clone, Copy)]
pub struct Member {
    /// The number of the node.
    pub child: NodeId,
    /// Its place in document order, from 0.
    pub number: usize,
    /// The two sizes of its content, in units of 1/64 px.
    pub inline: (Lu, Lu),
}

/// A child of a flex container with what it told for the inline sizes of the container.
#[derive(Clone, Copy)]
pub struct ToldMember {
    /// The child.
    pub member: Member,
    /// What it contributes by the first of its two sizes, in units of 1/64 px.
    pub low: Lu,
    /// By the second.
    pub high: Lu,
    /// Its turn then; 2^64 - 1 where it must be asked again.
    pub turn: u64,
}

/// A child of a flex container of known inline size with what it told for the block size of the container.
#[derive(Clone, Copy)]
pub struct ToldAlong {
    /// The number of the node.
    pub child: NodeId,
    /// Its place in document order, from 0.
    pub number: usize,
    /// Its inline size as a border-box size, in units of 1/64 px: in a row its main size, in a column that before its line is known.
    pub size: Lu,
    /// The block size of its content at this inline size.
    pub block: Lu,
    /// The child along the main axis: in a column where the block size of the container is not known.
    pub item: FlexItem,
    /// Its turn then; 2^64 - 1 where it must be asked again.
    pub turn: u64,
}

/// The children of a flex container with what they told for its block size.
#[derive(Drop)]
pub struct KeptAlong {
    /// The inline size of the container, in units of 1/64 px.
    pub width: Lu,
    /// The children, in order-modified document order.
    pub told: Sequence<ToldAlong>,
}

/// The lines of a flex container.
#[derive(Drop)]
pub struct Lines {
    /// Each line as a range of the items.
    pub ranges: Sequence<(usize, usize)>,
    /// The main size of each item as a border-box size, in units of 1/64 px.
    pub mains: Sequence<Lu>,
}

/// A row in a container of known inline size.
#[derive(Drop)]
pub struct RowParts {
    /// The children with their intrinsic inline sizes, in order-modified document order.
    pub members: Sequence<Member>,
    /// The lines, and the main size of each child as a border-box size.
    pub lines: Lines,
    /// The block size of the content of each child at its main size, in units of 1/64 px.
    pub blocks: Sequence<Lu>,
}

/// A column in a container of known inline size.
#[derive(Drop)]
pub struct ColumnParts {
    /// The children with their intrinsic inline sizes, in order-modified document order.
    pub members: Sequence<Member>,
    /// The inline size of each child as a border-box size, before its line is known, in units of 1/64 px.
    pub boxes: Sequence<Lu>,
    /// The block size of the content of each child at that inline size, in units of 1/64 px.
    pub blocks: Sequence<Lu>,
}
