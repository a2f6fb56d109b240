//! A grid once its columns lie where they lie (CSS Grid 2, 12.1): what its answer for the block size holds beside the size, so that
//! its frames begin with it.

use crate::contexts::{Above, Placed};
use crate::shared::SharedBase;
use lunit::{Item, Lu, Sequence};
use part_rules::View;
use tree_rules::Given;

/// A grid before its children are asked.
#[derive(Drop)]
pub struct GridBase {
    /// The counts of its own automatic repeats, columns first.
    pub pair: (u32, u32),
    /// The counts that its subgrids see: those that it sees above it, the topmost grid first, and its own last.
    pub pairs: Sequence<(u32, u32)>,
    /// Its context, as the seat of its subgrids has it.
    pub above: Above,
    /// The areas of its children.
    pub placed: Placed,
}

/// A grid with what its children answer.
#[derive(Drop)]
pub struct GridParts {
    /// What it is without that.
    pub base: SharedBase,
    /// The two intrinsic inline sizes of each child, in the order of the areas, in units of 1/64 px; 0 for a subgrid in the
    /// columns, which is not asked.
    pub inlines: Sequence<(Lu, Lu)>,
    /// The items that size the columns: one for each child, or those that it lends.
    pub items: Sequence<Item>,
}

/// A child of a grid in its columns.
#[derive(Drop)]
pub struct WideChild {
    /// The inline size of its border box, in units of 1/64 px.
    pub box_: Lu,
    /// What it is given in the inline axis.
    pub inline: Given,
    /// The block size of its content, in units of 1/64 px; 0 for a subgrid in the rows, which is not asked.
    pub block: Lu,
}

/// Where the rows of a grid lie in a content box of this size.
#[derive(Drop)]
pub struct RowsAt {
    /// The block size of the content box, in units of 1/64 px.
    pub size: Lu,
    /// The rows.
    pub view: View<1>,
}

/// A grid with its columns, and its children as wide as they are there.
#[derive(Drop)]
pub struct GridWide {
    /// What its children answer for the columns.
    pub parts: GridParts,
    /// Where the columns lie.
    pub columns: View<0>,
    /// Its children, in the order of the areas.
    pub children: Sequence<WideChild>,
    /// The items that size the rows: one for each child, or those that it lends.
    pub items: Sequence<Item>,
    /// Where the rows lie where the content box is as great as the content, if that is known.
    pub rows: Option<RowsAt>,
}
