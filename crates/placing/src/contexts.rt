use line_names::LineTable;
use lunit::{Area, Lu, Sequence, Span};
use node_arena::NodeId;
use part_rules::Level;

/// What a grid has in one axis (CSS Grid 2, sections 7 and 9).
#[derive(Drop)]
pub struct AxisContext {
    /// Whether it has the tracks of its parent.
    pub subgrid: bool,
    /// Its lines.
    pub table: LineTable,
    /// The gap between two tracks for lent items, where a percentage counts 0, in units of 1/64 px.
    pub gap: Lu,
    /// The subgrids from it up to the grid that sizes the tracks, itself first.
    pub levels: Sequence<Level>,
}

/// What a grid has in both axes.
#[derive(Drop)]
pub struct Context {
    /// In the inline axis.
    pub columns: AxisContext,
    /// In the block axis.
    pub rows: AxisContext,
}

/// The areas of the children of a grid, cut to the limit of its lines (CSS Grid 2, 8.5).
#[derive(Drop)]
pub struct Placed {
    /// The children with their areas, in order-modified document order.
    pub areas: Sequence<(NodeId, Area)>,
    /// The places of these children in document order, from 0.
    pub numbers: Sequence<usize>,
    /// The tracks of the inline axis: the explicit ones and all that an area has.
    pub columns: Span,
    /// The tracks of the block axis.
    pub rows: Span,
}

/// The grid above a node, where the node is a subgrid of it.
#[derive(Drop)]
pub enum Above {
    /// The node is no subgrid.
    Nothing,
    /// The context of the grid above it.
    Grid(Context),
}
