//! The nodes that the arena of the engine holds, with the answers that they keep; the context and the areas of each grid of
//! the tree; and what the layers above read of a node.
//!
//! The bare tree is the arena's tree without what is kept in it. Contracts speak of a node by what the rules see of it there: its
//! label, the links upwards, and what stands below it.
#![tactic(auto)]

mod bases;
mod contexts;
pub mod counts;
mod covered;
mod grids;
mod items;
mod keeping;
mod last_along;
mod last_frames;
mod last_members;
mod laws;
mod lengths;
mod lined;
mod linked;
mod node;
mod order;
mod placement;
pub mod rules;
mod same;
mod seats;
mod shared;
mod sight;
pub mod style;
mod telling;
pub mod template;
mod told;
mod wide;
mod wishes;

pub use bases::Bases;
pub use contexts::{Above, AxisContext, Context, Placed};
pub use grids::context_in;
pub use items::{ChildArea, entry, has_subgrid};
pub use keeping::{drop_past, find, find_base, find_by, keep_base, leaf_height, leaf_sizes, put};
pub use last_along::{keep_along, take_along};
pub use last_frames::{keep_frames, take_frames};
pub use last_members::{keep_members, take_members, unasked};
pub use laws::{
    dropping_keeps_the_rest, forgetting_keeps_the_rest, kept_answers_are_defined,
    readable_node_by_node, right_where_seen_the_same,
};
pub use lined::{ColumnParts, KeptAlong, Lines, Member, RowParts, ToldAlong, ToldMember};
pub use node::{Answer, Frame, Node};
pub use placement::{areas_in, ordered};
pub use seats::{areas, context, seat};
pub use shared::{SharedBase, SharedColumnParts, SharedFrames, SharedRowParts, SharedWide};
pub use sight::{child, count, node_at, parent, root};
pub use telling::{MANY, keep_columns, keep_wide, put_items, take_columns, take_wide, turn_of};
pub use told::{
    KeptColumns, KeptFrames, KeptWide, Past, PastColumns, PastFrames, PastRows, PastWide,
    SharedAlong, SharedColumns, SharedLast, SharedMembers, SharedTold, ToldColumns, ToldRows,
};
pub use tree_rules::NodeKind;
pub use wide::{GridBase, GridParts, GridWide, RowsAt, WideChild};
