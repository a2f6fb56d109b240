//! The sizes of nodes along the block axis, and what the children of a container are given along both axes.
//!
//! All lengths are in units of one sixty-fourth of a pixel. Axis 0 is the inline axis, along which the columns lie, and axis 1 the
//! block axis, along which the rows lie.
#![tactic(auto)]

mod again;
mod answered;
mod asking;
mod begun;
mod block;
mod children;
mod edges;
mod flex;
mod flexes;
mod held;
mod last_tracks;
mod laws;
mod queries;
mod row_sizes;
mod views;
mod walk;
mod wide;

pub use again::same_view;
pub use asking::wide_at;
pub use block::{block_of, lend_rows};
pub use children::{
    child_block, child_inline, from_first, given_box, given_view, own_block, own_inline,
};
pub use edges::edges_in;
pub use flexes::{column_block, crosses_of, lines_by, row_block, row_lines};
pub use held::{column_for, row_for, wide_for};
pub use last_tracks::{LastTracks, ViewParts, box_after};
pub use laws::{children_of_grids_are_as_defined, lines_are_as_defined};
pub use queries::{block_query, kept_wide};
pub use views::{view_by, view_for};
pub use walk::{block_in, column_in, lend_rows_at, row_in};
