//! The sizes of nodes along one axis, and the items that grids size their tracks by.
//!
//! All lengths are in units of one sixty-fourth of a pixel. Axis 0 is the inline axis, along which the columns lie, and axis 1 the
//! block axis, along which the rows lie.
#![tactic(auto)]

mod answered;
mod asking;
mod bounds;
mod children;
mod columns;
mod contributions;
mod distribution;
mod flex;
mod flex_items;
mod grid;
mod inline;
mod lasting;
mod laws;
mod levels;
mod numbers;
mod plain;
mod queries;
mod sides;
mod sized;
mod tracks;
mod used;
mod views;
mod walk;

pub use asking::grid_in;
pub use bounds::{Bounds, border_size, resolved};
pub use columns::with_room;
pub use contributions::{contribution, floor_of};
pub use distribution::{
    area_size, content_size, gap_by, greatest_of, in_a_row, is_safe, mode_of, open_tracks, sum_of,
    total_of_tracks, tracks_over,
};
pub use flex::FlexParts;
pub use flex_items::{
    automatic_minimum, base_size, column_box, cross_box, flex_item, inline_contributions,
    is_stretched_across, line_align, outer_cross,
};
pub use grid::base_at;
pub use inline::{inline_of, lend_columns};
pub use lasting::{LastingTracks, lasting_for};
pub use laws::{items_lie_in_their_tracks, lent_items_stay_inside};
pub use levels::{empty_item, extra_margins, lifted, offset_of};
pub use plain::{is_plain, plain_block, plain_inline};
pub use queries::inline_query;
pub use sides::{inner, inner_end, inner_start, margins, outer_end, outer_start};
pub use sized::{bounds_of, child_item, is_stretched, subgrid_box};
pub use tracks::{SizedTracks, TrackInput, intrinsic_totals, sized_for};
pub use used::{block_used, content_of_box, inline_used, self_align, stretches};
pub use views::view_in;
pub use walk::{flex_in, inline_at, lend_columns_at};
