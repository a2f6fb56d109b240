//! The rectangles of nodes: items in their areas, the children of a flex container in their lines, and the root in the viewport.
//!
//! All lengths are in units of one sixty-fourth of a pixel. Axis 0 is the inline axis, along which the columns lie, and axis 1 the
//! block axis, along which the rows lie.
#![tactic(auto)]

mod aligned;
mod answered;
mod child_seats;
mod columns;
mod flex_anew;
mod flexed;
mod flexes;
mod frames;
mod framing;
mod gridded;
mod grids;
mod items;
mod last_boxes;
mod laws;
mod layout;
mod leaves;
mod line;
mod lines;
mod queries;
mod root;
mod root_frame;
mod row_views;
mod seats;
mod sitting;
mod sizes;
mod spot;
mod told;
mod turns;
mod walk;

pub use aligned::{Margins, aligned_at, margins_of};
pub use columns::column_lines;
pub use flexed::{column_frames, row_frames};
pub use flexes::{LinedChildren, frames_in_lines};
pub use framing::{frames_at, frames_of};
pub use grids::OverTracks;
pub use items::{box_size, place_in_area};
pub use last_boxes::LastBoxes;
pub use laws::{flex_children_stand_near, frames_fit_below, frames_stand_near};
pub use layout::{RootFrame, kept_boxes, walk_boxes};
pub use lines::flex_frames;
pub use queries::frames_query;
pub use root::{given_box, root_height, root_rect, root_width};
pub use seats::Seat;
pub use sitting::{Container, Sitting, container_of, sitting_of};
pub use told::{BoxList, BoxSink};
