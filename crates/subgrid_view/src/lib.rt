//! What a subgrid sees of the tracks of its parent, and the extra margins of its items (CSS Grid 2, section 9).
//!
//! All lengths are in units of one sixty-fourth of a pixel.
#![tactic(auto)]

mod gaps;
mod margins;
mod view;

pub use margins::{extra_after, extra_before};
pub use part_rules::{Level, View};
pub use view::view_of;
