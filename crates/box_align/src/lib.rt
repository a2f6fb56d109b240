//! Where content stands in its container and an item in its area, and what `auto` margins take (CSS Box Alignment 3).
//!
//! All lengths are in units of one sixty-fourth of a pixel. No call takes memory.
#![tactic(auto)]

mod content;
mod item;
mod rounding;

pub use content::content_offset;
pub use item::{auto_margins, self_offset};
pub use part_rules::Mode;
