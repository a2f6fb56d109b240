//! Sharing a space among rows: in equal parts up to the room of each, and by weights.
//!
//! All lengths are in units of one sixty-fourth of a pixel. No call takes memory.
#![tactic(auto)]

mod equal;
mod level;
mod row;
mod weights;

pub use equal::hand_out;
pub use part_rules::Share;
pub use weights::apportion;
