//! Which box of a page is under a point.
#![tactic(auto)]

mod boxes;
mod columns;
mod edges;
mod extents;
mod index;
mod laws;
mod strips;

pub use edges::STRIPS;
pub use index::HitIndex;
pub use laws::{hit_is_the_box_under, reach_is_a_point};
