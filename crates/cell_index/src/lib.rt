//! Which cells of a grid are taken (CSS Grid 2, 8.5).
#![tactic(auto)]

mod bands;
mod blocks;
mod columns;
mod intervals;
mod list;
mod size;

pub use intervals::IntervalCells;
pub use list::ListCells;
pub use occupancy::Occupancy;
