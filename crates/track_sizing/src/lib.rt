//! The sizes of the tracks of one axis (CSS Grid 2, section 12).
//!
//! All lengths are in units of one sixty-fourth of a pixel.
#![tactic(auto)]

mod alone;
mod calm;
mod content;
mod distribute;
mod even;
mod factors;
mod flex;
mod group;
mod item;
mod kinds;
mod lasting;
mod numbers;
mod reach;
mod rest;
mod rooms;
mod row;
mod runs;
mod size;
mod step;
mod turn;

pub use lasting::Lasting;
pub use part_rules::{Fit, Least, Most, Rule, Space};
pub use size::{size_axis, size_axis_lasting};
