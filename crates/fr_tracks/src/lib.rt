//! The size of an `fr`, and the sizes that it gives the flexible tracks (CSS Grid 2, 12.7).
//!
//! All lengths are in units of one sixty-fourth of a pixel. No call takes memory.
#![tactic(auto)]

mod find;
mod law;
mod row;
mod sizes;

pub use find::{find_fr, find_fr_without_gutters};
pub use law::fractions_fill_the_space;
pub use part_rules::{FrRow, Fraction};
pub use sizes::expand;
