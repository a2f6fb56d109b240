//! The lines of a flex container, the main sizes of their items and their cross sizes (CSS Flexbox 1, section 9).
//!
//! All lengths are in units of one sixty-fourth of a pixel.
#![tactic(auto)]

mod compare;
mod crosses;
mod flexible;
mod full;
mod lengths;
mod limits;
mod lines;
mod round;
mod space;

pub use crosses::cross_sizes;
pub use lengths::resolve_lengths;
pub use lines::collect_lines;
pub use part_rules::FlexItem;
