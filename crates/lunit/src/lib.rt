//! The base of the layout engine: lengths in whole units of one sixty-fourth of a pixel, axes, names,
//! grid lines and areas, lists that contracts see as lists, the error types, and a counter of steps.
#![tactic(auto)]

mod along;
mod copied;
mod errors;
mod geometry;
mod item;
mod laws;
mod line_value;
mod lu;
mod name;
mod name_set;
mod number;
mod print;
mod sequence;
mod steps;
mod wide;

pub use along::{Along, BLOCK, INLINE};
pub use copied::Copied;
pub use errors::{BadName, BadNumber, NoMemory};
pub use geometry::{Area, Rect, Span, Spot};
pub use item::{Floor, Item};
pub use laws::{overlap_is_a_cell, rounds_down, six_decimals_count};
pub use line_value::LineValue;
pub use lu::Lu;
pub use name::Name;
pub use name_set::NameSet;
pub use number::{NumberForm, is_number};
pub use print::{px_text, six_digits, without_last_zeros};
pub use sequence::Sequence;
pub use steps::Steps;
pub use wide::Wide;
