//! The lines of an axis of a grid, their names, and the places that line values stand for (CSS Grid 2, sections 7 to 9); and how
//! often an automatic repeat stands (CSS Grid 2, 7.2.3.2).
#![tactic(auto)]

mod counting;
mod cutting;
mod index;
mod levels;
mod line_list;
mod naming;
mod places;
mod repetition;
mod set_list;
mod side;
mod table;

pub use part_rules::RepeatSpace;
pub use repetition::repetitions;
pub use table::LineTable;
