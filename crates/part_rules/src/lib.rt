//! The plain types that the parts of the layout share, and the definition of each part in `specs/`: sharing, fractions,
//! track sizing, flex lines, alignment, views of subgrids, line names, repetition, placement and word lines.
//!
//! Nothing is computed here. The crates above prove that their calls give what these definitions give.
#![tactic(auto)]

mod content;
mod flex;
mod fraction;
mod laws;
mod mode;
mod names;
mod share;
#[cfg(test)]
mod tests;
mod track;
mod view;
mod wish;

pub use content::Content;
pub use flex::FlexItem;
pub use fraction::{FrRow, Fraction};
pub use laws::{
    all_items_are_frozen, areas_are_apart, between_fills, division_counts_repetitions,
    empty_groups_change_nothing, fractions_cover_bases, free_items_overlap_nothing,
    free_items_take_the_least_place, lines_are_fewest, parts_are_the_space, shares_are_the_space,
};
pub use mode::Mode;
pub use names::RepeatSpace;
pub use share::Share;
pub use track::{Fit, Least, Most, Rule, Space};
pub use view::{Level, View};
pub use wish::{Shape, Wish};
