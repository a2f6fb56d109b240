//! The kept answers of a node, and which of them an edit reaches.
#![tactic(auto)]

mod kept;
mod linked;
mod numbers;
mod reaching;
mod same;

pub use kept::Kept;
pub use linked::Linked;
pub use reaching::{drop_reached, reach};
pub use same::{same_counts, same_query};
pub use tree_rules::{Ask, Counts, Given, Query, SharedTracks};
