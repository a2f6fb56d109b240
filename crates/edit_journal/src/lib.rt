//! Changes of a document and what takes them back: the change that each edit makes, its return, and
//! the journal of the steps that were made and taken back.
#![tactic(auto)]

mod apply;
mod change;
mod find;
mod journal;
mod laws;
mod steps;
mod values;

pub use apply::turn;
pub use change::{Change, Step};
pub use journal::{Journal, NothingToRedo, NothingToUndo};
pub use laws::{changes_are_edits, steps_lead_back};
pub use steps::{forward_of, no_change, step_of};
pub use values::{props_of, values_in, values_set, values_unset, with_values};
