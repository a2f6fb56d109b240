//! What a walk down the tree of nodes goes with, as one value, and where a node stands that is asked.
#![tactic(auto)]

mod frames_kept;
mod members_kept;
mod seat;
mod walker;

pub use seat::Seat;
pub use walker::Walker;
