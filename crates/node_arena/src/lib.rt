//! An arena: the nodes of one ordered tree, each under a number of its own, over a slab. Contracts see it as one plain
//! tree of values with their numbers.
#![tactic(auto)]

mod arena;
mod error;
mod laws;
mod number;
mod slots;

pub use arena::Arena;
pub use error::ArenaError;
pub use laws::stale_stays_stale;
pub use number::NodeId;
