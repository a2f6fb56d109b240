//! What laying out a tree asks, by the names of its nodes, how many answers it keeps at least and at most, and which leaves it measures.
#![tactic(auto)]

mod laws;

pub use laws::{answers_are_put_once, each_container_is_answered, layouts_ask_what_is_listed};
