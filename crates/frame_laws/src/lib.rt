//! What an edit that does not reach a node leaves of it: trees that agree at a node give it the
//! same contexts and the same answers, and the documents before and after an edit agree at each
//! node that it does not touch.
#![tactic(auto)]

mod laws;

pub use laws::{agreeing_trees_answer_alike, untouched_nodes_agree};
