//! The definitions over a whole tree of nodes, in `specs/`: what the rules read of a node, the lines and areas of a grid,
//! the sizes of grids and flex containers, the items that subgrids lend, frames, boxes, and the questions that they answer.
//!
//! Nothing is computed here. The crates above prove that their calls give what these definitions give.
#![tactic(auto)]

mod counts;
mod kind;
mod laws;
mod query;
mod shared_content;
mod shared_tracks;

pub use counts::Counts;
pub use kind::NodeKind;
pub use laws::{
    boxes_are_of_all_nodes, boxes_move_along, chains_are_of_grid_values,
    equal_nodes_answer_equally, right_answers_stay_right, stable_sorts_are_the_order,
};
pub use query::{Ask, Given, Query};
pub use shared_content::SharedContent;
pub use shared_tracks::SharedTracks;
