//! Documents and edits that are generated from a seed, and the sum of the boxes of a document. The same seed gives the
//! same document and the same edits.
#![tactic(auto)]

mod choice;
mod draws;
mod laws;
mod names;
mod script;
mod styles;
mod sums;
mod tree;

pub use choice::Choice;
pub use draws::Draws;
pub use laws::{
    made_documents_are_valid, made_documents_are_whole, made_edits_are_accepted,
    made_edits_are_told,
};
pub use script::next_edit;
pub use sums::checksum;
pub use tree::make_document;
