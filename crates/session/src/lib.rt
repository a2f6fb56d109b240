//! The top call of the layout tool: it reads a document, lays it out and prints its boxes, and
//! again after each edit. Or it lays out a document that it generates.
#![tactic(auto)]

mod answer;
mod box_text;
mod edits;
mod engine;
mod faults;
mod input;
mod laws;
mod laying;
mod made;
mod pointed;
mod print;
mod said;
mod serve;
mod stats;
mod status;
mod text;
mod top_call;
mod tracing;
mod writing;

pub use engine::{Counted, Engine, Layout};
pub use laws::{edits_that_are_read_are_told, layouts_spare_leaves, passes_are_few};
pub use page_tree::EditError as ApplyError;
pub use print::print_boxes;
pub use status::Status;
pub use text::Held;
pub use top_call::run;
