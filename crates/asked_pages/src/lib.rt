//! What laying out a page asks, keeps and measures, in the words of its document.
#![tactic(auto)]

mod laws;

pub use laws::{changes_touch_parents, edits_touch_parents, layouts_of_pages};
