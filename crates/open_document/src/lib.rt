//! A document that is kept open by a program that embeds the engine: it is edited by lines of text,
//! laid out, and its boxes are read.
#![tactic(auto)]

mod changed;
mod coming;
mod document;
mod errors;
mod laws;
mod line;
mod names;
mod text;

pub use doc_writer::WriteError;
pub use document::OpenDocument;
pub use errors::OpenError;
pub use laws::boxes_are_those_from_scratch;
pub use session::{ApplyError as EditError, Counted};
pub use text_scan::{Fault, Place};
