//! Documents written in one canonical form.
#![tactic(auto)]

mod area;
mod errors;
mod laws;
mod line;
mod node;
mod number;
mod property;
mod track;
mod units;
mod value;
mod write;

pub use errors::WriteError;
pub use laws::{canonical_text_is_fixed, declarations_read_back, documents_read_back};
pub use write::write_doc;
