//! A document as the engine holds it: numbered nodes with their computed styles and kept answers,
//! found by their names, and the edits of such a document, each of which is one change.
#![tactic(auto)]

mod children;
mod edits;
mod error;
mod font;
mod forget;
mod laws;
mod lookup;
mod node;
mod page;
mod plain;
mod refusal;
mod register;
mod restyle;
mod step;
mod touched;
mod turn;

pub use error::EditError;
pub use laws::{changes_fit, pages_stand, steps_fit, valid_documents_are_readable};
pub use page::Page;
pub use register::Register;
