//! Documents and edits: their types, the readers of whole documents and of edit lines in both
//! versions of the language, and the definition of the edited document.
#![tactic(auto)]

mod document;
mod edit;
mod edit_text;
mod growth;
mod kind;
mod laws;
mod node_text;
mod read;
mod text;
mod token;

pub use document::{Children, Doc, Plain};
pub use edit::{Edit, Named};
pub use edit_text::read_edit;
pub use growth::{MAX_CHILDREN, MAX_LEVELS, node_limit};
pub use kind::Kind;
pub use laws::{
    edits_keep_documents_valid, move_undoes_move, redo_undoes_undo, refusals_come_in_order,
    remove_undoes_insert, undo_undoes_edits,
};
pub use part_rules::Content;
pub use read::read_doc;
pub use track_text::ReadError;
