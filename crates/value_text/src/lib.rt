//! The values of properties in text: one declaration, with the units of its lengths.
#![tactic(auto)]

mod area;
mod flex;
mod form;
mod found;
mod keyword;
mod line;
mod property;
mod read;
mod refusal;
mod settings;
mod size;
mod value;

pub use flex::Flex;
pub use form::{Form, Refused};
pub use found::{Found, FoundList};
pub use keyword::AlignForm;
pub use property::{Property, Shorthand, parts_of_shorthand, property_of};
pub use read::{UNKNOWN_PROPERTY, read_decl};
pub use size::{Measured, SizeForm};
