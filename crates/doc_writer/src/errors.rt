use lunit::{Name, NoMemory};
use std::alloc::AllocError;
use thiserror::Error;

/// Why a document was not written.
#[derive(Clone, Copy, Debug, PartialEq, Eq, Error)]
pub enum WriteError {
    /// The line of the node of this name has more than 65,536 bytes. It is the first such node in
    /// document order.
    #[error("line too long")]
    TooLong(Name),
    /// Memory was wanting.
    #[error("want of memory")]
    NoMemory,
}

impl From<NoMemory> for WriteError {
    ghost use Rattle.std.specs.Prelude.{◌≡◌};
    ghost use Rattle.doc_writer.specs.declared.errors.WriteError.TheVariants.{NoMemory};

    ghost from_gives = { λ _ e. e ≡ NoMemory };

    fn from(_error: NoMemory) -> WriteError {
        WriteError::NoMemory
    }
}

impl From<AllocError> for WriteError {
    ghost use Rattle.std.specs.Prelude.{◌≡◌};
    ghost use Rattle.doc_writer.specs.declared.errors.WriteError.TheVariants.{NoMemory};

    ghost from_gives = { λ _ e. e ≡ NoMemory };

    fn from(_error: AllocError) -> WriteError {
        WriteError::NoMemory
    }
}
