use lunit::NoMemory;
use text_scan::Fault;
use thiserror::Error;

/// Why a document was not opened.
#[derive(Clone, Copy, Debug, PartialEq, Eq, Error)]
pub enum OpenError {
    /// The text is no document: its first fault.
    #[error("refused")]
    Refused(Fault),
    /// The text has more than 2^26 bytes.
    #[error("text too long")]
    TooLong,
    /// Memory was wanting.
    #[error("want of memory")]
    NoMemory,
}

impl From<NoMemory> for OpenError {
    ghost use Rattle.std.specs.Prelude.{◌≡◌};
    ghost use Rattle.open_document.specs.declared.errors.OpenError.TheVariants.{NoMemory};

    ghost from_gives = { λ _ e. e ≡ NoMemory };

    fn from(_error: NoMemory) -> OpenError {
        OpenError::NoMemory
    }
}
