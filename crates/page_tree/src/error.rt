use lunit::NoMemory;
use text_scan::Fault;
use thiserror::Error;

/// Why an edit changed nothing.
#[derive(Clone, Copy, Debug, PartialEq, Eq, Error)]
pub enum EditError {
    /// The edit is refused.
    #[error("refused")]
    Refused(Fault),
    /// Memory was wanting.
    #[error("want of memory")]
    NoMemory,
}

impl From<NoMemory> for EditError {
    ghost use Rattle.std.specs.Prelude.{◌≡◌};
    ghost use Rattle.page_tree.specs.declared.error.EditError.TheVariants.{NoMemory};

    ghost from_gives = { λ _ e. e ≡ NoMemory };

    fn from(_error: NoMemory) -> EditError {
        EditError::NoMemory
    }
}
