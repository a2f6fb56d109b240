use std::alloc::{AllocError, AllocFailed};
use thiserror::Error;

/// Why a change of an arena was refused.
#[derive(Clone, Copy, Debug, PartialEq, Eq, Error)]
pub enum ArenaError {
    /// A number names no node.
    #[error("no node has this number")]
    Stale,
    /// The root is not removed and not moved.
    #[error("the root stays")]
    Root,
    /// The new parent stands in the moved tree.
    #[error("the new parent is below the moved node")]
    Cycle,
    /// There are fewer children.
    #[error("there are fewer children")]
    BadIndex,
    /// A node would stand on level 65.
    #[error("more than 64 levels")]
    TooDeep,
    /// There would be more nodes, or more children of one parent, than the arena allows.
    #[error("too many nodes")]
    Full,
    /// Want of memory.
    #[error("want of memory")]
    NoMemory,
}

impl From<AllocError> for ArenaError {
    ghost use Rattle.std.specs.Prelude.{◌≡◌};
    ghost use Rattle.node_arena.specs.declared.error.ArenaError.TheVariants.{NoMemory};

    ghost from_gives = { λ _ e. e ≡ NoMemory };

    fn from(_error: AllocError) -> ArenaError {
        ArenaError::NoMemory
    }
}

impl<T: Drop> From<AllocFailed<T>> for ArenaError {
    ghost use Rattle.std.specs.Prelude.{◌≡◌};
    ghost use Rattle.node_arena.specs.declared.error.ArenaError.TheVariants.{NoMemory};

    ghost from_gives = { λ _ e. e ≡ NoMemory };

    fn from(_error: AllocFailed<T>) -> ArenaError {
        ArenaError::NoMemory
    }
}
