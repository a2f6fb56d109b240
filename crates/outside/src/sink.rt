ghost use Rattle.std.specs.Prelude.{◌≡◌, ℕ, List, Option, IfOk, OnOk, OnErr, Err};
ghost use Rattle.outside.specs.Faults.{HasCauseOf};
ghost use Rattle.outside.specs.Told.{Adds, AddsPrefix};
ghost use Rattle.outside.specs.Writing.{Writes, IsPartOf};

use lunit::NoMemory;
use std::alloc::AllocError;
use thiserror::Error;

/// Why a sink took nothing.
#[derive(Clone, Copy, Debug, PartialEq, Eq, Error)]
pub enum SinkError {
    /// Writing failed. The sink's count of faults rose.
    #[error("writing failed")]
    Failed,
    /// The sink wants memory. Its count of faults is as before.
    #[error("want of memory")]
    NoMemory,
}

impl From<NoMemory> for SinkError {
    ghost use Rattle.std.specs.Prelude.{◌≡◌};
    ghost use Rattle.outside.specs.declared.sink.SinkError.TheVariants.{NoMemory};

    ghost from_gives = { λ _ e. e ≡ NoMemory };

    fn from(_error: NoMemory) -> SinkError {
        SinkError::NoMemory
    }
}

impl From<AllocError> for SinkError {
    ghost use Rattle.std.specs.Prelude.{◌≡◌};
    ghost use Rattle.outside.specs.declared.sink.SinkError.TheVariants.{NoMemory};

    ghost from_gives = { λ _ e. e ≡ NoMemory };

    fn from(_error: AllocError) -> SinkError {
        SinkError::NoMemory
    }
}

/// Where bytes go, a piece at a time.
pub trait Sink {
    /// The bytes that were written, where it tells them.
    ghost written: { Self → Option (List ℕ) };

    /// How often it failed: a count that never falls, and stands still at 2^64 - 1.
    ghost faults: { Self → ℕ };

    /// Takes bytes from the front of the piece, at least one where it is not empty, and answers how many.
    /// An error takes nothing. `Failed` comes only where the count of faults rose in this call, and `NoMemory` leaves the count.
    fn write_piece(&mut self, piece: &[u8]) -> Result<usize, SinkError>
        ensures part { IfOk result (λ n. IsPartOf n piece.now) }
        ensures bytes { Writes (written self.old) (written self.new) result piece.now }
        ensures cause { HasCauseOf (faults self.old) (faults self.new)
            (result ≡ Err SinkError.Failed) }
        ensures memory { result ≡ Err SinkError.NoMemory → faults self.new ≡ faults self.old };
}

#[tactic(auto, using(crate::proofs::Laws::adding, crate::proofs::Fronts::front_on))]
/// Writes all of the bytes, in as many pieces as the sink wants, and takes no memory itself. After an error a prefix of them was
/// written. `Failed` comes only where the sink's count of faults rose in this call. `NoMemory` is want of memory, and the count may
/// then have risen at an earlier piece.
pub fn write_all<K: Sink>(sink: &mut K, bytes: &[u8]) -> Result<(), SinkError>
    ensures ok { OnOk result (Adds (K.written sink.old) (K.written sink.new) bytes.now) }
    ensures err { OnErr result (AddsPrefix (K.written sink.old) (K.written sink.new) bytes.now) }
    ensures cause { HasCauseOf (K.faults sink.old) (K.faults sink.new)
        (result ≡ Err SinkError.Failed) }
{
    let mut at = 0;
    while at < bytes.len() {
        at += sink.write_piece(&bytes[at..])?;
    }
    Ok(())
}
