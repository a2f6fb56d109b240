ghost use Rattle.std.specs.Prelude.{◌≡◌, ◌≢◌, ◌<◌, ◌≤◌, [], length, min, Some, Ok, Err, IfOk};
ghost use Rattle.outside.specs.Faults.{HasCause, HasCauseOf, one_more};
ghost use Rattle.outside.specs.Reading.{Reads, IsZeroAtEnd};
ghost use Rattle.outside.specs.Writing.{Writes, IsPartOf};

use crate::memory::give;
use crate::{Failed, Sink, SinkError, Source};
use std::alloc::Global;
use std::marker::Model;

/// A source over bytes in memory that never fails. Contracts see the bytes that are left, and how often it was asked.
#[derive(Drop)]
pub struct SureSource {
    bytes: Vec<u8>,
    at: usize,
    asked: u64,
}

impl Model for SureSource {
    ghost use Rattle.std.specs.Prelude.{◌≤◌, drop, vec_len};
    ghost use Rattle.outside.specs.Feed.{SureFeed};

    ghost Value = { SureFeed };

    ghost view = { λ a. record { left = drop a.at a.bytes.items; asked = a.asked } };

    ghost invariant = { λ a. a.at ≤ vec_len a.bytes };
}

impl SureSource {
    /// A source with all of the bytes left, that was not asked yet. Takes no memory.
    pub fn new(bytes: Vec<u8>) -> SureSource
        ensures { result ≡ record { left = bytes.items; asked = 0 } }
    {
        SureSource {
            bytes,
            at: 0,
            asked: 0,
        }
    }
}

impl Source for SureSource {
    ghost left = { λ s. Some s.left };

    ghost faults = { λ _. 0 };

    ghost asked = { λ s. s.asked };

    /// Gives all that fit, and never answers `Failed`, since its count of faults is always 0.
    fn read_piece(&mut self, room: &mut [u8]) -> Result<usize, Failed>
        ensures within { IfOk result (λ n. n ≤ length room.new) }
        ensures bytes { Reads (Some self.old.left) (Some self.new.left) result room.new }
        ensures end { IfOk result (λ n. 0 < length room.new → IsZeroAtEnd (Some self.old.left) n) }
        ensures cause { HasCause 0 0 result }
        ensures asked { self.new.asked ≡ one_more self.old.asked }
        ensures sure { result ≡ Ok (min (length room.new) (length self.old.left)) }
    {
        self.asked = self.asked.saturating_add(1);
        let count = give(&self.bytes, self.at, room.len(), room);
        self.at += count;
        Ok(count)
    }
}

/// A sink in memory that never fails, but may want memory. Contracts see what was written.
#[derive(Drop)]
pub struct SureSink {
    bytes: Vec<u8>,
}

impl Model for SureSink {
    ghost use Rattle.std.specs.Prelude.{ℕ, List};

    ghost Value = { List ℕ };

    ghost view = { λ a. a.bytes.items };
}

impl SureSink {
    /// A sink with nothing written. Takes no memory.
    pub fn new(alloc: Global) -> SureSink
        ensures { result ≡ [] }
    {
        SureSink {
            bytes: Vec::new(alloc),
        }
    }

    /// What was written.
    pub fn bytes(&self) -> &[u8]
        ensures { result.now ≡ self.now }
    {
        &self.bytes
    }
}

impl Sink for SureSink {
    ghost written = { λ bytes. Some bytes };

    ghost faults = { λ _. 0 };

    /// Takes the whole piece or wants memory, and never answers `Failed`, since its count is always 0.
    fn write_piece(&mut self, piece: &[u8]) -> Result<usize, SinkError>
        ensures part { IfOk result (λ n. IsPartOf n piece.now) }
        ensures bytes { Writes (Some self.old) (Some self.new) result piece.now }
        ensures cause { HasCauseOf 0 0 (result ≡ Err SinkError.Failed) }
        ensures whole { IfOk result (λ n. n ≡ length piece.now) }
        ensures sure { result ≢ Err SinkError.Failed }
    {
        self.bytes.extend_from_slice(piece)?;
        Ok(piece.len())
    }
}
