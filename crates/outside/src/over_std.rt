ghost use Rattle.std.specs.Prelude.{◌≡◌, ◌≢◌, ◌≤◌, ◌<◌, None, Err, IfOk, length, take};
ghost use Rattle.std.specs.Io.KnownBytes.{Appends};
ghost use Rattle.outside.specs.Faults.{HasCause, HasCauseOf, counted, one_more};
ghost use Rattle.outside.specs.Reading.{Reads, IsZeroAtEnd};
ghost use Rattle.outside.specs.Writing.{Writes, IsPartOf};

use crate::{Failed, Sink, SinkError, Source, again};
use std::io::{Read, Write};

/// A source over a reader of std. It tells what is left where the reader does.
#[derive(Drop)]
pub struct StdSource<R> {
    reader: R,
    faults: u64,
    asked: u64,
}

impl<R: Read> StdSource<R> {
    /// A source with no fault, over what the reader has left, that was not asked yet. Takes no memory.
    pub fn new(reader: R) -> StdSource<R>
        ensures left { ⟦<StdSource<R> as Source>⟧.left result ≡ R.remaining reader }
        ensures faults { ⟦<StdSource<R> as Source>⟧.faults result ≡ 0 }
        ensures asked { ⟦<StdSource<R> as Source>⟧.asked result ≡ 0 }
    {
        StdSource {
            reader,
            faults: 0,
            asked: 0,
        }
    }
}

impl<R: Read> Source for StdSource<R> {
    ghost left = { λ s. R.remaining s.reader };

    ghost faults = { λ s. s.faults };

    ghost asked = { λ s. s.asked };

    /// Counts as a fault each error of the reader, and nothing else: the end of input is none. A read
    /// that the system interrupts counts only after 1,000 further tries in a row.
    fn read_piece(&mut self, room: &mut [u8]) -> Result<usize, Failed>
        ensures within { IfOk result (λ n. n ≤ length room.new) }
        ensures bytes { Reads (R.remaining self.old.reader) (R.remaining self.new.reader) result
            room.new }
        ensures end { IfOk result
            (λ n. 0 < length room.new → IsZeroAtEnd (R.remaining self.old.reader) n) }
        ensures cause { HasCause self.old.faults self.new.faults result }
        ensures asked { self.new.asked ≡ one_more self.old.asked }
        ensures counted { self.new.faults ≡ counted self.old.faults result }
    {
        self.asked = self.asked.saturating_add(1);
        match again::read(&mut self.reader, room) {
            Ok(count) => Ok(count),
            Err(_) => {
                self.faults = self.faults.saturating_add(1);
                Err(Failed)
            }
        }
    }
}

/// A sink over a writer of std, which flushes each piece. It does not tell what was written, since a writer may have taken bytes
/// where the flush fails.
#[derive(Drop)]
pub struct StdSink<W> {
    writer: W,
    faults: u64,
}

impl<W: Write> StdSink<W> {
    /// A sink with no fault. Takes no memory.
    pub fn new(writer: W) -> StdSink<W>
        ensures written { ⟦<StdSink<W> as Sink>⟧.written result ≡ None }
        ensures faults { ⟦<StdSink<W> as Sink>⟧.faults result ≡ 0 }
    {
        StdSink { writer, faults: 0 }
    }

    /// Counts a fault.
    fn fail(&mut self) -> SinkError
        ensures error { result ≡ SinkError.Failed }
        ensures faults { self.new.faults ≡ one_more self.old.faults }
        ensures later { self.old.faults ≤ self.new.faults }
    {
        self.faults = self.faults.saturating_add(1);
        SinkError::Failed
    }
}

impl<W: Write> Sink for StdSink<W> {
    ghost written = { λ _. None };

    ghost faults = { λ s. s.faults };

    /// Counts each error of the writer, also of its flush, and a piece that is not empty of which it
    /// takes nothing; nothing else. A write or flush that the system interrupts counts only after
    /// 1,000 further tries in a row. Never answers `NoMemory`.
    fn write_piece(&mut self, piece: &[u8]) -> Result<usize, SinkError>
        ensures part { IfOk result (λ n. IsPartOf n piece.now) }
        ensures bytes { Writes None None result piece.now }
        ensures cause { HasCauseOf self.old.faults self.new.faults (result ≡ Err SinkError.Failed) }
        ensures counted { self.new.faults ≡ counted self.old.faults result }
        ensures sure { result ≢ Err SinkError.NoMemory }
        ensures passed_on { IfOk result
            (λ n. Appends (W.contents self.old.writer) (W.contents self.new.writer)
            (take n piece.now)) }
    {
        match again::write(&mut self.writer, piece) {
            Ok(0) if !piece.is_empty() => Err(self.fail()),
            Ok(count) => {
                if again::flush(&mut self.writer).is_err() {
                    return Err(self.fail());
                }
                Ok(count)
            }
            Err(_) => Err(self.fail()),
        }
    }
}

#[cfg(test)]
mod tests;
