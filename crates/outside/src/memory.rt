ghost use Rattle.std.specs.Prelude.{◌≡◌, ◌<◌, ◌≤◌, ◌+◌, ◌-◌, ◌++◌, [], Some, Err, IfOk, List, length, take, drop, min, true, if◌then◌else◌};
ghost use Rattle.outside.specs.Calls.{fails_next};
ghost use Rattle.outside.specs.Faults.{HasCause, HasCauseOf, one_more};
ghost use Rattle.outside.specs.Feed.{answer_of, after_read, most_given};
ghost use Rattle.outside.specs.Reading.{Reads, IsZeroAtEnd};
ghost use Rattle.outside.specs.Store.{Stores};
ghost use Rattle.outside.specs.Writing.{Writes, IsPartOf};

use crate::{Failed, Sink, SinkError, Source};
use std::alloc::Global;
use std::marker::Model;

/// Which calls fail, by their numbers from 1, and how many calls and faults there were.
#[derive(Drop)]
struct Calls {
    failing: Vec<u64>,
    made: u64,
    faults: u64,
}

impl Calls {
    fn new(failing: Vec<u64>) -> Calls
        ensures { result ≡ record { failing = failing; made = 0; faults = 0 } }
    {
        Calls {
            failing,
            made: 0,
            faults: 0,
        }
    }

    /// Counts the next call, and its fault where it fails.
    fn next_fails(&mut self) -> bool
        ensures fails { result ≡ fails_next self.old.failing.items self.old.made }
        ensures made { self.new.made ≡ one_more self.old.made }
        ensures faults { self.new.faults ≡
            (if result then one_more self.old.faults else self.old.faults) }
        ensures failing { self.new.failing ≡ self.old.failing }
        ensures cause { HasCauseOf self.old.faults self.new.faults (result ≡ true) }
    {
        self.made = self.made.saturating_add(1);
        let fails = self.failing.contains(&self.made);
        if fails {
            self.faults = self.faults.saturating_add(1);
        }
        fails
    }
}

/// A source over bytes in memory, which gives them in pieces and fails at the calls that it is told. Contracts see what is left,
/// the pieces, the failing calls, and how many calls and faults there were.
#[derive(Drop)]
pub struct MemorySource {
    bytes: Vec<u8>,
    at: usize,
    pieces: Vec<usize>,
    calls: Calls,
}

impl Model for MemorySource {
    ghost use Rattle.std.specs.Prelude.{◌≤◌, drop, vec_len};
    ghost use Rattle.outside.specs.Feed.{Feed};

    ghost Value = { Feed };

    ghost view = { λ a. record { left = drop a.at a.bytes.items; pieces = a.pieces.items; failing = a.calls.failing.items; calls = a.calls.made; faults = a.calls.faults } };

    ghost invariant = { λ a. a.at ≤ vec_len a.bytes };
}

impl MemorySource {
    /// A source with all of the bytes left and no fault. Call number i, from 1, gives at most `pieces[i - 1]` bytes but at least
    /// one where one is left and fits, and all that fit once the list has ended. A call whose number is in `failing` fails and
    /// gives nothing. Takes no memory.
    pub fn new(bytes: Vec<u8>, pieces: Vec<usize>, failing: Vec<u64>) -> MemorySource
        ensures { result ≡
            record {
              left = bytes.items;
              pieces = pieces.items;
              failing = failing.items;
              calls = 0;
              faults = 0;
            } }
    {
        MemorySource {
            bytes,
            at: 0,
            pieces,
            calls: Calls::new(failing),
        }
    }
}

impl Source for MemorySource {
    ghost left = { λ s. Some s.left };

    ghost faults = { λ s. s.faults };

    ghost asked = { λ s. s.calls };

    fn read_piece(&mut self, room: &mut [u8]) -> Result<usize, Failed>
        ensures within { IfOk result (λ n. n ≤ length room.new) }
        ensures bytes { Reads (Some self.old.left) (Some self.new.left) result room.new }
        ensures end { IfOk result (λ n. 0 < length room.new → IsZeroAtEnd (Some self.old.left) n) }
        ensures cause { HasCause self.old.faults self.new.faults result }
        ensures asked { self.new.calls ≡ one_more self.old.calls }
        ensures answer { result ≡ answer_of self.old (length room.new) }
        ensures after { self.new ≡ after_read self.old (length room.new) }
    {
        let most = most_at(&self.pieces, self.calls.made, room.len());
        if self.calls.next_fails() {
            return Err(Failed);
        }
        let count = give(&self.bytes, self.at, most, room);
        self.at += count;
        Ok(count)
    }
}

/// The most that the call after so many calls gives to a room of so many bytes.
fn most_at(pieces: &[usize], calls: u64, room: usize) -> usize
    ensures most { result ≡ most_given pieces.now calls room }
    ensures some { 0 < room → 0 < result }
{
    match pieces.get(calls as usize) {
        Some(piece) => (*piece).max(1),
        None => room,
    }
}

#[tactic(auto, using(crate::proofs::Fronts::zero_at_end))]
/// Copies to the front of the room what comes next, at most `most` of it.
pub(crate) fn give(bytes: &[u8], at: usize, most: usize, room: &mut [u8]) -> usize
    requires { at ≤ length bytes.now }
    ensures count { result ≡ min most (min (length room.new) (length bytes.now - at)) }
    ensures given { drop at bytes.now ≡ take result room.new ++ drop (at + result) bytes.now }
    ensures end { 0 < most → 0 < length room.new → IsZeroAtEnd (Some (drop at bytes.now)) result }
{
    let count = most.min(room.len().min(bytes.len() - at));
    room[..count].copy_from_slice(&bytes[at..at + count]);
    count
}

/// A sink in memory, which takes so many bytes at a call and fails at the calls that it is told. Contracts see what was written,
/// the most that a call takes, the failing calls, and how many calls and faults there were.
#[derive(Drop)]
pub struct MemorySink {
    bytes: Vec<u8>,
    most: usize,
    calls: Calls,
}

impl Model for MemorySink {
    ghost use Rattle.outside.specs.Store.{Store};

    ghost Value = { Store };

    ghost view = { λ a. record { written = a.bytes.items; most = a.most; failing = a.calls.failing.items; calls = a.calls.made; faults = a.calls.faults } };
}

impl MemorySink {
    /// A sink with nothing written and no fault. Each call takes at most `most` bytes, but at least one where there is one. A call
    /// whose number, from 1, is in `failing` fails and takes nothing. Takes no memory.
    pub fn new(alloc: Global, most: usize, failing: Vec<u64>) -> MemorySink
        ensures { result ≡
            record { written = []; most = most; failing = failing.items; calls = 0; faults = 0 } }
    {
        MemorySink {
            bytes: Vec::new(alloc),
            most,
            calls: Calls::new(failing),
        }
    }

    /// What was written.
    pub fn bytes(&self) -> &[u8]
        ensures { result.now ≡ self.now.written }
    {
        &self.bytes
    }
}

impl Sink for MemorySink {
    ghost written = { λ s. Some s.written };

    ghost faults = { λ s. s.faults };

    fn write_piece(&mut self, piece: &[u8]) -> Result<usize, SinkError>
        ensures part { IfOk result (λ n. IsPartOf n piece.now) }
        ensures bytes { Writes (Some self.old.written) (Some self.new.written) result piece.now }
        ensures cause { HasCauseOf self.old.faults self.new.faults (result ≡ Err SinkError.Failed) }
        ensures memory { result ≡ Err SinkError.NoMemory → self.new.faults ≡ self.old.faults }
        ensures stores { Stores self.old self.new piece.now result }
    {
        if self.calls.next_fails() {
            return Err(SinkError::Failed);
        }
        let count = self.most.max(1).min(piece.len());
        self.bytes.extend_from_slice(&piece[..count])?;
        Ok(count)
    }
}
