//! Runs over devices in memory.

ghost use Rattle.std.specs.Prelude.{◌≡◌, ◌<◌, ◌≤◌, length, IfSome};

use lunit::{NoMemory, Sequence, Steps};
use outside::{LogRuler, MemorySink, MemorySource};
use session::{Status, run};
use std::alloc::Global;
use std::marker::Brand;
use std::process::Abort;
use std::sync::ledger::{Blank, Ledger};

/// How the input comes and the output goes: all at once, or a byte at a call. Calls are counted
/// from 1, and those of these numbers fail; 0 is the number of none.
#[derive(Clone, Copy)]
pub(crate) struct Devices {
    pub(crate) bytewise: bool,
    pub(crate) failing_read: u64,
    pub(crate) failing_write: u64,
}

pub(crate) const WHOLE: Devices = Devices {
    bytewise: false,
    failing_read: 0,
    failing_write: 0,
};

pub(crate) const BYTEWISE: Devices = Devices {
    bytewise: true,
    failing_read: 0,
    failing_write: 0,
};

/// How a run ended, and what it wrote.
#[derive(Drop)]
pub(crate) struct Ran {
    pub(crate) status: Status,
    pub(crate) written: Sequence<u8>,
}

impl Ran {
    /// It ended so, and wrote this and no more.
    pub(crate) fn ended(&self, status: Status, written: &[u8]) -> bool {
        self.status == status && self.written.as_slice() == written
    }
}

fn source_of(alloc: Global, text: &[u8], devices: Devices) -> Result<MemorySource, NoMemory> {
    let mut pieces = Vec::new(alloc);
    if devices.bytewise {
        for _ in text {
            pieces.push(1)?;
        }
    }
    let failing = Vec::from_slice(alloc, &[devices.failing_read])?;
    let bytes = Vec::from_slice(alloc, text)?;
    Ok(MemorySource::new(bytes, pieces, failing))
}

fn sink_of(alloc: Global, devices: Devices) -> Result<MemorySink, NoMemory> {
    let most = if devices.bytewise { 1 } else { 1 << 20 };
    let failing = Vec::from_slice(alloc, &[devices.failing_write])?;
    Ok(MemorySink::new(alloc, most, failing))
}

fn list_of(alloc: Global, words: &[&str]) -> Result<Vec<String>, NoMemory> {
    let mut list = Vec::new(alloc);
    for word in words {
        list.push(String::from_str(alloc, word)?)?;
    }
    Ok(list)
}

fn run_on<L: Ledger>(
    alloc: Global,
    words: Vec<String>,
    source: &mut MemorySource,
    sink: &mut MemorySink,
    ruler: &mut LogRuler,
    blank: Blank,
) -> Status
    requires name { blank.name ≡ L.name }
    requires parts { blank.parts ≡ L.parts }
    requires some { 0 < blank.parts }
{
    let mut passes: Steps<L> = Steps::new(blank);
    run(alloc, words, source, sink, ruler, &mut passes)
}

/// Runs under the words on a text, and logs what the ruler is asked.
pub(crate) fn run_logged(
    alloc: Global,
    words: &[&str],
    text: &[u8],
    devices: Devices,
    ruler: &mut LogRuler,
) -> Result<Ran, NoMemory> {
    let list = list_of(alloc, words)?;
    let mut source = source_of(alloc, text, devices)?;
    let mut sink = sink_of(alloc, devices)?;
    let status = run_on::<Brand>(alloc, list, &mut source, &mut sink, ruler, Blank::new(1));
    let written = Sequence::from_slice(alloc, sink.bytes())?;
    Ok(Ran { status, written })
}

/// Runs under the words on a text.
pub(crate) fn run_text(
    alloc: Global,
    words: &[&str],
    text: &[u8],
    devices: Devices,
) -> Result<Ran, NoMemory> {
    let mut ruler = LogRuler::new(alloc);
    run_logged(alloc, words, text, devices, &mut ruler)
}

/// A run under the word `layout` ends so, and writes this and no more.
pub(crate) fn check_run(
    rt: &impl Abort,
    alloc: Global,
    text: &[u8],
    devices: Devices,
    status: Status,
    written: &[u8],
) -> Result<(), NoMemory> {
    let ran = run_text(alloc, &["layout"], text, devices)?;
    assert!(rt; ran.ended(status, written), "{} bytes", text.len());
    Ok(())
}

/// The length of the first line of a text, with its line feed, where it has one.
pub(crate) fn line_length(text: &[u8]) -> Option<usize>
    ensures { IfSome result (λ n. (0 < n) × (n ≤ length text.now)) }
{
    let place = text.iter().position(|byte| *byte == b'\n')?;
    Some(place + 1)
}

/// Whether whole lines, each with its line feed, are among those of a text, in their order.
pub(crate) fn has_lines(text: &[u8], lines: &[u8]) -> bool {
    let mut due = lines;
    let mut left = text;
    while let Some(length) = line_length(left) {
        let (line, later) = left.split_at(length);
        if due.starts_with(line) {
            due = due.get(length..).unwrap_or(b"");
        }
        left = later;
    }
    due.is_empty()
}
