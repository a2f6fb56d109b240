ghost use Rattle.std.specs.Prelude.{◌≡◌, ◌≤◌, ◌||◌, not, length, position, take, IfOk};
ghost use Rattle.std.specs.List.{list_any};
ghost use Rattle.text_scan.specs.Lines.{is_printable, line_fault, line_of};

use lunit::{NoMemory, Sequence};
use std::alloc::Global;

/// How many bytes a line may have, and how many are kept of one that has more (own rule).
pub const MAX_LINE: usize = 65_536;

/// The number of the fault of a byte that is not from 32 to 126.
pub const BAD_BYTE: u8 = 1;

/// The number of the fault of a line of more than [`MAX_LINE`] bytes.
pub const LINE_TOO_LONG: u8 = 2;

/// A place in a text: the line, and the byte in it, both counted from 1.
#[derive(Clone, Copy, Debug, PartialEq, Eq)]
pub struct Place {
    pub line: u32,
    pub column: u32,
}

/// A fault of a text: its number in the table of faults, and its place.
#[derive(Clone, Copy, Debug, PartialEq, Eq)]
pub struct Fault {
    pub number: u8,
    pub place: Place,
}

/// A line of a text, without its line feed: its number, counted from 1, its first [`MAX_LINE`] bytes, and its fault.
/// The fault is [`BAD_BYTE`] at the first byte that is not from 32 to 126, or [`LINE_TOO_LONG`] at column 65,537 of a
/// line of more than 65,536 bytes; of both the one with the lesser column, and at one column the bad byte.
#[derive(Debug, PartialEq, Eq, Drop)]
pub struct Line {
    pub number: u32,
    pub bytes: Sequence<u8>,
    pub fault: Option<Fault>,
}

/// Reads the line of this number, which goes up to index `end` of `bytes`.
pub(crate) fn read_line(
    alloc: Global,
    number: u32,
    bytes: &[u8],
    end: usize,
) -> Result<Line, NoMemory>
    requires front { end ≤ length bytes.now }
    requires fits { length bytes.now ≤ 134217728 }
    ensures { IfOk result (λ line. line ≡ line_of number (take end bytes.now)) }
{
    let (front, _) = bytes.split_at(end);
    let (kept, _) = front.split_at(front.len().min(MAX_LINE));
    let fault = line_fault(number, front);
    let bytes = Sequence::from_vec(Vec::from_slice(alloc, kept)?);
    Ok(Line {
        number,
        bytes,
        fault,
    })
}

fn line_fault(number: u32, bytes: &[u8]) -> Option<Fault>
    requires { length bytes.now ≤ 134217728 }
    ensures { result ≡ line_fault number bytes.now }
{
    match first_bad(bytes) {
        Some(index) if index <= MAX_LINE => Some(Fault {
            number: BAD_BYTE,
            place: Place {
                line: number,
                column: index as u32 + 1,
            },
        }),
        _ if bytes.len() > MAX_LINE => Some(Fault {
            number: LINE_TOO_LONG,
            place: Place {
                line: number,
                column: MAX_LINE as u32 + 1,
            },
        }),
        _ => None,
    }
}

fn is_bad(byte: u8) -> bool
    ensures { result ≡ not (is_printable byte) }
{
    !(b' '..=b'~').contains(&byte)
}

/// Whether one of two facts holds, found without a branch.
fn either(a: bool, b: bool) -> bool
    ensures { result ≡ (a || b) }
{
    a | b
}

#[tactic(auto, using(crate::proofs::Bad::bad_bytes))]
/// Whether some byte is not from 32 to 126. It does not stop at the first, so that many bytes are looked at at once.
fn has_bad(bytes: &[u8]) -> bool
    ensures { result ≡ list_any (λ byte. not (is_printable byte)) bytes.now }
{
    let mut bad = false;
    for byte in bytes {
        bad = either(bad, is_bad(*byte));
    }
    bad
}

#[tactic(auto, using(crate::proofs::Bad::bad_bytes))]
/// Where the first byte stands that is not from 32 to 126. Few lines have one.
fn first_bad(bytes: &[u8]) -> Option<usize>
    ensures { result ≡ position (λ byte. not (is_printable byte)) bytes.now }
{
    if !has_bad(bytes) {
        return None;
    }
    bytes.iter().position(|byte| is_bad(*byte))
}
