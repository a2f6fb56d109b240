//! The line that an edit is told by.

ghost use Rattle.std.specs.Prelude.{◌≡◌, not, position, IfOk};
ghost use Rattle.text_scan.specs.Lines.{is_printable, line_fault};
ghost use Rattle.open_document.specs.Calls.{line_in};

use lunit::{NoMemory, Sequence};
use std::alloc::Global;
use text_scan::{BAD_BYTE, Fault, LINE_TOO_LONG, Line, MAX_LINE, Place};

/// The line of these bytes, with the number 1. Or `NoMemory`.
pub(crate) fn line_in(alloc: Global, bytes: &[u8]) -> Result<Line, NoMemory>
    ensures { IfOk result (λ line. line ≡ line_in bytes.now) }
{
    let (kept, _) = bytes.split_at(bytes.len().min(MAX_LINE));
    let fault = line_fault(bytes);
    let bytes = Sequence::from_vec(Vec::from_slice(alloc, kept)?);
    Ok(Line {
        number: 1,
        bytes,
        fault,
    })
}

/// The fault of the line of these bytes.
fn line_fault(bytes: &[u8]) -> Option<Fault>
    ensures { result ≡ line_fault 1 bytes.now }
{
    match first_bad(bytes) {
        Some(index) if index <= MAX_LINE => Some(Fault {
            number: BAD_BYTE,
            place: Place {
                line: 1,
                column: index as u32 + 1,
            },
        }),
        _ if bytes.len() > MAX_LINE => Some(Fault {
            number: LINE_TOO_LONG,
            place: Place {
                line: 1,
                column: MAX_LINE as u32 + 1,
            },
        }),
        _ => None,
    }
}

/// Where the first byte stands that is not from 32 to 126.
fn first_bad(bytes: &[u8]) -> Option<usize>
    ensures { result ≡ position (λ byte. not (is_printable byte)) bytes.now }
{
    bytes.iter().position(|byte| !(b' '..=b'~').contains(byte))
}
