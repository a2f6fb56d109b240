//! The document that a text is.

ghost use Rattle.std.specs.Prelude.{◌≤◌, length, IfOk};
ghost use Rattle.doc_text.specs.Valid.{IsValid};
ghost use Rattle.session.specs.Input.{limit};
ghost use Rattle.open_document.specs.Calls.{ReadsDocument};
ghost use Rattle.open_document.specs.Texts.{HoldsText};

use crate::errors::OpenError;
use doc_text::{Doc, ReadError, read_doc};
use lunit::NoMemory;
use session::Held;
use std::alloc::Global;
use text_scan::{Lines, Place};

/// The most bytes that a text has.
const LIMIT: usize = 1 << 26;

#[tactic(auto, using(crate::proofs::Reading::reading))]
/// What is held of the lines of a text, and how many they are.
fn lines_of(alloc: Global, text: &[u8]) -> Result<(Held, u32), NoMemory>
    requires { length text.now ≤ limit }
    ensures { IfOk result (λ read. HoldsText text.now read.0 read.1) }
{
    let mut lines = Lines::new(alloc);
    lines.feed(text)?;
    let mut held = Held::new(alloc);
    let mut count = 0;
    while let Some(line) = lines.take(true)? {
        count += 1;
        held.add(alloc, line)?;
    }
    Ok((held, count))
}

#[tactic(auto, using(crate::proofs::Reading::deciding))]
/// The document that a text is, or its first fault.
pub(crate) fn read(alloc: Global, text: &[u8]) -> Result<Doc, OpenError>
    ensures read { ReadsDocument text.now result }
    ensures valid { IfOk result IsValid }
{
    if text.len() > LIMIT {
        return Err(OpenError::TooLong);
    }
    let (held, count) = lines_of(alloc, text)?;
    let end = Place {
        line: count + 1,
        column: 1,
    };
    match read_doc(alloc, held.lines.as_slice(), end) {
        Ok(doc) => Ok(doc),
        Err(ReadError::Fault(fault)) => Err(OpenError::Refused(fault)),
        Err(ReadError::NoMemory) => Err(OpenError::NoMemory),
    }
}
