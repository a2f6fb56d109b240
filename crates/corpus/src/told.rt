use crate::difference::Difference;
use crate::running::Way;
use std::{io, str};

/// The line as a text.
fn shown(line: &[u8]) -> &str {
    str::from_utf8(line).unwrap_or("no text")
}

/// The line as a text, and what stands for it after the last one.
fn shown_or_end(line: Option<&[u8]>) -> &str {
    match line {
        Some(line) => shown(line),
        None => "the end",
    }
}

/// Prints which run of the case it was, and what of it is not as it is due.
pub fn tell(rt: &impl Print, case: &str, way: &Way<'_>, found: &Difference<'_>) -> io::Result<()> {
    let words = way.words;
    match way.piece {
        Some(piece) => print!(rt; "{case}, {words}, in pieces of {piece}: ")?,
        None => print!(rt; "{case}, {words}: ")?,
    }
    match found {
        Difference::Line { number, is, due } => println!(rt;
            "line {} is `{}`, due is `{}`",
            *number,
            shown_or_end(*is),
            shown_or_end(*due)
        ),
        Difference::Missing { due } => println!(rt; "no further line is `{}`", shown(due)),
        Difference::Status { is, due } => println!(rt; "the status is {}, due is {}", *is, *due),
    }
}
