use crate::case::{Due, Output};
use crate::running::Ran;

/// What is first found to be otherwise than it is due.
#[derive(Clone, Copy)]
pub enum Difference<'a> {
    /// The line of this number, counted from 1; `None` after the last one.
    Line {
        number: u64,
        is: Option<&'a [u8]>,
        due: Option<&'a [u8]>,
    },
    /// A line that is not among those after the ones due before it.
    Missing {
        due: &'a [u8],
    },
    /// The number that the run ended with.
    Status {
        is: u8,
        due: u8,
    },
}

/// The first line of what is left of a text, without its end, and what is left after it. There is neither after the last line.
fn cut(left: Option<&[u8]>) -> (Option<&[u8]>, Option<&[u8]>) {
    let Some(text) = left else {
        return (None, None);
    };
    match text.iter().position(|byte| *byte == b'\n') {
        Some(end) => (text.get(..end), text.get(end + 1..)),
        None => (Some(text), None),
    }
}

fn first_other_line<'a>(written: &'a [u8], due: &'a [u8]) -> Option<Difference<'a>> {
    let mut left_written = Some(written);
    let mut left_due = Some(due);
    for number in 1..u64::MAX {
        let (is, more_written) = cut(left_written);
        let (due, more_due) = cut(left_due);
        if is != due {
            return Some(Difference::Line { number, is, due });
        }
        if is.is_none() {
            return None;
        }
        left_written = more_written;
        left_due = more_due;
    }
    None
}

/// Whether a line comes in what is left of a text, and what is left after it.
fn find_line<'a>(text: Option<&'a [u8]>, wanted: &[u8]) -> (bool, Option<&'a [u8]>) {
    let mut left = text;
    for _ in 0..u64::MAX {
        let (line, more) = cut(left);
        match line {
            Some(line) => {
                if line == wanted {
                    return (true, more);
                }
            }
            None => return (false, None),
        }
        left = more;
    }
    (false, None)
}

fn first_missing_line<'a>(written: &'a [u8], due: &'a [u8]) -> Option<Difference<'a>> {
    let mut left = Some(written);
    for line in due.split(|byte| *byte == b'\n') {
        let (found, more) = find_line(left, line);
        if !found {
            return Some(Difference::Missing { due: line });
        }
        left = more;
    }
    None
}

fn difference_of_output<'a>(written: &'a [u8], due: &'a Output) -> Option<Difference<'a>> {
    match due {
        Output::Whole(bytes) => first_other_line(written, bytes),
        Output::Among(lines) => first_missing_line(written, lines),
    }
}

/// What of a run is not as it is due, `None` where all is.
pub fn difference_of<'a>(ran: &'a Ran, due: &'a Due) -> Option<Difference<'a>> {
    if let Some(found) = difference_of_output(&ran.written, &due.output) {
        return Some(found);
    }
    if ran.status != due.status {
        return Some(Difference::Status {
            is: ran.status,
            due: due.status,
        });
    }
    None
}
