use crate::case::{Case, Due, read_case};
use crate::counts::{with_counts, without_counts};
use crate::difference::difference_of;
use crate::names::names_of;
use crate::running::{Ran, Way, run_on};
use crate::told::tell;
use lunit::Steps;
use std::io;
use std::rt::Files;
use std::sync::ledger::Ledger;

/// An input of at most this many bytes is run on in small pieces too.
const SHORT: usize = 4096;

/// Those pieces, in bytes.
const PIECES: [usize; 2] = [1, 7];

/// How many cases agreed, how many did not, and how many runs these were.
#[derive(Drop)]
pub struct Tally {
    pub agree: u64,
    pub differ: u64,
    pub runs: u64,
}

impl Tally {
    fn new() -> Tally {
        Tally {
            agree: 0,
            differ: 0,
            runs: 0,
        }
    }

    pub fn cases(&self) -> u64 {
        self.agree.saturating_add(self.differ)
    }

    fn add_case(&mut self, agrees: bool) {
        if agrees {
            self.agree = self.agree.saturating_add(1);
        } else {
            self.differ = self.differ.saturating_add(1);
        }
    }

    fn add_run(&mut self) {
        self.runs = self.runs.saturating_add(1);
    }
}

/// Whether a run is as it is due. Where it is not, what differs is printed.
fn judge(rt: &impl Print, name: &str, way: &Way<'_>, ran: &Ran, due: &Due) -> io::Result<bool> {
    match difference_of(ran, due) {
        Some(found) => {
            tell(rt, name, way, &found)?;
            Ok(false)
        }
        None => Ok(true),
    }
}

/// Whether the case agrees under its own words, in these pieces.
fn agrees<L: Ledger>(
    rt: &(impl Print + AllocGlobal),
    name: &str,
    case: &Case,
    piece: Option<usize>,
    passes: &mut Steps<L>,
) -> io::Result<bool> {
    let words = case.words.as_str();
    let way = Way { words, piece };
    let ran = run_on(rt.alloc(), &way, &case.input, passes)?;
    judge(rt, name, &way, &ran, &case.due)
}

/// Whether the case of the word `layout` agrees with counts too: a line of them, whatever they are, follows each layout.
fn agrees_with_counts<L: Ledger>(
    rt: &(impl Print + AllocGlobal),
    name: &str,
    case: &Case,
    passes: &mut Steps<L>,
) -> io::Result<bool> {
    let way = Way {
        words: "layout --stats",
        piece: None,
    };
    let ran = run_on(rt.alloc(), &way, &case.input, passes)?;
    let cut = Ran {
        status: ran.status,
        written: without_counts(rt.alloc(), &ran.written)?,
    };
    let due = Due {
        status: case.due.status,
        output: with_counts(rt.alloc(), &case.due.output)?,
    };
    judge(rt, name, &way, &cut, &due)
}

/// Whether the document of the case, and what its edits make of it, is written as it is due.
fn agrees_on_write<L: Ledger>(
    rt: &(impl Print + AllocGlobal),
    name: &str,
    case: &Case,
    due: &Due,
    passes: &mut Steps<L>,
) -> io::Result<bool> {
    let way = Way {
        words: "write",
        piece: None,
    };
    let ran = run_on(rt.alloc(), &way, &case.input, passes)?;
    judge(rt, name, &way, &ran, due)
}

/// Makes the runs of a case, up to the first that is not as it is due, and tells whether there is none. The one under `write` is
/// left out where it waits.
fn check_case<L: Ledger>(
    rt: &(impl Print + AllocGlobal),
    name: &str,
    case: &Case,
    write_waits: bool,
    tally: &mut Tally,
    passes: &mut Steps<L>,
) -> io::Result<bool> {
    tally.add_run();
    if !agrees(rt, name, case, None, passes)? {
        return Ok(false);
    }
    if case.input.len() <= SHORT {
        for piece in PIECES {
            tally.add_run();
            if !agrees(rt, name, case, Some(piece), passes)? {
                return Ok(false);
            }
        }
    }
    if case.words.as_str() == "layout" {
        tally.add_run();
        if !agrees_with_counts(rt, name, case, passes)? {
            return Ok(false);
        }
    }
    match &case.due_of_write {
        Some(due) => {
            if write_waits {
                return Ok(true);
            }
            tally.add_run();
            agrees_on_write(rt, name, case, due, passes)
        }
        None => Ok(true),
    }
}

/// The case of this name in the folder: the path of its files without their endings. Where they cannot be read that is printed.
fn case_of(
    rt: &(impl Files + Print + AllocGlobal),
    folder: &str,
    name: &str,
) -> io::Result<Option<Case>> {
    let path = format!(in rt.alloc(); "{folder}/{name}")?;
    match read_case(rt, path.as_str()) {
        Ok(case) => Ok(Some(case)),
        Err(error) => {
            println!(rt; "{name} cannot be read: {error}")?;
            Ok(None)
        }
    }
}

/// Whether the list of those that wait names the run of a case under `write`: `NAME.write`.
fn has_write(later: &[&str], name: &str) -> bool {
    later
        .iter()
        .any(|waiting| waiting.strip_suffix(".write") == Some(name))
}

/// Checks each case that the list names, but for its run under `write` where that one waits.
pub fn check_all<L: Ledger>(
    rt: &(impl Files + Print + AllocGlobal),
    folder: &str,
    list: &str,
    later: &str,
    passes: &mut Steps<L>,
) -> io::Result<Tally> {
    let later = names_of(rt.alloc(), later)?;
    let mut tally = Tally::new();
    for name in names_of(rt.alloc(), list)? {
        let write_waits = has_write(&later, name);
        let all = match case_of(rt, folder, name)? {
            Some(case) => check_case(rt, name, &case, write_waits, &mut tally, passes)?,
            None => false,
        };
        tally.add_case(all);
    }
    Ok(tally)
}

/// How many cases, or runs of cases under `write`, the list names; `None` where one of the cases cannot be read.
pub fn count_readable(
    rt: &(impl Files + Print + AllocGlobal),
    folder: &str,
    list: &str,
) -> io::Result<Option<usize>> {
    let names = names_of(rt.alloc(), list)?;
    for name in &names {
        let case = name.strip_suffix(".write").unwrap_or(*name);
        if case_of(rt, folder, case)?.is_none() {
            return Ok(None);
        }
    }
    Ok(Some(names.len()))
}
