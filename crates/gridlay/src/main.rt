//! The program: hands its words, standard input and standard output to `session::run`, and ends with its status.
#![tactic(auto)]

ghost use Rattle.std.specs.Prelude.{◌≡◌, ◌<◌, false, IfErr, IfOk};
ghost use Rattle.std.specs.Process.{exit_status};
ghost use Rattle.session.specs.Words.{asked, code_of, is_served, IsUnserved};

mod words;

use crate::words::words_of;
use lunit::Steps;
use outside::{StdSink, StdSource, WordRuler};
use session::{Status, run};
use std::alloc::{AllocError, Global};
use std::io;
use std::marker::Brand;
use std::process::ExitCode;
use std::rt::Env;
use std::sync::ledger::{Blank, Ledger};

/// How a run with these words ends, over standard input and output; or why there are no words.
fn status<R: Input + Print + Env + AllocGlobal, L: Ledger>(
    rt: &R,
    words: Result<Vec<String>, Status>,
    blank: Blank,
) -> Status
    requires name { blank.name ≡ L.name }
    requires parts { blank.parts ≡ L.parts }
    requires some { 0 < blank.parts }
    ensures refused { IfErr words (λ why. result ≡ why) }
    ensures words { IfOk words
        (λ given. result ≡ Status.BadWords → is_served (asked given.items) ≡ false) }
    ensures unserved { IfOk words
        (λ given. is_served (asked given.items) ≡ false → IsUnserved result) }
{
    let words = match words {
        Ok(words) => words,
        Err(why) => return why,
    };
    let mut passes: Steps<L> = Steps::new(blank);
    let mut source = StdSource::new(rt.reader());
    let mut sink = StdSink::new(io::writer(rt));
    let mut ruler = WordRuler::new();
    run(
        rt.alloc(),
        words,
        &mut source,
        &mut sink,
        &mut ruler,
        &mut passes,
    )
}

/// Bytes of one block, just below the greatest that counts for `keep_blocks` (32 MiB).
const BLOCK: usize = 31 << 20;

/// Takes one great block of memory and gives it back at once. From then on the allocator of the system (glibc's) keeps what is
/// given back for the next request. Otherwise it hands each list of some ten thousand tracks to the kernel and takes it anew, page
/// by page: up to half of the time of a document of many such grids. With another allocator, or no such block, nothing changes.
fn keep_blocks(alloc: Global) {
    let _: Result<Vec<u8>, AllocError> = Vec::with_capacity(alloc, BLOCK);
}

/// The number of a status, as the system takes it.
fn code_for(status: Status) -> ExitCode
    ensures { exit_status result ≡ code_of status }
{
    ExitCode::from(status.code())
}

fn main(rt: HostRuntime) -> ExitCode {
    keep_blocks(rt.alloc());
    let words = words_of(&rt, rt.alloc());
    code_for(status::<HostRuntime, Brand>(&rt, words, Blank::new(1)))
}
