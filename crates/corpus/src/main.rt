//! Compares the top call with a corpus: inputs whose outputs and statuses are known. The first word is the folder of the
//! corpus, else it is the one where the program runs. Three lists there name cases: `list.txt` those that have to agree,
//! `wrong.txt` those into which a fault was put, each of which has to be told, and `later.txt`, where there is one, those of what
//! is not built yet, which are read and counted; there `NAME.write` names the run of a case under `write` alone. Each case that
//! does not agree is printed with the first of its lines that differs, and then how many agree. The status is 0 where all is as it
//! has to be, 1 where not, and 2 where a list cannot be read.
#![tactic(auto)]

ghost use Rattle.std.specs.Prelude.{◌≡◌, ◌<◌};

mod case;
mod check;
mod counts;
mod difference;
mod names;
mod running;
mod told;

use crate::check::{check_all, count_readable};
use lunit::Steps;
use std::marker::Brand;
use std::process::ExitCode;
use std::rt::{Env, Files};
use std::sync::ledger::{Blank, Ledger};
use std::{env, fs, io};

/// The folder of the corpus.
fn folder_of(rt: &(impl Env + AllocGlobal)) -> io::Result<String> {
    match env::args(rt)?.nth(1) {
        Some(folder) => Ok(folder),
        None => Ok(String::from_str(rt.alloc(), ".")?),
    }
}

/// The text of a list.
fn list_of(rt: &(impl Files + AllocGlobal), folder: &str, list: &str) -> io::Result<String> {
    let path = format!(in rt.alloc(); "{folder}/{list}.txt")?;
    fs::read_to_string(rt, path.as_str())
}

/// The text of the list of those that wait; an empty one where there is no such list.
fn later_of(rt: &(impl Files + AllocGlobal), folder: &str) -> io::Result<String> {
    match list_of(rt, folder, "later") {
        Ok(list) => Ok(list),
        Err(error) if error.kind() == io::ErrorKind::NotFound => Ok(String::new(rt.alloc())),
        Err(error) => Err(error),
    }
}

/// Whether each case with a fault is told. None of them waits.
fn are_told<R: Files + Print + AllocGlobal, L: Ledger>(
    rt: &R,
    folder: &str,
    passes: &mut Steps<L>,
) -> io::Result<bool> {
    let list = list_of(rt, folder, "wrong")?;
    let tally = check_all(rt, folder, list.as_str(), "", passes)?;
    let (told, all) = (tally.differ, tally.cases());
    println!(rt; "{told} of {all} cases with a fault are told")?;
    Ok(tally.agree == 0)
}

/// Whether each case that has to agree does, and each that waits can be read.
fn are_well<R: Files + Print + AllocGlobal, L: Ledger>(
    rt: &R,
    folder: &str,
    passes: &mut Steps<L>,
) -> io::Result<bool> {
    let list = list_of(rt, folder, "list")?;
    let later = later_of(rt, folder)?;
    let tally = check_all(rt, folder, list.as_str(), later.as_str(), passes)?;
    let Some(waiting) = count_readable(rt, folder, later.as_str())? else {
        return Ok(false);
    };
    let (agree, all, runs) = (tally.agree, tally.cases(), tally.runs);
    println!(rt; "{agree} of {all} cases agree, in {runs} runs; {waiting} wait")?;
    Ok(tally.differ == 0)
}

fn is_well<R: Files + Env + Print + AllocGlobal, L: Ledger>(
    rt: &R,
    passes: &mut Steps<L>,
) -> io::Result<bool> {
    let folder = folder_of(rt)?;
    let told = are_told(rt, folder.as_str(), passes)?;
    let well = are_well(rt, folder.as_str(), passes)?;
    Ok(told && well)
}

fn status<R: Files + Env + Print + Eprint + AllocGlobal, L: Ledger>(rt: &R, blank: Blank) -> u8
    requires name { blank.name ≡ L.name }
    requires parts { blank.parts ≡ L.parts }
    requires some { 0 < blank.parts }
{
    let mut passes: Steps<L> = Steps::new(blank);
    match is_well(rt, &mut passes) {
        Ok(true) => 0,
        Ok(false) => 1,
        Err(error) => {
            let _ = eprintln!(rt; "corpus: {error}");
            2
        }
    }
}

fn main(rt: HostRuntime) -> ExitCode {
    ExitCode::from(status::<HostRuntime, Brand>(&rt, Blank::new(1)))
}
