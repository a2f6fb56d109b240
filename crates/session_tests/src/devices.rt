//! Runs whose source or sink fails at each of its calls in turn.

use crate::running::{Devices, check_run, run_text};
use lunit::NoMemory;
use session::Status;
use std::alloc::Global;
use std::process::Abort;
use std::test::Fail;

/// An input, how many lines its document has, and what is written for the document and for each
/// line of the script.
struct Script {
    input: &'static [u8],
    document: usize,
    answers: &'static [&'static [u8]],
}

static SCRIPTS: &[Script] = &[
    // no script
    Script {
        input: b"gridlay 1
viewport 300 200
main grid { grid-template-columns: 100px 1fr; column-gap: 10px }
  a leaf 40 20
  b leaf 50 30
",
        document: 5,
        answers: &[
            b"layout 0
main 0 0 300 30
a 0 0 100 30
b 110 0 190 30
",
        ],
    },
    // an edit
    Script {
        input: b"gridlay 1
viewport 350 100
main flex
  g grid { flex-grow: 1; grid-template-columns: repeat(auto-fill, [a] 100px) [z] }
    s grid { grid-column: 1 / -1; grid-template-columns: subgrid }
      p leaf 10 10 { grid-column: -1 a }
---
viewport 240 100
",
        document: 6,
        answers: &[
            b"layout 0
main 0 0 350 10
g 0 0 350 10
s 0 0 300 10
p 200 0 100 10
",
            b"layout 1
main 0 0 240 10
g 0 0 240 10
s 0 0 200 10
p 100 0 100 10
",
        ],
    },
    // edits and a refusal
    Script {
        input: b"gridlay 1
viewport 300 200
main grid { grid-template-columns: 100px 50px; grid-template-rows: 20px 30px }
  a leaf 10 10 { grid-column: 1 / 3; grid-row: 1 / 2 }
  b leaf 10 10 { grid-column: 2 / 3; grid-row: 2 / 3 }
---
set b grid-column: 1 / 3
unset a grid-column-end
set z grid-row: 1
",
        document: 5,
        answers: &[
            b"layout 0
main 0 0 300 50
a 0 0 150 20
b 100 20 50 30
",
            b"layout 1
main 0 0 300 50
a 0 0 150 20
b 0 20 150 30
",
            b"layout 2
main 0 0 300 50
a 0 0 100 20
b 0 20 150 30
",
            b"refused 3 9:5 unknown-name
",
        ],
    },
];

fn joined(alloc: Global, answers: &[&[u8]]) -> Result<Vec<u8>, NoMemory> {
    let mut text = Vec::new(alloc);
    for answer in answers {
        text.extend_from_slice(answer)?;
    }
    Ok(text)
}

/// How many answers are due once so much of the input was read: the document is answered by the
/// line `---`, and each line of the script once it is whole.
fn answers_due(script: &Script, read: &[u8]) -> usize {
    let whole = read.iter().filter(|byte| **byte == b'\n').count();
    whole
        .saturating_sub(script.document)
        .min(script.answers.len())
}

/// The source fails after so many bytes, each of which was a call.
fn source_fails(after: usize) -> Devices {
    Devices {
        bytewise: true,
        failing_read: (after as u64).saturating_add(1),
        failing_write: 0,
    }
}

/// The sink fails after so many bytes, each of which was a call.
fn sink_fails(after: usize) -> Devices {
    Devices {
        bytewise: true,
        failing_read: 0,
        failing_write: (after as u64).saturating_add(1),
    }
}

/// Where the source fails after so many bytes, what was written for the whole lines stands.
fn fails_reading(
    rt: &impl Abort,
    alloc: Global,
    script: &Script,
    after: usize,
) -> Result<(), NoMemory> {
    let due = answers_due(script, script.input.get(..after).unwrap_or(b""));
    let written = joined(alloc, script.answers.get(..due).unwrap_or(&[]))?;
    check_run(
        rt,
        alloc,
        script.input,
        source_fails(after),
        Status::ReadFault,
        &written,
    )
}

/// The sink fails once this was written.
fn fails_writing(
    rt: &impl Abort,
    alloc: Global,
    script: &Script,
    written: &[u8],
) -> Result<(), NoMemory> {
    check_run(
        rt,
        alloc,
        script.input,
        sink_fails(written.len()),
        Status::WriteFault,
        written,
    )
}

#[test]
fn each_call_of_the_source_fails_in_turn(rt: HostRuntime) -> Result<(), Fail> {
    for script in SCRIPTS {
        for after in 0..=script.input.len() {
            fails_reading(&rt, rt.alloc(), script, after)?;
        }
    }
    Ok(())
}

#[test]
fn each_call_of_the_sink_fails_in_turn(rt: HostRuntime) -> Result<(), Fail> {
    for script in SCRIPTS {
        let all = joined(rt.alloc(), script.answers)?;
        for count in 0..all.len() {
            fails_writing(&rt, rt.alloc(), script, &all[..count])?;
        }
    }
    Ok(())
}

/// An input under `write`, and what is written for it.
static EDITED: &[u8] = b"gridlay 1
viewport 300 200
main flex
---
set main row-gap: 1px
hit 1 1
undo 2
";

static SAVED: &[u8] = b"gridlay 1
viewport 300 200
main flex { row-gap: 1px }
";

fn check_write(
    rt: &impl Abort,
    alloc: Global,
    devices: Devices,
    status: Status,
    written: &[u8],
) -> Result<(), NoMemory> {
    let ran = run_text(alloc, &["write"], EDITED, devices)?;
    assert!(rt; ran.ended(status, written), "{} bytes", written.len());
    Ok(())
}

/// Under `write` nothing is written before the input has ended.
#[test]
fn each_call_fails_in_turn_under_write(rt: HostRuntime) -> Result<(), Fail> {
    for after in 0..=EDITED.len() {
        check_write(&rt, rt.alloc(), source_fails(after), Status::ReadFault, b"")?;
    }
    for count in 0..SAVED.len() {
        check_write(
            &rt,
            rt.alloc(),
            sink_fails(count),
            Status::WriteFault,
            &SAVED[..count],
        )?;
    }
    Ok(())
}
