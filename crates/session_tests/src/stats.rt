//! Runs under `layout --stats`: the counts follow each layout, and no refusal.

use crate::running::{BYTEWISE, Devices, WHOLE, run_text};
use lunit::NoMemory;
use session::Status;
use std::alloc::Global;
use std::process::Abort;
use std::test::Fail;

/// A document of one container and perhaps a script, and what is due where its layout keeps two
/// answers, or three: both meet the rules.
struct Row {
    input: &'static [u8],
    status: Status,
    two: &'static [u8],
    three: &'static [u8],
}

fn check_counts(
    rt: &impl Abort,
    alloc: Global,
    row: &Row,
    devices: Devices,
) -> Result<(), NoMemory> {
    let ran = run_text(alloc, &["layout", "--stats"], row.input, devices)?;
    assert!(rt; ran.ended(row.status, row.two) || ran.ended(row.status, row.three));
    Ok(())
}

#[test]
fn counts_follow_each_layout_and_no_refusal(rt: HostRuntime) -> Result<(), Fail> {
    static ROWS: &[Row] = &[
        Row {
            input: b"gridlay 1\nviewport 300 200\nmain grid\n",
            status: Status::Done,
            two: b"layout 0\nmain 0 0 300 0\nstats 0 2\n",
            three: b"layout 0\nmain 0 0 300 0\nstats 0 3\n",
        },
        Row {
            input: b"gridlay 1\nviewport 300 200\nmain grid\n---\nset other width: 1px\n",
            status: Status::SomeRefused,
            two: b"layout 0\nmain 0 0 300 0\nstats 0 2\nrefused 1 5:5 unknown-name\n",
            three: b"layout 0\nmain 0 0 300 0\nstats 0 3\nrefused 1 5:5 unknown-name\n",
        },
    ];
    for row in ROWS {
        check_counts(&rt, rt.alloc(), row, WHOLE)?;
        check_counts(&rt, rt.alloc(), row, BYTEWISE)?;
    }
    Ok(())
}
