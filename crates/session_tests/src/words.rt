//! Runs that read nothing: their source would fail.

use crate::logs::{are_of, measured_in};
use crate::running::{Devices, WHOLE, run_logged, run_text};
use lunit::NoMemory;
use outside::{Event, LogRuler};
use session::Status;
use std::alloc::Global;
use std::process::Abort;
use std::test::Fail;

/// The words of a run, and the status and the output that are due.
struct Words {
    words: &'static [&'static str],
    status: Status,
    output: &'static [u8],
}

static WORDS: &[Words] = &[
    // the words that read
    Words {
        words: &["layout"],
        status: Status::ReadFault,
        output: b"",
    },
    Words {
        words: &["write"],
        status: Status::ReadFault,
        output: b"",
    },
    // words that are refused
    Words {
        words: &[],
        status: Status::BadWords,
        output: b"",
    },
    Words {
        words: &[""],
        status: Status::BadWords,
        output: b"",
    },
    Words {
        words: &["lay"],
        status: Status::BadWords,
        output: b"",
    },
    Words {
        words: &["layout", "--"],
        status: Status::BadWords,
        output: b"",
    },
    Words {
        words: &["layout", "--help"],
        status: Status::BadWords,
        output: b"",
    },
    Words {
        words: &["layout", "layout"],
        status: Status::BadWords,
        output: b"",
    },
    Words {
        words: &["write", "--stats"],
        status: Status::BadWords,
        output: b"",
    },
    Words {
        words: &["make", "--seed", "1"],
        status: Status::BadWords,
        output: b"",
    },
    Words {
        words: &["make", "--seed", "1", "--nodes", "0"],
        status: Status::BadWords,
        output: b"",
    },
    Words {
        words: &["make", "--seed", "1", "--seed", "1", "--nodes", "1"],
        status: Status::BadWords,
        output: b"",
    },
    Words {
        words: &["make", "--nodes", "1", "--seed", "18446744073709551616"],
        status: Status::BadWords,
        output: b"",
    },
    Words {
        words: &["make", "--seed", "1", "--nodes", "20001"],
        status: Status::BadWords,
        output: b"",
    },
    Words {
        words: &["make", "--seed", "000000000000000000001", "--nodes", "1"],
        status: Status::BadWords,
        output: b"",
    },
    // generated documents: a root alone, and leaves in the first columns of a root with nine, of
    // 6,883 and 6,884 units
    Words {
        words: &["make", "--seed", "1", "--nodes", "1"],
        status: Status::Done,
        output: b"made 0 1 320000
made 1 1 320000
made 2 1 320000
made 3 1 320000
made 4 1 320000
made 5 1 320000
made 6 1 320000
made 7 1 320000
made 8 1 320000
",
    },
    Words {
        words: &["make", "--seed", "1", "--nodes", "2"],
        status: Status::Done,
        output: b"made 0 2 360687
made 1 2 360687
made 2 2 375023
made 3 2 357999
made 4 2 357999
made 5 2 357999
made 6 2 357999
made 7 2 368751
made 8 2 378607
",
    },
    Words {
        words: &["make", "--nodes=3", "--seed=7"],
        status: Status::Done,
        output: b"made 0 3 428230
made 1 3 428230
made 2 3 417478
made 3 3 409414
made 4 3 409414
made 5 3 409414
made 6 3 409414
made 7 3 409414
made 8 3 426886
",
    },
    Words {
        words: &[
            "make",
            "--seed=18446744073709551615",
            "--nodes",
            "00000000000000000003",
        ],
        status: Status::Done,
        output: b"made 0 3 420166
made 1 3 420166
made 2 3 428230
made 3 3 434950
made 4 3 428230
made 5 3 413446
made 6 3 412102
made 7 3 433606
made 8 3 433606
",
    },
];

fn check_run(rt: &impl Abort, alloc: Global, row: &Words, bytewise: bool) -> Result<(), NoMemory> {
    let devices = Devices {
        bytewise,
        failing_read: 1,
        failing_write: 0,
    };
    let ran = run_text(alloc, row.words, b"", devices)?;
    assert!(rt; ran.ended(row.status, row.output), "{:?}", row.words);
    Ok(())
}

#[test]
fn words_that_do_not_read_leave_the_source(rt: HostRuntime) -> Result<(), Fail> {
    for row in WORDS {
        check_run(&rt, rt.alloc(), row, false)?;
        check_run(&rt, rt.alloc(), row, true)?;
    }
    Ok(())
}

/// The edits of the leaf are the second and the third, and the last two; the others are of the
/// root.
fn check_events(rt: &impl Abort, events: &[Event]) {
    static MEASURED: &[(u32, &[u8])] = &[
        (0, b"n1"),
        (1, b""),
        (2, b"n1"),
        (3, b"n1"),
        (4, b""),
        (5, b""),
        (6, b""),
        (7, b"n1"),
        (8, b"n1"),
    ];
    for (k, leaf) in MEASURED {
        let measured = measured_in(events, *k);
        assert!(rt;
            events.contains(&Event::Begin(*k)) && are_of(measured, leaf),
            "layout {k}"
        );
    }
}

#[test]
fn a_generated_edit_measures_its_leaf_again(rt: HostRuntime) -> Result<(), Fail> {
    let mut ruler = LogRuler::new(rt.alloc());
    let words = ["make", "--seed", "1", "--nodes", "2"];
    run_logged(rt.alloc(), &words, b"", WHOLE, &mut ruler)?;
    check_events(&rt, ruler.events());
    Ok(())
}
