//! What is asked again after an edit of a grid with a subgrid in a subgrid: what the edit reaches,
//! and no more.

use crate::counts::are_told;
use crate::logs::{are_of, measured_in};
use crate::running::{WHOLE, has_lines, run_logged};
use lunit::NoMemory;
use outside::{Event, LogRuler};
use std::alloc::Global;
use std::process::Abort;
use std::test::Fail;

const DOCUMENT: &[u8] = b"gridlay 1
viewport 300 100
main grid { grid-template-columns: [a] 50px [b] 50px [a] 50px [b] 50px }
  b leaf 10 10
  s grid { grid-column: span 2; grid-template-columns: subgrid }
    t grid { grid-column: 1 / -1; grid-template-columns: subgrid }
      p leaf 5 5 { grid-column: b }
---
";

/// An edit, the boxes that follow, the leaf that is measured again, if one is, and the least and
/// the greatest number of answers that are kept anew. A grid is asked for its height and its
/// frames, and at most for its widths or the items that it lends; a leaf for its height, and at
/// most for its widths.
struct Row {
    edit: &'static [u8],
    boxes: &'static [u8],
    again: &'static [u8],
    least: u64,
    most: u64,
}

static ROWS: &[Row] = &[
    // all but p: the names of the lines that t sees are others
    Row {
        edit: b"set b grid-column: 1 / 3\n",
        boxes: b"layout 1
main 0 0 300 10
b 0 0 100 10
s 100 0 100 10
t 100 0 100 10
p 150 0 50 10
",
        again: b"b",
        least: 7,
        most: 11,
    },
    // the root and b
    Row {
        edit: b"set b width: 5px\n",
        boxes: b"layout 1
main 0 0 300 10
b 0 0 5 10
s 50 0 100 10
t 50 0 100 10
p 50 0 50 10
",
        again: b"b",
        least: 3,
        most: 5,
    },
    // all but b
    Row {
        edit: b"set p grid-row: 1\n",
        boxes: b"layout 1
main 0 0 300 10
b 0 0 50 10
s 50 0 100 10
t 50 0 100 10
p 50 0 50 10
",
        again: b"p",
        least: 7,
        most: 11,
    },
    // the three grids
    Row {
        edit: b"set t row-gap: 2px\n",
        boxes: b"layout 1
main 0 0 300 10
b 0 0 50 10
s 50 0 100 10
t 50 0 100 10
p 50 0 50 10
",
        again: b"",
        least: 6,
        most: 9,
    },
    // none; the root is given another width
    Row {
        edit: b"viewport 10 10\n",
        boxes: b"layout 1
main 0 0 10 10
b 0 0 50 10
s 50 0 100 10
t 50 0 100 10
p 50 0 50 10
",
        again: b"",
        least: 1,
        most: 2,
    },
];

/// Whether the second layout wrote these boxes, and asked again what the edit reaches.
fn agrees(row: &Row, written: &[u8], events: &[Event]) -> bool {
    has_lines(written, row.boxes)
        && are_of(measured_in(events, 1), row.again)
        && are_told(written, events, 1, row.least, row.most)
}

fn check_row(rt: &impl Abort, alloc: Global, row: &Row) -> Result<(), NoMemory> {
    let mut input = Vec::from_slice(alloc, DOCUMENT)?;
    input.extend_from_slice(row.edit)?;
    let mut ruler = LogRuler::new(alloc);
    let ran = run_logged(alloc, &["layout", "--stats"], &input, WHOLE, &mut ruler)?;
    assert!(rt;
        agrees(row, ran.written.as_slice(), ruler.events()),
        "{:?}",
        row.edit
    );
    Ok(())
}

#[test]
fn an_edit_asks_again_what_it_reaches(rt: HostRuntime) -> Result<(), Fail> {
    for row in ROWS {
        check_row(&rt, rt.alloc(), row)?;
    }
    Ok(())
}
