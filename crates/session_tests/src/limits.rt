//! Runs at each limit of an input, and just past it.

use crate::running::{BYTEWISE, Devices, WHOLE, check_run, run_text};
use itoa::Buffer;
use lunit::NoMemory;
use session::Status;
use std::alloc::Global;
use std::process::Abort;
use std::test::Fail;

const GRID: &[u8] = b"gridlay 1
viewport 300 200
main grid
";

const BOXES: &[u8] = b"layout 0
main 0 0 300 0
";

const WITH_SCRIPT: &[u8] = b"gridlay 1
viewport 300 200
main grid
---
";

const FAULTY: &[u8] = b"gridlay 1
viewport 300 200
main grid { width: 1xx }
";

const FAULTY_WITH_SCRIPT: &[u8] = b"gridlay 1
viewport 300 200
main grid { width: 1xx }
---
";

const REFUSAL: &[u8] = b"refused 0 3:20 bad-value
";

const FIRST_VERSION: &[u8] = GRID;

const SECOND_VERSION: &[u8] = b"gridlay 2
viewport 300 200
main grid
";

/// The most bytes of an input.
const MOST: usize = 1 << 26;

/// A text with comments after it, up to so many bytes.
fn filled(alloc: Global, text: &[u8], length: usize) -> Result<Vec<u8>, NoMemory> {
    let mut comment = Vec::from_slice(alloc, &[b'#'; 1023])?;
    comment.push(b'\n')?;
    let mut filled = Vec::from_slice(alloc, text)?;
    let count = length.saturating_sub(text.len());
    for _ in 0..count / 1024 {
        filled.extend_from_slice(&comment)?;
    }
    filled.extend_from_slice(&comment[..count % 1024])?;
    Ok(filled)
}

/// A text that is filled up to so many bytes, and how its run ends.
type Filled = (&'static [u8], usize, Status, &'static [u8]);

fn check_filled(rt: &impl Abort, alloc: Global, row: &Filled) -> Result<(), NoMemory> {
    let (text, length, status, written) = *row;
    let input = filled(alloc, text, length)?;
    check_run(rt, alloc, &input, WHOLE, status, written)
}

#[test]
fn takes_so_many_bytes_and_no_more(rt: HostRuntime) -> Result<(), Fail> {
    static ROWS: &[Filled] = &[
        (GRID, MOST, Status::Done, BOXES),
        (GRID, MOST + 1, Status::InputLimit, b""),
        (WITH_SCRIPT, MOST, Status::Done, BOXES),
        (WITH_SCRIPT, MOST + 1, Status::InputLimit, BOXES),
        (FAULTY, MOST + 1, Status::InputLimit, b""),
        (FAULTY_WITH_SCRIPT, MOST + 1, Status::BadDocument, REFUSAL),
    ];
    for row in ROWS {
        check_filled(&rt, rt.alloc(), row)?;
    }
    Ok(())
}

/// The first two lines, a comment of so many bytes, and a grid.
fn commented(alloc: Global, length: usize) -> Result<Vec<u8>, NoMemory> {
    let mut text = Vec::from_slice(alloc, b"gridlay 1\nviewport 300 200\n")?;
    for _ in 0..length {
        text.push(b'#')?;
    }
    text.extend_from_slice(b"\nmain grid\n")?;
    Ok(text)
}

/// How long a comment is, and how its run ends.
type Commented = (usize, Status, &'static [u8]);

fn check_commented(
    rt: &impl Abort,
    alloc: Global,
    row: &Commented,
    devices: Devices,
) -> Result<(), NoMemory> {
    let (length, status, written) = *row;
    let input = commented(alloc, length)?;
    check_run(rt, alloc, &input, devices, status, written)
}

#[test]
fn takes_lines_of_so_many_bytes(rt: HostRuntime) -> Result<(), Fail> {
    static ROWS: &[Commented] = &[
        (65_536, Status::Done, BOXES),
        (
            65_537,
            Status::BadDocument,
            b"refused 0 3:65537 line-too-long\n",
        ),
    ];
    for row in ROWS {
        check_commented(&rt, rt.alloc(), row, WHOLE)?;
        check_commented(&rt, rt.alloc(), row, BYTEWISE)?;
    }
    Ok(())
}

/// Adds spaces and a name with this number.
fn add_name(text: &mut Vec<u8>, spaces: usize, number: u32) -> Result<(), NoMemory> {
    for _ in 0..spaces {
        text.push(b' ')?;
    }
    text.push(b'n')?;
    text.extend_from_slice(Buffer::new().format(number).as_bytes())?;
    Ok(())
}

/// A document of so many levels.
fn levels(alloc: Global, count: u8) -> Result<Vec<u8>, NoMemory> {
    let mut text = Vec::from_slice(alloc, b"gridlay 1\nviewport 300 200\n")?;
    for level in 0..count {
        add_name(&mut text, level as usize * 2, level as u32)?;
        text.extend_from_slice(b" grid\n")?;
    }
    Ok(text)
}

/// The first lines of a document, and as many leaves as make so many nodes with the root.
fn leaves(alloc: Global, head: &[u8], count: u32) -> Result<Vec<u8>, NoMemory> {
    let mut text = Vec::from_slice(alloc, head)?;
    for number in 1..count {
        add_name(&mut text, 2, number)?;
        text.extend_from_slice(b" leaf 1 1\n")?;
    }
    Ok(text)
}

/// A document is laid out where no refusal is due, and its layout has a line for each node.
fn check_document(
    rt: &impl Abort,
    alloc: Global,
    input: &[u8],
    nodes: usize,
    refusal: &[u8],
) -> Result<(), NoMemory> {
    if !refusal.is_empty() {
        return check_run(rt, alloc, input, WHOLE, Status::BadDocument, refusal);
    }
    let ran = run_text(alloc, &["layout"], input, WHOLE)?;
    let lines = ran
        .written
        .as_slice()
        .iter()
        .filter(|byte| **byte == b'\n')
        .count();
    assert!(rt;
        ran.status == Status::Done && lines == nodes.saturating_add(1),
        "{nodes} nodes"
    );
    Ok(())
}

/// How many levels a document has, and the refusal that is due.
type Levels = (u8, &'static [u8]);

fn check_levels(rt: &impl Abort, alloc: Global, row: &Levels) -> Result<(), NoMemory> {
    let (count, refusal) = *row;
    let input = levels(alloc, count)?;
    check_document(rt, alloc, &input, count as usize, refusal)
}

#[test]
fn takes_so_many_levels(rt: HostRuntime) -> Result<(), Fail> {
    static ROWS: &[Levels] = &[(64, b""), (65, b"refused 0 67:129 too-deep\n")];
    for row in ROWS {
        check_levels(&rt, rt.alloc(), row)?;
    }
    Ok(())
}

/// The first lines of a document of leaves, how many nodes it has, and the refusal that is due.
type Leaves = (&'static [u8], u32, &'static [u8]);

fn check_leaves(rt: &impl Abort, alloc: Global, row: &Leaves) -> Result<(), NoMemory> {
    let (head, count, refusal) = *row;
    let input = leaves(alloc, head, count)?;
    check_document(rt, alloc, &input, count as usize, refusal)
}

#[test]
fn takes_so_many_nodes_of_each_version(rt: HostRuntime) -> Result<(), Fail> {
    static ROWS: &[Leaves] = &[
        (FIRST_VERSION, 32_768, b""),
        (FIRST_VERSION, 32_769, b"refused 0 32771:3 too-many-nodes\n"),
        (SECOND_VERSION, 32_769, b""),
        (
            SECOND_VERSION,
            65_538,
            b"refused 0 65540:3 too-many-nodes\n",
        ),
    ];
    for row in ROWS {
        check_leaves(&rt, rt.alloc(), row)?;
    }
    Ok(())
}
