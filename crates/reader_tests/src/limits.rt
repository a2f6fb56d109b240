//! Texts at the bounds of the bytes of an edit line and of the nodes of a document, and one beyond.
//! That a document's line, its levels and all of its bytes are too many stands in `session_tests`.

use crate::texts::{HEAD, HEAD_2, READS, Told, document_told, edit_told};
use lunit::NoMemory;
use std::alloc::Global;
use std::process::Abort;
use std::test::Fail;

/// `remove a` and as many bytes of a comment.
fn commented(alloc: Global, count: u32) -> Result<Vec<u8>, NoMemory> {
    let mut text = Vec::from_slice(alloc, b"remove a")?;
    for _ in 0..count {
        text.push(b'#')?;
    }
    Ok(text)
}

/// `remove a` has 8 bytes.
#[test]
fn an_edit_line_has_65536_bytes(rt: HostRuntime) -> Result<(), Fail> {
    for (count, want) in [(65_528, READS), (65_529, (2, 1, 65_537))] {
        let text = commented(rt.alloc(), count)?;
        assert_eq!(rt; edit_told(rt.alloc(), 1, text)?, want);
    }
    Ok(())
}

/// Adds the six last digits of a number.
fn put_digits(text: &mut Vec<u8>, number: u32) -> Result<(), NoMemory> {
    for unit in [100_000, 10_000, 1_000, 100, 10, 1] {
        text.push(b'0' + (number / unit % 10) as u8)?;
    }
    Ok(())
}

/// Adds the leaves of these numbers, on the third level, named by six digits.
fn put_leaves(text: &mut Vec<u8>, from: u32, to: u32) -> Result<(), NoMemory> {
    for number in from..to {
        text.extend_from_slice(b"    n")?;
        put_digits(text, number)?;
        text.extend_from_slice(b" leaf 1 1\n")?;
    }
    Ok(())
}

/// Adds a root with two containers of so many leaves.
fn put_many(text: &mut Vec<u8>, first: u32, second: u32) -> Result<(), NoMemory> {
    text.extend_from_slice(b"main grid\n  a grid\n")?;
    put_leaves(text, 0, first)?;
    text.extend_from_slice(b"  b grid\n")?;
    put_leaves(text, first, first.saturating_add(second))?;
    Ok(())
}

fn must_be(rt: &impl Abort, alloc: Global, row: &Many) -> Result<(), Fail> {
    let mut text = Vec::from_slice(alloc, row.head)?;
    put_many(&mut text, row.first, row.second)?;
    let found = document_told(alloc, text)?;
    assert!(rt; found == row.want, "{}", row.shows);
    Ok(())
}

/// A document whose two containers have so many leaves, and what is told of it.
struct Many {
    shows: &'static str,
    head: &'static [u8],
    first: u32,
    second: u32,
    want: Told,
}

/// A document of f and s leaves has f + s + 3 nodes and f + s + 5 lines; the second container
/// stands on line f + 5.
#[test]
fn there_are_so_many_nodes(rt: HostRuntime) -> Result<(), Fail> {
    static ROWS: &[Many] = &[
        Many {
            shows: "32,768 nodes in version 1, and one more",
            head: HEAD,
            first: 20_000,
            second: 12_766,
            want: (13, 32_771, 5),
        },
        Many {
            shows: "131,072 nodes in version 2, 65,536 of them children of one node",
            head: HEAD_2,
            first: 65_536,
            second: 65_533,
            want: READS,
        },
        Many {
            shows: "one node more",
            head: HEAD_2,
            first: 65_536,
            second: 65_534,
            want: (13, 131_075, 5),
        },
        Many {
            shows: "one child more",
            head: HEAD_2,
            first: 65_537,
            second: 0,
            want: (13, 65_541, 5),
        },
    ];
    for row in ROWS {
        must_be(&rt, rt.alloc(), row)?;
    }
    Ok(())
}
