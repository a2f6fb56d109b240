//! The answers that a node keeps.

use layout_cache::{Ask, Counts, Given, Kept, Query};
use lunit::Lu;
use std::alloc::Global;
use std::test::Fail;

/// The question for the block size at a width.
fn question(alloc: Global, width: i64) -> Result<Query, Fail> {
    Ok(Query {
        ask: Ask::Block,
        reps: Counts::from_slice(alloc, &[(2, 1)])?,
        inline: Given::Size(Lu::of(width)),
        block: Given::None,
    })
}

/// Keeps an answer to a question that has none.
fn keep(kept: &mut Kept<i64>, query: Query, answer: i64) -> Result<(), Fail> {
    let absent = kept.find(&query).is_none();
    if absent {
        kept.put(query, answer)?;
    }
    Ok(())
}

/// The kept answer to a question.
fn answer(kept: &Kept<i64>, alloc: Global, width: i64) -> Result<Option<i64>, Fail> {
    let query = question(alloc, width)?;
    Ok(kept.find(&query).copied())
}

/// How many answers are put, and the first of them that is kept.
struct Row {
    shows: &'static str,
    put: i64,
    first: i64,
}

#[test]
fn the_last_sixteen_are_kept(rt: HostRuntime) -> Result<(), Fail> {
    static ROWS: &[Row] = &[
        Row {
            shows: "two",
            put: 2,
            first: 0,
        },
        Row {
            shows: "three",
            put: 3,
            first: 0,
        },
        Row {
            shows: "five",
            put: 5,
            first: 0,
        },
        Row {
            shows: "nine",
            put: 9,
            first: 0,
        },
        Row {
            shows: "sixteen",
            put: 16,
            first: 0,
        },
        Row {
            shows: "the first of seventeen goes",
            put: 17,
            first: 1,
        },
    ];
    let mut kept = Kept::new(rt.alloc())?;
    for row in ROWS {
        kept.clear();
        for width in 0..row.put {
            keep(&mut kept, question(rt.alloc(), width)?, width)?;
        }
        for width in 0..row.put {
            let due = if width < row.first { None } else { Some(width) };
            assert_eq!(rt; answer(&kept, rt.alloc(), width)?, due, "{}", row.shows);
        }
    }
    Ok(())
}
