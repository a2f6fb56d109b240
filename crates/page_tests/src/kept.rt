//! What the nodes of a page keep after its first layout and an edit: answers, the context and the
//! areas of a grid, and what its children told.

ghost use Rattle.placing.specs.Kept.{IsRight};

use crate::edits::edited;
use crate::pages::node_named;
use Inline::{Nothing, Tracks, Width};
use layout_cache::{Ask, Counts, Given, Query, SharedTracks};
use lunit::{Lu, NoMemory, Sequence};
use page_tree::Page;
use placing::{find_base, node_at};
use std::alloc::Global;
use std::process::Abort;
use std::test::Fail;

/// What a node is given in the inline axis, in units: nothing, a width, or tracks without a gap.
enum Inline {
    Nothing,
    Width(i64),
    Tracks(&'static [(i64, i64)]),
}

/// A question that each layout asks of a node. The counts are those of the grids that the node
/// sees, the topmost first; the height that it is given is in units.
struct Asked {
    name: &'static [u8],
    ask: Ask,
    counts: &'static [(u32, u32)],
    inline: Inline,
    height: Option<i64>,
}

fn given(alloc: Global, inline: &Inline) -> Result<Given, NoMemory> {
    match inline {
        Nothing => Ok(Given::None),
        Width(width) => Ok(Given::Size(Lu::of(*width))),
        Tracks(edges) => {
            let edges = Sequence::from_slice(alloc, edges)?;
            let edges = SharedTracks::new(alloc, edges)?;
            Ok(Given::Tracks(edges, Lu::of(0)))
        }
    }
}

fn query(alloc: Global, asked: &Asked) -> Result<Query, NoMemory> {
    let inline = given(alloc, &asked.inline)?;
    let reps = Counts::from_slice(alloc, asked.counts)?;
    Ok(Query {
        ask: asked.ask,
        reps,
        inline,
        block: match asked.height {
            Some(height) => Given::Size(Lu::of(height)),
            None => Given::None,
        },
    })
}

/// Whether the node keeps an answer to the question.
fn keeps(alloc: Global, page: &Page, asked: &Asked) -> Result<bool, Fail> {
    let query = query(alloc, asked)?;
    let id = node_named(page, asked.name)?;
    Ok(node_at(page.tree(), id).kept.find(&query).is_some())
}

/// An edit, and the nodes whose answers go.
#[derive(Drop)]
struct Row {
    edit: &'static [u8],
    reached: &'static [&'static [u8]],
}

/// After the edit these nodes keep no answer to what was asked, and the others do.
fn check_row(
    rt: &impl Abort,
    alloc: Global,
    lines: &[&[u8]],
    all: &[Asked],
    row: &Row,
) -> Result<(), Fail> {
    let page = edited(alloc, lines, row.edit)?;
    for asked in all {
        let is_reached = row.reached.iter().any(|name| *name == asked.name);
        assert!(rt;
            keeps(alloc, &page, asked)? != is_reached,
            "{:?}",
            asked.name
        );
    }
    Ok(())
}

/// A grid, a leaf, and a grid that takes over two columns of 50 px, in which a grid takes over both
/// again.
static NAMES: &[&[u8]] = &[
    b"gridlay 1",
    b"viewport 300 100",
    b"main grid { grid-template-columns: [a] 50px [b] 50px [a] 50px [b] 50px }",
    b"  b leaf 10 10",
    b"  s grid { grid-column: span 2; grid-template-columns: subgrid }",
    b"    t grid { grid-column: 1 / -1; grid-template-columns: subgrid }",
    b"      p leaf 5 5 { grid-column: b }",
];

/// The frames of each container, and the height of each leaf in its area.
static ASKED_OF_NAMES: &[Asked] = &[
    Asked {
        name: b"main",
        ask: Ask::Frames,
        counts: &[],
        inline: Width(19200),
        height: Some(640),
    },
    Asked {
        name: b"b",
        ask: Ask::Block,
        counts: &[],
        inline: Width(3200),
        height: None,
    },
    Asked {
        name: b"s",
        ask: Ask::Frames,
        counts: &[(1, 1)],
        inline: Tracks(&[(0, 3200), (3200, 6400)]),
        height: Some(640),
    },
    Asked {
        name: b"t",
        ask: Ask::Frames,
        counts: &[(1, 1), (1, 1)],
        inline: Tracks(&[(0, 3200), (3200, 6400)]),
        height: Some(640),
    },
    Asked {
        name: b"p",
        ask: Ask::Block,
        counts: &[],
        inline: Width(3200),
        height: None,
    },
];

#[test]
fn an_edit_lets_go_what_it_reaches(rt: HostRuntime) -> Result<(), Fail> {
    static ROWS: &[Row] = &[
        // the names of the lines that t sees are others
        Row {
            edit: b"set b grid-column: 1 / 3",
            reached: &[b"main", b"b", b"s", b"t"],
        },
        Row {
            edit: b"set b width: 5px",
            reached: &[b"main", b"b"],
        },
        Row {
            edit: b"set p grid-row: 1",
            reached: &[b"main", b"s", b"t", b"p"],
        },
        Row {
            edit: b"set t row-gap: 2px",
            reached: &[b"main", b"s", b"t"],
        },
        Row {
            edit: b"viewport 10 10",
            reached: &[],
        },
    ];
    for row in ROWS {
        check_row(&rt, rt.alloc(), NAMES, ASKED_OF_NAMES, row)?;
    }
    Ok(())
}

/// A subgrid in both axes beside leaves.
static MIXED: &[&[u8]] = &[
    b"gridlay 1",
    b"viewport 250.5 333.25",
    b"main grid { grid-auto-rows: 25% max-content; gap: 7px; grid-auto-flow: column; min-width: 1105px }",
    b"  n1 leaf 29 8 { grid-column-start: -3; grid-column-end: span 1; max-width: 28px }",
    b"  n2 words 18.015625 0 50 0 3 5 35 208 .42 31 { box-sizing: border-box; }",
    b"  n3 words +14 1 32 46.25 {}",
    b"  n4 leaf +52 13 { grid-column: span 2 y-start / 1; order: 2 }",
    b"  n5 grid { grid-template-columns: subgrid [] [y-start]; grid-template-rows: subgrid; grid-template-areas: \"...\" \".\" \"x\"; grid-auto-rows: auto fit-content(3px); grid-auto-flow: row; column-gap: 0; grid-column-start: span 2; max-width: 272px; max-height: 37px }",
    b"    n6 words 3px 6 +30",
];

/// Its widths and heights, and what the subgrid lends in both axes.
static ASKED_OF_MIXED: &[Asked] = &[
    Asked {
        name: b"main",
        ask: Ask::Inline,
        counts: &[],
        inline: Nothing,
        height: None,
    },
    Asked {
        name: b"main",
        ask: Ask::Block,
        counts: &[],
        inline: Width(70720),
        height: None,
    },
    Asked {
        name: b"n2",
        ask: Ask::Block,
        counts: &[],
        inline: Width(31584),
        height: None,
    },
    Asked {
        name: b"n5",
        ask: Ask::LendColumns,
        counts: &[(1, 1)],
        inline: Nothing,
        height: None,
    },
    Asked {
        name: b"n5",
        ask: Ask::LendRows,
        counts: &[(1, 1)],
        inline: Tracks(&[(0, 15605), (15605, 26138)]),
        height: None,
    },
    Asked {
        name: b"n6",
        ask: Ask::Inline,
        counts: &[],
        inline: Nothing,
        height: None,
    },
];

#[test]
fn nodes_keep_what_a_layout_asked(rt: HostRuntime) -> Result<(), Fail> {
    let row = Row {
        edit: b"viewport 10 10",
        reached: &[],
    };
    check_row(&rt, rt.alloc(), MIXED, ASKED_OF_MIXED, &row)
}

/// A grid with a leaf and a subgrid.
static AREAS: &[&[u8]] = &[
    b"gridlay 1",
    b"viewport 300 200",
    b"main grid { grid-template-columns: 100px 1fr }",
    b"  a leaf 40 20",
    b"  b grid { grid-template-rows: subgrid }",
    b"    c words 10 2 30 30",
];

/// Whether `main`, which has one repetition in each axis, keeps its context and the areas of its
/// children.
fn keeps_areas(page: &Page) -> Result<bool, Fail>
    requires { IsRight page.now.nodes.tree }
{
    let id = node_named(page, b"main")?;
    Ok(find_base(page.tree(), id, &[(1, 1)]).is_some())
}

/// Contents, sizes, edges and the viewport say nothing of lines and areas; values that place items,
/// and children that come or go, do. A grid with other values is placed anew.
#[test]
fn areas_stay_where_no_subgrid_feels_an_edit(rt: HostRuntime) -> Result<(), Fail> {
    static CASES: &[(&[u8], bool)] = &[
        (b"content a leaf 50 30", true),
        (b"content c words 10 2 30 30 30", true),
        (b"set a width: 30px", true),
        (b"set a margin: 3px", true),
        (b"set b padding: 3px", true),
        (b"set b row-gap: 3px", true),
        (b"set main row-gap: 3px", false),
        (b"set a order: 1", false),
        (b"viewport 100 100", true),
        (b"set a grid-column: 2", false),
        (b"unset main grid-template-columns", false),
        (b"remove a", false),
        (b"move a b 0", false),
    ];
    for (edit, stay) in CASES {
        let page = edited(rt.alloc(), AREAS, edit)?;
        assert_eq!(rt; keeps_areas(&page)?, *stay, "{edit:?}");
    }
    Ok(())
}

/// A grid of twenty leaves in columns of their widths.
static CARDS: &[&[u8]] = &[
    b"gridlay 1",
    b"viewport 600 400",
    b"main grid { grid-template-columns: auto; justify-content: start }",
    b"  cards grid { grid-template-columns: repeat(4, auto); gap: 4px }",
    b"    c01 leaf 40 20",
    b"    c02 leaf 40 20",
    b"    c03 leaf 40 20",
    b"    c04 leaf 40 20",
    b"    c05 leaf 40 20",
    b"    c06 leaf 40 20",
    b"    c07 leaf 40 20",
    b"    c08 leaf 40 20",
    b"    c09 leaf 40 20",
    b"    c10 leaf 40 20",
    b"    c11 leaf 40 20",
    b"    c12 leaf 40 20",
    b"    c13 leaf 40 20",
    b"    c14 leaf 40 20",
    b"    c15 leaf 40 20",
    b"    c16 leaf 40 20",
    b"    c17 leaf 40 20",
    b"    c18 leaf 40 20",
    b"    c19 leaf 40 20",
    b"    c20 leaf 40 20",
];

/// Whether the grid `cards` keeps what its children told for its columns and for its rows.
fn keeps_told(page: &Page) -> Result<bool, Fail> {
    let id = node_named(page, b"cards")?;
    let past = &node_at(page.tree(), id).past;
    Ok(past.columns.is_some() && past.wide.is_some())
}

#[test]
fn what_children_told_stays_where_one_of_them_is_edited(rt: HostRuntime) -> Result<(), Fail> {
    static CASES: &[(&[u8], bool)] = &[
        (b"content c07 leaf 90 50", true),
        (b"set c07 padding: 3px", true),
        (b"set c07 grid-row: 1", false),
    ];
    for (edit, stay) in CASES {
        let page = edited(rt.alloc(), CARDS, edit)?;
        assert_eq!(rt; keeps_told(&page)?, *stay, "{edit:?}");
    }
    Ok(())
}

/// A column of sixteen leaves as high as their contents.
static COLUMN: &[&[u8]] = &[
    b"gridlay 2",
    b"viewport 600 400",
    b"main flex { flex-direction: column }",
    b"  c01 leaf 40 20",
    b"  c02 leaf 40 20",
    b"  c03 leaf 40 20",
    b"  c04 leaf 40 20",
    b"  c05 leaf 40 20",
    b"  c06 leaf 40 20",
    b"  c07 leaf 40 20",
    b"  c08 leaf 40 20",
    b"  c09 leaf 40 20",
    b"  c10 leaf 40 20",
    b"  c11 leaf 40 20",
    b"  c12 leaf 40 20",
    b"  c13 leaf 40 20",
    b"  c14 leaf 40 20",
    b"  c15 leaf 40 20",
    b"  c16 leaf 40 20",
];

/// Whether the column keeps what its children told for its block size.
fn keeps_along(page: &Page) -> Result<bool, Fail> {
    let id = node_named(page, b"main")?;
    Ok(node_at(page.tree(), id).past.along.is_some())
}

#[test]
fn what_children_of_a_column_told_stays_where_one_of_them_is_edited(
    rt: HostRuntime,
) -> Result<(), Fail> {
    static CASES: &[(&[u8], bool)] = &[
        (b"content c07 leaf 90 50", true),
        (b"set c07 padding: 3px", true),
        (b"set c07 order: 1", false),
        (b"remove c07", false),
        (b"set main row-gap: 3px", false),
    ];
    for (edit, stay) in CASES {
        let page = edited(rt.alloc(), COLUMN, edit)?;
        assert_eq!(rt; keeps_along(&page)?, *stay, "{edit:?}");
    }
    Ok(())
}
