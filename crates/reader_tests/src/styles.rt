//! The class and the initial value of each property. Values are written as declarations.

use lunit::NoMemory;
use std::alloc::Global;
use std::process::Abort;
use std::test::Fail;
use style_types::{Class, DeclaredValue, Prop, class_of, initial_of};
use text_scan::Place;
use value_text::read_decl;

const AT: Place = Place { line: 1, column: 1 };

/// One property is declared, of this class, and its initial value is the declared one.
fn begin_so(alloc: Global, all: &[(Prop, DeclaredValue)], class: Class) -> Result<bool, NoMemory> {
    match all.first() {
        Some((p, declared)) => {
            let initial = initial_of(alloc, *p)?;
            Ok(all.len() == 1 && class_of(*p) == class && declared.value == initial)
        }
        None => Ok(false),
    }
}

/// Each declares the initial value of a property of class grid.
static GRID: &[&[u8]] = &[
    b"grid-template-columns: none",
    b"grid-template-rows: none",
    b"grid-template-areas: none",
    b"grid-auto-columns: auto",
    b"grid-auto-rows: auto",
    b"grid-auto-flow: row",
    b"grid-column-start: auto",
    b"grid-column-end: auto",
    b"grid-row-start: auto",
    b"grid-row-end: auto",
    b"order: 0",
    b"row-gap: normal",
    b"column-gap: normal",
    b"margin-top: 0",
    b"margin-right: 0",
    b"margin-bottom: 0",
    b"margin-left: 0",
    b"padding-top: 0",
    b"padding-right: 0",
    b"padding-bottom: 0",
    b"padding-left: 0",
    b"border-top-width: 0",
    b"border-right-width: 0",
    b"border-bottom-width: 0",
    b"border-left-width: 0",
];

/// Each declares the initial value of a property of class content.
static CONTENT: &[&[u8]] = &[
    b"width: auto",
    b"height: auto",
    b"min-width: auto",
    b"min-height: auto",
    b"max-width: none",
    b"max-height: none",
    b"box-sizing: content-box",
    b"overflow: visible",
    b"justify-content: normal",
    b"align-content: normal",
    b"justify-items: normal",
    b"align-items: normal",
    b"justify-self: auto",
    b"align-self: auto",
    b"flex-direction: row",
    b"flex-wrap: nowrap",
    b"flex-grow: 0",
    b"flex-shrink: 1",
    b"flex-basis: auto",
];

/// The declared property is of this class, and begins with this value.
fn begins_so(rt: &impl Abort, alloc: Global, texts: &[&[u8]], class: Class) -> Result<(), Fail> {
    for text in texts {
        let all = read_decl(alloc, text, AT, 2)?;
        assert!(rt; begin_so(alloc, all.as_slice(), class)?, "{text:?}");
    }
    Ok(())
}

#[test]
fn properties_begin_as_in_the_table(rt: HostRuntime) -> Result<(), Fail> {
    begins_so(&rt, rt.alloc(), GRID, Class::Grid)?;
    begins_so(&rt, rt.alloc(), CONTENT, Class::Content)?;
    begins_so(&rt, rt.alloc(), &[b"font-size: 16px"], Class::Font)
}
