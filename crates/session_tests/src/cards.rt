//! A page of 24 cards, and an edit that makes the text of one of them longer.

use crate::counts::are_told;
use crate::logs::{are_of, differ, measured_in, times};
use crate::running::{WHOLE, has_lines, run_logged};
use lunit::NoMemory;
use outside::{Event, LogRuler};
use std::alloc::Global;
use std::process::Abort;
use std::test::Fail;

const HEAD: &[u8] = b"gridlay 1
viewport 1000 600
main grid { grid-template-columns: 1fr; row-gap: 20px; padding: 10px }
  head flex { justify-content: space-between; align-items: center }
    logo leaf 120 40
    nav words 20 5 40 50 60
  cards grid { grid-template-columns: repeat(auto-fill, minmax(200px, 1fr)); gap: 20px }
";

/// A card, with `#` and `@` for the two digits of its number.
const CARD: &[u8] = b"    c#@ grid { grid-row: span 3; grid-template-rows: subgrid; row-gap: 4px }
      t#@ words 20 5 60 70
      p#@ words 16 4 40 40 40 40 40 40 40 40 40 40 40 40
      f#@ flex { column-gap: 8px }
        x#@ leaf 60 24
        y#@ leaf 60 24 { margin-left: auto }
";

const SCRIPT: &[u8] = b"---
content p07 words 16 4 40 40 40 40 40 40 40 40 40 40 40 40 40 40 40 40 40
";

/// An edit that changes nothing.
const SAME_VIEWPORT: &[u8] = b"viewport 1000 600
";

/// The last edit taken back, and made again.
const BACK_AND_FORTH: &[u8] = b"undo 1
redo 1
";

/// Some lines of what is written for them.
const BACK_AND_FORTH_LINES: &[u8] = b"layout 2
main 0 0 1000 780
c07 510 190 230 100
p07 510 214 230 48
c09 10 310 230 100
layout 3
main 0 0 1000 796
c07 510 190 230 116
p07 510 214 230 64
c09 10 326 230 100
";

/// The nodes that are no leaves: the root, the head, the list of cards, and each card with its
/// foot.
const CONTAINERS: u64 = 51;

/// Adds the card of this number.
fn add_card(page: &mut Vec<u8>, number: u8) -> Result<(), NoMemory> {
    for byte in CARD {
        let spelled = match byte {
            b'#' => b'0' + number / 10 % 10,
            b'@' => b'0' + number % 10,
            _ => *byte,
        };
        page.push(spelled)?;
    }
    Ok(())
}

fn page(alloc: Global) -> Result<Vec<u8>, NoMemory> {
    let mut page = Vec::from_slice(alloc, HEAD)?;
    for number in 1..25 {
        add_card(&mut page, number)?;
    }
    page.extend_from_slice(SCRIPT)?;
    Ok(page)
}

/// What is asked for the page, and again for the edit: each leaf once at a width, and then the one
/// that was changed.
fn check_events(rt: &impl Abort, events: &[Event]) {
    let before = measured_in(events, 0);
    for name in [b"nav", b"t01", b"p07", b"x12", b"y24"] {
        assert!(rt; times(before, name) > 0, "{name:?}");
    }
    let after = measured_in(events, 1);
    assert!(rt; differ(before) && differ(after) && are_of(after, b"p07"));
}

/// What is told of the page, of the edit, and of an edit that changes nothing. For the first edit
/// the root and the list of cards are asked three questions each at most, the card four, since it
/// sees how often the columns repeat, once for the widths of the list and four times else, and the
/// text two; the three cards beside it have other rows, and are asked for their frames.
fn check_counts(rt: &impl Abort, written: &[u8], events: &[Event]) {
    static LAYOUTS: &[(u32, u64, u64)] = &[(0, CONTAINERS, u64::MAX), (1, 3, 15), (2, 0, 0)];
    for (k, least, most) in LAYOUTS {
        assert!(rt; are_told(written, events, *k, *least, *most), "layout {k}");
    }
    assert!(rt; measured_in(events, 2).is_empty());
}

#[test]
fn a_second_layout_adds_nothing(rt: HostRuntime) -> Result<(), Fail> {
    let mut page = page(rt.alloc())?;
    page.extend_from_slice(SAME_VIEWPORT)?;
    let mut ruler = LogRuler::new(rt.alloc());
    let words = ["layout", "--stats"];
    let ran = run_logged(rt.alloc(), &words, &page, WHOLE, &mut ruler)?;
    check_events(&rt, ruler.events());
    check_counts(&rt, ran.written.as_slice(), ruler.events());
    Ok(())
}

/// The edit that is taken back and made again asks again what it asked at first, and of no other
/// card.
fn check_undone(rt: &impl Abort, written: &[u8], events: &[Event]) {
    for k in 1..4 {
        let again = measured_in(events, k);
        assert!(rt; differ(again) && are_of(again, b"p07"), "layout {k}");
        assert!(rt; are_told(written, events, k, 3, 15), "layout {k}");
    }
}

#[test]
fn undo_asks_again_what_the_edit_reaches(rt: HostRuntime) -> Result<(), Fail> {
    let mut page = page(rt.alloc())?;
    page.extend_from_slice(BACK_AND_FORTH)?;
    let mut ruler = LogRuler::new(rt.alloc());
    let words = ["layout", "--stats"];
    let ran = run_logged(rt.alloc(), &words, &page, WHOLE, &mut ruler)?;
    assert!(rt; has_lines(ran.written.as_slice(), BACK_AND_FORTH_LINES));
    check_undone(&rt, ran.written.as_slice(), ruler.events());
    Ok(())
}
