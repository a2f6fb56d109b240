//! Steps of edits: the boxes of a page after the change of an edit and the change that takes it
//! back.

ghost use Rattle.std.specs.Prelude.{OnOk};
ghost use Rattle.doc_text.specs.Laws.{IsChange, NamesItsNode};
ghost use Rattle.page_tests.specs.Ready.{IsReady};

use crate::edits::edit_of;
use crate::pages::{laid_out, none_found, page_of};
use doc_text::Edit;
use edit_journal::steps_lead_back;
use lunit::{Name, Rect};
use page_tree::{Page, steps_fit};
use std::alloc::Global;
use std::process::Abort;
use std::test::Fail;

/// A node, and its border box in units of 1/64 px: the place of its left upper corner, its width
/// and its height.
type Placed<'a> = (&'a [u8], i64, i64, i64, i64);

/// The lines of a document with a leaf and a subgrid of two leaves.
static PAGE: &[&[u8]] = &[
    b"gridlay 1",
    b"viewport 300 200",
    b"main grid { grid-template-columns: 100px 200px }",
    b"  a leaf 40 20",
    b"  s grid { grid-template-columns: subgrid }",
    b"    b leaf 50 30",
    b"    c leaf 60 10",
];

/// Its boxes: the rows of `s` are 30 and 10 px high, and so `main` has a row of 40 px, in which `a`
/// and `s` are stretched.
static BOXES: &[Placed] = &[
    (b"main", 0, 0, 19200, 2560),
    (b"a", 0, 0, 6400, 2560),
    (b"s", 6400, 0, 12800, 2560),
    (b"b", 6400, 0, 12800, 1920),
    (b"c", 6400, 1920, 12800, 640),
];

/// Edits of each kind that changes what is there: values that are set, set anew and no longer set,
/// a subtree that goes, nodes that move into another and within one, a content, and the viewport.
static EDITS: &[&[u8]] = &[
    b"set a width: 30px",
    b"set main grid-template-columns: 50px 60px",
    b"unset main grid-template-columns",
    b"unset a width",
    b"remove s",
    b"remove b",
    b"move b main 0",
    b"move s main 0",
    b"move c s 0",
    b"content b leaf 50 70",
    b"viewport 400 100",
];

/// Makes the change of an edit, and takes it back.
fn there_and_back(page: &mut Page, edit: &Edit) -> Result<(), Fail>
    requires ready { IsReady page.old }
    requires change { IsChange edit.now }
    requires named { NamesItsNode edit.now }
    ensures { OnOk result (IsReady page.new) }
{
    steps_fit();
    steps_lead_back();
    let step = page.step(edit)?;
    let mut last = none_found(page);
    page.turn(&step.forward, &mut last)?;
    page.turn(&step.back, &mut last)?;
    Ok(())
}

fn is_box(found: &(Name, Rect), wants: &Placed) -> bool {
    let (name, rect) = *found;
    let (of, x, y, width, height) = *wants;
    let sizes = (
        rect.x.units(),
        rect.y.units(),
        rect.width.units(),
        rect.height.units(),
    );
    name.bytes() == of && sizes == (x, y, width, height)
}

/// Whether these are all boxes, in document order.
fn are_boxes(found: &[(Name, Rect)], wants: &[Placed]) -> bool {
    if found.len() != wants.len() {
        return false;
    }
    for (one, other) in found.iter().zip(wants) {
        if !is_box(one, other) {
            return false;
        }
    }
    true
}

/// Whether a page has the boxes of `PAGE`.
fn is_whole(page: &mut Page) -> Result<bool, Fail>
    requires { IsReady page.old }
    ensures { IsReady page.new }
{
    let boxes = laid_out(page)?;
    Ok(are_boxes(boxes.as_slice(), BOXES))
}

fn comes_back(rt: &impl Abort, alloc: Global, text: &[u8]) -> Result<(), Fail> {
    let mut page = page_of(alloc, PAGE)?;
    assert!(rt; is_whole(&mut page)?);
    there_and_back(&mut page, &edit_of(alloc, text)?)?;
    assert!(rt; is_whole(&mut page)?);
    Ok(())
}

#[test]
fn boxes_come_back_with_what_was_edited(rt: HostRuntime) -> Result<(), Fail> {
    for text in EDITS {
        comes_back(&rt, rt.alloc(), text)?;
    }
    Ok(())
}
