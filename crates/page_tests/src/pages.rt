//! The pages of the documents of tests.

ghost use Rattle.std.specs.Prelude.{◌≡◌, ◌<◌, OnOk, IfOk};
ghost use Rattle.doc_text.specs.Valid.{AreShort};
ghost use Rattle.box_layout.specs.LastBoxes.{AreFound};
ghost use Rattle.placing.specs.Kept.{kept_at};
ghost use Rattle.placing.specs.Nodes.{bare, IsLive};
ghost use Rattle.page_tests.specs.Ready.{IsReady};

use box_layout::{BoxList, LastBoxes};
use doc_text::read_doc;
use lunit::{Name, Rect, Sequence, Steps};
use node_arena::NodeId;
use outside::{Tally, WordRuler};
use page_tree::Page;
use std::alloc::Global;
use std::marker::Brand;
use std::sync::ledger::{Blank, Ledger};
use std::test::Fail;
use text_scan::{Line, Place};

#[tactic(auto, using(crate::proofs::Readied::short_more))]
/// Adds a line without a fault.
fn add_line(alloc: Global, lines: &mut Sequence<Line>, text: &[u8]) -> Result<(), Fail>
    requires { AreShort lines.old }
    ensures { OnOk result (AreShort lines.new) }
{
    if text.len() > 65_536 {
        return Err(Fail::new("a line that is too long"));
    }
    let number = u32::try_from(lines.len())?.saturating_add(1);
    let bytes = Sequence::from_slice(alloc, text)?;
    lines.push(Line {
        number,
        bytes,
        fault: None,
    })?;
    Ok(())
}

/// Adds lines without faults.
fn add_lines(alloc: Global, lines: &mut Sequence<Line>, text: &[&[u8]]) -> Result<(), Fail>
    requires { AreShort lines.old }
    ensures { OnOk result (AreShort lines.new) }
{
    for line in text {
        add_line(alloc, lines, line)?;
    }
    Ok(())
}

#[tactic(auto, using(crate::proofs::Readied::ready_first))]
/// The page of the document of these lines.
fn page_of_lines(alloc: Global, lines: &Sequence<Line>) -> Result<Page, Fail>
    requires { AreShort lines.now }
    ensures { IfOk result (λ page. IsReady page) }
{
    let line = u32::try_from(lines.len())?.saturating_add(1);
    let end = Place { line, column: 1 };
    let doc = read_doc(alloc, lines.as_slice(), end)?;
    Ok(Page::new(alloc, &doc)?)
}

/// The page of the document of these lines.
pub(crate) fn page_of(alloc: Global, text: &[&[u8]]) -> Result<Page, Fail>
    ensures { IfOk result (λ page. IsReady page) }
{
    let mut lines = Sequence::new(alloc);
    add_lines(alloc, &mut lines, text)?;
    page_of_lines(alloc, &lines)
}

/// No boxes of the page that were found last.
pub(crate) fn none_found(page: &Page) -> LastBoxes
    ensures { AreFound (bare page.now.nodes.tree) (kept_at page.now.nodes.tree) result }
{
    LastBoxes::new(page.alloc())
}

#[tactic(auto, using(crate::proofs::Readied::ready_next))]
/// Lays a page out over this book, and tells its boxes.
fn lay_out<L: Ledger>(page: &mut Page, blank: Blank) -> Result<Sequence<(Name, Rect)>, Fail>
    requires name { blank.name ≡ L.name }
    requires parts { blank.parts ≡ L.parts }
    requires some { 0 < blank.parts }
    requires ready { IsReady page.old }
    ensures { IsReady page.new }
{
    let mut passes: Steps<L> = Steps::new(blank);
    let mut list = BoxList::new(page.alloc());
    let mut last = none_found(page);
    page.lay_out(
        &mut list,
        &mut last,
        &mut WordRuler::new(),
        &mut Tally::new(),
        &mut passes,
    )?;
    Ok(Sequence::from_vec(list.boxes))
}

/// Lays a page out, and tells its boxes.
pub(crate) fn laid_out(page: &mut Page) -> Result<Sequence<(Name, Rect)>, Fail>
    requires { IsReady page.old }
    ensures { IsReady page.new }
{
    lay_out::<Brand>(page, Blank::new(1))
}

#[tactic(auto, using(crate::proofs::Readied::live_named))]
/// The number of the node of this name.
pub(crate) fn node_named(page: &Page, name: &[u8]) -> Result<NodeId, Fail>
    ensures { IfOk result (λ id. IsLive (bare page.now.nodes.tree) id) }
{
    match page.find(&Name::read(name)?) {
        Some(id) => Ok(id),
        None => Err(Fail::new("no node of this name")),
    }
}
