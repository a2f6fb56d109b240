//! Pages after a layout and an edit.

ghost use Rattle.std.specs.Prelude.{IfOk};
ghost use Rattle.doc_text.specs.Laws.{IsChange, NamesItsNode};
ghost use Rattle.placing.specs.Kept.{IsRight};

use crate::pages::{laid_out, none_found, page_of};
use doc_text::{Edit, read_edit};
use lunit::Sequence;
use page_tree::Page;
use std::alloc::Global;
use std::test::Fail;
use text_scan::Line;

/// An edit that inserts nothing.
fn change(edit: Edit) -> Result<Edit, Fail>
    ensures change { IfOk result IsChange }
    ensures named { IfOk result NamesItsNode }
{
    match edit {
        Edit::Insert(_, _, _, _, _) => Err(Fail::new("a node is inserted")),
        Edit::Undo(_, _) | Edit::Redo(_, _) | Edit::Hit(_, _) => {
            Err(Fail::new("nothing is changed"))
        }
        other => Ok(other),
    }
}

/// The edit of a line.
pub(crate) fn edit_of(alloc: Global, text: &[u8]) -> Result<Edit, Fail>
    ensures change { IfOk result IsChange }
    ensures named { IfOk result NamesItsNode }
{
    let bytes = Sequence::from_slice(alloc, text)?;
    let line = Line {
        number: 1,
        bytes,
        fault: None,
    };
    change(read_edit(alloc, &line, 1)?)
}

/// The page of the document of these lines, after its first layout and this edit.
pub(crate) fn edited(alloc: Global, lines: &[&[u8]], edit: &[u8]) -> Result<Page, Fail>
    ensures { IfOk result (λ page. IsRight page.nodes.tree) }
{
    let mut page = page_of(alloc, lines)?;
    laid_out(&mut page)?;
    let mut last = none_found(&page);
    page.apply(edit_of(alloc, edit)?, &mut last)?;
    Ok(page)
}
