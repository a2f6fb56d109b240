//! Edits of a held document, which lead from one document to the next; the steps back, and those
//! forward again.

ghost use Rattle.std.specs.Prelude.{◌≡◌, ◌<◌, ◌≤◌, length, OnOk, OnErr};
ghost use Rattle.doc_text.specs.Laws.{IsChange, NamesItsNode};
ghost use Rattle.page_tree.specs.Pages.{document_of};
ghost use Rattle.session.specs.Engine.{EditsPage, IsToldEdit, MakesPageAgain, StopsAgain, StopsBack, TakesPageBack};
ghost use Rattle.session.specs.Standing.{IsWell, steps_of};

use box_layout::LastBoxes;
use doc_text::Edit;
use edit_journal::Journal;
use lunit::NoMemory;
use page_tree::{EditError, Page, pages_stand};

#[tactic(auto, using(crate::proofs::Applying::editing))]
/// Applies an edit, and notes its step. After a refusal and after want of memory nothing is
/// changed.
pub(crate) fn edit(
    page: &mut Page,
    last: &mut LastBoxes,
    journal: &mut Journal,
    edit: Edit,
) -> Result<(), EditError>
    requires change { IsChange edit }
    requires named { NamesItsNode edit }
    requires told { IsToldEdit (document_of page.old).version edit }
    requires well { IsWell page.old last.old (steps_of journal.old) }
    ensures well { IsWell page.new last.new (steps_of journal.new) }
    ensures edits { EditsPage page.old page.new journal.old journal.new result edit }
{
    let step = match page.step(&edit) {
        Ok(step) => step,
        Err(error) => return Err(error),
    };
    match journal.reserve() {
        Ok(()) => (),
        Err(NoMemory) => return Err(EditError::NoMemory),
    }
    match page.turn(&step.forward, last) {
        Ok(()) => {
            journal.note(step);
            Ok(())
        }
        Err(NoMemory) => Err(EditError::NoMemory),
    }
}

/// Takes the last step back. Where memory is wanting it stands where it was, and nothing is
/// changed.
fn take_back(page: &mut Page, last: &mut LastBoxes, journal: &mut Journal) -> Result<(), NoMemory>
    requires some { 0 < length journal.old.done }
    requires well { IsWell page.old last.old (steps_of journal.old) }
    ensures well { IsWell page.new last.new (steps_of journal.new) }
    ensures ok { OnOk result (TakesPageBack page.old page.new journal.old journal.new 1) }
    ensures err { OnErr result (TakesPageBack page.old page.new journal.old journal.new 0) }
{
    pages_stand(page);
    let turned = match journal.undo() {
        Ok(change) => page.turn(change, last),
        Err(_) => unreachable!(),
    };
    match turned {
        Ok(()) => Ok(()),
        Err(NoMemory) => {
            let _ = journal.redo();
            Err(NoMemory)
        }
    }
}

/// Takes so many steps back, the last one first. Where memory is wanting some of them were taken
/// back, each whole.
pub(crate) fn take_all_back(
    page: &mut Page,
    last: &mut LastBoxes,
    journal: &mut Journal,
    count: u32,
) -> Result<(), NoMemory>
    requires many { count ≤ length journal.old.done }
    requires well { IsWell page.old last.old (steps_of journal.old) }
    ensures well { IsWell page.new last.new (steps_of journal.new) }
    ensures ok { OnOk result (TakesPageBack page.old page.new journal.old journal.new count) }
    ensures err { OnErr result (StopsBack page.old page.new journal.old journal.new count) }
{
    pages_stand(page);
    for _taken in 0..count {
        take_back(page, last, journal)?;
    }
    Ok(())
}

/// Makes the last step again that was taken back. Where memory is wanting it stands where it was,
/// and nothing is changed.
fn make_again(page: &mut Page, last: &mut LastBoxes, journal: &mut Journal) -> Result<(), NoMemory>
    requires some { 0 < length journal.old.undone }
    requires well { IsWell page.old last.old (steps_of journal.old) }
    ensures well { IsWell page.new last.new (steps_of journal.new) }
    ensures ok { OnOk result (MakesPageAgain page.old page.new journal.old journal.new 1) }
    ensures err { OnErr result (MakesPageAgain page.old page.new journal.old journal.new 0) }
{
    pages_stand(page);
    let turned = match journal.redo() {
        Ok(change) => page.turn(change, last),
        Err(_) => unreachable!(),
    };
    match turned {
        Ok(()) => Ok(()),
        Err(NoMemory) => {
            let _ = journal.undo();
            Err(NoMemory)
        }
    }
}

/// Makes so many steps again that were taken back, the one first that was taken back last. Where
/// memory is wanting some of them were made, each whole.
pub(crate) fn make_all_again(
    page: &mut Page,
    last: &mut LastBoxes,
    journal: &mut Journal,
    count: u32,
) -> Result<(), NoMemory>
    requires many { count ≤ length journal.old.undone }
    requires well { IsWell page.old last.old (steps_of journal.old) }
    ensures well { IsWell page.new last.new (steps_of journal.new) }
    ensures ok { OnOk result (MakesPageAgain page.old page.new journal.old journal.new count) }
    ensures err { OnErr result (StopsAgain page.old page.new journal.old journal.new count) }
{
    pages_stand(page);
    for _made in 0..count {
        make_again(page, last, journal)?;
    }
    Ok(())
}
