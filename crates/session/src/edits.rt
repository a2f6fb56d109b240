ghost use Rattle.std.specs.Prelude.{◌≡◌, ◌≤◌, ◌∷◌, [], List, None, Option, Ok, true, IfOk, OnOk, OnErr};
ghost use Rattle.outside.specs.declared.event.Event.{Event};
ghost use Rattle.sparing.specs.Sparing.{Touches};
ghost use Rattle.session.specs.Courses.{made_by};
ghost use Rattle.session.specs.Spares.{SparesAfter, SparesDue, SparesPage};
ghost use Rattle.session.specs.Touched.{Agrees};
ghost use Rattle.doc_text.specs.Valid.{IsShort};
ghost use Rattle.asked_pages.specs.Leaves.{IsEmptied};
ghost use Rattle.doc_text.specs.Laws.{NamesItsNode};
ghost use Rattle.session.specs.Engine.{AnswersEdit, AnswersLine, IsAnswered, IsSame, IsToldEdit};
ghost use Rattle.session.specs.Logs.{LogsFront};
ghost use Rattle.session.specs.Written.{Prints};
ghost use Rattle.session.specs.Printing.{refusal};
ghost use Rattle.session.specs.Replies.{is_new, HasReply};
ghost use Rattle.session.specs.Script.{said_line};
ghost use Rattle.session.specs.Standing.{course_of, doc_of};
ghost use Rattle.session.specs.FaultNames.{fault_name};

use crate::engine::Engine;
use crate::faults::fault_name;
use crate::print::{BoxText, print_hit, print_refusal};
use crate::said::Said;
use crate::stats::append_counts;
use doc_text::{Edit, ReadError, read_edit};
use lunit::{NoMemory, Steps};
use outside::Ruler;
use page_tree::EditError;
use std::alloc::Global;
use std::sync::ledger::Ledger;
use text_scan::{Fault, Line};

/// What is written for an edit line, and whether it was refused.
#[derive(Drop)]
pub(crate) struct Answer {
    pub(crate) text: Vec<u8>,
    pub(crate) refused: bool,
}

/// The line of the refusal of a fault, with the number k.
pub(crate) fn refusal_text(alloc: Global, k: u32, fault: Fault) -> Result<Vec<u8>, NoMemory>
    ensures { IfOk result (λ text. text.items ≡ refusal k fault.place (fault_name fault.number)) }
{
    print_refusal(alloc, k, fault.place, fault_name(fault.number))
}

#[tactic(auto, using(crate::proofs::Laid::laid_text, crate::proofs::Spares::sparing))]
/// The text of the layout of an engine, with the number k, and with its counts where they are
/// wanted.
pub(crate) fn layout_text<R: Ruler, L: Ledger>(
    alloc: Global,
    stats: bool,
    engine: &mut Engine,
    k: u32,
    ruler: &mut R,
    passes: &mut Steps<L>,
) -> Result<Vec<u8>, NoMemory>
    ensures prints { IfOk result
        (λ text. Prints stats (R.log ruler.old) (R.log ruler.new) k (Ok (doc_of engine.old))
        text.items) }
    ensures err { OnErr result
        (LogsFront (R.log ruler.old) (R.log ruler.new) k (Ok (doc_of engine.old) ∷ [])) }
    ensures same { IsSame engine.old engine.new }
    ensures laid { OnOk result (engine.new.laid ≡ true) }
    ensures replies { (touches : Touches) → IsEmptied (is_new touches k) engine.old.page →
        IfOk result
        (λ text. HasReply stats touches (R.log ruler.old) (R.log ruler.new) passes.old
        passes.new k (Ok (doc_of engine.old)) text.items) }
    ensures spares { (touches : Touches) (before : Option (List Event)) →
        SparesDue touches before (R.log ruler.old) k engine.old.page →
        SparesAfter touches before (R.log ruler.new) engine.new.page result }
{
    let mut boxes = BoxText::new(alloc, k)?;
    let counted = engine.lay_out(k, &mut boxes, ruler, passes)?;
    let mut text = boxes.into_text();
    append_counts(&mut text, stats, counted.measured, counted.added)?;
    Ok(text)
}

/// The line that says of a line of the script what is said of it, with the number k.
fn said_text(alloc: Global, k: u32, said: &Said) -> Result<Vec<u8>, NoMemory>
    ensures { IfOk result (λ text. text.items ≡ said_line k said.now) }
{
    match said {
        Said::Refused(fault) => refusal_text(alloc, k, *fault),
        Said::Found(name) => print_hit(alloc, k, name),
    }
}

#[tactic(auto, using(crate::proofs::EditLines::edit_applying))]
/// Applies an edit, or answers a hit. What is said where the document is not changed; none where it
/// is edited.
fn apply_edit<L: Ledger>(
    engine: &mut Engine,
    edit: Edit,
    passes: &mut Steps<L>,
) -> Result<Option<Said>, NoMemory>
    requires laid { engine.old.laid ≡ true }
    requires named { NamesItsNode edit }
    requires told { IsToldEdit (doc_of engine.old).version edit }
    ensures answers { IfOk result (λ said. AnswersEdit said edit engine.old engine.new) }
    ensures passes { passes.new ≡ passes.old }
{
    match edit {
        Edit::Hit(x, y) => Ok(Some(Said::Found(engine.hit(x, y, passes)?))),
        edit => match engine.apply(edit) {
            Ok(()) => Ok(None),
            Err(EditError::Refused(fault)) => Ok(Some(Said::Refused(fault))),
            Err(EditError::NoMemory) => Err(NoMemory),
        },
    }
}

#[tactic(auto, using(crate::proofs::EditLines::line_applying))]
/// Reads the edit or the hit that a line is, and applies the edit or answers the hit.
fn apply_line<L: Ledger>(
    alloc: Global,
    engine: &mut Engine,
    line: &Line,
    passes: &mut Steps<L>,
) -> Result<Option<Said>, NoMemory>
    requires laid { engine.old.laid ≡ true }
    requires short { IsShort line.now }
    ensures answers { IfOk result (λ said. AnswersLine said line.now engine.old engine.new) }
    ensures passes { passes.new ≡ passes.old }
{
    match read_edit(alloc, line, engine.version()) {
        Ok(edit) => apply_edit(engine, edit, passes),
        Err(ReadError::Fault(fault)) => Ok(Some(Said::Refused(fault))),
        Err(ReadError::NoMemory) => Err(NoMemory),
    }
}

#[tactic(auto, using(crate::proofs::EditLines::answering))]
/// The answer to the edit line with the number k, which is applied, or refused; or which asks for a
/// box.
pub(crate) fn answer_to_edit<R: Ruler, L: Ledger>(
    alloc: Global,
    stats: bool,
    engine: &mut Engine,
    k: u32,
    line: &Line,
    ruler: &mut R,
    passes: &mut Steps<L>,
) -> Result<Answer, NoMemory>
    requires laid { engine.old.laid ≡ true }
    requires short { IsShort line.now }
    ensures answered { IfOk result
        (λ answer. IsAnswered (course_of engine.old) line.now (course_of engine.new)
        answer.refused) }
    ensures laid { OnOk result (engine.new.laid ≡ true) }
    ensures prints { IfOk result
        (λ answer. Prints stats (R.log ruler.old) (R.log ruler.new) k
        (made_by (course_of engine.old) line.now) answer.text.items) }
    ensures err { OnErr result
        (LogsFront (R.log ruler.old) (R.log ruler.new) k
        (made_by (course_of engine.old) line.now ∷ [])) }
    ensures replies { (touches : Touches) → 1 ≤ k →
        Agrees touches k (course_of engine.old) line.now →
        IfOk result
        (λ answer. HasReply stats touches (R.log ruler.old) (R.log ruler.new) passes.old
        passes.new k (made_by (course_of engine.old) line.now) answer.text.items) }
    ensures spares { (touches : Touches) (before : Option (List Event)) →
        Agrees touches k (course_of engine.old) line.now →
        SparesPage touches before (R.log ruler.old) engine.old.page →
        SparesAfter touches before (R.log ruler.new) engine.new.page result }
{
    match apply_line(alloc, engine, line, passes) {
        Ok(None) => Ok(Answer {
            text: layout_text(alloc, stats, engine, k, ruler, passes)?,
            refused: false,
        }),
        Ok(Some(said)) => Ok(Answer {
            text: said_text(alloc, k, &said)?,
            refused: said.is_refusal(),
        }),
        Err(error) => Err(error),
    }
}
