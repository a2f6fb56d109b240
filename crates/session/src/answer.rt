ghost use Rattle.std.specs.Prelude.{◌≡◌, ◌≤◌, ◌∷◌, [], ℕ, List, Option, Ok, Err, IfOk, IfErr, OnOk, OnErr, Bool, false, true, if◌then◌else◌};
ghost use Rattle.sparing.specs.Sparing.{Touches};
ghost use Rattle.session.specs.Spares.{SparesAfter, SparesFirst, SparesPage};
ghost use Rattle.session.specs.Touched.{Agrees};
ghost use Rattle.text_scan.specs.Tokens.{is_skipped};
ghost use Rattle.outside.specs.Faults.{HasCauseOf};
ghost use Rattle.outside.specs.Told.{Adds, AddsPrefix};
ghost use Rattle.outside.specs.declared.event.Event.{Event};
ghost use Rattle.doc_text.specs.Documents.{document_of};
ghost use Rattle.doc_text.specs.Valid.{IsValid, IsShort, AreShort};
ghost use Rattle.text_scan.specs.declared.line.Line.{Line};
ghost use Rattle.session.specs.Courses.{made_by, no_steps};
ghost use Rattle.session.specs.Engine.{IsAnswered};
ghost use Rattle.session.specs.Replies.{Replies};
ghost use Rattle.session.specs.Runs.{StopsWriting};
ghost use Rattle.session.specs.Serving.{Answers, AnswersPrefix, AnswersNext, EndsFirst, Begins, HasAnswered};
ghost use Rattle.session.specs.Standing.{course_of, doc_of};

use crate::Status;
use crate::edits::{answer_to_edit, layout_text, refusal_text};
use crate::engine::Engine;
use doc_text::{Doc, ReadError, read_doc};
use lunit::{NoMemory, Steps};
use outside::{Ruler, Sink, write_all};
use std::alloc::Global;
use std::sync::ledger::Ledger;
use text_scan::{Fault, Line, Place};

/// The state of a run between two lines of its script.
#[derive(Drop)]
pub(crate) struct Progress {
    /// The document as the edits so far left it.
    pub(crate) engine: Engine,
    /// The number of the next edit.
    pub(crate) number: u32,
    /// Whether a line was refused.
    pub(crate) refused: bool,
}

/// Writes all of a text.
pub(crate) fn write<K: Sink>(sink: &mut K, text: &[u8]) -> Result<(), Status>
    ensures ok { OnOk result (Adds (K.written sink.old) (K.written sink.new) text.now) }
    ensures err { OnErr result (AddsPrefix (K.written sink.old) (K.written sink.new) text.now) }
    ensures stops { IfErr result StopsWriting }
    ensures cause { HasCauseOf (K.faults sink.old) (K.faults sink.new)
        (result ≡ Err Status.WriteFault) }
{
    write_all(sink, text)?;
    Ok(())
}

#[tactic(auto, using(crate::proofs::Serving::first_laying))]
/// Lays the document out, with the number 0, and writes its boxes.
fn first_layout<K: Sink, R: Ruler, L: Ledger>(
    alloc: Global,
    stats: bool,
    doc: Doc,
    sink: &mut K,
    ruler: &mut R,
    passes: &mut Steps<L>,
) -> Result<Engine, Status>
    requires { IsValid doc }
    ensures engine { IfOk result (λ engine. doc_of engine ≡ doc) }
    ensures laid { IfOk result (λ engine. engine.laid ≡ true) }
    ensures steps { IfOk result (λ engine. engine.steps ≡ no_steps) }
    ensures answers { OnOk result
        (Answers stats (K.written sink.old) (K.written sink.new) (R.log ruler.old) (R.log ruler.new)
        0 (Ok doc)) }
    ensures prefix { OnErr result
        (AnswersPrefix stats (K.written sink.old) (K.written sink.new) (R.log ruler.old)
        (R.log ruler.new) 0 (Ok doc)) }
    ensures replies { (touches : Touches) →
        OnOk result
        (Replies stats (K.written sink.old) (K.written sink.new) (R.log ruler.old)
        (R.log ruler.new) passes.old passes.new touches 0 (Ok doc ∷ [])) }
    ensures spares { (touches : Touches) →
        SparesFirst touches (R.log ruler.old) (R.log ruler.new) result }
    ensures stops { IfErr result StopsWriting }
    ensures cause { HasCauseOf (K.faults sink.old) (K.faults sink.new)
        (result ≡ Err Status.WriteFault) }
{
    let mut engine = Engine::new(alloc, doc)?;
    let text = layout_text(alloc, stats, &mut engine, 0, ruler, passes)?;
    write(sink, &text)?;
    Ok(engine)
}

#[tactic(auto, using(crate::proofs::Serving::document_refusing))]
/// Writes the line of the refusal of a document.
pub(crate) fn refuse_document<K: Sink>(alloc: Global, fault: Fault, sink: &mut K) -> Status
    ensures refused { (stats : Bool) (events : Option (List Event)) →
        EndsFirst stats (K.written sink.old) (K.written sink.new) events events (Err fault) result }
    ensures cause { HasCauseOf (K.faults sink.old) (K.faults sink.new)
        (result ≡ Status.WriteFault) }
{
    match refusal_text(alloc, 0, fault) {
        Ok(text) => match write(sink, &text) {
            Ok(()) => Status::BadDocument,
            Err(status) => status,
        },
        Err(NoMemory) => Status::NoMemory,
    }
}

#[tactic(auto, using(crate::proofs::Serving::beginning))]
/// Answers the lines of the document, whose text ends at this place: lays it out, or writes the
/// line of its refusal.
pub(crate) fn begin<K: Sink, R: Ruler, L: Ledger>(
    alloc: Global,
    stats: bool,
    lines: &[Line],
    end: Place,
    sink: &mut K,
    ruler: &mut R,
    passes: &mut Steps<L>,
) -> Result<Engine, Status>
    requires { AreShort lines.now }
    ensures begins { Begins stats (K.written sink.old) (K.written sink.new) (R.log ruler.old)
        (R.log ruler.new) (document_of lines.now end) result }
    ensures laid { IfOk result (λ engine. engine.laid ≡ true) }
    ensures steps { IfOk result (λ engine. engine.steps ≡ no_steps) }
    ensures replies { (touches : Touches) →
        IfOk result
        (λ engine. Replies stats (K.written sink.old) (K.written sink.new) (R.log ruler.old)
        (R.log ruler.new) passes.old passes.new touches 0 (Ok (doc_of engine) ∷ [])) }
    ensures idle { result ≡ Err Status.BadDocument → passes.new ≡ passes.old }
    ensures spares { (touches : Touches) →
        SparesFirst touches (R.log ruler.old) (R.log ruler.new) result }
    ensures cause { HasCauseOf (K.faults sink.old) (K.faults sink.new)
        (result ≡ Err Status.WriteFault) }
{
    match read_doc(alloc, lines, end) {
        Ok(doc) => first_layout(alloc, stats, doc, sink, ruler, passes),
        Err(ReadError::Fault(fault)) => Err(refuse_document(alloc, fault, sink)),
        Err(ReadError::NoMemory) => Err(Status::NoMemory),
    }
}

#[tactic(auto, using(crate::proofs::Serving::edit_answering))]
/// Writes the answer to the edit line with the number k, and says whether the line was refused.
fn write_answer<K: Sink, R: Ruler, L: Ledger>(
    alloc: Global,
    stats: bool,
    engine: &mut Engine,
    k: u32,
    line: &Line,
    sink: &mut K,
    ruler: &mut R,
    passes: &mut Steps<L>,
) -> Result<bool, Status>
    requires laid { engine.old.laid ≡ true }
    requires short { IsShort line.now }
    ensures laid { OnOk result (engine.new.laid ≡ true) }
    ensures answered { IfOk result
        (λ refused. IsAnswered (course_of engine.old) line.now (course_of engine.new) refused) }
    ensures answers { OnOk result
        (Answers stats (K.written sink.old) (K.written sink.new) (R.log ruler.old) (R.log ruler.new)
        k (made_by (course_of engine.old) line.now)) }
    ensures prefix { OnErr result
        (AnswersPrefix stats (K.written sink.old) (K.written sink.new) (R.log ruler.old)
        (R.log ruler.new) k (made_by (course_of engine.old) line.now)) }
    ensures replies { (touches : Touches) → 1 ≤ k →
        Agrees touches k (course_of engine.old) line.now →
        OnOk result
        (Replies stats (K.written sink.old) (K.written sink.new) (R.log ruler.old)
        (R.log ruler.new) passes.old passes.new touches k
        (made_by (course_of engine.old) line.now ∷ [])) }
    ensures spares { (touches : Touches) (before : Option (List Event)) →
        Agrees touches k (course_of engine.old) line.now →
        SparesPage touches before (R.log ruler.old) engine.old.page →
        SparesAfter touches before (R.log ruler.new) engine.new.page result }
    ensures stops { IfErr result StopsWriting }
    ensures cause { HasCauseOf (K.faults sink.old) (K.faults sink.new)
        (result ≡ Err Status.WriteFault) }
{
    let answer = answer_to_edit(alloc, stats, engine, k, line, ruler, passes)?;
    write(sink, &answer.text)?;
    Ok(answer.refused)
}

#[tactic(auto, using(crate::proofs::Progress::line_answering))]
/// Goes on by the next line of the script: writes the answer to an edit, and nothing for a line
/// that is skipped.
pub(crate) fn handle_line<K: Sink, R: Ruler, L: Ledger>(
    alloc: Global,
    stats: bool,
    progress: &mut Progress,
    line: &Line,
    sink: &mut K,
    ruler: &mut R,
    passes: &mut Steps<L>,
) -> Result<(), Status>
    requires few { progress.old.number ≤ 67108864 }
    requires laid { progress.old.engine.laid ≡ true }
    requires short { IsShort line.now }
    ensures laid { OnOk result (progress.new.engine.laid ≡ true) }
    ensures answered { (held : Option (List ℕ)) (events : Option (List Event)) (given : List Line) →
        HasAnswered stats held (K.written sink.old) events (R.log ruler.old) given
        (course_of progress.old.engine) progress.old.number progress.old.refused →
        AnswersNext stats held (K.written sink.new) events (R.log ruler.new) given line.now
        progress.new result }
    ensures replies { (touches : Touches) → 1 ≤ progress.old.number →
        (is_skipped line.now ≡ false →
        Agrees touches progress.old.number (course_of progress.old.engine) line.now) →
        OnOk result
        (Replies stats (K.written sink.old) (K.written sink.new) (R.log ruler.old)
        (R.log ruler.new) passes.old passes.new touches progress.old.number
        (if is_skipped line.now then [] else made_by (course_of progress.old.engine)
        line.now ∷ [])) }
    ensures spares { (touches : Touches) (before : Option (List Event)) →
        (is_skipped line.now ≡ false →
        Agrees touches progress.old.number (course_of progress.old.engine) line.now) →
        SparesPage touches before (R.log ruler.old) progress.old.engine.page →
        SparesAfter touches before (R.log ruler.new) progress.new.engine.page result }
    ensures stops { IfErr result StopsWriting }
    ensures cause { HasCauseOf (K.faults sink.old) (K.faults sink.new)
        (result ≡ Err Status.WriteFault) }
{
    if line.is_skipped() {
        return Ok(());
    }
    let number = progress.number;
    match write_answer(
        alloc,
        stats,
        &mut progress.engine,
        number,
        line,
        sink,
        ruler,
        passes,
    ) {
        Ok(refused) => {
            progress.number += 1;
            progress.refused |= refused;
            Ok(())
        }
        Err(status) => Err(status),
    }
}
