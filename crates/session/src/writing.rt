//! A run under the word `write`: takes the edits of the script, and writes the last document in its
//! canonical form.

ghost use Rattle.std.specs.Prelude.{◌≡◌, ◌≤◌, ◌++◌, ◌∷◌, [], List, Err, false, true, IfOk, OnOk};
ghost use Rattle.outside.specs.Faults.{HasCauseOf};
ghost use Rattle.text_scan.specs.declared.line.Line.{Line};
ghost use Rattle.text_scan.specs.Stream.{empty_stream};
ghost use Rattle.doc_text.specs.Documents.{document_of};
ghost use Rattle.doc_text.specs.Laws.{NamesItsNode};
ghost use Rattle.doc_text.specs.Valid.{AreShort, IsShort};
ghost use Rattle.doc_writer.specs.Documents.{canonical};
ghost use Rattle.session.specs.Engine.{IsToldEdit};
ghost use Rattle.session.specs.Input.{limit, AsksOn, AsksOnce};
ghost use Rattle.session.specs.Script.{answer_to, has_end, made_of};
ghost use Rattle.session.specs.Standing.{doc_of, history_of};
ghost use Rattle.session.specs.Writing.{EndsWith, HasLed, IsUnwritten, LeadsTo, Opens, RunsWrite, StartsWrite};

use crate::Status;
use crate::answer::{refuse_document, write};
use crate::engine::Engine;
use crate::input::{PIECE, Reader, next_line};
use crate::serve::ended;
use crate::text::read_text;
use doc_text::{Edit, ReadError, read_doc, read_edit};
use doc_writer::{WriteError, write_doc};
use lunit::NoMemory;
use outside::{Sink, Source};
use page_tree::EditError;
use std::alloc::Global;
use text_scan::{Line, Place};

#[tactic(auto, using(crate::proofs::LastText::changing))]
/// Applies an edit, and says whether it was refused. A hit changes nothing.
fn take_edit(engine: &mut Engine, edit: Edit) -> Result<bool, NoMemory>
    requires named { NamesItsNode edit }
    requires told { IsToldEdit (doc_of engine.old).version edit }
    ensures { IfOk result
        (λ refused. LeadsTo (answer_to edit (history_of engine.old)) (history_of engine.old)
        (history_of engine.new) refused) }
{
    match edit {
        Edit::Hit(_, _) => Ok(false),
        edit => match engine.apply(edit) {
            Ok(()) => Ok(false),
            Err(EditError::Refused(_)) => Ok(true),
            Err(EditError::NoMemory) => Err(NoMemory),
        },
    }
}

#[tactic(auto, using(crate::proofs::EditLines::line_applying))]
/// Applies the edit that a line is, and says whether the line was refused.
fn take_line(alloc: Global, engine: &mut Engine, line: &Line) -> Result<bool, NoMemory>
    requires { IsShort line.now }
    ensures { IfOk result
        (λ refused. LeadsTo (made_of (history_of engine.old) line.now) (history_of engine.old)
        (history_of engine.new) refused) }
{
    match read_edit(alloc, line, engine.version()) {
        Ok(edit) => take_edit(engine, edit),
        Err(ReadError::Fault(_)) => Ok(true),
        Err(ReadError::NoMemory) => Err(NoMemory),
    }
}

#[tactic(auto, using(crate::proofs::LastText::leading))]
/// Goes on by the next line of the script, where a line before it was refused or none.
fn take_next(
    alloc: Global,
    engine: &mut Engine,
    refused: bool,
    line: &Line,
) -> Result<bool, NoMemory>
    requires { IsShort line.now }
    ensures { (given : List Line) → has_end given ≡ true →
        HasLed given (history_of engine.old) refused →
        IfOk result (λ bad. HasLed (given ++ line.now ∷ []) (history_of engine.new) bad) }
{
    if line.is_skipped() {
        return Ok(refused);
    }
    let bad = take_line(alloc, engine, line)?;
    Ok(refused || bad)
}

/// The engine of the document of these lines, whose text ends at this place.
fn open(alloc: Global, lines: &[Line], end: Place) -> Result<Engine, ReadError>
    requires { AreShort lines.now }
    ensures { Opens result (document_of lines.now end) }
{
    let doc = read_doc(alloc, lines, end)?;
    match Engine::new(alloc, doc) {
        Ok(engine) => Ok(engine),
        Err(NoMemory) => Err(ReadError::NoMemory),
    }
}

/// How a run ends whose last document is not written.
fn unwritten(error: &WriteError) -> Status
    ensures { IsUnwritten error.now result }
{
    match error {
        WriteError::TooLong(_) => Status::TooLong,
        WriteError::NoMemory => Status::NoMemory,
    }
}

#[tactic(auto, using(crate::proofs::LastText::ending))]
/// Writes the document of the engine in its canonical form, and tells how the run ends, where a line
/// was refused or none.
fn write_last<K: Sink>(alloc: Global, engine: &Engine, refused: bool, sink: &mut K) -> Status
    ensures ends { EndsWith (K.written sink.old) (K.written sink.new) refused
        (canonical (doc_of engine.now)) result }
    ensures cause { HasCauseOf (K.faults sink.old) (K.faults sink.new)
        (result ≡ Status.WriteFault) }
{
    let doc = match engine.doc() {
        Ok(doc) => doc,
        Err(NoMemory) => return Status::NoMemory,
    };
    match write_doc(alloc, &doc) {
        Ok(text) => match write(sink, &text) {
            Ok(()) => ended(refused),
            Err(status) => status,
        },
        Err(error) => unwritten(&error),
    }
}

#[tactic(auto, using(crate::proofs::LastText::starting))]
/// Reads the document. Gives its engine where a script follows; else writes the document, or the line
/// of its refusal, and tells how the run ended.
fn start<S: Source, K: Sink>(
    alloc: Global,
    source: &mut S,
    room: &mut [u8; PIECE],
    reader: &mut Reader,
    sink: &mut K,
) -> Result<Engine, Status>
    requires new { (reader.old.lines ≡ empty_stream) × (reader.old.count ≡ 0) ×
        (reader.old.ended ≡ false) }
    ensures starts { StartsWrite (S.left source.old) (S.left source.new) (K.written sink.old)
        (K.written sink.new) reader.new.lines reader.new.ended result }
    ensures count { OnOk result (reader.new.lines.fed ≡ reader.new.count) }
    ensures within { OnOk result (reader.new.count ≤ limit) }
    ensures asks { AsksOn (S.left source.old) (S.left source.new) (S.asked source.old)
        (S.asked source.new) reader.new.count reader.new.ended result }
    ensures read { HasCauseOf (S.faults source.old) (S.faults source.new)
        (result ≡ Err Status.ReadFault) }
    ensures write { HasCauseOf (K.faults sink.old) (K.faults sink.new)
        (result ≡ Err Status.WriteFault) }
{
    let text = match read_text(alloc, source, room, reader) {
        Ok(text) => text,
        Err(status) => return Err(status),
    };
    let engine = match open(alloc, text.lines.as_slice(), text.end) {
        Ok(engine) => engine,
        Err(ReadError::Fault(fault)) => return Err(refuse_document(alloc, fault, sink)),
        Err(ReadError::NoMemory) => return Err(Status::NoMemory),
    };
    if !text.has_script {
        return Err(write_last(alloc, &engine, false, sink));
    }
    Ok(engine)
}

#[tactic(auto, using(crate::proofs::LastText::serving))]
/// Reads a document and its script, and writes the last document in its canonical form. Nothing is
/// laid out.
pub(crate) fn write_document<S: Source, K: Sink>(
    alloc: Global,
    source: &mut S,
    sink: &mut K,
) -> Status
    ensures runs { RunsWrite (S.left source.old) (S.left source.new) (K.written sink.old)
        (K.written sink.new) result }
    ensures asks { AsksOnce (S.left source.old) (S.left source.new) (S.asked source.old)
        (S.asked source.new) }
    ensures read { HasCauseOf (S.faults source.old) (S.faults source.new)
        (result ≡ Status.ReadFault) }
    ensures write { HasCauseOf (K.faults sink.old) (K.faults sink.new)
        (result ≡ Status.WriteFault) }
{
    let mut room = [0; PIECE];
    let mut reader = Reader::new(alloc);
    let mut engine = match start(alloc, source, &mut room, &mut reader, sink) {
        Ok(engine) => engine,
        Err(status) => return status,
    };
    let mut refused = false;
    loop {
        match next_line(source, &mut room, &mut reader) {
            Ok(Some(line)) => match take_next(alloc, &mut engine, refused, &line) {
                Ok(bad) => refused = bad,
                Err(NoMemory) => return Status::NoMemory,
            },
            Ok(None) => return write_last(alloc, &engine, refused, sink),
            Err(status) => return status,
        }
    }
}
