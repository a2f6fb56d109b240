ghost use Rattle.std.specs.Prelude.{◌≡◌, Err, false, true, IfOk, OnOk};
ghost use Rattle.outside.specs.Faults.{HasCauseOf};
ghost use Rattle.text_scan.specs.Stream.{empty_stream};
ghost use Rattle.session.specs.Input.{AsksOn, AsksOnce};
ghost use Rattle.session.specs.Replies.{RepliesStart, RepliesTo};
ghost use Rattle.session.specs.Runs.{Runs};
ghost use Rattle.session.specs.Serving.{Starts, ended};
ghost use Rattle.session.specs.Spares.{SparesInput, SparesStart};
ghost use Rattle.sparing.specs.Sparing.{Touches};

use crate::Status;
use crate::answer::{Progress, begin, handle_line};
use crate::input::{PIECE, Reader, next_line};
use crate::text::read_text;
use lunit::Steps;
use outside::{Ruler, Sink, Source};
use std::alloc::Global;
use std::sync::ledger::Ledger;

#[tactic(auto, using(crate::proofs::Running::starting))]
/// Reads the document and lays it out. Gives how far the run is where a script follows, or else how
/// it ended.
fn start<S: Source, K: Sink, R: Ruler, L: Ledger>(
    alloc: Global,
    stats: bool,
    source: &mut S,
    room: &mut [u8; PIECE],
    reader: &mut Reader,
    sink: &mut K,
    ruler: &mut R,
    passes: &mut Steps<L>,
) -> Result<Progress, Status>
    requires new { (reader.old.lines ≡ empty_stream) × (reader.old.count ≡ 0) ×
        (reader.old.ended ≡ false) }
    ensures starts { Starts stats (S.left source.old) (S.left source.new) (K.written sink.old)
        (K.written sink.new) (R.log ruler.old) (R.log ruler.new) reader.new.lines reader.new.ended
        result }
    ensures spares { (touches : Touches) →
        SparesStart touches (R.log ruler.old) (R.log ruler.new) result }
    ensures replies { RepliesStart stats (K.written sink.old) (K.written sink.new) (R.log ruler.old)
        (R.log ruler.new) passes.old passes.new (S.left source.old) result }
    ensures one { IfOk result (λ progress. progress.number ≡ 1) }
    ensures laid { IfOk result (λ progress. progress.engine.laid ≡ true) }
    ensures count { OnOk result (reader.new.lines.fed ≡ reader.new.count) }
    ensures asks { AsksOn (S.left source.old) (S.left source.new) (S.asked source.old)
        (S.asked source.new) reader.new.count reader.new.ended result }
    ensures read { HasCauseOf (S.faults source.old) (S.faults source.new)
        (result ≡ Err Status.ReadFault) }
    ensures write { HasCauseOf (K.faults sink.old) (K.faults sink.new)
        (result ≡ Err Status.WriteFault) }
{
    let text = match read_text(alloc, source, room, reader) {
        Ok(text) => text,
        Err(status) => return Err(status),
    };
    let engine = match begin(
        alloc,
        stats,
        text.lines.as_slice(),
        text.end,
        sink,
        ruler,
        passes,
    ) {
        Ok(engine) => engine,
        Err(status) => return Err(status),
    };
    if !text.has_script {
        return Err(Status::Done);
    }
    Ok(Progress {
        engine,
        number: 1,
        refused: false,
    })
}

#[tactic(auto, using(crate::proofs::Running::serving))]
/// Answers an input: its document, and then each line of its script as soon as the line is whole.
pub(crate) fn serve<S: Source, K: Sink, R: Ruler, L: Ledger>(
    alloc: Global,
    stats: bool,
    source: &mut S,
    sink: &mut K,
    ruler: &mut R,
    passes: &mut Steps<L>,
) -> Status
    ensures runs { Runs stats (S.left source.old) (S.left source.new) (K.written sink.old)
        (K.written sink.new) (R.log ruler.old) (R.log ruler.new) result }
    ensures spares { SparesInput (S.left source.old) (R.log ruler.old) (R.log ruler.new) }
    ensures replies { RepliesTo stats (K.written sink.old) (K.written sink.new) (R.log ruler.old)
        (R.log ruler.new) passes.old passes.new (S.left source.old) result }
    ensures asks { AsksOnce (S.left source.old) (S.left source.new) (S.asked source.old)
        (S.asked source.new) }
    ensures read { HasCauseOf (S.faults source.old) (S.faults source.new)
        (result ≡ Status.ReadFault) }
    ensures write { HasCauseOf (K.faults sink.old) (K.faults sink.new)
        (result ≡ Status.WriteFault) }
{
    let mut room = [0; PIECE];
    let mut reader = Reader::new(alloc);
    let mut progress = match start(
        alloc,
        stats,
        source,
        &mut room,
        &mut reader,
        sink,
        ruler,
        passes,
    ) {
        Ok(progress) => progress,
        Err(status) => return status,
    };
    loop {
        match next_line(source, &mut room, &mut reader) {
            Ok(Some(line)) => {
                match handle_line(alloc, stats, &mut progress, &line, sink, ruler, passes) {
                    Ok(()) => (),
                    Err(status) => return status,
                }
            }
            Ok(None) => return ended(progress.refused),
            Err(status) => return status,
        }
    }
}

/// How a run ends whose input was answered to its end.
pub(crate) fn ended(refused: bool) -> Status
    ensures { result ≡ ended refused }
{
    if refused {
        Status::SomeRefused
    } else {
        Status::Done
    }
}
