ghost use Rattle.std.specs.Prelude.{◌≡◌, ℕ, Bool, false, Some, IfOk, IfErr};
ghost use Rattle.outside.specs.Faults.{HasCauseOf};
ghost use Rattle.command_words.specs.Commands.{HasNodes};
ghost use Rattle.command_words.specs.declared.Command.TheVariants.{Layout, Make, Write};
ghost use Rattle.session.specs.Input.{AsksOnce};
ghost use Rattle.session.specs.Made.{HasMade};
ghost use Rattle.session.specs.Runs.{HasRun, HasOutput};
ghost use Rattle.session.specs.Replies.{KeepsBounds};
ghost use Rattle.session.specs.Words.{asked, is_served, IsUnserved};
ghost use Rattle.session.specs.Writing.{HasWritten};

use crate::Status;
use crate::made::make;
use crate::serve::serve;
use crate::writing::write_document;
use command_words::{Command, WordsError, read_command};
use lunit::Steps;
use outside::{Ruler, Sink, Source};
use std::alloc::Global;
use std::sync::ledger::Ledger;

/// A run under the word `layout`, with what follows of all bytes of the input.
fn run_layout<S: Source, K: Sink, R: Ruler, L: Ledger>(
    alloc: Global,
    stats: bool,
    source: &mut S,
    sink: &mut K,
    ruler: &mut R,
    passes: &mut Steps<L>,
) -> Status
    ensures run { HasRun stats (S.left source.old) (S.left source.new) (K.written sink.old)
        (K.written sink.new) (R.log ruler.old) (R.log ruler.new) (S.faults source.old)
        (S.faults source.new) (K.faults sink.old) (K.faults sink.new) result }
    ensures read { HasCauseOf (S.faults source.old) (S.faults source.new)
        (result ≡ Status.ReadFault) }
    ensures write { HasCauseOf (K.faults sink.old) (K.faults sink.new)
        (result ≡ Status.WriteFault) }
    ensures asked { AsksOnce (S.left source.old) (S.left source.new) (S.asked source.old)
        (S.asked source.new) }
    ensures bounds { KeepsBounds stats (S.left source.old) (K.written sink.old)
        (K.written sink.new) (R.log ruler.old) (R.log ruler.new) passes.old passes.new result }
{
    serve(alloc, stats, source, sink, ruler, passes)
}

/// A run under the word `write`, with what follows of all bytes of the input.
fn run_write<S: Source, K: Sink>(alloc: Global, source: &mut S, sink: &mut K) -> Status
    ensures written { HasWritten (S.left source.old) (S.left source.new) (K.written sink.old)
        (K.written sink.new) (S.faults source.old) (S.faults source.new) (K.faults sink.old)
        (K.faults sink.new) result }
    ensures read { HasCauseOf (S.faults source.old) (S.faults source.new)
        (result ≡ Status.ReadFault) }
    ensures write { HasCauseOf (K.faults sink.old) (K.faults sink.new)
        (result ≡ Status.WriteFault) }
    ensures asked { AsksOnce (S.left source.old) (S.left source.new) (S.asked source.old)
        (S.asked source.new) }
{
    write_document(alloc, source, sink)
}

/// The command that the words are, or how the run ends whose words are none.
fn served(alloc: Global, words: &[String]) -> Result<Command, Status>
    ensures command { IfOk result (λ command. asked words.now ≡ Some command) }
    ensures nodes { IfOk result HasNodes }
    ensures bad { IfErr result
        (λ status. status ≡ Status.BadWords → is_served (asked words.now) ≡ false) }
    ensures stops { IfErr result IsUnserved }
{
    match read_command(alloc, words) {
        Ok(command) => Ok(command),
        Err(WordsError::BadWords) => Err(Status::BadWords),
        Err(WordsError::NoMemory) => Err(Status::NoMemory),
    }
}

/// The top call. Under the word `layout` it reads a document and the script of edits that follows a
/// line `---`. It writes the boxes of the document, and then for each line of the script, numbered
/// from 1, the boxes of the edited document or the line of the refusal; a refused edit changes
/// nothing. A line `undo N` takes back the last N edits that were not refused, and `redo N` makes
/// the last N again that were taken back; any other edit ends what could be made again. For a line
/// `hit X Y` it writes the name of the last box that contains the point, or that none does, and
/// lays out nothing. Each line is answered as soon as it is whole, before more is read.
///
/// Under `layout --stats` a line `stats M A` follows each layout: M events of measuring after its
/// begin, and A answers that it kept, each of these up to 2^64 - 1.
///
/// Under `make --seed N --nodes M` nothing is read. It lays out the document of M nodes that is
/// drawn from N, and again after each of eight edits that are drawn too, and writes for each layout
/// a line `made k C S`: k counts from 0, C is the number of boxes, and S the sum of x + 3y + 5 *
/// width + 7 * height in units of 1/64 px over all of them, modulo 2^64 and at least 0.
///
/// Under `write` it takes the edits of the script, and writes the last document in its canonical form
/// once the input has ended. It lays out nothing and measures nothing; refused lines and hits write
/// nothing.
///
/// - `BadWords` exactly where the words are others, or want of memory; then nothing is read,
///   written or logged.
/// - `Done` where the input, of at most 2^26 bytes, holds a document and no edit was refused: the
///   input was read to its end. Under `make` where all nine lines were written.
/// - `TooLong` under `write`, where the canonical line of a node has more than 65,536 bytes: nothing is
///   written. It stands before `SomeRefused` and `Done`.
/// - `SomeRefused` where at least one edit was refused, else as `Done`.
/// - `BadDocument` where the text before the line `---`, or all of it, has a fault: the line
///   `refused 0 L:C name` of its first fault is written, and no more is read.
/// - `InputLimit` where the input has more than 2^26 bytes, unless a line `---` is whole in the
///   first 2^26 and the text before it has a fault. What was written for the lines that are whole
///   in these stands.
/// - `ReadFault` only where the source's count of faults rose in this call: what was written for
///   the whole lines stands.
/// - `WriteFault` only where the sink's count of faults rose in this call: a prefix is written.
/// - `NoMemory` at want of memory: a prefix is written, or nothing.
///
/// The ruler is told the begin of each layout that is made, with its number, and then measures
/// leaves of its document: each leaf that is the child of a grid at the content width of its box,
/// where it is the first layout or the edit touches the leaf. `passes` counts the passes of track
/// sizing and of flex lengths, at most four for each answer that is kept.
///
/// The source is asked at most once for each byte that it gives and once more, and at most
/// 2^26 + 1 times, as it counts them: each piece but the last has a byte.
pub fn run<S: Source, K: Sink, R: Ruler, L: Ledger>(
    alloc: Global,
    words: Vec<String>,
    source: &mut S,
    sink: &mut K,
    ruler: &mut R,
    passes: &mut Steps<L>,
) -> Status
    // Where the words are no command, nothing is done.
    ensures words { result ≡ Status.BadWords → is_served (asked words.items) ≡ false }
    ensures unserved { is_served (asked words.items) ≡ false →
        IsUnserved result × (source.new ≡ source.old) × (sink.new ≡ sink.old) ×
        (ruler.new ≡ ruler.old) }
    // Under `layout`, with counts or without: what was taken, written and logged, by the answer, and
    // what follows of it for all bytes of the source.
    ensures run { (stats : Bool) → asked words.items ≡ Some (Layout stats) →
        HasRun stats (S.left source.old) (S.left source.new) (K.written sink.old)
        (K.written sink.new) (R.log ruler.old) (R.log ruler.new) (S.faults source.old)
        (S.faults source.new) (K.faults sink.old) (K.faults sink.new) result }
    // Without counts: what is written at every exit is a prefix of the output of the source's bytes.
    // Where these are not too many and no count rose, it is all of it, or memory was wanting.
    // `headline`: the boxes written are those of the document that the source's bytes hold, and then,
    // for each edit line, those of the edited document or the line of the refusal.
    ensures output { asked words.items ≡ Some (Layout false) →
        HasOutput (S.left source.old) (K.written sink.old) (K.written sink.new)
        (S.faults source.old) (S.faults source.new) (K.faults sink.old) (K.faults sink.new)
        result }
    // What was measured, kept and sized, with counts or without. `spares`: no leaf was measured
    // again at a width unless an edit reached it or sixteen other widths followed.
    ensures bounds { (stats : Bool) → asked words.items ≡ Some (Layout stats) →
        KeepsBounds stats (S.left source.old) (K.written sink.old) (K.written sink.new)
        (R.log ruler.old) (R.log ruler.new) passes.old passes.new result }
    // Under `make` nothing is read. At every exit what was written is a prefix of the nine lines,
    // and with `Done` it is all of them.
    ensures made { (seed nodes : ℕ) → asked words.items ≡ Some (Make seed nodes) →
        (source.new ≡ source.old) ×
        HasMade seed nodes (K.written sink.old) (K.written sink.new) (R.log ruler.old)
        (R.log ruler.new) passes.old passes.new (K.faults sink.old) (K.faults sink.new)
        result }
    // Under `write` nothing is laid out, measured or counted, and what is written is the canonical
    // text of the last document, or the line of the document's refusal.
    ensures written { asked words.items ≡ Some Write →
        HasWritten (S.left source.old) (S.left source.new) (K.written sink.old) (K.written sink.new)
        (S.faults source.old) (S.faults source.new) (K.faults sink.old) (K.faults sink.new) result ×
        ((ruler.new ≡ ruler.old) × (passes.new ≡ passes.old)) }
    ensures read { HasCauseOf (S.faults source.old) (S.faults source.new)
        (result ≡ Status.ReadFault) }
    ensures write { HasCauseOf (K.faults sink.old) (K.faults sink.new)
        (result ≡ Status.WriteFault) }
    // How often the source was asked, at every exit: for each byte that it gave, and once more.
    ensures asked { AsksOnce (S.left source.old) (S.left source.new) (S.asked source.old)
        (S.asked source.new) }
{
    match served(alloc, words.as_slice()) {
        Ok(Command::Layout { stats }) => run_layout(alloc, stats, source, sink, ruler, passes),
        Ok(Command::Make { seed, nodes }) => make(alloc, seed, nodes as usize, sink, ruler, passes),
        Ok(Command::Write) => run_write(alloc, source, sink),
        Err(status) => status,
    }
}
