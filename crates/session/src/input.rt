ghost use Rattle.std.specs.Prelude.{◌≡◌, ◌≤◌, ◌<◌, ◌+◌, ℕ, List, Option, Ok, Err, false, true, length, OnOk, IfOk, IfSome};
ghost use Rattle.outside.specs.Faults.{HasCauseOf};
ghost use Rattle.text_scan.specs.declared.line.Line.{Line};
ghost use Rattle.text_scan.specs.Stream.{empty_stream, is_line_due};
ghost use Rattle.session.specs.Input.{MeetsPiece, HasGiven, ReadsOn, GivesNext, AsksOn, AsksSoFar, to_go, limit};

use crate::Status;
use lunit::NoMemory;
use outside::Source;
use std::alloc::Global;
use text_scan::{Line, Lines};

/// The most bytes that an input has.
const LIMIT: usize = 1 << 26;

/// The most bytes that are asked for at once.
pub(crate) const PIECE: usize = 65_536;

/// The lines of an input, as far as it was read.
#[derive(Drop)]
pub(crate) struct Reader {
    lines: Lines,
    count: usize,
    ended: bool,
}

impl Reader {
    pub(crate) fn new(alloc: Global) -> Reader
        ensures { (result.lines ≡ empty_stream) × (result.count ≡ 0) × (result.ended ≡ false) }
    {
        Reader {
            lines: Lines::new(alloc),
            count: 0,
            ended: false,
        }
    }
}

/// Takes the next piece of the input, and answers its length: 0 at the end. No piece crosses the
/// limit, past which one byte is asked for. Looks first at a fault of reading, then at the limit.
fn take_piece<S: Source>(
    source: &mut S,
    room: &mut [u8; PIECE],
    count: usize,
    lines: &mut Lines,
) -> Result<usize, Status>
    requires count { lines.old.fed ≡ count }
    requires within { count ≤ limit }
    ensures piece { MeetsPiece (S.left source.old) (S.left source.new) lines.old lines.new result }
    ensures cause { HasCauseOf (S.faults source.old) (S.faults source.new)
        (result ≡ Err Status.ReadFault) }
    ensures asked { S.asked source.new ≤ S.asked source.old + 1 }
{
    let most = PIECE.min((LIMIT - count).max(1));
    let piece = &mut room[..most];
    let taken = source.read_piece(piece)?;
    if count + taken > LIMIT {
        return Err(Status::InputLimit);
    }
    lines.feed(&piece[..taken])?;
    Ok(taken)
}

#[tactic(auto, using(crate::proofs::Pieces::going_on))]
/// Takes one piece of the input, where no line of it is whole and its end was not seen.
fn read_on<S: Source>(
    source: &mut S,
    room: &mut [u8; PIECE],
    reader: &mut Reader,
) -> Result<(), Status>
    requires count { reader.old.lines.fed ≡ reader.old.count }
    requires within { reader.old.count ≤ limit }
    requires open { reader.old.ended ≡ false }
    requires none { is_line_due false reader.old.lines.held ≡ false }
    ensures on { (before : Option (List ℕ)) (given : List Line) →
        HasGiven before (S.left source.old) given reader.old.lines false →
        ReadsOn before (S.left source.new) given reader.new.lines reader.new.ended result }
    ensures nearer { OnOk result
        (to_go reader.new.count reader.new.ended < to_go reader.old.count reader.old.ended) }
    ensures count { OnOk result (reader.new.lines.fed ≡ reader.new.count) }
    ensures within { OnOk result (reader.new.count ≤ limit) }
    ensures cause { HasCauseOf (S.faults source.old) (S.faults source.new)
        (result ≡ Err Status.ReadFault) }
    ensures asks { (before : Option (List ℕ)) (first : ℕ) →
        AsksSoFar before (S.left source.old) first (S.asked source.old) reader.old.count false →
        AsksOn before (S.left source.new) first (S.asked source.new)
        reader.new.count reader.new.ended result }
{
    match take_piece(source, room, reader.count, &mut reader.lines) {
        Ok(taken) => {
            if taken == 0 {
                reader.ended = true;
                return Ok(());
            }
            reader.count += taken;
            Ok(())
        }
        Err(status) => Err(status),
    }
}

#[tactic(auto, using(crate::proofs::Pieces::giving))]
/// Takes the next line out, and reads on only where none is whole. `None` is the end of the input.
pub(crate) fn next_line<S: Source>(
    source: &mut S,
    room: &mut [u8; PIECE],
    reader: &mut Reader,
) -> Result<Option<Line>, Status>
    requires count { reader.old.lines.fed ≡ reader.old.count }
    requires within { reader.old.count ≤ limit }
    ensures next { (before : Option (List ℕ)) (given : List Line) →
        HasGiven before (S.left source.old) given reader.old.lines reader.old.ended →
        GivesNext before (S.left source.new) given reader.new.lines reader.new.ended result }
    ensures count { OnOk result (reader.new.lines.fed ≡ reader.new.count) }
    ensures within { OnOk result (reader.new.count ≤ limit) }
    ensures short { IfOk result (λ found. IfSome found (λ line. length line.bytes ≤ 65536)) }
    ensures cause { HasCauseOf (S.faults source.old) (S.faults source.new)
        (result ≡ Err Status.ReadFault) }
    ensures asks { (before : Option (List ℕ)) (first : ℕ) →
        AsksSoFar before (S.left source.old) first (S.asked source.old)
        reader.old.count reader.old.ended →
        AsksOn before (S.left source.new) first (S.asked source.new)
        reader.new.count reader.new.ended result }
{
    loop {
        match reader.lines.take(reader.ended) {
            Ok(Some(line)) => return Ok(Some(line)),
            Ok(None) => {
                if reader.ended {
                    return Ok(None);
                }
            }
            Err(NoMemory) => return Err(Status::NoMemory),
        }
        match read_on(source, room, reader) {
            Ok(()) => (),
            Err(status) => return Err(status),
        }
    }
}
