//! Calls of the readers and writers of std, made again where the system interrupted them.

ghost use Rattle.std.specs.Io.{ReadsAtMost, WritesAtMost};
ghost use Rattle.std.specs.Io.KnownBytes.{Keeps, ReadConsumes, WriteAppends};

use std::io::{self, ErrorKind, Read, Write};

/// How often in a row an interrupted call is made again.
const TRIES: u32 = 1000;

#[tactic(auto, using(crate::proofs::Retrying::later))]
/// The next bytes of a reader, at the front of the room. A read that the system interrupts takes
/// no byte, and is tried again, up to 1,000 times in a row.
pub(crate) fn read<R: Read>(reader: &mut R, room: &mut [u8]) -> io::Result<usize>
    ensures bound { ReadsAtMost result room.new }
    ensures bytes { ReadConsumes (R.remaining reader.old) (R.remaining reader.new) result room.new }
{
    for _ in 0..TRIES {
        match reader.read(room) {
            Ok(count) => return Ok(count),
            Err(error) if error.kind() == ErrorKind::Interrupted => {}
            Err(error) => return Err(error),
        }
    }
    reader.read(room)
}

#[tactic(auto, using(crate::proofs::Retrying::later))]
/// Hands the front of the piece to a writer. A write that the system interrupts takes no byte, and
/// is tried again, up to 1,000 times in a row.
pub(crate) fn write<W: Write>(writer: &mut W, piece: &[u8]) -> io::Result<usize>
    ensures bound { WritesAtMost result piece.now }
    ensures bytes { WriteAppends (W.contents writer.old) (W.contents writer.new) result piece.now }
{
    for _ in 0..TRIES {
        match writer.write(piece) {
            Ok(count) => return Ok(count),
            Err(error) if error.kind() == ErrorKind::Interrupted => {}
            Err(error) => return Err(error),
        }
    }
    writer.write(piece)
}

#[tactic(auto, using(crate::proofs::Retrying::later))]
/// Flushes a writer. A flush that the system interrupts is tried again, up to 1,000 times in a row.
pub(crate) fn flush<W: Write>(writer: &mut W) -> io::Result<()>
    ensures bytes { Keeps (W.contents writer.old) (W.contents writer.new) }
{
    for _ in 0..TRIES {
        match writer.flush() {
            Ok(()) => return Ok(()),
            Err(error) if error.kind() == ErrorKind::Interrupted => {}
            Err(error) => return Err(error),
        }
    }
    writer.flush()
}
