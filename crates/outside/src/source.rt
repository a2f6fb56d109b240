ghost use Rattle.std.specs.Prelude.{◌≡◌, ℕ, List, Option, IfOk, ◌<◌, ◌≤◌, length};
ghost use Rattle.outside.specs.Faults.{HasCause, one_more};
ghost use Rattle.outside.specs.Reading.{Reads, IsZeroAtEnd};

use thiserror::Error;

/// Reading failed. The source's count of faults rose.
#[derive(Clone, Copy, Debug, PartialEq, Eq, Error)]
#[error("reading failed")]
pub struct Failed;

/// Where bytes come from, a piece at a time.
pub trait Source {
    /// The bytes that are left, where it tells them.
    ghost left: { Self → Option (List ℕ) };

    /// How often it failed: a count that never falls, and stands still at 2^64 - 1.
    ghost faults: { Self → ℕ };

    /// How often it was asked: a count that rises by one with each call, and stands still at 2^64 - 1.
    ghost asked: { Self → ℕ };

    /// Reads the next bytes to the front of the room, and answers how many. For a room that is not empty, 0 is the end of input.
    /// `Failed` comes only where the count of faults rose in this call, and no byte is then taken.
    /// Each call counts as one more, whatever it answers.
    fn read_piece(&mut self, room: &mut [u8]) -> Result<usize, Failed>
        ensures within { IfOk result (λ n. n ≤ length room.new) }
        ensures bytes { Reads (left self.old) (left self.new) result room.new }
        ensures end { IfOk result (λ n. 0 < length room.new → IsZeroAtEnd (left self.old) n) }
        ensures cause { HasCause (faults self.old) (faults self.new) result }
        ensures asked { asked self.new ≡ one_more (asked self.old) };
}
