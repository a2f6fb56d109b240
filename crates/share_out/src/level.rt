//! The level to which rows are filled.

ghost use Rattle.std.specs.Prelude.{◌≡◌, ◌≤◌, ◌<◌, ◌^◌, ◌+◌, map};
ghost use Rattle.part_rules.specs.Sharing.{above, used, filled_to};

use crate::row::{end_of, filled, is_above, up_to};
use part_rules::Share;

/// Rows that are filled to a level.
#[derive(Clone, Copy)]
pub struct Tally {
    /// The units that they have.
    pub used: u64,
    /// How many of them take more.
    pub above: u64,
}

/// What the rows have where they are filled to the level.
pub fn tally_at(level: u64, rows: &[Share]) -> Tally
    requires { used level rows.now < 2 ^ 64 }
    ensures used { result.used ≡ used level rows.now }
    ensures above { result.above ≡ above level rows.now }
{
    let mut used = 0;
    let mut above = 0;
    for row in rows {
        let end = end_of(row.room);
        used += up_to(level, end);
        if is_above(level, end) {
            above += 1;
        }
    }
    Tally { used, above }
}

#[tactic(auto, using(std::proofs::lemmas::List::Edits::map_over_more))]
/// Fills the rows to the level.
pub fn fill(rows: &mut [Share], level: u64)
    requires { level ≤ 2 ^ 30 }
    ensures { rows.new ≡ map (filled_to level) rows.old }
{
    for row in rows.iter_mut() {
        *row = filled(*row, level);
    }
}
