//! A space that is handed out to tracks (own rule).

ghost use Rattle.std.specs.Prelude.{◌≡◌, ◌≤ℤ◌, ◌-ℤ◌, length, map, pos};
ghost use Rattle.lunit.specs.Units.{top};
ghost use Rattle.part_rules.specs.Lists.{zipped};
ghost use Rattle.part_rules.specs.Sharing.{shares, unshared};
ghost use Rattle.part_rules.specs.Tracks.{incur};
ghost use Rattle.track_sizing.specs.Here.{AreBelow, AreFitting, incur_share, room_of, share_of};

use crate::numbers::is_nothing;
use crate::rooms::{Rooms, share};
use crate::row::Row;
use lunit::Lu;
use part_rules::Share;
use share_out::hand_out;

#[tactic(auto, using(crate::proofs::Loops::filling))]
/// Sets the tracks' rooms.
pub fn set_rooms(rooms: &Rooms, rows: &[Row], takers: &mut [Share])
    requires { length takers.old ≡ length rows.now }
    ensures { takers.new ≡ map (share_of rooms.now) rows.now }
{
    for (place, one) in takers.iter_mut().enumerate() {
        *one = share(rooms, &rows[place]);
    }
}

#[tactic(auto, using(crate::proofs::Loops::filling))]
/// Gives the tracks what they have got.
fn incur_shares(rows: &mut [Row], takers: &[Share])
    requires length { length takers.now ≡ length rows.old }
    requires fits { AreFitting rows.old takers.now }
    ensures { rows.new ≡ zipped incur_share rows.old takers.now }
{
    for (place, row) in rows.iter_mut().enumerate() {
        *row = row.incur(takers[place].got);
    }
}

#[tactic(auto, using(crate::proofs::Turns::turn_rows, crate::proofs::Turns::turn_left, crate::proofs::Idle::turn_idle))]
/// Hands the space out to the tracks in equal parts, as far as they have room, and answers what is left. Where there is no space,
/// they stay as they are.
pub fn hand_out_to(rooms: &Rooms, space: Lu, rows: &mut [Row], takers: &mut [Share]) -> Lu
    requires length { length takers.old ≡ length rows.old }
    requires some { pos 0 ≤ℤ space }
    requires below { AreBelow (top -ℤ space) rows.old }
    ensures rows { rows.new ≡
        zipped incur rows.old (shares space (map (room_of rooms.now) rows.old)) }
    ensures left { result ≡ unshared space (map (room_of rooms.now) rows.old) }
    ensures some { pos 0 ≤ℤ result }
    ensures below { AreBelow (top -ℤ result) rows.new }
{
    if is_nothing(space) {
        return space;
    }
    set_rooms(rooms, rows, takers);
    let left = hand_out(space, takers);
    incur_shares(rows, takers);
    left
}
