//! The tracks that the items of a group reach in a step: those that it affects and that some item spans. The rows of a hand-out,
//! which are free then, note them: a row with a room is that of a reached track.

ghost use Rattle.std.specs.Prelude.{◌≡◌, ◌<◌, ◌^◌, false, length, map, true};
ghost use Rattle.part_rules.specs.Lists.{zipped};
ghost use Rattle.part_rules.specs.declared.share.Share.{Share};
ghost use Rattle.track_sizing.specs.Kinds.{affected_of};
ghost use Rattle.track_sizing.specs.Placed.{AreIn, AreSet, IsIn};
ghost use Rattle.track_sizing.specs.Reached.{is_noted, is_reached_by, note_of, noted_by, noted_for};

use crate::distribute::place_of;
use crate::item::span_length;
use crate::kinds::{Affected, affects, some_affected};
use crate::row::Row;
use lunit::{Item, Lu, Wide};
use part_rules::Share;

#[tactic(auto, unfolding(lunit::specs::Units::clamp))]
/// A row that notes whether its track is reached.
fn note(reached: bool) -> Share
    ensures { result ≡ note_of reached }
{
    let room = if reached { Some(Lu::of(0)) } else { None };
    Share {
        room,
        got: Lu::of(0),
    }
}

/// Whether a row notes that its track is reached.
pub fn is_noted(row: &Share) -> bool
    ensures { result ≡ is_noted row.now }
{
    row.room.is_some()
}

#[tactic(auto, using(crate::proofs::Loops::changing))]
/// Notes no track.
fn note_none(notes: &mut [Share])
    ensures { notes.new ≡ map (λ (s : Share). note_of false) notes.old }
{
    for row in notes.iter_mut() {
        *row = note(false);
    }
}

/// The row of a track, with a note where the step affects the track.
fn noted(affected: &Affected, before: &Share, track: &Row) -> Share
    ensures { result ≡ noted_by (affected_of affected.now) before.now track.now }
{
    if affects(affected, track) {
        note(true)
    } else {
        Share {
            room: before.room,
            got: before.got,
        }
    }
}

#[tactic(auto, using(crate::proofs::Loops::zipping))]
/// Notes the affected ones of these tracks.
fn note_affected(affected: &Affected, rows: &[Row], notes: &mut [Share])
    requires { length notes.old ≡ length rows.now }
    ensures { notes.new ≡ zipped (noted_by (affected_of affected.now)) notes.old rows.now }
{
    for (place, row) in notes.iter_mut().enumerate() {
        *row = noted(affected, row, &rows[place]);
    }
}

/// Notes the tracks that an item reaches.
fn note_item(affected: &Affected, first: Wide, item: &Item, rows: &[Row], notes: &mut [Share])
    requires few { length rows.now < 2 ^ 32 }
    requires length { length notes.old ≡ length rows.now }
    requires set { AreSet first rows.now }
    requires item { IsIn first (length rows.now) item.now }
    ensures { notes.new ≡ noted_for affected.now rows.now notes.old item.now }
{
    let start = place_of(first, item);
    let tracks = span_length(item) as usize;
    let (_before, rest) = rows.split_at(start);
    let (mine, _behind) = rest.split_at(tracks);
    let (_front, left) = notes.split_at_mut(start);
    let (own, _back) = left.split_at_mut(tracks);
    note_affected(affected, mine, own);
}

#[tactic(auto, using(crate::proofs::Noted::notes))]
/// Notes the tracks that some item reaches, and no others.
pub fn note_reached(
    affected: &Affected,
    first: Wide,
    items: &[Item],
    rows: &[Row],
    notes: &mut [Share],
)
    requires few { length rows.now < 2 ^ 32 }
    requires length { length notes.old ≡ length rows.now }
    requires set { AreSet first rows.now }
    requires items { AreIn first (length rows.now) items.now }
    ensures { notes.new ≡ map (λ t. note_of (is_reached_by affected.now items.now t)) rows.now }
{
    note_none(notes);
    if !some_affected(affected, rows) {
        return;
    }
    for item in items {
        note_item(affected, first, item, rows, notes);
    }
}
