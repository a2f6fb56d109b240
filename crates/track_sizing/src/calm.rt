//! Tracks that the steps for groups surely leave as they are where no item asks for more, and those of which they change no size.

ghost use Rattle.std.specs.Prelude.{◌≡◌, true};
ghost use Rattle.track_sizing.specs.Calm.{AreCalm, AreSteady, IsCalm, IsSteady};

use crate::kinds::flexible;
use crate::row::Row;

/// Whether a track is not flexible and surely stays as it is in a step that gives it nothing.
fn is_calm(row: &Row) -> bool
    ensures { result ≡ true → IsCalm row.now }
{
    if flexible(row) {
        return false;
    }
    row.is_sure()
}

#[tactic(auto, using(crate::proofs::Unchanged::rows_calm))]
/// Whether all tracks are so.
pub fn are_calm(rows: &[Row]) -> bool
    ensures { result ≡ true → AreCalm rows.now }
{
    for row in rows {
        if !is_calm(row) {
            return false;
        }
    }
    true
}

#[tactic(auto, using(crate::proofs::Steady::row_steady))]
/// Whether a track is not flexible and surely keeps its base size and its growth limit in a step that gives it nothing, where a
/// growth limit without end becomes the base size.
fn is_steady(row: &Row) -> bool
    ensures { result ≡ true → IsSteady row.now }
{
    if flexible(row) {
        return false;
    }
    if !row.is_unplanned() {
        return false;
    }
    let base = row.base();
    let limit = row.limit_or_base();
    base.units() <= limit.units()
}

#[tactic(auto, using(crate::proofs::Steady::rows_steady))]
/// Whether it is so of all tracks.
pub fn are_steady(rows: &[Row]) -> bool
    ensures { result ≡ true → AreSteady rows.now }
{
    for row in rows {
        if !is_steady(row) {
            return false;
        }
    }
    true
}
