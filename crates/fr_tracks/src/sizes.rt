//! The sizes that a fraction gives.

ghost use Rattle.std.specs.Prelude.{◌≡◌, ◌<◌};
ghost use Rattle.part_rules.specs.Fractions.{expanded};

use crate::row::{weight_in, with_part};
use lunit::Wide;
use part_rules::{FrRow, Fraction};

#[tactic(auto, using(crate::proofs::Expanded::parts))]
/// Gives each flexible track to which the fraction gives at least its base size its part as its base size; the others keep
/// theirs (CSS Grid 2, 12.7). With P the sum of the factors of the tracks that take part up to a track, it gets
/// floor(space * P / weight) less the same for the tracks before it (own rule), limited to the range of lengths.
///
/// The weight of the fraction is above 0. It may be below the sum of the factors.
pub fn expand(rows: &mut [FrRow], fraction: Fraction)
    requires { 0 < fraction.weight }
    ensures { rows.new ≡ expanded fraction rows.old }
{
    let mut product = Wide::of(0);
    let mut lower = Wide::of(0);
    for row in rows.iter_mut() {
        product = product + fraction.space.wide().times(weight_in(&fraction, row));
        let upper = product.floor_div(fraction.weight);
        *row = with_part(&fraction, row, upper - lower);
        lower = upper;
    }
}
