//! One track under a fraction.

ghost use Rattle.std.specs.Prelude.{◌≡◌, ◌<◌, ◌^◌};
ghost use Rattle.part_rules.specs.Fractions.{factor_of, falls_short, held, is_flexible, settled, takes, weight_in, with_part};

use lunit::{Lu, Wide};
use part_rules::{FrRow, Fraction};

/// The factor of a flexible track, in thousandths, and 0 for another.
pub fn factor(row: &FrRow) -> u64
    ensures value { result ≡ factor_of row.now }
    ensures range { result < 2 ^ 32 }
{
    match row.factor {
        Some(factor) => u64::from(factor),
        None => 0,
    }
}

/// Whether the fraction gives a flexible track less than its base size.
pub fn falls_short(fraction: &Fraction, row: &FrRow) -> bool
    ensures { result ≡ falls_short fraction.now.space fraction.now.weight row.now }
{
    row.factor.is_some()
        && fraction.space.wide().times(factor(row)) < row.base.wide().times(fraction.weight)
}

/// Whether a track is flexible and does not fall short of its base size.
pub fn is_left(fraction: &Fraction, row: &FrRow) -> bool
    ensures { result ≡ is_flexible (settled fraction.now.space fraction.now.weight row.now) }
{
    row.factor.is_some() && !falls_short(fraction, row)
}

/// The factor of a track that does not fall short, and 0 for another.
pub fn left_factor(fraction: &Fraction, row: &FrRow) -> u64
    ensures value { result ≡ factor_of (settled fraction.now.space fraction.now.weight row.now) }
    ensures range { result < 2 ^ 32 }
{
    if falls_short(fraction, row) {
        0
    } else {
        factor(row)
    }
}

#[tactic(auto, unfolding(lunit::specs::Units::clamp))]
/// The base size of a track that is not flexible, or falls short, and 0 for another.
pub fn held(fraction: &Fraction, row: &FrRow) -> Lu
    ensures { result ≡ held (settled fraction.now.space fraction.now.weight row.now) }
{
    if is_left(fraction, row) {
        Lu::of(0)
    } else {
        row.base
    }
}

/// Whether the fraction gives a flexible track at least its base size.
pub fn takes(fraction: &Fraction, row: &FrRow) -> bool
    ensures { result ≡ takes fraction.now row.now }
{
    row.factor.is_some()
        && row.base.wide().times(fraction.weight) <= fraction.space.wide().times(factor(row))
}

/// The factor of a track that takes part, and 0 for another.
pub fn weight_in(fraction: &Fraction, row: &FrRow) -> u64
    ensures value { result ≡ weight_in fraction.now row.now }
    ensures range { result < 2 ^ 32 }
{
    if takes(fraction, row) { factor(row) } else { 0 }
}

/// The track with its part as its base size, where it takes part.
pub fn with_part(fraction: &Fraction, row: &FrRow, part: Wide) -> FrRow
    ensures { result ≡ with_part fraction.now row.now part }
{
    let base = if takes(fraction, row) {
        part.clamp()
    } else {
        row.base
    };
    FrRow {
        base,
        factor: row.factor,
    }
}
