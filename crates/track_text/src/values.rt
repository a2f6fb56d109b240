//! Numbers with and without units, as the values of all properties have them.

ghost use Rattle.std.specs.Prelude.{◌≡◌, ◌*◌, ◌≤◌, false, unsigned_abs, IfSome, Some, None, if◌then◌else◌};
ghost use Rattle.std.specs.Option.{option_copied, option_map};
ghost use Rattle.lunit.specs.Decimals.{read_number, IsScale};
ghost use Rattle.track_text.specs.Values.{ends_in, before, measured, px_form, relative_form, in_px, in_em, in_rem, zero_of, em_or_zero, relative_of, other_length, length_in, percentage_of, factor_of, flex_of, integer_of};

use lunit::{Lu, NumberForm};
use style_types::Unit;

/// The part of a word before the unit; `None` exactly where it does not end so.
pub fn before<'a>(unit: &[u8], word: &'a [u8]) -> Option<&'a [u8]>
    ensures { option_copied result ≡
        (if ends_in unit.now word.now then Some (before unit.now word.now) else None) }
{
    word.strip_suffix(unit)
}

/// Whether the word ends in the unit.
pub fn has_unit(unit: &[u8], word: &[u8]) -> bool
    ensures { result ≡ ends_in unit.now word.now }
{
    word.ends_with(unit)
}

fn px_form(below_zero: bool) -> NumberForm
    ensures { result ≡ px_form below_zero }
{
    NumberForm {
        scale: 64,
        most: 1_048_576,
        below_zero,
    }
}

fn relative_form(below_zero: bool) -> NumberForm
    ensures { result ≡ relative_form below_zero }
{
    NumberForm {
        scale: 1_000_000,
        most: 10_000,
        below_zero,
    }
}

/// A length of px that the form allows.
fn units_of(form: NumberForm, text: &[u8]) -> Option<Lu>
    requires scale { IsScale form.scale }
    requires most { form.most * form.scale ≤ 67108864 }
    ensures { result ≡ read_number form text.now }
{
    let units = form.read(text)?;
    Some(Lu::of(units))
}

/// A length in px.
fn px_of(below_zero: bool, text: &[u8]) -> Option<(Lu, Unit)>
    ensures { result ≡ option_map in_px (read_number (px_form below_zero) text.now) }
{
    let px = units_of(px_form(below_zero), text)?;
    Some((px, Unit::Px))
}

/// The length of 0 that a number of value zero is.
fn zero_of(word: &[u8]) -> Option<(Lu, Unit)>
    ensures { result ≡ zero_of word.now }
{
    let px = units_of(NumberForm::ZEROS, word)?;
    Some((px, Unit::Px))
}

#[tactic(auto, unfolding(lunit::specs::Units::clamp))]
fn em_of(below_zero: bool, text: &[u8]) -> Option<(Lu, Unit)>
    ensures { result ≡ option_map in_em (read_number (relative_form below_zero) text.now) }
{
    let millionths = relative_form(below_zero).read(text)?;
    Some((Lu::of(0), Unit::Em(millionths)))
}

#[tactic(auto, unfolding(lunit::specs::Units::clamp))]
fn rem_of(below_zero: bool, text: &[u8]) -> Option<(Lu, Unit)>
    ensures { result ≡ option_map in_rem (read_number (relative_form below_zero) text.now) }
{
    let millionths = relative_form(below_zero).read(text)?;
    Some((Lu::of(0), Unit::Rem(millionths)))
}

/// The length with `rem` or `em`, or of value zero alone.
fn relative_of(below_zero: bool, word: &[u8]) -> Option<(Lu, Unit)>
    ensures { result ≡ relative_of below_zero word.now }
{
    match before(b"rem", word) {
        Some(number) => rem_of(below_zero, number),
        None => em_or_zero(below_zero, word),
    }
}

/// The length with `em`, or of value zero alone.
fn em_or_zero(below_zero: bool, word: &[u8]) -> Option<(Lu, Unit)>
    ensures { result ≡ em_or_zero below_zero word.now }
{
    match before(b"em", word) {
        Some(number) => em_of(below_zero, number),
        None => zero_of(word),
    }
}

/// The length without `px`, which may be relative where this says so.
fn other_length(relative: bool, below_zero: bool, word: &[u8]) -> Option<(Lu, Unit)>
    ensures { result ≡ other_length relative below_zero word.now }
{
    if relative {
        relative_of(below_zero, word)
    } else {
        zero_of(word)
    }
}

/// The length that the word is, as it stands in a declared value, and its unit (CSS Values 4, section 6): a number with
/// `px`, a number of value zero alone, or, where a length may be relative, a number with `em` or `rem`, which stands as 0.
pub fn length_in(relative: bool, below_zero: bool, word: &[u8]) -> Option<(Lu, Unit)>
    ensures { result ≡ length_in relative below_zero word.now }
{
    match before(b"px", word) {
        Some(number) => px_of(below_zero, number),
        None => other_length(relative, below_zero, word),
    }
}

/// The part of a number in thousandths.
fn thousandths(form: NumberForm, text: &[u8]) -> Option<u32>
    requires scale { IsScale form.scale }
    requires most { form.most * form.scale ≤ 10000000 }
    ensures { result ≡ option_map unsigned_abs (read_number form text.now) }
{
    let number = form.read(text)?;
    Some(number.unsigned_abs() as u32)
}

/// The percentage that the word is, in thousandths of a percent (CSS Values 4, section 5.5).
pub fn percentage_of(word: &[u8]) -> Option<u32>
    ensures { result ≡ percentage_of word.now }
{
    thousandths(NumberForm::PERCENTAGES, before(b"%", word)?)
}

/// The factor without a unit that the word is, in thousandths.
pub fn factor_of(word: &[u8]) -> Option<u32>
    ensures { result ≡ factor_of word.now }
{
    thousandths(NumberForm::FACTORS, word)
}

/// The factor with `fr` that the word is, in thousandths (CSS Grid 2, section 7.2.4).
pub fn flex_of(word: &[u8]) -> Option<u32>
    ensures { result ≡ flex_of word.now }
{
    thousandths(NumberForm::FACTORS, before(b"fr", word)?)
}

/// The integer that the word is (CSS Values 4, section 5.2).
pub fn integer_of(word: &[u8]) -> Option<i32>
    ensures value { result ≡ integer_of word.now }
    ensures bound { IfSome result (λ number. unsigned_abs number ≤ 1000000) }
{
    if word.contains(&b'.') {
        return None;
    }
    let number = NumberForm::INTEGERS.read(word)?;
    Some(number as i32)
}
