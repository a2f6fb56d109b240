//! Sizes: keywords, percentages and lengths, and lists of them.

ghost use Rattle.std.specs.Prelude.{◌≡◌, IfOk};
ghost use Rattle.std.specs.Option.{option_map};
ghost use Rattle.value_text.specs.Sizes.{keyword_size, plain_size, length_size, measured_size, size_of, units_of, size_value, size_first, size_or, one_size, second_after, two_sizes, left_after, bottom_after, right_after, side_sizes};

use lunit::{Lu, NoMemory};
use std::alloc::Global;
use style_types::{DeclaredValue, Size, Unit, UnitList, Value};
use track_text::{Words, has_unit, length_in, percentage_of};

/// A size, and the unit of its length where it is one.
#[derive(Clone, Copy, Debug, PartialEq, Eq)]
pub struct Measured {
    /// The size; a relative length stands as 0.
    pub size: Size,
    /// The unit.
    pub unit: Option<Unit>,
}

/// The sizes of the top, right, bottom and left side.
pub(crate) type Sides = (Measured, Measured, Measured, Measured);

/// Which sizes a property takes beside lengths.
#[derive(Clone, Copy, Debug, PartialEq, Eq)]
pub struct SizeForm {
    /// `auto`.
    pub auto: bool,
    /// `none`.
    pub none: bool,
    /// `normal`.
    pub normal: bool,
    /// `content`.
    pub content: bool,
    /// Percentages.
    pub percent: bool,
    /// Lengths below zero.
    pub below_zero: bool,
}

/// The keyword that the form has.
fn keyword_size(form: SizeForm, word: &[u8]) -> Option<Size>
    ensures { result ≡ keyword_size form word.now }
{
    if form.auto && word == b"auto".as_slice() {
        return Some(Size::Auto);
    }
    if form.none && word == b"none".as_slice() {
        return Some(Size::Absent);
    }
    if form.normal && word == b"normal".as_slice() {
        return Some(Size::Normal);
    }
    if form.content && word == b"content".as_slice() {
        return Some(Size::Content);
    }
    None
}

pub(crate) fn plain_size(size: Size) -> Measured
    ensures { result ≡ plain_size size }
{
    Measured { size, unit: None }
}

fn length_size(length: (Lu, Unit)) -> Measured
    ensures { result ≡ length_size length }
{
    let (px, unit) = length;
    Measured {
        size: Size::Length(px),
        unit: Some(unit),
    }
}

/// A percentage where the form has these, or a length.
fn measured_size(relative: bool, form: SizeForm, word: &[u8]) -> Option<Measured>
    ensures { result ≡ measured_size relative form word.now }
{
    if form.percent && has_unit(b"%", word) {
        Some(plain_size(Size::Percent(percentage_of(word)?)))
    } else {
        Some(length_size(length_in(relative, form.below_zero, word)?))
    }
}

#[tactic(auto, unfolding(crate::specs::Sizes::size_of))]
/// The size that the word is in this form, with the unit of its length.
pub(crate) fn size_of(relative: bool, form: SizeForm, word: &[u8]) -> Option<Measured>
    ensures { result ≡ size_of relative form word.now }
{
    match keyword_size(form, word) {
        Some(size) => Some(plain_size(size)),
        None => measured_size(relative, form, word),
    }
}

fn units_of(alloc: Global, unit: Option<Unit>) -> Result<UnitList, NoMemory>
    ensures { IfOk result (λ units. units ≡ units_of unit) }
{
    let mut units = UnitList::new(alloc);
    if let Some(unit) = unit {
        units.push(unit)?;
    }
    Ok(units)
}

/// The size with its unit as a declared value.
pub(crate) fn size_value(
    alloc: Global,
    size: Size,
    unit: Option<Unit>,
) -> Result<DeclaredValue, NoMemory>
    ensures { IfOk result (λ value. value ≡ size_value (record { size = size; unit = unit })) }
{
    Ok(DeclaredValue {
        value: Value::Size(size),
        units: units_of(alloc, unit)?,
    })
}

/// The first of the words as a size, and the words after it.
fn size_first<'a>(relative: bool, form: SizeForm, words: Words<'a>) -> Option<(Measured, Words<'a>)>
    ensures { result ≡ size_first relative form words.entry }
{
    let (word, words) = words.first()?;
    let measured = size_of(relative, form, word)?;
    Some((measured, words))
}

/// The first of the words as a size, and the words after it; the size `default` where no words are
/// left.
fn size_or<'a>(
    relative: bool,
    form: SizeForm,
    default: &Measured,
    words: Words<'a>,
) -> Option<(Measured, Words<'a>)>
    ensures { result ≡ size_or relative form default.now words.entry }
{
    if words.ended() {
        return Some((*default, words));
    }
    size_first(relative, form, words)
}

/// One size alone.
pub(crate) fn one_size(relative: bool, form: SizeForm, words: Words) -> Option<Measured>
    ensures { result ≡ one_size relative form words.entry }
{
    let (size, words) = size_first(relative, form, words)?;
    if words.ended() { Some(size) } else { None }
}

fn second_after(
    relative: bool,
    form: SizeForm,
    first: Measured,
    words: Words,
) -> Option<(Measured, Measured)>
    ensures { result ≡ second_after relative form first words.entry }
{
    let (second, words) = size_or(relative, form, &first, words)?;
    if words.ended() {
        Some((first, second))
    } else {
        None
    }
}

/// One size or two: the second is the first where it is missing.
pub(crate) fn two_sizes(
    relative: bool,
    form: SizeForm,
    words: Words,
) -> Option<(Measured, Measured)>
    ensures { result ≡ two_sizes relative form words.entry }
{
    let (first, words) = size_first(relative, form, words)?;
    second_after(relative, form, first, words)
}

fn left_after(
    relative: bool,
    form: SizeForm,
    top: Measured,
    right: Measured,
    bottom: Measured,
    words: Words,
) -> Option<Sides>
    ensures { result ≡ left_after relative form top right bottom words.entry }
{
    let (left, words) = size_or(relative, form, &right, words)?;
    if words.ended() {
        Some((top, right, bottom, left))
    } else {
        None
    }
}

fn bottom_after(
    relative: bool,
    form: SizeForm,
    top: Measured,
    right: Measured,
    words: Words,
) -> Option<Sides>
    ensures { result ≡ bottom_after relative form top right words.entry }
{
    let (bottom, words) = size_or(relative, form, &top, words)?;
    left_after(relative, form, top, right, bottom, words)
}

fn right_after(relative: bool, form: SizeForm, top: Measured, words: Words) -> Option<Sides>
    ensures { result ≡ right_after relative form top words.entry }
{
    let (right, words) = size_or(relative, form, &top, words)?;
    bottom_after(relative, form, top, right, words)
}

/// One size to four, for the top, right, bottom and left side (CSS 2, section 8.3).
pub(crate) fn side_sizes(relative: bool, form: SizeForm, words: Words) -> Option<Sides>
    ensures { result ≡ side_sizes relative form words.entry }
{
    let (top, words) = size_first(relative, form, words)?;
    right_after(relative, form, top, words)
}
