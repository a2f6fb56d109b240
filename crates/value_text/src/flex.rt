//! The value of `flex` (CSS Flexbox 1, section 7.1).

ghost use Rattle.std.specs.Prelude.{◌≡◌};
ghost use Rattle.track_text.specs.Values.{factor_of};
ghost use Rattle.value_text.specs.FlexText.{flex, no_basis, basis_of, with_basis, after_shrink, shrink_or_basis, after_grow, grow_or_basis, factors_of, flex_of};

use crate::form::BASIS;
use crate::size::{Measured, plain_size, size_of};
use lunit::Lu;
use style_types::{Size, Unit};
use track_text::{Words, factor_of};

/// The parts of `flex`.
#[derive(Clone, Copy, Debug, PartialEq, Eq)]
pub struct Flex {
    /// In thousandths.
    pub grow: u32,
    /// In thousandths.
    pub shrink: u32,
    /// The basis.
    pub basis: Measured,
}

fn make_flex(grow: u32, shrink: u32, basis: Measured) -> Flex
    ensures { result ≡ flex grow shrink basis }
{
    Flex {
        grow,
        shrink,
        basis,
    }
}

#[tactic(auto, unfolding(lunit::specs::Units::clamp))]
/// The basis where factors stand alone.
fn no_basis() -> Measured
    ensures { result ≡ no_basis }
{
    Measured {
        size: Size::Length(Lu::of(0)),
        unit: Some(Unit::Px),
    }
}

fn basis_of(relative: bool, word: &[u8]) -> Option<Measured>
    ensures { result ≡ basis_of relative word.now }
{
    size_of(relative, BASIS, word)
}

/// These factors with a basis, after which no words are left.
fn with_basis(relative: bool, grow: u32, shrink: u32, word: &[u8], words: Words) -> Option<Flex>
    ensures { result ≡ with_basis relative grow shrink word.now words.entry }
{
    let basis = basis_of(relative, word)?;
    if words.ended() {
        Some(make_flex(grow, shrink, basis))
    } else {
        None
    }
}

/// After two factors: nothing or a basis.
fn after_shrink(relative: bool, grow: u32, shrink: u32, words: Words) -> Option<Flex>
    ensures { result ≡ after_shrink relative grow shrink words.entry }
{
    match words.first() {
        None => Some(make_flex(grow, shrink, no_basis())),
        Some((word, words)) => with_basis(relative, grow, shrink, word, words),
    }
}

/// A second factor and what is after it, or a basis.
fn shrink_or_basis(relative: bool, grow: u32, word: &[u8], words: Words) -> Option<Flex>
    ensures { result ≡ shrink_or_basis relative grow (factor_of word.now) word.now words.entry }
{
    match factor_of(word) {
        Some(shrink) => after_shrink(relative, grow, shrink, words),
        None => with_basis(relative, grow, 1000, word, words),
    }
}

/// After one factor: nothing, a second factor or a basis.
fn after_grow(relative: bool, grow: u32, words: Words) -> Option<Flex>
    ensures { result ≡ after_grow relative grow words.entry }
{
    match words.first() {
        None => Some(make_flex(grow, 1000, no_basis())),
        Some((word, words)) => shrink_or_basis(relative, grow, word, words),
    }
}

/// A first factor and what is after it, or a basis alone.
fn grow_or_basis(relative: bool, word: &[u8], words: Words) -> Option<Flex>
    ensures { result ≡ grow_or_basis relative (factor_of word.now) word.now words.entry }
{
    match factor_of(word) {
        Some(grow) => after_grow(relative, grow, words),
        None => with_basis(relative, 1000, 1000, word, words),
    }
}

fn factors_of(relative: bool, words: Words) -> Option<Flex>
    ensures { result ≡ factors_of relative words.entry }
{
    let (word, words) = words.first()?;
    grow_or_basis(relative, word, words)
}

/// The value of `flex`: `none`, or one or two factors and perhaps a basis, or a basis alone.
pub(crate) fn flex_of(relative: bool, words: Words) -> Option<Flex>
    ensures { result ≡ flex_of relative words.entry }
{
    if words.are(b"none") {
        return Some(make_flex(0, 0, plain_size(Size::Auto)));
    }
    factors_of(relative, words)
}
