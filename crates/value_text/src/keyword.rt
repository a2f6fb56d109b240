//! Values of keywords: alignments, the flow of placement, and the others.

ghost use Rattle.std.specs.Prelude.{◌≡◌, None};
ghost use Rattle.std.specs.Option.{option_map};
ghost use Rattle.track_text.specs.Values.{integer_of, factor_of};
ghost use Rattle.value_text.specs.Keywords.{word_alone, either, scroll_of, axis_of, is_dense, one_flow, dense_flow, two_flows, flow_after, flow_of, position_of, space_of, space_in, or_position, mode_of, align, safe_of, guarded, align_after, align_of};

use style_types::{Align, AlignMode, Scroll};
use track_text::{Words, factor_of, integer_of};

/// Which keywords an alignment has beside `normal`, `stretch` and the positions.
#[derive(Clone, Copy, Debug, PartialEq, Eq)]
pub struct AlignForm {
    /// `auto`.
    pub auto: bool,
    /// `space-between`, `space-around` and `space-evenly`.
    pub spaces: bool,
}

/// One of two keywords: whether it is the second.
fn either(first: &[u8], second: &[u8], word: &[u8]) -> Option<bool>
    ensures { result ≡ either first.now second.now word.now }
{
    if word == first {
        return Some(false);
    }
    if word == second {
        return Some(true);
    }
    None
}

/// One of two keywords alone: whether it is the second.
pub(crate) fn either_alone(first: &[u8], second: &[u8], words: Words) -> Option<bool>
    ensures { result ≡ word_alone (either first.now second.now) words.entry }
{
    let (word, words) = words.first()?;
    if words.ended() {
        either(first, second, word)
    } else {
        None
    }
}

/// An integer alone.
pub(crate) fn integer_alone(words: Words) -> Option<i32>
    ensures { result ≡ word_alone integer_of words.entry }
{
    let (word, words) = words.first()?;
    if words.ended() {
        integer_of(word)
    } else {
        None
    }
}

/// A factor alone, in thousandths.
pub(crate) fn factor_alone(words: Words) -> Option<u32>
    ensures { result ≡ word_alone factor_of words.entry }
{
    let (word, words) = words.first()?;
    if words.ended() { factor_of(word) } else { None }
}

fn scroll_of(word: &[u8]) -> Option<Scroll>
    ensures { result ≡ scroll_of word.now }
{
    if word == b"visible".as_slice() {
        return Some(Scroll::Visible);
    }
    if word == b"clip".as_slice() {
        return Some(Scroll::Clip);
    }
    if word == b"hidden".as_slice() {
        return Some(Scroll::Hidden);
    }
    if word == b"scroll".as_slice() {
        return Some(Scroll::Scroll);
    }
    if word == b"auto".as_slice() {
        return Some(Scroll::Auto);
    }
    None
}

/// The value of `overflow`.
pub(crate) fn scroll_alone(words: Words) -> Option<Scroll>
    ensures { result ≡ word_alone scroll_of words.entry }
{
    let (word, words) = words.first()?;
    if words.ended() { scroll_of(word) } else { None }
}

fn axis_of(word: &[u8]) -> Option<bool>
    ensures { result ≡ axis_of word.now }
{
    either(b"row", b"column", word)
}

fn is_dense(word: &[u8]) -> bool
    ensures { result ≡ is_dense word.now }
{
    word == b"dense".as_slice()
}

fn one_flow(word: &[u8]) -> Option<(bool, bool)>
    ensures { result ≡ one_flow word.now }
{
    if is_dense(word) {
        return Some((false, true));
    }
    let column = axis_of(word)?;
    Some((column, false))
}

fn dense_flow(word: &[u8]) -> Option<(bool, bool)>
    ensures { result ≡ dense_flow word.now }
{
    let column = axis_of(word)?;
    Some((column, true))
}

fn two_flows(a: &[u8], b: &[u8]) -> Option<(bool, bool)>
    ensures { result ≡ two_flows a.now b.now }
{
    if is_dense(a) {
        return dense_flow(b);
    }
    if is_dense(b) {
        return dense_flow(a);
    }
    None
}

fn flow_after(a: &[u8], words: Words) -> Option<(bool, bool)>
    ensures { result ≡ flow_after a.now words.entry }
{
    match words.first() {
        None => one_flow(a),
        Some((b, words)) => { if words.ended() { two_flows(a, b) } else { None } }
    }
}

/// The value of `grid-auto-flow`: whether it goes by columns, and whether it is dense.
pub(crate) fn flow_of(words: Words) -> Option<(bool, bool)>
    ensures { result ≡ flow_of words.entry }
{
    let (word, words) = words.first()?;
    flow_after(word, words)
}

fn position_of(word: &[u8]) -> Option<AlignMode>
    ensures { result ≡ position_of word.now }
{
    if word == b"start".as_slice() {
        return Some(AlignMode::Start);
    }
    if word == b"end".as_slice() {
        return Some(AlignMode::End);
    }
    if word == b"center".as_slice() {
        return Some(AlignMode::Center);
    }
    if word == b"flex-start".as_slice() {
        return Some(AlignMode::FlexStart);
    }
    if word == b"flex-end".as_slice() {
        return Some(AlignMode::FlexEnd);
    }
    None
}

fn space_of(word: &[u8]) -> Option<AlignMode>
    ensures { result ≡ space_of word.now }
{
    if word == b"space-between".as_slice() {
        return Some(AlignMode::Between);
    }
    if word == b"space-around".as_slice() {
        return Some(AlignMode::Around);
    }
    if word == b"space-evenly".as_slice() {
        return Some(AlignMode::Evenly);
    }
    None
}

fn space_in(form: AlignForm, word: &[u8]) -> Option<AlignMode>
    ensures { result ≡ space_in form word.now }
{
    if form.spaces { space_of(word) } else { None }
}

/// A space word where the form has these, or a position.
fn space_or_position(form: AlignForm, word: &[u8]) -> Option<AlignMode>
    ensures { result ≡ or_position (space_in form word.now) word.now }
{
    match space_in(form, word) {
        Some(mode) => Some(mode),
        None => position_of(word),
    }
}

fn mode_of(form: AlignForm, word: &[u8]) -> Option<AlignMode>
    ensures { result ≡ mode_of form word.now }
{
    if word == b"normal".as_slice() {
        return Some(AlignMode::Normal);
    }
    if word == b"stretch".as_slice() {
        return Some(AlignMode::Stretch);
    }
    if form.auto && word == b"auto".as_slice() {
        return Some(AlignMode::Auto);
    }
    space_or_position(form, word)
}

fn align(mode: AlignMode, safe: Option<bool>) -> Align
    ensures { result ≡ align mode safe }
{
    Align { mode, safe }
}

/// Whether the word is `safe`, else `unsafe`.
fn safe_of(word: &[u8]) -> Option<bool>
    ensures { result ≡ safe_of word.now }
{
    either(b"unsafe", b"safe", word)
}

/// A position after `safe` or `unsafe`.
fn guarded(a: &[u8], b: &[u8]) -> Option<Align>
    ensures { result ≡ guarded a.now b.now }
{
    let safe = safe_of(a)?;
    let mode = position_of(b)?;
    Some(align(mode, Some(safe)))
}

fn lone(form: AlignForm, word: &[u8]) -> Option<Align>
    ensures { result ≡ option_map (λ m. align m None) (mode_of form word.now) }
{
    let mode = mode_of(form, word)?;
    Some(align(mode, None))
}

fn align_after(form: AlignForm, a: &[u8], words: Words) -> Option<Align>
    ensures { result ≡ align_after form a.now words.entry }
{
    match words.first() {
        None => lone(form, a),
        Some((b, words)) => { if words.ended() { guarded(a, b) } else { None } }
    }
}

/// The value of an alignment (CSS Box Alignment 3, section 4).
pub(crate) fn align_of(form: AlignForm, words: Words) -> Option<Align>
    ensures { result ≡ align_of form words.entry }
{
    let (word, words) = words.first()?;
    align_after(form, word, words)
}
