//! Line values (CSS Grid 2, section 8.3), and two or four of them with `/` between (section 8.4).

ghost use Rattle.std.specs.Prelude.{◌≡◌, ◌≤◌, ◌<◌, unsigned_abs, IfSome};
ghost use Rattle.value_text.specs.Lines.{name_of, line_number, span_count, named_line, one_word, line_with, name_and_number, with_number, named_reach, one_spanned, two_words, reach_with, name_and_count, two_spanned, three_words, stops, after_two, after_one, line_first, one_line, follow, line_or, end_after, two_lines, column_end_after, row_end_after, column_after, four_lines};

use lunit::{LineValue, Name};
use track_text::{Words, integer_of, line_name};

#[tactic(auto, unfolding(crate::specs::Lines::name_of))]
fn name_of(word: &[u8]) -> Option<Name>
    ensures { result ≡ name_of word.now }
{
    line_name(word)
}

#[tactic(auto, unfolding(crate::specs::Lines::line_number))]
/// The number of a line: an integer other than 0.
fn line_number(word: &[u8]) -> Option<i32>
    ensures { result ≡ line_number word.now }
{
    match integer_of(word)? {
        0 => None,
        number => Some(number),
    }
}

#[tactic(auto, unfolding(crate::specs::Lines::span_count))]
/// How many tracks or lines are spanned: an integer of at least 1.
fn span_count(word: &[u8]) -> Option<u32>
    ensures { result ≡ span_count word.now }
{
    let number = integer_of(word)?;
    if number >= 1 {
        Some(number as u32)
    } else {
        None
    }
}

fn named_line(word: &[u8]) -> Option<LineValue>
    ensures { result ≡ named_line word.now }
{
    let name = name_of(word)?;
    Some(LineValue::Named(name))
}

/// The line value that a word alone is.
fn one_word(word: &[u8]) -> Option<LineValue>
    ensures { result ≡ one_word word.now }
{
    if word == b"auto".as_slice() {
        return Some(LineValue::Auto);
    }
    match line_number(word) {
        Some(number) => Some(LineValue::Line(number, None)),
        None => named_line(word),
    }
}

fn line_with(number: i32, word: &[u8]) -> Option<LineValue>
    ensures { result ≡ line_with number word.now }
{
    let name = name_of(word)?;
    Some(LineValue::Line(number, Some(name)))
}

fn name_and_number(name: &[u8], number: &[u8]) -> Option<LineValue>
    ensures { result ≡ name_and_number name.now number.now }
{
    let number = line_number(number)?;
    line_with(number, name)
}

fn named_reach(word: &[u8]) -> Option<LineValue>
    ensures { result ≡ named_reach word.now }
{
    let name = name_of(word)?;
    Some(LineValue::Reach(1, Some(name)))
}

/// What stands alone after `span`.
fn one_spanned(word: &[u8]) -> Option<LineValue>
    ensures { result ≡ one_spanned (span_count word.now) word.now }
{
    match span_count(word) {
        Some(count) => Some(LineValue::Reach(count, None)),
        None => named_reach(word),
    }
}

/// The number of a line and a name, in either order.
fn number_and_name(a: &[u8], b: &[u8]) -> Option<LineValue>
    ensures { result ≡ with_number (line_number a.now) a.now b.now }
{
    match line_number(a) {
        Some(number) => line_with(number, b),
        None => name_and_number(a, b),
    }
}

fn two_words(a: &[u8], b: &[u8]) -> Option<LineValue>
    ensures { result ≡ two_words a.now b.now }
{
    if a == b"span".as_slice() {
        one_spanned(b)
    } else {
        number_and_name(a, b)
    }
}

fn reach_with(count: u32, word: &[u8]) -> Option<LineValue>
    ensures { result ≡ reach_with count word.now }
{
    let name = name_of(word)?;
    Some(LineValue::Reach(count, Some(name)))
}

fn name_and_count(name: &[u8], count: &[u8]) -> Option<LineValue>
    ensures { result ≡ name_and_count name.now count.now }
{
    let count = span_count(count)?;
    reach_with(count, name)
}

/// A count and a name after `span`, in either order.
fn two_spanned(a: &[u8], b: &[u8]) -> Option<LineValue>
    ensures { result ≡ two_spanned (span_count a.now) a.now b.now }
{
    match span_count(a) {
        Some(count) => reach_with(count, b),
        None => name_and_count(a, b),
    }
}

fn three_words(a: &[u8], b: &[u8], c: &[u8]) -> Option<LineValue>
    ensures { result ≡ three_words a.now b.now c.now }
{
    if a == b"span".as_slice() {
        two_spanned(b, c)
    } else {
        None
    }
}

/// Whether a line value ends before these words.
fn stops(words: &Words) -> bool
    ensures { result ≡ stops words.now }
{
    words.ended() || words.begin_with(b"/")
}

fn after_two<'a>(a: &[u8], b: &[u8], words: Words<'a>) -> Option<(LineValue, Words<'a>)>
    ensures { result ≡ after_two a.now b.now words.entry }
{
    let (c, words) = words.first()?;
    let line = three_words(a, b, c)?;
    Some((line, words))
}

fn after_one<'a>(a: &[u8], words: Words<'a>) -> Option<(LineValue, Words<'a>)>
    ensures { result ≡ after_one a.now words.entry }
{
    let (b, words) = words.first()?;
    if !stops(&words) {
        return after_two(a, b, words);
    }
    let line = two_words(a, b)?;
    Some((line, words))
}

/// The line value that the words begin with, and the words after it.
fn line_first(words: Words) -> Option<(LineValue, Words)>
    ensures { result ≡ line_first words.entry }
{
    let (a, words) = words.first()?;
    if !stops(&words) {
        return after_one(a, words);
    }
    let line = one_word(a)?;
    Some((line, words))
}

/// A line value alone.
pub(crate) fn one_line(words: Words) -> Option<LineValue>
    ensures { result ≡ one_line words.entry }
{
    let (line, words) = line_first(words)?;
    if words.ended() { Some(line) } else { None }
}

/// What a missing line value is by the one that it follows: the same where that is a bare name, else `auto`.
fn follow(line: &LineValue) -> LineValue
    ensures { result ≡ follow line.now }
{
    match line {
        LineValue::Named(name) => LineValue::Named(*name),
        _ => LineValue::Auto,
    }
}

/// The line value after `/`, or this where no words are left.
fn line_or(default: LineValue, words: Words) -> Option<(LineValue, Words)>
    ensures { result ≡ line_or default words.entry }
{
    if words.ended() {
        return Some((default, words));
    }
    let (slash, words) = words.first()?;
    if slash == b"/".as_slice() {
        line_first(words)
    } else {
        None
    }
}

fn end_after(start: LineValue, words: Words) -> Option<(LineValue, LineValue)>
    ensures { result ≡ end_after start words.entry }
{
    let (end, words) = line_or(follow(&start), words)?;
    if words.ended() {
        Some((start, end))
    } else {
        None
    }
}

/// The start and the end of `grid-column` and `grid-row`.
pub(crate) fn two_lines(words: Words) -> Option<(LineValue, LineValue)>
    ensures { result ≡ two_lines words.entry }
{
    let (start, words) = line_first(words)?;
    end_after(start, words)
}

/// A row start, column start, row end and column end.
pub(crate) type FourLines = (LineValue, LineValue, LineValue, LineValue);

fn column_end_after(
    row: LineValue,
    column: LineValue,
    row_end: LineValue,
    words: Words,
) -> Option<FourLines>
    ensures { result ≡ column_end_after row column row_end words.entry }
{
    let (column_end, words) = line_or(follow(&column), words)?;
    if words.ended() {
        Some((row, column, row_end, column_end))
    } else {
        None
    }
}

fn row_end_after(row: LineValue, column: LineValue, words: Words) -> Option<FourLines>
    ensures { result ≡ row_end_after row column words.entry }
{
    let (row_end, words) = line_or(follow(&row), words)?;
    column_end_after(row, column, row_end, words)
}

fn column_after(row: LineValue, words: Words) -> Option<FourLines>
    ensures { result ≡ column_after row words.entry }
{
    let (column, words) = line_or(follow(&row), words)?;
    row_end_after(row, column, words)
}

/// The row start, column start, row end and column end of `grid-area`.
pub(crate) fn four_lines(words: Words) -> Option<FourLines>
    ensures { result ≡ four_lines words.entry }
{
    let (row, words) = line_first(words)?;
    column_after(row, words)
}
