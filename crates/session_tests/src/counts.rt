//! The counts that `layout --stats` writes.

use crate::logs::measured_in;
use crate::running::line_length;
use outside::Event;

/// The number that a text begins with, up to 2^64 - 1.
fn number_at(text: &[u8]) -> u64 {
    let mut number: u64 = 0;
    for byte in text {
        if !byte.is_ascii_digit() {
            return number;
        }
        number = number
            .saturating_mul(10)
            .saturating_add(byte.saturating_sub(b'0') as u64);
    }
    number
}

/// The two numbers that a text begins with.
fn pair_at(text: &[u8]) -> Option<(u64, u64)> {
    let space = text.iter().position(|byte| *byte == b' ')?;
    let (first, second) = text.split_at(space);
    Some((number_at(first), number_at(second.get(1..)?)))
}

/// How many measurements and how many kept answers are told for the layout with this place among
/// all that were made, from 0.
fn counts_at(text: &[u8], place: usize) -> Option<(u64, u64)> {
    let mut due = place;
    let mut left = text;
    while let Some(length) = line_length(left) {
        let (line, later) = left.split_at(length);
        if line.starts_with(b"stats ") {
            if due == 0 {
                return pair_at(line.get(6..)?);
            }
            due -= 1;
        }
        left = later;
    }
    None
}

/// Whether the counts that are told for the layout with this number, where no edit before it was
/// refused, are how many measurements the ruler was asked for, and a number of answers from `least`
/// to `most`.
pub(crate) fn are_told(written: &[u8], events: &[Event], k: u32, least: u64, most: u64) -> bool {
    match counts_at(written, k as usize) {
        Some((measured, added)) => {
            measured == measured_in(events, k).len() as u64 && (least..=most).contains(&added)
        }
        None => false,
    }
}
