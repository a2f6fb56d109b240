use crate::case::Output;
use std::alloc::{AllocError, Global};

/// The line that stands for the counts of a layout, whatever they are.
const COUNTS: &[u8] = b"stats";

fn push_line(text: &mut Vec<u8>, line: &[u8]) -> Result<(), AllocError> {
    text.extend_from_slice(line)?;
    text.push(b'\n')?;
    Ok(())
}

fn spaces(line: &[u8]) -> usize {
    line.iter().filter(|byte| **byte == b' ').count()
}

/// Whether the line tells where a box stands: its name and four numbers.
fn is_box(line: &[u8]) -> bool {
    spaces(line) == 4
}

/// Whether the boxes of a layout follow the line.
fn is_layout(line: &[u8]) -> bool {
    line.starts_with(b"layout ") && spaces(line) == 1
}

fn is_number(word: &[u8]) -> bool {
    !word.is_empty() && word.iter().all(|byte| byte.is_ascii_digit())
}

/// Whether these are two numbers with a space between them.
fn are_two_numbers(text: &[u8]) -> bool {
    let Some(space) = text.iter().position(|byte| *byte == b' ') else {
        return false;
    };
    let (first, rest) = text.split_at(space);
    match rest.get(1..) {
        Some(second) => is_number(first) && is_number(second),
        None => false,
    }
}

/// Whether the line is `stats` with two numbers.
fn has_counts(line: &[u8]) -> bool {
    match line.strip_prefix(b"stats ") {
        Some(numbers) => are_two_numbers(numbers),
        None => false,
    }
}

/// What was written with the counts, where each line of counts is cut to `stats`.
pub fn without_counts(alloc: Global, written: &[u8]) -> Result<Vec<u8>, AllocError> {
    let mut text = Vec::new(alloc);
    for line in written.split_inclusive(|byte| *byte == b'\n') {
        match line.strip_suffix(b"\n") {
            Some(front) if has_counts(front) => push_line(&mut text, COUNTS)?,
            _ => text.extend_from_slice(line)?,
        }
    }
    Ok(text)
}

/// The lines of what is due without counts, and a line `stats` after the boxes of each layout.
fn lines_with_counts(alloc: Global, due: &[u8]) -> Result<Vec<u8>, AllocError> {
    let mut text = Vec::new(alloc);
    let mut in_boxes = false;
    for line in due.split_inclusive(|byte| *byte == b'\n') {
        let front = line.strip_suffix(b"\n").unwrap_or(line);
        if in_boxes && !is_box(front) {
            push_line(&mut text, COUNTS)?;
        }
        in_boxes = is_layout(front) || in_boxes && is_box(front);
        text.extend_from_slice(line)?;
    }
    if in_boxes {
        push_line(&mut text, COUNTS)?;
    }
    Ok(text)
}

/// What is due under `layout --stats`, with the numbers left out, where this is due under `layout`.
pub fn with_counts(alloc: Global, due: &Output) -> Result<Output, AllocError> {
    match due {
        Output::Whole(bytes) => Ok(Output::Whole(lines_with_counts(alloc, bytes)?)),
        Output::Among(lines) => Ok(Output::Among(Vec::from_slice(alloc, lines)?)),
    }
}
