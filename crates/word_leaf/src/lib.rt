//! The sizes of a leaf: a box of fixed size, or words that are filled into lines (own rule).
//!
//! Lengths are in units of one sixty-fourth of a pixel. Each answer is limited to the range of lengths, from -2^30 to 2^30
//! units. The calls here are for a content of at most 65,536 words, with no number below zero, and take no memory; only a
//! copy of a content does.
#![tactic(auto)]

ghost use Rattle.std.specs.Prelude.{◌≡◌};
ghost use Rattle.part_rules.specs.WordLines.{height_at, line_count, narrowest, widest};
ghost use Rattle.word_leaf.specs.Leaves.{HasFewestLines, IsMeasurable};

mod words;

use crate::words::{greatest_of, lines_of, width_of};
use lunit::Lu;
pub use part_rules::Content;

/// The narrowest width of a leaf: the width of a fixed box, or that of the greatest word; 0 where there are no words.
pub fn narrowest(content: &Content) -> Lu
    requires { IsMeasurable content.now }
    ensures { result ≡ narrowest content.now }
{
    match content {
        Content::Fixed { width, .. } => *width,
        Content::Words { words, .. } => greatest_of(words.as_slice()),
    }
}

/// The widest width of a leaf: the width of a fixed box, or that of all words on one line, with a space between each two.
pub fn widest(content: &Content) -> Lu
    requires { IsMeasurable content.now }
    ensures { result ≡ widest content.now }
{
    match content {
        Content::Fixed { width, .. } => *width,
        Content::Words { space, words, .. } => width_of(*space, words.as_slice()),
    }
}

#[tactic(auto, using(part_rules::proofs::WordLines::words_fewest))]
/// How many lines the words are filled into at a width; 0 for a fixed box and where there are no words.
///
/// A word joins the line where the line with a space and the word is at most the width, else it begins a new line. So the
/// first word of a line stands on it also where it alone is wider. No way of cutting the words into lines that fit the width
/// has fewer lines.
pub fn lines_at(content: &Content, width: Lu) -> u32
    requires { IsMeasurable content.now }
    ensures count { result ≡ line_count content.now width }
    ensures fewest { HasFewestLines content.now width result }
{
    match content {
        Content::Fixed { .. } => 0,
        Content::Words { space, words, .. } => lines_of(*space, width, words.as_slice()),
    }
}

/// The height of a leaf at a width: the height of a fixed box, or the number of lines times the height of a line.
pub fn height_at(content: &Content, width: Lu) -> Lu
    requires { IsMeasurable content.now }
    ensures { result ≡ height_at content.now width }
{
    match content {
        Content::Fixed { height, .. } => *height,
        Content::Words { line, space, words } => {
            let lines = lines_of(*space, width, words.as_slice());
            line.wide().times(lines as u64).clamp()
        }
    }
}
