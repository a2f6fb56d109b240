//! Widths and lines of words, each in one pass over them.

ghost use Rattle.std.specs.Prelude.{◌≡◌, ◌≤◌, int_le, length};
ghost use Rattle.lunit.specs.Units.{clamp};
ghost use Rattle.part_rules.specs.WordLines.{greatest, line_width, word_lines};

use lunit::{Lu, Wide};

#[tactic(auto, using(crate::proofs::Greatest::max_laws))]
/// The greatest of the words and 0.
pub fn greatest_of(words: &[Lu]) -> Lu
    ensures { result ≡ clamp (greatest words.now) }
{
    let mut greatest = Lu::default();
    for word in words {
        greatest = greatest.max(*word);
    }
    greatest
}

/// The width of all words on one line.
pub fn width_of(space: Lu, words: &[Lu]) -> Lu
    requires { length words.now ≤ 65536 }
    ensures { result ≡ clamp (line_width space words.now) }
{
    let mut sum = Wide::of(0);
    for word in words {
        sum = sum + word.wide();
    }
    let spaces = words.len().saturating_sub(1);
    (sum + space.wide().times(spaces as u64)).clamp()
}

#[tactic(auto, using(crate::proofs::Filling::le_is))]
/// Whether a line is at most as wide as there is room.
fn fits(line_width: Wide, width: Lu) -> bool
    ensures { result ≡ int_le line_width width }
{
    line_width <= width.wide()
}

#[tactic(auto, using(crate::proofs::Filling::lines_begun))]
/// The number of lines that the words are filled into.
pub fn lines_of(space: Lu, width: Lu, words: &[Lu]) -> u32
    requires { length words.now ≤ 65536 }
    ensures count { result ≡ length (word_lines space width words.now) }
    ensures bound { result ≤ 65536 }
{
    let Some((first, rest)) = words.split_first() else {
        return 0;
    };
    let mut lines = 1;
    let mut line_width = first.wide();
    for word in rest {
        let joined = line_width + space.wide() + word.wide();
        if fits(joined, width) {
            line_width = joined;
        } else {
            lines += 1;
            line_width = word.wide();
        }
    }
    lines
}
