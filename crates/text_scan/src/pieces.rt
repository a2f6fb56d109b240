ghost use Rattle.std.specs.Prelude.{◌≡◌, ◌≤◌, ◌++◌, ℕ, List, [], true, false, length, flat_map, IfOk, OnOk};
ghost use Rattle.text_scan.specs.Lines.{lines_of};
ghost use Rattle.text_scan.specs.Stream.{lines_ahead};

use crate::line::Line;
use crate::lines::Lines;
use lunit::{NoMemory, Sequence};
use std::alloc::Global;

/// The lines of a text that comes in these pieces. However the text is cut, they are the lines of the whole text.
/// Answers `NoMemory` where memory is wanting.
pub fn read_lines(alloc: Global, pieces: &[Sequence<u8>]) -> Result<Sequence<Line>, NoMemory>
    requires { length (flat_map (λ piece. piece) pieces.now) ≤ 134217728 }
    ensures { IfOk result (λ lines. lines ≡ lines_of (flat_map (λ piece. piece) pieces.now)) }
{
    let mut lines = Lines::new(alloc);
    let mut taken = Sequence::new(alloc);
    for piece in pieces {
        lines.feed(piece.as_slice())?;
        take_lines(&mut lines, false, &mut taken)?;
    }
    take_lines(&mut lines, true, &mut taken)?;
    Ok(taken)
}

/// Takes all lines that are due.
fn take_lines(lines: &mut Lines, ended: bool, taken: &mut Sequence<Line>) -> Result<(), NoMemory>
    ensures ahead { (more : List ℕ) → (ended ≡ true → more ≡ []) →
        OnOk result
        (taken.new ++ lines_ahead lines.new more ≡ taken.old ++ lines_ahead lines.old more) }
    ensures drained { ended ≡ true → OnOk result (lines.new.held ≡ []) }
    ensures fed { OnOk result (lines.new.fed ≡ lines.old.fed) }
{
    while let Some(line) = lines.take(ended)? {
        taken.push(line)?;
    }
    Ok(())
}
