//! The lines.

ghost use Rattle.std.specs.Prelude.{◌≡◌, ◌<◌, ◌^◌, ◌-◌, ◌∷◌, [], length, IfOk};
ghost use Rattle.part_rules.specs.FlexLines.{line_ranges};
ghost use Rattle.flex_lines.specs.Lines.{AreRanges, begun};
ghost use Rattle.flex_lines.specs.Ranges.{IsOuter};

use crate::compare::{is_at_most, units};
use crate::limits::outer_hypothetical;
use lunit::{Along, Lu, NoMemory, Wide};
use part_rules::FlexItem;
use std::alloc::Global;

/// The lines of a first item of this outer size and of the items after it.
fn wrapped(
    alloc: Global,
    main: Wide,
    gap: Lu,
    first: Wide,
    rest: &[FlexItem],
) -> Result<Vec<(usize, usize)>, NoMemory>
    requires first { IsOuter first }
    requires few { length rest.now < 2 ^ 64 - 1 }
    ensures { IfOk result (λ lines. lines.items ≡ begun main gap 0 1 first rest.now) }
{
    let mut lines = Vec::new(alloc);
    let mut start = 0;
    let mut length = first;
    for (place, item) in rest.iter().enumerate() {
        let outer = outer_hypothetical(item);
        let joined = length + gap.wide() + outer;
        if is_at_most(joined, main) {
            length = joined;
            continue;
        }
        lines.push((start, place + 1))?;
        start = place + 1;
        length = outer;
    }
    lines.push((start, rest.len() + 1))?;
    Ok(lines)
}

/// One line of so many items.
fn one_line(alloc: Global, items: usize) -> Result<Vec<(usize, usize)>, NoMemory>
    ensures { IfOk result (λ lines. lines.items ≡ (0, items) ∷ []) }
{
    let mut lines = Vec::new(alloc);
    lines.push((0, items))?;
    Ok(lines)
}

/// The lines of a flex container (CSS Flexbox 1, 9.3), each as the range of its items, from the first number up to, not
/// including, the second. `main` is the main size of the container and `gap` the gap between two items of a line.
///
/// Without `wrap` there is one line. Else an item joins the line where the outer hypothetical sizes of the line with it and the
/// gaps between them do not pass the main size; the first item of a line always joins it. No items make no line.
///
/// `NoMemory` where memory is wanting.
pub fn collect_lines<const AXIS: u8>(
    alloc: Global,
    items: &[FlexItem],
    main: Along<AXIS>,
    gap: Lu,
    wrap: bool,
) -> Result<Vec<(usize, usize)>, NoMemory>
    ensures lines { IfOk result (λ lines. lines.items ≡ line_ranges main.entry gap wrap items.now) }
    ensures ranges { IfOk result (λ lines. AreRanges (length items.now) lines.items) }
{
    let Some((first, rest)) = items.split_first() else {
        return Ok(Vec::new(alloc));
    };
    if wrap {
        wrapped(
            alloc,
            units(main.units()),
            gap,
            outer_hypothetical(first),
            rest,
        )
    } else {
        one_line(alloc, items.len())
    }
}
