//! The cross sizes of the lines.

ghost use Rattle.std.specs.Prelude.{◌≡◌, ◌≤◌, ◌<◌, ◌&&◌, pos, length, map, slice_range, true, IfOk, IfSome, Some, None, ◌+ℤ◌, ℤ, Option};
ghost use Rattle.lunit.specs.Units.{clamp};
ghost use Rattle.part_rules.specs.declared.share.Share.{Share};
ghost use Rattle.part_rules.specs.FlexLines.{cross_rest, greatest_outer, line_crosses, own_cross, stretched_lines};
ghost use Rattle.part_rules.specs.Lists.{greatest_with, sum_of, zipped};
ghost use Rattle.part_rules.specs.Sharing.{shared_rows};
ghost use Rattle.flex_lines.specs.Lines.{AreRanges, IsRange};
ghost use Rattle.flex_lines.specs.Crosses.{added, open_rows};
ghost use Rattle.flex_lines.specs.Ranges.{IsSum};

use crate::compare::units;
use crate::space::{gaps, positive_part};
use lunit::{Along, Lu, NoMemory, Wide};
use share_out::{Share, hand_out};
use std::alloc::Global;

#[tactic(auto, using(crate::proofs::Crossing::greatest_laws))]
/// The greatest of some outer cross sizes, at least 0.
fn greatest(outer: &[Lu]) -> Lu
    ensures { result ≡ greatest_with (pos 0) outer.now }
{
    let mut greatest = Lu::default();
    for size in outer {
        greatest = greatest.max(*size);
    }
    greatest
}

/// The number as a length.
fn length_of(number: Wide) -> Lu
    ensures { result ≡ clamp number }
{
    number.clamp()
}

/// The cross size of a line of its own (CSS Flexbox 1, 9.4, step 8).
fn own_cross(outer: &[Lu], cross: &Option<Wide>, wrap: bool, line: &(usize, usize)) -> Lu
    requires { IsRange (length outer.now) line.now }
    ensures { result ≡ own_cross outer.now cross.now wrap line.now }
{
    match cross {
        Some(size) if !wrap => length_of(*size),
        _ => greatest(&outer[line.0..line.1]),
    }
}

/// The cross sizes of the lines of their own.
fn own_crosses(
    alloc: Global,
    outer: &[Lu],
    cross: &Option<Wide>,
    wrap: bool,
    lines: &[(usize, usize)],
) -> Result<Vec<Lu>, NoMemory>
    requires { AreRanges (length outer.now) lines.now }
    ensures { IfOk result
        (λ sizes. sizes.items ≡ map (own_cross outer.now cross.now wrap) lines.now) }
{
    let mut sizes = Vec::with_capacity(alloc, lines.len())?;
    for line in lines {
        sizes.push(own_cross(outer, cross, wrap, line))?;
    }
    Ok(sizes)
}

/// The rest of a cross size that lines and the gaps between them leave, where it is positive.
fn cross_rest(cross: Wide, gap: Lu, sizes: &[Lu]) -> Lu
    requires { IsSum cross }
    ensures { result ≡ cross_rest cross gap sizes.now }
{
    let mut sum = units(0);
    for size in sizes {
        sum = sum + size.wide();
    }
    let rest = cross - gaps(gap, sizes.len()) - sum;
    positive_part(rest)
}

/// Rows without end, one for each line.
fn open_rows(alloc: Global, sizes: &[Lu]) -> Result<Vec<Share>, NoMemory>
    ensures { IfOk result (λ rows. rows.items ≡ open_rows sizes.now) }
{
    let mut rows = Vec::with_capacity(alloc, sizes.len())?;
    for _size in sizes {
        rows.push(Share {
            room: None,
            got: Lu::default(),
        })?;
    }
    Ok(rows)
}

/// The lines with what their rows have got.
fn added(alloc: Global, sizes: &[Lu], rows: &[Share]) -> Result<Vec<Lu>, NoMemory>
    requires { length sizes.now ≤ length rows.now }
    ensures { IfOk result (λ all. all.items ≡ added sizes.now rows.now) }
{
    let mut all = Vec::with_capacity(alloc, sizes.len())?;
    for (place, size) in sizes.iter().enumerate() {
        let row = &rows[place];
        all.push((size.wide() + row.got.wide()).clamp())?;
    }
    Ok(all)
}

/// The lines, where they share what a cross size leaves (CSS Flexbox 1, 9.4, step 9).
fn stretched(alloc: Global, cross: Wide, gap: Lu, sizes: &[Lu]) -> Result<Vec<Lu>, NoMemory>
    requires { IsSum cross }
    ensures { IfOk result (λ all. all.items ≡ stretched_lines (Some cross) gap true sizes.now) }
{
    let mut rows = open_rows(alloc, sizes)?;
    let _left = hand_out(cross_rest(cross, gap, sizes), rows.as_mut_slice());
    added(alloc, sizes, &rows)
}

/// The cross size along its axis.
fn exact<const AXIS: u8>(cross: Option<Along<AXIS>>) -> Option<Wide>
    ensures value { result ≡ cross.entry }
    ensures range { IfSome result IsSum }
{
    match cross {
        Some(size) => Some(units(size.units())),
        None => None,
    }
}

/// The cross sizes of the lines (CSS Flexbox 1, 9.4, steps 8 and 9). `outer` has the outer hypothetical cross size of each item,
/// `lines` are ranges of the items, `cross` is the cross size of the container where it is known, and `gap` the gap between two
/// lines; `stretch` says whether `align-content` is `normal` or `stretch`.
///
/// Without `wrap`, a cross size that is known is that of the line. Else a line has the greatest cross size of its items, at least
/// 0; with `wrap` and `stretch`, the positive rest of a cross size that is known goes to the lines in equal parts, the odd units to
/// the first ones (own rule). All sizes are limited to the range of lengths.
///
/// `NoMemory` where memory is wanting.
pub fn cross_sizes<const AXIS: u8>(
    alloc: Global,
    outer: &[Lu],
    lines: &[(usize, usize)],
    cross: Option<Along<AXIS>>,
    gap: Lu,
    wrap: bool,
    stretch: bool,
) -> Result<Vec<Lu>, NoMemory>
    requires { AreRanges (length outer.now) lines.now }
    ensures { IfOk result
        (λ sizes. sizes.items ≡ line_crosses outer.now lines.now cross.entry gap wrap stretch) }
{
    let cross = exact(cross);
    let sizes = own_crosses(alloc, outer, &cross, wrap, lines)?;
    match &cross {
        Some(size) if wrap && stretch => stretched(alloc, *size, gap, &sizes),
        _ => Ok(sizes),
    }
}
