//! The lines of a flex container and the block size of its content (CSS Flexbox 1, section 9).

ghost use Rattle.std.specs.Prelude.{◌≡◌, ◌+◌, ◌<◌, ◌≤◌, ◌^◌, ◌≤ℤ◌, length, map, neg_ℤ, pos, IfOk};
ghost use Rattle.part_rules.specs.FlexLines.{gaps, hypothetical, line_crosses, outer_hypothetical};
ghost use Rattle.part_rules.specs.Lists.{at_most, sum_of};
ghost use Rattle.tree_rules.specs.FlexSizes as rules;
ghost use Rattle.tree_rules.specs.Labels.{content_of};
ghost use Rattle.tree_rules.specs.NodeSizes.{stretches};
ghost use Rattle.flex_lines.specs.Lines.{AreRanges};
ghost use Rattle.inline_sizes.specs.Styled.{styled};
ghost use Rattle.inline_sizes.specs.Sums.{IsSum, IsTotal};
ghost use Rattle.block_sizes.specs.Flexes.{AreCovering, HaveInner, column_block_by, crosses_by, lines_of, row_block_by, row_lines_by};

use flex_lines::{collect_lines, cross_sizes, resolve_lengths};
use inline_sizes::{gap_by, in_a_row, stretches};
use lunit::{Along, Lu, NoMemory, Sequence, Steps, Wide};
use part_rules::FlexItem;
use placing::Lines;
use placing::style::{distribution, gap, wraps};
use std::alloc::Global;
use std::sync::ledger::Ledger;
use style_types::Style;

/// A length along an axis.
fn along<const AXIS: u8>(length: Lu) -> Along<AXIS>
    ensures { result ≡ length }
{
    Along::of(length.wide().units())
}

#[tactic(auto, using(crate::proofs::Mains::mains_cover))]
/// The lines of a flex container of this main size, with this gap between two items of a line (CSS Flexbox 1, 9.3 and 9.7). All
/// lines are resolved in one step.
///
/// `NoMemory` where memory is wanting.
pub fn lines_by<const AXIS: u8, L: Ledger>(
    alloc: Global,
    container: &Style,
    main: Lu,
    gap: Lu,
    items: &[FlexItem],
    passes: &mut Steps<L>,
) -> Result<Lines, NoMemory>
    requires few { length items.now < 2 ^ 32 }
    ensures value { IfOk result
        (λ lines. lines_of lines ≡ rules.lines_by (styled container.now) main gap items.now) }
    ensures cover { HaveInner items.now → IfOk result (λ lines. AreCovering items.now lines.mains) }
    ensures ranges { IfOk result (λ lines. AreRanges (length items.now) lines.ranges) }
    ensures kept { passes.old ≤ passes.new }
    ensures ticks { passes.new ≤ passes.old + 1 }
{
    let main = along::<AXIS>(main);
    let ranges = collect_lines(alloc, items, main, gap, wraps(container))?;
    let mains = resolve_lengths(alloc, items, &ranges, main, gap, passes)?;
    Ok(Lines {
        ranges: Sequence::from_vec(ranges),
        mains: Sequence::from_vec(mains),
    })
}

/// The lines of a row of this width, of which percentages of the gap are (CSS Flexbox 1, 9.3 and 9.7). All lines are resolved in
/// one step.
///
/// `NoMemory` where memory is wanting.
pub fn row_lines<L: Ledger>(
    alloc: Global,
    container: &Style,
    width: Lu,
    items: &[FlexItem],
    passes: &mut Steps<L>,
) -> Result<Lines, NoMemory>
    requires few { length items.now < 2 ^ 32 }
    ensures value { IfOk result
        (λ lines. lines_of lines ≡ row_lines_by (styled container.now) width items.now) }
    ensures cover { HaveInner items.now → IfOk result (λ lines. AreCovering items.now lines.mains) }
    ensures ranges { IfOk result (λ lines. AreRanges (length items.now) lines.ranges) }
    ensures kept { passes.old ≤ passes.new }
    ensures ticks { passes.new ≤ passes.old + 1 }
{
    let gap = gap_by(&Some(width), Lu::default(), &gap::<0>(container));
    lines_by::<0, L>(alloc, container, width, gap, items, passes)
}

/// The cross sizes of the lines of a container along its cross axis.
fn crosses_along<const AXIS: u8>(
    alloc: Global,
    container: &Style,
    outers: &[Lu],
    ranges: &[(usize, usize)],
    cross: Option<Lu>,
    gap: Lu,
) -> Result<Sequence<Lu>, NoMemory>
    requires { AreRanges (length outers.now) ranges.now }
    ensures { IfOk result
        (λ sizes. sizes ≡
        line_crosses outers.now ranges.now cross gap (content_of container.now).wrap
        (stretches (content_of container.now).block.distribution.mode)) }
{
    let cross = match cross {
        Some(size) => Some(along::<AXIS>(size)),
        None => None,
    };
    let stretch = stretches(&distribution::<1>(container).mode);
    let sizes = cross_sizes(alloc, outers, ranges, cross, gap, wraps(container), stretch)?;
    Ok(Sequence::from_vec(sizes))
}

/// The cross sizes of the lines of a container, by the hypothetical cross sizes of its children with their margins, where its own
/// cross size is this one or not known (CSS Flexbox 1, 9.4, steps 8 and 9). A percentage gap is of the cross size, and 0 of none.
///
/// `NoMemory` where memory is wanting.
pub fn crosses_of(
    alloc: Global,
    column: bool,
    container: &Style,
    outers: &[Lu],
    ranges: &[(usize, usize)],
    cross: Option<Lu>,
) -> Result<Sequence<Lu>, NoMemory>
    requires { AreRanges (length outers.now) ranges.now }
    ensures { IfOk result
        (λ sizes. sizes ≡ crosses_by column (styled container.now) outers.now ranges.now cross) }
{
    if column {
        let gap = gap_by(&cross, Lu::default(), &gap::<0>(container));
        crosses_along::<0>(alloc, container, outers, ranges, cross, gap)
    } else {
        let gap = gap_by(&cross, Lu::default(), &gap::<1>(container));
        crosses_along::<1>(alloc, container, outers, ranges, cross, gap)
    }
}

/// The block size of the content of a row, by the hypothetical cross sizes of its children with their margins: the cross sizes of
/// its lines and the gaps between them, where its own cross size is not known, also where a height is declared (own rule).
///
/// `NoMemory` where memory is wanting.
pub fn row_block(
    alloc: Global,
    container: &Style,
    outers: &[Lu],
    ranges: &[(usize, usize)],
) -> Result<Lu, NoMemory>
    requires { AreRanges (length outers.now) ranges.now }
    ensures value { IfOk result
        (λ size. size ≡ row_block_by (styled container.now) outers.now ranges.now) }
    ensures some { IfOk result (λ size. pos 0 ≤ℤ size) }
{
    let sizes = crosses_of(alloc, false, container, outers, ranges, None)?;
    let gap = gap_by(&None, Lu::default(), &gap::<1>(container));
    Ok(in_a_row(gap, sizes.as_slice()))
}

#[tactic(auto, using(inline_sizes::proofs::Limits::units_sum, inline_sizes::proofs::Limits::min_sum))]
/// A length, but at most a limit.
fn at_most(limit: Option<Lu>, length: Lu) -> Wide
    ensures value { result ≡ at_most limit length }
    ensures range { IsSum result }
{
    match limit {
        Some(limit) => limit.wide().min(length.wide()),
        None => length.wide(),
    }
}

#[tactic(auto, using(inline_sizes::proofs::Limits::units_sum, inline_sizes::proofs::Limits::max_sum))]
/// The base size of an item limited by its maximum, and then by its minimum and by borders and paddings (CSS Flexbox 1, 9.2).
fn hypothetical(item: &FlexItem) -> Wide
    ensures value { result ≡ hypothetical item.now }
    ensures range { IsSum result }
{
    let least = item.min.wide().max(at_most(item.max, item.base));
    item.inner.wide().max(least)
}

/// The hypothetical main size of an item with its margins. It is exact.
fn outer_hypothetical(item: &FlexItem) -> Wide
    ensures value { result ≡ outer_hypothetical item.now }
    ensures low { neg_ℤ (pos 2199023255552) ≤ℤ result }
    ensures high { result ≤ℤ pos 2199023255552 }
{
    hypothetical(item) + item.margins.wide()
}

/// The hypothetical main sizes of items with their margins, added up.
fn sum_of_outers(items: &[FlexItem]) -> Wide
    ensures value { result ≡ sum_of (map outer_hypothetical items.now) }
    ensures range { IsTotal result }
{
    let mut sum = Wide::of(0);
    for item in items {
        sum = sum + outer_hypothetical(item);
    }
    sum
}

/// The gaps between so many.
fn gaps(gap: Lu, count: usize) -> Wide
    ensures value { result ≡ gaps gap count }
    ensures range { IsTotal result }
{
    gap.wide().times(count.saturating_sub(1) as u64)
}

#[tactic(auto, using(inline_sizes::proofs::Limits::some_size))]
/// The block size of the content of a column, by its items: their outer hypothetical main sizes and the gaps between them, at least
/// 0, on one line also with wrapping (own rule). A percentage gap is 0.
pub fn column_block(container: &Style, items: &[FlexItem]) -> Lu
    ensures value { result ≡ column_block_by (styled container.now) items.now }
    ensures some { pos 0 ≤ℤ result }
{
    let gap = gap_by(&None, Lu::default(), &gap::<1>(container));
    let whole = sum_of_outers(items) + gaps(gap, items.len());
    Wide::of(0).max(whole).clamp()
}
