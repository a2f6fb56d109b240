//! The tracks of one axis of a grid, sized (CSS Grid 2, section 12).

ghost use Rattle.std.specs.Prelude.{◌≡◌, ◌+◌, ◌-ℤ◌, ◌≤ℤ◌, ◌≤◌, ◌<◌, ◌^◌, None, length, option_map, pos, IfOk, OnErr, OnOk};
ghost use Rattle.lunit.specs.Units.{clamp};
ghost use Rattle.track_sizing.specs.Fits.{HaveFixed, IsKnownSpace};
ghost use Rattle.part_rules.specs.Tracks.{track_sizes};
ghost use Rattle.tree_rules.specs.GridSizes.{sized_for, total_for};
ghost use Rattle.tree_rules.specs.Repetitions.{gap_by};
ghost use Rattle.tree_rules.specs.Templates.{written};
ghost use Rattle.tree_rules.specs.TrackRules.{axis_rules, tracks_of};
ghost use Rattle.tree_rules.specs.Labels.{content_of};
ghost use Rattle.tree_rules.specs.NodeSizes.{bounds_of, stretches};
ghost use Rattle.placing.specs.Covered.{IsNear};
ghost use Rattle.placing.specs.Ranges.{IsGridAxis};
ghost use Rattle.inline_sizes.specs.Styled.{content_at, grid_at};
ghost use Rattle.inline_sizes.specs.TrackAxes.{CanSize, IsBase, IsCounted, fit_in, intrinsic_totals, sized_of, track_axis, track_count};

use crate::distribution::{gap_by, total_of_tracks};
use crate::sized::bounds_of;
use crate::used::stretches;
use lunit::{Item, Lu, NoMemory, Sequence, Span, Steps};
use part_rules::Rule;
use placing::rules::axis_rules;
use placing::style::{distribution, gap};
use std::alloc::Global;
use std::sync::ledger::Ledger;
use style_types::Style;
use track_sizing::{Fit, Space, size_axis};

/// What the sizes of the tracks of one axis depend on.
#[derive(Clone, Copy)]
pub struct TrackInput<'a> {
    /// The computed values of the grid.
    pub style: &'a Style,
    /// How often its automatic repeat stands in this axis.
    pub count: u32,
    /// The spans of its children in this axis.
    pub spans: &'a [Span],
    /// All its tracks.
    pub tracks: Span,
    /// The items that size them.
    pub items: &'a [Item],
}

/// The tracks of an axis with their sizes.
#[derive(Drop)]
pub struct SizedTracks {
    /// How each track is sized.
    pub rules: Sequence<Rule>,
    /// The size of each track, in units of 1/64 px.
    pub sizes: Sequence<Lu>,
    /// The gap between two of them, in units of 1/64 px.
    pub gap: Lu,
}

/// What the tracks of an axis are sized for: the declared minimum and maximum count where they are lengths, as content sizes.
pub(crate) fn fit_for<const AXIS: u8>(style: &Style, space: Space<AXIS>, gap: Lu) -> Fit<AXIS>
    requires { IsGridAxis (grid_at AXIS style.now) }
    ensures { result ≡
        fit_in (content_of style.now).border_box (grid_at AXIS style.now)
        (content_at AXIS style.now) space.entry gap }
{
    let bounds = bounds_of::<AXIS>(style, None);
    Fit {
        space,
        min: bounds.content_least(),
        max: bounds.content_most(),
        gap,
        stretch: stretches(&distribution::<AXIS>(style).mode),
    }
}

#[tactic(auto, using(crate::proofs::Fixing::gap_some))]
/// The gap between two tracks of an axis, where percentages are of this size, or of none.
pub(crate) fn gap_for<const AXIS: u8>(style: &Style, base: &Option<Lu>) -> Lu
    requires axis { IsGridAxis (grid_at AXIS style.now) }
    requires base { IsBase base.now }
    ensures value { result ≡ gap_by base.now (pos 0) (grid_at AXIS style.now).gap }
    ensures some { pos 0 ≤ℤ result }
{
    gap_by(base, Lu::default(), &gap::<AXIS>(style))
}

#[tactic(auto, using(crate::proofs::Fixing::fixed_rules, crate::proofs::Fixing::rules_counted, crate::proofs::Fixing::few_tracks))]
/// How the tracks of an axis are sized, where percentages are of this size, or of none.
pub(crate) fn rules_for<const AXIS: u8>(
    alloc: Global,
    input: &TrackInput<'_>,
    base: Option<Lu>,
) -> Result<Sequence<Rule>, NoMemory>
    requires axis { IsGridAxis (grid_at AXIS input.now.style.now) }
    requires near { IsNear input.now.tracks }
    requires base { IsBase base }
    ensures value { IfOk result
        (λ rules. rules ≡
        axis_rules base (grid_at AXIS input.now.style.now)
        (written (grid_at AXIS input.now.style.now).template input.now.count)
        input.now.spans.now (tracks_of input.now.tracks)) }
    ensures fixed { IfOk result (λ rules. HaveFixed rules) }
    ensures counted { IfOk result (λ rules. length rules ≡ track_count input.now.tracks) }
    ensures few { track_count input.now.tracks < 2 ^ 32 }
{
    axis_rules::<AXIS>(
        alloc,
        input.style,
        input.count,
        base,
        input.spans,
        input.tracks,
    )
}

#[tactic(auto, using(crate::proofs::Lengths::sizes_counted))]
/// The sizes of the tracks of an axis with these rules and this gap. It makes one step.
fn sizes_for<const AXIS: u8, L: Ledger>(
    alloc: Global,
    input: &TrackInput<'_>,
    space: Space<AXIS>,
    rules: &Sequence<Rule>,
    gap: Lu,
    passes: &mut Steps<L>,
) -> Result<Sequence<Lu>, NoMemory>
    requires input { CanSize AXIS input.now.style.now input.now.tracks input.now.items.now }
    requires space { IsKnownSpace space }
    requires fixed { HaveFixed rules.now }
    requires counted { length rules.now ≡ track_count input.now.tracks }
    requires few { track_count input.now.tracks < 2 ^ 32 }
    requires gap { pos 0 ≤ℤ gap }
    ensures value { IfOk result
        (λ sizes. sizes ≡
        track_sizes rules.now input.now.tracks.start input.now.items.now
        (fit_in (content_of input.now.style.now).border_box
        (grid_at AXIS input.now.style.now) (content_at AXIS input.now.style.now)
        space.entry gap)) }
    ensures counted { IfOk result (λ sizes. length sizes ≡ length rules.now) }
    ensures step { passes.new ≡ passes.old + 1 }
{
    let fit = fit_for::<AXIS>(input.style, space, gap);
    let first = input.tracks.start;
    let sizes = size_axis(alloc, rules.as_slice(), first, input.items, &fit, passes)?;
    Ok(Sequence::from_vec(sizes))
}

/// The tracks of an axis, sized for this space, where percentages are of this size, or of none (CSS Grid 2, section 12). It makes
/// one step. `NoMemory` where memory is wanting.
pub fn sized_for<const AXIS: u8, L: Ledger>(
    alloc: Global,
    input: &TrackInput<'_>,
    space: Space<AXIS>,
    base: Option<Lu>,
    passes: &mut Steps<L>,
) -> Result<SizedTracks, NoMemory>
    requires input { CanSize AXIS input.now.style.now input.now.tracks input.now.items.now }
    requires space { IsKnownSpace space }
    requires base { IsBase base }
    ensures value { IfOk result
        (λ sized. sized_of sized ≡
        sized_for
        (track_axis AXIS input.now.style.now input.now.count input.now.spans.now
        input.now.tracks input.now.items.now) space.entry base) }
    ensures counted { IfOk result (IsCounted input.now.tracks) }
    ensures step { OnOk result (passes.new ≡ passes.old + 1) }
    ensures stopped { OnErr result ((passes.old ≤ passes.new) × (passes.new ≤ passes.old + 1)) }
{
    let gap = gap_for::<AXIS>(input.style, &base);
    let rules = rules_for::<AXIS>(alloc, input, base)?;
    let sizes = sizes_for::<AXIS, L>(alloc, input, space, &rules, gap, passes)?;
    Ok(SizedTracks { rules, sizes, gap })
}

/// The total of the tracks of an axis with these rules and this gap, which are those where percentages are of nothing, for an
/// intrinsic space. It makes one step.
fn total_by<const AXIS: u8, L: Ledger>(
    alloc: Global,
    input: &TrackInput<'_>,
    space: Space<AXIS>,
    rules: &Sequence<Rule>,
    gap: Lu,
    passes: &mut Steps<L>,
) -> Result<Lu, NoMemory>
    requires input { CanSize AXIS input.now.style.now input.now.tracks input.now.items.now }
    requires space { IsKnownSpace space }
    requires fixed { HaveFixed rules.now }
    requires counted { length rules.now ≡ track_count input.now.tracks }
    requires few { track_count input.now.tracks < 2 ^ 32 }
    requires some { pos 0 ≤ℤ gap }
    requires rules { rules.now ≡
        axis_rules None (grid_at AXIS input.now.style.now)
        (written (grid_at AXIS input.now.style.now).template input.now.count)
        input.now.spans.now (tracks_of input.now.tracks) }
    requires gap { gap ≡ gap_by None (pos 0) (grid_at AXIS input.now.style.now).gap }
    ensures value { IfOk result
        (λ total. total ≡
        total_for
        (track_axis AXIS input.now.style.now input.now.count input.now.spans.now
        input.now.tracks input.now.items.now) space.entry) }
    ensures step { passes.new ≡ passes.old + 1 }
{
    let sizes = sizes_for::<AXIS, L>(alloc, input, space, rules, gap, passes)?;
    Ok(total_of_tracks(rules.as_slice(), sizes.as_slice(), gap).clamp())
}

/// The totals of the columns of a grid under a min-content and a max-content space, the second at least the first (CSS Grid 2,
/// 5.2). It makes two steps. `NoMemory` where memory is wanting.
pub fn intrinsic_totals<L: Ledger>(
    alloc: Global,
    input: &TrackInput<'_>,
    passes: &mut Steps<L>,
) -> Result<(Lu, Lu), NoMemory>
    requires { CanSize 0 input.now.style.now input.now.tracks input.now.items.now }
    ensures value { IfOk result
        (λ sizes. sizes ≡
        intrinsic_totals
        (track_axis 0 input.now.style.now input.now.count input.now.spans.now
        input.now.tracks input.now.items.now)) }
    ensures step { OnOk result (passes.new ≡ passes.old + 2) }
    ensures stopped { OnErr result ((passes.old ≤ passes.new) × (passes.new ≤ passes.old + 2)) }
{
    let gap = gap_for::<0>(input.style, &None);
    let rules = rules_for::<0>(alloc, input, None)?;
    let low = total_by::<0, L>(alloc, input, Space::MinContent, &rules, gap, passes)?;
    let high = total_by::<0, L>(alloc, input, Space::MaxContent, &rules, gap, passes)?;
    Ok((low, low.max(high)))
}
