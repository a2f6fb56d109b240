//! Tracks that are sized for their content, and whether their sizes last where the grid is as great as that (CSS Grid 2, 12.3).

ghost use Rattle.std.specs.Prelude.{◌≡◌, ◌+◌, ◌<◌, ◌≤◌, ◌^◌, ◌≤ℤ◌, None, Some, length, pos, true, IfOk, IfSome, OnErr, OnOk};
ghost use Rattle.lunit.specs.Units.{clamp, top};
ghost use Rattle.part_rules.specs.Tracks.{track_sizes};
ghost use Rattle.track_sizing.specs.Again.{DoLast};
ghost use Rattle.track_sizing.specs.Fits.{HaveFixed};
ghost use Rattle.tree_rules.specs.Labels.{content_of};
ghost use Rattle.part_rules.specs.declared.track.Space.TheVariants.{Definite, MaxContent};
ghost use Rattle.tree_rules.specs.GridSizes.{sized_for, total_for};
ghost use Rattle.tree_rules.specs.Repetitions.{gap_by};
ghost use Rattle.tree_rules.specs.Templates.{written};
ghost use Rattle.tree_rules.specs.TrackRules.{axis_rules, tracks_of};
ghost use Rattle.inline_sizes.specs.Styled.{content_at, grid_at};
ghost use Rattle.inline_sizes.specs.TrackAxes.{CanSize, IsCounted, fit_in, sized_of, track_axis, track_count};

use crate::distribution::total_of_tracks;
use crate::tracks::{SizedTracks, TrackInput, fit_for, gap_for, rules_for};
use lunit::{Lu, NoMemory, Sequence, Steps, Wide};
use part_rules::{Least, Most, Rule};
use std::alloc::Global;
use std::sync::ledger::Ledger;
use track_sizing::{Space, size_axis_lasting};

/// The tracks of an axis, sized for a max-content space.
#[derive(Drop)]
pub struct LastingTracks {
    /// The tracks.
    pub tracks: SizedTracks,
    /// Their total with the gutters, in units of 1/64 px.
    pub total: Lu,
    /// Whether they are surely the tracks for their total as a definite space too. It can be `false` where they are.
    pub lasting: bool,
}

fn same_least(a: &Least, b: &Least) -> bool
    ensures { result ≡ true → a.now ≡ b.now }
{
    match (a, b) {
        (Least::Fixed(x), Least::Fixed(y)) => x.units() == y.units(),
        (Least::Auto, Least::Auto) => true,
        (Least::MinContent, Least::MinContent) => true,
        (Least::MaxContent, Least::MaxContent) => true,
        _ => false,
    }
}

fn same_most(a: &Most, b: &Most) -> bool
    ensures { result ≡ true → a.now ≡ b.now }
{
    match (a, b) {
        (Most::Fixed(x), Most::Fixed(y)) => x.units() == y.units(),
        (Most::Fit(x), Most::Fit(y)) => x.units() == y.units(),
        (Most::Flex(x), Most::Flex(y)) => x == y,
        (Most::Auto, Most::Auto) => true,
        (Most::MinContent, Most::MinContent) => true,
        (Most::MaxContent, Most::MaxContent) => true,
        _ => false,
    }
}

fn same_rule(a: &Rule, b: &Rule) -> bool
    ensures { result ≡ true → a.now ≡ b.now }
{
    if a.collapsed != b.collapsed {
        return false;
    }
    same_least(&a.least, &b.least) && same_most(&a.most, &b.most)
}

#[tactic(auto, using(crate::proofs::Lastings::same_laws))]
/// Whether the tracks are sized in the same way.
fn same_rules(a: &[Rule], b: &[Rule]) -> bool
    ensures { result ≡ true → a.now ≡ b.now }
{
    if a.len() != b.len() {
        return false;
    }
    for index in 0..a.len() {
        if !same_rule(&a[index], &b[index]) {
            return false;
        }
    }
    true
}

/// Whether a sum is a length of at least 0.
fn is_length(sum: Wide) -> bool
    ensures { result ≡ true → (pos 0 ≤ℤ sum) × (sum ≤ℤ top) }
{
    Wide::of(0) <= sum && sum <= Wide::of(1 << 30)
}

/// The length that a sum is, where it is one of at least 0.
fn length_of(sum: Wide) -> Option<Lu>
    ensures value { IfSome result (λ length. length ≡ clamp sum) }
    ensures low { IfSome result (λ length. pos 0 ≤ℤ length) }
    ensures same { IfSome result (λ length. clamp sum ≡ sum) }
    ensures high { IfSome result (λ length. sum ≤ℤ top) }
{
    if is_length(sum) {
        return Some(sum.clamp());
    }
    None
}

/// Whether the tracks of an axis are sized in this way, and have this gap, where percentages are of this size.
fn same_with_base<const AXIS: u8>(
    alloc: Global,
    input: &TrackInput<'_>,
    base: Lu,
    rules: &[Rule],
    gap: Lu,
) -> Result<bool, NoMemory>
    requires input { CanSize AXIS input.now.style.now input.now.tracks input.now.items.now }
    requires base { pos 0 ≤ℤ base }
    ensures rules { IfOk result
        (λ same. same ≡ true →
        rules.now ≡
        axis_rules (Some base) (grid_at AXIS input.now.style.now)
        (written (grid_at AXIS input.now.style.now).template input.now.count)
        input.now.spans.now (tracks_of input.now.tracks)) }
    ensures gap { IfOk result
        (λ same. same ≡ true →
        gap ≡ gap_by (Some base) (pos 0) (grid_at AXIS input.now.style.now).gap) }
{
    let base = Some(base);
    if gap_for::<AXIS>(input.style, &base).units() != gap.units() {
        return Ok(false);
    }
    let others = rules_for::<AXIS>(alloc, input, base)?;
    Ok(same_rules(rules, others.as_slice()))
}

/// Whether tracks whose sizes last are the tracks for their total as a definite space too.
fn lasts<const AXIS: u8>(
    alloc: Global,
    input: &TrackInput<'_>,
    lasting: bool,
    total: Wide,
    rules: &[Rule],
    gap: Lu,
) -> Result<bool, NoMemory>
    requires { CanSize AXIS input.now.style.now input.now.tracks input.now.items.now }
    ensures sizes { IfOk result (λ lasts. lasts ≡ true → lasting ≡ true) }
    ensures low { IfOk result (λ lasts. lasts ≡ true → pos 0 ≤ℤ clamp total) }
    ensures same { IfOk result (λ lasts. lasts ≡ true → clamp total ≡ total) }
    ensures high { IfOk result (λ lasts. lasts ≡ true → total ≤ℤ top) }
    ensures rules { IfOk result
        (λ lasts. lasts ≡ true →
        rules.now ≡
        axis_rules (Some (clamp total)) (grid_at AXIS input.now.style.now)
        (written (grid_at AXIS input.now.style.now).template input.now.count)
        input.now.spans.now (tracks_of input.now.tracks)) }
    ensures gap { IfOk result
        (λ lasts. lasts ≡ true →
        gap ≡ gap_by (Some (clamp total)) (pos 0) (grid_at AXIS input.now.style.now).gap) }
{
    if !lasting {
        return Ok(false);
    }
    match length_of(total) {
        Some(length) => same_with_base::<AXIS>(alloc, input, length, rules, gap),
        None => Ok(false),
    }
}

#[tactic(auto, using(crate::proofs::Lengths::sizes_counted))]
/// The sizes of the tracks of an axis with these rules and this gap for a max-content space, and whether they last. It makes one step.
fn lasting_sizes<const AXIS: u8, L: Ledger>(
    alloc: Global,
    input: &TrackInput<'_>,
    rules: &Sequence<Rule>,
    gap: Lu,
    passes: &mut Steps<L>,
) -> Result<(Sequence<Lu>, bool), NoMemory>
    requires input { CanSize AXIS input.now.style.now input.now.tracks input.now.items.now }
    requires fixed { HaveFixed rules.now }
    requires counted { length rules.now ≡ track_count input.now.tracks }
    requires few { track_count input.now.tracks < 2 ^ 32 }
    requires gap { pos 0 ≤ℤ gap }
    ensures value { IfOk result
        (λ made. made.0 ≡
        track_sizes rules.now input.now.tracks.start input.now.items.now
        (fit_in {axis = AXIS} (content_of input.now.style.now).border_box
        (grid_at AXIS input.now.style.now) (content_at AXIS input.now.style.now)
        MaxContent gap)) }
    ensures lasting { IfOk result
        (λ made. made.1 ≡ true →
        DoLast rules.now input.now.tracks.start input.now.items.now
        (fit_in {axis = AXIS} (content_of input.now.style.now).border_box
        (grid_at AXIS input.now.style.now) (content_at AXIS input.now.style.now)
        MaxContent gap) made.0) }
    ensures counted { IfOk result (λ made. length made.0 ≡ length rules.now) }
    ensures step { passes.new ≡ passes.old + 1 }
{
    let fit = fit_for::<AXIS>(input.style, Space::MaxContent, gap);
    let first = input.tracks.start;
    let made = size_axis_lasting(alloc, rules.as_slice(), first, input.items, &fit, passes)?;
    Ok((Sequence::from_vec(made.sizes), made.lasting))
}

/// The tracks of an axis, sized for a max-content space where percentages are of nothing, and whether they last. It makes one step.
/// `NoMemory` where memory is wanting.
pub fn lasting_for<const AXIS: u8, L: Ledger>(
    alloc: Global,
    input: &TrackInput<'_>,
    passes: &mut Steps<L>,
) -> Result<LastingTracks, NoMemory>
    requires { CanSize AXIS input.now.style.now input.now.tracks input.now.items.now }
    ensures total { IfOk result
        (λ made. made.total ≡
        total_for {axis = AXIS}
        (track_axis AXIS input.now.style.now input.now.count input.now.spans.now
        input.now.tracks input.now.items.now) MaxContent) }
    ensures lasting { IfOk result
        (λ made. made.lasting ≡ true →
        sized_of made.tracks ≡
        sized_for {axis = AXIS}
        (track_axis AXIS input.now.style.now input.now.count input.now.spans.now
        input.now.tracks input.now.items.now) (Definite made.total)
        (Some made.total)) }
    ensures some { IfOk result (λ made. made.lasting ≡ true → pos 0 ≤ℤ made.total) }
    ensures counted { IfOk result (λ made. IsCounted input.now.tracks made.tracks) }
    ensures step { OnOk result (passes.new ≡ passes.old + 1) }
    ensures stopped { OnErr result ((passes.old ≤ passes.new) × (passes.new ≤ passes.old + 1)) }
{
    let gap = gap_for::<AXIS>(input.style, &None);
    let rules = rules_for::<AXIS>(alloc, input, None)?;
    let (sizes, last) = lasting_sizes::<AXIS, L>(alloc, input, &rules, gap, passes)?;
    let total = total_of_tracks(rules.as_slice(), sizes.as_slice(), gap);
    let lasting = lasts::<AXIS>(alloc, input, last, total, rules.as_slice(), gap)?;
    Ok(LastingTracks {
        tracks: SizedTracks { rules, sizes, gap },
        total: total.clamp(),
        lasting,
    })
}
