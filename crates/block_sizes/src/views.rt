//! The tracks of an axis as they lie in their container (CSS Grid 2, section 12; CSS Box Alignment 3, section 5).

ghost use Rattle.std.specs.Prelude.{◌≡◌, ◌+◌, ◌^◌, ◌≤◌, ◌≤ℤ◌, ℕ, Bool, length, pos, true, IfOk};
ghost use Rattle.lunit.specs.Units.{IsUnits};
ghost use Rattle.part_rules.specs.declared.track.Space.{Space};
ghost use Rattle.placing.specs.Counted.{IsGivenSize};
ghost use Rattle.track_sizing.specs.Fits.{IsKnownSpace};
ghost use Rattle.tree_rules.specs.GridSizes.{view_by, view_for};
ghost use Rattle.tree_rules.specs.Queries.{IsGivenFor};
ghost use Rattle.inline_sizes.specs.TrackAxes.{CanSize, track_axis, track_count};
ghost use Rattle.block_sizes.specs.Fitting.{CanSizeFor};
ghost use Rattle.placing.specs.Spread.{AreSpread, IsSpread};

use crate::edges::edges_in;
use inline_sizes::{TrackInput, sized_for};
use lunit::{Along, Lu, NoMemory, Sequence, Steps};
use part_rules::View;
use placing::style::distribution;
use std::alloc::Global;
use std::sync::ledger::Ledger;
use track_sizing::Space;
use tree_rules::Given;

/// A definite space of this size.
fn definite<const AXIS: u8>(size: Lu) -> Space<AXIS>
    ensures value { result ≡ Space.Definite size }
    ensures known { IsKnownSpace result }
{
    Space::Definite(Along::of(size.wide().units()))
}

/// Tracks that lie so, with this gap between two of them.
fn view_with<const AXIS: u8>(edges: Sequence<(i64, i64)>, gap: Lu) -> View<AXIS>
    ensures value { result ≡ record { edges = edges; gap = gap } }
    ensures range { IsUnits result.gap }
{
    View { edges, gap }
}

/// The tracks of an axis in a container whose content box has this size: sized for it as a definite space, of which percentages
/// are, and moved in it by the content distribution (CSS Grid 2, section 12; CSS Box Alignment 3, section 5). It makes at most one
/// step.
///
/// `NoMemory` where memory is wanting.
pub fn view_for<const AXIS: u8, L: Ledger>(
    alloc: Global,
    input: &TrackInput<'_>,
    size: Lu,
    passes: &mut Steps<L>,
) -> Result<View<AXIS>, NoMemory>
    requires input { CanSize AXIS input.now.style.now input.now.tracks input.now.items.now }
    requires few { track_count input.now.tracks ≤ 131072 }
    requires size { pos 0 ≤ℤ size }
    ensures value { IfOk result
        (λ view. view ≡
        view_for {axis = AXIS}
        (track_axis AXIS input.now.style.now input.now.count input.now.spans.now
        input.now.tracks input.now.items.now) size) }
    ensures counted { IfOk result (λ view. length view.edges ≡ track_count input.now.tracks) }
    ensures gap { IfOk result (λ view. pos 0 ≤ℤ view.gap) }
    ensures range { IfOk result (λ view. IsUnits view.gap) }
    ensures spread { IfOk result (λ view. AreSpread (2 ^ 50 + 2 ^ 34) view.edges) }
    ensures kept { passes.old ≤ passes.new }
    ensures ticks { passes.new ≤ passes.old + 1 }
{
    let sized = sized_for::<AXIS, L>(alloc, input, definite::<AXIS>(size), Some(size), passes)?;
    let align = distribution::<AXIS>(input.style);
    let rules = sized.rules.as_slice();
    let edges = edges_in(
        alloc,
        &align,
        size,
        rules,
        sized.sizes.as_slice(),
        sized.gap,
    )?;
    Ok(view_with(edges, sized.gap))
}

/// The tracks of an axis by what the grid is given there: those that a subgrid sees, or those of a grid whose content box has this
/// size, or size 0 where none is given. It makes at most one step.
///
/// `NoMemory` where memory is wanting.
pub fn view_by<const AXIS: u8, L: Ledger>(
    alloc: Global,
    input: &TrackInput<'_>,
    given: &Given,
    passes: &mut Steps<L>,
) -> Result<View<AXIS>, NoMemory>
    requires input { CanSizeFor given.now AXIS input.now.style.now input.now.tracks
        input.now.items.now }
    requires few { track_count input.now.tracks ≤ 131072 }
    requires given { IsGivenSize given.now }
    ensures value { IfOk result
        (λ view. view ≡
        view_by {axis = AXIS}
        (track_axis AXIS input.now.style.now input.now.count input.now.spans.now
        input.now.tracks input.now.items.now) given.now) }
    ensures counted { (shared : Bool) →
        IsGivenFor true shared (track_count input.now.tracks) given.now →
        IfOk result (λ view. length view.edges ≡ track_count input.now.tracks) }
    ensures gap { (shared : Bool) →
        IsGivenFor true shared (track_count input.now.tracks) given.now →
        IfOk result (λ view. pos 0 ≤ℤ view.gap) }
    ensures range { IfOk result (λ view. IsUnits view.gap) }
    ensures spread { (by : ℕ) → 2 ^ 51 ≤ by → IsSpread by given.now →
        IfOk result (λ view. AreSpread by view.edges) }
    ensures kept { passes.old ≤ passes.new }
    ensures ticks { passes.new ≤ passes.old + 1 }
{
    match given {
        Given::Tracks(edges, gap) => {
            let edges = Sequence::from_slice(alloc, edges.as_slice())?;
            Ok(view_with(edges, *gap))
        }
        Given::Size(size) => {
            let view = view_for::<AXIS, L>(alloc, input, *size, passes)?;
            Ok(view)
        }
        Given::None => {
            let view = view_for::<AXIS, L>(alloc, input, Lu::default(), passes)?;
            Ok(view)
        }
    }
}
