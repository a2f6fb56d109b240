//! The rows of a grid, sized for its content (CSS Grid 2, 12.1), and where they lie where its content box is as great as that.

ghost use Rattle.std.specs.Prelude.{◌≡◌, ◌+◌, ◌^◌, ◌≤◌, false, length, IfOk, IfSome};
ghost use Rattle.placing.specs.Nodes.{bare, sight_at, IsLive};
ghost use Rattle.placing.specs.Ranges.{AreReadable};
ghost use Rattle.part_rules.specs.declared.track.Space.TheVariants.{MaxContent};
ghost use Rattle.placing.specs.Spread.{AreSpread};
ghost use Rattle.placing.specs.Told.{AreRowsFor, row_axis};
ghost use Rattle.placing.specs.Wides.{HoldsRows};
ghost use Rattle.tree_rules.specs.Distribution.{edges_in};
ghost use Rattle.tree_rules.specs.GridSizes.{grid_block, total_for};
ghost use Rattle.tree_rules.specs.Places.{Seen};
ghost use Rattle.tree_rules.specs.Queries.{sees_rows};
ghost use Rattle.tree_rules.specs.declared.kind.NodeKind.TheVariants as kind;
ghost use Rattle.inline_sizes.specs.GridsSeen.{grid_seen};
ghost use Rattle.inline_sizes.specs.Styled.{content_at};
ghost use Rattle.inline_sizes.specs.TrackAxes.{sized_of};
ghost use Rattle.block_sizes.specs.Wides.{IsWide, rows_seen};
ghost use Rattle.placing.specs.declared.wide.GridBase.{GridBase};

use crate::edges::edges_in;
use crate::wide::row_spans;
use inline_sizes::{SizedTracks, TrackInput, items_lie_in_their_tracks, lasting_for};
use layout_cache::Given;
use lunit::{Lu, NoMemory, Steps};
use node_arena::{Arena, NodeId};
use part_rules::View;
use placing::counts::own_pair;
use placing::style::distribution;
use placing::{GridWide, Node, RowsAt, node_at};
use std::alloc::Global;
use std::sync::ledger::Ledger;
use style_types::Style;

/// The most rows that a grid holds beside its answer (own rule): the list of where they lie takes 16 bytes a row, and to size them
/// once more takes one pass over them.
const MOST_ROWS: usize = 8192;

/// Where rows of these sizes lie in a content box that is as great as they are. `NoMemory` where memory is wanting.
fn rows_at(alloc: Global, style: &Style, size: Lu, tracks: &SizedTracks) -> Result<RowsAt, NoMemory>
    requires few { length tracks.now.rules ≤ 131072 }
    requires sizes { length tracks.now.sizes ≡ length tracks.now.rules }
    ensures size { IfOk result (λ rows. rows.size ≡ size) }
    ensures view { IfOk result
        (λ rows. rows.view ≡
        record {
          edges = edges_in (content_at 1 style.now).distribution size (sized_of tracks.now);
          gap = tracks.now.gap;
        }) }
    ensures counted { IfOk result (λ rows. length rows.view.edges ≡ length tracks.now.rules) }
    ensures spread { IfOk result (λ rows. AreSpread (2 ^ 50 + 2 ^ 34) rows.view.edges) }
{
    let align = distribution::<1>(style);
    let rules = tracks.rules.as_slice();
    let edges = edges_in(
        alloc,
        &align,
        size,
        rules,
        tracks.sizes.as_slice(),
        tracks.gap,
    )?;
    let gap = tracks.gap;
    Ok(RowsAt {
        size,
        view: View { edges, gap },
    })
}

/// The block size of the content of a grid that sizes its rows, the total of the rows under a max-content space (CSS Grid 2, 5.2), and
/// where these lie in a content box of that size, if it is known at once and they are not too many. It makes one step. `NoMemory` where
/// memory is wanting.
fn rows_total<L: Ledger>(
    alloc: Global,
    tree: &Arena<Node>,
    id: NodeId,
    reps: &[(u32, u32)],
    width: &Given,
    wide: &GridWide,
    passes: &mut Steps<L>,
) -> Result<(Lu, Option<RowsAt>), NoMemory>
    requires live { IsLive (bare tree.now.tree) id }
    requires readable { AreReadable (bare tree.now.tree) }
    requires kind { (sight_at (bare tree.now.tree) id).label.kind ≡ kind.Grid }
    requires own { sees_rows (sight_at (bare tree.now.tree) id) ≡ false }
    requires wide { IsWide (bare tree.now.tree) id reps.now width.now wide.now }
    ensures value { IfOk result
        (λ laid. laid.0 ≡
        grid_block (grid_seen (bare tree.now.tree) id reps.now width.now)
        (rows_seen (bare tree.now.tree) id reps.now width.now)) }
    ensures rows { IfOk result
        (λ laid. IfSome laid.1
        (HoldsRows (rows_seen (bare tree.now.tree) id reps.now width.now)
        wide.now.parts.base.placed.rows)) }
    ensures size { IfOk result (λ laid. IfSome laid.1 (λ rows. rows.size ≡ laid.0)) }
    ensures ticks { passes.new ≤ passes.old + 1 }
{
    items_lie_in_their_tracks(tree, id);
    let base = wide.parts.base.grid();
    let style = &node_at(tree, id).style;
    let pair = own_pair(alloc, style, &Given::None)?;
    let spans = row_spans(alloc, base.placed.areas.as_slice())?;
    let input = TrackInput {
        style,
        count: pair.1,
        spans: &spans,
        tracks: base.placed.rows,
        items: wide.items.as_slice(),
    };
    let made = lasting_for::<1, L>(alloc, &input, passes)?;
    if !made.lasting || made.tracks.rules.len() > MOST_ROWS {
        return Ok((made.total, None));
    }
    let rows = rows_at(alloc, style, made.total, &made.tracks)?;
    Ok((made.total, Some(rows)))
}

/// The block size of the content of a grid that sizes its rows, by the rows that it holds for a content box as great as its content.
fn size_of_rows(wide: &GridWide) -> Option<Lu>
    ensures { IfSome result
        (λ size. (base : GridBase) → (s : Seen) →
        IfSome wide.now.rows (AreRowsFor s base wide.now.items) →
        size ≡ total_for {axis = 1} (row_axis s base wide.now.items) MaxContent) }
{
    match &wide.rows {
        Some(rows) => Some(rows.size),
        None => None,
    }
}

/// The block size of the content of a grid that sizes its rows, and the grid, which holds its rows
/// if they are known at once. Where it holds them already, nothing is done.
pub(crate) fn laid_rows<L: Ledger>(
    alloc: Global,
    tree: &Arena<Node>,
    id: NodeId,
    reps: &[(u32, u32)],
    width: &Given,
    wide: GridWide,
    passes: &mut Steps<L>,
) -> Result<(Lu, GridWide), NoMemory>
    requires live { IsLive (bare tree.now.tree) id }
    requires readable { AreReadable (bare tree.now.tree) }
    requires kind { (sight_at (bare tree.now.tree) id).label.kind ≡ kind.Grid }
    requires own { sees_rows (sight_at (bare tree.now.tree) id) ≡ false }
    requires wide { IsWide (bare tree.now.tree) id reps.now width.now wide }
    requires laid { IfSome wide.rows
        (AreRowsFor (sight_at (bare tree.now.tree) id) wide.parts.base wide.items) }
    ensures value { IfOk result
        (λ laid. laid.0 ≡
        grid_block (grid_seen (bare tree.now.tree) id reps.now width.now)
        (rows_seen (bare tree.now.tree) id reps.now width.now)) }
    ensures wide { IfOk result (λ laid. IsWide (bare tree.now.tree) id reps.now width.now laid.1) }
    ensures same { IfOk result (λ laid. laid.1 ≡ record wide { rows = laid.1.rows }) }
    ensures laid { IfOk result
        (λ laid. IfSome laid.1.rows
        (AreRowsFor (sight_at (bare tree.now.tree) id) wide.parts.base wide.items)) }
    ensures ticks { passes.new ≤ passes.old + 1 }
{
    items_lie_in_their_tracks(tree, id);
    if let Some(size) = size_of_rows(&wide) {
        return Ok((size, wide));
    }
    let (size, rows) = rows_total(alloc, tree, id, reps, width, &wide, passes)?;
    let mut laid = wide;
    laid.rows = rows;
    Ok((size, laid))
}
