//! The six steps for a group of items (CSS Grid 2, 12.5, step 3).

ghost use Rattle.std.specs.Prelude.{◌≡◌, ◌<◌, ◌^◌, length, map};
ghost use Rattle.part_rules.specs.Tracks.{each_distributed, group_fitted, is_definite, is_max_content};
ghost use Rattle.track_sizing.specs.Groups.{AreAtBase, base_steps_of, last_steps_of, passed};
ghost use Rattle.track_sizing.specs.Placed.{AreIn, AreSet};

use crate::distribute::{
    distribute_bases, distribute_high_limits, distribute_low_limits, distribute_more_bases,
    raise_limits_to_bases,
};
use crate::item::Asks;
use crate::kinds::{Affected, Kind};
use crate::row::Row;
use crate::step::BaseStep;
use lunit::{Item, Lu, Wide};
use part_rules::{Share, Space};

/// Whether the space is definite.
pub fn is_definite<const AXIS: u8>(space: &Space<AXIS>) -> bool
    ensures { result ≡ is_definite space.now }
{
    match space {
        Space::Definite(_) => true,
        _ => false,
    }
}

/// Whether the tracks are sized for their max-content contributions.
pub fn is_max_content<const AXIS: u8>(space: &Space<AXIS>) -> bool
    ensures { result ≡ is_max_content space.now }
{
    match space {
        Space::MaxContent => true,
        _ => false,
    }
}

/// The last steps on base sizes: for limited max-content contributions where the space is max-content, and for max-content
/// contributions.
fn fit_last_bases(
    definite: bool,
    max: bool,
    gap: Lu,
    crossing: bool,
    first: Wide,
    items: &[Item],
    rows: &mut [Row],
    takers: &mut [Share],
)
    requires few { length rows.old < 2 ^ 32 }
    requires length { length takers.old ≡ length rows.old }
    requires set { AreSet first rows.old }
    requires raised { AreAtBase rows.old }
    requires items { AreIn first (length rows.old) items.now }
    ensures rows { rows.new ≡
        each_distributed (last_steps_of definite max gap crossing) gap items.now rows.old }
    ensures set { AreSet first rows.new }
{
    let limited = BaseStep {
        affected: Affected {
            kind: Kind::AutoOrMaxContentLeast,
            crossing,
        },
        receives: Kind::MaxContentMost,
        asks: Asks::LimitedHigh,
    };
    let whole = BaseStep {
        affected: Affected {
            kind: Kind::MaxContentLeast,
            crossing,
        },
        receives: Kind::MaxContentMost,
        asks: Asks::High,
    };
    if max {
        distribute_more_bases(&limited, definite, gap, first, items, rows, takers);
        distribute_more_bases(&whole, definite, gap, first, items, rows, takers);
    } else {
        distribute_more_bases(&whole, definite, gap, first, items, rows, takers);
    }
}

/// The steps on base sizes.
fn fit_bases(
    definite: bool,
    max: bool,
    gap: Lu,
    crossing: bool,
    first: Wide,
    items: &[Item],
    rows: &mut [Row],
    takers: &mut [Share],
)
    requires few { length rows.old < 2 ^ 32 }
    requires length { length takers.old ≡ length rows.old }
    requires set { AreSet first rows.old }
    requires items { AreIn first (length rows.old) items.now }
    ensures rows { rows.new ≡
        each_distributed (base_steps_of definite max gap crossing) gap items.now rows.old }
    ensures set { AreSet first rows.new }
{
    let minimum = BaseStep {
        affected: Affected {
            kind: Kind::IntrinsicLeast,
            crossing,
        },
        receives: Kind::IntrinsicMost,
        asks: Asks::Minimum,
    };
    let low = BaseStep {
        affected: Affected {
            kind: Kind::ContentLeast,
            crossing,
        },
        receives: Kind::IntrinsicMost,
        asks: Asks::Low,
    };
    distribute_bases(&minimum, definite, gap, first, items, rows, takers);
    distribute_more_bases(&low, definite, gap, first, items, rows, takers);
    fit_last_bases(definite, max, gap, crossing, first, items, rows, takers);
}

#[tactic(auto, unfolding(part_rules::specs::Tracks::group_fitted))]
/// The six steps for a group of items: base sizes, growth limits below them, and growth limits.
pub fn fit_group<const AXIS: u8>(
    space: &Space<AXIS>,
    gap: Lu,
    crossing: bool,
    first: Wide,
    items: &[Item],
    rows: &mut [Row],
    takers: &mut [Share],
)
    requires few { length rows.old < 2 ^ 32 }
    requires length { length takers.old ≡ length rows.old }
    requires set { AreSet first rows.old }
    requires items { AreIn first (length rows.old) items.now }
    ensures rows { rows.new ≡ group_fitted space.now gap crossing items.now rows.old }
    ensures set { AreSet first rows.new }
{
    let definite = is_definite(space);
    let max = is_max_content(space);
    fit_bases(definite, max, gap, crossing, first, items, rows, takers);
    raise_limits_to_bases(first, rows);
    distribute_low_limits(crossing, gap, first, items, rows, takers);
    distribute_high_limits(crossing, gap, first, items, rows, takers);
}

/// The track after the steps for a group whose items give it nothing.
fn passed(row: &Row) -> Row
    ensures { result ≡ passed row.now }
{
    row.raised_base().raise_limit().with_endless(false)
}

#[tactic(auto, using(crate::proofs::Loops::changing))]
/// The tracks after the steps for a group whose items give them nothing.
fn pass_each(rows: &mut [Row])
    ensures { rows.new ≡ map passed rows.old }
{
    for row in rows.iter_mut() {
        *row = passed(row);
    }
}

/// The tracks after the steps for a group whose items give them nothing.
pub fn pass_group(first: Wide, rows: &mut [Row])
    requires { AreSet first rows.old }
    ensures rows { rows.new ≡ map passed rows.old }
    ensures set { AreSet first rows.new }
{
    pass_each(rows);
}
