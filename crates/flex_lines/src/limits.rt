//! The limits of the main size of an item.

ghost use Rattle.std.specs.Prelude.{◌≡◌, ◌+ℤ◌};
ghost use Rattle.lunit.specs.Units.{IsUnits};
ghost use Rattle.part_rules.specs.FlexLines.{hypothetical, limited_main, outer_hypothetical};
ghost use Rattle.part_rules.specs.Lists.{at_most};
ghost use Rattle.flex_lines.specs.Ranges.{IsOuter, IsSize};

use lunit::{Lu, Wide};
use part_rules::FlexItem;

#[tactic(auto, using(crate::proofs::Sizes::at_most_size, crate::proofs::Sizes::at_most_units))]
/// The number, but at most a limit.
fn at_most(limit: Option<Lu>, number: Wide) -> Wide
    requires { IsSize number }
    ensures value { result ≡ at_most limit number }
    ensures size { IsSize result }
    ensures length { IsUnits number → IsUnits result }
{
    match limit {
        Some(limit) => limit.wide().min(number),
        None => number,
    }
}

#[tactic(auto, using(crate::proofs::Sizes::at_least_size, crate::proofs::Sizes::at_least_units))]
/// A size limited by the maximum of an item, and then by its minimum and by borders and paddings (CSS Flexbox 1, 9.7).
pub fn limited_main(item: &FlexItem, size: Wide) -> Wide
    requires { IsSize size }
    ensures value { result ≡ limited_main item.now size }
    ensures size { IsSize result }
    ensures length { IsUnits size → IsUnits result }
{
    let least = item.min.wide().max(at_most(item.max, size));
    item.inner.wide().max(least)
}

#[tactic(auto, using(crate::proofs::Sizes::clamp_units))]
/// The hypothetical main size of an item (CSS Flexbox 1, 9.2).
pub fn hypothetical(item: &FlexItem) -> Lu
    ensures { result ≡ hypothetical item.now }
{
    limited_main(item, item.base.wide()).clamp()
}

/// The hypothetical main size of an item with its margins.
pub fn outer_hypothetical(item: &FlexItem) -> Wide
    ensures value { result ≡ outer_hypothetical item.now }
    ensures range { IsOuter result }
{
    hypothetical(item).wide() + item.margins.wide()
}
