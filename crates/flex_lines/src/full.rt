//! Lines that their items fill just as they are.

ghost use Rattle.std.specs.Prelude.{◌≡◌, true, IfOk};
ghost use Rattle.flex_lines.specs.Filling.{bases_of, AreSized, IsSized};

use crate::compare::is_same;
use crate::limits::hypothetical;
use lunit::{Lu, NoMemory};
use part_rules::FlexItem;
use std::alloc::Global;

/// Whether the limits of an item leave its base size as it is.
fn is_sized(item: &FlexItem) -> bool
    ensures { result ≡ true → IsSized item.now }
{
    let size = hypothetical(item).wide();
    let base = item.base.wide();
    is_same(size, base)
}

/// Whether the limits of all items leave their base sizes as they are.
pub fn are_sized(items: &[FlexItem]) -> bool
    ensures { result ≡ true → AreSized items.now }
{
    for item in items {
        if !is_sized(item) {
            return false;
        }
    }
    true
}

/// The base sizes of items.
pub fn bases_of(alloc: Global, items: &[FlexItem]) -> Result<Vec<Lu>, NoMemory>
    ensures { IfOk result (λ sizes. sizes.items ≡ bases_of items.now) }
{
    let mut sizes = Vec::with_capacity(alloc, items.len())?;
    for item in items {
        sizes.push(item.base)?;
    }
    Ok(sizes)
}
