//! Grids before their children are asked, as a node keeps them (own rule).

ghost use Rattle.std.specs.Prelude.{◌≡◌, [], ◌∷◌, take};
ghost use Rattle.std.specs.Option.{option_copied};
ghost use Rattle.placing.specs.Bases.{base_with, listed};

use crate::shared::SharedBase;
use layout_cache::same_counts;
use std::marker::Model;

/// The contexts of a grid with the areas of its children, each by the counts of its repetitions: at most two, the newest first, since a
/// grid is asked for its inline sizes, where its width is not known, and for its block size, where it is.
#[derive(Drop)]
pub struct Bases {
    newest: Option<SharedBase>,
    older: Option<SharedBase>,
}

impl Model for Bases {
    ghost use Rattle.std.specs.Prelude.{List, ◌++◌};
    ghost use Rattle.std.specs.Coded.{coded_list};
    ghost use Rattle.placing.specs.declared.wide.GridBase.{GridBase};
    ghost use Rattle.placing.specs.contracts.wide.GridBase as grid_base;

    ghost Value = { List GridBase };

    ghost coded = { coded_list grid_base.the_row.coded };

    ghost use Rattle.placing.specs.Bases.{listed};

    ghost view = { λ a. listed a.newest ++ listed a.older };
}

/// The base, where it has these counts.
fn with_counts<'a>(base: &'a Option<SharedBase>, pairs: &[(u32, u32)]) -> Option<&'a SharedBase>
    ensures { option_copied result ≡ base_with pairs.now (listed base.now) }
{
    match base {
        Some(base) => {
            if same_counts(base.grid().pairs.as_slice(), pairs) {
                Some(base)
            } else {
                None
            }
        }
        None => None,
    }
}

impl Bases {
    /// None. It takes no memory.
    pub fn new() -> Bases
        ensures { result ≡ [] }
    {
        Bases {
            newest: None,
            older: None,
        }
    }

    /// The newest with these counts, those of the grid itself last; `None` exactly where there is none.
    pub fn find(&self, pairs: &[(u32, u32)]) -> Option<&SharedBase>
        ensures { option_copied result ≡ base_with pairs.now self.now }
    {
        match with_counts(&self.newest, pairs) {
            Some(base) => Some(base),
            None => with_counts(&self.older, pairs),
        }
    }

    /// Puts one before the others, of which the newest stays. Takes no memory.
    pub fn put(&mut self, base: SharedBase)
        ensures { self.new ≡ base ∷ take 1 self.old }
    {
        let before = self.newest.take();
        if before.is_some() {
            self.older = before;
        }
        self.newest = Some(base);
    }

    /// Lets all go.
    pub fn clear(&mut self)
        ensures { self.new ≡ [] }
    {
        self.newest = None;
        self.older = None;
    }
}
