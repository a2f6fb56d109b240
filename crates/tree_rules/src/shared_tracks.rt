//! The tracks that a subgrid is given. All who hold them share them.

ghost use Rattle.std.specs.Prelude.{◌≡◌, ◌&&◌, ℤ, IfOk};
ghost use Rattle.std.specs.Cmp.{and_equiv, and_per, on_equiv, on_per, partial_equiv_from_equiv};
ghost use Rattle.std.specs.Cmp.Lexicographic.{lists_equiv, lists_per, pointwise};
ghost use Rattle.std.specs.Ordering.{int_eq};
ghost use Rattle.std.proofs.lemmas.Cmp.{int_eq_equiv};

use lunit::{NoMemory, Sequence};
use std::alloc::Global;
use std::marker::Model;
use std::rc::Rc;

/// Tracks as a subgrid sees them: the start and the end of each, in units of 1/64 px. A list is made once, and all who hold it
/// share it.
#[derive(Debug, Drop)]
pub struct SharedTracks {
    tracks: Rc<Sequence<(i64, i64)>>,
}

impl Model for SharedTracks {
    ghost use Rattle.std.specs.Prelude.{List, ℤ};
    ghost use Rattle.std.specs.Coded.{coded×, coded_list, coded_ℤ};

    ghost Value = { List (ℤ × ℤ) };

    ghost coded = { coded_list (coded× coded_ℤ coded_ℤ) };

    ghost view = { λ a. a.tracks.value };
}

impl SharedTracks {
    /// These tracks; `NoMemory` where memory is wanting.
    pub fn new(alloc: Global, tracks: Sequence<(i64, i64)>) -> Result<SharedTracks, NoMemory>
        ensures { IfOk result (λ made. made ≡ tracks) }
    {
        Ok(SharedTracks {
            tracks: Rc::new(alloc, tracks)?,
        })
    }

    /// These tracks once more. Takes no memory; `NoMemory` only where they are shared more often
    /// than can be counted.
    pub fn again(&self) -> Result<SharedTracks, NoMemory>
        ensures { IfOk result (λ other. other ≡ self.now) }
    {
        Ok(SharedTracks {
            tracks: self.tracks.clone()?,
        })
    }

    /// The tracks in order.
    pub fn as_slice(&self) -> &[(i64, i64)]
        ensures { result.now ≡ self.now }
    {
        self.tracks.as_ref().as_slice()
    }
}

impl PartialEq for SharedTracks {
    ghost eq = { pointwise (λ (x y : ℤ × ℤ). int_eq x.0 y.0 && int_eq x.1 y.1) };

    ghost laws = { lists_per (and_per (on_per (λ (x : ℤ × ℤ). x.0) (partial_equiv_from_equiv int_eq_equiv)) (on_per (λ (x : ℤ × ℤ). x.1) (partial_equiv_from_equiv int_eq_equiv))) };

    fn eq(&self, other: &SharedTracks) -> bool {
        self.as_slice() == other.as_slice()
    }
}

impl Eq for SharedTracks {
    ghost laws = { lists_equiv (and_equiv (on_equiv (λ (x : ℤ × ℤ). x.0) int_eq_equiv) (on_equiv (λ (x : ℤ × ℤ). x.1) int_eq_equiv)) };
}
