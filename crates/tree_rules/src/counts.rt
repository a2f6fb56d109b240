//! The counts of automatic repetitions that a question is asked with.

ghost use Rattle.std.specs.Prelude.{◌≡◌, ◌==◌, ◌&&◌, ℕ, [], IfOk};
ghost use Rattle.std.specs.Cmp.{and_equiv, and_per, on_equiv, on_per, partial_equiv_from_equiv};
ghost use Rattle.std.specs.Cmp.Lexicographic.{lists_equiv, lists_per, pointwise};
ghost use Rattle.std.proofs.lemmas.Cmp.{nat_eq_equiv};

use lunit::NoMemory;
use smallvec::SmallVec;
use std::alloc::Global;
use std::marker::Model;

/// Counts of automatic repetitions, columns first, one pair a grid. Two pairs need no memory of their own, so that a look at a
/// kept question goes nowhere else. Contracts see the list.
#[derive(Debug, Drop)]
pub struct Counts {
    pairs: SmallVec<(u32, u32), 2>,
}

impl Model for Counts {
    ghost use Rattle.std.specs.Prelude.{List, ℕ};

    ghost Value = { List (ℕ × ℕ) };

    ghost view = { λ a. a.pairs.items };
}

impl Counts {
    /// No counts. Takes no memory.
    pub fn new(alloc: Global) -> Counts
        ensures { result ≡ [] }
    {
        Counts {
            pairs: SmallVec::new(alloc),
        }
    }

    /// These counts; `NoMemory` where memory is wanting.
    pub fn from_slice(alloc: Global, pairs: &[(u32, u32)]) -> Result<Counts, NoMemory>
        ensures { IfOk result (λ made. made ≡ pairs.now) }
    {
        Ok(Counts {
            pairs: SmallVec::from_slice(alloc, pairs)?,
        })
    }

    /// The counts in order.
    pub fn as_slice(&self) -> &[(u32, u32)]
        ensures { result.now ≡ self.now }
    {
        self.pairs.as_slice()
    }
}

impl PartialEq for Counts {
    ghost eq = { pointwise (λ (x y : ℕ × ℕ). (x.0 == y.0) && (x.1 == y.1)) };

    ghost laws = { lists_per (and_per (on_per (λ (x : ℕ × ℕ). x.0) (partial_equiv_from_equiv nat_eq_equiv)) (on_per (λ (x : ℕ × ℕ). x.1) (partial_equiv_from_equiv nat_eq_equiv))) };

    fn eq(&self, other: &Counts) -> bool {
        self.as_slice() == other.as_slice()
    }
}

impl Eq for Counts {
    ghost laws = { lists_equiv (and_equiv (on_equiv (λ (x : ℕ × ℕ). x.0) nat_eq_equiv) (on_equiv (λ (x : ℕ × ℕ). x.1) nat_eq_equiv)) };
}
