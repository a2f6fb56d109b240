ghost use Rattle.std.specs.Prelude.{◌≡◌, ◌<◌, ◌^◌, ◌↔◌, false, length, IfOk, IfSome, IsNone};
ghost use Rattle.std.specs.List.{All};
ghost use Rattle.hit_index.specs.Hits.{contains, hit_of, rects_of, IsLastHit, IsSmallBox};
ghost use Rattle.hit_index.specs.Strips.{strip_of};

use crate::boxes::Boxes;
use crate::edges::{edges_of, strip_at};
use crate::extents::{Extent, all_extents, last_in_strip};
use crate::strips::{Strips, strips_of};
use lunit::{Along, BLOCK, INLINE, Name, NoMemory, Rect, Sequence};
use std::alloc::Global;
use std::marker::Model;

/// Boxes in order, and which of them reach each of 64 strips across the page, from the least y to the greatest y + height (own rule).
/// All lengths are in units of 1/64 px. Contracts see the list of the boxes' rectangles.
#[derive(Drop)]
pub struct HitIndex {
    boxes: Boxes,
    edges: Vec<i64>,
    strips: Strips,
    extents: Sequence<Sequence<Extent>>,
}

impl Model for HitIndex {
    ghost use Rattle.std.specs.Prelude.{List};
    ghost use Rattle.lunit.specs.declared.geometry.Rect.{Rect};

    ghost Value = { List Rect };

    ghost use Rattle.hit_index.specs.Index.{IsIndex};

    ghost view = { λ a. a.boxes };

    ghost invariant = { IsIndex };
}

impl HitIndex {
    #[tactic(auto, using(crate::proofs::Found::strips_within))]
    /// The index of these boxes, each with its name: fewer than 2^32, and no number of a box is beyond 2^56. `NoMemory` where memory is
    /// wanting.
    pub fn build(alloc: Global, boxes: &[(Name, Rect)]) -> Result<HitIndex, NoMemory>
        requires few { length boxes.now < 2 ^ 32 }
        requires small { All IsSmallBox boxes.now }
        ensures { IfOk result (λ index. index ≡ rects_of boxes.now) }
    {
        let boxes = Boxes::new(alloc, boxes)?;
        let edges = edges_of(alloc, boxes.rects())?;
        let strips = strips_of(alloc, edges.as_slice(), boxes.rects())?;
        let extents = all_extents(alloc, boxes.rects(), strips.as_slice())?;
        Ok(HitIndex {
            boxes,
            edges,
            strips,
            extents,
        })
    }

    #[tactic(auto, using(crate::proofs::Found::strip_is))]
    /// The numbers, from 0 and in order, of the boxes that contain some point with a y of strip j. Takes no memory.
    pub fn strip(&self, j: usize) -> &[u32]
        requires { j < 64 }
        ensures { result.now ≡ strip_of self.now j }
    {
        self.strips.as_slice()[j].as_slice()
    }

    /// The number, from 0, of the last box that contains the point (X, Y): x <= X < x + width, and y <= Y < y + height (own rule). `None`
    /// exactly where none does. Takes no memory.
    pub fn hit(&self, x: Along<INLINE>, y: Along<BLOCK>) -> Option<u32>
        ensures hit { result ≡ hit_of self.now x y }
        ensures last { IfSome result (IsLastHit self.now x y) }
        ensures none { IsNone result ↔ All (λ box. contains x y box ≡ false) self.now }
    {
        let strip = strip_at(self.edges.as_slice(), y.units());
        last_in_strip(
            &self.boxes,
            self.strips.as_slice(),
            self.extents.as_slice(),
            strip,
            x,
            y,
        )
    }
}
