//! Laws of the definitions, each as the clause of a function that does nothing.
ghost use Rattle.std.specs.Prelude.{◌≡◌, ◌↔◌, IsTrue};
ghost use Rattle.hit_index.specs.Hits.{box_at, box_under, hit_of, rects_of};
ghost use Rattle.hit_index.specs.Strips.{reaches, HasPoint};

use lunit::{Along, BLOCK, INLINE, Name, Rect};

#[tactic(auto, using(crate::proofs::Found::reached))]
/// A box reaches the strip from one y up to another exactly where it contains some point with a y from the one up to, not
/// including, the other.
pub fn reach_is_a_point(from: Along<BLOCK>, to: Along<BLOCK>, rect: Rect)
    ensures { IsTrue (reaches from to rect) ↔ HasPoint from to rect }
{}

#[tactic(auto, using(crate::proofs::Found::under_is))]
/// The number that is found under a point is that of the last of the boxes that contain it; there is none where there is no such
/// box.
pub fn hit_is_the_box_under(boxes: &[(Name, Rect)], x: Along<INLINE>, y: Along<BLOCK>)
    ensures { box_at boxes.now (hit_of (rects_of boxes.now) x y) ≡ box_under boxes.now x y }
{}
