//! The numbers of the boxes that reach each strip.

ghost use Rattle.std.specs.Prelude.{◌≡◌, ◌<◌, ◌++◌, ◌^◌, ◌<ℤ◌, [], pos, length, get_or, replicate, slice_set, IfOk, OnOk};
ghost use Rattle.std.specs.List.{All};
ghost use Rattle.hit_index.specs.Hits.{IsSmallRect};
ghost use Rattle.hit_index.specs.Strips.{one_if, AddsBox, AreEdges, AreRising, AreStrips};

use crate::edges::{STRIPS, end_of, reaches, strip_at};
use lunit::{NoMemory, Rect, Sequence};
use std::alloc::Global;

/// The numbers of the boxes that reach each strip.
pub(crate) type Strips = Sequence<Sequence<u32>>;

/// How many boxes reach each strip, or 2^32 - 1 where that is less.
fn counts_of(edges: &[i64], rects: &[Rect]) -> [u32; STRIPS]
    requires edges { length edges.now ≡ 65 }
    requires small { All IsSmallRect rects.now }
{
    let mut counts = [0u32; STRIPS];
    for rect in rects {
        let mut strip = strip_at(edges, rect.y.units());
        let end = end_of(rect);
        while strip < STRIPS && edges[strip] < end {
            if reaches(edges, strip, rect) {
                counts[strip] = counts[strip].saturating_add(1);
            }
            strip += 1;
        }
    }
    counts
}

/// A strip for each of these counts, without a box yet, and with room for so many.
fn empty_strips(alloc: Global, counts: &[u32]) -> Result<Strips, NoMemory>
    ensures { IfOk result (λ strips. strips ≡ replicate (length counts.now) []) }
{
    let mut strips = Sequence::new(alloc);
    for count in counts {
        let numbers = Vec::with_capacity(alloc, *count as usize)?;
        strips.push(Sequence::from_vec(numbers))?;
    }
    Ok(strips)
}

#[tactic(auto, using(crate::proofs::Numbers::unchanged))]
/// Adds a number to a strip where it is wanted.
fn push_if(strips: &mut Strips, strip: usize, wanted: bool, number: u32) -> Result<(), NoMemory>
    requires { strip < length strips.old }
    ensures { OnOk result
        (strips.new ≡
        slice_set strips.old strip (get_or strips.old strip [] ++ one_if wanted number)) }
{
    if !wanted {
        return Ok(());
    }
    match strips.get_mut(strip) {
        Some(numbers) => Ok(numbers.push(number)?),
        None => Ok(()),
    }
}

#[tactic(auto, using(crate::proofs::Adding::adding))]
/// Adds a box to each strip that it reaches.
fn add_box(strips: &mut Strips, edges: &[i64], number: u32, rect: &Rect) -> Result<(), NoMemory>
    requires strips { length strips.old ≡ 64 }
    requires edges { length edges.now ≡ 65 }
    requires small { IsSmallRect rect.now }
    requires rising { pos 0 <ℤ rect.now.height → AreRising edges.now }
    ensures { OnOk result (AddsBox edges.now rect.now number strips.old strips.new) }
{
    let mut strip = strip_at(edges, rect.y.units());
    let end = end_of(rect);
    while strip < STRIPS && edges[strip] < end {
        let wanted = reaches(edges, strip, rect);
        push_if(strips, strip, wanted, number)?;
        strip += 1;
    }
    Ok(())
}

#[tactic(auto, using(crate::proofs::Adding::filling))]
/// The numbers of these boxes by the strips that they reach.
pub(crate) fn strips_of(alloc: Global, edges: &[i64], rects: &[Rect]) -> Result<Strips, NoMemory>
    requires few { length rects.now < 2 ^ 32 }
    requires small { All IsSmallRect rects.now }
    requires edges { AreEdges rects.now 65 edges.now }
    ensures { IfOk result (AreStrips edges.now rects.now) }
{
    let counts = counts_of(edges, rects);
    let mut strips = empty_strips(alloc, &counts)?;
    for (number, rect) in rects.iter().enumerate() {
        add_box(&mut strips, edges, number as u32, rect)?;
    }
    Ok(strips)
}
