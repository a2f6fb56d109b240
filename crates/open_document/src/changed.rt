//! Which boxes of a layout the layout before it does not have.

ghost use Rattle.std.specs.Prelude.{◌≡◌, ◌++◌, ℕ, List, drop, IfOk, OnOk};
ghost use Rattle.std.specs.BTreeMap.{get};
ghost use Rattle.std.specs.Ordering.{nat_cmp};
ghost use Rattle.std.specs.Cmp.Lexicographic.{slice_cmp};
ghost use Rattle.session.specs.Printing.{Box};
ghost use Rattle.open_document.specs.Changed.{changed_in, has_box, rect_in, same_rect};
ghost use Rattle.open_document.specs.Apart.{AreApart};
ghost use Rattle.open_document.specs.Steps.{HasStepped, noted};

use lunit::{Name, NoMemory, Rect, Sequence};
use std::alloc::Global;
use std::collections::BTreeMap;

type Rects = BTreeMap<Name, Rect>;

pub(crate) fn same_rect(a: &Rect, b: &Rect) -> bool
    ensures { result ≡ same_rect a.now b.now }
{
    a == b
}

/// The rectangle of a name.
pub(crate) fn rect_in(boxes: &[(Name, Rect)], name: &[u8]) -> Option<Rect>
    ensures { result ≡ rect_in boxes.now name.now }
{
    for (own, rect) in boxes {
        if own.bytes() == name {
            return Some(*rect);
        }
    }
    None
}

/// Notes an index, where its box is not the same.
fn note(changed: &mut Sequence<usize>, index: usize, same: bool) -> Result<(), NoMemory>
    ensures { OnOk result (changed.new ≡ changed.old ++ noted same index) }
{
    if !same {
        changed.push(index)?;
    }
    Ok(())
}

#[tactic(auto, using(crate::proofs::Naming::naming))]
/// The rectangles of boxes by their names.
pub(crate) fn by_name(alloc: Global, boxes: &[(Name, Rect)]) -> Result<Rects, NoMemory>
    requires { AreApart boxes.now }
    ensures { IfOk result
        (λ rects. (name : List ℕ) → get (slice_cmp nat_cmp) rects name ≡ rect_in boxes.now name) }
{
    let mut rects = BTreeMap::new(alloc);
    for (name, rect) in boxes {
        rects.insert(*name, *rect)?;
    }
    Ok(rects)
}

#[tactic(auto, using(crate::proofs::Naming::looking_up))]
/// Whether a box is among those whose rectangles these are.
fn is_among(rects: &Rects, name: &Name, rect: &Rect) -> bool
    ensures { (boxes : List Box) → AreApart boxes →
        ((q : List ℕ) → get (slice_cmp nat_cmp) rects.now q ≡ rect_in boxes q) →
        result ≡ has_box boxes (name.now, rect.now) }
{
    match rects.get(name) {
        Some(old) => same_rect(old, rect),
        None => false,
    }
}

#[tactic(auto, using(crate::proofs::Comparing::comparing))]
/// Notes which boxes from an index on changed, by the rectangles of those before from there on.
pub(crate) fn note_others(
    changed: &mut Sequence<usize>,
    rects: &Rects,
    boxes: &[(Name, Rect)],
    count: usize,
) -> Result<(), NoMemory>
    ensures { (before : List Box) → AreApart before → AreApart boxes.now →
        HasStepped before boxes.now count changed.old →
        ((q : List ℕ) → get (slice_cmp nat_cmp) rects.now q ≡ rect_in (drop count before) q) →
        OnOk result (changed.new ≡ changed_in before boxes.now) }
{
    for index in count..boxes.len() {
        let (name, rect) = &boxes[index];
        note(changed, index, is_among(rects, name, rect))?;
    }
    Ok(())
}

/// The boxes from an index on.
pub(crate) fn left(boxes: &[(Name, Rect)], count: usize) -> &[(Name, Rect)]
    ensures { result.now ≡ drop count boxes.now }
{
    &boxes[count.min(boxes.len())..]
}
