//! The boxes of a layout as they come, beside those of the layout before: where the names are the
//! same, only the rectangles that changed are held.

ghost use Rattle.std.specs.Prelude.{◌≡◌, ◌<◌, ◌+◌, ◌++◌, ◌∷◌, [], Some, refl, false, true, if◌then◌else◌, List, ◌≤◌, IfOk, OnOk, length, slice_get, take};
ghost use Rattle.std.proofs.Common.{◌∙◌};
ghost use Rattle.session.specs.Printing.{Box};
ghost use Rattle.open_document.specs.Apart.{AreApart};
ghost use Rattle.open_document.specs.Coming.{AreNext, HaveCome, both_came, indices_of, next_boxes, no_more, with_rect, with_rects};
ghost use Rattle.open_document.specs.Steps.{compared};

use crate::changed::{by_name, left, note_others, same_rect};
use crate::names::same_name;
use box_layout::BoxSink;
use lunit::{Name, NoMemory, Rect, Sequence};
use std::alloc::Global;

/// The boxes of a layout as they come.
#[derive(Drop)]
pub(crate) struct Coming<'a> {
    /// The boxes of the layout before.
    pub(crate) before: &'a [(Name, Rect)],
    /// How many boxes came with the names of those before, one by one.
    pub(crate) count: usize,
    /// The indices of those of them that changed, and their rectangles.
    pub(crate) changes: Vec<(usize, Rect)>,
    /// Whether a box came with another name.
    pub(crate) apart: bool,
    /// All boxes that came, from then on; none before.
    pub(crate) boxes: Vec<(Name, Rect)>,
}

/// What takes the place of the boxes of the layout before.
#[derive(Drop)]
pub(crate) struct Next {
    /// The indices of the boxes that changed.
    pub(crate) changed: Sequence<usize>,
    /// Those of them that have the name of the box before, and their rectangles.
    pub(crate) changes: Vec<(usize, Rect)>,
    /// Whether all boxes are held.
    pub(crate) apart: bool,
    /// These, or none.
    pub(crate) boxes: Vec<(Name, Rect)>,
}

/// Whether a box has the same rectangle as the one before at its index. None where their names
/// differ, or there is none.
fn compared(before: &[(Name, Rect)], index: usize, name: &Name, rect: &Rect) -> Option<bool>
    ensures { result ≡ compared (slice_get before.now index) (Some (name.now, rect.now)) }
{
    let (own, old) = before.get(index)?;
    if same_name(own, name) {
        Some(same_rect(old, rect))
    } else {
        None
    }
}

/// The first boxes, so many of them.
fn front(boxes: &[(Name, Rect)], count: usize) -> &[(Name, Rect)]
    ensures { result.now ≡ take count boxes.now }
{
    &boxes[..count.min(boxes.len())]
}

#[tactic(auto, using(crate::proofs::HaveCome::setting))]
/// Gives the box of an index another rectangle.
fn set_rect(boxes: &mut [(Name, Rect)], index: usize, rect: Rect)
    ensures { boxes.new ≡ with_rect boxes.old index rect }
{
    if index < boxes.len() {
        boxes[index].1 = rect;
    }
}

/// Gives some boxes other rectangles.
fn set_rects(boxes: &mut [(Name, Rect)], changes: &[(usize, Rect)])
    ensures { boxes.new ≡ with_rects boxes.old changes.now }
{
    for (index, rect) in changes {
        set_rect(boxes, *index, *rect);
    }
}

/// The indices of changes.
fn indices_of(alloc: Global, changes: &[(usize, Rect)]) -> Result<Sequence<usize>, NoMemory>
    ensures { IfOk result (λ indices. indices ≡ indices_of changes.now) }
{
    let mut indices = Sequence::new(alloc);
    for (index, _) in changes {
        indices.push(*index)?;
    }
    Ok(indices)
}

impl Coming<'_> {
    /// No boxes yet. Takes no memory.
    pub(crate) fn new(alloc: Global, before: &[(Name, Rect)]) -> Coming<'_>
        ensures none { AreApart before.now →
            HaveCome result.before.now result.count result.changes.items result.apart
            result.boxes.items [] }
        ensures before { result.before.now ≡ before.now }
    {
        Coming {
            before,
            count: 0,
            changes: Vec::new(alloc),
            apart: false,
            boxes: Vec::new(alloc),
        }
    }

    #[inline(always)]
    /// Counts a box, whose rectangle is the same as before or changed.
    fn note(&mut self, same: bool, rect: Rect) -> Result<(), NoMemory>
        requires { self.old.count < length self.old.before.now }
        ensures before { OnOk result (self.new.before.now ≡ self.old.before.now) }
        ensures count { OnOk result (self.new.count ≡ self.old.count + 1) }
        ensures changes { OnOk result
            (self.new.changes.items ≡
            (if same then self.old.changes.items else
            self.old.changes.items ++ (self.old.count, rect) ∷ [])) }
        ensures apart { OnOk result (self.new.apart ≡ self.old.apart) }
        ensures boxes { OnOk result (self.new.boxes.items ≡ self.old.boxes.items) }
    {
        if !same {
            self.changes.push((self.count, rect))?;
        }
        self.count += 1;
        Ok(())
    }

    #[inline(always)]
    #[tactic(auto, using(crate::proofs::HaveCome::coming))]
    /// Takes a box with the name of the one before at its index.
    fn take_in_step(&mut self, name: &Name, rect: Rect, same: bool) -> Result<(), NoMemory>
        requires apart { self.old.apart ≡ false }
        requires compared { compared (slice_get self.old.before.now self.old.count)
            (Some (name.now, rect)) ≡ Some same }
        ensures before { OnOk result (self.new.before.now ≡ self.old.before.now) }
        ensures came { OnOk result
            ((done : List Box) →
            HaveCome self.old.before.now self.old.count self.old.changes.items self.old.apart
            self.old.boxes.items done →
            HaveCome self.new.before.now self.new.count self.new.changes.items self.new.apart
            self.new.boxes.items (done ++ (name.now, rect) ∷ [])) }
    {
        self.note(same, rect)?;
        Ok(())
    }

    #[inline(always)]
    #[tactic(auto, using(crate::proofs::HaveCome::coming))]
    /// Takes a box where all are held.
    fn add(&mut self, name: &Name, rect: Rect) -> Result<(), NoMemory>
        requires apart { self.old.apart ≡ true }
        ensures before { OnOk result (self.new.before.now ≡ self.old.before.now) }
        ensures came { OnOk result
            ((done : List Box) →
            HaveCome self.old.before.now self.old.count self.old.changes.items self.old.apart
            self.old.boxes.items done →
            HaveCome self.new.before.now self.new.count self.new.changes.items self.new.apart
            self.new.boxes.items (done ++ (name.now, rect) ∷ [])) }
    {
        self.boxes.reserve(1)?;
        self.boxes.push_reserved((*name, rect));
        Ok(())
    }

    #[tactic(auto, using(crate::proofs::HaveCome::coming))]
    /// Holds all boxes that came.
    fn hold(&mut self) -> Result<(), NoMemory>
        ensures before { OnOk result (self.new.before.now ≡ self.old.before.now) }
        ensures apart { OnOk result (self.new.apart ≡ true) }
        ensures came { OnOk result
            ((done : List Box) →
            HaveCome self.old.before.now self.old.count self.old.changes.items self.old.apart
            self.old.boxes.items done →
            HaveCome self.new.before.now self.new.count self.new.changes.items self.new.apart
            self.new.boxes.items done) }
    {
        if self.apart {
            return Ok(());
        }
        self.boxes
            .extend_from_slice(front(self.before, self.count))?;
        set_rects(&mut self.boxes, self.changes.as_slice());
        self.apart = true;
        Ok(())
    }
}

impl Coming<'_> {
    #[tactic(auto, using(crate::proofs::HaveCome::coming))]
    /// Which boxes changed, once all came and where they are fewer than before are held. Those
    /// before are looked up by their names only from the first name on that is another.
    fn changed(&self, alloc: Global) -> Result<Sequence<usize>, NoMemory>
        requires names { AreApart self.now.before.now }
        requires all { self.now.apart ≡ false → length self.now.before.now ≤ self.now.count }
        ensures { (done : List Box) → AreApart done →
            HaveCome self.now.before.now self.now.count self.now.changes.items self.now.apart
            self.now.boxes.items done →
            IfOk result
            (λ changed. AreNext self.now.before.now done self.now.changes.items self.now.apart
            self.now.boxes.items changed) }
    {
        let mut changed = indices_of(alloc, self.changes.as_slice())?;
        if self.count < self.boxes.len() {
            let rects = by_name(alloc, left(self.before, self.count))?;
            note_others(&mut changed, &rects, self.boxes.as_slice(), self.count)?;
        }
        Ok(changed)
    }
}

impl BoxSink for Coming<'_> {
    ghost adds = { λ a b more. (b.before.now ≡ a.before.now) ×
        ((done : List Box) →
        HaveCome a.before.now a.count a.changes.items a.apart a.boxes.items done →
        HaveCome b.before.now b.count b.changes.items b.apart b.boxes.items (done ++ more)) };

    ghost adds_none = { λ a. (refl, λ done came. no_more done came) };

    ghost adds_both = { λ a b c x y first second. (second.0 ∙ first.0, λ done came. both_came done x y (second.1 (done ++ x) (first.1 done came))) };

    // Where no names are known all boxes will be held.
    fn make_room(&mut self, count: usize) {
        if self.before.is_empty() {
            let _ = self.boxes.reserve(count);
        }
    }

    #[inline(always)]
    fn take(&mut self, name: &Name, rect: Rect) -> Result<(), NoMemory> {
        if self.apart {
            return self.add(name, rect);
        }
        if let Some(same) = compared(self.before, self.count, name, &rect) {
            return self.take_in_step(name, rect, same);
        }
        self.hold()?;
        self.add(name, rect)
    }
}

#[tactic(auto, using(crate::proofs::HaveCome::coming))]
/// What takes the place of the boxes before, once all boxes came.
pub(crate) fn next_of(alloc: Global, mut coming: Coming<'_>) -> Result<Next, NoMemory>
    requires { AreApart coming.before.now }
    ensures { (done : List Box) → AreApart done →
        HaveCome coming.entry.before.now coming.entry.count coming.entry.changes.items
        coming.entry.apart coming.entry.boxes.items done →
        IfOk result
        (λ next. AreNext coming.entry.before.now done next.changes.items next.apart
        next.boxes.items next.changed) }
{
    if coming.count < coming.before.len() {
        coming.hold()?;
    }
    let changed = coming.changed(alloc)?;
    let Coming {
        changes,
        apart,
        boxes,
        ..
    } = coming;
    Ok(Next {
        changed,
        changes,
        apart,
        boxes,
    })
}

/// Puts the boxes that came in the place of those before. Takes no memory.
pub(crate) fn take_place(last: &mut Vec<(Name, Rect)>, next: Next) -> Sequence<usize>
    ensures boxes { last.new.items ≡
        next_boxes next.apart last.old.items next.changes.items next.boxes.items }
    ensures changed { result ≡ next.changed }
{
    let Next {
        changed,
        changes,
        apart,
        boxes,
    } = next;
    if apart {
        *last = boxes;
    } else {
        set_rects(last, changes.as_slice());
    }
    changed
}
