ghost use Rattle.std.specs.Prelude.{◌≡◌, ◌<◌, ◌+◌, length, slice_index_or, slice_set, Some, None, IfOk, OnOk, OnErr, IsOk, IsSome};
ghost use Rattle.std.specs.List.{position_from};
ghost use Rattle.std.specs.Option.{option_copied};
ghost use Rattle.std.specs.FinMap as map;
ghost use Rattle.style_types.specs.Entries.{is_entry_of, places_of};
ghost use Rattle.style_types.specs.Marks.{IsMarked};
ghost use Rattle.style_types.specs.Order.{place_of, prop_cmp};
ghost use Rattle.style_types.specs.Computed.{computed_style};

use crate::computed::computed_entries;
use crate::declared::DeclaredValue;
use crate::prop::Prop;
use crate::value::Value;
use lunit::{Copied, Lu, NoMemory};
use std::alloc::Global;
use std::marker::Model;

/// How many properties the table has.
const PROPERTIES: usize = 45;

/// Properties, each with what belongs to it.
///
/// Contracts see the finite map. In memory it is a list of the properties that are there, so that a node pays for
/// these alone, and a mark for each property of the table, which says where its entry is, so that a look-up goes over no
/// entries.
pub(crate) struct PropMap<T> {
    entries: Vec<(Prop, T)>,
    marks: [u8; PROPERTIES],
}

// By hand: a crate that drops maps then proves one call, and not again the drop of each part of an entry.
impl<T: Drop> Drop for PropMap<T> {
    fn drop(self) {
        let PropMap { entries, marks: _ } = self;
        drop(entries);
    }
}

impl<T> Model for PropMap<T> {
    ghost use Rattle.std.specs.FinMap as map;
    ghost use Rattle.style_types.specs.Order.{prop_cmp};
    ghost use Rattle.style_types.specs.contracts.prop.Prop as prop;

    ghost Value = { map.FinMap prop_cmp T };

    ghost coded = { map.code prop.the_row.coded T.code };

    ghost use Rattle.style_types.specs.Entries.{places_of};
    ghost use Rattle.style_types.specs.Marks.{IsMarked};

    ghost view = { λ a. map.from_entries a.entries.items };

    ghost invariant = { λ a. IsMarked a.marks (places_of a.entries.items) };
}

/// The mark of the property: 0 where it is not there, else one more than the index of its entry.
fn mark_of(marks: &[u8; PROPERTIES], p: Prop) -> u8
    ensures { result ≡ slice_index_or marks.now (place_of p) 0 }
{
    marks[p as u8 as usize]
}

/// Gives the property this mark.
fn mark(marks: &mut [u8; PROPERTIES], p: Prop, mark: u8)
    ensures { marks.new ≡ slice_set marks.old (place_of p) mark }
{
    marks[p as u8 as usize] = mark;
}

/// The mark of an entry at this index.
fn mark_at(index: usize) -> u8
    requires { index < 45 }
    ensures { result ≡ index + 1 }
{
    index as u8 + 1
}

/// The index of the property's entry, by its mark alone: the entries are those that the marks are of.
fn place_in<T>(marks: &[u8; PROPERTIES], entries: &[(Prop, T)], p: Prop) -> Option<usize>
    requires { IsMarked marks.now (places_of entries.now) }
    ensures { result ≡ position_from (is_entry_of p) 0 entries.now }
{
    match mark_of(marks, p) {
        0 => None,
        mark => Some(mark as usize - 1),
    }
}

/// Puts an entry in the place of another.
fn replace<T: Drop>(entries: &mut Vec<(Prop, T)>, place: usize, entry: (Prop, T))
    requires { place < length entries.old.items }
    ensures { entries.new.items ≡ slice_set entries.old.items place entry }
{
    entries[place] = entry;
}

/// Puts an entry for a property that is not there at the end.
fn add<T: Drop>(
    entries: &mut Vec<(Prop, T)>,
    marks: &mut [u8; PROPERTIES],
    p: Prop,
    held: T,
) -> Result<(), NoMemory>
    requires marked { IsMarked marks.old (places_of entries.old.items) }
    requires absent { position_from (is_entry_of p) 0 entries.old.items ≡ None }
    ensures ok { OnOk result
        (map.from_entries {R = prop_cmp} entries.new.items ≡
        map.insert (map.from_entries {R = prop_cmp} entries.old.items) p held) }
    ensures err { OnErr result
        (map.from_entries {R = prop_cmp} entries.new.items ≡
        map.from_entries {R = prop_cmp} entries.old.items) }
    ensures marked { IsMarked marks.new (places_of entries.new.items) }
{
    let last = mark_at(entries.len());
    entries.push((p, held))?;
    mark(marks, p, last);
    Ok(())
}

/// Takes the entry of a property at this index out. The last entry comes in its place.
fn take_out<T: Drop>(
    entries: &mut Vec<(Prop, T)>,
    marks: &mut [u8; PROPERTIES],
    p: Prop,
    place: usize,
)
    requires marked { IsMarked marks.old (places_of entries.old.items) }
    requires found { position_from (is_entry_of p) 0 entries.old.items ≡ Some place }
    ensures taken { map.from_entries {R = prop_cmp} entries.new.items ≡
        map.remove (map.from_entries {R = prop_cmp} entries.old.items) p }
    ensures marked { IsMarked marks.new (places_of entries.new.items) }
{
    let last = entries[entries.len() - 1].0;
    mark(marks, last, mark_at(place));
    mark(marks, p, 0);
    let _ = entries.swap_remove(place);
}

impl<T> PropMap<T> {
    /// No properties. Takes no memory.
    pub(crate) fn new(alloc: Global) -> PropMap<T>
        ensures { result ≡ map.empty }
    {
        PropMap {
            entries: Vec::new(alloc),
            marks: [0; PROPERTIES],
        }
    }

    #[tactic(auto, using(crate::proofs::Places::found_laws))]
    /// What belongs to the property; `None` exactly where it is not there. Takes no memory.
    pub(crate) fn get(&self, p: Prop) -> Option<&T>
        ensures { option_copied result ≡ map.get self.now p }
    {
        let place = place_in(&self.marks, &self.entries, p)?;
        Some(&self.entries[place].1)
    }
}

impl<T: Drop> PropMap<T> {
    #[tactic(auto, using(crate::proofs::Places::found_laws))]
    /// Gives this to the property, in place of what it had. `NoMemory` comes only for want of memory, which a property
    /// that is there already never meets, and changes nothing.
    pub(crate) fn set(&mut self, p: Prop, held: T) -> Result<(), NoMemory>
        ensures ok { OnOk result (self.new ≡ map.insert self.old p held) }
        ensures err { OnErr result (self.new ≡ self.old) }
        ensures replaced { IsSome (map.get self.old p) → IsOk result }
    {
        match place_in(&self.marks, &self.entries, p) {
            Some(place) => replace(&mut self.entries, place, (p, held)),
            None => return add(&mut self.entries, &mut self.marks, p, held),
        }
        Ok(())
    }

    /// The property is no longer there. Takes no memory.
    pub(crate) fn unset(&mut self, p: Prop)
        ensures { self.new ≡ map.remove self.old p }
    {
        match place_in(&self.marks, &self.entries, p) {
            Some(place) => take_out(&mut self.entries, &mut self.marks, p, place),
            None => {}
        }
    }
}

impl PropMap<DeclaredValue> {
    #[tactic(auto, using(crate::proofs::Computing::style_of_entries))]
    /// These properties with the computed value of each, where the font size of the node is `em`
    /// and that of the root `rem`.
    pub(crate) fn computed(
        &self,
        alloc: Global,
        em: Lu,
        rem: Lu,
    ) -> Result<PropMap<Value>, NoMemory>
        ensures { IfOk result (λ values. values ≡ computed_style em rem self.now) }
    {
        Ok(PropMap {
            entries: computed_entries(alloc, em, rem, &self.entries)?,
            marks: self.marks,
        })
    }
}

impl<T: Copied + Drop> Copied for PropMap<T> {
    fn copy(&self, alloc: Global) -> Result<PropMap<T>, NoMemory> {
        let mut entries = Vec::with_capacity(alloc, self.entries.len())?;
        for (p, held) in &self.entries {
            entries.push((*p, held.copy(alloc)?))?;
        }
        Ok(PropMap {
            entries,
            marks: self.marks,
        })
    }
}
