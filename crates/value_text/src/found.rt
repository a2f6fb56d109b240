//! The names of areas, each with its cells.

ghost use Rattle.std.specs.Prelude.{◌≡◌, ◌∷◌, ◌++◌, [], ℕ, List, Some, None, IfOk};
ghost use Rattle.value_text.specs.Places.{place_from};
ghost use Rattle.value_text.specs.AreaText.{new_found, with_cell, add_cell, is_filled};

use lunit::{Name, NoMemory, Sequence};
use std::alloc::Global;
use std::collections::BTreeMap;
use std::marker::Model;

/// The cells of a name: the first and the last row and column of them, from 0, and how many there are.
#[derive(Clone, Copy, Debug)]
pub struct Found {
    pub name: Name,
    pub top: u32,
    pub bottom: u32,
    pub left: u32,
    pub right: u32,
    pub cells: u32,
}

/// The names so far, in the order of their first cells. Contracts see the list; beside it stands the place of each
/// name in it, so that a cell is added without a look at all names.
#[derive(Drop)]
pub struct FoundList {
    list: Sequence<Found>,
    places: BTreeMap<Name, usize>,
}

impl Model for FoundList {
    ghost use Rattle.std.specs.Prelude.{◌≡◌, ℕ, List};
    ghost use Rattle.value_text.specs.declared.found.Found.{Found};

    ghost Value = { List Found };

    ghost use Rattle.std.specs.BTreeMap.{get};
    ghost use Rattle.std.specs.Ordering.{nat_cmp};
    ghost use Rattle.std.specs.Cmp.Lexicographic.{slice_cmp};
    ghost use Rattle.value_text.specs.Places.{place_from};

    ghost view = { λ a. a.list };

    ghost invariant = { λ a. (name : List ℕ) → get (slice_cmp nat_cmp) a.places name ≡ place_from 0 name a.list };
}

fn new_found(name: Name, row: u32, column: u32) -> Found
    ensures { result ≡ new_found name row column }
{
    Found {
        name,
        top: row,
        bottom: row,
        left: column,
        right: column,
        cells: 1,
    }
}

/// One cell more of the name.
fn with_cell(found: Found, row: u32, column: u32) -> Result<Found, NoMemory>
    ensures { IfOk result (λ more. more ≡ with_cell found row column) }
{
    Ok(Found {
        name: found.name,
        top: found.top,
        bottom: row,
        left: found.left.min(column),
        right: found.right.max(column),
        cells: found.cells.checked_add(1).ok_or(NoMemory)?,
    })
}

impl Found {
    /// Whether the cells fill the rectangle between the first and the last.
    pub(crate) fn is_filled(self) -> bool
        ensures { result ≡ is_filled self }
    {
        let rows = (self.bottom as u128 + 1).saturating_sub(self.top as u128);
        let columns = (self.right as u128 + 1).saturating_sub(self.left as u128);
        self.cells as u128 == rows * columns
    }
}

impl FoundList {
    pub(crate) fn new(alloc: Global) -> FoundList
        ensures { result ≡ [] }
    {
        FoundList {
            list: Sequence::new(alloc),
            places: BTreeMap::new(alloc),
        }
    }

    pub(crate) fn as_slice(&self) -> &[Found]
        ensures { result.now ≡ self.now }
    {
        self.list.as_slice()
    }

    /// The names with one cell more of this one.
    pub(crate) fn add(self, name: Name, row: u32, column: u32) -> Result<FoundList, NoMemory>
        ensures { IfOk result (λ more. more ≡ add_cell self name row column) }
    {
        let FoundList { list, places } = self;
        match places.get(&name).copied() {
            Some(place) => {
                let list = with_more(list, place, name, row, column)?;
                Ok(FoundList { list, places })
            }
            None => {
                let mut places = places;
                places.insert(name, list.len())?;
                let list = with_new(list, name, row, column)?;
                Ok(FoundList { list, places })
            }
        }
    }
}

/// The list with one cell more of the name at this place.
fn with_more(
    list: Sequence<Found>,
    place: usize,
    name: Name,
    row: u32,
    column: u32,
) -> Result<Sequence<Found>, NoMemory>
    requires { place_from 0 name list ≡ Some place }
    ensures list { IfOk result (λ more. more ≡ add_cell list name row column) }
    ensures places { IfOk result
        (λ more. (q : List ℕ) → place_from 0 q list ≡ place_from 0 q more) }
{
    let mut list = list;
    let found = match list.get(place) {
        Some(found) => *found,
        None => return Err(NoMemory),
    };
    let more = with_cell(found, row, column)?;
    list.set(place, more);
    Ok(list)
}

/// The list with the first cell of a new name.
fn with_new(
    list: Sequence<Found>,
    name: Name,
    row: u32,
    column: u32,
) -> Result<Sequence<Found>, NoMemory>
    requires { place_from 0 name list ≡ None }
    ensures list { IfOk result (λ more. more ≡ add_cell list name row column) }
    ensures pushed { IfOk result (λ more. more ≡ list ++ new_found name row column ∷ []) }
{
    let mut list = list;
    list.push(new_found(name, row, column))?;
    Ok(list)
}
