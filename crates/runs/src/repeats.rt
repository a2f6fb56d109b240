//! Parts of lists, each with how often it stands.

ghost use Rattle.std.specs.Prelude.{◌≡◌, ◌<◌, ◌≤◌, ◌*◌, ◌/◌, ◌%◌, ◌++◌, ◌∷◌, ◌↔◌, [], length, slice_get, take, IsTrue, IfOk, OnOk};
ghost use Rattle.std.specs.Option.{option_copied};
ghost use Rattle.runs.specs.Times.{items_of, times};

use lunit::{Copied, NoMemory, Sequence};
use std::alloc::Global;

// ---- reading

/// The item of this place in a body that stands one time after another.
fn item_of<T>(body: &Sequence<T>, at: usize) -> Option<&T>
    requires { 0 < length body.now }
    ensures { option_copied result ≡ slice_get body.now (at % length body.now) }
{
    body.get(at % body.len())
}

#[tactic(auto, using(crate::proofs::Times::reading))]
/// The item at an index of the list of these parts; `None` exactly where there are not so many.
pub(crate) fn item_in<T>(parts: &[(u32, Sequence<T>)], at: usize) -> Option<&T>
    requires { length (items_of parts.now) ≤ 4294967296 }
    ensures { option_copied result ≡ slice_get (items_of parts.now) at }
{
    let mut left = at;
    for (count, body) in parts {
        let all = *count as usize * body.len();
        if left < all {
            return item_of(body, left);
        }
        left -= all;
    }
    None
}

// ---- copies

/// Adds copies of these items.
fn add_all<T: Copied + Drop>(
    alloc: Global,
    all: &mut Sequence<T>,
    items: &[T],
) -> Result<(), NoMemory>
    ensures { OnOk result (all.new ≡ all.old ++ items.now) }
{
    for item in items {
        all.push(item.copy(alloc)?)?;
    }
    Ok(())
}

/// A copy of the first so many of these items.
pub(crate) fn first_of<T: Copied + Drop>(
    alloc: Global,
    items: &[T],
    count: usize,
) -> Result<Sequence<T>, NoMemory>
    requires { count ≤ length items.now }
    ensures { IfOk result (λ first. first ≡ take count items.now) }
{
    let mut first = Sequence::new(alloc);
    add_all(alloc, &mut first, &items[..count])?;
    Ok(first)
}

#[tactic(auto, using(crate::proofs::Times::writing))]
/// Adds copies of a body so many times.
pub(crate) fn add_times<T: Copied + Drop>(
    alloc: Global,
    all: &mut Sequence<T>,
    count: u32,
    body: &[T],
) -> Result<(), NoMemory>
    ensures { OnOk result (all.new ≡ all.old ++ times count body.now) }
{
    for _time in 0..count {
        add_all(alloc, all, body)?;
    }
    Ok(())
}

/// Copies of parts.
pub(crate) fn parts_again<T: Copied + Drop>(
    alloc: Global,
    parts: &[(u32, Sequence<T>)],
) -> Result<Vec<(u32, Sequence<T>)>, NoMemory>
    ensures { IfOk result (λ copy. copy.items ≡ parts.now) }
{
    let mut copy = Vec::with_capacity(alloc, parts.len())?;
    for (count, body) in parts {
        copy.push((*count, body.copy(alloc)?))?;
    }
    Ok(copy)
}

// ---- adding

/// One list after the other.
fn joined<T: Drop>(front: Sequence<T>, back: Sequence<T>) -> Result<Sequence<T>, NoMemory>
    ensures { IfOk result (λ all. all ≡ front ++ back) }
{
    let mut all = front.into_vec();
    let mut more = back.into_vec();
    all.append(&mut more)?;
    Ok(Sequence::from_vec(all))
}

/// These parts, and one more behind them.
fn with_part<T: Drop>(
    parts: Vec<(u32, Sequence<T>)>,
    count: u32,
    body: Sequence<T>,
) -> Result<Vec<(u32, Sequence<T>)>, NoMemory>
    ensures { IfOk result (λ made. made.items ≡ parts.items ++ (count, body) ∷ []) }
{
    let mut parts = parts;
    parts.push((count, body))?;
    Ok(parts)
}

#[tactic(auto, using(crate::proofs::Times::adding))]
/// These parts with one more that stands once, after a last one, which it joins where that stands
/// once too.
fn joined_to<T: Drop>(
    parts: Vec<(u32, Sequence<T>)>,
    count: u32,
    last: Sequence<T>,
    body: Sequence<T>,
) -> Result<Vec<(u32, Sequence<T>)>, NoMemory>
    ensures { IfOk result
        (λ made. items_of made.items ≡ items_of parts.items ++ times count last ++ body) }
{
    if count == 1 {
        return with_part(parts, 1, joined(last, body)?);
    }
    with_part(with_part(parts, count, last)?, 1, body)
}

#[tactic(auto, using(crate::proofs::Times::adding))]
/// These parts, and one more that stands once.
fn with_one<T: Drop>(
    parts: Vec<(u32, Sequence<T>)>,
    body: Sequence<T>,
) -> Result<Vec<(u32, Sequence<T>)>, NoMemory>
    ensures { IfOk result (λ made. items_of made.items ≡ items_of parts.items ++ body) }
{
    let mut parts = parts;
    match parts.pop() {
        Some((count, last)) => joined_to(parts, count, last, body),
        None => with_part(parts, 1, body),
    }
}

#[tactic(auto, using(crate::proofs::Times::adding))]
/// These parts, and a body that stands so many times behind them.
pub(crate) fn with_body<T: Drop>(
    parts: Vec<(u32, Sequence<T>)>,
    count: u32,
    body: Sequence<T>,
) -> Result<Vec<(u32, Sequence<T>)>, NoMemory>
    ensures { IfOk result
        (λ made. items_of made.items ≡ items_of parts.items ++ times count body) }
{
    if count == 1 {
        return with_one(parts, body);
    }
    with_part(parts, count, body)
}

// ---- room

/// Whether so many times a length has room.
pub(crate) fn has_room(room: usize, count: u32, length: usize) -> bool
    ensures { IsTrue result ↔ (count * length ≤ room) }
{
    count as u128 * length as u128 <= room as u128
}

#[tactic(auto, using(crate::proofs::Times::whole_few))]
/// How often a length has room where it has not so many times.
pub(crate) fn whole_times(room: usize, count: u32, length: usize) -> u32
    requires { room < count * length }
    ensures { result ≡ room / length }
{
    (room / length) as u32
}
