ghost use Rattle.std.specs.Prelude.{◌≡◌, ◌≤◌, ◌+◌, ◌*◌, ◌++◌, ◌↔◌, [], length, slice_get, take, IfOk, IsTrue};
ghost use Rattle.std.specs.Cmp.Lexicographic.{pointwise};
ghost use Rattle.std.specs.Cmp.Rules.{comparing};
ghost use Rattle.std.proofs.Common.{rules};
ghost use Rattle.std.specs.Option.{option_copied, option_eq};
ghost use Rattle.runs.specs.Times.{items_of, times};

use crate::repeats::{add_times, first_of, has_room, item_in, parts_again, whole_times, with_body};
use lunit::{Copied, NoMemory, Sequence};
use std::alloc::Global;
use std::marker::Model;

/// A list in which a part that stands many times is held once, with how often it stands. Contracts see the list, which
/// has at most 2^32 items.
pub struct Runs<T> {
    parts: Vec<(u32, Sequence<T>)>,
    length: usize,
}

// By hand: a crate that drops lists then proves one call, and not again the drop of each part.
impl<T: Drop> Drop for Runs<T> {
    fn drop(self) {
        let Runs { parts, length: _ } = self;
        drop(parts);
    }
}

impl<T> Model for Runs<T> {
    ghost use Rattle.std.specs.Prelude.{List};
    ghost use Rattle.std.specs.Coded.{coded_list};

    ghost Value = { List T };

    ghost coded = { coded_list T.code };

    ghost use Rattle.runs.specs.Times.{items_of, IsCounted};

    ghost view = { λ a. items_of a.parts.items };

    ghost invariant = { λ a. IsCounted a.length (items_of a.parts.items) };
}

impl<T> Runs<T> {
    /// No items. Takes no memory.
    pub fn new(alloc: Global) -> Runs<T>
        ensures { result ≡ [] }
    {
        Runs {
            parts: Vec::new(alloc),
            length: 0,
        }
    }

    /// How many items there are.
    pub fn len(&self) -> usize
        ensures value { result ≡ length self.now }
        ensures few { result ≤ 4294967296 }
    {
        self.length
    }

    #[tactic(auto, using(crate::proofs::Times::none))]
    /// Whether there are none.
    pub fn is_empty(&self) -> bool
        ensures { IsTrue result ↔ (self.now ≡ []) }
    {
        self.length == 0
    }

    /// The item at an index, from 0; `None` exactly where there are not so many. It looks at the parts before it.
    pub fn get(&self, at: usize) -> Option<&T>
        ensures { option_copied result ≡ slice_get self.now at }
    {
        item_in(&self.parts, at)
    }

    /// The parts of the list, each with how often it stands, one time after another.
    pub fn parts(&self) -> &[(u32, Sequence<T>)]
        ensures { items_of result.now ≡ self.now }
    {
        &self.parts
    }
}

impl<T: Drop> Runs<T> {
    #[tactic(auto, using(crate::proofs::Times::counting))]
    /// The list with a body that stands so many times behind it.
    pub fn with(self, count: u32, body: Sequence<T>) -> Result<Runs<T>, NoMemory>
        requires { length self + count * length body ≤ 4294967296 }
        ensures { IfOk result (λ made. made ≡ self ++ times count body) }
    {
        let Runs { parts, length } = self;
        let more = count as usize * body.len();
        Ok(Runs {
            parts: with_body(parts, count, body)?,
            length: length + more,
        })
    }

    #[tactic(auto, using(crate::proofs::Times::counting))]
    /// The list of these items.
    pub fn of(alloc: Global, items: Sequence<T>) -> Result<Runs<T>, NoMemory>
        requires { length items ≤ 4294967296 }
        ensures { IfOk result (λ made. made ≡ items) }
    {
        Runs::new(alloc).with(1, items)
    }

    #[tactic(auto, using(crate::proofs::Times::counting))]
    /// One list after the other.
    pub fn joined(self, other: Runs<T>) -> Result<Runs<T>, NoMemory>
        requires { length self + length other ≤ 4294967296 }
        ensures { IfOk result (λ made. made ≡ self ++ other) }
    {
        let Runs { parts, length } = self;
        let Runs {
            parts: more,
            length: longer,
        } = other;
        let mut parts = parts;
        let mut more = more;
        parts.append(&mut more)?;
        Ok(Runs {
            parts,
            length: length + longer,
        })
    }
}

impl<T: Copied + Drop> Runs<T> {
    #[tactic(auto, using(crate::proofs::Times::limiting))]
    /// The list with a body that stands so many times behind it, as far as there are at most `limit` items.
    pub fn with_times(
        self,
        alloc: Global,
        limit: usize,
        count: u32,
        body: Sequence<T>,
    ) -> Result<Runs<T>, NoMemory>
        requires within { length self ≤ limit }
        requires limit { limit ≤ 4294967296 }
        ensures { IfOk result (λ made. made ≡ take limit (self ++ times count body)) }
    {
        let room = limit - self.len();
        if has_room(room, count, body.len()) {
            return self.with(count, body);
        }
        let whole = whole_times(room, count, body.len());
        let rest = first_of(alloc, body.as_slice(), room % body.len())?;
        let made = self.with(whole, body)?;
        made.with(1, rest)
    }

    #[tactic(auto, using(crate::proofs::Times::writing))]
    /// The list with each item written out.
    pub fn written(&self, alloc: Global) -> Result<Sequence<T>, NoMemory>
        ensures { IfOk result (λ all. all ≡ self.now) }
    {
        let mut all = Sequence::new(alloc);
        for (count, body) in self.parts() {
            add_times(alloc, &mut all, *count, body.as_slice())?;
        }
        Ok(all)
    }
}

impl<T: Copied + Drop> Copied for Runs<T> {
    fn copy(&self, alloc: Global) -> Result<Runs<T>, NoMemory> {
        Ok(Runs {
            parts: parts_again(alloc, &self.parts)?,
            length: self.length,
        })
    }
}

/// Whether both are there and the same, or neither is.
fn same<T: PartialEq>(a: Option<&T>, b: Option<&T>) -> bool
    ensures { result ≡ option_eq T.eq (option_copied a.entry) (option_copied b.entry) }
{
    match (a, b) {
        (Some(x), Some(y)) => x == y,
        (None, None) => true,
        _ => false,
    }
}

impl<T: PartialEq> PartialEq for Runs<T> {
    ghost eq = { pointwise T.eq };

    ghost laws = { Prim.search (comparing, rules) };

    #[tactic(auto, using(crate::proofs::Times::comparing_items))]
    fn eq(&self, other: &Runs<T>) -> bool {
        if self.len() != other.len() {
            return false;
        }
        for at in 0..self.len() {
            if !same(self.get(at), other.get(at)) {
                return false;
            }
        }
        true
    }
}

impl<T: Eq> Eq for Runs<T> {
    ghost laws = { Prim.search (comparing, rules) };
}
