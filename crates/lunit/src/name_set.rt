ghost use Rattle.std.specs.Prelude.{◌≡◌, ◌++◌, ◌∷◌, ◌↔◌, [], if◌then◌else◌, length, IsTrue, IfOk, OnOk, OnErr};
ghost use Rattle.std.specs.Cmp.Lexicographic.{pointwise};
ghost use Rattle.std.specs.Cmp.Rules.{comparing};
ghost use Rattle.std.specs.List.{list_any};
ghost use Rattle.std.specs.Option.{option_map, unwrap_or};
ghost use Rattle.std.specs.Rc.{rc_value};
ghost use Rattle.std.specs.Str.{bytes_eq};
ghost use Rattle.std.proofs.Common.{rules};

use crate::{Copied, Name, NoMemory, Sequence};
use std::alloc::Global;
use std::marker::Model;
use std::rc::Rc;

/// The names of one grid line, in the order in which they are given. No names take no memory, and a copy shares its
/// names with the set that it was made of. Contracts see the list.
pub struct NameSet {
    names: Option<Rc<Sequence<Name>>>,
    alloc: Global,
}

// By hand: a crate that drops sets then proves one call, and not again the drop of what they share.
impl Drop for NameSet {
    fn drop(self) {
        let NameSet { names, alloc: _ } = self;
        drop(names);
    }
}

impl Model for NameSet {
    ghost use Rattle.std.specs.Prelude.{List, ℕ, []};
    ghost use Rattle.std.specs.Option.{option_map, unwrap_or};
    ghost use Rattle.std.specs.Rc.{rc_value};

    ghost Value = { List (List ℕ) };

    ghost view = { λ s. unwrap_or (option_map rc_value s.names) [] };
}

/// The names of a list, if there is one.
fn names_in(names: &Option<Rc<Sequence<Name>>>) -> &[Name]
    ensures { result.now ≡ unwrap_or (option_map rc_value names.now) [] }
{
    match names {
        Some(names) => names.as_ref().as_slice(),
        None => &[],
    }
}

/// The list once more.
fn again(names: &Option<Rc<Sequence<Name>>>) -> Result<Option<Rc<Sequence<Name>>>, NoMemory>
    ensures { IfOk result
        (λ other. unwrap_or (option_map rc_value other) [] ≡
        unwrap_or (option_map rc_value names.now) []) }
{
    match names {
        Some(names) => Ok(Some(names.clone()?)),
        None => Ok(None),
    }
}

/// Adds a name to a list that nobody shares. Whether it was added: a shared list is unchanged.
fn add_own(names: &mut Rc<Sequence<Name>>, name: Name) -> Result<bool, NoMemory>
    ensures ok { IfOk result
        (λ added. rc_value names.new ≡
        (if added then rc_value names.old ++ name ∷ [] else rc_value names.old)) }
    ensures err { OnErr result (rc_value names.new ≡ rc_value names.old) }
{
    match Rc::get_mut(names) {
        Some(own) => {
            own.push(name)?;
            Ok(true)
        }
        None => Ok(false),
    }
}

impl NameSet {
    /// No names. Takes no memory.
    pub fn new(alloc: Global) -> NameSet
        ensures { result ≡ [] }
    {
        NameSet { names: None, alloc }
    }

    /// The names in order.
    pub fn as_slice(&self) -> &[Name]
        ensures { result.now ≡ self.now }
    {
        names_in(&self.names)
    }

    /// How many names there are.
    pub fn len(&self) -> usize
        ensures { result ≡ length self.now }
    {
        self.as_slice().len()
    }

    /// Whether there are none.
    pub fn is_empty(&self) -> bool
        ensures { IsTrue result ↔ (self.now ≡ []) }
    {
        self.as_slice().is_empty()
    }

    /// Whether the name is among them.
    pub fn contains(&self, name: &Name) -> bool
        ensures { result ≡ list_any (λ held. bytes_eq held name.now) self.now }
    {
        self.as_slice().contains(name)
    }

    /// Adds a name at the end. `NoMemory`, where memory is wanting, leaves the set as it was.
    pub fn push(&mut self, name: Name) -> Result<(), NoMemory>
        ensures ok { OnOk result (self.new ≡ self.old ++ name ∷ []) }
        ensures err { OnErr result (self.new ≡ self.old) }
    {
        if let Some(names) = &mut self.names {
            if add_own(names, name)? {
                return Ok(());
            }
        }
        let mut names = Sequence::from_slice(self.alloc, self.as_slice())?;
        names.push(name)?;
        self.names = Some(Rc::new(self.alloc, names)?);
        Ok(())
    }
}

impl Copied for NameSet {
    fn copy(&self, alloc: Global) -> Result<NameSet, NoMemory> {
        Ok(NameSet {
            names: again(&self.names)?,
            alloc,
        })
    }
}

impl PartialEq for NameSet {
    ghost eq = { pointwise bytes_eq };

    ghost laws = { Prim.search (comparing, rules) };

    fn eq(&self, other: &NameSet) -> bool {
        self.as_slice() == other.as_slice()
    }
}

impl Eq for NameSet {
    ghost laws = { Prim.search (comparing, rules) };
}
