//! The names of lines, in which equal sets are held once.

ghost use Rattle.std.specs.Prelude.{◌≡◌, ◌<◌, ◌≤◌, ◌+◌, ◌^◌, ◌∷◌, ◌++◌, ◌==◌, ◌<ℤ◌, [], ℕ, List, get_or, length, replicate, take, pos, IfOk, IfSome, IsTrue, OnOk};
ghost use Rattle.line_names.specs.Counting.{IsWide};
ghost use Rattle.line_names.specs.LineLists.{listed};
ghost use Rattle.line_names.specs.Indexes.{ends_before};
ghost use Rattle.line_names.specs.Passing.{passing, picked};
ghost use Rattle.line_names.specs.SetLists.{is_of, sets_of, AreLists, IsKind};
ghost use Rattle.line_names.specs.Tables.{AreLines};

use crate::line_list::{LineList, LinesIn, line_number};
use lunit::{Copied, NameSet, NoMemory, Sequence};
use std::alloc::Global;

/// The name sets of lines one after another. Sets that are equal are held once: a line has the number of its set, its kind. The
/// kind of a line without names is past all sets.
#[derive(Drop)]
pub(crate) struct SetList {
    pub(crate) sets: Sequence<NameSet>,
    pub(crate) kinds: Sequence<u32>,
}

#[tactic(auto, using(crate::proofs::Names::same_names))]
/// Whether two lines have the same names in the same order.
fn have_same_names(a: &NameSet, b: &NameSet) -> bool
    ensures { IsTrue result → a.now ≡ b.now }
{
    a == b
}

/// The last of these sets that is this one.
fn kind_of(sets: &[NameSet], names: &NameSet) -> Option<u32>
    requires { length sets.now < 2 ^ 31 }
    ensures found { IfSome result (λ kind. get_or sets.now kind [] ≡ names.now) }
    ensures within { IfSome result (λ kind. kind < length sets.now) }
{
    let mut left = sets.len();
    while left > 0 {
        left -= 1;
        if have_same_names(&sets[left], names) {
            return Some(left as u32);
        }
    }
    None
}

/// The kind of a set, which is added where it is not among these.
fn kind_in(alloc: Global, sets: &mut Sequence<NameSet>, names: &NameSet) -> Result<u32, NoMemory>
    requires few { length sets.old < 2 ^ 31 }
    ensures kept { take (length sets.old) sets.new ≡ sets.old }
    ensures more { length sets.new ≤ length sets.old + 1 }
    ensures kind { IfOk result (λ kind. get_or sets.new kind [] ≡ names.now) }
    ensures within { IfOk result (λ kind. IsKind (length sets.new) kind) }
{
    if names.is_empty() {
        return Ok(u32::MAX);
    }
    if let Some(kind) = kind_of(sets.as_slice(), names) {
        return Ok(kind);
    }
    let kind = sets.len() as u32;
    sets.push(names.copy(alloc)?)?;
    Ok(kind)
}

/// Adds a line to the list of its kind, if there is one.
fn add_line(lists: &mut Sequence<LineList>, kind: usize, line: i32) -> Result<(), NoMemory>
    requires near { line <ℤ pos 2147483647 }
    requires last { IsTrue (ends_before (get_or lists.old kind []) line) }
    ensures count { OnOk result (length lists.new ≡ length lists.old) }
    ensures added { OnOk result
        ((k : ℕ) → k < length lists.old →
        get_or lists.new k [] ≡ get_or lists.old k [] ++ picked (k == kind) line []) }
{
    if let Some(list) = lists.get_mut(kind) {
        list.push(line)?;
    }
    Ok(())
}

/// So many lists of no lines.
fn empty_lists(alloc: Global, count: usize) -> Result<Sequence<LineList>, NoMemory>
    ensures { IfOk result (λ lists. lists ≡ replicate count []) }
{
    let mut lists = Sequence::new(alloc);
    for _ in 0..count {
        lists.push(LineList::new(alloc))?;
    }
    Ok(lists)
}

/// The kind of a line, whose set is added where it is not among those that are held.
fn kind_at(
    alloc: Global,
    held: &mut Sequence<NameSet>,
    sets: &[NameSet],
    line: usize,
) -> Result<u32, NoMemory>
    requires few { length held.old < 2 ^ 31 }
    ensures kept { take (length held.old) held.new ≡ held.old }
    ensures more { length held.new ≤ length held.old + 1 }
    ensures kind { IfOk result
        (λ kind. get_or held.new kind [] ≡ get_or sets.now line []) }
    ensures within { IfOk result (λ kind. IsKind (length held.new) kind) }
{
    match sets.get(line) {
        Some(names) => kind_in(alloc, held, names),
        None => Ok(u32::MAX),
    }
}

impl SetList {
    /// The list of so many lines: of these sets, and of no names where no set is given.
    pub(crate) fn of(alloc: Global, sets: &[NameSet], count: usize) -> Result<SetList, NoMemory>
        requires { count < 2 ^ 31 }
        ensures lines { IfOk result
            (λ list. AreLines (λ line. get_or sets.now line []) count
            (sets_of list.sets list.kinds)) }
        ensures few { IfOk result (λ list. length list.sets ≤ count) }
    {
        let mut held = Sequence::new(alloc);
        let mut kinds = Sequence::from_vec(Vec::with_capacity(alloc, count)?);
        for line in 0..count {
            kinds.push(kind_at(alloc, &mut held, sets, line)?)?;
        }
        Ok(SetList { sets: held, kinds })
    }

    /// The kind of a line.
    fn kind(&self, line: usize) -> i64
        requires { line < length self.now.kinds }
        ensures value { result ≡ pos (get_or self.now.kinds line 0) }
        ensures wide { IsWide result }
    {
        self.kinds.as_slice()[line] as i64
    }

    /// The lines of each kind, numbered from 0.
    pub(crate) fn lists(&self, alloc: Global) -> Result<Sequence<LineList>, NoMemory>
        requires { length self.now.kinds + 1 < 2 ^ 31 }
        ensures { IfOk result (λ lists. AreLists self.now (length self.now.kinds) lists) }
    {
        let mut lists = empty_lists(alloc, self.sets.len())?;
        for at in 0..self.kinds.len() {
            let kind = self.kinds.as_slice()[at] as usize;
            add_line(&mut lists, kind, line_number(at))?;
        }
        Ok(lists)
    }

    /// The lines, numbered from 0, that have one of these kinds.
    pub(crate) fn lines_of(&self, alloc: Global, kinds: LinesIn) -> Result<LineList, NoMemory>
        requires { length self.now.kinds + 1 < 2 ^ 31 }
        ensures { IfOk result
            (λ lines. lines ≡
            passing (is_of (listed kinds.entry) self.now.kinds) (pos 0) (length self.now.kinds)) }
    {
        let mut lines = LineList::new(alloc);
        for at in 0..self.kinds.len() {
            let held = kinds.has(self.kind(at));
            lines.push_if(held, line_number(at))?;
        }
        Ok(lines)
    }
}
