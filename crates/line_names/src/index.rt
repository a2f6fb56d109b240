//! An index of lines by their names.

ghost use Rattle.std.specs.Prelude.{◌≡◌, ◌<◌, ◌≤◌, ◌+◌, ◌^◌, ◌++◌, ◌∷◌, ◌||◌, ◌↔◌, [], List, ℕ, Bool, get_or, length, pos, slice_get, false, if◌then◌else◌, IfOk, IsTrue, OnOk};
ghost use Rattle.std.specs.Option.{option_copied};
ghost use Rattle.std.specs.Str.{bytes_eq};
ghost use Rattle.part_rules.specs.LineNames.{holds_name};
ghost use Rattle.line_names.specs.Indexes.{ends_before, lines_in, marked, noted, IsIndexOf, IsPart};
ghost use Rattle.line_names.specs.LineLists.{listed};
ghost use Rattle.line_names.specs.Passing.{passing};
ghost use Rattle.line_names.specs.SetLists.{is_of, named_in, sets_of, AreLists};

use crate::line_list::{LineList, LinesIn};
use crate::set_list::SetList;
use lunit::{Name, NameSet, NoMemory};
use std::alloc::Global;
use std::collections::BTreeMap;

/// The lines that have a name, in order, under each name.
#[derive(Drop)]
pub(crate) struct NameIndex {
    lines: BTreeMap<Name, LineList>,
}

/// Whether the last of these lines, if there is one, is before this one.
fn ends_before(lines: &LineList, line: u32) -> bool
    requires { line < 2 ^ 31 }
    ensures { result ≡ ends_before lines.now (pos line) }
{
    match lines.last() {
        Some(last) => last < line as i64,
        None => true,
    }
}

/// Adds a line after those before it.
fn note(lines: &mut LineList, line: u32) -> Result<(), NoMemory>
    requires { line + 1 < 2 ^ 31 }
    ensures { OnOk result (lines.new ≡ noted lines.old (pos line)) }
{
    if ends_before(lines, line) {
        lines.push(line as i32)?;
    }
    Ok(())
}

/// The list of a kind, if there is one.
fn list_of<'a>(lists: &'a [LineList], kind: u32) -> Option<&'a LineList>
    ensures { option_copied result ≡ slice_get lists.now kind }
{
    lists.get(kind as usize)
}

/// The lines that have one of these kinds: those of the kind, where it is one.
fn lines_by(
    alloc: Global,
    lists: &[LineList],
    lines: &SetList,
    kinds: LinesIn,
) -> Result<LineList, NoMemory>
    requires few { length lines.now.kinds + 1 < 2 ^ 31 }
    requires lists { AreLists lines.now (length lines.now.kinds) lists.now }
    ensures { IfOk result
        (λ all. all ≡
        passing (is_of (listed kinds.entry) lines.now.kinds) (pos 0) (length lines.now.kinds)) }
{
    if let Some(kind) = kinds.only() {
        if let Some(list) = list_of(lists, kind) {
            return list.again(alloc);
        }
    }
    lines.lines_of(alloc, kinds)
}

impl NameIndex {
    /// The index of no lines.
    pub(crate) fn new(alloc: Global) -> NameIndex
        ensures { (name : List ℕ) → lines_in result.lines name ≡ [] }
    {
        NameIndex {
            lines: BTreeMap::new(alloc),
        }
    }

    /// The lines of a name, in order.
    pub(crate) fn lines_of(&self, name: &Name) -> LinesIn<'_>
        ensures { listed result ≡ lines_in self.now.lines name.now }
    {
        match self.lines.get(name) {
            Some(lines) => lines.seen(),
            None => LinesIn::none(),
        }
    }

    #[tactic(auto, using(crate::proofs::Names::found))]
    /// Takes the lines of a name out.
    fn take(&mut self, alloc: Global, name: &Name) -> LineList
        ensures taken { result ≡ lines_in self.old.lines name.now }
        ensures others { (other : List ℕ) → bytes_eq name.now other ≡ false →
            lines_in self.new.lines other ≡ lines_in self.old.lines other }
    {
        match self.lines.remove(name) {
            Some(lines) => lines,
            None => LineList::new(alloc),
        }
    }

    #[tactic(auto, using(crate::proofs::Names::found))]
    /// Puts lines under a name.
    pub(crate) fn put(&mut self, name: &Name, lines: LineList) -> Result<(), NoMemory>
        ensures { OnOk result
            ((other : List ℕ) →
            lines_in self.new.lines other ≡
            (if bytes_eq name.now other then lines else lines_in self.old.lines other)) }
    {
        self.lines.insert(*name, lines)?;
        Ok(())
    }

    /// Adds a line to those of a name.
    fn add(&mut self, alloc: Global, name: &Name, line: u32) -> Result<(), NoMemory>
        requires { line + 1 < 2 ^ 31 }
        ensures { OnOk result
            ((other : List ℕ) →
            lines_in self.new.lines other ≡
            marked (bytes_eq name.now other) (lines_in self.old.lines other) (pos line)) }
    {
        let mut lines = self.take(alloc, name);
        note(&mut lines, line)?;
        self.put(name, lines)
    }

    /// Adds a line to those of each of these names.
    fn add_all(&mut self, alloc: Global, names: &[Name], line: u32) -> Result<(), NoMemory>
        requires { line + 1 < 2 ^ 31 }
        ensures { OnOk result
            ((other : List ℕ) →
            lines_in self.new.lines other ≡
            marked (holds_name other names.now) (lines_in self.old.lines other) (pos line)) }
    {
        for name in names {
            self.add(alloc, name, line)?;
        }
        Ok(())
    }

    /// The index of these sets, each as a line.
    fn of_sets(alloc: Global, sets: &[NameSet]) -> Result<NameIndex, NoMemory>
        requires { length sets.now < 2 ^ 31 }
        ensures { IfOk result (λ index. IsIndexOf index.lines sets.now) }
    {
        let mut index = NameIndex::new(alloc);
        for at in 0..sets.len() {
            index.add_all(alloc, sets[at].as_slice(), at as u32)?;
        }
        Ok(index)
    }

    /// Puts the lines of a name, found by the kinds that have it, unless it has lines already.
    fn fill(
        &mut self,
        alloc: Global,
        kinds: &NameIndex,
        lists: &[LineList],
        lines: &SetList,
        name: &Name,
    ) -> Result<(), NoMemory>
        requires few { length lines.now.kinds + 1 < 2 ^ 31 }
        requires kinds { IsIndexOf kinds.now.lines lines.now.sets }
        requires lists { AreLists lines.now (length lines.now.kinds) lists.now }
        ensures { OnOk result
            ((done : List ℕ → Bool) → IsPart self.old.lines done (named_in lines.now) →
            IsPart self.new.lines (λ other. done other || bytes_eq name.now other)
            (named_in lines.now)) }
    {
        if self.lines_of(name).is_empty() {
            let all = lines_by(alloc, lists, lines, kinds.lines_of(name))?;
            self.put(name, all)?;
        }
        Ok(())
    }

    /// Puts the lines of each of these names.
    fn fill_all(
        &mut self,
        alloc: Global,
        kinds: &NameIndex,
        lists: &[LineList],
        lines: &SetList,
        names: &[Name],
    ) -> Result<(), NoMemory>
        requires few { length lines.now.kinds + 1 < 2 ^ 31 }
        requires kinds { IsIndexOf kinds.now.lines lines.now.sets }
        requires lists { AreLists lines.now (length lines.now.kinds) lists.now }
        ensures { OnOk result
            ((done : List ℕ → Bool) → IsPart self.old.lines done (named_in lines.now) →
            IsPart self.new.lines (λ other. done other || holds_name other names.now)
            (named_in lines.now)) }
    {
        for name in names {
            self.fill(alloc, kinds, lists, lines, name)?;
        }
        Ok(())
    }

    /// The index of these lines. The lines of a name are found by the kinds that have it, so that a set that stands on many lines is
    /// read once.
    pub(crate) fn of(alloc: Global, lines: &SetList) -> Result<NameIndex, NoMemory>
        requires few { length lines.now.kinds + 1 < 2 ^ 31 }
        requires kinds { length lines.now.sets < 2 ^ 31 }
        ensures { IfOk result
            (λ index. IsIndexOf index.lines (sets_of lines.now.sets lines.now.kinds)) }
    {
        let kinds = NameIndex::of_sets(alloc, lines.sets.as_slice())?;
        let lists = lines.lists(alloc)?;
        let all = lists.as_slice();
        let mut index = NameIndex::new(alloc);
        for names in lines.sets.as_slice() {
            index.fill_all(alloc, &kinds, all, lines, names.as_slice())?;
        }
        Ok(index)
    }
}
