//! The names of lines, as they are collected for a table.

ghost use Rattle.std.specs.Prelude.{◌≡◌, ◌<◌, ◌++◌, ◌∷◌, ◌-◌, [], length, pos, get_or, slice_set, IsTrue, OnOk, IfOk};
ghost use Rattle.part_rules.specs.LineNames.{area_names, names_by_areas};
ghost use Rattle.line_names.specs.Tables.{are_areas, is_area, AreLines};

use lunit::{Copied, Name, NameSet, NoMemory, Sequence, Span};
use std::alloc::Global;

/// The names of a line of its own: none where no set is given for it.
fn own_names(alloc: Global, sets: &[NameSet], line: usize) -> Result<NameSet, NoMemory>
    ensures { IfOk result (λ names. names ≡ get_or sets.now line []) }
{
    match sets.get(line) {
        Some(set) => set.copy(alloc),
        None => Ok(NameSet::new(alloc)),
    }
}

/// The names of so many lines of their own.
pub(crate) fn own_lines(
    alloc: Global,
    sets: &[NameSet],
    count: usize,
) -> Result<Sequence<NameSet>, NoMemory>
    ensures { IfOk result (AreLines (λ line. get_or sets.now line []) count) }
{
    let mut lines = Sequence::from_vec(Vec::with_capacity(alloc, count)?);
    for line in 0..count {
        lines.push(own_names(alloc, sets, line)?)?;
    }
    Ok(lines)
}

/// Gives a line one name more.
fn add_name(lines: &mut Sequence<NameSet>, line: usize, name: Name) -> Result<(), NoMemory>
    requires { line < length lines.old }
    ensures { OnOk result
        (lines.new ≡ slice_set lines.old line (get_or lines.old line [] ++ name ∷ [])) }
{
    match lines.get_mut(line) {
        Some(names) => names.push(name),
        None => Ok(()),
    }
}

/// Gives a line these names more.
pub(crate) fn add_names(
    lines: &mut Sequence<NameSet>,
    line: usize,
    names: &[Name],
) -> Result<(), NoMemory>
    requires { line < length lines.old }
    ensures { OnOk result
        (lines.new ≡ slice_set lines.old line (get_or lines.old line [] ++ names.now)) }
{
    for name in names {
        add_name(lines, line, *name)?;
    }
    Ok(())
}

/// Gives the two lines of an area the names of its edges (CSS Grid 2, 7.3.2).
fn add_area(lines: &mut Sequence<NameSet>, area: &(Name, Span)) -> Result<(), NoMemory>
    requires { IsTrue (is_area (length lines.old - 1) area.now) }
    ensures { OnOk result
        (AreLines (λ line. get_or lines.old line [] ++ area_names (pos line) area.now)
        (length lines.old) lines.new) }
{
    let (name, span) = area;
    add_name(lines, span.start as usize, name.edge(false))?;
    add_name(lines, span.end as usize, name.edge(true))
}

/// Gives the lines of all these areas the names of their edges.
pub(crate) fn add_areas(
    lines: &mut Sequence<NameSet>,
    areas: &[(Name, Span)],
) -> Result<(), NoMemory>
    requires { IsTrue (are_areas (length lines.old - 1) areas.now) }
    ensures { OnOk result
        (AreLines (λ line. get_or lines.old line [] ++ names_by_areas (pos line) areas.now)
        (length lines.old) lines.new) }
{
    for area in areas {
        add_area(lines, area)?;
    }
    Ok(())
}
