//! The values of a node's properties: as a change sets them, and as they are before an edit.

ghost use Rattle.std.specs.Prelude.{◌≡◌, ◌==◌, ◌++◌, ◌∷◌, [], if◌then◌else◌, IfOk, OnOk};
ghost use Rattle.std.specs.List.{list_any};
ghost use Rattle.style_types.specs.Order.{place_of};
ghost use Rattle.edit_journal.specs.Changes.{with_values};
ghost use Rattle.std.specs.FinMap.{get};
ghost use Rattle.edit_journal.specs.Steps.{once, props_of, values_in, values_set, values_unset};

use lunit::{Copied, NoMemory, Sequence};
use std::alloc::Global;
use style_types::{Declared, DeclaredValue, Prop};

#[tactic(auto, using(crate::proofs::Items::value_laws))]
/// The values with these properties set, or no longer set where no value stands beside one, one
/// after another.
pub fn with_values(
    alloc: Global,
    declared: &Declared,
    values: &[(Prop, Option<DeclaredValue>)],
) -> Result<Declared, NoMemory>
    ensures { IfOk result (λ made. made ≡ with_values values.now declared.now) }
{
    let mut made = declared.copy(alloc)?;
    for (property, value) in values {
        match value {
            Some(value) => made.set(*property, value.copy(alloc)?)?,
            None => made.unset(*property),
        }
    }
    Ok(made)
}

#[tactic(auto, using(crate::proofs::Items::value_laws))]
/// The properties of these settings, in order.
pub fn props_of(
    alloc: Global,
    settings: &[(Prop, DeclaredValue)],
) -> Result<Sequence<Prop>, NoMemory>
    ensures { IfOk result (λ props. props ≡ props_of settings.now) }
{
    let mut props = Sequence::new(alloc);
    for (property, _) in settings {
        props.push(*property)?;
    }
    Ok(props)
}

#[tactic(auto, using(crate::proofs::Items::value_laws))]
/// The values that a change sets for these settings.
pub fn values_set(
    alloc: Global,
    settings: &[(Prop, DeclaredValue)],
) -> Result<Sequence<(Prop, Option<DeclaredValue>)>, NoMemory>
    ensures { IfOk result (λ values. values ≡ values_set settings.now) }
{
    let mut values = Sequence::new(alloc);
    for (property, value) in settings {
        values.push((*property, Some(value.copy(alloc)?)))?;
    }
    Ok(values)
}

#[tactic(auto, using(crate::proofs::Items::value_laws))]
/// The values with which a change no longer sets these properties.
pub fn values_unset(
    alloc: Global,
    props: &[Prop],
) -> Result<Sequence<(Prop, Option<DeclaredValue>)>, NoMemory>
    ensures { IfOk result (λ values. values ≡ values_unset props.now) }
{
    let mut values = Sequence::new(alloc);
    for property in props {
        values.push((*property, None))?;
    }
    Ok(values)
}

/// Copies of these values.
pub(crate) fn copy_values(
    alloc: Global,
    values: &[(Prop, Option<DeclaredValue>)],
) -> Result<Sequence<(Prop, Option<DeclaredValue>)>, NoMemory>
    ensures { IfOk result (λ copy. copy ≡ values.now) }
{
    let mut copies = Sequence::new(alloc);
    for (property, value) in values {
        copies.push((*property, value.copy(alloc)?))?;
    }
    Ok(copies)
}

/// Whether the property is among these.
fn is_among(props: &[Prop], property: Prop) -> bool
    ensures { result ≡ list_any (λ p. place_of p == place_of property) props.now }
{
    props.contains(&property)
}

/// Adds the property at the end, unless it is there.
fn add_once(props: &mut Sequence<Prop>, property: Prop) -> Result<(), NoMemory>
    ensures { OnOk result
        (props.new ≡
        (if list_any (λ p. place_of p == place_of property) props.old then props.old else
        props.old ++ property ∷ [])) }
{
    if is_among(props.as_slice(), property) {
        return Ok(());
    }
    props.push(property)?;
    Ok(())
}

#[tactic(auto, using(crate::proofs::Items::once_laws))]
/// Each of the properties once, where it is named first.
fn once(alloc: Global, props: &[Prop]) -> Result<Sequence<Prop>, NoMemory>
    ensures { IfOk result (λ all. all ≡ once props.now) }
{
    let mut all = Sequence::new(alloc);
    for property in props {
        add_once(&mut all, *property)?;
    }
    Ok(all)
}

/// The declared value of the property; none where it is not set.
fn value_of(
    alloc: Global,
    declared: &Declared,
    property: Prop,
) -> Result<Option<DeclaredValue>, NoMemory>
    ensures { IfOk result (λ value. value ≡ get declared.now property) }
{
    match declared.get(property) {
        Some(value) => Ok(Some(value.copy(alloc)?)),
        None => Ok(None),
    }
}

#[tactic(auto, using(crate::proofs::Items::value_laws))]
/// Each of the properties once, with the value that it has, or with none where it is not set.
/// `NoMemory` where memory is wanting.
pub fn values_in(
    alloc: Global,
    declared: &Declared,
    props: &[Prop],
) -> Result<Sequence<(Prop, Option<DeclaredValue>)>, NoMemory>
    ensures { IfOk result (λ values. values ≡ values_in declared.now props.now) }
{
    let props = once(alloc, props)?;
    let mut values = Sequence::new(alloc);
    for property in props.as_slice() {
        values.push((*property, value_of(alloc, declared, *property)?))?;
    }
    Ok(values)
}
