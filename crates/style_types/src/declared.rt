ghost use Rattle.std.specs.Prelude.{◌≡◌, IfOk, OnOk, OnErr, IsOk, IsSome};
ghost use Rattle.std.specs.Option.{option_copied};
ghost use Rattle.std.specs.FinMap as map;
ghost use Rattle.style_types.specs.Computed.{computed_style, font_with, font_of};

use crate::prop::Prop;
use crate::prop_map::PropMap;
use crate::style::Style;
use crate::unit_list::UnitList;
use crate::value::{Size, Value};
use lunit::{Copied, Lu, NoMemory};
use std::alloc::Global;
use std::marker::Model;

/// A value as it is declared: its lengths may be relative to a font size.
#[derive(Drop)]
pub struct DeclaredValue {
    /// The value, in which a length that is relative stands as 0.
    pub value: Value,
    /// The unit of each length of the value, in the order of its lists: of a track size the least side, the most side,
    /// then the argument of `fit-content`; the tracks of an automatic repeat after those outside of it.
    pub units: UnitList,
}

impl Copied for DeclaredValue {
    fn copy(&self, alloc: Global) -> Result<DeclaredValue, NoMemory> {
        Ok(DeclaredValue {
            value: self.value.copy(alloc)?,
            units: self.units.copy(alloc)?,
        })
    }
}

/// The properties that a node declares, each with its value. Contracts see the finite map.
#[derive(Drop)]
pub struct Declared {
    values: PropMap<DeclaredValue>,
}

impl Model for Declared {
    ghost use Rattle.std.specs.FinMap as map;
    ghost use Rattle.style_types.specs.Order.{prop_cmp};
    ghost use Rattle.style_types.specs.declared.declared.DeclaredValue.{DeclaredValue};
    ghost use Rattle.style_types.specs.contracts.prop.Prop as prop;
    ghost use Rattle.style_types.specs.contracts.declared.DeclaredValue as declared;

    ghost Value = { map.FinMap prop_cmp DeclaredValue };

    ghost coded = { map.code prop.the_row.coded declared.the_row.coded };

    ghost view = { λ a. a.values };
}

/// The font size that the declared value is; `parent` where it is no length.
fn font_of(parent: Lu, root: Lu, declared: &DeclaredValue) -> Lu
    ensures { result ≡ font_with parent root declared.now.value declared.now.units }
{
    match &declared.value {
        Value::Size(Size::Length(px)) => declared.units.first_length(parent, root, *px),
        _ => parent,
    }
}

impl Declared {
    /// The style that declares nothing. Takes no memory.
    pub fn new(alloc: Global) -> Declared
        ensures { result ≡ map.empty }
    {
        Declared {
            values: PropMap::new(alloc),
        }
    }

    /// The declared value of the property; `None` exactly where it is not set. Takes no memory.
    pub fn get(&self, p: Prop) -> Option<&DeclaredValue>
        ensures { option_copied result ≡ map.get self.now p }
    {
        self.values.get(p)
    }

    /// Sets the property to the value, in place of the one that it had. `NoMemory` comes only for want of memory,
    /// which a property that is set already never meets, and changes nothing.
    pub fn set(&mut self, p: Prop, v: DeclaredValue) -> Result<(), NoMemory>
        ensures ok { OnOk result (self.new ≡ map.insert self.old p v) }
        ensures err { OnErr result (self.new ≡ self.old) }
        ensures replaced { IsSome (map.get self.old p) → IsOk result }
    {
        self.values.set(p, v)
    }

    /// The property is no longer set. Takes no memory.
    pub fn unset(&mut self, p: Prop)
        ensures { self.new ≡ map.remove self.old p }
    {
        self.values.unset(p);
    }

    /// The font size of the node, in units of 1/64 px, where that of its parent is `parent` and that of the root
    /// `root`: the declared one, whose `em` is `parent`; where none is declared `parent` (CSS Fonts 4, section 2.5).
    /// Takes no memory.
    pub fn font(&self, parent: Lu, root: Lu) -> Lu
        ensures { result ≡ font_of parent root self.now }
    {
        match self.values.get(Prop::FontSize) {
            Some(declared) => font_of(parent, root, declared),
            None => parent,
        }
    }

    /// The computed style: each declared value with its lengths in px, where the font size of the node is `em` and
    /// that of the root `rem` (CSS Values 4, section 6.1). So many millionths of a font size are truncated toward
    /// zero, then limited to a magnitude of 2^26 units (own rule). `NoMemory` where memory is wanting.
    pub fn computed(&self, alloc: Global, em: Lu, rem: Lu) -> Result<Style, NoMemory>
        ensures { IfOk result (λ style. style ≡ computed_style em rem self.now) }
    {
        let values = self.values.computed(alloc, em, rem)?;
        Ok(Style::of(values))
    }
}

impl Copied for Declared {
    fn copy(&self, alloc: Global) -> Result<Declared, NoMemory> {
        Ok(Declared {
            values: self.values.copy(alloc)?,
        })
    }
}
