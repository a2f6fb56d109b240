ghost use Rattle.std.specs.Prelude.{◌≡◌, IfOk, OnOk, OnErr, IsOk, IsSome};
ghost use Rattle.std.specs.Option.{option_copied, unwrap_or};
ghost use Rattle.std.specs.FinMap as map;
ghost use Rattle.style_types.specs.Briefs.{gap_value, is_subgrid_value, IsGlance};
ghost use Rattle.style_types.specs.Styles.{value_of};
ghost use Rattle.style_types.specs.Table.{initial};
ghost use Rattle.style_types.specs.declared.prop.Prop.TheVariants as prop;

use crate::brief::{Brief, Glance};
use crate::prop::Prop;
use crate::prop_map::PropMap;
use crate::value::{Size, Value};
use lunit::{Copied, NoMemory};
use std::alloc::Global;
use std::marker::Model;

/// The properties that are set on a node, each with its value, whose lengths are px; a property that is not set has
/// its initial value. Contracts see the finite map. What a grid asks of each child is told at a glance.
#[derive(Drop)]
pub struct Style {
    brief: Brief,
    values: PropMap<Value>,
}

impl Model for Style {
    ghost use Rattle.std.specs.FinMap as map;
    ghost use Rattle.style_types.specs.Order.{prop_cmp};
    ghost use Rattle.style_types.specs.declared.value.Value.{Value as PropValue};
    ghost use Rattle.style_types.specs.contracts.prop.Prop as prop;
    ghost use Rattle.style_types.specs.contracts.value.Value as value;

    ghost Value = { map.FinMap prop_cmp PropValue };

    ghost coded = { map.code prop.the_row.coded value.the_row.coded };

    ghost use Rattle.style_types.specs.Briefs.{IsBrief};

    ghost view = { λ a. a.values };

    ghost invariant = { λ a. IsBrief a.brief a.values };
}

impl Style {
    /// The style of these values.
    pub(crate) fn of(values: PropMap<Value>) -> Style
        ensures { result ≡ values }
    {
        Style {
            brief: Brief::of(&values),
            values,
        }
    }

    /// The style in which no property is set. Takes no memory.
    pub fn new(alloc: Global) -> Style
        ensures { result ≡ map.empty }
    {
        Style::of(PropMap::new(alloc))
    }

    /// The value of the property where it is set; `None` exactly where it is not, and its value is then the initial
    /// one. Takes no memory.
    pub fn get(&self, p: Prop) -> Option<&Value>
        ensures set { option_copied result ≡ map.get self.now p }
        ensures value { unwrap_or (option_copied result) (initial p) ≡ value_of self.now p }
    {
        self.values.get(p)
    }

    /// Sets the property to the value, in place of the one that it had. `NoMemory` comes only for want of memory,
    /// which a property that is set already never meets, and changes nothing.
    pub fn set(&mut self, p: Prop, v: Value) -> Result<(), NoMemory>
        ensures ok { OnOk result (self.new ≡ map.insert self.old p v) }
        ensures err { OnErr result (self.new ≡ self.old) }
        ensures replaced { IsSome (map.get self.old p) → IsOk result }
    {
        self.values.set(p, v)?;
        self.brief = Brief::of(&self.values);
        Ok(())
    }

    #[tactic(auto, using(crate::proofs::Places::value_of_removed))]
    /// The property is no longer set. Takes no memory.
    pub fn unset(&mut self, p: Prop)
        ensures map { self.new ≡ map.remove self.old p }
        ensures value { value_of self.new p ≡ initial p }
    {
        self.values.unset(p);
        self.brief = Brief::of(&self.values);
    }

    /// Whether `grid-template-columns` is `subgrid` (CSS Grid 2, section 9). Takes no memory.
    pub fn has_subgrid_columns(&self) -> bool
        ensures { result ≡ is_subgrid_value (value_of self.now prop.GridTemplateColumns) }
    {
        self.brief.subgrid_columns
    }

    /// Whether `grid-template-rows` is `subgrid` (CSS Grid 2, section 9). Takes no memory.
    pub fn has_subgrid_rows(&self) -> bool
        ensures { result ≡ is_subgrid_value (value_of self.now prop.GridTemplateRows) }
    {
        self.brief.subgrid_rows
    }

    /// What `grid-column-start` tells at a glance. Takes no memory.
    pub fn column_start(&self) -> Glance
        ensures { IsGlance result (value_of self.now prop.GridColumnStart) }
    {
        self.brief.column_start
    }

    /// What `grid-column-end` tells at a glance. Takes no memory.
    pub fn column_end(&self) -> Glance
        ensures { IsGlance result (value_of self.now prop.GridColumnEnd) }
    {
        self.brief.column_end
    }

    /// What `grid-row-start` tells at a glance. Takes no memory.
    pub fn row_start(&self) -> Glance
        ensures { IsGlance result (value_of self.now prop.GridRowStart) }
    {
        self.brief.row_start
    }

    /// What `grid-row-end` tells at a glance. Takes no memory.
    pub fn row_end(&self) -> Glance
        ensures { IsGlance result (value_of self.now prop.GridRowEnd) }
    {
        self.brief.row_end
    }

    /// The value of `column-gap` (CSS Box Alignment 3, section 8.1). Takes no memory.
    pub fn column_gap(&self) -> Size
        ensures { result ≡ gap_value (value_of self.now prop.ColumnGap) }
    {
        self.brief.column_gap
    }

    /// The value of `row-gap` (CSS Box Alignment 3, section 8.1). Takes no memory.
    pub fn row_gap(&self) -> Size
        ensures { result ≡ gap_value (value_of self.now prop.RowGap) }
    {
        self.brief.row_gap
    }
}

impl Copied for Style {
    fn copy(&self, alloc: Global) -> Result<Style, NoMemory> {
        Ok(Style::of(self.values.copy(alloc)?))
    }
}
