//! What a style tells at a glance: what a grid asks of each of its children, so that it need not read their values.

ghost use Rattle.std.specs.Prelude.{◌≡◌, Bool};
ghost use Rattle.lunit.specs.declared.line_value.LineValue.TheVariants as line;
ghost use Rattle.style_types.specs.Briefs.{gap_value, is_subgrid_value, IsBrief, IsGlance};
ghost use Rattle.style_types.specs.Styles.{value_of};
ghost use Rattle.style_types.specs.Table.{initial};
ghost use Rattle.style_types.specs.declared.track.Template.TheVariants as template;
ghost use Rattle.style_types.specs.declared.value.Size.TheVariants as size;
ghost use Rattle.style_types.specs.declared.value.Value.TheVariants as value;

use crate::prop::Prop;
use crate::prop_map::PropMap;
use crate::track::Template;
use crate::value::{Size, Value};
use lunit::LineValue;

/// What a line value tells at a glance.
#[derive(Clone, Copy, Debug, PartialEq, Eq)]
pub enum Glance {
    /// Nothing: the value is to be read.
    Read,
    /// It is `auto`.
    Auto,
    /// It is `span` with so many tracks and without a name.
    Span(u8),
}

/// What a style tells at a glance, of both axes.
#[derive(Clone, Copy, Debug)]
pub(crate) struct Brief {
    pub(crate) subgrid_columns: bool,
    pub(crate) subgrid_rows: bool,
    pub(crate) column_start: Glance,
    pub(crate) column_end: Glance,
    pub(crate) row_start: Glance,
    pub(crate) row_end: Glance,
    pub(crate) column_gap: Size,
    pub(crate) row_gap: Size,
}

/// Whether the value of a template is `subgrid`.
fn is_subgrid_at(values: &PropMap<Value>, p: Prop) -> bool
    requires { initial p ≡ value.Template template.Absent }
    ensures { result ≡ is_subgrid_value (value_of values.now p) }
{
    match values.get(p) {
        Some(Value::Template(Template::Subgrid(_))) => true,
        _ => false,
    }
}

/// What a line value tells at a glance.
fn line_at_a_glance(line: &LineValue) -> Glance
    ensures { IsGlance result (value.Line line.now) }
{
    match line {
        LineValue::Auto => Glance::Auto,
        LineValue::Reach(tracks, None) if *tracks < 256 => Glance::Span(*tracks as u8),
        _ => Glance::Read,
    }
}

/// What the line value of a property tells at a glance.
fn glance_at(values: &PropMap<Value>, p: Prop) -> Glance
    requires { initial p ≡ value.Line line.Auto }
    ensures { IsGlance result (value_of values.now p) }
{
    match values.get(p) {
        None => Glance::Auto,
        Some(Value::Line(line)) => line_at_a_glance(line),
        Some(_) => Glance::Read,
    }
}

/// The value of a gap.
fn gap_at(values: &PropMap<Value>, p: Prop) -> Size
    requires { initial p ≡ value.Size size.Normal }
    ensures { result ≡ gap_value (value_of values.now p) }
{
    match values.get(p) {
        None => Size::Normal,
        Some(Value::Size(size)) => *size,
        Some(_) => Size::Auto,
    }
}

impl Brief {
    /// What these values tell at a glance.
    pub(crate) fn of(values: &PropMap<Value>) -> Brief
        ensures { IsBrief result values.now }
    {
        Brief {
            subgrid_columns: is_subgrid_at(values, Prop::GridTemplateColumns),
            subgrid_rows: is_subgrid_at(values, Prop::GridTemplateRows),
            column_start: glance_at(values, Prop::GridColumnStart),
            column_end: glance_at(values, Prop::GridColumnEnd),
            row_start: glance_at(values, Prop::GridRowStart),
            row_end: glance_at(values, Prop::GridRowEnd),
            column_gap: gap_at(values, Prop::ColumnGap),
            row_gap: gap_at(values, Prop::RowGap),
        }
    }
}
