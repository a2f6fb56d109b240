ghost use Rattle.std.specs.Prelude.{◌≡◌, IfOk};

use crate::track::{Template, TrackFn};
use lunit::{Area, Copied, LineValue, Lu, Name, NoMemory, Sequence};
use std::alloc::Global;

/// The named areas of `grid-template-areas` (CSS Grid 2, section 7.3).
#[derive(Debug, Drop, PartialEq, Eq)]
pub struct Areas {
    /// Cells in a row.
    pub columns: u32,
    /// Rows.
    pub rows: u32,
    /// Each name with its rectangle, whose lines count from 0, in the order of the areas' first cells row by row.
    pub named: Sequence<(Name, Area)>,
}

/// A size, or a keyword in its place.
#[derive(Clone, Copy, Debug, PartialEq, Eq)]
pub enum Size {
    /// `auto`.
    Auto,
    /// `none`.
    Absent,
    /// `normal`.
    Normal,
    /// `content`.
    Content,
    /// A length in units of 1/64 px.
    Length(Lu),
    /// A percentage in thousandths of a percent.
    Percent(u32),
}

/// The value of `overflow` (CSS Overflow 3, section 3.1). `Hidden`, `Scroll` and `Auto` make a scroll container.
#[derive(Clone, Copy, Debug, PartialEq, Eq)]
pub enum Scroll {
    /// `visible`.
    Visible,
    /// `clip`.
    Clip,
    /// `hidden`.
    Hidden,
    /// `scroll`.
    Scroll,
    /// `auto`.
    Auto,
}

/// How subjects stand in their space (CSS Box Alignment 3, section 4).
#[derive(Clone, Copy, Debug, PartialEq, Eq)]
pub enum AlignMode {
    /// `auto`.
    Auto,
    /// `normal`.
    Normal,
    /// `stretch`.
    Stretch,
    /// `start`.
    Start,
    /// `end`.
    End,
    /// `center`.
    Center,
    /// `flex-start`.
    FlexStart,
    /// `flex-end`.
    FlexEnd,
    /// `space-between`.
    Between,
    /// `space-around`.
    Around,
    /// `space-evenly`.
    Evenly,
}

/// The value of an alignment property (CSS Box Alignment 3, section 4).
#[derive(Clone, Copy, Debug, PartialEq, Eq)]
pub struct Align {
    /// How the subjects stand.
    pub mode: AlignMode,
    /// Whether `safe` or `unsafe` stands before the position (section 4.4), if either does.
    pub safe: Option<bool>,
}

/// The value of a property.
#[derive(PartialEq, Eq)]
pub enum Value {
    /// A template of columns or rows.
    Template(Template),
    /// `grid-template-areas`; `None` is `none`.
    Areas(Option<Areas>),
    /// The track sizes of `grid-auto-columns` or `grid-auto-rows`, at least one.
    Sizes(Sequence<TrackFn>),
    /// `grid-auto-flow`.
    Flow {
        /// `column`, else `row`.
        column: bool,
        /// `dense`.
        dense: bool,
    },
    /// A line value.
    Line(LineValue),
    /// `order`.
    Order(i32),
    /// A size, gap, margin, padding or border width.
    Size(Size),
    /// `box-sizing`: `border-box`, else `content-box`.
    BorderBox(bool),
    /// `overflow`.
    Overflow(Scroll),
    /// An alignment.
    Align(Align),
    /// `flex-direction`: `column`, else `row`.
    Column(bool),
    /// `flex-wrap`: `wrap`, else `nowrap`.
    Wrap(bool),
    /// A flex factor, in thousandths.
    Factor(u32),
}

// By hand: a crate that drops values then proves one call, and not again the drop of each part.
impl Drop for Value {
    fn drop(self) {
        match self {
            Value::Template(template) => drop(template),
            Value::Areas(areas) => drop(areas),
            Value::Sizes(sizes) => drop(sizes),
            Value::Flow {
                column: _,
                dense: _,
            }
            | Value::Line(_)
            | Value::Order(_)
            | Value::Size(_)
            | Value::BorderBox(_)
            | Value::Overflow(_)
            | Value::Align(_)
            | Value::Column(_)
            | Value::Wrap(_)
            | Value::Factor(_) => {}
        }
    }
}

impl Copied for Areas {
    fn copy(&self, alloc: Global) -> Result<Areas, NoMemory> {
        Ok(Areas {
            columns: self.columns,
            rows: self.rows,
            named: Sequence::from_slice(alloc, self.named.as_slice())?,
        })
    }
}

impl Copied for Value {
    fn copy(&self, alloc: Global) -> Result<Value, NoMemory> {
        match self {
            Value::Template(template) => Ok(Value::Template(template.copy(alloc)?)),
            Value::Areas(areas) => Ok(Value::Areas(areas.copy(alloc)?)),
            Value::Sizes(sizes) => Ok(Value::Sizes(Sequence::from_slice(alloc, sizes.as_slice())?)),
            Value::Flow { column, dense } => Ok(Value::Flow {
                column: *column,
                dense: *dense,
            }),
            Value::Line(line) => Ok(Value::Line(*line)),
            Value::Order(order) => Ok(Value::Order(*order)),
            Value::Size(size) => Ok(Value::Size(*size)),
            Value::BorderBox(border) => Ok(Value::BorderBox(*border)),
            Value::Overflow(scroll) => Ok(Value::Overflow(*scroll)),
            Value::Align(align) => Ok(Value::Align(*align)),
            Value::Column(column) => Ok(Value::Column(*column)),
            Value::Wrap(wrap) => Ok(Value::Wrap(*wrap)),
            Value::Factor(factor) => Ok(Value::Factor(*factor)),
        }
    }
}
