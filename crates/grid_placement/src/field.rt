//! The columns in which the items that are left are placed (CSS Grid 2, 8.5, step 3).
ghost use Rattle.std.specs.Prelude.{◌≡◌, ℕ, pos, option_to_list, map};
ghost use Rattle.lunit.specs.declared.geometry.Span.{Span};
ghost use Rattle.part_rules.specs.Placement.{columns_for, definite_span, first_row, waiting_in};
ghost use Rattle.grid_placement.specs.Entries.{all_seen};
ghost use Rattle.grid_placement.specs.Fields.{columns_in, range_on, rows_in, span_of};

use crate::entry::Entry;
use lunit::{Area, Span, Spot};

/// Where the items that are left are placed: in these columns, in the rows from the first on, and
/// in dense mode or not.
#[derive(Clone, Copy)]
pub struct Field {
    /// The first line of the columns.
    pub first: i32,
    /// The last line of the columns.
    pub last: i64,
    /// The first row.
    pub row: i32,
    /// Whether each search begins at the first row and column.
    pub dense: bool,
}

/// A range of lines.
#[derive(Clone, Copy)]
struct Lines {
    first: i32,
    last: i64,
}

impl Lines {
    /// The least range that has this one and the span, if there is one.
    fn with(self, span: Option<Span>) -> Lines
        ensures { span_of result ≡ range_on (span_of self) (option_to_list span) }
    {
        match span {
            None => self,
            Some(span) => Lines {
                first: span.start.min(self.first),
                last: (span.end as i64).max(self.last),
            },
        }
    }
}

/// The lines of a definite place.
fn definite(spot: Spot) -> Option<Span>
    ensures { option_to_list result ≡ definite_span spot }
{
    match spot {
        Spot::At(span) => Some(span),
        Spot::Free(_) => None,
    }
}

/// The columns of the area, if there is one.
fn columns_of(area: Option<Area>) -> Option<Span>
    ensures { option_to_list result ≡ columns_in area }
{
    match area {
        Some(area) => Some(area.columns),
        None => None,
    }
}

/// The rows of the area, if there is one.
fn rows_of(area: Option<Area>) -> Option<Span>
    ensures { option_to_list result ≡ rows_in area }
{
    match area {
        Some(area) => Some(area.rows),
        None => None,
    }
}

/// The columns that an item without an area spans, where it has no definite column; else 0.
fn waiting(entry: Entry) -> u32
    ensures { result ≡ waiting_in entry.area entry.wish.column }
{
    match (entry.area, entry.wish.column) {
        (None, Spot::Free(tracks)) => tracks,
        _ => 0,
    }
}

/// The field for items of which some have their areas: the columns are the least range that has the
/// explicit ones, all definite column spans and all areas, and grow at their end to the greatest
/// column span of the other items.
pub fn field_of(entries: &[Entry], explicit: u32, dense: bool) -> Field
    ensures columns { (let columns : Span = record { start = result.first; end = result.last } in
        columns ≡ columns_for explicit (all_seen entries.now)) }
    ensures row { (rows : ℕ) → result.row ≡ first_row rows (all_seen entries.now) }
    ensures dense { result.dense ≡ dense }
{
    let mut columns = Lines {
        first: 0,
        last: explicit as i64,
    };
    let mut rows = Lines { first: 0, last: 0 };
    let mut widest = 0;
    for entry in entries {
        let wish = entry.wish;
        columns = columns
            .with(definite(wish.column))
            .with(columns_of(entry.area));
        rows = rows.with(definite(wish.row)).with(rows_of(entry.area));
        widest = widest.max(waiting(*entry));
    }
    Field {
        first: columns.first,
        last: columns.last.max(columns.first as i64 + widest as i64),
        row: rows.first,
        dense,
    }
}
